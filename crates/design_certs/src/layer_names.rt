ghost use Rattle.std.specs.Prelude.{◌≡◌, ◌↔◌, IsTrue};
ghost use Rattle.design_certs.specs.DesignCerts.{design_names, HasPin};

use crate::classes::{class_lines, is_class_line};
use bud_base::{ClassId, NodeId, Text};
use bud_design::{Constraints, Layered};
use cert_text::{CertClass, CertClasses};
use flat_design::Flat;
use plan_cert::Naming;
use std::alloc::{AllocError, Global};

/// A layering with its design and its constraints, which name the lines of certificates.
#[derive(Clone, Copy, Debug)]
pub struct LayerNames<'a> {
    pub layered: &'a Layered,
    pub flat: &'a Flat,
    pub all: &'a Constraints,
}

impl<'a> Naming for LayerNames<'a> {
    ghost names = { λ s. design_names s.layered.now s.flat.now s.all.now };

    ghost has = { λ s n. HasPin s.layered.now s.flat.now n };

    fn version(&self) -> u32 {
        self.layered.version
    }

    #[tactic(auto, using(crate::proofs::Naming::class_lines_length))]
    fn class_count(&self) -> usize {
        self.layered.classes.len()
    }

    #[tactic(auto, using(crate::proofs::Naming::class_lines_length, crate::proofs::Naming::class_line_is))]
    fn is_class(&self, number: usize, line: &CertClass) -> bool {
        match self.layered.classes.as_slice().get(number) {
            Some(class) => is_class_line(self.all, number, class, line),
            None => false,
        }
    }

    fn is_name(&self, node: NodeId, name: &[u8]) -> bool {
        let pin = self.layered.nodes.as_slice()[node.0 as usize].pin;
        self.flat.pin_is_named(pin, name)
    }

    fn class_of(&self, node: NodeId) -> ClassId {
        self.layered.nodes.as_slice()[node.0 as usize].class
    }

    #[tactic(auto, using(crate::proofs::Naming::class_lines_length))]
    fn class_lines(&self, alloc: Global) -> Result<CertClasses, AllocError> {
        class_lines(alloc, self.all, self.layered.classes.as_slice())
    }

    fn name_of(&self, alloc: Global, node: NodeId) -> Result<Text, AllocError> {
        let pin = self.layered.nodes.as_slice()[node.0 as usize].pin;
        let mut name = Text::new(alloc);
        self.flat.name_of(pin, &mut name)?;
        Ok(name)
    }
}
