ghost use Rattle.std.specs.Prelude.{◌≡◌, ◌↔◌, ℕ, IsTrue};
ghost use Rattle.std.specs.Fmt.{decimal};
ghost use Rattle.plan_cert.specs.Raw.{raw_names};

use crate::naming::Naming;
use bud_base::{ClassId, NodeId, Problem, Text};
use cert_text::{CertClass, CertClasses};
use std::alloc::{AllocError, Global};

// Whether the name is the number in decimal.
fn is_decimal(name: &[u8], number: u32) -> bool
    ensures { IsTrue result ↔ (name.now ≡ decimal number) }
{
    let Some((last, front)) = name.split_last() else {
        return false;
    };
    if *last != b'0' + (number % 10) as u8 {
        return false;
    }
    if number < 10 {
        front.is_empty()
    } else {
        is_decimal(front, number / 10)
    }
}

/// A raw problem's nodes have their numbers as names, and class 0, which has no line.
impl Naming for Problem {
    ghost names = { λ p. raw_names };

    ghost has = { λ p n. Unit {0} };

    fn version(&self) -> u32 {
        1
    }

    fn class_count(&self) -> usize {
        0
    }

    fn is_class(&self, _number: usize, _line: &CertClass) -> bool {
        false
    }

    fn is_name(&self, node: NodeId, name: &[u8]) -> bool {
        is_decimal(name, node.0)
    }

    fn class_of(&self, _node: NodeId) -> ClassId {
        ClassId(0)
    }

    fn class_lines(&self, alloc: Global) -> Result<CertClasses, AllocError> {
        Ok(CertClasses::new(alloc))
    }

    fn name_of(&self, alloc: Global, node: NodeId) -> Result<Text, AllocError> {
        let name = node.0.to_string(alloc)?;
        Ok(Text::from_vec(name.into_bytes()))
    }
}
