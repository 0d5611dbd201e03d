ghost use Rattle.std.specs.Prelude.{◌≡◌, ◌↔◌, ◌<◌, ◌^◌, ℕ, length, IsTrue, IfOk};
ghost use Rattle.std.specs.List.{AllByRecursion};
ghost use Rattle.plan_cert.specs.Names.{Names, HasClassNumbers};
ghost use Rattle.plan_cert.specs.Lines.{class_line};

use bud_base::{ClassId, NodeId, Text};
use cert_text::{CertClass, CertClasses};
use std::alloc::{AllocError, Global};

/// What names the lines of certificates: a raw problem, or a layering with its design.
pub trait Naming {
    /// The names.
    ghost names: { Self → Names };

    /// The node of this number has a name.
    ghost has: { Self → ℕ → Type 0 };

    /// The version of the policy.
    fn version(&self) -> u32
        ensures { result ≡ (names self.now).version };

    /// How many classes have a line.
    fn class_count(&self) -> usize
        ensures { result ≡ length (names self.now).classes };

    /// Whether there is a class of this number and the line is its.
    fn is_class(&self, number: usize, line: &CertClass) -> bool
        ensures { IsTrue result ↔ ((number < length (names self.now).classes) × (line.now ≡ class_line (names self.now).classes number)) };

    /// Whether this is the node's name.
    fn is_name(&self, node: NodeId, name: &[u8]) -> bool
        requires { has self.now node.0 }
        ensures { IsTrue result ↔ (name.now ≡ (names self.now).node_name node.0) };

    /// The class of the node.
    fn class_of(&self, node: NodeId) -> ClassId
        requires { has self.now node.0 }
        ensures { result.0 ≡ (names self.now).node_class node.0 };

    /// The lines of the classes.
    fn class_lines(&self, alloc: Global) -> Result<CertClasses, AllocError>
        requires { length (names self.now).classes < 2 ^ 32 }
        ensures lines { IfOk result (λ lines. lines ≡ (names self.now).classes) }
        ensures numbers { IfOk result (AllByRecursion HasClassNumbers) };

    /// The node's name.
    fn name_of(&self, alloc: Global, node: NodeId) -> Result<Text, AllocError>
        requires { has self.now node.0 }
        ensures { IfOk result (λ name. name ≡ (names self.now).node_name node.0) };
}
