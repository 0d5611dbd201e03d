ghost use Rattle.std.specs.Prelude.{◌≡◌, ◌↔◌, IsTrue};
ghost use Rattle.plan_cert.specs.Lines.{NamesNode, NamesItem, NamesFlow};

use crate::naming::Naming;
use bud_base::{Item, NodeId};
use cert_text::{CertFlow, CertItem, CertNode};

// Whether the line names this node.
pub fn names_node<N: Naming>(names: &N, line: &CertNode, node: NodeId) -> bool
    requires { N.has names.now node.0 }
    ensures { IsTrue result ↔ NamesNode (N.names names.now) line.now node.0 }
{
    line.class.0 == names.class_of(node).0 && names.is_name(node, line.name.as_slice())
}

// Whether the line names the item's nodes.
pub fn names_item<N: Naming>(names: &N, line: &CertItem, item: &Item) -> bool
    requires first { N.has names.now item.now.from.0 }
    requires last { N.has names.now item.now.to.0 }
    ensures { IsTrue result ↔ NamesItem (N.names names.now) line.now item.now }
{
    line.class.0 == names.class_of(item.from).0
        && names.is_name(item.from, line.from.as_slice())
        && names.is_name(item.to, line.to.as_slice())
}

// Whether the line names this node.
pub fn names_flow<N: Naming>(names: &N, line: &CertFlow, node: NodeId) -> bool
    requires { N.has names.now node.0 }
    ensures { IsTrue result ↔ NamesFlow (N.names names.now) line.now node.0 }
{
    line.class.0 == names.class_of(node).0 && names.is_name(node, line.name.as_slice())
}
