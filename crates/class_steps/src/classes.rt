ghost use Rattle.std.specs.Prelude.{◌≡◌, ◌↔◌, IsTrue, IfOk};
ghost use Rattle.bud_design.specs.Exceptions.{class_at};
ghost use Rattle.class_steps.specs.Groups.{AreGroupPins};

use crate::groups::GroupPins;
use crate::steps::next_steps;
use bud_base::{Listed, PinId};
use bud_design::{Class, Constraints};
use std::alloc::{AllocError, Global};

/// The class behind one more pin, by the pins of the exceptions' groups; in time linear in the class.
pub fn next_class(
    alloc: Global,
    all: &Constraints,
    groups: &GroupPins,
    class: &Class,
    pin: PinId,
) -> Result<Class, AllocError>
    requires { AreGroupPins all.now.exceptions groups.now }
    ensures { IfOk result (λ k. k ≡ class_at all.now class.now pin.0) }
{
    let mut met = Vec::new(alloc);
    for before in class.exceptions.as_slice() {
        let after = next_steps(all.exceptions.as_slice(), groups, before, pin)?;
        met.push(after)?;
    }
    Ok(Class {
        clock: class.clock,
        edge: class.edge,
        exceptions: Listed::from_vec(met),
    })
}

pub fn same_class(class: &Class, other: &Class) -> bool
    ensures { IsTrue result ↔ (class.now ≡ other.now) }
{
    if class.clock != other.clock || class.edge != other.edge {
        return false;
    }
    class.exceptions.as_slice() == other.exceptions.as_slice()
}
