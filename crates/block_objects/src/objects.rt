ghost use Rattle.std.specs.Prelude.{◌≡◌, ◌++◌, map, decimal, IfOk, OnOk};
ghost use Rattle.bud_syntax.specs.declared.constraints.Object.TheVariants.{Ports, Pins, Clocks};
ghost use Rattle.bud_design.specs.Clocks.{clock_at};
ghost use Rattle.bud_design.specs.Designs.{pin_name as name_below};
ghost use Rattle.block_theory.specs.BlockClocks.{prefix};
ghost use Rattle.block_objects.specs.Names.{AreBlockNames};

use crate::names::{BlockNames, pin_name, virtual_name};
use bud_base::Text;
use bud_design::Constraints;
use bud_syntax::Object;
use std::alloc::{AllocError, Global};

/// Adds port bits of the block as ports. A pin that isn't in the block is answered as want of memory.
pub fn put_ports(
    alloc: Global,
    out: &mut Vec<Object>,
    names: &BlockNames<'_>,
    pins: &[u32],
) -> Result<(), AllocError>
    requires { AreBlockNames names.now }
    ensures { OnOk result (out.new.items ≡ out.old.items ++ map (λ v. Ports (name_below names.now.flat.now names.now.block v)) pins.now) }
{
    for pin in pins {
        out.push(Object::Ports(pin_name(alloc, names, *pin)?))?;
    }
    Ok(())
}

/// Adds pins inside the block, answered alike.
pub fn put_pins(
    alloc: Global,
    out: &mut Vec<Object>,
    names: &BlockNames<'_>,
    pins: &[u32],
) -> Result<(), AllocError>
    requires { AreBlockNames names.now }
    ensures { OnOk result (out.new.items ≡ out.old.items ++ map (λ v. Pins (name_below names.now.flat.now names.now.block v)) pins.now) }
{
    for pin in pins {
        out.push(Object::Pins(pin_name(alloc, names, *pin)?))?;
    }
    Ok(())
}

/// The name of a clock of the design, where it has one of this number.
fn real_name(alloc: Global, all: &Constraints, clock: u32) -> Result<Text, AllocError>
    ensures { IfOk result (λ name. name ≡ (clock_at all.now.clocks clock).name) }
{
    match all.clocks.as_slice().get(clock as usize) {
        Some(clock) => Text::from_slice(alloc, clock.name.as_slice()),
        None => Err(AllocError),
    }
}

/// Adds clocks of the design by their numbers. A number that none has is answered as want of memory.
pub fn put_reals(
    alloc: Global,
    out: &mut Vec<Object>,
    names: &BlockNames<'_>,
    clocks: &[u32],
) -> Result<(), AllocError>
    ensures { OnOk result (out.new.items ≡ out.old.items ++ map (λ c. Clocks (clock_at names.now.all.now.clocks c).name) clocks.now) }
{
    for clock in clocks {
        out.push(Object::Clocks(real_name(alloc, names.all, *clock)?))?;
    }
    Ok(())
}

/// Adds the virtual clocks of classes.
pub fn put_virtuals(
    alloc: Global,
    out: &mut Vec<Object>,
    names: &BlockNames<'_>,
    classes: &[u32],
) -> Result<(), AllocError>
    requires { AreBlockNames names.now }
    ensures { OnOk result (out.new.items ≡ out.old.items ++ map (λ k. Clocks (prefix names.now.all.now.clocks ++ decimal k)) classes.now) }
{
    for class in classes {
        out.push(Object::Clocks(virtual_name(alloc, names, *class)?))?;
    }
    Ok(())
}
