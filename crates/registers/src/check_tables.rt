ghost use Rattle.std.specs.Prelude.{◌≡◌, ◌++◌, List, flat_map, filter_map, length, All, IfOk, OnOk};
ghost use Rattle.bud_design.specs.Designs.{Design};
ghost use Rattle.bud_design.specs.Lists.{Lists};
ghost use Rattle.bud_design.specs.Orders.{check_before};
ghost use Rattle.registers.specs.CheckLists.{is_fall, setup_value, values_of_setup, marked_check, HasCheckRoom};
ghost use Rattle.registers.specs.Marks.{IsSetupWithin};
ghost use Rattle.registers.specs.RegisterMarks.{AreMarks};
ghost use Rattle.registers.specs.Registers.{IsCheck};
ghost use Rattle.registers.specs.declared.entries.Through.{Through};

use crate::entries::Setup;
use crate::register_marks::RegisterMarks;
use crate::tables::{Valued, greatest_of_each};
use bud_design::{Check, Checks};
use bud_syntax::Edge;
use std::alloc::{AllocError, Global};

/// The value of a check at an edge.
fn value_at(setup: &Setup, edge: Edge) -> Valued
    ensures { result ≡ setup_value setup.now edge }
{
    let falls = match edge {
        Edge::Rise => false,
        Edge::Fall => true,
    };
    Valued {
        first: setup.pin,
        second: setup.clock,
        falls,
        value: setup.value,
    }
}

/// Adds the values of a check, one for each edge that it counts for.
fn add(values: &mut Vec<Valued>, setup: &Setup) -> Result<(), AllocError>
    ensures { OnOk result (values.new.items ≡ values.old.items ++ values_of_setup setup.now) }
{
    match setup.edge {
        None => {
            values.push(value_at(setup, Edge::Rise))?;
            values.push(value_at(setup, Edge::Fall))?;
        }
        Some(edge) => values.push(value_at(setup, edge))?,
    }
    Ok(())
}

/// The checks as values at their pins and edges.
fn setup_values(alloc: Global, setups: &[Setup]) -> Result<Vec<Valued>, AllocError>
    ensures { IfOk result (λ values. values.items ≡ flat_map values_of_setup setups.now) }
{
    let mut values = Vec::new(alloc);
    for setup in setups {
        add(&mut values, setup)?;
    }
    Ok(values)
}

/// The check of a value, where it stands at a data pin.
fn check_of(marks: &RegisterMarks, amount: &Valued) -> Option<Check>
    requires { HasCheckRoom marks.now amount.now }
    ensures { result ≡ marked_check marks.now amount.now }
{
    let pin = amount.first.0 as usize;
    if !marks.checked[pin] || marks.clocks[pin] {
        return None;
    }
    let edge = if amount.falls { Edge::Fall } else { Edge::Rise };
    Some(Check {
        pin: amount.first,
        clock: amount.second,
        edge,
        amount: amount.value,
    })
}

/// The checks at data pins.
fn at_data_pins(
    alloc: Global,
    marks: &RegisterMarks,
    amounts: &[Valued],
) -> Result<Checks, AllocError>
    requires { All (HasCheckRoom marks.now) amounts.now }
    ensures { IfOk result (λ checks. checks ≡ filter_map (marked_check marks.now) amounts.now) }
{
    let mut checks = Vec::new(alloc);
    for amount in amounts {
        if let Some(check) = check_of(marks, amount) {
            checks.push(check)?;
        }
    }
    Ok(Checks::from_vec(checks))
}

/// The setup checks at data pins, in order of data pin, clock pin and edge, with the greatest amount of each.
pub fn check_table(
    alloc: Global,
    setups: &[Setup],
    marks: &RegisterMarks,
) -> Result<Checks, AllocError>
    requires { (d : Design) × ((throughs : List Through) × (AreMarks d throughs setups.now marks.now × All (IsSetupWithin (length d.pins)) setups.now)) }
    ensures { IfOk result (Lists check_before (IsCheck setups.now)) }
{
    let mut values = setup_values(alloc, setups)?;
    let amounts = greatest_of_each(alloc, &mut values)?;
    at_data_pins(alloc, marks, &amounts)
}
