ghost use Rattle.std.specs.Prelude.{◌≡◌, ◌==◌, ◌||◌, ◌&&◌, ℕ, not, IfOk, OnOk};
ghost use Rattle.bud_design.specs.Exceptions.{has_pin, group_after};
ghost use Rattle.class_steps.specs.Groups.{holds, same_pin, has_number, AreGroupPins};
ghost use Rattle.class_steps.specs.declared.groups.GroupPin.{GroupPin};

use bud_base::PinId;
use bud_design::Exception;
use indexmap::IndexSet;
use std::alloc::{AllocError, Global};

/// A pin of the group that comes behind so many steps of an exception.
#[derive(Clone, Copy, Debug, PartialEq, Eq, Hash)]
pub struct GroupPin {
    pub number: u32,
    pub steps: u32,
    pub pin: PinId,
}

/// The pins of the groups of exceptions, each found by one look-up.
#[derive(Debug, Drop)]
pub struct GroupPins {
    pub pins: IndexSet<GroupPin>,
}

fn add_pin(pins: &mut IndexSet<GroupPin>, pin: GroupPin) -> Result<(), AllocError>
    ensures { OnOk result ((q : GroupPin) → holds pins.new.keys q ≡ (holds pins.old.keys q || same_pin pin q)) }
{
    match pins.insert_full(pin) {
        Ok(_) => Ok(()),
        Err(_) => Err(AllocError),
    }
}

/// Adds the pins of the group behind so many steps of the exception of this number.
fn add_group(
    number: u32,
    steps: u32,
    group: &[PinId],
    pins: &mut IndexSet<GroupPin>,
) -> Result<(), AllocError>
    ensures { OnOk result ((q : GroupPin) → holds pins.new.keys q ≡ (holds pins.old.keys q || (number == q.number && (steps == q.steps && has_pin group.now q.pin.0)))) }
{
    for pin in group {
        add_pin(
            pins,
            GroupPin {
                number,
                steps,
                pin: *pin,
            },
        )?;
    }
    Ok(())
}

/// Adds the pins of the exception's groups.
fn add_groups(exception: &Exception, pins: &mut IndexSet<GroupPin>) -> Result<(), AllocError>
    ensures { OnOk result ((q : GroupPin) → holds pins.new.keys q ≡ (holds pins.old.keys q || (exception.now.number == q.number && has_pin (group_after q.steps exception.now.groups) q.pin.0))) }
{
    for (place, group) in exception.groups.as_slice().iter().enumerate() {
        let Ok(steps) = u32::try_from(place) else {
            return Err(AllocError);
        };
        add_group(exception.number, steps, group.as_slice(), pins)?;
    }
    Ok(())
}

/// Whether the number is new.
fn note(numbers: &mut IndexSet<u32>, number: u32) -> Result<bool, AllocError>
    ensures fresh { IfOk result (λ fresh. fresh ≡ not (has_number numbers.old.keys number)) }
    ensures noted { OnOk result ((v : ℕ) → has_number numbers.new.keys v ≡ (has_number numbers.old.keys v || number == v)) }
{
    match numbers.insert_full(number) {
        Ok((_, fresh)) => Ok(fresh),
        Err(_) => Err(AllocError),
    }
}

/// Adds the pins of the exception's groups, where its number is new.
fn gather(
    exception: &Exception,
    numbers: &mut IndexSet<u32>,
    pins: &mut IndexSet<GroupPin>,
) -> Result<(), AllocError>
    ensures noted { OnOk result ((v : ℕ) → has_number numbers.new.keys v ≡ (has_number numbers.old.keys v || exception.now.number == v)) }
    ensures gathered { OnOk result ((q : GroupPin) → holds pins.new.keys q ≡ (holds pins.old.keys q || (not (has_number numbers.old.keys exception.now.number) && (exception.now.number == q.number && has_pin (group_after q.steps exception.now.groups) q.pin.0)))) }
{
    if !note(numbers, exception.number)? {
        return Ok(());
    }
    add_groups(exception, pins)
}

impl GroupPins {
    /// The pins of the groups; of exceptions with one number, those of the first.
    pub fn of(alloc: Global, exceptions: &[Exception]) -> Result<GroupPins, AllocError>
        ensures { IfOk result (λ groups. AreGroupPins exceptions.now groups) }
    {
        let mut pins = IndexSet::new(alloc);
        let mut numbers = IndexSet::new(alloc);
        for exception in exceptions {
            gather(exception, &mut numbers, &mut pins)?;
        }
        Ok(GroupPins { pins })
    }

    /// Whether an exception goes on at the pin behind so many steps.
    pub fn has(&self, pin: GroupPin) -> bool
        ensures { result ≡ holds self.now.pins.keys pin }
    {
        self.pins.contains(&pin)
    }
}
