ghost use Rattle.std.specs.Prelude.{◌≡◌, ◌<◌, map, length, IfOk};
ghost use Rattle.met_lists.specs.Launches.{IsKeyed, IsLaunchTable};

use bud_design::Launch;
use name_tables::Chains;
use std::alloc::{AllocError, Global};

/// The keys of numbers, and the numbers by them.
#[derive(Debug, Drop)]
pub struct Keyed {
    pub keys: Vec<u32>,
    pub chains: Chains,
}

impl Keyed {
    /// Numbers from 0 on that have these keys.
    fn of(alloc: Global, keys: Vec<u32>) -> Result<Keyed, AllocError>
        requires { length keys.items < 2147483648 }
        ensures { IfOk result (IsKeyed keys.items) }
    {
        let chains = Chains::of(alloc, 0, keys.as_slice())?;
        Ok(Keyed { keys, chains })
    }
}

/// Launches by their pins and by their clocks.
#[derive(Debug, Drop)]
pub struct LaunchTable {
    pub pins: Keyed,
    pub clocks: Keyed,
}

fn pins_of(alloc: Global, launches: &[Launch]) -> Result<Vec<u32>, AllocError>
    ensures { IfOk result (λ pins. pins.items ≡ map (λ l. l.pin.0) launches.now) }
{
    let mut pins = Vec::new(alloc);
    for launch in launches {
        pins.push(launch.pin.0)?;
    }
    Ok(pins)
}

fn clocks_of(alloc: Global, launches: &[Launch]) -> Result<Vec<u32>, AllocError>
    ensures { IfOk result (λ clocks. clocks.items ≡ map (λ l. l.clock) launches.now) }
{
    let mut clocks = Vec::new(alloc);
    for launch in launches {
        clocks.push(launch.clock)?;
    }
    Ok(clocks)
}

impl LaunchTable {
    /// The table of these launches, in time linear in them.
    pub fn of(alloc: Global, launches: &[Launch]) -> Result<LaunchTable, AllocError>
        requires { length launches.now < 2147483648 }
        ensures { IfOk result (IsLaunchTable launches.now) }
    {
        let pins = pins_of(alloc, launches)?;
        let clocks = clocks_of(alloc, launches)?;
        Ok(LaunchTable {
            pins: Keyed::of(alloc, pins)?,
            clocks: Keyed::of(alloc, clocks)?,
        })
    }
}
