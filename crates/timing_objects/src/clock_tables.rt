ghost use Rattle.std.specs.Prelude.{◌≡◌, ◌==◌, ◌||◌, ◌<◌, ℕ, [], ◌∷◌, ◌++◌, length, IfOk, OnOk};
ghost use Rattle.std.specs.List.{list_any};
ghost use Rattle.bud_design.specs.Clocks.{clock_called};
ghost use Rattle.timing_objects.specs.ClockTables.{has_source, holds};

use bud_base::PinId;
use bud_design::{Clock, Clocks};
use indexmap::IndexSet;
use std::alloc::{AllocError, Global};
use std::marker::Model;
use text_tables::TextTable;

/// Clocks, each found by its name and by its sources in one look-up.
#[derive(Drop)]
pub struct ClockTable {
    clocks: Clocks,
    names: TextTable,
    sources: IndexSet<u32>,
}

impl Model for ClockTable {
    ghost use Rattle.std.specs.Prelude.{List};
    ghost use Rattle.bud_design.specs.declared.clocks.Clock.{Clock};
    ghost use Rattle.timing_objects.specs.ClockTables.{AreFound};

    ghost Value = { List Clock };

    ghost view = { λ t. t.clocks };

    ghost invariant = { λ t. AreFound t.clocks t.names t.sources.keys };
}

/// Adds the pins to the numbers of sources.
fn add_sources(sources: &mut IndexSet<u32>, pins: &[PinId]) -> Result<(), AllocError>
    ensures { OnOk result ((v : ℕ) → holds sources.new.keys v ≡ (holds sources.old.keys v || list_any (λ p. p.0 == v) pins.now)) }
{
    for pin in pins {
        add_source(sources, *pin)?;
    }
    Ok(())
}

fn add_source(sources: &mut IndexSet<u32>, pin: PinId) -> Result<(), AllocError>
    ensures { OnOk result ((v : ℕ) → holds sources.new.keys v ≡ (holds sources.old.keys v || pin.0 == v)) }
{
    match sources.insert_full(pin.0) {
        Ok(_) => Ok(()),
        Err(_) => Err(AllocError),
    }
}

impl ClockTable {
    /// No clocks.
    pub fn new(alloc: Global) -> ClockTable
        ensures { result ≡ [] }
    {
        ClockTable {
            clocks: Clocks::new(alloc),
            names: TextTable::new(alloc),
            sources: IndexSet::new(alloc),
        }
    }

    /// The clocks, with one more behind them.
    pub fn with(self, alloc: Global, clock: Clock) -> Result<ClockTable, AllocError>
        ensures { IfOk result (λ table. table ≡ self ++ clock ∷ []) }
    {
        let ClockTable {
            clocks: mut all,
            mut names,
            mut sources,
        } = self;
        let Ok(number) = u32::try_from(all.len()) else {
            return Err(AllocError);
        };
        names.enter(alloc, clock.name.as_slice(), number)?;
        add_sources(&mut sources, clock.sources.as_slice())?;
        all.push(clock)?;
        Ok(ClockTable {
            clocks: all,
            names,
            sources,
        })
    }

    pub fn as_slice(&self) -> &[Clock]
        ensures { result.now ≡ self.now }
    {
        self.clocks.as_slice()
    }

    /// The clocks without their table.
    pub fn into_clocks(self) -> Clocks
        ensures { result ≡ self }
    {
        let ClockTable {
            clocks,
            names: _,
            sources: _,
        } = self;
        clocks
    }

    /// The number of the clock of this name.
    pub fn called(&self, name: &[u8]) -> Option<u32>
        ensures { result ≡ clock_called self.now name.now }
    {
        match self.names.find(name) {
            Some(standing) => Some(standing.first),
            None => None,
        }
    }

    /// Whether a clock has the pin as a source.
    pub fn has_source(&self, pin: PinId) -> bool
        ensures { result ≡ has_source self.now pin.0 }
    {
        self.sources.contains(&pin.0)
    }
}
