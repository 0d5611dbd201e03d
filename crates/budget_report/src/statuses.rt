ghost use Rattle.std.specs.Prelude.{◌≡◌};
ghost use Rattle.budget_report.specs.Statuses.{code_of};

/// How a run ends.
#[derive(Clone, Copy, Debug, PartialEq, Eq)]
pub enum Status {
    /// The job is done and its answer printed.
    Done,
    /// The least slack is negative: a worst path is printed.
    Violated,
    /// The words fit no job.
    Words,
    /// The shelf or the sink had a fault, or an input file is missing.
    Fault,
    /// An input file has no reading.
    Refused,
    /// The design, or a raw problem, is refused.
    Design,
    /// A limit is passed.
    Limit,
    /// The certificate doesn't hold.
    Certificate,
    /// Want of memory.
    Memory,
}

impl Status {
    /// The number of the status, from 0 to 8.
    pub fn code(self) -> u8
        ensures { result ≡ code_of self }
    {
        self as u8
    }
}
