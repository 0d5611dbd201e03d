ghost use Rattle.std.specs.Prelude.{◌≡◌};
ghost use Rattle.budget_report.specs.Subjects.{subject_of};
ghost use Rattle.budget_report.specs.Causes.{Concerns};
ghost use Rattle.budget_steps.specs.declared.outcomes.Stop.TheVariants.{NoMemory};
ghost use Rattle.budget_steps.specs.Outcomes.{done};
ghost use Rattle.budget_steps.specs.Steps.{IsRefused};

use bud_base::{Listed, Text};
use budget_report::{Cause, Scene, Status, fault_text};
use std::alloc::{AllocError, Global};

/// How a run ends, and what it prints.
#[derive(Debug, Drop)]
pub struct Said {
    pub status: Status,
    pub text: Text,
}

/// A file that a job writes.
#[derive(Debug, Drop)]
pub struct Write {
    pub name: String,
    pub bytes: Text,
}

/// What a job comes to that isn't refused.
#[derive(Debug, Drop)]
pub struct Answer {
    pub said: Said,
    /// The files to be written, in order.
    pub writes: Listed<Write>,
}

/// The end of a job before its answer.
#[derive(Debug, Drop)]
pub enum Stop {
    /// It is refused, and this names the cause.
    Refused(Said),
    /// Want of memory.
    NoMemory,
}

impl From<AllocError> for Stop {
    ghost from_gives = { λ _ stop. stop ≡ NoMemory };

    fn from(_: AllocError) -> Stop {
        Stop::NoMemory
    }
}

impl Answer {
    /// The answer of a job that is done and writes no file.
    pub fn done(alloc: Global, text: Text) -> Answer
        ensures { result ≡ done text }
    {
        let said = Said {
            status: Status::Done,
            text,
        };
        Answer {
            said,
            writes: Listed::new(alloc),
        }
    }
}

/// The end of a job that is refused for this cause.
pub fn refused(alloc: Global, cause: &Cause, scene: Scene<'_>) -> Stop
    requires { Concerns (subject_of scene) cause.now }
    ensures { IsRefused (record { subject = subject_of scene.entry; cause = cause.now }) result }
{
    match cause.status() {
        Status::Memory => Stop::NoMemory,
        status => match fault_text(alloc, cause, scene) {
            Ok(text) => Stop::Refused(Said { status, text }),
            Err(_) => Stop::NoMemory,
        },
    }
}

/// The same for a cause that is given up.
pub fn refused_by(alloc: Global, cause: Cause, scene: Scene<'_>) -> Stop
    requires { Concerns (subject_of scene) cause }
    ensures { IsRefused (record { subject = subject_of scene.entry; cause = cause }) result }
{
    refused(alloc, &cause, scene)
}
