ghost use Rattle.std.specs.Prelude.{◌≡◌, ◌≤◌, ℕ, List, IfOk, length};
ghost use Rattle.bud_shelf.specs.Outside.{longest_file};
ghost use Rattle.budget_report.specs.Subjects.{bare};
ghost use Rattle.budget_report.specs.Causes.{Concerns};
ghost use Rattle.budget_steps.specs.Steps.{Follows, step};
ghost use Rattle.budget_steps.specs.Inputs.{Grammar, IsStopped, seen, file, input};

use crate::outcomes::{Stop, refused, refused_by};
use bud_base::Text;
use bud_shelf::{Shelf, ShelfFault};
use budget_report::{Cause, Scene};
use std::alloc::{AllocError, Global};

/// A kind of input file.
pub trait Input {
    type Value: Drop;

    type Fault: Drop;

    /// What the reader answers to the bytes of a file, and the cause of a refusal.
    ghost grammar: { Grammar Self.Value Self.Fault };

    /// What is known of each value that is read.
    ghost is_value: { Self.Value → Type 0 };

    fn read(alloc: Global, text: &[u8]) -> Result<Self::Value, Self::Fault>
        requires { length text.now ≤ longest_file }
        ensures answer { grammar.answers text.now result }
        ensures value { IfOk result is_value };

    fn cause(name: Text, fault: Self::Fault) -> Cause
        ensures cause { result ≡ grammar.cause name fault }
        ensures concerns { Concerns bare result };
}

/// The value that a file of the shelf reads as.
pub fn load<R: Input, S: Shelf>(alloc: Global, shelf: &mut S, name: &str) -> Result<R::Value, Stop>
    ensures input { Follows (input (seen S.files S.faults shelf.old shelf.new) R.grammar name.now) result }
    ensures value { IfOk result R.is_value }
    ensures files { S.files shelf.new ≡ S.files shelf.old }
    ensures later { S.faults shelf.old ≤ S.faults shelf.new }
{
    let text = read_file(alloc, shelf, name)?;
    read_text::<R>(alloc, name, text.as_slice())
}

/// The value that bytes read as; the name is that of their file.
pub fn read_text<R: Input>(alloc: Global, name: &str, text: &[u8]) -> Result<R::Value, Stop>
    requires { length text.now ≤ longest_file }
    ensures reading { Follows (step (R.grammar.answers text.now) bare (R.grammar.cause name.now)) result }
    ensures value { IfOk result R.is_value }
{
    match R::read(alloc, text) {
        Ok(value) => Ok(value),
        Err(fault) => {
            let name = name_text(alloc, name)?;
            let cause = R::cause(name, fault);
            Err(refused(alloc, &cause, Scene::Bare))
        }
    }
}

/// The bytes of a file.
fn read_file<S: Shelf>(alloc: Global, shelf: &mut S, name: &str) -> Result<Text, Stop>
    ensures file { Follows (file (seen S.files S.faults shelf.old shelf.new) name.now) result }
    ensures files { S.files shelf.new ≡ S.files shelf.old }
    ensures later { S.faults shelf.old ≤ S.faults shelf.new }
{
    let mut bytes = Vec::new(alloc);
    match shelf.read(name, &mut bytes) {
        Ok(()) => Ok(Text::from_vec(bytes)),
        Err(fault) => Err(stopped(alloc, name, fault)),
    }
}

/// The end of a job that can't read or write this file.
pub fn stopped(alloc: Global, name: &str, fault: ShelfFault) -> Stop
    ensures { IsStopped name.now fault result }
{
    let Ok(name) = name_text(alloc, name) else {
        return Stop::NoMemory;
    };
    let cause = match fault {
        ShelfFault::TooLong(count) => Cause::Length(name, count),
        ShelfFault::Missing | ShelfFault::Failed => Cause::Shelf(name),
        ShelfFault::NoMemory => return Stop::NoMemory,
    };
    refused_by(alloc, cause, Scene::Bare)
}

/// A file's name as a text.
fn name_text(alloc: Global, name: &str) -> Result<Text, AllocError>
    ensures { IfOk result (λ text. text ≡ name.now) }
{
    let bytes = Vec::from_slice(alloc, name.as_bytes())?;
    Ok(Text::from_vec(bytes))
}
