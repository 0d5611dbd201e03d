//! The end of a run: the files that a job writes, in order, and then what it prints.
ghost use Rattle.std.specs.Prelude.{◌≡◌, ◌≤◌};
ghost use Rattle.budget_steps.specs.Inputs.{seen};
ghost use Rattle.budget_steps.specs.Outcomes.{says};
ghost use Rattle.budget_top.specs.Runs.{IsEnd, IsFinished, IsPut, said_or_memory, stop_said};
ghost use Rattle.budget_top.specs.Writing.{IsKept};

use bud_shelf::{Shelf, Sink, SinkFault};
use budget_report::{Cause, Status};
use budget_steps::{Answer, Said, Stop, Write, stopped};
use std::alloc::{AllocError, Global};

/// Writes the files of an answer and puts its text, or that of a refusal, and answers the number of the status.
pub fn finish<S: Shelf, K: Sink>(
    alloc: Global,
    shelf: &mut S,
    out: &mut K,
    ended: Result<Answer, Stop>,
) -> u8
    ensures finished { IsFinished ended (seen S.files S.faults shelf.old shelf.new) (seen K.taken K.faults out.old out.new) result }
    ensures later { S.faults shelf.old ≤ S.faults shelf.new }
{
    match said(alloc, shelf, ended) {
        Ok(said) => put(out, said.status, said.text.as_slice()),
        Err(_) => put(out, Status::Memory, b"memory\n"),
    }
}

/// What there is to say, once the files are written.
fn said<S: Shelf>(
    alloc: Global,
    shelf: &mut S,
    ended: Result<Answer, Stop>,
) -> Result<Said, AllocError>
    ensures said { IsEnd ended (seen S.files S.faults shelf.old shelf.new) (said_or_memory result) }
    ensures later { S.faults shelf.old ≤ S.faults shelf.new }
{
    match ended {
        Ok(answer) => match keep(alloc, shelf, answer.writes.as_slice()) {
            Ok(()) => Ok(answer.said),
            Err(stop) => told(stop),
        },
        Err(stop) => told(stop),
    }
}

/// What there is to say of an end before the answer.
fn told(stop: Stop) -> Result<Said, AllocError>
    ensures { said_or_memory result ≡ stop_said stop }
{
    match stop {
        Stop::Refused(said) => Ok(said),
        Stop::NoMemory => Err(AllocError),
    }
}

/// Writes the files in order, up to the first that can't be written.
fn keep<S: Shelf>(alloc: Global, shelf: &mut S, writes: &[Write]) -> Result<(), Stop>
    ensures kept { IsKept (seen S.files S.faults shelf.old shelf.new) writes.now result }
    ensures later { S.faults shelf.old ≤ S.faults shelf.new }
{
    for write in writes {
        let name = write.name.as_str();
        match shelf.write(name, write.bytes.as_slice()) {
            Ok(()) => {}
            Err(fault) => return Err(stopped(alloc, name, fault)),
        }
    }
    Ok(())
}

/// Puts the text, and answers the number of the status or that of the sink's refusal.
fn put<K: Sink>(out: &mut K, status: Status, text: &[u8]) -> u8
    ensures { IsPut (seen K.taken K.faults out.old out.new) (says status text.now) result }
{
    match out.put(text) {
        Ok(()) => status.code(),
        Err(SinkFault::Failed) => Cause::Sink.status().code(),
        Err(SinkFault::NoMemory) => Status::Memory.code(),
    }
}
