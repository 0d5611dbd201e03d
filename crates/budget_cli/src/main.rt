//! The program: its words, the real files and standard output.
#![tactic(auto)]

mod disk;
mod printed;
#[cfg(test)]
mod tests;

use bud_shelf::Sink;
use budget_top::run_budget;
use disk::DiskShelf;
use printed::StdSink;
use std::alloc::Global;
use std::io::ErrorKind;
use std::process::ExitCode;
use std::rt::Env;
use std::{env, io};

fn main(rt: HostRuntime) -> ExitCode {
    let mut shelf = DiskShelf::new(&rt);
    let mut sink = StdSink::new(&rt);
    let words = match words(&rt) {
        Ok(words) => words,
        Err(error) if error.kind() == ErrorKind::OutOfMemory => return out_of_memory(&mut sink),
        // A word that isn't UTF-8 fits no job.
        Err(_) => Vec::new(rt.alloc()),
    };
    ExitCode::from(run_budget(rt.alloc(), words.as_slice(), &mut shelf, &mut sink))
}

/// Ends as a run does for want of memory.
fn out_of_memory(sink: &mut impl Sink) -> ExitCode {
    let _ = sink.put(b"memory\n");
    ExitCode::from(8)
}

/// The words behind the program's name.
fn words<R: Env + Alloc<A = Global>>(rt: &R) -> io::Result<Vec<String>> {
    let words = env::args(rt)?.skip(1).collect(rt.alloc())?;
    Ok(words)
}
