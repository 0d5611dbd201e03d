ghost use Rattle.std.specs.Prelude.{◌≡◌, ◌≤◌, None, IsOkUnless, is_ok};
ghost use Rattle.bud_shelf.specs.Outside.{IsPutAnswer};

use bud_shelf::{Sink, SinkFault};
use std::io;
use std::io::Write;

/// Standard output. It tells no content.
#[derive(Drop)]
pub struct StdSink<'a, R> {
    rt: &'a R,
    faults: u64,
}

impl<'a, R: Print> StdSink<'a, R> {
    pub fn new(rt: &'a R) -> StdSink<'a, R> {
        StdSink { rt, faults: 0 }
    }
}

impl<R: Print> Sink for StdSink<'_, R> {
    ghost taken = { λ _. None };

    ghost faults = { λ sink. sink.faults };

    fn put(&mut self, bytes: &[u8]) -> Result<(), SinkFault>
        ensures count { self.old.faults ≤ self.new.faults }
        ensures answer { IsPutAnswer None None self.old.faults self.new.faults bytes.now result }
        // A refusal is always told as a failed call.
        ensures failed { IsOkUnless result SinkFault.Failed }
    {
        match told(print(self.rt, bytes)) {
            Ok(()) => Ok(()),
            Err(fault) => {
                self.faults = self.faults.saturating_add(1);
                Err(fault)
            }
        }
    }
}

/// The sink's answer to what printing came to: Ok exactly where all was printed.
fn told(printed: io::Result<()>) -> Result<(), SinkFault>
    ensures printed { is_ok result ≡ is_ok printed }
    ensures failed { IsOkUnless result SinkFault.Failed }
{
    match printed {
        Ok(()) => Ok(()),
        Err(_) => Err(SinkFault::Failed),
    }
}

fn print(rt: &impl Print, bytes: &[u8]) -> io::Result<()> {
    let mut out = io::writer(rt);
    out.write_all(bytes)?;
    out.flush()
}
