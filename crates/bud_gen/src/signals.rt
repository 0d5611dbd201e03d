//! The signals of a block, and their names.
ghost use Rattle.std.specs.Prelude.{◌≡◌, ◌<◌, ◌++◌, length, decimal, OnOk};
ghost use Rattle.bud_gen.specs.Signals.{back, numbered, signal_name};

use itoa::Buffer;
use std::alloc::AllocError;

/// A signal of a block: an input by its number, or the output of a gate or of its register by the gate's number.
#[derive(Clone, Copy, Debug)]
pub enum Signal {
    Input(u32),
    Net(u32),
    Register(u32),
}

/// The inputs of a block.
pub const INPUTS: [Signal; 4] = [
    Signal::Input(0),
    Signal::Input(1),
    Signal::Input(2),
    Signal::Input(3),
];

/// The signal that stands so many places before the last.
pub fn back(signals: &[Signal], places: usize) -> Signal
    requires { places < length signals.now }
    ensures { result ≡ back signals.now places }
{
    signals[signals.len() - 1 - places]
}

/// Adds a word and a number behind it.
pub fn put_numbered(out: &mut Vec<u8>, title: &[u8], number: u32) -> Result<(), AllocError>
    ensures { OnOk result (out.new.items ≡ out.old.items ++ numbered title.now number) }
{
    out.extend_from_slice(title)?;
    let mut buffer = Buffer::new();
    out.extend_from_slice(buffer.format(number).as_bytes())
}

/// Adds the name of a signal.
pub fn put_signal(out: &mut Vec<u8>, signal: Signal) -> Result<(), AllocError>
    ensures { OnOk result (out.new.items ≡ out.old.items ++ signal_name signal) }
{
    match signal {
        Signal::Input(number) => put_numbered(out, b"a", number),
        Signal::Net(gate) => put_numbered(out, b"n", gate),
        Signal::Register(gate) => put_numbered(out, b"q", gate),
    }
}
