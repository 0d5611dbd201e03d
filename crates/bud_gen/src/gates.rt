//! The gates of a made design, block by block.
ghost use Rattle.std.specs.Prelude.{◌≡◌, ◌<◌, ◌≤◌, ◌+◌, ◌*◌, length, All, IfOk};
ghost use Rattle.bud_gen.specs.Draws.{behind};
ghost use Rattle.bud_gen.specs.Gates.{IsSized, block, blocks, first, gate_from, given, input, picked, registers, registers_of};

use crate::draws::Draws;
use crate::signals::{INPUTS, Signal, back};
use bud_base::Listed;
use std::alloc::{AllocError, Global};

/// How many blocks a made design has.
const BLOCKS: u32 = 4;

/// An input of a gate: the signal at it, the delay of its arc in ps, and the weight of this arc.
#[derive(Clone, Copy, Debug)]
pub struct GateInput {
    pub signal: Signal,
    pub delay: u32,
    pub weight: u32,
}

/// A gate with two inputs.
#[derive(Clone, Copy, Debug)]
pub struct Gate {
    pub number: u32,
    pub a: GateInput,
    pub b: GateInput,
    /// Whether a register follows.
    pub is_registered: bool,
}

/// A block, with its gates and with all signals behind the last of them.
#[derive(Debug, Drop)]
pub struct Block {
    pub number: u32,
    pub gates: Listed<Gate>,
    pub signals: Listed<Signal>,
}

/// The blocks of a design of so many gates.
#[tactic(auto, unfolding(crate::specs::Gates::blocks))]
pub fn blocks(alloc: Global, gates: u32, number: u32) -> Result<Vec<Block>, AllocError>
    requires gates { gates ≤ 20000 }
    requires number { number < 2147483648 }
    ensures blocks { IfOk result (λ made. made.items ≡ blocks gates number) }
    ensures sizes { IfOk result (λ made. All IsSized made.items) }
    ensures count { IfOk result (λ made. length made.items ≡ 4) }
{
    let mut blocks = Vec::with_capacity(alloc, BLOCKS as usize)?;
    for k in 0..BLOCKS {
        blocks.push(made_block(alloc, gates, number, k)?)?;
    }
    Ok(blocks)
}

/// The first gate of a block.
fn first(gates: u32, k: u32) -> u32
    requires gates { gates ≤ 20000 }
    requires block { k ≤ 4 }
    ensures first { result ≡ first gates k }
    ensures range { result ≤ gates }
{
    k * gates / BLOCKS
}

/// A block of a design of so many gates.
fn made_block(alloc: Global, gates: u32, number: u32, k: u32) -> Result<Block, AllocError>
    requires gates { gates ≤ 20000 }
    requires number { number < 2147483648 }
    requires block { k < 4 }
    ensures block { IfOk result (λ made. made ≡ block gates number k) }
    ensures sizes { IfOk result IsSized }
{
    let low = first(gates, k);
    let high = first(gates, k + 1);
    let mut draws = Draws::behind(number, 7 * low);
    let mut signals = Vec::from_slice(alloc, &INPUTS)?;
    let mut list = Vec::new(alloc);
    for g in low..high {
        let gate = made_gate(g, signals.as_slice(), &mut draws);
        list.push(gate)?;
        signals.push(given(gate.is_registered, g))?;
    }
    Ok(Block {
        number: k,
        gates: Listed::from_vec(list),
        signals: Listed::from_vec(signals),
    })
}

/// What a gate gives to the gates behind it.
fn given(registered: bool, g: u32) -> Signal
    ensures { result ≡ given registered g }
{
    if registered {
        Signal::Register(g)
    } else {
        Signal::Net(g)
    }
}

/// One of the last eight signals, by a draw.
fn picked(signals: &[Signal], draw: u32) -> Signal
    requires { 0 < length signals.now }
    ensures { result ≡ picked signals.now draw }
{
    let few = signals.len().min(8);
    back(signals, draw as usize % few)
}

/// An input of a gate, by the draws of its signal, its delay and its weight.
fn input(signals: &[Signal], draw: u32, delay: u32, weight: u32) -> GateInput
    requires { 0 < length signals.now }
    ensures { result ≡ input signals.now draw delay weight }
{
    GateInput {
        signal: picked(signals, draw),
        delay: 20 + delay % 80,
        weight: 1 + weight % 9,
    }
}

/// The gate of this number, by the seven draws that come and by the signals before it.
fn made_gate(number: u32, signals: &[Signal], draws: &mut Draws) -> Gate
    requires signals { 0 < length signals.now }
    requires state { draws.old.state < 2147483648 }
    ensures gate { result ≡ gate_from draws.old.state signals.now number }
    ensures state { draws.new.state ≡ behind draws.old.state 7 }
    ensures range { draws.new.state < 2147483648 }
{
    let a = draws.draw();
    let b = draws.draw();
    let a_delay = draws.draw();
    let b_delay = draws.draw();
    let register = draws.draw();
    let a_weight = draws.draw();
    let b_weight = draws.draw();
    Gate {
        number,
        a: input(signals, a, a_delay, a_weight),
        b: input(signals, b, b_delay, b_weight),
        is_registered: register % 8 == 0,
    }
}

/// How many gates of the blocks have a register behind them.
pub fn registers(blocks: &[Block]) -> u32
    requires sizes { All IsSized blocks.now }
    requires count { length blocks.now ≡ 4 }
    ensures { result ≡ registers blocks.now }
{
    let mut count = 0;
    for block in blocks {
        count += registers_of(block.gates.as_slice());
    }
    count
}

/// How many of the gates have a register behind them.
fn registers_of(gates: &[Gate]) -> u32
    requires { length gates.now ≤ 20000 }
    ensures count { result ≡ registers_of gates.now }
    ensures range { result ≤ length gates.now }
{
    let mut count = 0;
    for gate in gates {
        count += u32::from(gate.is_registered);
    }
    count
}
