ghost use Rattle.std.specs.Prelude.{◌≡◌, not, find, flat_map, List, [], ◌∷◌, IfOk};
ghost use Rattle.block_theory.specs.BlockValues.{input_values, output_values, block_values, is_within_limit, value_past};
ghost use Rattle.port_nodes.specs.NodeChains.{AreNodeChains};

use crate::amounts::{delay_in, delay_out};
use bud_design::{Constraints, Layered};
use extreme_times::Extremes;
use flat_design::Flat;
use name_tables::Chains;
use port_nodes::{input_nodes, output_nodes};
use std::alloc::{AllocError, Global};

/// The most that a constraint file may have, in ps either way.
const LIMIT: i64 = 1_000_000_000;

/// The first of two values that is past the limit.
fn past_of(first: i64, last: i64) -> Option<i64>
    ensures { result ≡ find (λ z. not (is_within_limit z)) (first ∷ last ∷ []) }
{
    if first < -LIMIT || LIMIT < first {
        Some(first)
    } else if last < -LIMIT || LIMIT < last {
        Some(last)
    } else {
        None
    }
}

/// The first value past the limit at the nodes of input bits.
fn past_inputs(extremes: &Extremes, nodes: &[u32]) -> Result<Option<i64>, AllocError>
    ensures { IfOk result (λ value. value ≡ find (λ z. not (is_within_limit z)) (flat_map (input_values extremes.now.early.items extremes.now.late.items) nodes.now)) }
{
    for node in nodes {
        let (Some(first), Some(last)) = (
            delay_in(&extremes.early, *node),
            delay_in(&extremes.late, *node),
        ) else {
            return Err(AllocError);
        };
        let value = past_of(first, last);
        if value.is_some() {
            return Ok(value);
        }
    }
    Ok(None)
}

/// The first value past the limit at the nodes of output bits.
fn past_outputs(
    all: &Constraints,
    layered: &Layered,
    extremes: &Extremes,
    nodes: &[u32],
) -> Result<Option<i64>, AllocError>
    ensures { IfOk result (λ value. value ≡ find (λ z. not (is_within_limit z)) (flat_map (output_values all.now layered.now extremes.now.early.items extremes.now.late.items) nodes.now)) }
{
    for node in nodes {
        let (Some(first), Some(last)) = (
            delay_out(all, layered, &extremes.early, *node),
            delay_out(all, layered, &extremes.late, *node),
        ) else {
            return Err(AllocError);
        };
        let value = past_of(first, last);
        if value.is_some() {
            return Ok(value);
        }
    }
    Ok(None)
}

/// The first value of a block past the limit.
#[tactic(auto, using(crate::proofs::Finding::find_both))]
fn past_block(
    alloc: Global,
    flat: &Flat,
    all: &Constraints,
    layered: &Layered,
    extremes: &Extremes,
    chains: &Chains,
    block: u32,
) -> Result<Option<i64>, AllocError>
    requires { AreNodeChains layered.now.nodes chains.now }
    ensures { IfOk result (λ value. value ≡ find (λ z. not (is_within_limit z)) (block_values flat.now all.now layered.now extremes.now.early.items extremes.now.late.items block)) }
{
    let inputs = input_nodes(alloc, flat, layered, chains, block)?;
    let value = past_inputs(extremes, &inputs)?;
    if value.is_some() {
        return Ok(value);
    }
    let outputs = output_nodes(alloc, flat, layered, chains, block)?;
    let value = past_outputs(all, layered, extremes, &outputs)?;
    Ok(value)
}

/// The first value past the limit, by block.
pub fn past_blocks(
    alloc: Global,
    flat: &Flat,
    all: &Constraints,
    layered: &Layered,
    extremes: &Extremes,
    chains: &Chains,
    blocks: &[u32],
) -> Result<Option<i64>, AllocError>
    requires { AreNodeChains layered.now.nodes chains.now }
    ensures { IfOk result (λ value. value ≡ value_past flat.now all.now layered.now extremes.now.early.items extremes.now.late.items blocks.now) }
{
    for block in blocks {
        let value = past_block(alloc, flat, all, layered, extremes, chains, *block)?;
        if value.is_some() {
            return Ok(value);
        }
    }
    Ok(None)
}
