ghost use Rattle.std.specs.Prelude.{◌≡◌, ◌<◌, ℕ, None, true, length, slice_index_or, All, AllPairs, IsTrue, IfOk, OnOk};
ghost use Rattle.std.specs.List.Sorted.{IsPermutation};
ghost use Rattle.path_states.specs.Tables.{table_of, IsWithin};
ghost use Rattle.state_numbers.specs.Firsts.{IsFirstIn};
ghost use Rattle.state_numbers.specs.Ranks.{key_before, AreKeys, AreRanks, AreRanked};

use crate::firsts::first_launches;
use crate::steps::steps_before;
use bud_design::Class;
use path_states::StateTable;
use std::alloc::{AllocError, Global};
use std::cmp::Ordering;

/// A live class, by its number in a table, and its first launch.
#[derive(Clone, Copy, Debug, PartialEq, Eq)]
pub struct KindKey {
    pub kind: u32,
    pub launch: u32,
}

/// The live classes in their order, and the place of each class of the table.
#[derive(Debug, Drop)]
pub struct Ranks {
    pub keys: Vec<KindKey>,
    pub ranks: Vec<Option<u32>>,
}

/// The live classes, by rising numbers in the table.
fn live_keys(alloc: Global, firsts: &[Option<u32>]) -> Result<Vec<KindKey>, AllocError>
    requires { length firsts.now < 4294967296 }
    ensures { IfOk result (λ keys. AreKeys firsts.now (length firsts.now) keys.items) }
{
    let mut keys = Vec::new(alloc);
    for (kind, first) in firsts.iter().enumerate() {
        if let Some(launch) = first {
            keys.push(KindKey {
                kind: kind as u32,
                launch: *launch,
            })?;
        }
    }
    Ok(keys)
}

fn is_before(classes: &[Class], x: &KindKey, y: &KindKey) -> bool
    requires { (x.now.kind < length classes.now) × (y.now.kind < length classes.now) }
    ensures { result ≡ key_before classes.now x.now y.now }
{
    x.launch < y.launch
        || x.launch == y.launch
            && steps_before(
                classes[x.kind as usize].exceptions.as_slice(),
                classes[y.kind as usize].exceptions.as_slice(),
            )
}

fn compare(classes: &[Class], x: &KindKey, y: &KindKey) -> Ordering {
    let (Some(first), Some(second)) = (classes.get(x.kind as usize), classes.get(y.kind as usize))
    else {
        return Ordering::Equal;
    };
    if x.launch != y.launch {
        return x.launch.cmp(&y.launch);
    }
    if steps_before(first.exceptions.as_slice(), second.exceptions.as_slice()) {
        Ordering::Less
    } else if steps_before(second.exceptions.as_slice(), first.exceptions.as_slice()) {
        Ordering::Greater
    } else {
        Ordering::Equal
    }
}

/// Puts classes in order of their first launches and then their steps.
fn sort_keys(classes: &[Class], keys: &mut Vec<KindKey>)
    ensures { IsPermutation keys.old.items keys.new.items }
{
    keys.sort_unstable_by(|x, y| compare(classes, x, y));
}

/// Whether each class comes before all that follow it.
fn are_rising(classes: &[Class], keys: &[KindKey]) -> bool
    requires { All (λ x. x.kind < length classes.now) keys.now }
    ensures { IsTrue result → AllPairs (λ x y. key_before classes.now x y ≡ true) keys.now }
{
    for place in 1..keys.len() {
        if !is_before(classes, &keys[place - 1], &keys[place]) {
            return false;
        }
    }
    true
}

/// The place of each class in the order.
fn places(alloc: Global, kinds: usize, keys: &[KindKey]) -> Result<Vec<Option<u32>>, AllocError>
    requires within { All (λ x. x.kind < kinds) keys.now }
    requires few { length keys.now < 4294967296 }
    ensures size { IfOk result (λ ranks. length ranks.items ≡ kinds) }
    ensures ranks { IfOk result (λ ranks. AreRanks keys.now (length keys.now) ranks.items) }
{
    let mut ranks = vec![in alloc; None; kinds]?;
    for (rank, key) in keys.iter().enumerate() {
        ranks[key.kind as usize] = Some(rank as u32);
    }
    Ok(ranks)
}

/// The live classes of a table in the order of their first launches and then their steps.
pub fn rank_kinds(alloc: Global, table: &StateTable, live: &[bool]) -> Result<Ranks, AllocError>
    requires lists { IsWithin (table_of table.now) }
    requires live { length live.now ≡ length table.now.states.keys }
    ensures { IfOk result (λ r. AreRanked table.now.kinds table.now.states.keys table.now.launches.items live.now r.keys.items r.ranks.items) }
{
    let kinds = table.kinds.len();
    if kinds > u32::MAX as usize {
        return Err(AllocError);
    }
    let firsts = first_launches(
        alloc,
        kinds,
        table.states.as_slice(),
        table.launches.as_slice(),
        live,
    )?;
    let mut keys = live_keys(alloc, firsts.as_slice())?;
    sort_keys(table.kinds.as_slice(), &mut keys);
    if !are_rising(table.kinds.as_slice(), keys.as_slice()) {
        return Err(AllocError);
    }
    let ranks = places(alloc, kinds, keys.as_slice())?;
    Ok(Ranks { keys, ranks })
}
