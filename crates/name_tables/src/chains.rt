ghost use Rattle.std.specs.Prelude.{◌≡◌, ◌==◌, ◌<◌, ◌≤◌, ℕ, Some, length, slice_index_or, slice_set, IfOk, OnOk, if◌then◌else◌};
ghost use Rattle.std.specs.Map.{lookup};
ghost use Rattle.name_tables.specs.Chained.{key_at, first_of, AreChained};

use indexmap::IndexMap;
use std::alloc::{AllocError, Global};
use std::marker::Model;

/// Numbers by their keys: the first of each key, and after each number the next of the same key.
#[derive(Debug, Drop)]
pub struct Chains {
    first: IndexMap<u32, u32>,
    next: Vec<u32>,
}

impl Model for Chains {
    ghost use Rattle.std.specs.Prelude.{length, ◌<◌};
    ghost use Rattle.name_tables.specs.ChainLists.{ChainLists};

    ghost Value = { ChainLists };

    ghost view = { λ chains. record { first = chains.first.entries; next = chains.next.items } };

    ghost invariant = { λ chains. length chains.next.items < 2147483648 };
}

impl Chains {
    /// The chains of the numbers from `low` on that have these keys, in time linear in the keys.
    pub fn of(alloc: Global, low: usize, keys: &[u32]) -> Result<Chains, AllocError>
        requires few { length keys.now < 2147483648 }
        requires low { low ≤ length keys.now }
        ensures { IfOk result (AreChained (key_at keys.now) low (length keys.now)) }
    {
        let first = IndexMap::with_capacity(alloc, keys.len())?;
        let next = vec![in alloc; keys.len() as u32; keys.len()]?;
        let mut chains = Chains { first, next };
        let mut number = keys.len();
        while number > low {
            number -= 1;
            chains.lead(number as u32, keys[number])?;
        }
        Ok(chains)
    }

    /// Puts the number before those of its key.
    fn lead(&mut self, number: u32, key: u32) -> Result<(), AllocError>
        requires { number < length self.old.next }
        ensures next { OnOk result (self.new.next ≡ slice_set self.old.next number (first_of self.old key)) }
        ensures first { OnOk result ((q : ℕ) → lookup (λ k. q == k) self.new.first ≡ (if key == q then Some number else lookup (λ k. q == k) self.old.first)) }
    {
        match self.first.insert(key, number) {
            Ok(before) => {
                let next = before.unwrap_or(self.next.len() as u32);
                self.next[number as usize] = next;
                Ok(())
            }
            Err(_) => Err(AllocError),
        }
    }

    /// The first number of this key; the count of all where none has it.
    pub fn first(&self, key: u32) -> u32
        ensures { result ≡ first_of self.now key }
    {
        match self.first.get(&key) {
            Some(number) => *number,
            None => self.next.len() as u32,
        }
    }

    /// The next number of the same key; the count of all where there is none.
    pub fn next(&self, number: u32) -> u32
        requires { number < length self.now.next }
        ensures { result ≡ slice_index_or self.now.next number 0 }
    {
        self.next[number as usize]
    }
}
