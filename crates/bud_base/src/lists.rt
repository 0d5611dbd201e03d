ghost use Rattle.std.specs.Prelude.{◌≡◌, [], ◌∷◌, ◌++◌, ◌<◌, ◌↔◌, length, slice_set, IsTrue, OnOk, OnErr};

use std::alloc::{AllocError, Global};
use std::marker::Model;

/// A `Vec` that contracts see as the list of its elements.
///
/// It is made from a `Vec` and gives it back without taking memory.
#[derive(Debug, Drop)]
pub struct Listed<T> {
    vec: Vec<T>,
}

impl<T> Model for Listed<T> {
    ghost use Rattle.std.specs.Prelude.{List};
    ghost use Rattle.std.specs.Coded.{coded_list};

    ghost Value = { List T };

    ghost coded = { coded_list T.code };

    ghost view = { λ listed. listed.vec.items };
}

impl<T> Listed<T> {
    /// The empty list, which takes no memory.
    pub fn new(alloc: Global) -> Listed<T>
        ensures { result ≡ [] }
    {
        Listed {
            vec: Vec::new(alloc),
        }
    }

    pub fn from_vec(vec: Vec<T>) -> Listed<T>
        ensures { result ≡ vec.items }
    {
        Listed { vec }
    }

    pub fn into_vec(self) -> Vec<T>
        ensures { result.items ≡ self }
    {
        let Listed { vec } = self;
        vec
    }

    pub fn as_slice(&self) -> &[T]
        ensures { result.now ≡ self.now }
    {
        self.vec.as_slice()
    }

    pub fn len(&self) -> usize
        ensures { result ≡ length self.now }
    {
        self.vec.len()
    }

    pub fn is_empty(&self) -> bool
        ensures { IsTrue result ↔ (self.now ≡ []) }
    {
        self.vec.is_empty()
    }

    /// The allocator that the list takes memory from.
    pub fn allocator(&self) -> Global {
        *self.vec.allocator()
    }
}

impl<T: Drop> Listed<T> {
    /// Adds an element at the end; for want of memory the list stays.
    pub fn push(&mut self, element: T) -> Result<(), AllocError>
        ensures ok { OnOk result (self.new ≡ self.old ++ element ∷ []) }
        ensures err { OnErr result (self.new ≡ self.old) }
    {
        self.vec.push(element)?;
        Ok(())
    }

    pub fn set(&mut self, place: usize, element: T)
        requires { place < length self.old }
        ensures { self.new ≡ slice_set self.old place element }
    {
        self.vec[place] = element;
    }
}

/// Times in ps, or what flows carry.
pub type Times = Listed<i64>;
