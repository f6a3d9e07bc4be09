//! A list that grows at its end, of which one element may be changed and the last ones taken away.
ghost use Rattle.std.specs.Prelude.{◌≡◌, ◌++◌, ◌∷◌, ◌<◌, ◌≤◌, [], length, slice_get, slice_set, take, IfOk, OnOk};
ghost use Rattle.std.specs.Option.{option_copied};

use fac_base::Memory;
use std::alloc::Global;
use std::marker::Model;

/// A list that grows at its end, of which one element may be changed and the last ones taken away. Contracts see the list.
#[derive(Drop)]
pub struct Growing<T> {
    vec: Vec<T>,
}

impl<T> Model for Growing<T> {
    ghost use Rattle.std.specs.Prelude.{List as Items};
    ghost use Rattle.std.specs.Coded.{coded_list};

    ghost Value = { Items T };

    ghost coded = { coded_list T.code };

    ghost view = { λ list. list.vec.items };
}

impl<T> Growing<T> {
    /// An empty list.
    pub fn new(alloc: Global) -> Self
        ensures { result ≡ [] }
    {
        Growing {
            vec: Vec::new(alloc),
        }
    }

    /// An empty list with room for so many elements. Want of memory is the one error.
    pub fn with_room(alloc: Global, count: usize) -> Result<Self, Memory>
        ensures { IfOk result (λ list. list ≡ []) }
    {
        Ok(Growing {
            vec: Vec::with_capacity(alloc, count)?,
        })
    }

    /// The number of elements.
    pub fn len(&self) -> usize
        ensures { result ≡ length self.now }
    {
        self.vec.len()
    }

    /// The elements, in order.
    pub fn as_slice(&self) -> &[T]
        ensures { result.now ≡ self.now }
    {
        self.vec.as_slice()
    }

    /// The element of this number, counted from 0.
    pub fn get(&self, index: usize) -> Option<&T>
        ensures { option_copied result ≡ slice_get self.now index }
    {
        self.vec.get(index)
    }
}

impl<T: Drop> Growing<T> {
    /// Adds an element at the end. Want of memory is the one error.
    pub fn push(&mut self, value: T) -> Result<(), Memory>
        ensures { OnOk result (self.new ≡ self.old ++ value ∷ []) }
    {
        self.vec.push(value)?;
        Ok(())
    }

    /// Changes the element of this number.
    pub fn set(&mut self, index: usize, value: T)
        requires { index < length self.old }
        ensures { self.new ≡ slice_set self.old index value }
    {
        self.vec[index] = value;
    }

    /// Leaves so many elements, the first ones.
    pub fn shorten(&mut self, count: usize)
        ensures { self.new ≡ take count self.old }
    {
        self.vec.truncate(count);
    }
}
