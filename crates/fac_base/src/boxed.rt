//! A value on the heap, which contracts see as the value.
ghost use Rattle.std.specs.Prelude.{◌≡◌, IfOk};

use crate::{Duplicate, Memory};
use std::alloc::Global;
use std::marker::Model;

/// A value on the heap. What has one is smaller by the value's size, so it is for large values that few of its like have.
#[derive(Drop)]
pub struct Boxed<T> {
    value: Box<T>,
}

impl<T> Model for Boxed<T> {
    ghost Value = { T };

    ghost coded = { T.code };

    ghost view = { λ boxed. boxed.value.value };
}

impl<T: Drop> Boxed<T> {
    /// A value, moved to the heap. Want of memory is the one error.
    pub fn new(alloc: Global, value: T) -> Result<Self, Memory>
        ensures { IfOk result (λ boxed. boxed ≡ value) }
    {
        Ok(Boxed {
            value: Box::new(alloc, value)?,
        })
    }
}

impl<T> Boxed<T> {
    /// The value.
    pub fn get(&self) -> &T
        ensures { result.now ≡ self.now }
    {
        &*self.value
    }

    /// The value, moved from the heap.
    pub fn into_value(self) -> T
        ensures { result ≡ self }
    {
        let Boxed { value } = self;
        Box::into_inner(value)
    }
}

impl<T: Duplicate + Drop> Duplicate for Boxed<T> {
    fn copy(&self, alloc: Global) -> Result<Boxed<T>, Memory> {
        Boxed::new(alloc, self.get().copy(alloc)?)
    }
}
