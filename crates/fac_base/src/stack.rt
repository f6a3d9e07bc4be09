//! A stack, which contracts see as a list with its top first.
ghost use Rattle.std.specs.Prelude.{◌≡◌, ◌∷◌, [], length, reverse, MatchOption, OnOk, OnErr};

use crate::Memory;
use std::alloc::Global;
use std::marker::Model;

/// A stack.
#[derive(Drop)]
pub struct Stack<T> {
    vec: Vec<T>,
}

impl<T> Model for Stack<T> {
    ghost use Rattle.std.specs.Prelude.{List as Items, reverse};
    ghost use Rattle.std.specs.Coded.{coded_list};

    ghost Value = { Items T };

    ghost coded = { coded_list T.code };

    ghost view = { λ stack. reverse stack.vec.items };
}

impl<T> Stack<T> {
    pub fn new(alloc: Global) -> Self
        ensures { result ≡ [] }
    {
        Stack {
            vec: Vec::new(alloc),
        }
    }

    /// The number of values.
    pub fn len(&self) -> usize
        ensures { result ≡ length self.now }
    {
        self.vec.len()
    }

    /// Takes the top value.
    pub fn pop(&mut self) -> Option<T>
        ensures { MatchOption result (self.old ≡ [] × self.new ≡ []) (λ x. self.old ≡ x ∷ self.new) }
    {
        self.vec.pop()
    }
}

impl<T: Drop> Stack<T> {
    /// Puts a value on the top.
    pub fn push(&mut self, value: T) -> Result<(), Memory>
        ensures ok { OnOk result (self.new ≡ value ∷ self.old) }
        ensures err { OnErr result (self.new ≡ self.old) }
    {
        self.vec.push(value)?;
        Ok(())
    }
}
