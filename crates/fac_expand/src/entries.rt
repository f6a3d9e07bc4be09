//! What code knows of the values of the stack, which contracts see as a list with the top first.
ghost use Rattle.std.specs.Prelude.{◌≡◌, ◌∷◌, [], length, slice_get, OnOk, IfOk};
ghost use Rattle.fac_expand.specs.inner.Stacks.{top_of, behind_top};

use crate::known::Entry;
use fac_base::Memory;
use std::alloc::Global;
use std::marker::Model;

/// What code knows of the values of the stack. Below the last one all are on the machine's stack.
#[derive(Drop)]
pub struct Entries {
    // The top is the last.
    vec: Vec<Entry>,
}

impl Model for Entries {
    ghost use Rattle.std.specs.Prelude.{List, reverse};
    ghost use Rattle.fac_expand.specs.declared.known.Entry.{Entry as Known};

    ghost Value = { List Known };

    ghost view = { λ entries. reverse entries.vec.items };
}

impl Entries {
    /// Those of a stack of which nothing is known.
    pub fn new(alloc: Global) -> Entries
        ensures { result ≡ [] }
    {
        Entries {
            vec: Vec::new(alloc),
        }
    }

    /// How many there are.
    pub fn len(&self) -> usize
        ensures { result ≡ length self.now }
    {
        self.vec.len()
    }

    /// The one of this number, counted from the top.
    pub fn get(&self, index: usize) -> Option<Entry>
        ensures { result ≡ slice_get self.now index }
    {
        let count = self.vec.len();
        if index >= count {
            return None;
        }
        self.vec.get(count - 1 - index).copied()
    }

    /// The top one.
    pub fn top(&self) -> Entry
        ensures { result ≡ top_of self.now }
    {
        match self.vec.last() {
            Some(entry) => *entry,
            None => Entry::Here,
        }
    }

    /// The one below the top.
    pub fn second(&self) -> Entry
        ensures { result ≡ top_of (behind_top self.now) }
    {
        match self.get(1) {
            Some(entry) => entry,
            None => Entry::Here,
        }
    }

    /// The same ones.
    pub fn copy(&self, alloc: Global) -> Result<Entries, Memory>
        ensures { IfOk result (λ entries. entries ≡ self.now) }
    {
        Ok(Entries {
            vec: self.vec.as_slice().to_vec(alloc)?,
        })
    }

    /// How many there are down to the deepest that is a callable that was put off. Nothing is promised of it.
    pub fn named(&self) -> usize {
        let count = self.vec.len();
        for index in 0..count {
            match self.vec.get(index) {
                Some(Entry::Off(_)) => return count - index,
                _ => {}
            }
        }
        0
    }

    /// The upper ones, so many. Nothing is promised of them.
    pub fn upper(&self, alloc: Global, count: usize) -> Result<Entries, Memory> {
        let mut upper = Entries::new(alloc);
        let all = self.vec.len();
        if count > all {
            return Ok(upper);
        }
        for index in all - count..all {
            match self.vec.get(index) {
                Some(entry) => upper.push(*entry)?,
                None => {}
            }
        }
        Ok(upper)
    }

    /// Takes the top one.
    pub fn pop(&mut self) -> Entry
        ensures top { result ≡ top_of self.old }
        ensures behind { self.new ≡ behind_top self.old }
    {
        match self.vec.pop() {
            Some(entry) => entry,
            None => Entry::Here,
        }
    }

    /// Puts one on top. Want of memory is the one error.
    pub fn push(&mut self, entry: Entry) -> Result<(), Memory>
        ensures { OnOk result (self.new ≡ entry ∷ self.old) }
    {
        self.vec.push(entry)?;
        Ok(())
    }
}
