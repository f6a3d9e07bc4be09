//! Sets of numbers.
ghost use Rattle.std.specs.Prelude.{◌≡◌, ◌<◌, ℕ, [], length, slice_index_or, false, ◌||◌, ◌&&◌, not, nat_eq, MatchOption, IfOk, OnOk};
ghost use Rattle.std.specs.List.{list_any};

use fac_base::Memory;
use std::alloc::Global;
use std::marker::Model;
use std::mem;

/// A set of numbers, which contracts see as a list that rises.
#[derive(Drop)]
pub(crate) struct Numbers {
    numbers: Vec<u32>,
}

impl Model for Numbers {
    ghost use Rattle.std.specs.Prelude.{ℕ, List};
    ghost use Rattle.fac_locals.specs.Sets.{Rises};

    ghost Value = { List ℕ };

    ghost view = { λ s. s.numbers.items };

    ghost invariant = { λ s. Rises s.numbers.items };
}

impl Numbers {
    /// The empty set.
    pub(crate) fn new(alloc: Global) -> Self
        ensures { result ≡ [] }
    {
        Numbers {
            numbers: Vec::new(alloc),
        }
    }

    /// Adds a number, where it isn't there yet.
    pub(crate) fn insert(&mut self, number: u32) -> Result<(), Memory>
        ensures { OnOk result ((n : ℕ) → list_any (nat_eq n) self.new ≡ nat_eq n number || list_any (nat_eq n) self.old) }
    {
        if let Err(at) = self.numbers.binary_search(&number) {
            self.numbers.insert(at, number)?;
        }
        Ok(())
    }

    // Where a number stands.
    fn search(&self, number: u32) -> Option<usize>
        ensures { MatchOption result (list_any (nat_eq number) self.now ≡ false) (λ at. (at < length self.now) × (slice_index_or self.now at 0 ≡ number)) }
    {
        match self.numbers.binary_search(&number) {
            Ok(at) => Some(at),
            Err(_) => None,
        }
    }

    // Where a number stands, which most often is at the end.
    fn place(&self, number: u32) -> Option<usize>
        ensures { MatchOption result (list_any (nat_eq number) self.now ≡ false) (λ at. (at < length self.now) × (slice_index_or self.now at 0 ≡ number)) }
    {
        let count = self.numbers.len();
        if count > 0 && self.numbers[count - 1] == number {
            return Some(count - 1);
        }
        self.search(number)
    }

    /// Takes a number out, and tells whether it was there.
    pub(crate) fn remove(&mut self, number: u32) -> bool
        ensures there { result ≡ list_any (nat_eq number) self.old }
        ensures others { (n : ℕ) → list_any (nat_eq n) self.new ≡ not (nat_eq n number) && list_any (nat_eq n) self.old }
    {
        match self.place(number) {
            Some(at) => {
                self.numbers.remove(at);
                true
            }
            None => false,
        }
    }

    /// How many numbers there are.
    pub(crate) fn len(&self) -> usize
        ensures { result ≡ length self.now }
    {
        self.numbers.len()
    }

    /// Adds the numbers of another set.
    pub(crate) fn add(&mut self, others: &Numbers) -> Result<(), Memory>
        ensures { OnOk result ((n : ℕ) → list_any (nat_eq n) self.new ≡ list_any (nat_eq n) others.now || list_any (nat_eq n) self.old) }
    {
        if self.numbers.len() < others.numbers.len() {
            let copied = others.copy()?;
            let few = mem::replace(self, copied);
            return self.insert_all(few.numbers.as_slice());
        }
        self.insert_all(others.numbers.as_slice())
    }

    // Adds these numbers.
    fn insert_all(&mut self, numbers: &[u32]) -> Result<(), Memory>
        ensures { OnOk result ((n : ℕ) → list_any (nat_eq n) self.new ≡ list_any (nat_eq n) numbers.now || list_any (nat_eq n) self.old) }
    {
        for number in numbers {
            self.insert(*number)?;
        }
        Ok(())
    }

    // An equal set.
    fn copy(&self) -> Result<Numbers, Memory>
        ensures { IfOk result (λ set. set ≡ self.now) }
    {
        Ok(Numbers {
            numbers: self.numbers.clone()?,
        })
    }
}
