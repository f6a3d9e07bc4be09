//! A sink in memory.
ghost use Rattle.std.specs.Prelude.{◌≡◌, ◌+◌, ◌-◌, ◌<◌, ◌≤◌, ◌↔◌, ◌++◌, List, ℕ, length, take, vec_len, vec_capacity, IsErr, IsTrue, IfOk, OnOk, OnErr, Some, if◌then◌else◌};
ghost use Rattle.fac_io.specs.Faults.{HasCause};
ghost use Rattle.fac_io.specs.Told.{Grows, GrowsByPrefix, Took, sink_tells};
ghost use Rattle.fac_io.specs.Mem.{listed_take, one_size, part_of};

use crate::{Failed, Sink};
use fac_base::{List, Memory};
use std::alloc::Global;
use std::marker::Model;

/// A buffer of fixed room, the sizes of the pieces in which it was filled, and the numbers of the calls that fail, the first call being 1, with the number of bytes that
/// each of them takes. For tests.
#[derive(Drop)]
pub struct MemSink {
    taken: Vec<u8>,
    sizes: Vec<usize>,
    room: usize,
    fails: List<(u64, u64)>,
    calls: u64,
    faults: u64,
}

impl Model for MemSink {
    ghost use Rattle.std.specs.Prelude.{vec_capacity};
    ghost use Rattle.fac_io.specs.Mem.{MemSink as Seen, SinkFits, cut};

    ghost Value = { Seen };

    ghost view = { λ s. record { taken = s.taken.items; pieces = cut s.sizes.items s.taken.items; room = s.room; fails = s.fails; calls = s.calls; faults = s.faults } };

    ghost invariant = { λ s. SinkFits s.taken.items s.sizes.items (vec_capacity s.taken) (vec_capacity s.sizes) s.room };
}

// The bytes that the first entry of this call takes.
fn listed(fails: &[(u64, u64)], call: u64) -> Option<u64>
    ensures { result ≡ listed_take fails.now call }
{
    for fail in fails {
        if fail.0 == call {
            return Some(fail.1);
        }
    }
    None
}

// The part of a piece that a call takes.
fn part(count: Option<u64>, piece: &[u8]) -> &[u8]
    ensures value { result.now ≡ part_of count piece.now }
    ensures prefix { (n : ℕ) × (n ≤ length piece.now) × (result.now ≡ take n piece.now) }
{
    match count {
        None => piece,
        Some(count) => &piece[..piece.len().min(count as usize)],
    }
}

// Adds bytes where there is room for them.
fn put(taken: &mut Vec<u8>, piece: &[u8])
    requires { length taken.old.items + length piece.now ≤ vec_capacity taken.old }
    ensures items { taken.new.items ≡ taken.old.items ++ piece.now }
    ensures capacity { vec_capacity taken.old ≤ vec_capacity taken.new }
{
    taken.extend_from_slice(piece).unwrap();
}

// Adds the size of a piece where there is room for it. Where nothing was taken there is no piece.
fn put_size(sizes: &mut Vec<usize>, size: usize)
    requires { length sizes.old.items + size ≤ vec_capacity sizes.old }
    ensures items { sizes.new.items ≡ sizes.old.items ++ one_size size }
    ensures capacity { vec_capacity sizes.old ≤ vec_capacity sizes.new }
{
    if size > 0 {
        sizes.push(size).unwrap();
    }
}

impl MemSink {
    ghost use Rattle.fac_io.specs.Mem.{IsNewSink};

    /// A sink with room for so many bytes, which takes their memory here, so that a write never lacks it. Each pair of
    /// `fails` is the number of a call and the most bytes that this call takes before it fails; where a number stands
    /// twice the first pair counts. A piece that passes the room is refused whole.
    pub fn new(alloc: Global, room: u64, fails: List<(u64, u64)>) -> Result<Self, Memory>
        ensures { IfOk result (IsNewSink room fails) }
    {
        let room = room as usize;
        Ok(MemSink {
            taken: Vec::with_capacity(alloc, room)?,
            sizes: Vec::with_capacity(alloc, room)?,
            room,
            fails,
            calls: 0,
            faults: 0,
        })
    }

    /// The bytes taken so far.
    pub fn taken(&self) -> &[u8]
        ensures { result.now ≡ self.now.taken }
    {
        self.taken.as_slice()
    }
}

impl Sink for MemSink {
    ghost use Rattle.fac_io.specs.Faults.{one_more};
    ghost use Rattle.fac_io.specs.Mem.{sink_takes, sink_fails};

    ghost taken = { λ s. Some s.taken };

    ghost pieces = { λ s. Some s.pieces };

    ghost faults = { λ s. s.faults };

    fn write(&mut self, piece: &[u8]) -> Result<(), Failed>
        requires { 0 < length piece.now }
        ensures ok { OnOk result (Grows (Some self.old.taken) (Some self.new.taken) piece.now) }
        ensures err { OnErr result (GrowsByPrefix (Some self.old.taken) (Some self.new.taken) piece.now) }
        ensures took { Took (sink_tells (Some self.old.taken) (Some self.old.pieces)) (sink_tells (Some self.new.taken) (Some self.new.pieces)) piece.now result }
        ensures cause { HasCause self.old.faults self.new.faults (IsErr result) }
        ensures no_fault { OnOk result (self.new.faults ≡ self.old.faults) }
        ensures exact { self.new.taken ≡ self.old.taken ++ sink_takes self.old piece.now }
        ensures listed { IsErr result ↔ IsTrue (sink_fails self.old piece.now) }
        ensures room { self.new.room + length (sink_takes self.old piece.now) ≡ self.old.room }
        ensures faults { self.new.faults ≡ (if sink_fails self.old piece.now then one_more self.old.faults else self.old.faults) }
        ensures calls { self.new.calls ≡ one_more self.old.calls }
        ensures same { self.new.fails ≡ self.old.fails }
    {
        self.calls = self.calls.saturating_add(1);
        if piece.len() > self.room {
            self.faults = self.faults.saturating_add(1);
            return Err(Failed);
        }
        let count = listed(self.fails.as_slice(), self.calls);
        let part = part(count, piece);
        put(&mut self.taken, part);
        put_size(&mut self.sizes, part.len());
        self.room -= part.len();
        if count.is_some() {
            self.faults = self.faults.saturating_add(1);
            return Err(Failed);
        }
        Ok(())
    }
}
