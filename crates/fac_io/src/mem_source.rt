//! A source in memory.
ghost use Rattle.std.specs.Prelude.{◌≡◌, ◌+◌, ◌<◌, ◌≤◌, List, length, IsErr, OnOk, MatchResult, Some, min, take};
ghost use Rattle.std.specs.Io.{ReadsAtMost};
ghost use Rattle.std.specs.Io.KnownBytes.{ReadConsumes};
ghost use Rattle.fac_io.specs.Faults.{HasCause};

use crate::{Failed, Source};
use fac_base::{Bytes, List};
use std::marker::Model;

/// Bytes in memory, and the numbers of the calls that fail, the first call being 1. For tests.
#[derive(Drop)]
pub struct MemSource {
    bytes: Bytes,
    at: usize,
    fails: List<u64>,
    calls: u64,
    faults: u64,
}

impl Model for MemSource {
    ghost use Rattle.std.specs.Prelude.{◌≤◌, length, drop};
    ghost use Rattle.fac_io.specs.Mem.{MemSource as Seen};

    ghost Value = { Seen };

    ghost view = { λ s. record { left = drop s.at s.bytes; fails = s.fails; calls = s.calls; faults = s.faults } };

    ghost invariant = { λ s. s.at ≤ length s.bytes };
}

impl MemSource {
    ghost use Rattle.fac_io.specs.Mem.{IsNewSource};

    /// A source of these bytes whose calls of the listed numbers fail. The numbers may stand in any order.
    pub fn new(bytes: Bytes, fails: List<u64>) -> Self
        ensures { IsNewSource bytes fails result }
    {
        MemSource {
            bytes,
            at: 0,
            fails,
            calls: 0,
            faults: 0,
        }
    }

    /// The bytes left.
    pub fn left(&self) -> &[u8]
        ensures { result.now ≡ self.now.left }
    {
        &self.bytes.as_slice()[self.at..]
    }
}

// Copies as many of the first bytes as there is room for.
fn move_front(left: &[u8], buf: &mut [u8]) -> usize
    ensures within { (result ≤ length left.now) × (result ≤ length buf.new) }
    ensures moved { take result buf.new ≡ take result left.now }
    ensures count { result ≡ min (length left.now) (length buf.old) }
    ensures same { length buf.new ≡ length buf.old }
{
    let count = left.len().min(buf.len());
    buf[..count].copy_from_slice(&left[..count]);
    count
}

impl Source for MemSource {
    ghost use Rattle.fac_io.specs.Mem.{ReadLeaves};

    ghost left = { λ s. Some s.left };

    ghost may_give = { λ s. length s.left };

    ghost faults = { λ s. s.faults };

    fn read(&mut self, buf: &mut [u8]) -> Result<usize, Failed>
        requires { 0 < length buf.old }
        ensures bound { ReadsAtMost result buf.new }
        ensures bytes { ReadConsumes (Some self.old.left) (Some self.new.left) result buf.new }
        ensures falls { MatchResult result (λ n. length self.new.left + n ≤ length self.old.left) (λ _. length self.new.left ≤ length self.old.left) }
        ensures cause { HasCause self.old.faults self.new.faults (IsErr result) }
        ensures no_fault { OnOk result (self.new.faults ≡ self.old.faults) }
        ensures exact { ReadLeaves self.old (length buf.old) result self.new }
    {
        self.calls = self.calls.saturating_add(1);
        if self.fails.as_slice().contains(&self.calls) {
            self.faults = self.faults.saturating_add(1);
            return Err(Failed);
        }
        let count = move_front(&self.bytes.as_slice()[self.at..], buf);
        self.at += count;
        Ok(count)
    }
}
