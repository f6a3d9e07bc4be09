//! The bytes of the last read that weren't used yet.
ghost use Rattle.std.specs.Prelude.{◌≡◌, ◌≤◌, [], length, drop};
ghost use Rattle.fac_lines.specs.inner.Reading.{Fills, FillCounts, FillFalls};

use crate::LineFault;
use fac_io::{Failed, Source};
use std::alloc::Global;
use std::marker::Model;

// The most bytes of one read.
const PIECE_BYTES: usize = 65_536;

// The bytes of one read from a place on. Contracts see them as their list.
#[derive(Drop)]
pub struct Piece {
    room: Vec<u8>,
    at: usize,
    end: usize,
}

impl Model for Piece {
    ghost use Rattle.std.specs.Prelude.{List, ℕ, ◌-◌, ◌≤◌, length, take, drop};

    ghost Value = { List ℕ };

    ghost view = { λ p. take (p.end - p.at) (drop p.at p.room.items) };

    ghost invariant = { λ p. (p.at ≤ p.end) × (p.end ≤ length p.room.items) };
}

impl Piece {
    // No bytes. It takes no memory.
    pub fn new(alloc: Global) -> Self
        ensures { result ≡ [] }
    {
        Piece {
            room: Vec::new(alloc),
            at: 0,
            end: 0,
        }
    }

    // The bytes.
    pub fn as_slice(&self) -> &[u8]
        ensures { result.now ≡ self.now }
    {
        &self.room[self.at..self.end]
    }

    // Leaves out so many bytes at the front.
    pub fn skip(&mut self, count: usize)
        requires { count ≤ length self.old }
        ensures { self.new ≡ drop count self.old }
    {
        self.at += count;
    }

    // The bytes of one read, where none is left here: none exactly at the end of the source.
    pub fn fill<S: Source>(&mut self, alloc: Global, source: &mut S) -> Result<usize, LineFault>
        requires { self.old ≡ [] }
        ensures bytes { Fills (S.left source.old) (S.left source.new) result self.new }
        ensures counts { FillCounts (S.faults source.old) (S.faults source.new) result }
        ensures falls { FillFalls (S.may_give source.old) (S.may_give source.new) result }
    {
        self.at = 0;
        self.end = 0;
        if self.room.is_empty() {
            self.room = vec![in alloc; 0; PIECE_BYTES]?;
        }
        match source.read(self.room.as_mut_slice()) {
            Ok(count) => {
                self.end = count;
                Ok(count)
            }
            Err(Failed) => Err(LineFault::Failed),
        }
    }
}
