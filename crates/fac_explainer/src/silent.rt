//! An input of no bytes, and an output of which nothing is kept. They never fail.
ghost use Rattle.std.specs.Prelude.{None};

use fac_io::{Failed, Sink, Source};

/// No bytes.
#[derive(Drop)]
pub struct Nothing;

impl Source for Nothing {
    ghost left = { λ _. None };

    ghost may_give = { λ _. 0 };

    ghost faults = { λ _. 0 };

    fn read(&mut self, _: &mut [u8]) -> Result<usize, Failed> {
        Ok(0)
    }
}

/// What takes all and keeps nothing.
#[derive(Drop)]
pub struct Nowhere;

impl Sink for Nowhere {
    ghost taken = { λ _. None };

    ghost pieces = { λ _. None };

    ghost faults = { λ _. 0 };

    fn write(&mut self, _: &[u8]) -> Result<(), Failed> {
        Ok(())
    }
}
