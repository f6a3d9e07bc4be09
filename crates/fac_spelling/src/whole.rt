//! All of the bytes as one value.
ghost use Rattle.std.specs.Prelude.{◌≡◌, true};
ghost use Rattle.fac_spelling.specs.Formats.{Exact};
ghost use Rattle.fac_spelling.specs.Whole.{Spells, SpellsBy, IsBroken, IsRefused};
ghost use Rattle.fac_spelling.specs.Answers.{IsFound, IsOnly, IsPlace};
ghost use Rattle.fac_spelling.specs.inner.WholeReading.{all_of, IsAnswer};

use crate::{ReadFault, Ruled, Spelled};
use std::alloc::Global;
use thiserror::Error;

/// Why bytes are no value's.
#[derive(Clone, Copy, Debug, PartialEq, Eq, Error)]
pub enum WholeFault {
    /// Memory ran out.
    #[error("out of memory")]
    Memory,
    /// `at` is the first byte with which no value's bytes go on, counted from 0. It is the number of bytes where more are missing, or where
    /// their value breaks its rule.
    #[error("byte {at} is wrong")]
    Broken { at: usize },
}

// As reading gives it.
fn answer<T: Spelled + Drop>(alloc: Global, bytes: &[u8]) -> Result<T, WholeFault>
    requires { Exact T.format }
    ensures { IsAnswer result (all_of T.format (λ _. true) bytes.now) }
{
    match T::read(alloc, bytes) {
        Err(ReadFault::Memory) => Err(WholeFault::Memory),
        Err(ReadFault::Refused { left }) => Err(WholeFault::Broken {
            at: bytes.len() - left,
        }),
        Ok((value, rest)) => {
            if !rest.is_empty() {
                return Err(WholeFault::Broken {
                    at: bytes.len() - rest.len(),
                });
            }
            Ok(value)
        }
    }
}

/// The value that all of the bytes spell.
pub fn read_all<T: Spelled + Drop>(alloc: Global, bytes: &[u8]) -> Result<T, WholeFault>
    requires { Exact T.format }
    // What is found is spelled so.
    ensures found { IsFound result (λ value. Spells T.format bytes.now value) }
    // What is spelled so is found, unless memory runs out.
    ensures only { (value : T) → Spells T.format bytes.now value → IsOnly result value }
    // Bytes that are refused are no value's, and wrong from this place on.
    ensures place { IsPlace result (λ at. IsBroken T.format bytes.now at) }
{
    answer(alloc, bytes)
}

// As reading and the rule give it.
fn answer_ruled<T: Ruled + Drop>(alloc: Global, bytes: &[u8]) -> Result<T, WholeFault>
    requires { Exact T.format }
    ensures { IsAnswer result (all_of T.format T.rule bytes.now) }
{
    match answer::<T>(alloc, bytes) {
        Err(fault) => Err(fault),
        Ok(value) => {
            if value.keeps() {
                Ok(value)
            } else {
                Err(WholeFault::Broken { at: bytes.len() })
            }
        }
    }
}

/// The value that all of the bytes spell, where it keeps its rule.
pub fn read_all_ruled<T: Ruled + Drop>(alloc: Global, bytes: &[u8]) -> Result<T, WholeFault>
    requires { Exact T.format }
    // What is found is spelled so, and keeps the rule.
    ensures found { IsFound result (λ value. SpellsBy T.format T.rule bytes.now value) }
    // What is spelled so and keeps the rule is found, unless memory runs out.
    ensures only { (value : T) → SpellsBy T.format T.rule bytes.now value → IsOnly result value }
    // Bytes that are refused are no such value's, and wrong from this place on.
    ensures place { IsPlace result (λ at. IsRefused T.format T.rule bytes.now at) }
{
    answer_ruled(alloc, bytes)
}
