//! Numbers that are not taken yet.
ghost use Rattle.std.specs.Prelude.{◌≡◌, ◌≤◌, ◌<◌, ◌-◌, ◌^◌, ◌++◌, ◌∷◌, [], true, length, IfOk, OnOk, OnErr};
ghost use Rattle.fac_spelling.specs.Numbers.{IsWithin, least, most};
ghost use Rattle.fac_spelling.specs.TestedNumbers.{any_passes, number_where_at, is_free as is_free_in, fresh};
ghost use Rattle.fac_spelling.specs.inner.TakenBehind.{taken_behind, Differ, count_in as count_of};
ghost use Rattle.fac_spelling.specs.Reads.{Gives};

use crate::{ReadFault, read_number};
use fac_base::Memory;
use indexmap::IndexSet;
use std::alloc::Global;
use std::marker::Model;

// Whether a number isn't taken.
fn is_free(taken: &[u32], number: u32) -> bool
    ensures { result ≡ is_free_in taken.now number }
{
    for other in taken {
        if *other == number {
            return false;
        }
    }
    true
}

// How many numbers lie from `low` on and before `end`.
fn count_in(numbers: &[u32], low: u32, end: u64) -> u64
    ensures { result ≡ count_of low end numbers.now }
{
    let mut count: u64 = 0;
    for number in numbers {
        if low <= *number && u64::from(*number) < end {
            count += 1;
        }
    }
    count
}

// Whether a number from `low` to `high` isn't taken: where fewer are taken than there are.
fn has_free(taken: &[u32], low: u32, high: u32) -> bool
    requires { Differ taken.now }
    ensures { result ≡ any_passes (is_free_in taken.now) low high }
{
    if high < low {
        return false;
    }
    let size = u64::from(high - low) + 1;
    count_in(taken, low, u64::from(low) + size) < size
}

// Of the taken numbers those that go on behind this first byte, as what follows it.
fn behind_of(alloc: Global, byte: u8, taken: &[u32]) -> Result<Vec<u32>, Memory>
    requires { 128 ≤ byte }
    ensures { IfOk result (λ v. v.items ≡ taken_behind byte taken.now) }
{
    let digit = u32::from(byte - 128);
    let mut rest = Vec::new(alloc);
    for number in taken {
        if *number % 128 == digit {
            rest.push(*number / 128)?;
        }
    }
    Ok(rest)
}

// The least number behind a first byte from 128 on.
fn least_of(low: u32, lead: u32) -> u32
    requires from { 128 ≤ lead }
    requires below { lead < 256 }
    ensures { result ≡ least low lead }
{
    let digit = lead - 128;
    if digit < low {
        1 + (low - digit - 1) / 128
    } else {
        1
    }
}

// The greatest number behind a first byte from 128 on.
fn most_of(high: u32, lead: u32) -> u32
    requires from { 128 ≤ lead }
    requires below { lead < 256 }
    ensures { result ≡ most high lead }
{
    let digit = lead - 128;
    if digit <= high {
        (high - digit) / 128
    } else {
        0
    }
}

// The number at the front, from `low` to `high` and not taken. It calls itself for each further digit, at most 4 times.
#[tactic(auto, using(crate::proofs::FreshLaws::read_behind, crate::proofs::FreshLaws::stop_behind))]
fn fresh_from<'a>(
    alloc: Global,
    taken: &[u32],
    bytes: &'a [u8],
    low: u32,
    high: u32,
) -> Result<(u32, &'a [u8]), ReadFault>
    requires { Differ taken.now }
    ensures within { IfOk result (λ x. IsWithin low high x.0) }
    ensures exact { Gives (λ x. (x.0, x.1.now)) result (number_where_at (is_free_in taken.now) low high bytes.now) }
{
    match bytes {
        [] => Err(ReadFault::Refused { left: 0 }),
        [byte, rest @ ..] => {
            let lead = u32::from(*byte);
            if lead < 128 {
                if low <= lead && lead <= high && is_free(taken, lead) {
                    return Ok((lead, rest));
                }
                return Err(ReadFault::Refused { left: bytes.len() });
            }
            let behind = behind_of(alloc, *byte, taken)?;
            let least = least_of(low, lead);
            let most = most_of(high, lead);
            if !has_free(&behind, least, most) {
                return Err(ReadFault::Refused { left: bytes.len() });
            }
            let (more, rest) = fresh_from(alloc, &behind, rest, least, most)?;
            Ok((lead - 128 + 128 * more, rest))
        }
    }
}

/// Numbers that are taken, no two of them the same, in the order in which they were taken.
#[derive(Drop)]
pub struct TakenNumbers {
    numbers: IndexSet<u32>,
}

impl Model for TakenNumbers {
    ghost use Rattle.std.specs.Prelude.{List, ℕ};

    ghost Value = { List ℕ };

    ghost view = { λ taken. taken.numbers.keys };
}

impl TakenNumbers {
    /// No numbers.
    pub fn new(alloc: Global) -> Self
        ensures { result ≡ [] }
    {
        TakenNumbers {
            numbers: IndexSet::new(alloc),
        }
    }

    /// How many there are.
    pub fn len(&self) -> usize
        ensures { result ≡ length self.now }
    {
        self.numbers.len()
    }

    // Whether a number isn't taken.
    #[tactic(auto, using(crate::proofs::CountLaws::free_is))]
    fn is_free(&self, number: u32) -> bool
        ensures { result ≡ is_free_in self.now number }
    {
        !self.numbers.contains(&number)
    }

    // The number at the front that isn't taken. Where a plain number isn't refused, it is that one; else its place is found digit by digit.
    #[tactic(auto, using(crate::proofs::FreshLaws::plain_fresh))]
    fn find<'a>(&self, alloc: Global, bytes: &'a [u8]) -> Result<(u32, &'a [u8]), ReadFault>
        ensures { Gives (λ x. (x.0, x.1.now)) result ((fresh self.now).read bytes.now) }
    {
        if let Ok((plain, rest)) = read_number(bytes, 0, u32::MAX) {
            if self.is_free(plain) {
                return Ok((plain, rest));
            }
        }
        fresh_from(alloc, self.numbers.as_slice(), bytes, 0, u32::MAX)
    }

    // Takes a number that is free.
    fn take(&mut self, number: u32) -> Result<(), Memory>
        requires { is_free_in self.old number ≡ true }
        ensures ok { OnOk result (self.new ≡ self.old ++ number ∷ []) }
        ensures err { OnErr result (self.new ≡ self.old) }
    {
        self.numbers.insert(number)?;
        Ok(())
    }

    /// The number at the front, which isn't taken yet and is from then on, and the bytes behind it. A refused call changes nothing.
    pub fn read<'a>(&mut self, alloc: Global, bytes: &'a [u8]) -> Result<(u32, &'a [u8]), ReadFault>
        ensures exact { Gives (λ x. (x.0, x.1.now)) result ((fresh self.old).read bytes.now) }
        ensures ok { IfOk result (λ x. self.new ≡ self.old ++ x.0 ∷ []) }
        ensures err { OnErr result (self.new ≡ self.old) }
    {
        let (number, rest) = self.find(alloc, bytes)?;
        self.take(number)?;
        Ok((number, rest))
    }
}
