//! Numbers under pairs of texts.
ghost use Rattle.std.specs.Prelude.{◌≡◌, ◌&&◌, List as Items, ℕ, Some, if◌then◌else◌, string_bytes, OnOk};
ghost use Rattle.std.specs.Str.{bytes_eq};
ghost use Rattle.indexmap.specs.IndexMap.{get_by_text};
ghost use Rattle.fac_vocab.specs.inner.Pairs.{number_in};

use fac_base::Memory;
use indexmap::IndexMap;
use std::alloc::Global;

// Keeps a number under a text, in place of what was there.
fn put(numbers: &mut IndexMap<String, u32>, text: String, number: u32) -> Result<(), Memory>
    ensures { (q : Items ℕ) → OnOk result (get_by_text numbers.new q ≡ (if bytes_eq (string_bytes text) q then Some number else get_by_text numbers.old q)) }
{
    numbers.insert(text, number)?;
    Ok(())
}

/// Keeps a number under two texts, in place of what was there.
pub fn put_number(
    alloc: Global,
    pairs: &mut IndexMap<String, IndexMap<String, u32>>,
    first: &str,
    second: &str,
    number: u32,
) -> Result<(), Memory>
    ensures { (p q : Items ℕ) → OnOk result (number_in pairs.new p q ≡ (if bytes_eq first.now p && bytes_eq second.now q then Some number else number_in pairs.old p q)) }
{
    let text = String::from_str(alloc, second)?;
    let numbers = pairs
        .entry(String::from_str(alloc, first)?)?
        .or_insert(IndexMap::new(alloc));
    match put(numbers, text, number) {
        Ok(_) => Ok(()),
        Err(Memory) => Err(Memory),
    }
}

/// The number that is kept under two texts.
pub fn number_of(
    pairs: &IndexMap<String, IndexMap<String, u32>>,
    first: &str,
    second: &str,
) -> Option<u32>
    ensures { result ≡ number_in pairs.now first.now second.now }
{
    match pairs.get(first) {
        Some(numbers) => numbers.get(second).copied(),
        None => None,
    }
}
