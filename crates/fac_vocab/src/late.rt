//! The late entries of names that many vocabularies have.
ghost use Rattle.std.specs.Prelude.{◌≡◌, ◌++◌, ◌∷◌, ◌&&◌, ◌||◌, [], List as Items, ℕ, None, Some, true, length, if◌then◌else◌, OnOk};
ghost use Rattle.std.specs.Str.{bytes_eq};
ghost use Rattle.fac_vocab.specs.Scopes.{Entry as Row, companion, held};
ghost use Rattle.fac_vocab.specs.ScopeCalls.{names_differ};
ghost use Rattle.fac_vocab.specs.inner.Pairs.{number_in};
ghost use Rattle.fac_vocab.specs.inner.Rows.{numbers_named, first_among, defined_among, word_among};
ghost use Rattle.fac_vocab.specs.inner.Late.{late_numbers, number_by, numbered_word, numbered_defined, earlier, LateWhere};

use crate::entry::Entry;
use crate::few::{FEW, first_few};
use crate::pairs::{number_of, put_number};
use crate::search::{first_number, is_defined_in, word_in};
use fac_base::Memory;
use indexmap::IndexMap;
use std::alloc::Global;

/// The numbers of the entries that stand behind the first few of their names.
#[derive(Drop)]
pub struct Late {
    /// Under their vocabularies and names.
    pub own: IndexMap<String, IndexMap<String, u32>>,
    /// Those of companions, under the vocabularies whose companions they are.
    pub companions: IndexMap<String, IndexMap<String, u32>>,
    /// Whether all of them are kept there. Where they aren't, all entries of a name are gone through.
    pub is_kept: bool,
}

// Keeps the number of an entry.
fn put_late(
    alloc: Global,
    own: &mut IndexMap<String, IndexMap<String, u32>>,
    companions: &mut IndexMap<String, IndexMap<String, u32>>,
    vocab: &str,
    name: &str,
    number: u32,
) -> Result<(), Memory>
    ensures owned { (v q : Items ℕ) → OnOk result (number_in own.new v q ≡ (if bytes_eq vocab.now v && bytes_eq name.now q then Some number else number_in own.old v q)) }
    ensures companions { (v q : Items ℕ) → OnOk result (number_in companions.new v q ≡ (if bytes_eq vocab.now (companion v) && bytes_eq name.now q then Some number else number_in companions.old v q)) }
{
    put_number(alloc, own, vocab, name, number)?;
    match vocab.strip_suffix(".private") {
        Some(stem) => put_number(alloc, companions, stem, name, number),
        None => Ok(()),
    }
}

/// Keeps the number of an entry behind others where it is late, and answers whether all are kept then.
pub fn note_late(
    alloc: Global,
    is_kept: bool,
    own: &mut IndexMap<String, IndexMap<String, u32>>,
    companions: &mut IndexMap<String, IndexMap<String, u32>>,
    numbers: &[u32],
    vocab: &str,
    name: &str,
    number: u32,
) -> bool
    ensures { (es : Items Row) (e : Row) → e.vocab ≡ vocab.now → e.name ≡ name.now → numbers.now ≡ numbers_named 0 name.now es → number ≡ length es → held es vocab.now name.now ≡ None → LateWhere is_kept own.old companions.old es → LateWhere result own.new companions.new (es ++ e ∷ []) }
{
    if !is_kept {
        return false;
    }
    if numbers.len() < FEW {
        return true;
    }
    match put_late(alloc, own, companions, vocab, name, number) {
        Ok(_) => true,
        Err(_) => false,
    }
}

// The word of a number.
fn numbered(entries: &[Entry], number: Option<u32>) -> Option<u32>
    ensures { result ≡ numbered_word entries.now number }
{
    match number {
        Some(number) => match entries.get(number as usize) {
            Some(entry) => Some(entry.word),
            None => None,
        },
        None => None,
    }
}

// Whether the entry of a number is defined.
fn is_numbered_defined(entries: &[Entry], number: Option<u32>) -> bool
    ensures { result ≡ numbered_defined entries.now number }
{
    match number {
        Some(number) => match entries.get(number as usize) {
            Some(entry) => entry.is_defined,
            None => false,
        },
        None => false,
    }
}

// Whether one of three entries is defined.
fn is_any_defined(
    entries: &[Entry],
    first: Option<u32>,
    second: Option<u32>,
    third: Option<u32>,
) -> bool
    ensures { result ≡ ((numbered_defined entries.now first || numbered_defined entries.now second) || numbered_defined entries.now third) }
{
    is_numbered_defined(entries, first)
        || is_numbered_defined(entries, second)
        || is_numbered_defined(entries, third)
}

// The lesser of two numbers.
fn earlier_of(first: Option<u32>, second: Option<u32>) -> Option<u32>
    ensures { result ≡ earlier first second }
{
    match first {
        Some(one) => match second {
            Some(other) => { if other < one { Some(other) } else { Some(one) } }
            None => Some(one),
        },
        None => second,
    }
}

// The number of the late entry of the vocabulary whose companion is this one.
fn stem_number(
    own: &IndexMap<String, IndexMap<String, u32>>,
    vocab: &str,
    name: &str,
) -> Option<u32>
    ensures { (es : Items Row) → ((v q : Items ℕ) → number_in own.now v q ≡ number_by (bytes_eq v) es (late_numbers q es)) → result ≡ number_by (λ w. bytes_eq vocab.now (companion w)) es (late_numbers name.now es) }
{
    match vocab.strip_suffix(".private") {
        Some(stem) => number_of(own, stem, name),
        None => None,
    }
}

/// The word of a vocabulary under a name that has these numbers.
pub fn word_of(
    entries: &[Entry],
    late: &Late,
    numbers: &[u32],
    vocab: &str,
    name: &str,
) -> Option<u32>
    requires late { LateWhere late.now.is_kept late.now.own late.now.companions entries.now }
    requires numbers { numbers.now ≡ numbers_named 0 name.now entries.now }
    ensures { result ≡ word_among entries.now vocab.now numbers.now }
{
    if !late.is_kept || numbers.len() <= FEW {
        return word_in(entries, numbers, vocab);
    }
    match word_in(entries, first_few(numbers), vocab) {
        Some(word) => Some(word),
        None => numbered(entries, number_of(&late.own, vocab, name)),
    }
}

/// Whether a name that has these numbers is defined in a table to which its vocabulary belongs.
pub fn is_defined(entries: &[Entry], late: &Late, numbers: &[u32], vocab: &str, name: &str) -> bool
    requires late { LateWhere late.now.is_kept late.now.own late.now.companions entries.now }
    requires numbers { numbers.now ≡ numbers_named 0 name.now entries.now }
    requires once { names_differ entries.now ≡ true }
    ensures { result ≡ defined_among entries.now vocab.now numbers.now }
{
    if !late.is_kept || numbers.len() <= FEW {
        return is_defined_in(entries, numbers, vocab);
    }
    let own = number_of(&late.own, vocab, name);
    let stem = stem_number(&late.own, vocab, name);
    let private = number_of(&late.companions, vocab, name);
    if is_defined_in(entries, first_few(numbers), vocab) {
        return true;
    }
    is_any_defined(entries, own, stem, private)
}

/// The number of the first entry of a name that has these numbers, in a table to which its vocabulary belongs.
pub fn first_holder(
    entries: &[Entry],
    late: &Late,
    numbers: &[u32],
    vocab: &str,
    name: &str,
) -> Option<u32>
    requires late { LateWhere late.now.is_kept late.now.own late.now.companions entries.now }
    requires numbers { numbers.now ≡ numbers_named 0 name.now entries.now }
    ensures { result ≡ first_among entries.now vocab.now numbers.now }
{
    if !late.is_kept || numbers.len() <= FEW {
        return first_number(entries, numbers, vocab);
    }
    let own = number_of(&late.own, vocab, name);
    let stem = stem_number(&late.own, vocab, name);
    let private = number_of(&late.companions, vocab, name);
    let earliest = earlier_of(own, stem);
    match first_number(entries, first_few(numbers), vocab) {
        Some(number) => Some(number),
        None => earlier_of(earliest, private),
    }
}
