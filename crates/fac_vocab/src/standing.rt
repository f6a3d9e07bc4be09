//! What a table's entries come to: how a name stands, and what a search answers.
ghost use Rattle.std.specs.Prelude.{◌≡◌, ◌∷◌, [], Some, true, IfOk};
ghost use Rattle.fac_vocab.specs.Scopes.{only_one};
ghost use Rattle.fac_vocab.specs.ScopeCalls.{answer_of, names_between, name_of, names_differ, standing_of};
ghost use Rattle.fac_vocab.specs.inner.Rows.{deferred_at, entries_at, in_table, kept_numbers, numbers_named};
ghost use Rattle.fac_vocab.specs.inner.Late.{LateWhere};

use crate::answers::{Found, NameState};
use crate::entry::Entry;
use crate::late::{Late, first_holder, is_defined};
use crate::least::Least;
use fac_base::{Duplicate, Memory, Name};
use std::alloc::Global;

// The word of the first entry that has holders of a name.
fn deferred_of(entries: &[Entry], first: Option<u32>) -> NameState
    ensures { result ≡ deferred_at entries.now first }
{
    match first {
        Some(number) => match entries.get(number as usize) {
            Some(entry) => NameState::Deferred(entry.word),
            None => NameState::New,
        },
        None => NameState::New,
    }
}

/// How a name stands in the tables to which a vocabulary belongs, where its entries have these numbers.
pub fn standing_in(
    entries: &[Entry],
    late: &Late,
    numbers: &[u32],
    vocab: &str,
    name: &str,
) -> NameState
    requires late { LateWhere late.now.is_kept late.now.own late.now.companions entries.now }
    requires numbers { numbers.now ≡ numbers_named 0 name.now entries.now }
    requires once { names_differ entries.now ≡ true }
    ensures { result ≡ standing_of (in_table vocab.now (entries_at entries.now numbers.now)) }
{
    if is_defined(entries, late, numbers, vocab, name) {
        return NameState::Defined;
    }
    deferred_of(entries, first_holder(entries, late, numbers, vocab, name))
}

// What two entries come to.
fn found_two(entries: &[Entry], first: u32, second: u32) -> Found
    ensures { answer_of (only_one (entries_at entries.now (first ∷ second ∷ []))) ≡ result }
{
    match entries.get(first as usize) {
        Some(entry) => match entries.get(second as usize) {
            Some(other) => Found::Ambiguous(entry.word, other.word),
            None => Found::Word(entry.word),
        },
        None => found_one(entries, second),
    }
}

// What one entry comes to.
fn found_one(entries: &[Entry], first: u32) -> Found
    ensures { answer_of (only_one (entries_at entries.now (first ∷ []))) ≡ result }
{
    match entries.get(first as usize) {
        Some(entry) => Found::Word(entry.word),
        None => Found::Unknown,
    }
}

/// What a search answers that the used vocabularies decide.
pub fn found_of(entries: &[Entry], least: Least) -> Found
    ensures { answer_of (only_one (entries_at entries.now (kept_numbers least))) ≡ result }
{
    match least {
        Least::Nothing => Found::Unknown,
        Least::One(first) => found_one(entries, first),
        Least::Two(first, second) => found_two(entries, first, second),
    }
}

// The full name of an entry.
fn full_name(alloc: Global, entry: &Entry) -> Result<Name, Memory>
    ensures { IfOk result (λ name. name ≡ name_of entry.now) }
{
    let vocab = entry.vocab.copy(alloc)?;
    let name = entry.name.copy(alloc)?;
    Ok(Name { vocab, name })
}

// The full names of two entries.
fn both_names(alloc: Global, entry: &Entry, other: &Entry) -> Result<Option<(Name, Name)>, Memory>
    ensures { IfOk result (λ names. names ≡ Some (name_of entry.now, name_of other.now)) }
{
    let first = full_name(alloc, entry)?;
    let second = full_name(alloc, other)?;
    Ok(Some((first, second)))
}

/// The full names between which a search is ambiguous that the used vocabularies decide.
pub fn names_of(
    alloc: Global,
    entries: &[Entry],
    least: Least,
) -> Result<Option<(Name, Name)>, Memory>
    ensures { IfOk result (λ names. names ≡ names_between (only_one (entries_at entries.now (kept_numbers least)))) }
{
    match least {
        Least::Nothing => Ok(None),
        Least::One(_) => Ok(None),
        Least::Two(first, second) => match entries.get(first as usize) {
            Some(entry) => match entries.get(second as usize) {
                Some(other) => both_names(alloc, entry, other),
                None => Ok(None),
            },
            None => Ok(None),
        },
    }
}
