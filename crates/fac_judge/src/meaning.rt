//! What a text comes to behind what is known: it waits, it is refused, or its program is accepted.
ghost use Rattle.std.specs.Prelude.{◌≡◌, List as Items, ℕ, Err as failed};
ghost use Rattle.fac_lang.specs.Meaning.{word_phrase};
ghost use Rattle.fac_lang.specs.Whole.{IsWhole};
ghost use Rattle.fac_known.specs.KnownPrograms.{IsKnown};
ghost use Rattle.fac_names.specs.declared.known.Known.{Known as KnownSeen};
ghost use Rattle.fac_judge.specs.KnownTexts.{GoesOn};
ghost use Rattle.fac_judge.specs.TextMeanings.{IsMeaning, body_phrase, has_item};
ghost use Rattle.fac_judge.specs.inner.NamedTexts.{NamesText};

use crate::judging::{Judged, judge};
use crate::known_texts::{NoNext, next_known};
use fac_check::Checked;
use fac_known::known_goes_on;
use fac_lang::{Phrase, Program, Sort};
use fac_names::Known;
use fac_notes::Report;
use fac_par::{Gate, Workers};
use std::thread::Threads;

/// An accepted text.
#[derive(Drop)]
pub struct Accepted {
    /// The program that goes on with it.
    pub checked: Checked,
    /// Whether its top-level phrase has an item.
    pub runs: bool,
}

/// What a text comes to.
#[derive(Drop)]
pub enum Meaning {
    /// It waits for its end, which is wanted at this token.
    Waits { at: u32 },
    /// It is refused.
    Refused(Report),
    /// Its program is accepted.
    Accepted(Accepted),
    /// Memory was wanted.
    Memory,
}

// Whether a phrase has an item.
fn any_item(phrase: &Phrase) -> bool
    ensures { result ≡ has_item phrase.now }
{
    !phrase.items.as_slice().is_empty()
}

// Whether the phrase of a word with a body has an item.
fn sort_has_item(sort: &Sort) -> bool
    ensures { result ≡ has_item (body_phrase sort.now) }
{
    match sort {
        Sort::Body(phrase) => any_item(phrase),
        _ => false,
    }
}

// Whether the top-level phrase of a program has an item.
fn top_has_item(program: &Program) -> bool
    requires { IsWhole program.now }
    ensures { result ≡ has_item (word_phrase program.now program.now.top) }
{
    match program.words.get(program.top as usize) {
        None => false,
        Some(word) => sort_has_item(&word.sort),
    }
}

// What a text comes to that goes on with this program, where its top-level phrase starts on so many values.
#[tactic(auto, using(crate::proofs::MeaningLemmas::accepted_text))]
fn meaning_of_program<R: Threads + Sync, G: Gate + Sync>(
    workers: &Workers<'_, R, G>,
    program: Program,
    count: u64,
) -> Meaning
    requires { IsWhole program }
    ensures { (known next : KnownSeen) (text : Items ℕ) → GoesOn known text next → next.program ≡ program → IsMeaning known count text result }
{
    let runs = top_has_item(&program);
    match judge(workers, program, count) {
        Judged::Accepted(checked) => Meaning::Accepted(Accepted { checked, runs }),
        Judged::Refused(why) => Meaning::Refused(why),
        Judged::Memory => Meaning::Memory,
    }
}

/// The program of what is known.
pub fn program_of(known: Known) -> Program
    ensures { result ≡ known.program }
{
    let Known { program, .. } = known;
    program
}

// What a text comes to that goes on with nothing.
fn no_meaning(fault: NoNext) -> Meaning
    ensures { (known : KnownSeen) (count : ℕ) (text : Items ℕ) → NamesText known text (failed fault) → IsMeaning known count text result }
{
    match fault {
        NoNext::Waits { at } => Meaning::Waits { at },
        NoNext::Refused(why) => Meaning::Refused(why),
        NoNext::Memory => Meaning::Memory,
    }
}

/// What a text, which is file 1, comes to behind what is known, on a stack of so many values.
pub fn meaning_of<R: Threads + Sync, G: Gate + Sync>(
    workers: &Workers<'_, R, G>,
    known: Known,
    count: u64,
    text: &[u8],
) -> Meaning
    requires { IsKnown known }
    ensures { IsMeaning known count text.now result }
{
    known_goes_on();
    match next_known(workers.alloc, known, text) {
        Err(fault) => no_meaning(fault),
        Ok(next) => meaning_of_program(workers, program_of(next), count),
    }
}
