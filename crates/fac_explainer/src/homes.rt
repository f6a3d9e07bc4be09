//! The vocabularies of the language that hold a word of a name.
ghost use Rattle.std.specs.Prelude.{◌≡◌, ◌∷◌, [], map, IfOk, OnOk};
ghost use Rattle.fac_explainer.specs.Homes.{AreHomes, HasHomes, bringing as bringing_text, vocabularies};
ghost use Rattle.fac_explainer.specs.inner.Steps.{AcceptsTexts, AddsHome};

use crate::checking::check_texts;
use fac_base::limits::MOST_SOURCE_BYTES;
use fac_base::{Bytes, List, Memory, Text};
use fac_explain::say;
use fac_par::{Gate, Workers};
use std::alloc::Global;
use std::thread::Threads;

/// No word of the language has a name of more bytes.
pub const MOST_NAME: usize = 256;

/// The vocabularies of the language, in the order of their names.
#[rattlefmt::skip]
pub static VOCABULARIES: [&str; 14] = [
    "accessors", "arrays", "combinators", "fry", "io", "kernel", "locals", "math", "math.parser", "prettyprint", "sequences", "strings", "syntax", "words",
];

// A source that brings one word of a vocabulary.
fn bringing(alloc: Global, vocab: &str, name: &Text) -> Result<Bytes, Memory>
    ensures { IfOk result (λ text. text ≡ bringing_text vocab.now name.now) }
{
    let mut text = Bytes::new(alloc);
    say(&mut text, "FROM: ")?;
    say(&mut text, vocab)?;
    say(&mut text, " => ")?;
    text.extend(name.as_bytes())?;
    say(&mut text, " ;\n")?;
    Ok(text)
}

// Whether the one source of a command is accepted. One that is too long, which none is here, is told as want of memory.
fn is_accepted<R: Threads + Sync, G: Gate + Sync>(
    workers: &Workers<'_, R, G>,
    text: Bytes,
) -> Result<bool, Memory>
    ensures { IfOk result (AcceptsTexts (text ∷ [])) }
{
    if text.len() as u64 > MOST_SOURCE_BYTES {
        return Err(Memory);
    }
    let mut texts = List::new(workers.alloc);
    texts.push(text)?;
    match check_texts(workers, texts)? {
        None => Ok(true),
        Some(_) => Ok(false),
    }
}

// Whether a vocabulary holds a word of this name.
fn holds<R: Threads + Sync, G: Gate + Sync>(
    workers: &Workers<'_, R, G>,
    vocab: &str,
    name: &Text,
) -> Result<bool, Memory>
    ensures { IfOk result (AcceptsTexts (bringing_text vocab.now name.now ∷ [])) }
{
    let text = bringing(workers.alloc, vocab, name)?;
    is_accepted(workers, text)
}

// Puts a vocabulary behind others, where it holds a word of this name.
fn add_home<R: Threads + Sync, G: Gate + Sync>(
    workers: &Workers<'_, R, G>,
    homes: &mut List<Text>,
    vocab: &str,
    name: &Text,
) -> Result<(), Memory>
    ensures { OnOk result (AddsHome name.now vocab.now homes.old homes.new) }
{
    if holds(workers, vocab, name)? {
        homes.push(Text::from_str(workers.alloc, vocab)?)
    } else {
        Ok(())
    }
}

// Those of vocabularies that hold a word of this name.
fn homes_among<R: Threads + Sync, G: Gate + Sync>(
    workers: &Workers<'_, R, G>,
    vocabs: &[&str],
    name: &Text,
) -> Result<List<Text>, Memory>
    ensures { IfOk result (AreHomes name.now (map (λ vocab. vocab.now) vocabs.now)) }
{
    let mut homes = List::new(workers.alloc);
    for vocab in vocabs {
        add_home(workers, &mut homes, vocab, name)?;
    }
    Ok(homes)
}

// Those of the language.
fn language_homes<R: Threads + Sync, G: Gate + Sync>(
    workers: &Workers<'_, R, G>,
    name: &Text,
) -> Result<List<Text>, Memory>
    ensures { IfOk result (AreHomes name.now vocabularies) }
{
    homes_among(workers, &VOCABULARIES, name)
}

/// Those of a name that isn't found.
pub fn homes_of<R: Threads + Sync, G: Gate + Sync>(
    workers: &Workers<'_, R, G>,
    name: &Text,
) -> Result<List<Text>, Memory>
    ensures { IfOk result (HasHomes name.now) }
{
    if name.len() > MOST_NAME {
        return Ok(List::new(workers.alloc));
    }
    language_homes(workers, name)
}
