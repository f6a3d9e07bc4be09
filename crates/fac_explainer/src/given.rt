//! Texts in memory as files that are called by their numbers. They never fail.
ghost use Rattle.std.specs.Prelude.{◌≡◌, ◌++◌, ◌∷◌, [], Some, None, IfOk, OnOk};
ghost use Rattle.std.specs.Option.{option_copied};
ghost use Rattle.fac_io.specs.Names.{bytes_of};
ghost use Rattle.fac_io.specs.Told.{Stays};
ghost use Rattle.fac_io.specs.Files.{LoadAnswers, LoadAsks, LoadCounts, SaveLeaves, SaveAsks, SaveCounts};
ghost use Rattle.fac_explainer.specs.inner.GivenTexts.{number_name, numbered_texts};
ghost use Rattle.fac_explainer.specs.inner.Steps.{GivesBytes};

use fac_base::{Bytes, List, Memory, Queue, Text};
use fac_io::{Files, LoadFault, SaveFault};
use std::alloc::Global;

/// Named texts. One whose name no text has is want of memory, and nothing is saved.
#[derive(Drop)]
pub struct Given<'a> {
    pub texts: &'a [(Text, Bytes)],
}

// The bytes of the first text of this name.
fn find<'a>(texts: &'a [(Text, Bytes)], name: &str) -> Option<&'a [u8]>
    ensures { option_copied result ≡ bytes_of texts.now name.now }
{
    for text in texts {
        if text.0.as_str() == name {
            return Some(text.1.as_slice());
        }
    }
    None
}

// A copy of bytes, where they are at most so many.
fn copied(alloc: Global, found: Option<&[u8]>, limit: u64) -> Result<Bytes, LoadFault>
    ensures { GivesBytes (option_copied found.entry) limit result }
{
    match found {
        None => Err(LoadFault::Memory),
        Some(bytes) => {
            if bytes.len() as u64 > limit {
                return Err(LoadFault::TooLong);
            }
            Ok(Bytes::from_slice(alloc, bytes)?)
        }
    }
}

impl<'a> Files for Given<'a> {
    ghost held = { λ g. Some (bytes_of g.texts.now) };

    ghost asked = { λ _. None };

    ghost faults = { λ _. 0 };

    #[tactic(auto, using(crate::proofs::GivenFiles::given_answers, crate::proofs::GivenFiles::given_asks, crate::proofs::GivenFiles::given_counts))]
    fn load(&mut self, alloc: Global, name: &str, limit: u64) -> Result<Bytes, LoadFault> {
        copied(alloc, find(self.texts, name), limit)
    }

    fn save(&mut self, _: Global, _: &str, _: &[u8]) -> Result<(), SaveFault> {
        Err(SaveFault::Memory)
    }
}

// The name of the text with this number.
fn name_of(alloc: Global, number: u64) -> Result<Text, Memory>
    ensures { IfOk result (λ name. name ≡ number_name number) }
{
    Ok(Text::from_string(format!(in alloc; "f{number}")?))
}

// Adds a text under its number.
fn add_text(
    alloc: Global,
    given: &mut List<(Text, Bytes)>,
    number: u64,
    text: Bytes,
) -> Result<(), Memory>
    ensures { OnOk result (given.new ≡ given.old ++ (number_name number, text) ∷ []) }
{
    given.push((name_of(alloc, number)?, text))
}

/// Texts with their names, numbered from 1 on.
#[tactic(auto, using(crate::proofs::GivenLemmas::one_more_given, crate::proofs::GivenLemmas::all_given))]
pub fn numbered(alloc: Global, texts: List<Bytes>) -> Result<List<(Text, Bytes)>, Memory>
    ensures { IfOk result (λ given. given ≡ numbered_texts 1 texts) }
{
    let _count = texts.len();
    let mut left = Queue::new(texts.into_vec());
    let mut given = List::new(alloc);
    let mut number = 1u64;
    'texts: while let Some(text) = left.take() {
        add_text(alloc, &mut given, number, text)?;
        number += 1;
    }
    Ok(given)
}
