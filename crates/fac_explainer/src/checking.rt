//! The refusal of texts: what `check` answers on them.
ghost use Rattle.std.specs.Prelude.{◌≡◌, ◌≤◌, ◌∷◌, ◌++◌, [], length, map, codes, string_bytes, IfOk, OnOk};
ghost use Rattle.std.specs.List.{concat};
ghost use Rattle.fac_tool.specs.Answer.{limit};
ghost use Rattle.fac_io.specs.Names.{bytes_of};
ghost use Rattle.fac_explainer.specs.CheckAnswers.{IsCheckedAs};
ghost use Rattle.fac_explainer.specs.inner.GivenTexts.{AreNumbered};
ghost use Rattle.fac_explainer.specs.inner.Steps.{ChecksGiven, IsSettled};

use crate::given::{Given, numbered};
use crate::silent::{Nothing, Nowhere};
use fac_base::{Bytes, List, Memory, Text};
use fac_lines::Channels;
use fac_notes::status::SUCCESS;
use fac_par::{Gate, Workers};
use fac_tool::{Ended, Report, factor_top};
use std::alloc::Global;
use std::thread::Threads;

// Puts a word behind others.
fn add_word(alloc: Global, words: &mut Vec<String>, word: &str) -> Result<(), Memory>
    ensures { OnOk result (map string_bytes words.new.items ≡ map string_bytes words.old.items ++ word.now ∷ []) }
{
    words.push(String::from_str(alloc, word)?)?;
    Ok(())
}

// The words of a command line that checks texts of these names.
fn words_of(alloc: Global, given: &[(Text, Bytes)]) -> Result<Vec<String>, Memory>
    ensures { IfOk result (λ words. map string_bytes words.items ≡ codes "check" ∷ map (λ pair. pair.0) given.now) }
{
    let mut words = Vec::new(alloc);
    add_word(alloc, &mut words, "check")?;
    for text in given {
        add_word(alloc, &mut words, text.0.as_str())?;
    }
    Ok(words)
}

// Checks the texts that these words name.
fn check_words<R: Threads + Sync, G: Gate + Sync>(
    workers: &Workers<'_, R, G>,
    words: &[String],
    given: &[(Text, Bytes)],
) -> Ended
    ensures { ChecksGiven (map string_bytes words.now) (bytes_of given.now) result }
{
    let mut files = Given { texts: given };
    let mut channels = Channels::new(workers.alloc, Nothing, Nowhere);
    let mut notes = Nowhere;
    factor_top(workers, words, &mut files, &mut channels, &mut notes)
}

// The refusal of a call. One that comes to neither a refusal nor its end wanted memory.
fn refusal_of(ended: Ended) -> Result<Option<Report>, Memory>
    ensures { IfOk result (λ refusal. (refusal ≡ ended.refusal) × IsSettled ended) }
{
    let Ended {
        status,
        refusal,
        ..
    } = ended;
    match refusal {
        Some(report) => Ok(Some(report)),
        None => {
            if status == SUCCESS {
                Ok(None)
            } else {
                Err(Memory)
            }
        }
    }
}

/// The refusal of texts that are numbered. None where they are accepted.
#[tactic(auto, using(crate::proofs::CheckedLemmas::given_checks))]
pub fn check_given<R: Threads + Sync, G: Gate + Sync>(
    workers: &Workers<'_, R, G>,
    given: &List<(Text, Bytes)>,
) -> Result<Option<Report>, Memory>
    requires { AreNumbered given.now (map (λ pair. pair.1) given.now) }
    ensures { IfOk result (IsCheckedAs (map (λ pair. pair.1) given.now)) }
{
    let words = words_of(workers.alloc, given.as_slice())?;
    let ended = check_words(workers, words.as_slice(), given.as_slice());
    refusal_of(ended)
}

/// The refusal of texts. None where they are accepted.
#[tactic(auto, using(crate::proofs::GivenLemmas::numbered_again, crate::proofs::CheckedLemmas::checked_again))]
pub fn check_texts<R: Threads + Sync, G: Gate + Sync>(
    workers: &Workers<'_, R, G>,
    texts: List<Bytes>,
) -> Result<Option<Report>, Memory>
    requires { length (concat texts) ≤ limit }
    ensures { IfOk result (IsCheckedAs texts) }
{
    let _count = texts.len();
    let given = numbered(workers.alloc, texts)?;
    check_given(workers, &given)
}
