//! The verdict on a program.
ghost use Rattle.std.specs.Prelude.{◌≡◌, ◌<◌, length, map, slice_get, Some, IfOk};
ghost use Rattle.fac_rows.specs.NumberedRows.{row_entry};
ghost use Rattle.fac_check.specs.Judged.{StandsForWhole, AreUndeclared, AreVerdicts, IsVerdict, IsAccepted, verdict_seen, refusal_if, first_of};
ghost use Rattle.fac_check.specs.Checks.{IsKept, Gathers};

use crate::Checked;
use crate::checker::{Verdict, word_broken};
use crate::pieces::word_pieces;
use crate::recursion::undeclared_words;
use crate::refusal::Refusal;
use fac_base::{List, Memory};
use fac_locals::Closed;
use fac_par::{Gate, Workers, map_pieces};
use fac_rows::RowWords;
use std::alloc::Global;
use std::thread::Threads;

// The flag of a word.
fn flag(flags: &List<bool>, number: u32) -> bool
    requires { number < length flags.now }
    ensures { slice_get flags.now number ≡ Some result }
{
    match flags.get(number as usize) {
        Some(flag) => *flag,
        None => unreachable!(),
    }
}

/// The verdict on the word of this number: the first rule that it breaks, with its place. `undeclared` has for each word whether its phrase
/// leads back to it through inline words, as `undeclared_words` finds it for all words at once, and `rows` what is made once of its row words.
pub fn check_word(
    alloc: Global,
    closed: &Closed,
    rows: &RowWords,
    undeclared: &List<bool>,
    number: u32,
) -> Result<Verdict, Memory>
    requires stands { StandsForWhole closed.now }
    requires rows { rows.now.entries ≡ map row_entry closed.now.program.words }
    requires undeclared { AreUndeclared closed.now.program closed.now.templates undeclared.now }
    requires number { number < length closed.now.program.words }
    ensures { IfOk result (IsVerdict closed.now number) }
{
    let Some(word) = closed.program.words.get(number as usize) else {
        unreachable!()
    };
    match word_broken(alloc, closed, rows, flag(undeclared, number), number, word)? {
        Some(broken) => Ok(Verdict::Refused(Refusal {
            word: number,
            broken,
        })),
        None => Ok(Verdict::Accepted),
    }
}

/// The verdicts on all words, in their order, for every number of workers and every gate. An ordinary word is walked from the inputs that its effect
/// declares, the top-level phrase from as many unknown values as the closed program says, and a row word from its input row, where each quotation
/// input does what its effect declares. An expanded word is walked where it is used. The piece of a word has the word's number.
pub fn check_words<R: Threads + Sync, G: Gate + Sync>(
    workers: &Workers<'_, R, G>,
    closed: &Closed,
) -> Result<List<Verdict>, Memory>
    requires { StandsForWhole closed.now }
    ensures { IfOk result (AreVerdicts closed.now) }
{
    let undeclared = undeclared_words(workers.alloc, closed)?;
    let rows = RowWords::new(workers.alloc, &closed.program.words)?;
    let pieces = word_pieces(workers.alloc, closed, &rows, &undeclared)?;
    map_pieces(workers, pieces.as_slice())
}

/// The first refusal among the verdicts on words in their order. None where all are accepted.
pub fn first_refused(verdicts: &List<Verdict>) -> Option<Refusal>
    ensures { refusal_if result ≡ first_of (map verdict_seen verdicts.now) }
{
    for verdict in verdicts.as_slice() {
        match verdict {
            Verdict::Accepted => {}
            Verdict::Refused(refusal) => return Some(*refusal),
        }
    }
    None
}

/// The closed program as an accepted one, which is safe: no item of a run finds too few values, or a value that it can't apply, each ordinary
/// word leaves what its effect declares, and so does each row word, whatever lists its rows stand for, where what is handed in does as its
/// effect says.
pub fn accept(closed: Closed) -> Checked
    requires stands { StandsForWhole closed }
    requires accepted { IsAccepted closed }
    ensures closed { result.closed ≡ closed }
    ensures kept { IsKept closed }
{
    Checked { closed }
}

/// Accepts a program, or names its first refused word with the first place and rule that it breaks, by the verdicts on its words in their
/// order. An item that takes more values than are there is refused before anything runs, and so is a word that leaves another number of
/// values than its effect declares, as in the Factor Handbook's chapter on stack effect checking; the rules of callables, how row variables
/// are bound, and which word and place is named first, are this profile's own. What is accepted is safe, as at `accept`, with row words and
/// without.
pub fn gather(closed: Closed, verdicts: &List<Verdict>) -> Result<Checked, Refusal>
    requires stands { StandsForWhole closed }
    requires verdicts { AreVerdicts closed verdicts.now }
    ensures { Gathers closed result }
{
    match first_refused(verdicts) {
        Some(refusal) => Err(refusal),
        None => Ok(accept(closed)),
    }
}
