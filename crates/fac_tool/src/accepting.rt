//! The steps of every command from the texts of its files to an accepted program.
ghost use Rattle.std.specs.Prelude.{◌≡◌, Some, None, Ok, ℕ, [], List as Items};
ghost use Rattle.fac_lang.specs.declared.program.Program.{Program as Source};
ghost use Rattle.fac_source.specs.declared.tree.Form.{Form};
ghost use Rattle.fac_lang.specs.Whole.{IsWhole};
ghost use Rattle.fac_check.specs.Judged.{OfEach, StandsForWhole, refusal_if, refusal_seen};
ghost use Rattle.fac_check.specs.Verdicts.{verdict};
ghost use Rattle.fac_names.specs.Resolution.{resolved};
ghost use Rattle.fac_names.specs.TakenForms.{HasTaken};
ghost use Rattle.fac_parse.specs.Trees.{AreWellFormed};
ghost use Rattle.fac_tool.specs.Answer.{OnAccepted, on_resolved, on_verdict, own_definitions};
ghost use Rattle.fac_tool.specs.inner.Stops.{SameNames, StandsFor, StandsForSafe};
ghost use Rattle.fac_tool.specs.inner.StepEnds.{Accepts, EndsEarly, Steps, StepsOn};
ghost use Rattle.fac_tool.specs.inner.FormsTaken.{ReadsProgram};

use crate::ended::{bare, reported};
use crate::reading::take_texts;
use crate::{Ended, Report, every_text_is_a_source};
use fac_base::{Bytes, List};
use fac_check::{Checked, Refusal, accept, check_words, first_refusal_is_verdict, first_refused};
use fac_lang::Program;
use fac_locals::{Closed, close};
use fac_names::{ResolveFault, Resolver};
use fac_notes::status::NO_MEMORY;
use fac_notes::word_name;
use fac_par::{Gate, Workers};
use std::alloc::Global;
use std::thread::Threads;

// The number of values that the top-level phrase starts from.
const START: u64 = 0;

/// A program, and how many definitions the files of the command have.
#[derive(Drop)]
pub struct NamedProgram {
    pub program: Program,
    pub definitions: u64,
}

/// An accepted program, and how many definitions the files of the command have.
#[derive(Drop)]
pub struct Accepted {
    pub checked: Checked,
    pub definitions: u64,
}

// The program of the files that names were taken of.
fn end_names(alloc: Global, resolver: Resolver) -> Result<Program, Ended>
    ensures { (files : Items (Items Form)) → AreWellFormed files → HasTaken files resolver → Steps (λ program. (resolved files ≡ Ok program) × IsWhole program) (λ on. on_resolved on (own_definitions files) (resolved files)) result }
{
    match resolver.end(alloc) {
        Err(ResolveFault::Memory) => Err(bare(NO_MEMORY, 0)),
        Err(ResolveFault::Name(fault)) => Err(reported(0, Report::Name(fault))),
        Ok(program) => Ok(program),
    }
}

// The program of the prelude and of texts, where no names were taken yet.
fn name_texts<R: Threads + Sync, G>(
    workers: &Workers<'_, R, G>,
    texts: List<Bytes>,
    mut resolver: Resolver,
) -> Result<NamedProgram, Ended>
    requires { HasTaken [] resolver }
    ensures { ReadsProgram texts result }
{
    match take_texts(workers, texts, &mut resolver) {
        Err(ended) => Err(ended),
        Ok(definitions) => match end_names(workers.alloc, resolver) {
            Err(ended) => Err(ended),
            Ok(program) => Ok(NamedProgram {
                program,
                definitions,
            }),
        },
    }
}

// The program of the prelude and of the texts of a command's files.
fn read_program<R: Threads + Sync, G>(
    workers: &Workers<'_, R, G>,
    texts: List<Bytes>,
) -> Result<NamedProgram, Ended>
    ensures { ReadsProgram texts result }
{
    every_text_is_a_source();
    match Resolver::new(workers.alloc) {
        Err(_) => Err(bare(NO_MEMORY, 0)),
        Ok(resolver) => name_texts(workers, texts, resolver),
    }
}

// A program with its quotations as templates.
fn close_program(alloc: Global, program: Program) -> Result<Closed, Ended>
    requires { IsWhole program }
    ensures { StepsOn (λ closed. StandsFor closed program × (closed.start ≡ 0)) result }
{
    match close(alloc, program, START) {
        Err(_) => Err(bare(NO_MEMORY, 0)),
        Ok(closed) => Ok(closed),
    }
}

// The first refusal of a closed program.
fn refusal_of<R: Threads + Sync, G: Gate + Sync>(
    workers: &Workers<'_, R, G>,
    closed: &Closed,
) -> Result<Option<Refusal>, Ended>
    requires { StandsForWhole closed.now }
    ensures { StepsOn (λ refusal. OfEach closed.now (λ P. verdict P closed.now.start ≡ refusal_if refusal)) result }
{
    first_refusal_is_verdict();
    match check_words(workers, closed) {
        Err(_) => Err(bare(NO_MEMORY, 0)),
        Ok(verdicts) => Ok(first_refused(&verdicts)),
    }
}

// The refusal of a program. The name of its word is taken from this program, which has the same names.
fn refused(alloc: Global, program: &Program, refusal: Refusal) -> Ended
    ensures { (P : Source) → SameNames P program.now → verdict P 0 ≡ Some (refusal_seen refusal) → (on : OnAccepted) (count : ℕ) → EndsEarly (on_verdict on count P (verdict P 0)) result }
{
    match word_name(alloc, program, refusal.word) {
        Ok(word) => reported(0, Report::Check { refusal, word }),
        Err(_) => bare(NO_MEMORY, 0),
    }
}

// A closed program that is accepted.
fn check_closed<R: Threads + Sync, G: Gate + Sync>(
    workers: &Workers<'_, R, G>,
    closed: Closed,
) -> Result<Checked, Ended>
    requires start { closed.start ≡ 0 }
    requires stands { (P : Source) × StandsFor closed P }
    ensures { (P : Source) → StandsFor closed P → (count : ℕ) → Steps (λ checked. (verdict P 0 ≡ None) × StandsForSafe checked.closed P) (λ on. on_verdict on count P (verdict P 0)) result }
{
    match refusal_of(workers, &closed)? {
        Some(refusal) => Err(refused(workers.alloc, &closed.program, refusal)),
        None => Ok(accept(closed)),
    }
}

/// The accepted program of the prelude and the texts of a command's files.
pub fn accepted_program<R: Threads + Sync, G: Gate + Sync>(
    workers: &Workers<'_, R, G>,
    texts: List<Bytes>,
) -> Result<Accepted, Ended>
    ensures { Accepts texts result }
{
    let NamedProgram {
        program,
        definitions,
    } = read_program(workers, texts)?;
    let closed = close_program(workers.alloc, program)?;
    let checked = check_closed(workers, closed)?;
    Ok(Accepted {
        checked,
        definitions,
    })
}
