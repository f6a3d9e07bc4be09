//! What the program does with the words, the files and the streams that the system gives it: it makes the top call.
ghost use Rattle.std.specs.Prelude.{◌≡◌, IfSome, drop, map, string_bytes};
ghost use Rattle.std.specs.Vec.Iter.{into_iter_items};
ghost use Rattle.fac_tool.specs.SeenObjects.{files_seen, sink_seen};
ghost use Rattle.fac_explainer.specs.Programs.{words_given, Calls, TellsCode, ProgramRuns};

use crate::explain_top;
use fac_io::{Files, RealSink, Sink};
use fac_par::{Gate, NoGate, Workers};
use fac_tool::tell_no_words;
use std::alloc::Global;
use std::env::Args;
use std::io;
use std::io::ErrorKind;
use std::process::ExitCode;
use std::rt::{Stderr, Stdout};
use std::thread::Threads;

// How many workers a program has.
const WORKERS: u32 = 4;

// The words of a command line behind the program's name. None where there is no memory for them.
fn words_behind_name(alloc: Global, mut args: Args) -> Option<Vec<String>>
    ensures { IfSome result (λ words. map string_bytes words.items ≡ drop 1 (map string_bytes (into_iter_items args))) }
{
    let _name = args.next();
    let mut words = Vec::new(alloc);
    while let Some(word) = args.next() {
        words.push(word).ok()?;
    }
    Some(words)
}

// The words that the program is given. None where there is no memory for them.
fn words_of(alloc: Global, args: io::Result<Args>) -> Option<Vec<String>>
    ensures { IfSome result (λ words. map string_bytes words.items ≡ words_given args) }
{
    match args {
        Ok(args) => words_behind_name(alloc, args),
        Err(error) => match error.kind() {
            ErrorKind::OutOfMemory => None,
            _ => Some(Vec::new(alloc)),
        },
    }
}

// Makes the top call; the program's status is that of its ending.
fn call_top<R: Threads + Sync, G: Gate + Sync, F: Files, K: Sink, N: Sink>(
    workers: &Workers<'_, R, G>,
    words: &[String],
    files: &mut F,
    out: &mut K,
    notes: &mut N,
) -> ExitCode
    ensures { Calls (map string_bytes words.now)
        (files_seen F.held F.asked F.faults files.old files.new)
        (sink_seen K.taken K.pieces K.faults out.old out.new)
        (sink_seen N.taken N.pieces N.faults notes.old notes.new)
        result }
{
    let ended = explain_top(workers, words, files, out, notes);
    ExitCode::from(ended.status)
}

// Tells that there is no memory for the words, whose status is the program's.
fn end_without_words<N: Sink>(notes: &mut N) -> ExitCode
    ensures { TellsCode (sink_seen N.taken N.pieces N.faults notes.old notes.new) result }
{
    let ended = tell_no_words(notes);
    ExitCode::from(ended.status)
}

// The program, on the words, the files and the streams that the system gives.
#[tactic(auto, using(crate::proofs::IdleLemmas::idle))]
fn program<R: Threads + Sync, G: Gate + Sync, F: Files, K: Sink, N: Sink>(
    workers: &Workers<'_, R, G>,
    args: io::Result<Args>,
    files: &mut F,
    out: &mut K,
    notes: &mut N,
) -> ExitCode
    ensures { ProgramRuns (words_given args)
        (files_seen F.held F.asked F.faults files.old files.new)
        (sink_seen K.taken K.pieces K.faults out.old out.new)
        (sink_seen N.taken N.pieces N.faults notes.old notes.new)
        result }
{
    match words_of(workers.alloc, args) {
        Some(words) => call_top(workers, words.as_slice(), files, out, notes),
        None => end_without_words(notes),
    }
}

/// The program on the streams of the system: explanations go to the standard output, and notes to the standard error. Its workers' threads are made by
/// this, and no gate is told of their work.
pub fn program_on_streams<R: Threads + Sync, F: Files>(
    threads: &R,
    alloc: Global,
    args: io::Result<Args>,
    files: &mut F,
    out: &mut RealSink<Stdout>,
    notes: &mut RealSink<Stderr>,
) -> ExitCode
    ensures { ProgramRuns (words_given args)
        (files_seen F.held F.asked F.faults files.old files.new)
        (sink_seen ⟦<RealSink<Stdout> as Sink>⟧.taken ⟦<RealSink<Stdout> as Sink>⟧.pieces ⟦<RealSink<Stdout> as Sink>⟧.faults out.old out.new)
        (sink_seen ⟦<RealSink<Stderr> as Sink>⟧.taken ⟦<RealSink<Stderr> as Sink>⟧.pieces ⟦<RealSink<Stderr> as Sink>⟧.faults notes.old notes.new)
        result }
{
    let workers = Workers {
        threads,
        alloc,
        count: WORKERS,
        gate: &NoGate,
    };
    program(&workers, args, files, out, notes)
}
