//! What a program does with the words, the files and the streams that the system gives it: it makes the top call, with so many workers. Each program's
//! `main` makes the real objects, and is one call of this.
#![tactic(auto)]

ghost use Rattle.std.specs.Prelude.{◌≡◌, IfSome, drop, map, string_bytes};
ghost use Rattle.std.specs.Vec.Iter.{into_iter_items};
ghost use Rattle.fac_tool.specs.SeenObjects.{files_seen, input_seen, output_seen, sink_seen};
ghost use Rattle.fac_program.specs.Program.{words_given, Calls, TellsCode, ProgramRuns};

use fac_io::{Files, RealSink, RealSource, Sink, Source};
use fac_lines::Channels;
use fac_par::{Gate, NoGate, Workers};
use fac_tool::{factor_top, tell_no_words};
use std::alloc::Global;
use std::env::Args;
use std::io;
use std::io::ErrorKind;
use std::process::ExitCode;
use std::rt::{Stderr, Stdin, Stdout};
use std::thread::Threads;

// How many workers a program has.
const WORKERS: u32 = 4;

// The words of a command line behind the program's name. None where there is no memory for them.
fn words_behind_name(alloc: Global, mut args: Args) -> Option<Vec<String>>
    ensures { IfSome result (λ words. map string_bytes words.items ≡ drop 1 (map string_bytes (into_iter_items args))) }
{
    let _name = args.next();
    let mut words = Vec::new(alloc);
    while let Some(word) = args.next() {
        words.push(word).ok()?;
    }
    Some(words)
}

// The words that the program is given. None where there is no memory for them.
fn words_of(alloc: Global, args: io::Result<Args>) -> Option<Vec<String>>
    ensures { IfSome result (λ words. map string_bytes words.items ≡ words_given args) }
{
    match args {
        Ok(args) => words_behind_name(alloc, args),
        Err(error) => match error.kind() {
            ErrorKind::OutOfMemory => None,
            _ => Some(Vec::new(alloc)),
        },
    }
}

// Makes the top call; the program's status is that of its ending.
fn call_top<R: Threads + Sync, G: Gate + Sync, F: Files, S: Source, K: Sink, N: Sink>(
    workers: &Workers<'_, R, G>,
    words: &[String],
    files: &mut F,
    channels: &mut Channels<S, K>,
    notes: &mut N,
) -> ExitCode
    ensures { Calls (map string_bytes words.now)
        (files_seen F.held F.asked F.faults files.old files.new)
        (input_seen channels.old channels.new)
        (output_seen channels.old channels.new)
        (sink_seen N.taken N.pieces N.faults notes.old notes.new)
        result }
{
    let ended = factor_top(workers, words, files, channels, notes);
    ExitCode::from(ended.status)
}

// Tells that there is no memory for the words, whose status is the program's.
fn end_without_words<N: Sink>(notes: &mut N) -> ExitCode
    ensures { TellsCode (sink_seen N.taken N.pieces N.faults notes.old notes.new) result }
{
    let ended = tell_no_words(notes);
    ExitCode::from(ended.status)
}

/// The program, on the words, the files and the streams that the system gives.
pub fn program<R: Threads + Sync, G: Gate + Sync, F: Files, S: Source, K: Sink, N: Sink>(
    workers: &Workers<'_, R, G>,
    args: io::Result<Args>,
    files: &mut F,
    channels: &mut Channels<S, K>,
    notes: &mut N,
) -> ExitCode
    ensures { ProgramRuns (words_given args)
        (files_seen F.held F.asked F.faults files.old files.new)
        (input_seen channels.old channels.new)
        (output_seen channels.old channels.new)
        (sink_seen N.taken N.pieces N.faults notes.old notes.new)
        result }
{
    match words_of(workers.alloc, args) {
        Some(words) => call_top(workers, words.as_slice(), files, channels, notes),
        None => end_without_words(notes),
    }
}

/// The program on the streams of the system: its input is the standard input, its output goes to the standard output, and its notes to the standard error.
/// Its workers' threads are made by this, and no gate is told of their work.
pub fn program_on_streams<R: Threads + Sync, F: Files>(
    threads: &R,
    alloc: Global,
    args: io::Result<Args>,
    files: &mut F,
    channels: &mut Channels<RealSource<Stdin>, RealSink<Stdout>>,
    notes: &mut RealSink<Stderr>,
) -> ExitCode
    ensures { ProgramRuns (words_given args)
        (files_seen F.held F.asked F.faults files.old files.new)
        (input_seen channels.old channels.new)
        (output_seen channels.old channels.new)
        (sink_seen ⟦<RealSink<Stderr> as Sink>⟧.taken ⟦<RealSink<Stderr> as Sink>⟧.pieces ⟦<RealSink<Stderr> as Sink>⟧.faults notes.old notes.new)
        result }
{
    let workers = Workers {
        threads,
        alloc,
        count: WORKERS,
        gate: &NoGate,
    };
    program(&workers, args, files, channels, notes)
}
