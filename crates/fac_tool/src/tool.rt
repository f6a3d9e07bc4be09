//! The top call.
ghost use Rattle.std.specs.Prelude.{◌≡◌, ◌⊎◌, None, map, string_bytes};
ghost use Rattle.fac_io.specs.Faults.{Rose};
ghost use Rattle.fac_notes.specs.declared.status.TheConstants.{NO_COMMAND, FILE_FAULT, INPUT_FAULT, WRITE_FAULT};
ghost use Rattle.fac_command.specs.Command.{request_of};
ghost use Rattle.fac_command.specs.SeenCommands.{command_seen};
ghost use Rattle.fac_tool.specs.SeenObjects.{files_seen, input_seen, output_seen, sink_seen};
ghost use Rattle.fac_tool.specs.Answers.{Answers, HearsSession, Works};

use crate::ended::ended_of;
use crate::telling::{tell, tell_usage};
use crate::work::work;
use crate::{Command, Ended, Request, read_request};
use fac_io::{Files, Sink, Source};
use fac_lines::Channels;
use fac_listen::listen;
use fac_par::{Gate, Workers};
use std::thread::Threads;

// Does the work of a command, and tells how it ended.
fn work_and_tell<R: Threads + Sync, G: Gate + Sync, F: Files, S: Source, K: Sink, N: Sink>(
    workers: &Workers<'_, R, G>,
    command: Command<'_>,
    files: &mut F,
    channels: &mut Channels<S, K>,
    notes: &mut N,
) -> Ended
    ensures { Works (command_seen command.entry)
        (files_seen F.held F.asked F.faults files.old files.new)
        (input_seen channels.old channels.new)
        (output_seen channels.old channels.new)
        (sink_seen N.taken N.pieces N.faults notes.old notes.new)
        result }
{
    let reached = work(workers, command, files, channels);
    tell(workers.alloc, command.files(), reached, notes)
}

// Hears a session of the listener.
fn hear<R: Threads + Sync, G: Gate + Sync, S: Source, K: Sink, N: Sink>(
    workers: &Workers<'_, R, G>,
    channels: &mut Channels<S, K>,
    notes: &mut N,
) -> Ended
    ensures { HearsSession
        (input_seen channels.old channels.new)
        (output_seen channels.old channels.new)
        (sink_seen N.taken N.pieces N.faults notes.old notes.new)
        result }
{
    let heard = listen(workers, channels, notes);
    channels.nothing_is_behind_the_end();
    ended_of(heard)
}

// Does what the words of a command line ask for, and tells how it ended.
fn answer<R: Threads + Sync, G: Gate + Sync, F: Files, S: Source, K: Sink, N: Sink>(
    workers: &Workers<'_, R, G>,
    words: &[String],
    files: &mut F,
    channels: &mut Channels<S, K>,
    notes: &mut N,
) -> Ended
    ensures { Answers (map string_bytes words.now)
        (files_seen F.held F.asked F.faults files.old files.new)
        (input_seen channels.old channels.new)
        (output_seen channels.old channels.new)
        (sink_seen N.taken N.pieces N.faults notes.old notes.new)
        result }
{
    match read_request(words) {
        None => tell_usage(notes),
        Some(Request::Listen) => hear(workers, channels, notes),
        Some(Request::Work(command)) => work_and_tell(workers, command, files, channels, notes),
    }
}

/// Does what the words of a command line ask for, and tells how it ended.
///
/// For every source, input and tick budget, the tool refuses the source, naming the first place and rule that it breaks, or builds code
/// which, run alone, writes exactly the bytes and ends with the stack, named error or spent budget of the source's concatenative meaning; and
/// no accepted program underflows a stack or changes its height other than its declared effects say.
///
/// The clause `answer` says what is answered, by cases on the command and on what the prelude and its files come to: of `check`, `run` and `build`,
/// on files of at most 4,194,304 bytes together, of `run` on every input and at every budget of at most 1,000,000,000,000 ticks; of `gen`, which runs
/// the text that it draws; of `exec` and `list`, by cases on the bytes of their image; and of `listen`, by what a session on the lines of the input comes to,
/// its notes among it. What `build` saves is the image of code that carries the program, in which direct phrases are done in
/// place and no last call leaves a return entry, and what `exec` answers is the run of the image of its bytes; the law
/// `saved_code_runs_as_its_source` says of both that this is what `run` answers on the sources. That `run` goes through code isn't in it: `compile`
/// and `Machine::run` promise that. Want of memory may be answered at any point; a fault only where the object that was handed in counted one.
///
/// The texts of a program are read, its words checked, the effects of its quotations found, and their code made, by these workers. No clause names them: for
/// every number of workers and every gate the answer is the same. The gate is told of the check of each word, by the word's number, and where there is an image
/// of the making of its code likewise.
pub fn factor_top<R: Threads + Sync, G: Gate + Sync, F: Files, S: Source, K: Sink, N: Sink>(
    workers: &Workers<'_, R, G>,
    words: &[String],
    files: &mut F,
    channels: &mut Channels<S, K>,
    notes: &mut N,
) -> Ended
    // The status, the ticks, the stack, the refusal, the output in its pieces, what is left of the input, and the note, by the command, the bytes
    // of its files and the input.
    ensures answer { Answers (map string_bytes words.now)
        (files_seen F.held F.asked F.faults files.old files.new)
        (input_seen channels.old channels.new)
        (output_seen channels.old channels.new)
        (sink_seen N.taken N.pieces N.faults notes.old notes.new)
        result }

    // The causes, each by itself. They follow from `answer`.
    ensures usage { result.status ≡ NO_COMMAND → request_of (map string_bytes words.now) ≡ None }
    ensures file_fault { result.status ≡ FILE_FAULT → Rose (F.faults files.old) (F.faults files.new) }
    ensures input_fault { result.status ≡ INPUT_FAULT → Rose channels.old.input_faults channels.new.input_faults }
    ensures write_fault { result.status ≡ WRITE_FAULT → Rose channels.old.output_faults channels.new.output_faults ⊎ Rose (N.faults notes.old) (N.faults notes.new) }
{
    answer(workers, words, files, channels, notes)
}
