//! The work of a command, as a list of steps: each gives a result for the next one, or an ending of the work.
ghost use Rattle.std.specs.Prelude.{◌≤◌, map, string_bytes};
ghost use Rattle.fac_gen.specs.Generated.{generated};
ghost use Rattle.fac_command.specs.SeenCommands.{command_seen};
ghost use Rattle.fac_lang.specs.declared.program.Program.{Program as Source};
ghost use Rattle.fac_lines.specs.Channels.{ChannelsTold};
ghost use Rattle.fac_tool.specs.Answers.{Reaches, ReachesBy};
ghost use Rattle.fac_tool.specs.Executed.{executed, listed};
ghost use Rattle.fac_tool.specs.Plans.{DoesOnSources, on_image, on_sources, on_text, plan_of, saving, summing_up};
ghost use Rattle.fac_tool.specs.Saved.{FilesTold};
ghost use Rattle.fac_tool.specs.SeenObjects.{files_seen, input_seen, output_seen};
ghost use Rattle.fac_tool.specs.inner.Stops.{StandsForSafe};
ghost use Rattle.fac_tool.specs.inner.StepEnds.{StepsEnd, ended_by, StatusCounts, still_files};
ghost use Rattle.fac_tool.specs.inner.Tasks.{task_seen};

use crate::accepting::{Accepted, accepted_program};
use crate::behind::Behind;
use crate::definitions::tell_checked;
use crate::drawing::{Drawn, draw};
use crate::ended::bare;
use crate::executing::execute;
use crate::images::list_image;
use crate::loading::{load_all, load_one};
use crate::program_run::{run_and_write, run_program};
use crate::saving::save_image;
use crate::{Command, Ended};
use fac_base::limits::MOST_IMAGE_BYTES;
use fac_base::{Bytes, List};
use fac_check::accepted_programs_are_safe;
use fac_io::{Files, Sink, Source as Reader};
use fac_lines::Channels;
use fac_names::resolved_programs_are_whole;
use fac_notes::status::NO_MEMORY;
use fac_par::{Gate, Workers};
use std::alloc::Global;
use std::thread::Threads;

// What is done with an accepted program whose image isn't saved.
#[derive(Clone, Copy)]
enum Task {
    // Its definitions are told.
    Check,
    // It is run with a budget of so many ticks.
    Run(u64),
    // The same, and then something is written behind the run.
    RunThen(Behind, u64),
}

// Does this with an accepted program.
fn carry_out<R: Threads + Sync, G: Gate + Sync, S: Reader, K: Sink>(
    workers: &Workers<'_, R, G>,
    task: Task,
    accepted: Accepted,
    channels: &mut Channels<S, K>,
) -> Result<Ended, Ended>
    requires { (P : Source) × StandsForSafe accepted.checked.closed P }
    ensures ends { StepsEnd accepted.checked.closed ((task_seen task).answer accepted.definitions) (task_seen task).work channels.old channels.new result }
    ensures counts { StatusCounts channels.old channels.new (ended_by result).status }
{
    match task {
        Task::Check => Ok(tell_checked(workers.alloc, accepted.definitions, channels)),
        Task::Run(budget) => run_program(workers, accepted.checked, budget, channels),
        Task::RunThen(behind, budget) => {
            run_and_write(workers, accepted.checked, behind, budget, channels)
        }
    }
}

// Does this with the program of the prelude and of texts.
fn do_on_texts<R: Threads + Sync, G: Gate + Sync, S: Reader, K: Sink>(
    workers: &Workers<'_, R, G>,
    task: Task,
    texts: List<Bytes>,
    channels: &mut Channels<S, K>,
) -> Result<Ended, Ended>
    ensures does { (files : FilesTold) → DoesOnSources (task_seen task) texts (still_files files) (input_seen channels.old channels.new) (output_seen channels.old channels.new) (ended_by result) }
    ensures counts { StatusCounts channels.old channels.new (ended_by result).status }
{
    accepted_programs_are_safe();
    resolved_programs_are_whole();
    let accepted = accepted_program(workers, texts)?;
    carry_out(workers, task, accepted, channels)
}

// The steps of a command on the sources of these names.
fn steps<R: Threads + Sync, G: Gate + Sync, F: Files, S: Reader, K: Sink>(
    workers: &Workers<'_, R, G>,
    task: Task,
    names: &[String],
    files: &mut F,
    channels: &mut Channels<S, K>,
) -> Result<Ended, Ended>
    ensures files_count { F.faults files.old ≤ F.faults files.new }
    ensures counts { StatusCounts channels.old channels.new (ended_by result).status }
    ensures ending { ReachesBy (on_sources (map string_bytes names.now) (task_seen task)) (files_seen F.held F.asked F.faults files.old files.new) (input_seen channels.old channels.new) (output_seen channels.old channels.new) (ended_by result) }
{
    let texts = load_all(workers.alloc, names, files)?;
    do_on_texts(workers, task, texts, channels)
}

// The steps of `gen` on the text of so many words that are drawn from this seed. No file is asked for.
fn generate_steps<R: Threads + Sync, G: Gate + Sync, S: Reader, K: Sink>(
    workers: &Workers<'_, R, G>,
    seed: u32,
    words: u32,
    budget: u64,
    channels: &mut Channels<S, K>,
) -> Result<Ended, Ended>
    ensures counts { StatusCounts channels.old channels.new (ended_by result).status }
    ensures ending { (files : FilesTold) →
        ReachesBy (on_text (generated seed words) (summing_up words (generated seed words) budget)) (still_files files) (input_seen channels.old channels.new) (output_seen channels.old channels.new) (ended_by result) }
{
    match draw(workers.alloc, seed, words) {
        Err(_) => Err(bare(NO_MEMORY, 0)),
        Ok(Drawn { texts, bytes }) => do_on_texts(
            workers,
            Task::RunThen(Behind::Summary { words, bytes }, budget),
            texts,
            channels,
        ),
    }
}

// The steps of `build` on the sources of these names, whose image has this one.
fn build_steps<R: Threads + Sync, G: Gate + Sync, F: Files>(
    workers: &Workers<'_, R, G>,
    names: &[String],
    image: &str,
    files: &mut F,
) -> Result<Ended, Ended>
    ensures files_count { F.faults files.old ≤ F.faults files.new }
    ensures ending { (still : ChannelsTold) →
        ReachesBy (on_sources (map string_bytes names.now) (saving image.now)) (files_seen F.held F.asked F.faults files.old files.new) (input_seen still still) (output_seen still still) (ended_by result) }
{
    accepted_programs_are_safe();
    resolved_programs_are_whole();
    let texts = load_all(workers.alloc, names, files)?;
    let accepted = accepted_program(workers, texts)?;
    Ok(save_image(workers, accepted.checked, image, files))
}

// The steps of `exec` on the image of this name.
fn execute_steps<F: Files, S: Reader, K: Sink>(
    alloc: Global,
    name: &str,
    budget: u64,
    files: &mut F,
    channels: &mut Channels<S, K>,
) -> Result<Ended, Ended>
    ensures files_count { F.faults files.old ≤ F.faults files.new }
    ensures counts { StatusCounts channels.old channels.new (ended_by result).status }
    ensures ending { ReachesBy (on_image name.now (executed budget)) (files_seen F.held F.asked F.faults files.old files.new) (input_seen channels.old channels.new) (output_seen channels.old channels.new) (ended_by result) }
{
    let bytes = load_one(alloc, name, MOST_IMAGE_BYTES, files)?;
    Ok(execute(alloc, bytes, budget, channels))
}

// The steps of `list` on the image of this name.
fn list_steps<F: Files, S: Reader, K: Sink>(
    alloc: Global,
    name: &str,
    files: &mut F,
    channels: &mut Channels<S, K>,
) -> Result<Ended, Ended>
    ensures files_count { F.faults files.old ≤ F.faults files.new }
    ensures counts { StatusCounts channels.old channels.new (ended_by result).status }
    ensures ending { ReachesBy (on_image name.now listed) (files_seen F.held F.asked F.faults files.old files.new) (input_seen channels.old channels.new) (output_seen channels.old channels.new) (ended_by result) }
{
    let bytes = load_one(alloc, name, MOST_IMAGE_BYTES, files)?;
    Ok(list_image(alloc, bytes.as_slice(), channels))
}

// Does what a command asks for.
fn command_steps<R: Threads + Sync, G: Gate + Sync, F: Files, S: Reader, K: Sink>(
    workers: &Workers<'_, R, G>,
    command: Command<'_>,
    files: &mut F,
    channels: &mut Channels<S, K>,
) -> Result<Ended, Ended>
    ensures files_count { F.faults files.old ≤ F.faults files.new }
    ensures counts { StatusCounts channels.old channels.new (ended_by result).status }
    ensures ending { ReachesBy (plan_of (command_seen command.entry)) (files_seen F.held F.asked F.faults files.old files.new) (input_seen channels.old channels.new) (output_seen channels.old channels.new) (ended_by result) }
{
    match command {
        Command::Check { files: names } => steps(workers, Task::Check, names, files, channels),
        Command::Run {
            steps: budget,
            files: names,
        } => steps(workers, Task::Run(budget), names, files, channels),
        Command::RunStack {
            steps: budget,
            files: names,
        } => steps(
            workers,
            Task::RunThen(Behind::Stack, budget),
            names,
            files,
            channels,
        ),
        Command::Build {
            files: names,
            image,
        } => build_steps(workers, names, image, files),
        Command::Exec {
            steps: budget,
            image,
        } => execute_steps(workers.alloc, image, budget, files, channels),
        Command::List { image } => list_steps(workers.alloc, image, files, channels),
        Command::Generate {
            steps: budget,
            seed,
            words,
            ..
        } => generate_steps(workers, seed, words, budget, channels),
    }
}

/// Does the work of a command.
pub fn work<R: Threads + Sync, G: Gate + Sync, F: Files, S: Reader, K: Sink>(
    workers: &Workers<'_, R, G>,
    command: Command<'_>,
    files: &mut F,
    channels: &mut Channels<S, K>,
) -> Ended
    ensures { Reaches (command_seen command.entry) (files_seen F.held F.asked F.faults files.old files.new) (input_seen channels.old channels.new) (output_seen channels.old channels.new) result }
{
    match command_steps(workers, command, files, channels) {
        Ok(ended) => ended,
        Err(ended) => ended,
    }
}
