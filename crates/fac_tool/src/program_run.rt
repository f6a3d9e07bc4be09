//! The run of an accepted program: its image is run.
ghost use Rattle.std.specs.Prelude.{IfOk};
ghost use Rattle.fac_lang.specs.declared.program.Program.{Program as Source};
ghost use Rattle.fac_tool.specs.Answer.{run_answer, written_answer};
ghost use Rattle.fac_tool.specs.Ends.{runs, runs_and_writes};
ghost use Rattle.fac_tool.specs.SeenObjects.{input_seen, output_seen, OnInput};
ghost use Rattle.fac_tool.specs.inner.Stops.{Carried, IsFresh, StandsForSafe};
ghost use Rattle.fac_tool.specs.inner.StepEnds.{StepsEnd, EndsRun, StatusCounts, ended_by};
ghost use Rattle.fac_tool.specs.inner.WrittenBehind.{behind_seen};

use crate::Ended;
use crate::behind::{Behind, write_behind};
use crate::ended::bare;
use crate::executing::run_image;
use crate::linking::link_to_run;
use fac_base::Memory;
use fac_carry::printed_forms_are_equal;
use fac_check::Checked;
use fac_io::{Sink, Source as Reader};
use fac_lines::Channels;
use fac_machine::runs_have_one_end;
use fac_notes::status::NO_MEMORY;
use fac_par::{Gate, Workers};
use fac_vm::Machine;
use std::alloc::Global;
use std::thread::Threads;

// Runs a fresh machine and answers, as `run_image` does. What is said goes for each program that its image carries, on one input.
fn run_carried<S: Reader, K: Sink>(
    alloc: Global,
    machine: &mut Machine,
    budget: u64,
    channels: &mut Channels<S, K>,
) -> Ended
    requires { IsFresh machine.old }
    ensures ends { OnInput (input_seen channels.old channels.new) (λ bytes left. (P : Source) → Carried P machine.old.image →
        EndsRun P budget (output_seen channels.old channels.new) (input_seen channels.old channels.new) result bytes left) }
    ensures counts { StatusCounts channels.old channels.new result.status }
{
    runs_have_one_end();
    printed_forms_are_equal();
    run_image(alloc, machine, budget, channels)
}

// A fresh machine for an accepted program, which is given back before.
#[tactic(auto, using(crate::proofs::StopLemmas::made_fresh))]
fn machine_of<R: Threads + Sync, G: Gate + Sync>(
    workers: &Workers<'_, R, G>,
    checked: Checked,
) -> Result<Machine, Memory>
    requires { (P : Source) × StandsForSafe checked.closed P }
    ensures { IfOk result (λ machine. IsFresh machine × ((P : Source) → StandsForSafe checked.closed P → Carried P machine.image)) }
{
    match link_to_run(workers, checked) {
        Ok(image) => Machine::new(workers.alloc, image),
        Err(_) => Err(Memory),
    }
}

/// Compiles an accepted program and runs it over channels with this budget of ticks. Of the program its image alone is there while it runs.
pub fn run_program<R: Threads + Sync, G: Gate + Sync, S: Reader, K: Sink>(
    workers: &Workers<'_, R, G>,
    checked: Checked,
    budget: u64,
    channels: &mut Channels<S, K>,
) -> Result<Ended, Ended>
    requires { (P : Source) × StandsForSafe checked.closed P }
    ensures ends { StepsEnd checked.closed (λ P input. run_answer P input budget) (λ P input. runs P input budget) channels.old channels.new result }
    ensures counts { StatusCounts channels.old channels.new (ended_by result).status }
{
    match machine_of(workers, checked) {
        Ok(mut machine) => Ok(run_carried(workers.alloc, &mut machine, budget, channels)),
        Err(_) => Err(bare(NO_MEMORY, 0)),
    }
}

// The two commands that run have one clause, each with its answer.

/// Likewise, and then writes this where the run is done.
pub fn run_and_write<R: Threads + Sync, G: Gate + Sync, S: Reader, K: Sink>(
    workers: &Workers<'_, R, G>,
    checked: Checked,
    behind: Behind,
    budget: u64,
    channels: &mut Channels<S, K>,
) -> Result<Ended, Ended>
    requires { (P : Source) × StandsForSafe checked.closed P }
    ensures ends { StepsEnd checked.closed (λ P input. written_answer (behind_seen behind) P input budget) (λ P input. runs_and_writes (behind_seen behind) P input budget) channels.old channels.new result }
    ensures counts { StatusCounts channels.old channels.new (ended_by result).status }
{
    match machine_of(workers, checked) {
        Ok(mut machine) => {
            let ended = run_carried(workers.alloc, &mut machine, budget, channels);
            Ok(write_behind(workers.alloc, behind, ended, channels))
        }
        Err(_) => Err(bare(NO_MEMORY, 0)),
    }
}
