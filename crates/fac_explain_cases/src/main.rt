//! A program that tests explanations: it reads cases, calls `explain_top` over files and streams in memory, and tells how each call ended.
//!
//! Each line of its input goes to its output, and behind the lines of a case stands how its call ended. `stdin` has the cases and `stdout`
//! what they are to answer, which is written by hand, from the rules of explanations. `case` says what the lines mean.
//!
//! What no contract says, and what shows it here: that where there is memory a call comes to another answer; that places, lines, marks and
//! sentences are those that were meant, for each kind of refusal; and that a write of the output or of the note that fails is told.
#![tactic(auto)]

mod case;

use case::Case;
use fac_base::{Memory, Text};
use fac_par::{NoGate, Workers};
use std::io;
use std::io::ErrorKind;
use std::thread::Threads;

// The system's error for want of memory.
fn no_memory() -> io::Error {
    io::Error::from(ErrorKind::OutOfMemory)
}

// Takes a line, and tells what is to be told before it.
fn told<R: Threads + Sync>(
    workers: &Workers<'_, R, NoGate>,
    case: &mut Case,
    line: &str,
) -> Result<Text, Memory> {
    let alloc = workers.alloc;
    if line.is_empty() {
        let told = case.told(workers)?;
        *case = Case::new(alloc)?;
        return Ok(told);
    }
    let is_taken = case.add(alloc, line)?;
    Text::from_str(alloc, if is_taken { "" } else { "? " })
}

fn main(rt: HostRuntime) -> io::Result<()> {
    let alloc = rt.alloc();
    let Ok(mut case) = Case::new(alloc) else {
        return Err(no_memory());
    };
    let workers = Workers {
        threads: &rt,
        alloc,
        count: 1,
        gate: &NoGate,
    };
    for line in rt.lines(alloc) {
        let line = line?;
        let Ok(text) = told(&workers, &mut case, line.as_str()) else {
            return Err(no_memory());
        };
        rt.print(text.as_str())?;
        rt.println(line)?;
    }
    Ok(())
}
