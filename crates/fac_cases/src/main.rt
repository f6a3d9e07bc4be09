//! A program that tests the top call: it reads cases, calls `factor_top` over files and streams in memory, and tells how each call ended.
//!
//! Each line of its input goes to its output, and behind the lines of a case stands how its call ended. `stdin` has the cases and `stdout`
//! what they are to answer, which is written by hand, from the rules of the language. `case` says what the lines mean.
//!
//! What no contract says, and what shows it here:
//!
//! - each call that takes memory comes to another answer where there is memory: every step from `load` to `run`, in the programs that run; the
//!   machine's `curry` and `compose`; the printed forms; the reports, in the programs that are refused or fail;
//! - definitions mean what was meant: each word, each form, each rule of names and of the checker, each run error, each limit and the first
//!   source past it, ticks, the tokens of the whole language and their faults;
//! - printed text: values, and the note of each status but 12, which comes where memory is short;
//! - faults: a file, a save, an input, an output and a note that fail at each place, and that nothing else is asked for;
//! - the input: which lines are taken, and what is left;
//! - images that are cut: each front of one;
//! - large sources take little time: 4 MiB, 200,000 items, a million digits, 100,000,000 ticks.
#![tactic(auto)]

mod case;
mod fronts;
mod telling;

use case::Case;
use fac_base::{Memory, Text};
use std::alloc::Global;
use std::io;
use std::io::ErrorKind;
use std::thread::Threads;

// The system's error for want of memory.
fn no_memory() -> io::Error {
    io::Error::from(ErrorKind::OutOfMemory)
}

// Takes a line, and tells what is to be told before it.
fn told<R: Threads + Sync>(
    threads: &R,
    alloc: Global,
    case: &mut Case,
    line: &str,
) -> Result<Text, Memory> {
    if line.is_empty() {
        let told = case.told(threads, alloc)?;
        *case = Case::new(alloc)?;
        return Ok(told);
    }
    let is_taken = case.add(alloc, line)?;
    Text::from_str(alloc, if is_taken { "" } else { "? " })
}

fn main(rt: HostRuntime) -> io::Result<()> {
    let alloc = rt.alloc();
    let Ok(mut case) = Case::new(alloc) else {
        return Err(no_memory());
    };
    for line in rt.lines(alloc) {
        let line = line?;
        let Ok(text) = told(&rt, alloc, &mut case, line.as_str()) else {
            return Err(no_memory());
        };
        rt.print(text.as_str())?;
        rt.println(line)?;
    }
    Ok(())
}
