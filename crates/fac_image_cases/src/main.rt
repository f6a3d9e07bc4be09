//! A program that tests the machine by itself, on images that no compiler made: it reads images, runs them within budgets, and tells how
//! each run ended.
//!
//! Each line of its input goes to its output, and behind a line that asks for a run stands how it ended. `stdout` was written by hand,
//! from the tables of `docs/MACHINE.md`. So it shows what no contract says, that a run with enough memory ends, and that the definition of
//! the machine means what was meant: each budget, each trap, each run error, and which tables and code are no image.
#![tactic(auto)]

mod image_case;
mod instructions;
mod told_rows;
mod told_runs;
mod told_tables;

use image_case::Case;
use std::io;
use std::io::ErrorKind;

fn main(rt: HostRuntime) -> io::Result<()> {
    let alloc = rt.alloc();
    let mut case = Case::new(alloc);
    for line in rt.lines(alloc) {
        let line = line?;
        rt.println(line.as_str())?;
        if line.is_empty() {
            case = Case::new(alloc);
        } else {
            let Ok(told) = case.take(alloc, line.as_str()) else {
                return Err(io::Error::from(ErrorKind::OutOfMemory));
            };
            rt.print(told.as_str())?;
        }
    }
    Ok(())
}
