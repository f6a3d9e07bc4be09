//! The machine's definition: what each instruction does. In `specs/` alone, so that it stands below the program that runs images and the proof
//! that an image runs as its program does.
#![tactic(auto)]

mod laws;

pub use laws::{
    runs_dont_tell_addresses, runs_have_one_end, runs_leave_values_below, runs_may_be_collected,
};
