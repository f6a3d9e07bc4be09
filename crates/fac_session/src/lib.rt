//! Sessions, as definitions: what stands between two lines of the listener, what a line comes to, and what all lines of an input come to. There
//! is no code here but laws.
#![tactic(auto)]

mod laws;

pub use laws::{lines_go_on, lines_keep_what_stands, lines_stay_known, sessions_are_known};
