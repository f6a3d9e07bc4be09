//! What the words of a command line ask for.
#![tactic(auto)]

mod command;

pub use command::{Command, Request, USAGE, read_request, read_words};
