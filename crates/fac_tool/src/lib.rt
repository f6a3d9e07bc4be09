//! The top call of the tool: a command line to its work, its output and its note.
#![tactic(auto)]

mod accepting;
mod behind;
mod definitions;
mod drawing;
mod ended;
mod executing;
mod images;
mod laws;
mod linking;
mod loading;
mod program_run;
mod reading;
mod saving;
mod telling;
mod tool;
mod value_texts;
mod work;

pub use ended::Ended;
pub use fac_command::{Command, Request, read_request, read_words};
pub use fac_notes::{ByteFault, Report};
pub use laws::{
    every_text_is_a_source, exec_after_build_is_run, one_source, saved_code_runs_as_its_source,
};
pub use loading::load_all;
pub use telling::{tell, tell_no_words};
pub use tool::factor_top;
