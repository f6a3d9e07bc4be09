//! The listener: a session that takes a line, judges its text behind the texts before, and runs its phrase on the stack that stands.
#![tactic(auto)]

mod reply;
mod running;
mod session;
mod session_laws;
mod stack_lines;
mod value_texts;

pub use reply::Reply;
pub use session::Session;
