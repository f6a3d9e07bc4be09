//! What is known between two texts of a session.
use fac_lang::Program;
use fac_vocab::Scope;

/// A program with the scope in which the next text of a session goes on.
#[derive(Drop)]
pub struct Known {
    pub scope: Scope,
    pub program: Program,
}
