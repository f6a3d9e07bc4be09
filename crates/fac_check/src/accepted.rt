//! Accepted programs.
ghost use Rattle.fac_check.specs.Judged.{IsAccepted};

use fac_locals::Closed;

/// An accepted program.
#[derive(Drop)]
pub struct Checked {
    /// The closed program, unchanged.
    pub closed: Closed,
    // The program for which it stands is accepted.
    ghost accepted: { IsAccepted closed },
}
