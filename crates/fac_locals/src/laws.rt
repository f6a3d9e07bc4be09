//! The law of closed programs, a function whose contract is the law.
ghost use Rattle.fac_locals.specs.OpenedPrograms.{ClosedProgramsOpen};

/// How a closed program opens to the one for which it stands: its words under the empty frame, and its templates with items in their frames.
pub fn closed_programs_open()
    ensures { ClosedProgramsOpen }
{}
