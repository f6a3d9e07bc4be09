//! Laws of names, each on the contract of a function that does nothing.
ghost use Rattle.fac_names.specs.Resolution.{ResolvedAreWhole};

/// A program that names resolve to is whole.
pub fn resolved_programs_are_whole()
    ensures { ResolvedAreWhole }
{}
