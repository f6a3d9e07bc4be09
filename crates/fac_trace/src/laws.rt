//! Laws of the walk with origins, each on the contract of a function that does nothing.
ghost use Rattle.fac_trace.specs.TraceLaws.{OriginsStandBesideMarks, TracesAreVerdicts, WalksWithoutOrigins};

/// Without its origins the walk is that of the checker.
pub fn walks_without_origins()
    ensures { WalksWithoutOrigins }
{}

/// What is told of a word, and of a program, has the rule and the place of the checker's verdict.
pub fn traces_are_verdicts()
    ensures { TracesAreVerdicts }
{}

/// From a stack with an origin for each mark the walk finds one with an origin for each mark. Where it is refused for too few values, it tells each value
/// that there is.
pub fn origins_stand_beside_marks()
    ensures { OriginsStandBesideMarks }
{}
