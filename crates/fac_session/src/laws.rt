//! Laws of sessions, each on the contract of a function that does nothing.
ghost use Rattle.fac_session.specs.Laws.{LinesGoOn, LinesKeepWhatStands, LinesStayKnown, SessionsAreKnown};

/// A text that waits for its end or is refused changes nothing else, and a phrase that fails or spends its budget leaves the stack as it was.
pub fn lines_keep_what_stands()
    ensures { LinesKeepWhatStands }
{}

/// What is known before the first line belongs together, where the prelude has a well-formed tree.
pub fn sessions_are_known()
    ensures { SessionsAreKnown }
{}

/// Where what is known before a line belongs together, so does what is known behind it, whatever the line is.
pub fn lines_stay_known()
    ensures { LinesStayKnown }
{}

/// Behind a line what is known is that of before, or its program goes on with the one of before.
pub fn lines_go_on()
    ensures { LinesGoOn }
{}
