//! A law of notes, on the contract of a function that does nothing.
ghost use Rattle.fac_notes.specs.Notes.{NotesAreNotEmpty};

/// The line of a report is never empty.
pub fn notes_are_not_empty()
    ensures { NotesAreNotEmpty }
{}
