//! Writing the notes of a session, each in one write.
ghost use Rattle.std.specs.Prelude.{◌≡◌, ◌<◌, length, IfOk};
ghost use Rattle.fac_notes.specs.Notes.{line_of};
ghost use Rattle.fac_notes.specs.Statuses.{status_of};
ghost use Rattle.fac_notes.specs.declared.status.TheConstants.{SYNTAX_REFUSED, NO_MEMORY, SUCCESS};
ghost use Rattle.fac_session.specs.Heard.{file_names as names_of_session, too_long};
ghost use Rattle.fac_listen.specs.SessionNotes.{EndsTold, EndsToldIfMemory, TellsLine, fault_note, memory_note, notes_told, too_long_note};
ghost use Rattle.fac_listen.specs.SessionNotes.{bare as bare_ending, refused as refused_ending};

use crate::Heard;
use fac_base::limits::MOST_LINE_BYTES;
use fac_base::{List, Memory, Text};
use fac_io::{Failed, Sink};
use fac_notes::status::{INPUT_FAULT, NO_MEMORY, SUCCESS, SYNTAX_REFUSED, WRITE_FAULT};
use fac_notes::{Report, note, notes_are_not_empty};
use std::alloc::Global;

/// The name of the texts of a session.
pub const LISTENER: &str = "listener";

/// The names of the two files of a session, which are the prelude and each text.
pub fn file_names(alloc: Global) -> Result<List<Text>, Memory>
    ensures { IfOk result (λ names. names ≡ names_of_session) }
{
    let mut names = List::new(alloc);
    names.push(Text::from_str(alloc, "prelude")?)?;
    names.push(Text::from_str(alloc, LISTENER)?)?;
    Ok(names)
}

// An ending with no refusal.
fn bare(status: u8, ticks: u64) -> Heard
    ensures { result ≡ bare_ending status ticks }
{
    Heard {
        status,
        ticks,
        refusal: None,
    }
}

/// An ending where the input ends and no text waits, for which there is no note.
pub fn done(ticks: u64) -> Heard
    ensures { result ≡ bare_ending SUCCESS ticks }
{
    bare(SUCCESS, ticks)
}

// Tells an ending by this note.
fn tell_by<N: Sink>(note: &[u8], reached: Heard, notes: &mut N) -> Heard
    requires { 0 < length note.now }
    ensures { EndsTold note.now reached (notes_told N.taken N.pieces N.faults notes.old) (notes_told N.taken N.pieces N.faults notes.new) result }
{
    let ticks = reached.ticks;
    match notes.write(note) {
        Ok(()) => reached,
        Err(Failed) => bare(WRITE_FAULT, ticks),
    }
}

/// Tells that memory was wanted. It takes none.
pub fn tell_no_memory<N: Sink>(ticks: u64, notes: &mut N) -> Heard
    ensures { EndsTold memory_note (bare_ending NO_MEMORY ticks) (notes_told N.taken N.pieces N.faults notes.old) (notes_told N.taken N.pieces N.faults notes.new) result }
{
    tell_by(b"out of memory\n".as_slice(), bare(NO_MEMORY, ticks), notes)
}

// The note of a fault of the input or the output.
fn note_of_fault(alloc: Global, status: u8, ticks: u64) -> Result<Text, Memory>
    ensures { IfOk result (λ note. note ≡ fault_note status ticks) }
{
    let note = if status == INPUT_FAULT {
        format!(in alloc; "input fault after {ticks} ticks\n")?
    } else {
        format!(in alloc; "write fault after {ticks} ticks\n")?
    };
    Ok(Text::from_string(note))
}

/// Tells that the input or the output failed, by this status.
pub fn tell_fault<N: Sink>(alloc: Global, status: u8, ticks: u64, notes: &mut N) -> Heard
    ensures { EndsToldIfMemory (fault_note status ticks) (bare_ending status ticks) (notes_told N.taken N.pieces N.faults notes.old) (notes_told N.taken N.pieces N.faults notes.new) result }
{
    match note_of_fault(alloc, status, ticks) {
        Ok(note) => tell_by(note.as_bytes(), bare(status, ticks), notes),
        Err(_) => tell_no_memory(ticks, notes),
    }
}

/// Tells a refusal with which a session ends, by its line.
pub fn tell_refusal<N: Sink>(
    alloc: Global,
    names: &List<Text>,
    why: Report,
    ticks: u64,
    notes: &mut N,
) -> Heard
    ensures { EndsToldIfMemory (line_of names.now why) (refused_ending (status_of why) ticks why) (notes_told N.taken N.pieces N.faults notes.old) (notes_told N.taken N.pieces N.faults notes.new) result }
{
    notes_are_not_empty();
    match note(alloc, &why, names) {
        Ok(line) => tell_by(
            line.as_bytes(),
            Heard {
                status: why.status(),
                ticks,
                refusal: Some(why),
            },
            notes,
        ),
        Err(_) => tell_no_memory(ticks, notes),
    }
}

/// Tells that a line is too long.
pub fn tell_too_long<N: Sink>(alloc: Global, ticks: u64, notes: &mut N) -> Heard
    ensures { EndsToldIfMemory too_long_note (refused_ending SYNTAX_REFUSED ticks too_long) (notes_told N.taken N.pieces N.faults notes.old) (notes_told N.taken N.pieces N.faults notes.new) result }
{
    match Text::from_str(alloc, LISTENER) {
        Ok(name) => tell_by(
            b"syntax: listener line too long\n".as_slice(),
            Heard {
                status: SYNTAX_REFUSED,
                ticks,
                refusal: Some(Report::TooLong {
                    name,
                    limit: MOST_LINE_BYTES as u64,
                }),
            },
            notes,
        ),
        Err(_) => tell_no_memory(ticks, notes),
    }
}

/// Tells a line that was refused, failed or spent its budget, and the session goes on. None where the note was written; else the session ends.
pub fn tell_line<N: Sink>(
    alloc: Global,
    names: &List<Text>,
    why: &Report,
    ticks: u64,
    notes: &mut N,
) -> Option<Heard>
    ensures { TellsLine (line_of names.now why.now) ticks (notes_told N.taken N.pieces N.faults notes.old) (notes_told N.taken N.pieces N.faults notes.new) result }
{
    notes_are_not_empty();
    match note(alloc, why, names) {
        Ok(line) => match notes.write(line.as_bytes()) {
            Ok(()) => None,
            Err(Failed) => Some(bare(WRITE_FAULT, ticks)),
        },
        Err(_) => Some(tell_no_memory(ticks, notes)),
    }
}
