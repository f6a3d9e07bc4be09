//! A session on one line after another.
ghost use Rattle.std.specs.Prelude.{◌≡◌, ◌+◌, List as Items, ℕ, None as nothing, false, min};
ghost use Rattle.fac_lines.specs.Channels.{OnChannels};
ghost use Rattle.fac_notes.specs.Notes.{line_of};
ghost use Rattle.fac_notes.specs.Sources.{Source as Comes};
ghost use Rattle.fac_session.specs.Heard.{most_ticks};
ghost use Rattle.fac_listener.specs.Replies.{AreSources};
ghost use Rattle.fac_listener.specs.StandingSessions.{has_ended};
ghost use Rattle.fac_listen.specs.Devices.{devices_of};
ghost use Rattle.fac_listen.specs.Fronts.{Front};
ghost use Rattle.fac_listen.specs.SessionNotes.{EndsTold, TellsLine, bare as bare_ending, memory_note, notes_told};
ghost use Rattle.fac_notes.specs.declared.status.TheConstants.{NO_MEMORY};
ghost use Rattle.fac_listen.specs.inner.Hearings.{IsBehind, OnReply, passed, ticks_in};
ghost use Rattle.fac_listen.specs.inner.NextLines.{EndsThere, EndsWithout, TakesLine, TakesNext};

use crate::Heard;
use crate::telling::{done, tell_fault, tell_line, tell_no_memory, tell_refusal, tell_too_long};
use fac_base::{Bytes, List, Text};
use fac_io::{Sink, Source};
use fac_judge::one_source;
use fac_lines::{Channels, LineFault};
use fac_listener::{Reply, Session};
use fac_notes::Report;
use fac_notes::status::{INPUT_FAULT, WRITE_FAULT};
use fac_par::{Gate, Workers};
use std::alloc::Global;
use std::thread::Threads;

/// A session behind some lines, with what is told of it.
#[derive(Drop)]
pub struct Hearing {
    session: Session,
    // The names of the files.
    names: List<Text>,
    // Why the text that waits is no tree, where one does.
    waits: Option<Report>,
    // The sum of the ticks of the lines.
    ticks: u64,
}

// The ticks of a line of which this was answered.
fn ticks_of(reply: &Reply) -> u64
    ensures { result ≡ ticks_in reply.now }
{
    match reply {
        Reply::More(_) => 0,
        Reply::Defined => 0,
        Reply::Ran { ticks } => *ticks,
        Reply::Refused(_) => 0,
        Reply::Failed { ticks, .. } => *ticks,
        Reply::Spent { ticks } => *ticks,
        Reply::InputFault { ticks } => *ticks,
        Reply::WriteFault { ticks } => *ticks,
        Reply::Memory { ticks } => *ticks,
    }
}

impl Hearing {
    /// A session before its first line.
    pub fn new(session: Session, names: List<Text>) -> Self
        ensures { result ≡ record { session = session; names = names; waits = nothing; ticks = 0 } }
    {
        Hearing {
            session,
            names,
            waits: None,
            ticks: 0,
        }
    }

    // Tells how a line was refused, failed or spent its budget.
    fn tell<N: Sink>(&self, alloc: Global, why: &Report, notes: &mut N) -> Option<Heard>
        ensures { TellsLine (line_of self.now.names why.now) self.now.ticks (notes_told N.taken N.pieces N.faults notes.old) (notes_told N.taken N.pieces N.faults notes.new) result }
    {
        tell_line(alloc, &self.names, why, self.ticks, notes)
    }

    // What waits is this, or nothing.
    fn wait(&mut self, waits: Option<Report>)
        ensures { self.new ≡ record self.old { waits = waits } }
    {
        self.waits = waits;
    }

    // Adds the ticks of a line.
    fn add(&mut self, ticks: u64)
        ensures { self.new ≡ record self.old { ticks = min (self.old.ticks + ticks) most_ticks } }
    {
        self.ticks = self.ticks.saturating_add(ticks);
    }

    // Is behind a line of which this was answered. Nothing waits, as far as that tells.
    fn pass(&mut self, reply: &Reply)
        ensures { self.new ≡ passed self.old reply.now }
    {
        self.wait(None);
        self.add(ticks_of(reply));
    }

    // Goes by what was answered of a line.
    fn on_reply<N: Sink>(&mut self, alloc: Global, reply: Reply, notes: &mut N) -> Option<Heard>
        ensures { OnReply self.old self.new reply (notes_told N.taken N.pieces N.faults notes.old) (notes_told N.taken N.pieces N.faults notes.new) result }
    {
        self.pass(&reply);
        match reply {
            Reply::More(why) => {
                self.wait(Some(why));
                None
            }
            Reply::Defined => None,
            Reply::Ran { .. } => None,
            Reply::Refused(why) => self.tell(alloc, &why, notes),
            Reply::Failed { error, .. } => self.tell(alloc, &error, notes),
            Reply::Spent { ticks } => self.tell(alloc, &Report::Spent { ticks }, notes),
            Reply::InputFault { .. } => Some(tell_fault(alloc, INPUT_FAULT, self.ticks, notes)),
            Reply::WriteFault { .. } => Some(tell_fault(alloc, WRITE_FAULT, self.ticks, notes)),
            Reply::Memory { .. } => Some(tell_no_memory(self.ticks, notes)),
        }
    }

    // Takes a line.
    fn take<R: Threads + Sync, G: Gate + Sync, S: Source, K: Sink, N: Sink>(
        &mut self,
        workers: &Workers<'_, R, G>,
        line: Bytes,
        channels: &mut Channels<S, K>,
        notes: &mut N,
    ) -> Option<Heard>
        requires behind { (source : Items ℕ → Comes) × (f : Front) × AreSources source × IsBehind source f self.old }
        requires is_open { has_ended self.old.session ≡ false }
        ensures { OnChannels channels.old channels.new (λ before now input left. (source : Items ℕ → Comes) (f : Front) → AreSources source → IsBehind source f self.old → TakesLine source f line input left (devices_of channels.old) (devices_of channels.new) (notes_told N.taken N.pieces N.faults notes.old) (notes_told N.taken N.pieces N.faults notes.new) self.new result) }
    {
        one_source();
        let reply = self.session.line(workers, line.as_slice(), channels);
        self.on_reply(workers.alloc, reply, notes)
    }

    // Ends where no line is left.
    fn end<N: Sink>(&mut self, alloc: Global, notes: &mut N) -> Heard
        ensures { EndsThere self.old (notes_told N.taken N.pieces N.faults notes.old) (notes_told N.taken N.pieces N.faults notes.new) result }
    {
        match self.waits.take() {
            None => done(self.ticks),
            Some(why) => tell_refusal(alloc, &self.names, why, self.ticks, notes),
        }
    }

    // Ends where there is no line for this reason.
    fn end_by<N: Sink>(&self, alloc: Global, fault: LineFault, notes: &mut N) -> Heard
        ensures { EndsWithout fault self.now.ticks (notes_told N.taken N.pieces N.faults notes.old) (notes_told N.taken N.pieces N.faults notes.new) result }
    {
        match fault {
            LineFault::TooLong => tell_too_long(alloc, self.ticks, notes),
            LineFault::Failed => tell_fault(alloc, INPUT_FAULT, self.ticks, notes),
            LineFault::Memory => tell_no_memory(self.ticks, notes),
        }
    }

    /// Takes the next line of the input. None where the session goes on.
    pub fn next<R: Threads + Sync, G: Gate + Sync, S: Source, K: Sink, N: Sink>(
        &mut self,
        workers: &Workers<'_, R, G>,
        channels: &mut Channels<S, K>,
        notes: &mut N,
    ) -> Option<Heard>
        requires behind { (source : Items ℕ → Comes) × (f : Front) × AreSources source × IsBehind source f self.old }
        requires is_open { has_ended self.old.session ≡ false }
        ensures { OnChannels channels.old channels.new (λ before now input left. (source : Items ℕ → Comes) (f : Front) → AreSources source → IsBehind source f self.old → f.left ≡ input → TakesNext source f self.old.waits left (devices_of channels.old) (devices_of channels.new) (notes_told N.taken N.pieces N.faults notes.old) (notes_told N.taken N.pieces N.faults notes.new) self.new result) }
    {
        match channels.line() {
            Ok(Some(line)) => self.take(workers, line, channels, notes),
            Ok(None) => Some(self.end(workers.alloc, notes)),
            Err(fault) => Some(self.end_by(workers.alloc, fault, notes)),
        }
    }

    /// Ends where memory was wanted.
    pub fn end_for_memory<N: Sink>(&self, notes: &mut N) -> Heard
        ensures { EndsTold memory_note (bare_ending NO_MEMORY self.now.ticks) (notes_told N.taken N.pieces N.faults notes.old) (notes_told N.taken N.pieces N.faults notes.new) result }
    {
        tell_no_memory(self.ticks, notes)
    }
}
