//! A session from its first line to its end.
ghost use Rattle.std.specs.Prelude.{◌≡◌, [], List as Items, ℕ, false};
ghost use Rattle.fac_lines.specs.Channels.{OnChannels};
ghost use Rattle.fac_notes.specs.Sources.{Source as Comes};
ghost use Rattle.fac_session.specs.Heard.{file_names as names_of_session};
ghost use Rattle.fac_session.specs.Sessions.{Session as Standing};
ghost use Rattle.fac_listener.specs.Replies.{AreSources};
ghost use Rattle.fac_listener.specs.StandingSessions.{has_ended};
ghost use Rattle.fac_listen.specs.Devices.{devices_of};
ghost use Rattle.fac_listen.specs.Fronts.{front_of};
ghost use Rattle.fac_listen.specs.Listens.{Listens};
ghost use Rattle.fac_listen.specs.SessionNotes.{notes_told};
ghost use Rattle.fac_listen.specs.inner.Hearings.{IsBehind};
ghost use Rattle.fac_listen.specs.inner.Endings.{EndsFrom, EndsUnbegun};

use crate::Heard;
use crate::hearing::Hearing;
use crate::telling::{file_names, tell_no_memory, tell_refusal};
use fac_base::{List, Text};
use fac_io::{Sink, Source};
use fac_judge::{SessionFault, every_text_is_a_source};
use fac_lines::Channels;
use fac_listener::Session;
use fac_par::{Gate, Workers};
use std::alloc::Global;
use std::thread::Threads;

// Hears a session to its end. A source gives fewer lines than are counted here, so that the count ends is never told.
fn hear<R: Threads + Sync, G: Gate + Sync, S: Source, K: Sink, N: Sink>(
    workers: &Workers<'_, R, G>,
    hearing: &mut Hearing,
    channels: &mut Channels<S, K>,
    notes: &mut N,
) -> Heard
    requires behind { (source : Items ℕ → Comes) × (s : Standing) × AreSources source × IsBehind source (front_of s []) hearing.old }
    requires is_open { has_ended hearing.old.session ≡ false }
    ensures { OnChannels channels.old channels.new (λ before now input left. (source : Items ℕ → Comes) (s : Standing) → AreSources source → IsBehind source (front_of s input) hearing.old → EndsFrom source s input left (devices_of channels.old) (devices_of channels.new) (notes_told N.taken N.pieces N.faults notes.old) (notes_told N.taken N.pieces N.faults notes.new) result) }
{
    for _ in 0..u64::MAX {
        if let Some(heard) = hearing.next(workers, channels, notes) {
            return heard;
        }
    }
    hearing.end_for_memory(notes)
}

// Ends where there is no session for this reason.
fn end_unbegun<N: Sink>(
    alloc: Global,
    names: &List<Text>,
    fault: SessionFault,
    notes: &mut N,
) -> Heard
    ensures { EndsUnbegun fault names.now (notes_told N.taken N.pieces N.faults notes.old) (notes_told N.taken N.pieces N.faults notes.new) result }
{
    match fault {
        SessionFault::Prelude(why) => tell_refusal(alloc, names, why, 0, notes),
        SessionFault::Memory => tell_no_memory(0, notes),
    }
}

// Begins a session whose files have these names, and hears it.
fn begin<R: Threads + Sync, G: Gate + Sync, S: Source, K: Sink, N: Sink>(
    workers: &Workers<'_, R, G>,
    names: List<Text>,
    channels: &mut Channels<S, K>,
    notes: &mut N,
) -> Heard
    requires { names ≡ names_of_session }
    ensures { Listens channels.old channels.new (notes_told N.taken N.pieces N.faults notes.old) (notes_told N.taken N.pieces N.faults notes.new) result }
{
    every_text_is_a_source();
    match Session::new(workers) {
        Ok(session) => {
            let mut hearing = Hearing::new(session, names);
            hear(workers, &mut hearing, channels, notes)
        }
        Err(fault) => end_unbegun(workers.alloc, &names, fault, notes),
    }
}

/// Hears a session on the lines of the input, whose output and notes go out at once.
pub fn listen<R: Threads + Sync, G: Gate + Sync, S: Source, K: Sink, N: Sink>(
    workers: &Workers<'_, R, G>,
    channels: &mut Channels<S, K>,
    notes: &mut N,
) -> Heard
    ensures { Listens channels.old channels.new (notes_told N.taken N.pieces N.faults notes.old) (notes_told N.taken N.pieces N.faults notes.new) result }
{
    every_text_is_a_source();
    match file_names(workers.alloc) {
        Ok(names) => begin(workers, names, channels, notes),
        Err(_) => tell_no_memory(0, notes),
    }
}
