//! The results of all pieces of a list.
ghost use Rattle.std.specs.Prelude.{All, ◌≡◌, ◌≤◌, ◌*◌, ◌++◌, length, vec_len, IfOk, OnOk};
ghost use Rattle.fac_par.specs.Pieces.{MeetEach, ChunksMeet};

use crate::piece::{Gate, Piece};
use crate::workers::Workers;
use fac_base::{List, Memory};
use std::alloc::Global;
use std::thread;
use std::thread::Threads;

// The result of one piece, between the two calls of the gate, whatever it is.
fn work_one<P: Piece, G: Gate>(piece: &P, number: u64, gate: &G) -> Result<P::Out, Memory>
    requires { P.ready piece.now }
    ensures { IfOk result (λ out. P.meets piece.now out) }
{
    gate.begun(number);
    let out = piece.work();
    gate.ended(number);
    out
}

// The results of some pieces, the first of which has this number.
fn work_chunk<P: Piece, G: Gate>(
    alloc: Global,
    first: usize,
    pieces: &[P],
    gate: &G,
) -> Result<Vec<P::Out>, Memory>
    requires { All P.ready pieces.now }
    ensures { IfOk result (λ outs. MeetEach P.meets pieces.now outs.items) }
{
    let mut outs = Vec::with_capacity(alloc, pieces.len())?;
    for (k, piece) in pieces.iter().enumerate() {
        let number = (first as u64).saturating_add(k as u64);
        let out = work_one(piece, number, gate)?;
        outs.push(out)?;
    }
    Ok(outs)
}

// Puts the results of the chunks one after another.
fn join_chunks<P: Piece>(
    alloc: Global,
    pieces: &[P],
    size: usize,
    mut chunks: Vec<Result<Vec<P::Out>, Memory>>,
) -> Result<List<P::Out>, Memory>
    requires each { ChunksMeet P.meets size pieces.now chunks.items }
    requires all { length pieces.now ≤ vec_len chunks * size }
    ensures { IfOk result (λ outs. MeetEach P.meets pieces.now outs) }
{
    let mut joined = Vec::new(alloc);
    let mut done = 0usize;
    while !chunks.is_empty() {
        let outs = chunks.remove(0)?;
        append(&mut joined, outs)?;
        done += 1;
    }
    List::from_vec(joined)
}

// Moves values to the end of others.
fn append<T: Drop>(to: &mut Vec<T>, mut from: Vec<T>) -> Result<(), Memory>
    ensures { OnOk result (to.new.items ≡ to.old.items ++ from.items) }
{
    to.append(&mut from)?;
    Ok(())
}

/// The results of the pieces, in the order of the list, by so many workers: at least one, and at most 64. Each worker takes pieces that stand
/// beside one another, as many as each other one but the last. Where memory is wanted in a piece, no later piece of its worker is begun.
pub fn map_pieces<R: Threads + Sync, P: Piece + Sync, G: Gate + Sync>(
    workers: &Workers<'_, R, G>,
    list: &[P],
) -> Result<List<P::Out>, Memory>
    requires { All P.ready list.now }
    ensures { IfOk result (λ outs. MeetEach P.meets list.now outs) }
{
    let alloc = workers.alloc;
    if list.is_empty() {
        return Ok(List::new(alloc));
    }
    let count = workers.count.clamp(1, 64) as usize;
    let size = list.len().div_ceil(count);
    let gate = workers.gate;
    let chunks = thread::map_chunks(
        workers.threads,
        alloc,
        list,
        size,
        &|first: usize, part: &[P]| -> Result<Vec<P::Out>, Memory>
            requires { All P.ready part.now }
            ensures { IfOk result (λ outs. MeetEach P.meets part.now outs.items) }
        { work_chunk(alloc, first, part, gate) },
    )?;
    join_chunks(alloc, list, size, chunks)
}
