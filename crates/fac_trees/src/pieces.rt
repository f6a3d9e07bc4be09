//! Texts as pieces of work.
ghost use Rattle.std.specs.Prelude.{◌+◌, ◌<◌, ◌^◌, length, IfOk};
ghost use Rattle.fac_trees.specs.TextTrees.{AreTreesOf, ArePieces};

use crate::text_tree::{TextTree, tree_of};
use fac_base::{Bytes, List, Memory};
use fac_par::{NoGate, Piece, Workers, map_pieces};
use std::alloc::Global;
use std::thread::Threads;

// The reading of one text.
#[derive(Drop)]
struct TextPiece<'a> {
    alloc: Global,
    file: u32,
    text: &'a Bytes,
}

impl Piece for TextPiece<'_> {
    type Out = TextTree;

    ghost use Rattle.fac_trees.specs.TextTrees.{IsTreeOf};

    ghost ready = { λ piece. Unit {0} };

    ghost meets = { λ piece tree. IsTreeOf piece.file piece.text.now tree };

    fn work(&self) -> Result<TextTree, Memory> {
        tree_of(self.alloc, self.file, self.text.as_slice())
    }
}

// A piece for each text.
fn pieces_of<'a>(
    alloc: Global,
    before: u32,
    texts: &'a [Bytes],
) -> Result<Vec<TextPiece<'a>>, Memory>
    requires { before + length texts.now < 2 ^ 32 }
    ensures { IfOk result (λ pieces. ArePieces (before + 1) texts.now pieces.items) }
{
    let mut pieces = Vec::with_capacity(alloc, texts.len())?;
    for (k, text) in texts.iter().enumerate() {
        let file = before + 1 + k as u32;
        pieces.push(TextPiece { alloc, file, text })?;
    }
    Ok(pieces)
}

/// What texts come to that are read at once by these workers, where the last file before them has this number. The gate is told nothing of them. Want of memory is
/// the one error.
pub fn trees_of<R: Threads + Sync, G>(
    workers: &Workers<'_, R, G>,
    before: u32,
    texts: &[Bytes],
) -> Result<List<TextTree>, Memory>
    requires { before + length texts.now < 2 ^ 32 }
    ensures { IfOk result (AreTreesOf (before + 1) texts.now) }
{
    let alloc = workers.alloc;
    let pieces = pieces_of(alloc, before, texts)?;
    let quiet = Workers {
        threads: workers.threads,
        alloc,
        count: workers.count,
        gate: &NoGate,
    };
    map_pieces(&quiet, pieces.as_slice())
}
