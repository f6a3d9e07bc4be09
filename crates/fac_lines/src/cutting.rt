//! A line out of the bytes that are kept.
ghost use Rattle.std.specs.Prelude.{◌≡◌, ◌≤◌, ◌++◌, length};
ghost use Rattle.std.specs.List.{position};
ghost use Rattle.fac_lines.specs.LineReads.{is_newline, line_length, IsFront};
ghost use Rattle.fac_lines.specs.inner.Cutting.{Cuts, CutsRest};

use crate::LineFault;
use crate::piece::Piece;
use fac_base::Bytes;
use fac_base::limits::MOST_LINE_BYTES;
use std::alloc::Global;
use std::mem;

// The place of the first newline.
fn first_newline(bytes: &[u8]) -> Option<usize>
    ensures { result ≡ position is_newline bytes.now }
{
    bytes.iter().position(|byte| *byte == b'\n')
}

// How many bytes stand before the first newline, or before the end.
#[tactic(auto, using(crate::proofs::LineLemmas::newline_there, crate::proofs::LineLemmas::newline_nowhere))]
fn length_of_line(bytes: &[u8]) -> usize
    ensures most { result ≤ length bytes.now }
    ensures length { result ≡ line_length bytes.now }
{
    match first_newline(bytes) {
        Some(place) => place,
        None => bytes.len(),
    }
}

// The line that the front begins and the piece ends, where it does.
pub fn cut_line(
    alloc: Global,
    front: &mut Bytes,
    piece: &mut Piece,
) -> Result<Option<Bytes>, LineFault>
    requires { IsFront front.old }
    ensures front { IsFront front.new }
    ensures cuts { Cuts front.old piece.old result front.new piece.new }
{
    let count = length_of_line(piece.as_slice());
    let room = MOST_LINE_BYTES - front.len();
    if count > room {
        piece.skip(room + 1);
        *front = Bytes::new(alloc);
        return Err(LineFault::TooLong);
    }
    front.extend(&piece.as_slice()[..count])?;
    if count == piece.as_slice().len() {
        piece.skip(count);
        return Ok(None);
    }
    piece.skip(count + 1);
    Ok(Some(mem::replace(front, Bytes::new(alloc))))
}

// The line that no newline ends, where any byte is left.
pub fn cut_rest(alloc: Global, front: &mut Bytes) -> Option<Bytes>
    requires { IsFront front.old }
    ensures front { IsFront front.new }
    ensures cuts { CutsRest front.old result front.new }
{
    if front.len() == 0 {
        return None;
    }
    Some(mem::replace(front, Bytes::new(alloc)))
}
