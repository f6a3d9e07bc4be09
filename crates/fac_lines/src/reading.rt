//! A line that has to be read.
ghost use Rattle.std.specs.Prelude.{◌≡◌, ◌≤◌, ◌++◌, ◌+◌, [], length, false, ◌⊎◌};
ghost use Rattle.fac_lines.specs.LineReads.{IsFront};
ghost use Rattle.fac_lines.specs.LineAnswers.{AtEnd, StaysAtEnd, LineCounts, LineFalls};
ghost use Rattle.fac_lines.specs.inner.Reading.{ReadsLine};

use crate::LineFault;
use crate::cutting::{cut_line, cut_rest};
use crate::piece::Piece;
use fac_base::Bytes;
use fac_io::Source;
use std::alloc::Global;

// Reads until there is a line, where the front begins one and nothing else is kept.
fn read_line<S: Source>(
    alloc: Global,
    front: &mut Bytes,
    piece: &mut Piece,
    source: &mut S,
    ended: &mut bool,
) -> Result<Option<Bytes>, LineFault>
    requires begun { IsFront front.old }
    requires nothing { piece.old ≡ [] }
    requires open_end { ended.old ≡ false }
    ensures front { IsFront front.new }
    ensures reads { ReadsLine (S.left source.old) (S.left source.new) ended.old ended.new front.old result (front.new ++ piece.new) }
    ensures at_end { AtEnd ended.new (S.left source.new) }
    ensures counts { LineCounts (S.faults source.old) (S.faults source.new) result }
    ensures falls { LineFalls (length front.old + S.may_give source.old) (length (front.new ++ piece.new) + S.may_give source.new) result }
{
    'reading: loop {
        match piece.fill(alloc, source) {
            Ok(0) => {
                *ended = true;
                return Ok(cut_rest(alloc, front));
            }
            Err(unread) => return Err(unread),
            Ok(_) => match cut_line(alloc, front, piece) {
                Ok(Some(line)) => return Ok(Some(line)),
                Err(fault) => return Err(fault),
                Ok(None) => {}
            },
        }
    }
}

// The next line: of what is kept where it holds one, and else of what is read behind it.
pub fn next_line<S: Source>(
    alloc: Global,
    front: &mut Bytes,
    piece: &mut Piece,
    source: &mut S,
    ended: &mut bool,
) -> Result<Option<Bytes>, LineFault>
    requires front { IsFront front.old }
    requires at_end { AtEnd ended.old (S.left source.old) }
    ensures front { IsFront front.new }
    ensures reads { ReadsLine (S.left source.old) (S.left source.new) ended.old ended.new (front.old ++ piece.old) result (front.new ++ piece.new) }
    ensures at_end { AtEnd ended.new (S.left source.new) }
    ensures ended { StaysAtEnd ended.old ended.new source.old source.new }
    ensures unread { IsFront (front.old ++ piece.old) ⊎ (source.new ≡ source.old) }
    ensures counts { LineCounts (S.faults source.old) (S.faults source.new) result }
    ensures falls { LineFalls (length (front.old ++ piece.old) + S.may_give source.old) (length (front.new ++ piece.new) + S.may_give source.new) result }
{
    match cut_line(alloc, front, piece) {
        Ok(Some(line)) => Ok(Some(line)),
        Ok(None) => if *ended {
            Ok(cut_rest(alloc, front))
        } else {
            read_line(alloc, front, piece, source, ended)
        },
        Err(fault) => Err(fault),
    }
}
