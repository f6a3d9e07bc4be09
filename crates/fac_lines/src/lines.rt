//! The lines of a source.
ghost use Rattle.std.specs.Prelude.{◌≡◌, ◌+◌, [], length, false, ◌⊎◌};
ghost use Rattle.fac_io.specs.Told.{Told};
ghost use Rattle.fac_lines.specs.LineReads.{IsFront};
ghost use Rattle.fac_lines.specs.LineAnswers.{bytes_left, LineAnswers, AtEnd, StaysAtEnd, AnswersFrom, LineCounts, LineFalls, FrontWhereFailed};

use crate::LineFault;
use crate::piece::Piece;
use crate::reading::next_line;
use fac_base::Bytes;
use fac_io::Source;
use std::alloc::Global;
use std::marker::Model;

/// The lines of a source: the bytes that were read of it and not given out, and the source.
#[derive(Drop)]
pub struct Lines<S> {
    alloc: Global,
    source: S,
    // The front of the next line, in which no newline stands.
    front: Bytes,
    // The bytes behind it.
    piece: Piece,
    // Whether the source answered that nothing is left.
    ended: bool,
}

impl<S> Model for Lines<S> {
    ghost use Rattle.std.specs.Prelude.{◌++◌};
    ghost use Rattle.fac_lines.specs.LineReads.{IsFront};
    ghost use Rattle.fac_lines.specs.SeenLines.{LinesSeen, lines_code};

    ghost Value = { LinesSeen S };

    ghost coded = { lines_code S.code };

    ghost view = { λ l. record { kept = l.front ++ l.piece; source = l.source; ended = l.ended } };

    ghost invariant = { λ l. IsFront l.front };
}

impl<S> Lines<S> {
    /// The lines of this source. Nothing is read, and it takes no memory.
    pub fn new(alloc: Global, source: S) -> Self
        ensures kept { result.kept ≡ [] }
        ensures source { result.source ≡ source }
        ensures ended { result.ended ≡ false }
    {
        Lines {
            alloc,
            source,
            front: Bytes::new(alloc),
            piece: Piece::new(alloc),
            ended: false,
        }
    }
}

impl<S: Source> Lines<S> {
    /// The next line without its newline, or `None` where no byte is left. The last line needs no newline.
    ///
    /// Once the source answered that nothing is left it isn't read again, and that is the end of the lines.
    ///
    /// That a line has at most 4,000,000 bytes is this profile's own rule. Want of memory may come at any call that
    /// reads or gives a line, and loses no byte.
    #[tactic(auto, using(crate::proofs::AnswerLemmas::told_answer))]
    pub fn line(&mut self) -> Result<Option<Bytes>, LineFault>
        requires { AtEnd self.old.ended (S.left self.old.source) }
        ensures answer { Told (bytes_left self.old.kept (S.left self.old.source)) (bytes_left self.new.kept (S.left self.new.source)) (λ before now. LineAnswers before result now) }
        ensures given { AnswersFrom (S.left self.old.source) (S.left self.new.source) self.old.ended self.new.ended self.old.kept result self.new.kept }
        ensures at_end { AtEnd self.new.ended (S.left self.new.source) }
        ensures ended { StaysAtEnd self.old.ended self.new.ended self.old.source self.new.source }
        ensures failed { FrontWhereFailed self.new.kept result }
        ensures unread { IsFront self.old.kept ⊎ (self.new.source ≡ self.old.source) }
        ensures counts { LineCounts (S.faults self.old.source) (S.faults self.new.source) result }
        ensures falls { LineFalls (length self.old.kept + S.may_give self.old.source) (length self.new.kept + S.may_give self.new.source) result }
    {
        next_line(
            self.alloc,
            &mut self.front,
            &mut self.piece,
            &mut self.source,
            &mut self.ended,
        )
    }
}
