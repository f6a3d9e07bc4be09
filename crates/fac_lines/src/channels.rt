//! The input and the output of a run.
ghost use Rattle.std.specs.Prelude.{◌≡◌, ◌<◌, [], length, true, false};
ghost use Rattle.std.specs.Io.KnownBytes.{IsAtEnd};
ghost use Rattle.fac_io.specs.Told.{sink_tells};
ghost use Rattle.fac_lines.specs.Channels.{TakesLine, TakesPiece};

use crate::{LineFault, Lines};
use fac_base::Bytes;
use fac_io::{Failed, Sink, Source};
use std::alloc::Global;
use std::marker::Model;

/// The input and the output of a run. Contracts see what the two tell, and how often each failed.
#[derive(Drop)]
pub struct Channels<S: Source, K: Sink> {
    input: Lines<S>,
    output: K,
}

impl<S: Source, K: Sink> Model for Channels<S, K> {
    ghost use Rattle.fac_io.specs.Told.{sink_tells};
    ghost use Rattle.fac_lines.specs.Channels.{ChannelsTold, channels_code};
    ghost use Rattle.fac_lines.specs.Inputs.{input_tells};
    ghost use Rattle.fac_lines.specs.LineAnswers.{AtEnd};

    ghost Value = { ChannelsTold };

    ghost coded = { channels_code };

    ghost view = { λ c. record { input = input_tells S.left c.input; input_faults = S.faults c.input.source; output = sink_tells (K.taken c.output) (K.pieces c.output); output_faults = K.faults c.output } };

    ghost invariant = { λ c. AtEnd c.input.ended (S.left c.input.source) };
}

impl<S: Source, K: Sink> Channels<S, K> {
    /// The lines of this source as the input, and this sink as the output. Nothing is read, and it takes no memory.
    pub fn new(alloc: Global, source: S, output: K) -> Self
        ensures { result ≡ record { input = record { kept = []; ended = false; left = S.left source }; input_faults = S.faults source; output = sink_tells (K.taken output) (K.pieces output); output_faults = K.faults output } }
    {
        Channels {
            input: Lines::new(alloc, source),
            output,
        }
    }

    /// Where the input's source answered that nothing is left, it has nothing left, if it tells that.
    pub fn nothing_is_behind_the_end(&self)
        ensures { self.now.input.ended ≡ true → IsAtEnd self.now.input.left }
    {
        let _input = &self.input;
    }

    /// The next line of the input without its newline, or `None` where no byte is left.
    pub fn line(&mut self) -> Result<Option<Bytes>, LineFault>
        ensures { TakesLine self.old self.new result }
    {
        self.input.line()
    }

    /// The output.
    pub fn output(&self) -> &K
        ensures tells { sink_tells (K.taken result.now) (K.pieces result.now) ≡ self.now.output }
        ensures faults { K.faults result.now ≡ self.now.output_faults }
    {
        &self.output
    }

    /// Writes a piece to the output in one write.
    pub fn write(&mut self, piece: &[u8]) -> Result<(), Failed>
        requires { 0 < length piece.now }
        ensures { TakesPiece self.old self.new piece.now result }
    {
        self.output.write(piece)
    }
}
