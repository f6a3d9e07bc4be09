//! The code of words and of templates in pieces, each made by one thread. The threads read one closed program with its numbers, and share nothing that
//! changes.
ghost use Rattle.std.specs.Prelude.{◌≡◌, map, IfOk};
ghost use Rattle.fac_emit.specs.inner.Pieces.{template_codes, word_codes, template_piece_code, word_piece_code};

use crate::emission::Emission;
use crate::emitter::{code_of_template, code_of_word};
use fac_base::{List, Memory};
use fac_code::Instr;
use fac_par::{Gate, NoGate, Piece, Workers, map_pieces};
use std::thread::Threads;

/// The code of one word.
#[derive(Drop)]
pub struct WordPiece<'a, 'b> {
    emission: &'a Emission<'b>,
    // The number of the word.
    number: u32,
}

impl Piece for WordPiece<'_, '_> {
    type Out = List<Instr>;

    ghost use Rattle.std.specs.Prelude.{◌≡◌};
    ghost use Rattle.fac_emit.specs.inner.Pieces.{word_piece_code};

    ghost ready = { λ piece. Unit {0} };

    ghost meets = { λ piece code. code ≡ word_piece_code piece };

    fn work(&self) -> Result<List<Instr>, Memory> {
        code_of_word(self.emission, self.number)
    }
}

// A piece for each word, in their order.
fn word_pieces<'a, 'b>(emission: &'a Emission<'b>) -> Result<Vec<WordPiece<'a, 'b>>, Memory>
    ensures { IfOk result (λ pieces. map word_piece_code pieces.items ≡ word_codes emission.now) }
{
    let count = emission.program().words.len();
    let mut pieces = Vec::with_capacity(emission.alloc(), count as usize)?;
    for number in 0..count {
        pieces.push(WordPiece { emission, number })?;
    }
    Ok(pieces)
}

/// The code of the words, a list for each. The piece of a word has the word's number.
pub fn codes_of_words<R: Threads + Sync, G: Gate + Sync>(
    workers: &Workers<'_, R, G>,
    emission: &Emission<'_>,
) -> Result<List<List<Instr>>, Memory>
    ensures { IfOk result (λ codes. codes ≡ word_codes emission.now) }
{
    let pieces = word_pieces(emission)?;
    map_pieces(workers, pieces.as_slice())
}

/// The code of one template.
#[derive(Drop)]
pub struct TemplatePiece<'a, 'b> {
    emission: &'a Emission<'b>,
    // The number of the template.
    number: u32,
}

impl Piece for TemplatePiece<'_, '_> {
    type Out = List<Instr>;

    ghost use Rattle.std.specs.Prelude.{◌≡◌};
    ghost use Rattle.fac_emit.specs.inner.Pieces.{template_piece_code};

    ghost ready = { λ piece. Unit {0} };

    ghost meets = { λ piece code. code ≡ template_piece_code piece };

    fn work(&self) -> Result<List<Instr>, Memory> {
        code_of_template(self.emission, self.number)
    }
}

// A piece for each template, in their order.
fn template_pieces<'a, 'b>(emission: &'a Emission<'b>) -> Result<Vec<TemplatePiece<'a, 'b>>, Memory>
    ensures { IfOk result (λ pieces. map template_piece_code pieces.items ≡ template_codes emission.now) }
{
    let count = emission.templates().len();
    let mut pieces = Vec::with_capacity(emission.alloc(), count as usize)?;
    for number in 0..count {
        pieces.push(TemplatePiece { emission, number })?;
    }
    Ok(pieces)
}

/// The code of the templates, a list for each. The gate is told nothing of them.
pub fn codes_of_templates<R: Threads + Sync, G>(
    workers: &Workers<'_, R, G>,
    emission: &Emission<'_>,
) -> Result<List<List<Instr>>, Memory>
    ensures { IfOk result (λ codes. codes ≡ template_codes emission.now) }
{
    let pieces = template_pieces(emission)?;
    let untold = Workers {
        threads: workers.threads,
        alloc: workers.alloc,
        count: workers.count,
        gate: &NoGate,
    };
    map_pieces(&untold, pieces.as_slice())
}
