//! The checker's work in pieces, each done by one thread: a word that is checked, and a template whose effect is found. The threads read one closed
//! program, and share nothing that changes.
ghost use Rattle.std.specs.Prelude.{◌≡◌, All, map, IfOk};
ghost use Rattle.fac_rows.specs.NumberedRows.{row_entry};
ghost use Rattle.fac_check.specs.Judged.{StandsForWhole, AreUndeclared};
ghost use Rattle.fac_check.specs.inner.Pieces.{AreTemplatePieces, AreWordPieces, IsReadyTemplate, IsReadyWord};

use crate::checker::Verdict;
use crate::judge::check_word;
use crate::template_effects::effect;
use fac_base::{Height, List, Memory};
use fac_locals::Closed;
use fac_par::Piece;
use fac_rows::RowWords;
use std::alloc::Global;

/// The check of one word.
#[derive(Drop)]
pub struct WordPiece<'a> {
    pub alloc: Global,
    pub closed: &'a Closed,
    /// What is made once of the row words.
    pub rows: &'a RowWords,
    /// For each word whether its phrase leads back to it through inline words.
    pub undeclared: &'a List<bool>,
    /// The number of the word.
    pub number: u32,
}

impl Piece for WordPiece<'_> {
    type Out = Verdict;

    ghost use Rattle.fac_check.specs.Judged.{IsVerdict};
    ghost use Rattle.fac_check.specs.inner.Pieces.{IsReadyWord};

    ghost ready = { λ piece. IsReadyWord piece };

    ghost meets = { λ piece verdict. IsVerdict piece.closed.now piece.number verdict };

    fn work(&self) -> Result<Verdict, Memory> {
        check_word(
            self.alloc,
            self.closed,
            self.rows,
            self.undeclared,
            self.number,
        )
    }
}

/// A piece for each word of a closed program, in their order.
pub fn word_pieces<'a>(
    alloc: Global,
    closed: &'a Closed,
    rows: &'a RowWords,
    undeclared: &'a List<bool>,
) -> Result<Vec<WordPiece<'a>>, Memory>
    requires stands { StandsForWhole closed.now }
    requires rows { rows.now.entries ≡ map row_entry closed.now.program.words }
    requires undeclared { AreUndeclared closed.now.program closed.now.templates undeclared.now }
    ensures pieces { IfOk result (λ pieces. AreWordPieces closed.now pieces.items) }
    ensures ready { IfOk result (λ pieces. All IsReadyWord pieces.items) }
{
    let mut pieces = Vec::new(alloc);
    for number in 0..closed.program.words.len() {
        pieces.push(WordPiece {
            alloc,
            closed,
            rows,
            undeclared,
            number,
        })?;
    }
    Ok(pieces)
}

/// The effect of one template.
#[derive(Drop)]
pub struct TemplatePiece<'a> {
    pub alloc: Global,
    pub closed: &'a Closed,
    /// What is made once of the row words.
    pub rows: &'a RowWords,
    /// The number of the template.
    pub number: u32,
}

impl Piece for TemplatePiece<'_> {
    type Out = Option<Height>;

    ghost use Rattle.fac_check.specs.TemplateEffects.{IsEffect};
    ghost use Rattle.fac_check.specs.inner.Pieces.{IsReadyTemplate};

    ghost ready = { λ piece. IsReadyTemplate piece };

    ghost meets = { λ piece height. IsEffect piece.closed.now piece.number height };

    fn work(&self) -> Result<Option<Height>, Memory> {
        effect(self.alloc, self.closed, self.rows, self.number)
    }
}

/// A piece for each template of a closed program, in their order.
pub fn template_pieces<'a>(
    alloc: Global,
    closed: &'a Closed,
    rows: &'a RowWords,
) -> Result<Vec<TemplatePiece<'a>>, Memory>
    requires stands { StandsForWhole closed.now }
    requires rows { rows.now.entries ≡ map row_entry closed.now.program.words }
    ensures pieces { IfOk result (λ pieces. AreTemplatePieces closed.now pieces.items) }
    ensures ready { IfOk result (λ pieces. All IsReadyTemplate pieces.items) }
{
    let mut pieces = Vec::new(alloc);
    for number in 0..closed.templates.len() {
        pieces.push(TemplatePiece {
            alloc,
            closed,
            rows,
            number,
        })?;
    }
    Ok(pieces)
}
