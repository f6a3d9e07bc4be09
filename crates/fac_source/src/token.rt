//! Tokens with their places.
use fac_base::{Duplicate, Memory, Place, Text};
use std::alloc::Global;

/// What a token is.
#[derive(Drop)]
pub enum TokKind {
    /// A plain token, by its spelling.
    Plain(Text),
    /// A string token, by its content after its escapes.
    Str(Text),
}

/// A token.
#[derive(Drop)]
pub struct Token {
    pub place: Place,
    pub kind: TokKind,
}

impl Duplicate for TokKind {
    fn copy(&self, alloc: Global) -> Result<TokKind, Memory> {
        match self {
            TokKind::Plain(text) => Ok(TokKind::Plain(text.copy(alloc)?)),
            TokKind::Str(text) => Ok(TokKind::Str(text.copy(alloc)?)),
        }
    }
}

impl Duplicate for Token {
    fn copy(&self, alloc: Global) -> Result<Token, Memory> {
        let kind = self.kind.copy(alloc)?;
        Ok(Token {
            place: self.place,
            kind,
        })
    }
}
