//! What the calls of a scope answer.
ghost use Rattle.std.specs.Prelude.{◌≡◌};

use fac_base::Memory;
use thiserror::Error;

/// What a search finds. Words stand by their numbers.
#[derive(Clone, Copy, Debug, PartialEq, Eq)]
pub enum Found {
    Word(u32),
    /// Nothing that is searched holds the name.
    Unknown,
    /// Two used vocabularies hold different words: the first two in the byte order of their full names.
    Ambiguous(u32, u32),
}

/// How a full name stands in the tables to which its vocabulary belongs.
#[derive(Clone, Copy, Debug, PartialEq, Eq)]
pub enum NameState {
    /// None of them holds it.
    New,
    /// It is only deferred: the word that its definition defines.
    Deferred(u32),
    /// It is defined, so another definition is refused.
    Defined,
}

/// Why a scope refuses a change.
#[derive(Clone, Copy, Debug, PartialEq, Eq, Error)]
pub enum ScopeFault {
    /// The table holds the name already.
    #[error("the name is defined already")]
    Twice,
    /// There is no such vocabulary.
    #[error("there is no such vocabulary")]
    NoVocab,
    /// The vocabulary has no such name.
    #[error("the vocabulary has no such name")]
    Unknown,
    #[error("out of memory")]
    Memory,
}

impl From<Memory> for ScopeFault {
    ghost use Rattle.fac_vocab.specs.declared.answers.ScopeFault.TheVariants.{Memory};

    ghost from_gives = { λ _ fault. fault ≡ Memory };

    fn from(_: Memory) -> Self {
        ScopeFault::Memory
    }
}
