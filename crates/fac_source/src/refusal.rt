//! Why a name is refused.
ghost use Rattle.std.specs.Prelude.{◌≡◌};

use fac_base::{Memory, Name, Place, Text};
use thiserror::Error;

/// Why trees give no program.
#[derive(Debug, Drop, Error)]
pub enum ResolveFault {
    /// The first name by place that is refused.
    #[error("a name is refused")]
    Name(NameFault),
    #[error("out of memory")]
    Memory,
}

/// A name that is refused, and the place of its token.
#[derive(Debug, Drop)]
pub struct NameFault {
    pub place: Place,
    pub kind: NameKind,
    pub name: Text,
}

/// Why a name is refused. Of two refusals of one token that of the first kind is told.
#[derive(Debug, Drop)]
pub enum NameKind {
    /// The search finds no word.
    Unknown,
    /// The used vocabularies hold these words under the name, the first two by full name.
    Ambiguous(Name, Name),
    /// A table holds the name already.
    Twice,
    /// No such vocabulary exists.
    NoVocab,
    /// The word is no class.
    NotClass,
    /// The word is no generic.
    NotGeneric,
    /// The word is no tuple class, or with its slots there are too many.
    BadParent,
    /// A class reaches itself by its parents or members.
    Cycle,
    /// The program defines too many classes.
    TooMany,
    /// The deferred word is never defined.
    Undefined,
}

impl From<Memory> for ResolveFault {
    ghost use Rattle.fac_source.specs.declared.refusal.ResolveFault.TheVariants.{Memory};

    ghost from_gives = { λ _ fault. fault ≡ Memory };

    fn from(_: Memory) -> Self {
        ResolveFault::Memory
    }
}
