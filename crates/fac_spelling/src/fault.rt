//! Why a reader gives no value.
ghost use Rattle.std.specs.Prelude.{◌≡◌};

use fac_base::Memory;

/// Why a reader gives no value.
#[derive(Clone, Copy, Debug, PartialEq, Eq)]
pub enum ReadFault {
    /// Memory ran out.
    Memory,
    /// The bytes go wrong.
    Refused {
        /// How many bytes are left from the first on with which nothing goes on.
        left: usize,
    },
}

impl From<Memory> for ReadFault {
    ghost use Rattle.fac_spelling.specs.declared.fault.ReadFault.TheVariants.{Memory};

    ghost from_gives = { λ _ fault. fault ≡ Memory };

    fn from(_: Memory) -> Self {
        ReadFault::Memory
    }
}
