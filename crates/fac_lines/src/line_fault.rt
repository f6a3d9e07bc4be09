//! Why there is no line.
ghost use Rattle.std.specs.Prelude.{◌≡◌};

use fac_base::Memory;
use std::alloc::AllocError;
use thiserror::Error;

/// Why a call gave no line.
#[derive(Clone, Copy, Debug, PartialEq, Eq, Error)]
pub enum LineFault {
    /// More bytes than a line may have come before a newline. They were taken, and the next call goes on behind them.
    #[error("the line is too long")]
    TooLong,
    /// The source failed, and its count of faults rose. No byte is lost, and the next call reads on.
    #[error("the line was not read")]
    Failed,
    /// A growth was refused. No byte is lost.
    #[error("out of memory")]
    Memory,
}

impl From<Memory> for LineFault {
    ghost use Rattle.fac_lines.specs.declared.line_fault.LineFault.TheVariants.{Memory};

    ghost from_gives = { λ _ fault. fault ≡ Memory };

    fn from(_: Memory) -> Self {
        LineFault::Memory
    }
}

impl From<AllocError> for LineFault {
    ghost use Rattle.fac_lines.specs.declared.line_fault.LineFault.TheVariants.{Memory};

    ghost from_gives = { λ _ fault. fault ≡ Memory };

    fn from(_: AllocError) -> Self {
        LineFault::Memory
    }
}
