//! Why a file has no tokens.
ghost use Rattle.std.specs.Prelude.{◌≡◌};

use fac_base::Memory;
use thiserror::Error;

/// Why a file has no tokens. `at` counts bytes of the file, from 0.
#[derive(Clone, Copy, Debug, PartialEq, Eq, Error)]
pub enum TokenFault {
    /// The bytes aren't UTF-8. `at` is the first byte of the first sequence that isn't. This comes before each of the others.
    #[error("byte {at} begins no UTF-8")]
    NotUtf8 { at: u64 },
    /// A string is cut off by a line break (byte 10) or the end, also directly behind a backslash. `at` is its opening quote.
    #[error("the string at byte {at} isn't closed")]
    OpenString { at: u64 },
    /// A backslash in a string stands before none of `n t r \ "`, nor before a line break or the end. `at` is the backslash.
    #[error("byte {at} begins no escape")]
    BadEscape { at: u64 },
    /// A quote stands inside another token, or something other than white space directly behind a closing quote. `at` is that quote, or
    /// what stands behind the closing one.
    #[error("white space is missing before byte {at}")]
    StuckQuote { at: u64 },
    /// A growth was refused, or a token would have the number 2^32.
    #[error("out of memory")]
    Memory,
}

impl From<Memory> for TokenFault {
    ghost use Rattle.fac_token.specs.declared.fault.TokenFault.TheVariants.{Memory};

    ghost from_gives = { λ _ fault. fault ≡ Memory };

    fn from(_: Memory) -> Self {
        TokenFault::Memory
    }
}
