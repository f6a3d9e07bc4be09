//! Reports, and the exit status of each.
ghost use Rattle.std.specs.Prelude.{◌≡◌};
ghost use Rattle.fac_notes.specs.Statuses.{status_of};

use crate::status::{
    BAD_IMAGE, BUDGET_SPENT, CHECK_REFUSED, FILE_FAULT, NAME_REFUSED, RUN_ERROR, SYNTAX_REFUSED,
    TOO_LONG,
};
use fac_base::{Name, Text};
use fac_check::Refusal;
use fac_code::TrapWhy;
use fac_lang::ErrorName;
use fac_parse::Why;
use fac_source::NameFault;

/// What is wrong with the bytes of a file that has no tokens.
#[derive(Clone, Copy, Debug, PartialEq, Eq)]
pub enum ByteFault {
    /// The byte begins no UTF-8.
    NotUtf8,
    /// The string that begins at the byte isn't closed on its line.
    OpenString,
    /// The backslash at the byte begins no escape.
    BadEscape,
    /// The byte stands where white space has to: a quote in another token, or what stands directly behind a string.
    StuckQuote,
}

/// Why a call was refused or failed. Files are named by their numbers: 0 is the prelude, and the command's files count from 1.
#[derive(Drop)]
pub enum Report {
    /// A file has no tokens. `at` counts its bytes, from 0.
    Bytes {
        file: u32,
        at: u64,
        why: ByteFault,
    },
    /// A file has no tree. `at` is 0 where the place isn't told.
    Syntax {
        file: u32,
        at: u32,
        why: Why,
    },
    /// A name was refused.
    Name(NameFault),
    /// The checker refused the program. `word` is the refused word as notes tell it.
    Check {
        refusal: Refusal,
        word: Text,
    },
    /// The program failed, in this word. `value` is the printed form of the offending value, where the error has one.
    Error {
        name: ErrorName,
        word: Name,
        value: Option<Text>,
    },
    /// The budget was spent.
    Spent {
        ticks: u64,
    },
    /// Bytes are no image. `at` is the place of the first byte with which none goes on, or their length.
    Image {
        at: u64,
    },
    /// The machine could not do the instruction at this place.
    Trap {
        pc: u32,
        why: TrapWhy,
    },
    /// A file was not read.
    File {
        name: Text,
    },
    /// A file has more bytes than are read.
    TooLong {
        name: Text,
        limit: u64,
    },
}

impl Report {
    /// The exit status of a call that ends with this report.
    pub fn status(&self) -> u8
        ensures { result ≡ status_of self.now }
    {
        match self {
            Report::Error { .. } => RUN_ERROR,
            Report::Bytes { .. } => SYNTAX_REFUSED,
            Report::Syntax { .. } => SYNTAX_REFUSED,
            Report::Name(_) => NAME_REFUSED,
            Report::Check { .. } => CHECK_REFUSED,
            Report::Spent { .. } => BUDGET_SPENT,
            Report::Image { .. } => BAD_IMAGE,
            Report::Trap { .. } => BAD_IMAGE,
            Report::File { .. } => FILE_FAULT,
            Report::TooLong { .. } => TOO_LONG,
        }
    }
}
