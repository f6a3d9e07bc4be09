//! Where tokens stand in their file. The scanner reads the tokens, and each of its steps is followed.
ghost use Rattle.std.specs.Prelude.{◌≡◌, nat_lt, IfOk, OnOk};
ghost use Rattle.fac_token.specs.Spots.{Places};
ghost use Rattle.fac_token.specs.inner.SpotSteps.{finished, mode_open, passed, started};

use crate::TokenFault;
use crate::scanner::{Mode, take_char, take_end};
use fac_base::{List, Memory};
use std::alloc::Global;

/// Where a token stands in its file.
#[derive(Clone, Copy, Debug, PartialEq, Eq)]
pub struct Spot {
    /// The line, from 1 on. A line ends behind a byte 10.
    pub line: u32,
    /// The column in characters, from 1 on.
    pub column: u32,
    /// The number of its first byte, from 0 on.
    pub at: u64,
    /// The number of the byte behind it. A string is spelled with its quotes.
    pub end: u64,
}

/// Where the next character stands.
#[derive(Clone, Copy)]
pub struct Here {
    pub line: u32,
    pub column: u32,
    pub at: u64,
}

// The place behind a character that stands here.
fn pass(here: Here, c: char) -> Result<Here, Memory>
    ensures { IfOk result (λ next. next ≡ passed here c) }
{
    let at = here.at.checked_add(c.len_utf8() as u64).ok_or(Memory)?;
    if c == '\n' {
        let line = here.line.checked_add(1).ok_or(Memory)?;
        return Ok(Here {
            line,
            column: 1,
            at,
        });
    }
    let column = here.column.checked_add(1).ok_or(Memory)?;
    Ok(Here {
        line: here.line,
        column,
        at,
    })
}

// Whether a token stands open.
fn is_open(mode: Mode) -> bool
    ensures { result ≡ mode_open mode }
{
    match mode {
        Mode::Between => false,
        Mode::InPlain => true,
        Mode::InComment => false,
        Mode::InString { .. } => true,
        Mode::InEscape { .. } => true,
        Mode::Closed => true,
    }
}

// Adds the place of a token that began here and ends so, where there are more tokens than before.
fn finish(
    spots: &mut List<Spot>,
    start: Here,
    before: u32,
    now: u32,
    end: u64,
) -> Result<(), Memory>
    ensures { OnOk result (spots.new ≡ finished spots.old start (nat_lt before now) end) }
{
    if before < now {
        spots.push(Spot {
            line: start.line,
            column: start.column,
            at: start.at,
            end,
        })?;
    }
    Ok(())
}

// Where the token began that stands open behind a step.
fn start_of(start: Here, here: Here, was_open: bool, stays_open: bool) -> Here
    ensures { result ≡ started start here was_open stays_open }
{
    if stays_open && !was_open { here } else { start }
}

// The places of the tokens of a text.
fn read_spots(alloc: Global, source: &str) -> Result<List<Spot>, TokenFault>
    ensures { Places source.now result }
{
    let mut tokens = List::new(alloc);
    let mut text = String::new(alloc);
    let mut mode = Mode::Between;
    let mut spots = List::new(alloc);
    let mut here = Here {
        line: 1,
        column: 1,
        at: 0,
    };
    let mut start = here;
    for c in source.chars() {
        let before = tokens.len();
        match take_char(alloc, 0, &mut tokens, &mut text, mode, here.at, c) {
            Ok(next) => {
                finish(&mut spots, start, before, tokens.len(), here.at)?;
                start = start_of(start, here, is_open(mode), is_open(next));
                mode = next;
            }
            Err(fault) => return Err(fault),
        }
        here = pass(here, c)?;
    }
    let before = tokens.len();
    match take_end(0, tokens, text, mode) {
        Ok(all) => {
            finish(&mut spots, start, before, all.len(), here.at)?;
            Ok(spots)
        }
        Err(fault) => Err(fault),
    }
}

/// The places of the tokens of a file's bytes, in their order, and so one for each token that `tokens` gives. It is refused exactly as there. A
/// file with a line or a column of the number 2^32 is want of memory.
pub fn spots(alloc: Global, bytes: &[u8]) -> Result<List<Spot>, TokenFault>
    ensures { Places bytes.now result }
{
    match str::from_utf8(bytes) {
        Ok(source) => read_spots(alloc, source),
        Err(error) => Err(TokenFault::NotUtf8 {
            at: error.valid_up_to() as u64,
        }),
    }
}
