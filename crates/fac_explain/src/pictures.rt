//! The line of a place, and the marks below it.
ghost use Rattle.std.specs.Prelude.{◌≡◌, ◌≤◌, ◌++◌, length, drop, IfOk, OnOk};
ghost use Rattle.fac_explain.specs.Pictures.{behind_first as behind_characters, bytes_of_first as bytes_of_characters, first_of_line, gap as gap_of, left_out as left_out_of, line_around as line_around_place, marked, marked_at, marks as marks_of, place_text, shown_part as shown_of, spelling_at, token_text, until_break};

use crate::places::{begins_character, characters, front, line_before, rest};
use crate::pushing::{push_number, push_plain, push_times, push_told, say};
use fac_base::{Bytes, Memory};
use fac_token::Spot;
use std::alloc::Global;

/// The most characters of a line that are shown.
pub const MOST_SHOWN: usize = 120;

/// How far from the end of what isn't shown of a long line the place stands.
pub const BEFORE_PLACE: usize = 60;

// The bytes before the first line break, or all where there is none.
fn until(behind: &[u8]) -> &[u8]
    ensures { result.now ≡ until_break behind.now }
{
    for (index, byte) in behind.iter().enumerate() {
        if *byte == b'\n' {
            return &behind[..index];
        }
    }
    behind
}

// The line of a byte, without its line break.
fn line_around(alloc: Global, text: &[u8], at: u64) -> Result<Bytes, Memory>
    ensures { IfOk result (λ line. line ≡ line_around_place text.now at) }
{
    let mut line = Bytes::from_slice(alloc, line_before(text, at))?;
    line.extend(until(rest(text, at)))?;
    Ok(line)
}

// How many bytes the first so many characters have.
fn bytes_of_first(count: usize, bytes: &[u8]) -> usize
    ensures is { result ≡ bytes_of_characters count bytes.now }
    ensures most { result ≤ length bytes.now }
{
    let mut left = count;
    for (index, byte) in bytes.iter().enumerate() {
        if begins_character(*byte) {
            if left == 0 {
                return index;
            }
            left -= 1;
        }
    }
    bytes.len()
}

// The bytes behind the first so many characters.
fn behind_first(count: usize, line: &[u8]) -> &[u8]
    ensures { result.now ≡ behind_characters count line.now }
{
    &line[bytes_of_first(count, line)..]
}

// The bytes of the first so many characters.
fn first_of(count: usize, line: &[u8]) -> &[u8]
    ensures { result.now ≡ first_of_line count line.now }
{
    &line[..bytes_of_first(count, line)]
}

// How many characters of a line aren't shown before a place in this column.
fn left_out(line: &[u8], column: u32) -> usize
    ensures { result ≡ left_out_of line.now column }
{
    if characters(line) <= MOST_SHOWN {
        return 0;
    }
    (column as usize).saturating_sub(BEFORE_PLACE)
}

// What is shown of a line.
fn shown_part(line: &[u8], column: u32) -> &[u8]
    ensures { result.now ≡ shown_of line.now column }
{
    first_of(MOST_SHOWN, behind_first(left_out(line, column), line))
}

// How many characters of what is shown stand before the place.
fn gap(line: &[u8], column: u32) -> usize
    ensures { result ≡ gap_of line.now column }
{
    (column as usize)
        .saturating_sub(1)
        .saturating_sub(left_out(line, column))
}

// How many marks a token has.
fn marks(line: &[u8], token: &[u8], column: u32) -> usize
    ensures { result ≡ marks_of line.now token.now column }
{
    let shown = characters(shown_part(line, column)).saturating_sub(gap(line, column));
    characters(token).min(shown).max(1)
}

// Adds the line of a token and its marks.
fn push_marked(out: &mut Bytes, line: &[u8], token: &[u8], column: u32) -> Result<(), Memory>
    ensures { OnOk result (out.new ≡ out.old ++ marked line.now token.now column) }
{
    say(out, "    ")?;
    push_plain(out, b' ', shown_part(line, column))?;
    say(out, "\n    ")?;
    push_times(out, b' ', gap(line, column))?;
    push_times(out, b'^', marks(line, token, column))?;
    say(out, "\n")
}

/// How the token at a place is spelled.
pub fn spelling<'a>(text: &'a [u8], spot: &Spot) -> &'a [u8]
    ensures { result.now ≡ spelling_at text.now spot.now }
{
    rest(front(text, spot.end), spot.at)
}

/// Adds the line of a place and its marks, where there is one.
pub fn push_marked_at(
    alloc: Global,
    out: &mut Bytes,
    text: &[u8],
    place: &Option<Spot>,
) -> Result<(), Memory>
    ensures { OnOk result (out.new ≡ out.old ++ marked_at text.now place.now) }
{
    match place {
        None => Ok(()),
        Some(spot) => {
            let line = line_around(alloc, text, spot.at)?;
            push_marked(out, line.as_slice(), spelling(text, spot), spot.column)
        }
    }
}

/// The token at a place as it is told.
pub fn told_token(alloc: Global, text: &[u8], place: &Option<Spot>) -> Result<Bytes, Memory>
    ensures { IfOk result (λ token. token ≡ token_text text.now place.now) }
{
    let mut token = Bytes::new(alloc);
    match place {
        None => Ok(token),
        Some(spot) => {
            push_told(&mut token, spelling(text, spot))?;
            Ok(token)
        }
    }
}

/// Adds a place, as editors read it.
pub fn push_place(out: &mut Bytes, name: &[u8], place: &Option<Spot>) -> Result<(), Memory>
    ensures { OnOk result (out.new ≡ out.old ++ place_text name.now place.now) }
{
    match place {
        None => Ok(()),
        Some(spot) => {
            push_told(out, name)?;
            say(out, ":")?;
            push_number(out, u64::from(spot.line))?;
            say(out, ":")?;
            push_number(out, u64::from(spot.column))?;
            say(out, ": ")
        }
    }
}
