//! Characters of UTF-8, with the exact place of a cut or wrong one.
ghost use Rattle.std.specs.Prelude.{◌≡◌};
ghost use Rattle.fac_spelling.specs.Numbers.{in_range};
ghost use Rattle.fac_spelling.specs.Bytes.{byte};
ghost use Rattle.fac_spelling.specs.Texts.{leads as leads_in, second_range, character, characters};
ghost use Rattle.fac_spelling.specs.inner.CharacterSteps.{sized, rest_of};
ghost use Rattle.fac_spelling.specs.Reads.{Gives, NoMemory};

use crate::{ReadFault, read_byte};

// Whether a character that begins so has room in so many bytes.
fn leads(room: usize, byte: u8) -> bool
    ensures { result ≡ leads_in room byte }
{
    if byte < 0x80 {
        return room > 0;
    }
    if byte < 0xC2 || 0xF4 < byte {
        return false;
    }
    if byte < 0xE0 {
        room > 1
    } else if byte < 0xF0 {
        room > 2
    } else {
        room > 3
    }
}

// The second byte of a character of three or four bytes that begins so.
fn read_second(lead: u8, bytes: &[u8]) -> Result<(u8, &[u8]), ReadFault>
    ensures exact { Gives (λ x. (x.0, x.1.now)) result ((byte (in_range (second_range lead).low (second_range lead).high)).read bytes.now) }
    ensures plain { NoMemory result }
{
    match lead {
        0xE0 => read_byte(bytes, 0xA0, 0xBF),
        0xED => read_byte(bytes, 0x80, 0x9F),
        0xF0 => read_byte(bytes, 0x90, 0xBF),
        0xF4 => read_byte(bytes, 0x80, 0x8F),
        _ => read_byte(bytes, 0x80, 0xBF),
    }
}

// How many bytes the character at the front has, which has room in so many, and the bytes behind it.
#[tactic(auto, unfolding(crate::specs::Formats::all_at))]
fn read_character(bytes: &[u8], room: usize) -> Result<(usize, &[u8]), ReadFault>
    ensures exact { Gives (λ x. (x.0, x.1.now)) result (sized ((character room).read bytes.now)) }
    ensures plain { NoMemory result }
{
    match bytes {
        [] => Err(ReadFault::Refused { left: 0 }),
        [lead, rest @ ..] => {
            if !leads(room, *lead) {
                return Err(ReadFault::Refused { left: bytes.len() });
            }
            if *lead < 0x80 {
                return Ok((1, rest));
            }
            if *lead < 0xE0 {
                let (_, rest) = read_byte(rest, 0x80, 0xBF)?;
                return Ok((2, rest));
            }
            if *lead < 0xF0 {
                let (_, rest) = read_second(*lead, rest)?;
                let (_, rest) = read_byte(rest, 0x80, 0xBF)?;
                return Ok((3, rest));
            }
            let (_, rest) = read_second(*lead, rest)?;
            let (_, rest) = read_byte(rest, 0x80, 0xBF)?;
            let (_, rest) = read_byte(rest, 0x80, 0xBF)?;
            Ok((4, rest))
        }
    }
}

// Goes past characters of so many bytes.
fn past_characters(bytes: &[u8], size: usize) -> Result<&[u8], ReadFault>
    ensures exact { Gives (λ x. x.now) result (rest_of ((characters size size).read bytes.now)) }
    ensures plain { NoMemory result }
{
    let mut rest = bytes;
    let mut room = size;
    while room > 0 {
        let (width, after) = read_character(rest, room)?;
        room -= width;
        rest = after;
    }
    Ok(rest)
}

// The same, character by character, with the place of the fault.
fn read_one_by_one(bytes: &[u8], size: usize) -> Result<(&str, &[u8]), ReadFault>
    ensures exact { Gives (λ x. (x.0.now, x.1.now)) result ((characters size size).read bytes.now) }
    ensures plain { NoMemory result }
{
    past_characters(bytes, size)?;
    let (front, rest) = bytes.split_at(size);
    Ok((unsafe { std::str::from_utf8_unchecked(front) }, rest))
}

/// The characters of so many bytes at the front, and the bytes behind them.
pub fn read_characters(bytes: &[u8], size: usize) -> Result<(&str, &[u8]), ReadFault>
    ensures exact { Gives (λ x. (x.0.now, x.1.now)) result ((characters size size).read bytes.now) }
    ensures plain { NoMemory result }
{
    if size <= bytes.len() {
        let (front, rest) = bytes.split_at(size);
        if let Ok(text) = str::from_utf8(front) {
            return Ok((text, rest));
        }
    }
    read_one_by_one(bytes, size)
}
