//! A program that tests how values are spelled as bytes: it reads lines of a kind and bytes in decimal, and tells behind each line what value
//! the bytes are read as and whether it is written so again, or where they are broken.
//!
//! The kinds are
//!
//!     u32, i128, text     all of the bytes as a number of 32 bits, an integer of 128 bits, a text
//!     list                all of them as a list of pairs of a number and an option of a number
//!     option              all of them as an option of an option of a number
//!     even                all of them as a number of 32 bits, with the rule that it is even
//!     taken               all of them as numbers one after another, of which no two are the same
//!     ascending, by       ascending numbers, and pairs of numbers whose first ones ascend, at the front of the bytes
//!     fixed               the bytes 70 67 73 49 at the front
//!
//! Behind a value at the front stands how many bytes are left.
//!
//! `stdout` was written by hand, from the rules of formats. So it shows what no contract says, that a call with enough memory comes to
//! another answer than want of memory, and that the formats mean what was meant.
#![tactic(auto)]

mod fronts;
mod ruled;
mod stop;
mod telling;
mod wholes;

use fac_base::{Bytes, Memory, Text};
use fac_num::write_int;
use std::alloc::Global;
use std::io;
use std::io::ErrorKind;
use stop::Stop;

// Puts bytes behind others. False where the text isn't numbers of bytes.
fn push_bytes(bytes: &mut Bytes, text: &str) -> Result<bool, Memory> {
    for word in text.split_whitespace() {
        let Ok(byte) = word.parse::<u8>() else {
            return Ok(false);
        };
        bytes.push(byte)?;
    }
    Ok(true)
}

// Tells what bytes come to as a value of a kind.
fn of_kind(alloc: Global, kind: &str, bytes: &[u8]) -> Result<Text, Stop> {
    match kind {
        "u32" => wholes::number(alloc, bytes),
        "i128" => wholes::integer(alloc, bytes),
        "text" => wholes::text(alloc, bytes),
        "list" => wholes::list(alloc, bytes),
        "option" => wholes::option(alloc, bytes),
        "even" => ruled::even_number(alloc, bytes),
        "taken" => fronts::taken(alloc, bytes),
        "ascending" => fronts::ascending(alloc, bytes),
        "by" => fronts::ascending_by(alloc, bytes),
        "fixed" => fronts::fixed(alloc, bytes),
        _ => Ok(Text::from_str(alloc, "?")?),
    }
}

// Tells a place.
fn broken_at(alloc: Global, at: usize) -> Result<Text, Memory> {
    let mut told = Text::from_str(alloc, "broken at ")?;
    write_int(at as i128, &mut told)?;
    Ok(told)
}

// Tells what a line comes to.
fn told(alloc: Global, line: &str) -> Result<Text, Memory> {
    let (kind, text) = line.split_once(' ').unwrap_or((line, ""));
    let mut bytes = Bytes::new(alloc);
    if !push_bytes(&mut bytes, text)? {
        return Text::from_str(alloc, "?");
    }
    match of_kind(alloc, kind, bytes.as_slice()) {
        Ok(text) => Ok(text),
        Err(Stop::Memory) => Err(Memory),
        Err(Stop::Broken { at }) => broken_at(alloc, at),
    }
}

// As in `fac_number_cases`: a program alone has the runtime, and the loop is all of it.
fn main(rt: HostRuntime) -> io::Result<()> {
    let alloc = rt.alloc();
    for line in rt.lines(alloc) {
        let line = line?;
        let Ok(text) = told(alloc, line.as_str()) else {
            return Err(io::Error::from(ErrorKind::OutOfMemory));
        };
        println!(rt; "{line} -> {}", text.as_str())?;
    }
    Ok(())
}
