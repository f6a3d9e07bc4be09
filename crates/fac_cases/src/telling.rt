//! How the end of a call and the tokens of a file are told.
use fac_base::{Bytes, Memory, Text};
use fac_io::{Asked, MemSink, MemSource};
use fac_lines::Channels;
use fac_source::{TokKind, Token};
use fac_token::{TokenFault, tokens};
use std::alloc::Global;
use std::str;

// The most lines of an input that are told.
const MOST_LINES: u32 = 10;

/// Tells a status and ticks.
pub fn tell_end(alloc: Global, told: &mut Text, status: u8, ticks: u64) -> Result<(), Memory> {
    let line = format!(in alloc; "  status {status}, {ticks} ticks")?;
    told.push_str(line.as_str())
}

// Tells a call of the files.
fn tell_asked(told: &mut Text, call: &Asked) -> Result<(), Memory> {
    match call {
        Asked::Load(name) => {
            told.push_str(", loads ")?;
            told.push_str(name.as_str())
        }
        Asked::Save(name) => {
            told.push_str(", saves ")?;
            told.push_str(name.as_str())
        }
    }
}

/// Tells what the files were asked for, but for the first calls, so many.
pub fn tell_loads(told: &mut Text, asked: &[Asked], before: usize) -> Result<(), Memory> {
    let mut passed = 0;
    for call in asked {
        if passed < before {
            passed += 1;
        } else {
            tell_asked(told, call)?;
        }
    }
    Ok(())
}

/// Tells the values that a run left, from the bottom to the top.
pub fn tell_stack(told: &mut Text, texts: &[Text]) -> Result<(), Memory> {
    told.push_str(", leaves")?;
    for text in texts {
        told.push_str(" ")?;
        told.push_str(text.as_str())?;
    }
    Ok(())
}

// Tells a text, its line ends and the like as escapes.
fn tell_text(told: &mut Text, text: &str) -> Result<(), Memory> {
    for letter in text.chars() {
        match letter {
            '\n' => told.push_str("\\n")?,
            '\r' => told.push_str("\\r")?,
            '\t' => told.push_str("\\t")?,
            '\\' => told.push_str("\\\\")?,
            _ => told.push_str(letter.encode_utf8(&mut [0; 4]))?,
        }
    }
    Ok(())
}

/// The last lines of these bytes, so many, or all of them where there is no number.
pub fn last_lines(bytes: &[u8], count: Option<u32>) -> &[u8] {
    let Some(count) = count else {
        return bytes;
    };
    let mut left = count;
    for back in 1..bytes.len() {
        let end = bytes.len() - back;
        if bytes[end - 1] == b'\n' {
            if left <= 1 {
                return bytes.get(end..).unwrap_or(&[]);
            }
            left -= 1;
        }
    }
    bytes
}

/// Tells bytes on a line of their own, where there are any.
pub fn tell_bytes(told: &mut Text, what: &str, bytes: &[u8]) -> Result<(), Memory> {
    if bytes.is_empty() {
        return Ok(());
    }
    told.push_str(what)?;
    match str::from_utf8(bytes) {
        Ok(text) => tell_text(told, text)?,
        Err(_) => told.push_str("no text")?,
    }
    told.push_str("\n")
}

/// Tells the lines that are left of an input, each with a newline, up to one that can't be had.
pub fn tell_left(
    alloc: Global,
    told: &mut Text,
    channels: &mut Channels<MemSource, MemSink>,
) -> Result<(), Memory> {
    let mut left = Bytes::new(alloc);
    for _ in 0..MOST_LINES {
        let Ok(Some(line)) = channels.line() else {
            return tell_bytes(told, "  left ", left.as_slice());
        };
        left.extend(line.as_slice())?;
        left.push(b'\n')?;
    }
    tell_bytes(told, "  left ", left.as_slice())
}

// Tells a token with its file and its number, a string between angle brackets.
fn tell_token(alloc: Global, told: &mut Text, token: &Token) -> Result<(), Memory> {
    let file = token.place.file;
    let number = token.place.token;
    let place = format!(in alloc; " {file}:{number}:")?;
    told.push_str(place.as_str())?;
    match &token.kind {
        TokKind::Plain(text) => tell_text(told, text.as_str()),
        TokKind::Str(text) => {
            told.push_str("<")?;
            tell_text(told, text.as_str())?;
            told.push_str(">")
        }
    }
}

// Tells tokens.
fn tell_list(alloc: Global, told: &mut Text, list: &[Token]) -> Result<(), Memory> {
    told.push_str("  tokens")?;
    for token in list {
        tell_token(alloc, told, token)?;
    }
    told.push_str("\n")
}

// Tells why a file has no tokens.
fn tell_fault(alloc: Global, told: &mut Text, fault: TokenFault) -> Result<(), Memory> {
    let line = format!(in alloc; "  fault {fault}\n")?;
    told.push_str(line.as_str())
}

/// Tells the tokens of a file, or why it has none.
pub fn tell_tokens(alloc: Global, file: u32, source: &[u8]) -> Result<Text, Memory> {
    let mut told = Text::new(alloc);
    match tokens(alloc, file, source) {
        Ok(list) => tell_list(alloc, &mut told, list.as_slice())?,
        Err(fault) => tell_fault(alloc, &mut told, fault)?,
    }
    Ok(told)
}
