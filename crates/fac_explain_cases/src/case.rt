//! A call, as the lines of a case tell it.
//!
//! A line that doesn't begin with `@` is a line of the source, and an empty one ends the case. The others are
//!
//!     @about TEXT       what the cases from here on show
//!     @file NAME        the lines from here on are of the source of the file with this name; those before the first such line are of `a`
//!     @times N TEXT     the text N times, as a part of the source
//!     @bytes N N ..     these bytes, as a part of the source
//!     @words W W ..     the words of the command line; they are `a` where no line says otherwise
//!     @output N M       the write of this number to the output fails after M bytes
//!     @note N M         the write of this number to the notes fails after M bytes
//!
//! There are the files of these sources and no others.
use fac_base::{Bytes, List, Memory, Text};
use fac_explainer::explain_top;
use fac_io::{MemFiles, MemSink};
use fac_par::{NoGate, Workers};
use std::alloc::Global;
use std::thread::Threads;
use std::{mem, str};

// The most bytes that a sink takes.
const ROOM: u64 = 10_000;

/// A call.
#[derive(Drop)]
pub struct Case {
    words: Vec<String>,
    // The files before the one whose lines come, and the name and the source of that one.
    held: List<(Text, Bytes)>,
    name: Text,
    source: Bytes,
    // The number of the write that fails, and after how many bytes; no write has the number 0.
    output: (u64, u64),
    note: (u64, u64),
}

// The words of a text, with a space between two.
fn split(alloc: Global, text: &str) -> Result<Vec<String>, Memory> {
    let mut words = Vec::new(alloc);
    for word in text.split(' ') {
        words.push(String::from_str(alloc, word)?)?;
    }
    Ok(words)
}

// Two numbers. None where the text isn't that.
fn pair_of(text: &str) -> Option<(u64, u64)> {
    let (first, second) = text.split_once(' ')?;
    let (Ok(first), Ok(second)) = (first.parse::<u64>(), second.parse::<u64>()) else {
        return None;
    };
    Some((first, second))
}

// Sets a pair of numbers. False where the text isn't that.
fn set_pair(pair: &mut (u64, u64), text: &str) -> bool {
    match pair_of(text) {
        Some(found) => {
            *pair = found;
            true
        }
        None => false,
    }
}

// Puts bytes behind others. False where the text isn't numbers of bytes.
fn push_bytes(bytes: &mut Bytes, text: &str) -> Result<bool, Memory> {
    for word in text.split(' ') {
        let Ok(byte) = word.parse::<u8>() else {
            return Ok(false);
        };
        bytes.push(byte)?;
    }
    Ok(true)
}

// Puts a text behind bytes, as often as the number before it says. False where there is none.
fn push_times(bytes: &mut Bytes, text: &str) -> Result<bool, Memory> {
    let Some((count, part)) = text.split_once(' ') else {
        return Ok(false);
    };
    let Ok(count) = count.parse::<u32>() else {
        return Ok(false);
    };
    for _ in 0..count {
        bytes.extend(part.as_bytes())?;
    }
    Ok(true)
}

// Tells bytes, each line behind a mark.
fn tell_lines(told: &mut Text, mark: &str, bytes: &[u8]) -> Result<(), Memory> {
    let text = str::from_utf8(bytes).unwrap_or("?");
    for line in text.lines() {
        told.push_str(mark)?;
        told.push_str(line)?;
        told.push_str("\n")?;
    }
    Ok(())
}

// Tells what a call came to.
fn tell(alloc: Global, status: u8, output: &[u8], note: &[u8]) -> Result<Text, Memory> {
    let mut told = Text::from_string(format!(in alloc; "  status {status}\n")?);
    tell_lines(&mut told, "  | ", output)?;
    tell_lines(&mut told, "  notes ", note)?;
    Ok(told)
}

// An output of which one write fails.
fn sink(alloc: Global, fault: (u64, u64)) -> Result<MemSink, Memory> {
    let mut faults = List::new(alloc);
    faults.push(fault)?;
    MemSink::new(alloc, ROOM, faults)
}

impl Case {
    /// The call on `a`, without faults, on an empty file.
    pub fn new(alloc: Global) -> Result<Self, Memory> {
        Ok(Case {
            words: split(alloc, "a")?,
            held: List::new(alloc),
            name: Text::from_str(alloc, "a")?,
            source: Bytes::new(alloc),
            output: (0, 0),
            note: (0, 0),
        })
    }

    /// Takes a line of the case. False where it is none.
    pub fn add(&mut self, alloc: Global, line: &str) -> Result<bool, Memory> {
        let Some(set) = line.strip_prefix("@") else {
            self.source.extend(line.as_bytes())?;
            self.source.push(b'\n')?;
            return Ok(true);
        };
        match set.split_once(' ') {
            Some((name, text)) => self.set(alloc, name, text),
            None if set == "words" => {
                self.words = Vec::new(alloc);
                Ok(true)
            }
            None => Ok(false),
        }
    }

    // Takes what a line with this name says.
    fn set(&mut self, alloc: Global, name: &str, text: &str) -> Result<bool, Memory> {
        match name {
            "about" => Ok(true),
            "file" => {
                self.begin_file(alloc, text)?;
                Ok(true)
            }
            "times" => push_times(&mut self.source, text),
            "bytes" => push_bytes(&mut self.source, text),
            "words" => {
                self.words = split(alloc, text)?;
                Ok(true)
            }
            "output" => Ok(set_pair(&mut self.output, text)),
            "note" => Ok(set_pair(&mut self.note, text)),
            _ => Ok(false),
        }
    }

    // Ends the file whose lines came, and begins one with this name.
    fn begin_file(&mut self, alloc: Global, name: &str) -> Result<(), Memory> {
        let next = Text::from_str(alloc, name)?;
        let name = mem::replace(&mut self.name, next);
        let source = mem::replace(&mut self.source, Bytes::new(alloc));
        self.held.push((name, source))
    }

    // The files.
    fn files(&mut self, alloc: Global) -> Result<MemFiles, Memory> {
        self.begin_file(alloc, "")?;
        let held = mem::replace(&mut self.held, List::new(alloc));
        Ok(MemFiles::new(alloc, held, List::new(alloc)))
    }

    /// What the case comes to. Its sources are taken.
    pub fn told<R: Threads + Sync>(
        &mut self,
        workers: &Workers<'_, R, NoGate>,
    ) -> Result<Text, Memory> {
        let mut files = self.files(workers.alloc)?;
        let mut output = sink(workers.alloc, self.output)?;
        let mut note = sink(workers.alloc, self.note)?;
        let ended = explain_top(
            workers,
            self.words.as_slice(),
            &mut files,
            &mut output,
            &mut note,
        );
        tell(workers.alloc, ended.status, output.taken(), note.taken())
    }
}
