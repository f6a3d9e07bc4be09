//! A call of the tool, as the lines of a case tell it.
//!
//! A line that doesn't begin with `@` is a line of the source, and an empty one ends the case. The others are
//!
//!     @about TEXT       what the cases from here on show
//!     @file NAME        the lines from here on are of the source of the file with this name; those before the first such line are of `a`
//!     @times N TEXT     the text N times, as a part of the source
//!     @bytes N N ..     these bytes, as a part of the source
//!     @words W W ..     the words of the command line, where `''` is an empty one; they are `run a` where no line says otherwise
//!     @then W W ..      one more call, on these words and on the files that the calls before left; with the same input from its start
//!     @input TEXT       a line of the input; `@input` alone is an empty one
//!     @part TEXT        the text, as a part of the input without a line's end
//!     @repeat N TEXT    the text N times, as a part of the input
//!     @codes N N ..     these bytes, as a part of the input
//!     @reads N N ..     the numbers of the reads of the input that fail, in each call
//!     @loads N N ..     the numbers of the loads and saves that fail, counted over all calls of the case
//!     @fronts NAME      behind the calls, each front of what this file holds then is executed: 0 bytes, 1 byte, and so on
//!     @output N M       the write of this number to the output fails after M bytes, in each call
//!     @note N M         the write of this number to the notes fails after M bytes, in each call
//!     @room N           the output and the notes take so many bytes each, in place of 1,000
//!     @last N           of each output the last N lines are told, in place of all
//!     @workers N        the calls are made with so many workers, in place of 1
//!     @tokens N         no call: the source is a file of this number, and its tokens are told
//!
//! There are the files of these sources and no others. What a call left of its input is told too.
use crate::fronts::tell_fronts;
use crate::telling::{
    last_lines, tell_bytes, tell_end, tell_left, tell_loads, tell_stack, tell_tokens,
};
use fac_base::{Bytes, Duplicate, List, Memory, Text};
use fac_io::{Files, MemFiles, MemSink, MemSource, Sink, Source};
use fac_lines::Channels;
use fac_par::{NoGate, Workers};
use fac_tool::{Ended, factor_top};
use std::alloc::Global;
use std::mem;
use std::thread::Threads;

// The most bytes that a sink takes, where no line says otherwise.
const ROOM: u64 = 1000;

/// A call of the tool.
#[derive(Drop)]
pub struct Case {
    words: Vec<String>,
    // The words of the calls that come then.
    others: Vec<Vec<String>>,
    input: Bytes,
    reads: List<u64>,
    // The files before the one whose lines come, and the name and the source of that one.
    held: List<(Text, Bytes)>,
    name: Text,
    source: Bytes,
    loads: List<u64>,
    // The file whose fronts are executed.
    fronts: Option<Text>,
    output: List<(u64, u64)>,
    note: List<(u64, u64)>,
    room: u64,
    // How many lines of each output are told, the last ones. None where all are.
    last: Option<u32>,
    // How many workers the calls have.
    workers: u32,
    // The number of the file whose tokens are told.
    tokens: Option<u32>,
}

// The words of a text, with a space between two.
fn split(alloc: Global, text: &str) -> Result<Vec<String>, Memory> {
    let mut words = Vec::new(alloc);
    for word in text.split(' ') {
        let word = if word == "''" { "" } else { word };
        words.push(String::from_str(alloc, word)?)?;
    }
    Ok(words)
}

// Puts a pair of numbers behind others. False where the text isn't two numbers.
fn push_pair(pairs: &mut List<(u64, u64)>, text: &str) -> Result<bool, Memory> {
    let Some((first, second)) = text.split_once(' ') else {
        return Ok(false);
    };
    let (Ok(first), Ok(second)) = (first.parse::<u64>(), second.parse::<u64>()) else {
        return Ok(false);
    };
    pairs.push((first, second))?;
    Ok(true)
}

// Puts numbers behind others. False where the text isn't numbers.
fn push_numbers(numbers: &mut List<u64>, text: &str) -> Result<bool, Memory> {
    for word in text.split(' ') {
        let Ok(number) = word.parse::<u64>() else {
            return Ok(false);
        };
        numbers.push(number)?;
    }
    Ok(true)
}

// Puts bytes behind others. False where the text isn't numbers of bytes.
fn push_bytes(bytes: &mut Bytes, text: &str) -> Result<bool, Memory> {
    for word in text.split(' ') {
        let Ok(byte) = word.parse::<u8>() else {
            return Ok(false);
        };
        bytes.push(byte)?;
    }
    Ok(true)
}

// Puts a text behind bytes, as often as the number before it says. False where there is none.
fn push_times(bytes: &mut Bytes, text: &str) -> Result<bool, Memory> {
    let Some((count, part)) = text.split_once(' ') else {
        return Ok(false);
    };
    let Ok(count) = count.parse::<u32>() else {
        return Ok(false);
    };
    for _ in 0..count {
        bytes.extend(part.as_bytes())?;
    }
    Ok(true)
}

// Makes the call.
fn call<R: Threads + Sync, F: Files, S: Source, K: Sink, N: Sink>(
    workers: &Workers<'_, R, NoGate>,
    words: &[String],
    files: &mut F,
    channels: &mut Channels<S, K>,
    note: &mut N,
) -> Ended {
    factor_top(workers, words, files, channels, note)
}

// Tells how a call ended, before which so much was asked of the files.
fn tell_call(
    alloc: Global,
    told: &mut Text,
    ended: &Ended,
    files: &MemFiles,
    before: usize,
    output: &[u8],
    note: &MemSink,
) -> Result<(), Memory> {
    tell_end(alloc, told, ended.status, ended.ticks)?;
    tell_loads(told, files.asked().as_slice(), before)?;
    if ended.refusal.is_some() {
        told.push_str(", refused")?;
    }
    if let Some(texts) = &ended.stack {
        tell_stack(told, texts.as_slice())?;
    }
    told.push_str("\n")?;
    tell_bytes(told, "  writes ", output)?;
    tell_bytes(told, "  notes ", note.taken())
}

// Makes the call, and tells how it ended.
fn called<R: Threads + Sync>(
    workers: &Workers<'_, R, NoGate>,
    told: &mut Text,
    words: &[String],
    files: &mut MemFiles,
    channels: &mut Channels<MemSource, MemSink>,
    note: &mut MemSink,
    last: Option<u32>,
) -> Result<(), Memory> {
    let before = files.asked().as_slice().len();
    let ended = call(workers, words, files, channels, note);
    let output = last_lines(channels.output().taken(), last);
    tell_call(workers.alloc, told, &ended, files, before, output, note)?;
    tell_left(workers.alloc, told, channels)
}

// A sink of this room whose listed writes fail.
fn sink(alloc: Global, room: u64, fails: &List<(u64, u64)>) -> Result<MemSink, Memory> {
    MemSink::new(alloc, room, fails.copy(alloc)?)
}

impl Case {
    /// The call of `run a`, without faults, on an empty file.
    pub fn new(alloc: Global) -> Result<Self, Memory> {
        Ok(Case {
            words: split(alloc, "run a")?,
            others: Vec::new(alloc),
            input: Bytes::new(alloc),
            reads: List::new(alloc),
            held: List::new(alloc),
            name: Text::from_str(alloc, "a")?,
            source: Bytes::new(alloc),
            loads: List::new(alloc),
            fronts: None,
            output: List::new(alloc),
            note: List::new(alloc),
            room: ROOM,
            last: None,
            workers: 1,
            tokens: None,
        })
    }

    /// Takes a line of the case. False where it is none.
    pub fn add(&mut self, alloc: Global, line: &str) -> Result<bool, Memory> {
        let Some(set) = line.strip_prefix("@") else {
            self.source.extend(line.as_bytes())?;
            self.source.push(b'\n')?;
            return Ok(true);
        };
        match set.split_once(' ') {
            Some((name, text)) => self.set(alloc, name, text),
            None if set == "words" => {
                self.words = Vec::new(alloc);
                Ok(true)
            }
            None if set == "input" => {
                self.input.push(b'\n')?;
                Ok(true)
            }
            None => Ok(false),
        }
    }

    // Takes what a line with this name says.
    fn set(&mut self, alloc: Global, name: &str, text: &str) -> Result<bool, Memory> {
        match name {
            "about" => Ok(true),
            "file" => {
                self.begin_file(alloc, text)?;
                Ok(true)
            }
            "times" => push_times(&mut self.source, text),
            "bytes" => push_bytes(&mut self.source, text),
            "words" => {
                self.words = split(alloc, text)?;
                Ok(true)
            }
            "then" => {
                self.others.push(split(alloc, text)?)?;
                Ok(true)
            }
            "input" => {
                self.input.extend(text.as_bytes())?;
                self.input.push(b'\n')?;
                Ok(true)
            }
            "part" => {
                self.input.extend(text.as_bytes())?;
                Ok(true)
            }
            "repeat" => push_times(&mut self.input, text),
            "codes" => push_bytes(&mut self.input, text),
            _ => self.set_rest(alloc, name, text),
        }
    }

    // Takes what a line with this name says of what fails, and of what is told.
    fn set_rest(&mut self, alloc: Global, name: &str, text: &str) -> Result<bool, Memory> {
        match name {
            "reads" => push_numbers(&mut self.reads, text),
            "loads" => push_numbers(&mut self.loads, text),
            "fronts" => {
                self.fronts = Some(Text::from_str(alloc, text)?);
                Ok(true)
            }
            "output" => push_pair(&mut self.output, text),
            "note" => push_pair(&mut self.note, text),
            "room" => match text.parse::<u64>() {
                Ok(room) => {
                    self.room = room;
                    Ok(true)
                }
                Err(_) => Ok(false),
            },
            "last" => {
                self.last = text.parse::<u32>().ok();
                Ok(self.last.is_some())
            }
            "workers" => match text.parse::<u32>() {
                Ok(workers) => {
                    self.workers = workers;
                    Ok(true)
                }
                Err(_) => Ok(false),
            },
            "tokens" => {
                self.tokens = text.parse::<u32>().ok();
                Ok(self.tokens.is_some())
            }
            _ => Ok(false),
        }
    }

    /// What the case comes to. Its sources are taken. The threads of its workers are made by this.
    pub fn told<R: Threads + Sync>(&mut self, threads: &R, alloc: Global) -> Result<Text, Memory> {
        if let Some(file) = self.tokens {
            return tell_tokens(alloc, file, self.source.as_slice());
        }
        let workers = Workers {
            threads,
            alloc,
            count: self.workers,
            gate: &NoGate,
        };
        self.called(&workers)
    }

    // Ends the file whose lines came, and begins one with this name.
    fn begin_file(&mut self, alloc: Global, name: &str) -> Result<(), Memory> {
        let next = Text::from_str(alloc, name)?;
        let name = mem::replace(&mut self.name, next);
        let source = mem::replace(&mut self.source, Bytes::new(alloc));
        self.held.push((name, source))
    }

    // The files, and the loads that fail.
    fn files(&mut self, alloc: Global) -> Result<MemFiles, Memory> {
        self.begin_file(alloc, "")?;
        let held = mem::replace(&mut self.held, List::new(alloc));
        match self.loads.copy(alloc) {
            Ok(loads) => Ok(MemFiles::new(alloc, held, loads)),
            Err(Memory) => Err(Memory),
        }
    }

    // Makes one of the calls, and tells how it ended.
    fn call<R: Threads + Sync>(
        &self,
        workers: &Workers<'_, R, NoGate>,
        told: &mut Text,
        words: &[String],
        files: &mut MemFiles,
    ) -> Result<(), Memory> {
        let alloc = workers.alloc;
        let source = MemSource::new(self.input.copy(alloc)?, self.reads.copy(alloc)?);
        let output = sink(alloc, self.room, &self.output)?;
        let mut channels = Channels::new(alloc, source, output);
        let mut note = sink(alloc, self.room, &self.note)?;
        called(
            workers,
            told,
            words,
            files,
            &mut channels,
            &mut note,
            self.last,
        )
    }

    // Makes the calls, and tells how each ended.
    fn called<R: Threads + Sync>(
        &mut self,
        workers: &Workers<'_, R, NoGate>,
    ) -> Result<Text, Memory> {
        let alloc = workers.alloc;
        let mut files = self.files(alloc)?;
        let mut told = Text::new(alloc);
        self.call(workers, &mut told, self.words.as_slice(), &mut files)?;
        for words in self.others.as_slice() {
            self.call(workers, &mut told, words.as_slice(), &mut files)?;
        }
        if let Some(name) = &self.fronts {
            tell_fronts(workers, &mut told, files.held(name.as_str()))?;
        }
        Ok(told)
    }
}
