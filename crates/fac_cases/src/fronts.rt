//! The fronts of an image, which are no images: each is executed, and is to be refused where it ends.
use fac_base::{Bytes, List, Memory, Text};
use fac_io::{MemFiles, MemSink, MemSource};
use fac_lines::Channels;
use fac_par::{NoGate, Workers};
use fac_tool::factor_top;
use std::alloc::Global;
use std::thread::Threads;

// The most bytes that a sink takes.
const ROOM: u64 = 100;

// A file `i` with these bytes.
fn files_with(alloc: Global, bytes: &[u8]) -> Result<MemFiles, Memory> {
    let mut held = List::new(alloc);
    let name = Text::from_str(alloc, "i")?;
    held.push((name, Bytes::from_slice(alloc, bytes)?))?;
    Ok(MemFiles::new(alloc, held, List::new(alloc)))
}

// The words `exec i`.
fn words_of(alloc: Global) -> Result<Vec<String>, Memory> {
    let mut words = Vec::new(alloc);
    words.push(String::from_str(alloc, "exec")?)?;
    words.push(String::from_str(alloc, "i")?)?;
    Ok(words)
}

// Whether a front is refused with the status of an image that is none, at its end, and nothing is written.
fn is_refused<R: Threads + Sync>(
    workers: &Workers<'_, R, NoGate>,
    words: &[String],
    front: &[u8],
) -> Result<bool, Memory> {
    let alloc = workers.alloc;
    let mut files = files_with(alloc, front)?;
    let source = MemSource::new(Bytes::new(alloc), List::new(alloc));
    let output = MemSink::new(alloc, ROOM, List::new(alloc))?;
    let mut channels = Channels::new(alloc, source, output);
    let mut note = MemSink::new(alloc, ROOM, List::new(alloc))?;
    let ended = factor_top(workers, words, &mut files, &mut channels, &mut note);
    let count = front.len();
    let wanted = format!(in alloc; "image: byte {count}\n")?;
    Ok(
        ended.status == 7
            && ended.ticks == 0
            && channels.output().taken().is_empty()
            && note.taken() == wanted.as_bytes(),
    )
}

// How many bytes the first front has that isn't refused so. None where each is.
fn first_taken<R: Threads + Sync>(
    workers: &Workers<'_, R, NoGate>,
    bytes: &[u8],
) -> Result<Option<usize>, Memory> {
    let words = words_of(workers.alloc)?;
    for count in 0..bytes.len() {
        let front = bytes.get(..count).unwrap_or(&[]);
        if !is_refused(workers, words.as_slice(), front)? {
            return Ok(Some(count));
        }
    }
    Ok(None)
}

/// Tells whether each front of these bytes is refused where it ends.
pub fn tell_fronts<R: Threads + Sync>(
    workers: &Workers<'_, R, NoGate>,
    told: &mut Text,
    bytes: Option<&[u8]>,
) -> Result<(), Memory> {
    let Some(bytes) = bytes else {
        return told.push_str("  no such file\n");
    };
    if bytes.is_empty() {
        return told.push_str("  no bytes\n");
    }
    match first_taken(workers, bytes)? {
        None => told.push_str("  each front is refused at its end\n"),
        Some(count) => {
            let line = format!(in workers.alloc;
                "  the first {count} bytes aren't refused at their end\n"
            )?;
            told.push_str(line.as_str())
        }
    }
}
