//! The bytes of a command's files, or of its image.
ghost use Rattle.std.specs.Prelude.{◌≡◌, ◌≤◌, ◌+◌, length, map, string_bytes};
ghost use Rattle.std.specs.List.{concat};
ghost use Rattle.fac_tool.specs.SeenObjects.{files_seen};
ghost use Rattle.fac_tool.specs.Loads.{LoadsAll};
ghost use Rattle.fac_tool.specs.inner.StepEnds.{LoadsOne, LoadsOnly, LoadsNext};

use crate::ended::{bare, reported};
use crate::{Ended, Report};
use fac_base::limits::MOST_SOURCE_BYTES;
use fac_base::{Bytes, List, Text};
use fac_io::{Files, LoadFault};
use fac_notes::status::NO_MEMORY;
use std::alloc::Global;

// The bytes of the file of this name, of which there may be so many, where the limit of those of all files is told.
fn load<F: Files>(
    alloc: Global,
    name: &str,
    room: u64,
    limit: u64,
    files: &mut F,
) -> Result<Bytes, Ended>
    ensures count { F.faults files.old ≤ F.faults files.new }
    ensures loads { LoadsOne name.now room limit (files_seen F.held F.asked F.faults files.old files.new) result }
{
    let Ok(file) = Text::from_str(alloc, name) else {
        return Err(bare(NO_MEMORY, 0));
    };
    match files.load(alloc, name, room) {
        Err(LoadFault::Memory) => Err(bare(NO_MEMORY, 0)),
        Err(LoadFault::Failed) => Err(reported(0, Report::File { name: file })),
        Err(LoadFault::TooLong) => Err(reported(0, Report::TooLong { name: file, limit })),
        Ok(text) => Ok(text),
    }
}

/// The bytes of the one file of this name, which are no more than the limit.
pub fn load_one<F: Files>(
    alloc: Global,
    name: &str,
    limit: u64,
    files: &mut F,
) -> Result<Bytes, Ended>
    ensures count { F.faults files.old ≤ F.faults files.new }
    ensures loads { LoadsOnly name.now limit (files_seen F.held F.asked F.faults files.old files.new) result }
{
    load(alloc, name, limit, limit, files)
}

// Puts the bytes of the file of this name behind others, and answers how many more there may be.
fn load_next<F: Files>(
    alloc: Global,
    name: &str,
    room: u64,
    files: &mut F,
    texts: &mut List<Bytes>,
) -> Result<u64, Ended>
    ensures count { F.faults files.old ≤ F.faults files.new }
    ensures loads { LoadsNext name.now room (files_seen F.held F.asked F.faults files.old files.new) texts.old texts.new result }
{
    let text = load(alloc, name, room, MOST_SOURCE_BYTES, files)?;
    let left = room - text.len() as u64;
    match texts.push(text) {
        Ok(()) => Ok(left),
        Err(_) => Err(bare(NO_MEMORY, 0)),
    }
}

/// The bytes of the files of these names, in order. The limit is that of all of them together.
pub fn load_all<F: Files>(
    alloc: Global,
    names: &[String],
    files: &mut F,
) -> Result<List<Bytes>, Ended>
    ensures count { F.faults files.old ≤ F.faults files.new }
    ensures loads { LoadsAll (map string_bytes names.now) (files_seen F.held F.asked F.faults files.old files.new) result }
{
    let mut texts = List::new(alloc);
    let mut room = MOST_SOURCE_BYTES;
    for name in names {
        match load_next(alloc, name.as_str(), room, files, &mut texts) {
            Ok(left) => room = left,
            Err(ended) => return Err(ended),
        }
    }
    Ok(texts)
}
