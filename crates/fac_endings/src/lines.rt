//! The parents from which classes have slots, in a table that grows with the classes: each line is taken from that of the parent. A parent that comes
//! behind its heir leaves the line unknown, and then the chain of parents is climbed.
ghost use Rattle.std.specs.Prelude.{◌≡◌, ◌<◌, ◌≤◌, ◌^◌, ◌++◌, [], length, slice_get, IfOk, OnOk};
ghost use Rattle.std.specs.Option.{option_copied};
ghost use Rattle.fac_endings.specs.ClassTable.{slots_at};
ghost use Rattle.fac_endings.specs.LastRefusals.{most_slots};
ghost use Rattle.fac_endings.specs.inner.Lines.{AreLines, AreSettled, GoesUnder, IsLine, IsSettled, and_bearer, flag_in, line_at};

use crate::lookup::{parent_of, slots_at};
use fac_base::limits::MOST_SLOTS;
use fac_base::{List, Memory};
use fac_lang::ClassDef;
use std::alloc::Global;

/// The line of a class, where it is known.
pub fn line_at(lines: &[Option<List<u32>>], class: u32) -> Option<&List<u32>>
    ensures { option_copied result ≡ line_at lines.now class }
{
    match lines.get(class as usize) {
        Some(line) => match line {
            Some(found) => Some(found),
            None => None,
        },
        None => None,
    }
}

// The list of a class that has slots, and else of none, with room for so many numbers behind it.
fn bearer(alloc: Global, classes: &[ClassDef], class: u32, room: u32) -> Result<List<u32>, Memory>
    requires { room ≤ most_slots }
    ensures { IfOk result (λ line. line ≡ and_bearer (slots_at classes.now class) class []) }
{
    if slots_at(classes, class).is_empty() {
        return List::with_room(alloc, room);
    }
    let mut line = List::with_room(alloc, room + 1)?;
    line.push(class)?;
    Ok(line)
}

// Adds copies of numbers.
fn add_numbers(line: &mut List<u32>, more: &[u32]) -> Result<(), Memory>
    ensures { OnOk result (line.new ≡ line.old ++ more.now) }
{
    for number in more {
        line.push(*number)?;
    }
    Ok(())
}

// The line of a class with this parent, whose line is given. One that is longer than slots may be many isn't kept.
fn line_under(
    alloc: Global,
    classes: &[ClassDef],
    parent: u32,
    above: &List<u32>,
) -> Result<Option<List<u32>>, Memory>
    ensures { IfOk result (GoesUnder classes.now parent above.now) }
{
    let room = above.len();
    if room as u64 > MOST_SLOTS {
        return Ok(None);
    }
    let mut line = bearer(alloc, classes, parent, room)?;
    add_numbers(&mut line, above.as_slice())?;
    Ok(Some(line))
}

// The line of the next class of a table.
fn next_line(
    alloc: Global,
    classes: &[ClassDef],
    lines: &[Option<List<u32>>],
    class: u32,
) -> Result<Option<List<u32>>, Memory>
    requires { AreLines classes.now class lines.now }
    ensures { IfOk result (IsLine classes.now class) }
{
    match parent_of(classes, class) {
        Some(parent) => match line_at(lines, parent) {
            Some(above) => line_under(alloc, classes, parent, above),
            None => Ok(None),
        },
        None => Ok(Some(List::new(alloc))),
    }
}

/// The line of each class, where it is known.
pub fn lines_of(alloc: Global, classes: &[ClassDef]) -> Result<Vec<Option<List<u32>>>, Memory>
    requires { length classes.now < 2 ^ 32 }
    ensures { IfOk result (λ lines. AreLines classes.now (length classes.now) lines.items) }
{
    let mut lines = Vec::new(alloc);
    for class in 0..classes.len() as u32 {
        let line = next_line(alloc, classes, lines.as_slice(), class)?;
        lines.push(line)?;
    }
    Ok(lines)
}

/// Whether the flag of a class is up.
pub fn is_settled(flags: &[bool], class: u32) -> bool
    ensures { result ≡ flag_in (slice_get flags.now class) }
{
    match flags.get(class as usize) {
        Some(flag) => *flag,
        None => false,
    }
}

// Whether the next class has a line, by the flags of those before it.
fn settles(classes: &[ClassDef], flags: &[bool], class: u32) -> bool
    requires { AreSettled classes.now class flags.now }
    ensures { IsSettled classes.now class result }
{
    match parent_of(classes, class) {
        Some(parent) => is_settled(flags, parent),
        None => true,
    }
}

/// For each class whether it has a line.
pub fn settled(alloc: Global, classes: &[ClassDef]) -> Result<Vec<bool>, Memory>
    requires { length classes.now < 2 ^ 32 }
    ensures { IfOk result (λ flags. AreSettled classes.now (length classes.now) flags.items) }
{
    let mut flags = Vec::new(alloc);
    for class in 0..classes.len() as u32 {
        let flag = settles(classes, flags.as_slice(), class);
        flags.push(flag)?;
    }
    Ok(flags)
}
