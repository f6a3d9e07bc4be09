//! The note of a report, a line.
ghost use Rattle.std.specs.Prelude.{◌≡◌, ◌++◌, IfOk, OnOk};
ghost use Rattle.fac_notes.specs.Notes.{line_of, file_name as name_of_file, place_text, value_text, words_text};
ghost use Rattle.fac_notes.specs.Notes.{bytes_line as bytes_line_of, syntax_line as syntax_line_of, name_line as name_line_of, check_line as check_line_of, error_line as error_line_of, file_line as file_line_of, trap_line as trap_line_of, too_long_line as too_long_line_of};

use crate::note_table::{byte_fault, name_kind, push_number, push_rule, why};
use crate::visible::push_visible;
use crate::word_names::push_name;
use crate::{ByteFault, Report};
use fac_base::{List, Memory, Name, Text};
use fac_check::Refusal;
use fac_code::TrapWhy;
use fac_lang::ErrorName;
use fac_parse::Why;
use fac_source::{NameFault, NameKind};
use std::alloc::Global;

// The name of a file by its number; nothing where no file has it.
fn file_name(names: &List<Text>, file: u32) -> &str
    ensures { result.now ≡ name_of_file names.now file }
{
    match names.get(file as usize) {
        Some(name) => name.as_str(),
        None => "",
    }
}

// Adds a file and the number of a token in it.
fn push_place(line: &mut Text, name: &str, token: u32) -> Result<(), Memory>
    ensures { OnOk result (line.new ≡ line.old ++ place_text name.now token) }
{
    push_visible(line, name)?;
    line.push_str(" token ")?;
    push_number(line, u64::from(token))?;
    line.push_str(": ")
}

// The line of a file with no tokens.
fn bytes_line(alloc: Global, name: &str, at: u64, fault: ByteFault) -> Result<Text, Memory>
    ensures { IfOk result (λ line. line ≡ bytes_line_of name.now at fault) }
{
    let mut line = Text::from_str(alloc, "syntax: ")?;
    push_visible(&mut line, name)?;
    line.push_str(" byte ")?;
    push_number(&mut line, at)?;
    line.push_str(": ")?;
    line.push_str(byte_fault(fault))?;
    line.push_str("\n")?;
    Ok(line)
}

// The line of a file with no tree.
fn syntax_line(alloc: Global, name: &str, at: u32, reason: Why) -> Result<Text, Memory>
    ensures { IfOk result (λ line. line ≡ syntax_line_of name.now at reason) }
{
    let mut line = Text::from_str(alloc, "syntax: ")?;
    push_place(&mut line, name, at)?;
    line.push_str(why(reason))?;
    line.push_str("\n")?;
    Ok(line)
}

// Adds the two words that an ambiguous name may be.
fn push_words(line: &mut Text, kind: &NameKind) -> Result<(), Memory>
    ensures { OnOk result (line.new ≡ line.old ++ words_text kind.now) }
{
    match kind {
        NameKind::Ambiguous(first, second) => {
            line.push_str(", ")?;
            push_name(line, first)?;
            line.push_str(" and ")?;
            push_name(line, second)
        }
        _ => Ok(()),
    }
}

// The line of a refused name.
fn name_line(alloc: Global, name: &str, fault: &NameFault) -> Result<Text, Memory>
    ensures { IfOk result (λ line. line ≡ name_line_of name.now fault.now) }
{
    let mut line = Text::from_str(alloc, "name: ")?;
    push_place(&mut line, name, fault.place.token)?;
    line.push_str(name_kind(&fault.kind))?;
    line.push_str(" ")?;
    push_visible(&mut line, fault.name.as_str())?;
    push_words(&mut line, &fault.kind)?;
    line.push_str("\n")?;
    Ok(line)
}

// The line of a checker's refusal.
fn check_line(alloc: Global, name: &str, refusal: Refusal, word: &str) -> Result<Text, Memory>
    ensures { IfOk result (λ line. line ≡ check_line_of name.now refusal word.now) }
{
    let mut line = Text::from_str(alloc, "check: ")?;
    line.push_str(word)?;
    line.push_str(", ")?;
    push_place(&mut line, name, refusal.broken.place.token)?;
    push_rule(&mut line, refusal.broken.rule)?;
    line.push_str("\n")?;
    Ok(line)
}

// Adds an offending value, where there is one.
fn push_value(line: &mut Text, value: &Option<Text>) -> Result<(), Memory>
    ensures { OnOk result (line.new ≡ line.old ++ value_text value.now) }
{
    match value {
        None => Ok(()),
        Some(text) => {
            line.push_str(": ")?;
            line.push_str(text.as_str())
        }
    }
}

// The line of a run error.
fn error_line(
    alloc: Global,
    name: ErrorName,
    word: &Name,
    value: &Option<Text>,
) -> Result<Text, Memory>
    ensures { IfOk result (λ line. line ≡ error_line_of name word.now value.now) }
{
    let mut line = Text::from_str(alloc, "error: ")?;
    line.push_str(name.text())?;
    line.push_str(" in ")?;
    push_name(&mut line, word)?;
    push_value(&mut line, value)?;
    line.push_str("\n")?;
    Ok(line)
}

// The line of a trap.
fn trap_line(alloc: Global, pc: u32, reason: TrapWhy) -> Result<Text, Memory>
    ensures { IfOk result (λ line. line ≡ trap_line_of pc reason) }
{
    let mut line = Text::from_str(alloc, "image: trap at ")?;
    push_number(&mut line, u64::from(pc))?;
    line.push_str(": ")?;
    line.push_str(reason.text())?;
    line.push_str("\n")?;
    Ok(line)
}

// The line of a file that was not read.
fn file_line(alloc: Global, name: &str) -> Result<Text, Memory>
    ensures { IfOk result (λ line. line ≡ file_line_of name.now) }
{
    let mut line = Text::from_str(alloc, "file: ")?;
    push_visible(&mut line, name)?;
    line.push_str("\n")?;
    Ok(line)
}

// The line of a file that is too long.
fn too_long_line(alloc: Global, name: &str, limit: u64) -> Result<Text, Memory>
    ensures { IfOk result (λ line. line ≡ too_long_line_of name.now limit) }
{
    let mut line = Text::from_str(alloc, "too long: ")?;
    push_visible(&mut line, name)?;
    line.push_str(", more than ")?;
    push_number(&mut line, limit)?;
    line.push_str(" bytes\n")?;
    Ok(line)
}

/// The line of a report, with its line break. `files` has the names of the files by their numbers. In names a control character of ASCII is told as a
/// question mark, so a name adds no line.
pub fn note(alloc: Global, report: &Report, files: &List<Text>) -> Result<Text, Memory>
    ensures { IfOk result (λ line. line ≡ line_of files.now report.now) }
{
    match report {
        Report::Bytes { file, at, why } => bytes_line(alloc, file_name(files, *file), *at, *why),
        Report::Syntax { file, at, why } => syntax_line(alloc, file_name(files, *file), *at, *why),
        Report::Name(fault) => name_line(alloc, file_name(files, fault.place.file), fault),
        Report::Check { refusal, word } => check_line(
            alloc,
            file_name(files, refusal.broken.place.file),
            *refusal,
            word.as_str(),
        ),
        Report::Error { name, word, value } => error_line(alloc, *name, word, value),
        Report::Spent { ticks } => Ok(Text::from_string(format!(in alloc;
            "spent: {ticks} ticks\n"
        )?)),
        Report::Image { at } => Ok(Text::from_string(format!(in alloc; "image: byte {at}\n")?)),
        Report::Trap { pc, why } => trap_line(alloc, *pc, *why),
        Report::File { name } => file_line(alloc, name.as_str()),
        Report::TooLong { name, limit } => too_long_line(alloc, name.as_str(), *limit),
    }
}
