//! What is written behind a run that is done: the lines of its stack, or a line that sums it up.
ghost use Rattle.std.specs.Prelude.{◌≡◌, ◌<◌, ◌++◌, codes, decimal, length, string_bytes, IfOk, OnErr, OnOk};
ghost use Rattle.fac_lines.specs.Channels.{IsUnread, TakesPiece};
ghost use Rattle.fac_notes.specs.Told.{stack_lines as lines_of_stack};
ghost use Rattle.fac_tool.specs.Answer.{summary_line as line_of_summary};
ghost use Rattle.fac_tool.specs.SeenObjects.{output_seen};
ghost use Rattle.fac_tool.specs.Answers.{TellsBy};
ghost use Rattle.fac_tool.specs.inner.WrittenBehind.{WritesBehind, behind_seen};
ghost use Rattle.fac_tool.specs.inner.StepEnds.{StatusCounts};

use crate::Ended;
use crate::ended::bare;
use fac_base::{List, Memory, Text};
use fac_io::{Failed, Sink, Source};
use fac_lines::Channels;
use fac_notes::status::{NO_MEMORY, WRITE_FAULT};
use itoa::Buffer;
use std::alloc::Global;

/// What is to be written behind a run that is done.
#[derive(Clone, Copy)]
pub enum Behind {
    /// Each value of the stack on a line, from the bottom to the top.
    Stack,
    /// A line that sums up the text that was run, which has so many words and bytes, and the run.
    Summary { words: u32, bytes: u64 },
}

// Adds a text as a line.
fn add_line(lines: &mut String, text: &str) -> Result<(), Memory>
    ensures { OnOk result (string_bytes lines.new ≡ string_bytes lines.old ++ (text.now ++ codes "\n")) }
{
    lines.push_str(text)?;
    lines.push_str("\n")?;
    Ok(())
}

// Texts as lines.
fn stack_lines(alloc: Global, texts: &List<Text>) -> Result<Text, Memory>
    ensures { IfOk result (λ lines. lines ≡ lines_of_stack texts.now) }
{
    let mut lines = String::new(alloc);
    for text in texts.as_slice() {
        add_line(&mut lines, text.as_str())?;
    }
    Ok(Text::from_string(lines))
}

// Adds a text and a number.
fn add_number(line: &mut String, text: &str, number: u64) -> Result<(), Memory>
    ensures { OnOk result (string_bytes line.new ≡ string_bytes line.old ++ text.now ++ decimal number) }
{
    let mut buffer = Buffer::new();
    line.push_str(text)?;
    line.push_str(buffer.format(number))?;
    Ok(())
}

// The line that sums up a text of so many words and bytes, and its run.
fn summary_line(alloc: Global, words: u32, bytes: u64, ticks: u64) -> Result<Text, Memory>
    ensures { IfOk result (λ line. line ≡ line_of_summary words bytes ticks) }
{
    let mut line = String::new(alloc);
    add_number(&mut line, "words ", u64::from(words))?;
    add_number(&mut line, " bytes ", bytes)?;
    add_number(&mut line, " ticks ", ticks)?;
    line.push_str("\n")?;
    Ok(Text::from_string(line))
}

// What is to be written behind a run that is done with so many ticks and a stack of these texts.
fn lines(alloc: Global, behind: Behind, ticks: u64, texts: &List<Text>) -> Result<Text, Memory>
    ensures { IfOk result (λ lines. lines ≡ behind_seen behind ticks texts.now) }
{
    match behind {
        Behind::Stack => stack_lines(alloc, texts),
        Behind::Summary { words, bytes } => summary_line(alloc, words, bytes, ticks),
    }
}

// Writes lines in one write, or nothing where they are empty.
#[tactic(auto, using(crate::proofs::NoteLemmas::wrote_no_lines))]
fn write_lines<S: Source, K: Sink>(
    channels: &mut Channels<S, K>,
    lines: &[u8],
) -> Result<(), Failed>
    ensures took { TakesPiece channels.old channels.new lines.now result }
    ensures some { OnErr result (0 < length lines.now) }
{
    if lines.is_empty() {
        return Ok(());
    }
    channels.write(lines)
}

// Tells an ending by these lines, in one write, or by none where they are empty.
fn write_by<S: Source, K: Sink>(
    lines: &[u8],
    reached: Ended,
    channels: &mut Channels<S, K>,
) -> Ended
    ensures told { TellsBy lines.now reached (output_seen channels.old channels.new) result }
    ensures unread { IsUnread channels.old channels.new }
    ensures counts { StatusCounts channels.old channels.new result.status }
{
    let ticks = reached.ticks;
    match write_lines(channels, lines) {
        Ok(()) => reached,
        Err(_) => bare(WRITE_FAULT, ticks),
    }
}

/// Writes what is to be written behind a run that ended so, in one write, or nothing where it is empty or the run isn't done.
pub fn write_behind<S: Source, K: Sink>(
    alloc: Global,
    behind: Behind,
    ended: Ended,
    channels: &mut Channels<S, K>,
) -> Ended
    ensures writes { WritesBehind (behind_seen behind) ended (output_seen channels.old channels.new) result }
    ensures unread { IsUnread channels.old channels.new }
    ensures counts { StatusCounts channels.old channels.new result.status }
{
    let ticks = ended.ticks;
    match &ended.stack {
        None => ended,
        Some(texts) => match lines(alloc, behind, ticks, texts) {
            Err(_) => bare(NO_MEMORY, ticks),
            Ok(lines) => write_by(lines.as_bytes(), ended, channels),
        },
    }
}
