//! The stack as it is written behind a phrase.
ghost use Rattle.std.specs.Prelude.{◌≡◌, ◌<◌, ◌++◌, codes, length, string_bytes, IfOk, OnErr, OnOk};
ghost use Rattle.fac_lines.specs.Channels.{TakesPiece};
ghost use Rattle.fac_notes.specs.Told.{stack_lines as lines_of_stack};
ghost use Rattle.fac_listener.specs.StackTexts.{WritesStack, lines_with_header};

use fac_base::{List, Memory, Text};
use fac_io::{Failed, Sink, Source};
use fac_lines::Channels;
use std::alloc::Global;

// Adds a text as a line.
fn add_line(lines: &mut String, text: &str) -> Result<(), Memory>
    ensures { OnOk result (string_bytes lines.new ≡ string_bytes lines.old ++ (text.now ++ codes "\n")) }
{
    lines.push_str(text)?;
    lines.push_str("\n")?;
    Ok(())
}

// Adds texts as lines.
fn add_lines(lines: &mut String, texts: &[Text]) -> Result<(), Memory>
    ensures { OnOk result (string_bytes lines.new ≡ string_bytes lines.old ++ lines_of_stack texts.now) }
{
    for text in texts {
        add_line(lines, text.as_str())?;
    }
    Ok(())
}

// The lines of texts with the header, or nothing where there are none.
fn lines(alloc: Global, texts: &List<Text>) -> Result<Text, Memory>
    ensures { IfOk result (λ lines. lines ≡ lines_with_header texts.now) }
{
    let mut lines = String::new(alloc);
    if texts.as_slice().is_empty() {
        return Ok(Text::from_string(lines));
    }
    lines.push_str("--- Data stack:\n")?;
    add_lines(&mut lines, texts.as_slice())?;
    Ok(Text::from_string(lines))
}

/// Why the stack wasn't written.
#[derive(Clone, Copy, Debug, PartialEq, Eq)]
pub enum Unwritten {
    /// The write failed.
    Failed,
    /// Memory was wanted.
    Memory,
}

// Writes bytes in one write, or nothing where there are none.
fn write_all<S: Source, K: Sink>(channels: &mut Channels<S, K>, bytes: &[u8]) -> Result<(), Failed>
    ensures takes { TakesPiece channels.old channels.new bytes.now result }
    ensures some { OnErr result (0 < length bytes.now) }
{
    if bytes.is_empty() {
        return Ok(());
    }
    channels.write(bytes)
}

/// Writes texts as lines behind the header, in one write, or nothing where there are none.
pub fn write_stack<S: Source, K: Sink>(
    alloc: Global,
    texts: &List<Text>,
    channels: &mut Channels<S, K>,
) -> Result<(), Unwritten>
    ensures { WritesStack (lines_with_header texts.now) channels.old channels.new result }
{
    match lines(alloc, texts) {
        Err(_) => Err(Unwritten::Memory),
        Ok(lines) => match write_all(channels, lines.as_bytes()) {
            Ok(()) => Ok(()),
            Err(_) => Err(Unwritten::Failed),
        },
    }
}
