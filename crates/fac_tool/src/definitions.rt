//! The definitions of a command's files, and the line that tells how many there are.
ghost use Rattle.std.specs.Prelude.{◌≡◌, ℕ, List, IfOk};
ghost use Rattle.std.specs.List.{count_by};
ghost use Rattle.fac_lines.specs.Channels.{IsUnread};
ghost use Rattle.fac_tool.specs.Answer.{checked_answer, checked_line as line_of_checked, is_definition as is_defined};
ghost use Rattle.fac_tool.specs.Ends.{EndsAs, idle};
ghost use Rattle.fac_tool.specs.SeenObjects.{output_seen, InputSeen};
ghost use Rattle.fac_tool.specs.inner.StepEnds.{StatusCounts};

use crate::Ended;
use crate::ended::bare;
use fac_base::{List, Memory, Text};
use fac_io::{Sink, Source};
use fac_lines::Channels;
use fac_notes::status::{NO_MEMORY, SUCCESS, WRITE_FAULT};
use fac_source::{Form, has_phrase};
use std::alloc::Global;

// Whether a form defines a word that has a phrase.
fn is_definition(form: &Form) -> bool
    ensures { result ≡ is_defined form.now }
{
    match form {
        Form::Row { kind, .. } => has_phrase(*kind),
        Form::Items(_) => false,
    }
}

/// How many of the forms are definitions.
pub fn definitions_of(forms: &List<Form>) -> u64
    ensures { result ≡ count_by is_defined forms.now }
{
    let mut count = 0u64;
    for form in forms.as_slice() {
        if is_definition(form) {
            count += 1;
        }
    }
    count
}

// The line that tells so many definitions.
fn checked_line(alloc: Global, definitions: u64) -> Result<Text, Memory>
    ensures { IfOk result (λ line. line ≡ line_of_checked definitions) }
{
    let line = format!(in alloc; "checked {definitions} definitions\n")?;
    Ok(Text::from_string(line))
}

/// Tells that files with so many definitions were checked, in one write.
pub fn tell_checked<S: Source, K: Sink>(
    alloc: Global,
    definitions: u64,
    channels: &mut Channels<S, K>,
) -> Ended
    ensures ends { (input : List ℕ) (seen : InputSeen) → EndsAs (checked_answer definitions input) idle (output_seen channels.old channels.new) seen input result }
    ensures unread { IsUnread channels.old channels.new }
    ensures counts { StatusCounts channels.old channels.new result.status }
{
    match checked_line(alloc, definitions) {
        Err(_) => bare(NO_MEMORY, 0),
        Ok(line) => match channels.write(line.as_bytes()) {
            Ok(()) => bare(SUCCESS, 0),
            Err(_) => bare(WRITE_FAULT, 0),
        },
    }
}
