//! Names as notes tell them: on one line, and with no orders for a terminal.
ghost use Rattle.std.specs.Prelude.{◌≡◌, ◌++◌, OnOk};
ghost use Rattle.std.specs.Char.{encode_utf8};
ghost use Rattle.fac_notes.specs.Visible.{visible as visible_text};

use fac_base::{Memory, Text};

// A character of a name as it is told.
#[tactic(auto, using(crate::proofs::VisibleLemmas::control_told, crate::proofs::VisibleLemmas::delete_told, crate::proofs::VisibleLemmas::others_told))]
fn told(c: char) -> char
    ensures { encode_utf8 result ≡ visible_text (encode_utf8 c) }
{
    if c < ' ' {
        return '?';
    }
    if c == '\x7f' {
        return '?';
    }
    c
}

// Adds a character.
fn push_char(line: &mut Text, c: char) -> Result<(), Memory>
    ensures { OnOk result (line.new ≡ line.old ++ encode_utf8 c) }
{
    let mut buffer = [0; 4];
    line.push_str(c.encode_utf8(&mut buffer))
}

// Adds a character of a name as it is told.
fn push_told(line: &mut Text, c: char) -> Result<(), Memory>
    ensures { OnOk result (line.new ≡ line.old ++ visible_text (encode_utf8 c)) }
{
    push_char(line, told(c))
}

/// Adds a name, with a question mark for each control character of ASCII.
pub fn push_visible(line: &mut Text, name: &str) -> Result<(), Memory>
    ensures { OnOk result (line.new ≡ line.old ++ visible_text name.now) }
{
    for c in name.chars() {
        push_told(line, c)?;
    }
    Ok(())
}
