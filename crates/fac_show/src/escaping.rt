//! Strings as they are printed.
ghost use Rattle.std.specs.Prelude.{◌≡◌, ◌∷◌, ◌++◌, [], string_bytes, MatchOption, codes};
ghost use Rattle.std.specs.Char.{encode_utf8};
ghost use Rattle.fac_lang.specs.Printed.{escaped_all};
ghost use Rattle.fac_show.specs.inner.Adding.{Adds};

use crate::ShowFault;
use crate::line::add;

// The escape of a character of a string, where it has one.
#[tactic(auto, using(crate::proofs::PrintedLemmas::unescaped))]
fn escape_of(c: char) -> Option<&'static str>
    ensures { MatchOption result (escaped_all (encode_utf8 c) ≡ encode_utf8 c) (λ text. text.now ≡ escaped_all (encode_utf8 c)) }
{
    match c {
        '\n' => Some("\\n"),
        '\t' => Some("\\t"),
        '\r' => Some("\\r"),
        '\\' => Some("\\\\"),
        '"' => Some("\\\""),
        _ => None,
    }
}

// Adds a character as it is.
fn add_char(line: &mut String, limit: usize, c: char) -> Result<(), ShowFault>
    ensures { Adds limit (string_bytes line.old) (encode_utf8 c) (string_bytes line.new) result }
{
    let mut buffer = [0; 4];
    add(line, limit, c.encode_utf8(&mut buffer))
}

// Adds a character of a string as it is printed.
fn add_escaped(line: &mut String, limit: usize, c: char) -> Result<(), ShowFault>
    ensures { Adds limit (string_bytes line.old) (escaped_all (encode_utf8 c)) (string_bytes line.new) result }
{
    match escape_of(c) {
        Some(text) => add(line, limit, text),
        None => add_char(line, limit, c),
    }
}

// Adds all characters of a string as they are printed.
fn add_all_escaped(line: &mut String, limit: usize, text: &str) -> Result<(), ShowFault>
    ensures { Adds limit (string_bytes line.old) (escaped_all text.now) (string_bytes line.new) result }
{
    for c in text.chars() {
        match add_escaped(line, limit, c) {
            Ok(()) => {}
            Err(fault) => return Err(fault),
        }
    }
    Ok(())
}

/// Adds a string in quotes.
pub fn add_quoted(line: &mut String, limit: usize, text: &str) -> Result<(), ShowFault>
    ensures { Adds limit (string_bytes line.old) (codes "\"" ++ escaped_all text.now ++ codes "\"") (string_bytes line.new) result }
{
    match add(line, limit, "\"") {
        Ok(()) => match add_all_escaped(line, limit, text) {
            Ok(()) => add(line, limit, "\""),
            Err(fault) => Err(fault),
        },
        Err(fault) => Err(fault),
    }
}
