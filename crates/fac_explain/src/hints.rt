//! What was meant by a name that isn't found: which vocabularies hold a word of it, or which name is near.
ghost use Rattle.std.specs.Prelude.{◌≡◌, ◌++◌, codes, OnOk};
ghost use Rattle.std.specs.Option.{option_copied};
ghost use Rattle.fac_explain.specs.Sentences.{cure, held_in, hint, meant, meant_sentence, more_homes, near_sentence};

use crate::pushing::{push_around, push_told, say};
use fac_base::{Bytes, Memory, Text};

// Adds more vocabularies.
fn push_more(out: &mut Bytes, homes: &[Text]) -> Result<(), Memory>
    ensures { OnOk result (out.new ≡ out.old ++ more_homes homes.now) }
{
    for home in homes {
        push_next(out, home)?;
    }
    Ok(())
}

// Adds one more.
fn push_next(out: &mut Bytes, home: &Text) -> Result<(), Memory>
    ensures { OnOk result (out.new ≡ out.old ++ (codes ", " ++ home.now)) }
{
    say(out, ", ")?;
    say(out, home.as_str())
}

// Adds what is to be added to `USING:`.
fn push_cure(out: &mut Bytes, home: &Text, others: &[Text]) -> Result<(), Memory>
    ensures { OnOk result (out.new ≡ out.old ++ cure home.now others.now) }
{
    match others {
        [] => push_around(
            out,
            ". Add ",
            home.as_bytes(),
            " to USING: before this place.",
        ),
        [_, ..] => say(out, ". Add one of them to USING: before this place."),
    }
}

// Adds in which vocabularies a word is.
fn push_held_in(out: &mut Bytes, home: &Text, others: &[Text]) -> Result<(), Memory>
    ensures { OnOk result (out.new ≡ out.old ++ held_in home.now others.now) }
{
    say(out, "\nA word of this name is in ")?;
    say(out, home.as_str())?;
    push_more(out, others)
}

/// Adds which vocabularies hold a word of a name, where any does.
pub fn push_hint(out: &mut Bytes, homes: &[Text]) -> Result<(), Memory>
    ensures { OnOk result (out.new ≡ out.old ++ hint homes.now) }
{
    match homes {
        [] => Ok(()),
        [first, rest @ ..] => {
            push_held_in(out, first, rest)?;
            push_cure(out, first, rest)
        }
    }
}

// Adds which name is near.
fn push_near(out: &mut Bytes, near: &[u8]) -> Result<(), Memory>
    ensures { OnOk result (out.new ≡ out.old ++ near_sentence near.now) }
{
    say(out, "\nThe nearest name is ")?;
    push_told(out, near)?;
    say(out, ".")
}

// Adds which name was meant, or that it was this one.
fn push_meant_sentence(out: &mut Bytes, is_same: bool, near: &[u8]) -> Result<(), Memory>
    ensures { OnOk result (out.new ≡ out.old ++ meant_sentence is_same near.now) }
{
    if is_same {
        return say(
            out,
            "\nA word of this name is defined, but not before this place in a vocabulary that is used here.",
        );
    }
    push_near(out, near)
}

/// Adds which name was meant by one that isn't found, where that is known.
pub fn push_meant(out: &mut Bytes, name: &[u8], near: Option<&[u8]>) -> Result<(), Memory>
    ensures { OnOk result (out.new ≡ out.old ++ meant name.now (option_copied near.entry)) }
{
    match near {
        None => Ok(()),
        Some(near) => push_meant_sentence(out, near == name, near),
    }
}
