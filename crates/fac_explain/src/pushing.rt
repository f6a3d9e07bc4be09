//! Adding texts, numbers and names to an explanation.
ghost use Rattle.std.specs.Prelude.{◌≡◌, ◌++◌, decimal, replicate, OnOk};
ghost use Rattle.fac_explain.specs.Pictures.{plain, plain_byte, told};
ghost use Rattle.fac_explain.specs.Sentences.{around, counted, values};

use fac_base::{Bytes, Memory};
use itoa::Buffer;

/// Adds a text.
pub fn say(out: &mut Bytes, text: &str) -> Result<(), Memory>
    ensures { OnOk result (out.new ≡ out.old ++ text.now) }
{
    out.extend(text.as_bytes())
}

/// Adds a number in decimal digits.
pub fn push_number(out: &mut Bytes, number: u64) -> Result<(), Memory>
    ensures { OnOk result (out.new ≡ out.old ++ decimal number) }
{
    let mut buffer = Buffer::new();
    say(out, buffer.format(number))
}

// A byte, with another one in place of a control character.
fn plain_of(instead: u8, byte: u8) -> u8
    ensures { result ≡ plain_byte instead byte }
{
    if byte >= 32 && byte != 127 {
        byte
    } else {
        instead
    }
}

/// Adds a text, with this byte in place of each control character.
pub fn push_plain(out: &mut Bytes, instead: u8, text: &[u8]) -> Result<(), Memory>
    ensures { OnOk result (out.new ≡ out.old ++ plain instead text.now) }
{
    for byte in text {
        out.push(plain_of(instead, *byte))?;
    }
    Ok(())
}

/// Adds a name or a token, with a question mark for each control character.
pub fn push_told(out: &mut Bytes, text: &[u8]) -> Result<(), Memory>
    ensures { OnOk result (out.new ≡ out.old ++ told text.now) }
{
    push_plain(out, b'?', text)
}

/// Adds a byte so many times.
pub fn push_times(out: &mut Bytes, byte: u8, count: usize) -> Result<(), Memory>
    ensures { OnOk result (out.new ≡ out.old ++ replicate count byte) }
{
    let mut pushed = 0;
    while pushed < count {
        out.push(byte)?;
        pushed += 1;
    }
    Ok(())
}

/// Adds a name between two texts.
pub fn push_around(out: &mut Bytes, before: &str, name: &[u8], behind: &str) -> Result<(), Memory>
    ensures { OnOk result (out.new ≡ out.old ++ around before.now name.now behind.now) }
{
    say(out, before)?;
    out.extend(name)?;
    say(out, behind)
}

/// Adds a number of things, which are called so.
pub fn push_counted(out: &mut Bytes, count: u32, thing: &str) -> Result<(), Memory>
    ensures { OnOk result (out.new ≡ out.old ++ counted count thing.now) }
{
    if count == 0 {
        say(out, "no ")?;
        say(out, thing)?;
        return say(out, "s");
    }
    if count == 1 {
        say(out, "1 ")?;
        return say(out, thing);
    }
    push_number(out, u64::from(count))?;
    say(out, " ")?;
    say(out, thing)?;
    say(out, "s")
}

/// Adds a number of values.
pub fn push_values(out: &mut Bytes, count: u32) -> Result<(), Memory>
    ensures { OnOk result (out.new ≡ out.old ++ values count) }
{
    push_counted(out, count, "value")
}
