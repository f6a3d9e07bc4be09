//! Integers as decimal texts.
ghost use Rattle.std.specs.Prelude.{◌≡◌, ◌++◌, OnOk, OnErr};
ghost use Rattle.std.specs.Fmt.{signed_decimal};

use fac_base::{Memory, Text};
use itoa::Buffer;

/// Adds the decimal digits of an integer at the end of a text, with a `-` before those of a negative one. Want of memory is the one
/// error, and leaves the text as it was.
pub fn write_int(n: i128, to: &mut Text) -> Result<(), Memory>
    ensures ok { OnOk result (to.new ≡ to.old ++ signed_decimal n) }
    ensures err { OnErr result (to.new ≡ to.old) }
{
    let mut buffer = Buffer::new();
    to.push_str(buffer.format(n))
}
