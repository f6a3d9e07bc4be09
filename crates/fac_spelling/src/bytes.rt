//! Single bytes, and bytes that are fixed.
ghost use Rattle.std.specs.Prelude.{◌≡◌, ◌++◌, OnOk};
ghost use Rattle.fac_spelling.specs.Numbers.{in_range};
ghost use Rattle.fac_spelling.specs.Bytes.{byte, fixed};
ghost use Rattle.fac_spelling.specs.Reads.{Gives, NoMemory};

use crate::ReadFault;
use fac_base::{Bytes, Memory};

/// The byte at the front, from `low` to `high`, and the bytes behind it.
pub fn read_byte(bytes: &[u8], low: u8, high: u8) -> Result<(u8, &[u8]), ReadFault>
    ensures exact { Gives (λ x. (x.0, x.1.now)) result ((byte (in_range low high)).read bytes.now) }
    ensures plain { NoMemory result }
{
    match bytes {
        [] => Err(ReadFault::Refused { left: 0 }),
        [byte, rest @ ..] => {
            if low <= *byte && *byte <= high {
                Ok((*byte, rest))
            } else {
                Err(ReadFault::Refused { left: bytes.len() })
            }
        }
    }
}

/// Goes past exactly these bytes at the front, and gives the bytes behind them.
pub fn read_fixed<'a>(bytes: &'a [u8], expected: &[u8]) -> Result<&'a [u8], ReadFault>
    ensures exact { Gives (λ rest. (expected.now, rest.now)) result ((fixed expected.now).read bytes.now) }
    ensures plain { NoMemory result }
{
    let mut rest = bytes;
    for byte in expected {
        let (_, after) = read_byte(rest, *byte, *byte)?;
        rest = after;
    }
    Ok(rest)
}

/// Adds bytes that are fixed. Want of memory is the one error.
#[tactic(auto, using(crate::proofs::ByteLaws::fixed_spell))]
pub fn write_fixed(expected: &[u8], out: &mut Bytes) -> Result<(), Memory>
    ensures { OnOk result (out.new ≡ out.old ++ (fixed expected.now).spell expected.now) }
{
    out.extend(expected)?;
    Ok(())
}
