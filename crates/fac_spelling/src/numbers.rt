//! Numbers in a range, in their shortest form.
ghost use Rattle.std.specs.Prelude.{◌≡◌, ◌≤◌, ◌++◌, IfOk, OnOk};
ghost use Rattle.fac_spelling.specs.Numbers.{number_at, shortest, IsWithin};
ghost use Rattle.fac_spelling.specs.Reads.{Gives, NoMemory};

use crate::ReadFault;
use fac_base::{Bytes, Memory};

/// The number at the front, from `low` to `high`, and the bytes behind it. It calls itself for each further digit, at most 18 times.
pub fn read_wide(bytes: &[u8], low: u128, high: u128) -> Result<(u128, &[u8]), ReadFault>
    ensures within { IfOk result (λ x. IsWithin low high x.0) }
    ensures exact { Gives (λ x. (x.0, x.1.now)) result (number_at low high bytes.now) }
    ensures plain { NoMemory result }
{
    match bytes {
        [] => Err(ReadFault::Refused { left: 0 }),
        [byte, rest @ ..] => {
            let byte = u128::from(*byte);
            if byte < 128 {
                if low <= byte && byte <= high {
                    return Ok((byte, rest));
                }
                return Err(ReadFault::Refused { left: bytes.len() });
            }
            let digit = byte - 128;
            if high < digit {
                return Err(ReadFault::Refused { left: bytes.len() });
            }
            let least = if digit < low {
                1 + (low - digit - 1) / 128
            } else {
                1
            };
            let most = (high - digit) / 128;
            if most < least {
                return Err(ReadFault::Refused { left: bytes.len() });
            }
            let (more, rest) = read_wide(rest, least, most)?;
            Ok((digit + 128 * more, rest))
        }
    }
}

/// The number at the front, from `low` to `high`, and the bytes behind it. Most numbers have one byte.
pub fn read_number(bytes: &[u8], low: u32, high: u32) -> Result<(u32, &[u8]), ReadFault>
    ensures within { IfOk result (λ x. IsWithin low high x.0) }
    ensures exact { Gives (λ x. (x.0, x.1.now)) result (number_at low high bytes.now) }
    ensures plain { NoMemory result }
{
    if let [byte, rest @ ..] = bytes {
        let number = u32::from(*byte);
        if number < 128 && low <= number && number <= high {
            return Ok((number, rest));
        }
    }
    let (number, rest) = read_wide(bytes, u128::from(low), u128::from(high))?;
    Ok((number as u32, rest))
}

/// Adds the bytes of a number at the end. Want of memory is the one error, and some of the bytes may be added then.
pub fn write_number(out: &mut Bytes, number: u128) -> Result<(), Memory>
    ensures { OnOk result (out.new ≡ out.old ++ shortest number) }
{
    let mut left = number;
    while left >= 128 {
        out.push((left % 128) as u8 + 128)?;
        left /= 128;
    }
    out.push(left as u8)?;
    Ok(())
}
