//! Integers from texts.
ghost use Rattle.std.specs.Prelude.{◌≡◌, ◌+◌, ◌*◌};
ghost use Rattle.fac_base.specs.Numbers.{digit_of, digit_below, digits_in, decimal_in, magnitude_in};
ghost use Rattle.fac_num.specs.Reading.{ReadsInt};
ghost use Rattle.fac_num.specs.inner.NumberSteps.{capped, capped_some, base_mark, base_in, answer};

use crate::sign::signed;

/// Why a text isn't read as an integer of 128 bits.
#[derive(Debug, Clone, Copy, PartialEq, Eq)]
pub enum NumFault {
    /// It isn't in one of the forms of integers.
    NotNumber,
    /// It writes an integer that is out of range.
    TooWide,
}

// The value of a digit, up to those of base 16.
fn digit(c: u8) -> Option<u8>
    ensures { result ≡ digit_of c }
{
    match c {
        48..=57 => Some(c - 48),
        97..=102 => Some(c - 87),
        65..=70 => Some(c - 55),
        _ => None,
    }
}

fn digit_in(base: u8, c: u8) -> Option<u8>
    ensures { result ≡ digit_below base (digit_of c) }
{
    match digit(c) {
        Some(value) if value < base => Some(value),
        _ => None,
    }
}

// The value of the digits so far with one more, which stays at the largest number of 128 bits once it is there.
fn with_digit(base: u8, value: u128, digit: u8) -> u128
    ensures { result ≡ capped (base * value + digit) }
{
    value
        .saturating_mul(u128::from(base))
        .saturating_add(u128::from(digit))
}

// The value of digits, one or more.
fn digits(base: u8, text: &[u8]) -> Option<u128>
    ensures { result ≡ capped_some (digits_in base text.now) }
{
    if text.is_empty() {
        return None;
    }
    let mut value = 0u128;
    for c in text {
        let digit = digit_in(base, *c)?;
        value = with_digit(base, value, digit);
    }
    Some(value)
}

// The value of decimal digits, one or more, with single commas between two of them.
fn decimal(text: &[u8]) -> Option<u128>
    ensures { result ≡ capped_some (decimal_in text.now) }
{
    let mut value = 0u128;
    let mut after_digit = false;
    for c in text {
        if let Some(digit) = digit_in(10, *c) {
            value = with_digit(10, value, digit);
            after_digit = true;
        } else if *c == b',' && after_digit {
            after_digit = false;
        } else {
            return None;
        }
    }
    if after_digit { Some(value) } else { None }
}

fn marked_base(first: u8, second: u8) -> Option<u8>
    ensures { result ≡ base_mark first second }
{
    if first != b'0' {
        return None;
    }
    match second {
        b'x' => Some(16),
        b'o' => Some(8),
        b'b' => Some(2),
        _ => None,
    }
}

// The base that a text begins with.
fn base(text: &[u8]) -> Option<u8>
    ensures { result ≡ base_in text.now }
{
    if text.len() < 2 {
        return None;
    }
    marked_base(text[0], text[1])
}

// The value of digits behind a base, or of decimal digits.
#[tactic(auto, using(crate::proofs::IntegerForms::magnitude_marked, crate::proofs::IntegerForms::magnitude_plain))]
fn magnitude(text: &[u8]) -> Option<u128>
    ensures { result ≡ capped_some (magnitude_in text.now) }
{
    match base(text) {
        Some(base) => digits(base, &text[2..]),
        None => decimal(text),
    }
}

// The answer for a sign and what stands behind it.
fn answered(minus: bool, magnitude: Option<u128>) -> Result<i128, NumFault>
    ensures { result ≡ answer minus magnitude }
{
    match magnitude {
        None => Err(NumFault::NotNumber),
        Some(magnitude) => match signed(minus, magnitude) {
            None => Err(NumFault::TooWide),
            Some(value) => Ok(value),
        },
    }
}

fn read_bytes(text: &[u8]) -> Result<i128, NumFault>
    ensures { ReadsInt text.now result }
{
    if text.is_empty() {
        Err(NumFault::NotNumber)
    } else if text[0] == b'-' {
        answered(true, magnitude(&text[1..]))
    } else {
        answered(false, magnitude(text))
    }
}

/// The integer that a text writes: an optional `-` and decimal digits, with single commas between two digits, or an optional `-`, then
/// `0x`, `0o` or `0b` and one or more digits of that base, those of base 16 in either case.
///
/// `NotNumber` for every other text. `TooWide` where the text is in one of the forms and its integer is less than -2^127 or more than
/// 2^127 - 1, however long the text is.
pub fn read_int(text: &str) -> Result<i128, NumFault>
    ensures { ReadsInt text.now result }
{
    read_bytes(text.as_bytes())
}
