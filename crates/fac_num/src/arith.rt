//! Sums, differences, products, quotients, remainders and shifts, each None exactly where there is no result of 128 bits.
ghost use Rattle.std.specs.Prelude.{◌≡◌, ◌+ℤ◌, ◌-ℤ◌, ◌*ℤ◌, false, ◌%◌, ◌^◌, FitsSigned, MatchOption};
ghost use Rattle.std.specs.Int.{cast_unsigned, w64, w128};
ghost use Rattle.fac_base.specs.Numbers.{in_range, is_zero, up_shift, down_shift, shifted};
ghost use Rattle.fac_num.specs.Quotients.{quotient, remainder};

use crate::sign::signed;

/// The sum, or None where it is out of range.
pub fn add(a: i128, b: i128) -> Option<i128>
    ensures { result ≡ in_range (a +ℤ b) }
{
    a.checked_add(b)
}

/// The difference, or None where it is out of range.
pub fn sub(a: i128, b: i128) -> Option<i128>
    ensures { result ≡ in_range (a -ℤ b) }
{
    a.checked_sub(b)
}

// The lower 64 bits of a number.
#[inline(always)]
fn lower(a: i128) -> u64
    ensures { result ≡ cast_unsigned w128 a % 2 ^ 64 }
{
    (a.cast_unsigned() & 0xFFFF_FFFF_FFFF_FFFF) as u64
}

// 0 exactly where the number fits 64 bits.
#[inline(always)]
fn excess(a: i128) -> u64
    ensures only { result ≡ 0 → FitsSigned w64 a }
    ensures fits { FitsSigned w64 a → result ≡ 0 }
{
    let upper = (a.cast_unsigned() >> 64) as u64;
    upper.wrapping_add(lower(a) >> 63)
}

// Two numbers in 64 bits each, where both fit them.
#[inline(always)]
#[tactic(auto, using(std::proofs::lemmas::Nat::le_or_l, std::proofs::lemmas::Nat::le_or_r))]
fn narrow(a: i128, b: i128) -> Option<(i64, i64)>
    ensures { MatchOption result (FitsSigned w64 a × FitsSigned w64 b → ⊥) (λ p. (p.0 ≡ a) × (p.1 ≡ b)) }
{
    if excess(a) | excess(b) == 0 {
        Some((lower(a).cast_signed(), lower(b).cast_signed()))
    } else {
        None
    }
}

// The product of any integers. It stands apart, since few have more than 64 bits.
#[inline(never)]
fn wide_mul(a: i128, b: i128) -> Option<i128>
    ensures { result ≡ in_range (a *ℤ b) }
{
    a.checked_mul(b)
}

/// The product, or None where it is out of range.
#[inline(always)]
pub fn mul(a: i128, b: i128) -> Option<i128>
    ensures { result ≡ in_range (a *ℤ b) }
{
    match narrow(a, b) {
        Some((a, b)) => Some(i128::from(a) * i128::from(b)),
        None => wide_mul(a, b),
    }
}

// The quotient of any integers.
#[inline(never)]
fn wide_quot(a: i128, b: i128) -> Option<i128>
    ensures { result ≡ quotient a b }
{
    if b == 0 { None } else { a.checked_div(b) }
}

/// The quotient, rounded toward zero. None where the divisor is 0, and for the least number divided by -1.
#[inline(always)]
pub fn quot(a: i128, b: i128) -> Option<i128>
    ensures { result ≡ quotient a b }
{
    match narrow(a, b) {
        Some((a, b)) if b != 0 && b != -1 => Some(i128::from(a / b)),
        _ => wide_quot(a, b),
    }
}

// The remainder of any integers.
#[inline(never)]
fn wide_rem(a: i128, b: i128) -> Option<i128>
    ensures { result ≡ remainder a b }
{
    if b == 0 {
        None
    } else {
        Some(a.wrapping_rem(b))
    }
}

/// The remainder of that quotient, which has the sign of the dividend. None where the divisor is 0.
#[inline(always)]
pub fn rem(a: i128, b: i128) -> Option<i128>
    ensures { result ≡ remainder a b }
{
    match narrow(a, b) {
        Some((a, b)) if b != 0 && b != -1 => Some(i128::from(a % b)),
        _ => wide_rem(a, b),
    }
}

// a times 2 to the power `count`.
fn up(a: i128, count: u128) -> Option<i128>
    requires { is_zero a ≡ false }
    ensures { result ≡ up_shift a count }
{
    if count < 128 {
        signed(a < 0, a.unsigned_abs().saturating_mul(1 << count))
    } else {
        None
    }
}

// a divided by 2 to the power `count`, rounded down.
fn down(a: i128, count: u128) -> i128
    ensures { result ≡ down_shift a count }
{
    if count < 128 {
        a >> count
    } else if a < 0 {
        -1
    } else {
        0
    }
}

/// a times 2 to the power b, or None where it is out of range. For a negative b, a divided by 2 to the power -b, rounded down.
pub fn shl(a: i128, b: i128) -> Option<i128>
    ensures { result ≡ shifted a b }
{
    if b < 0 {
        Some(down(a, b.unsigned_abs()))
    } else if a == 0 {
        Some(0)
    } else {
        up(a, b.unsigned_abs())
    }
}
