//! Integers from a sign and a magnitude.
ghost use Rattle.std.specs.Prelude.{◌≡◌, pos};
ghost use Rattle.fac_base.specs.Numbers.{in_range, negated};
ghost use Rattle.fac_num.specs.inner.NumberSteps.{with_sign};

fn positive(magnitude: u128) -> Option<i128>
    ensures { result ≡ in_range (pos magnitude) }
{
    if magnitude < 1 << 127 {
        Some(magnitude as i128)
    } else {
        None
    }
}

fn negative(magnitude: u128) -> Option<i128>
    ensures { result ≡ in_range (negated magnitude) }
{
    if magnitude == 0 {
        Some(0)
    } else if magnitude <= 1 << 127 {
        Some(-1 - (magnitude - 1) as i128)
    } else {
        None
    }
}

// The integer, or None where it is out of range.
pub fn signed(minus: bool, magnitude: u128) -> Option<i128>
    ensures { result ≡ in_range (with_sign minus magnitude) }
{
    if minus {
        negative(magnitude)
    } else {
        positive(magnitude)
    }
}
