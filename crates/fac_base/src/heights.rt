//! The arithmetic of heights: what `curry` and `compose` make of callables that take and leave so many values, and which callables fit a
//! declared height.
ghost use Rattle.std.specs.Prelude.{◌≡◌, Some};
ghost use Rattle.fac_base.specs.HeightArithmetic.{limited_height, curried_height, composed_height, fits_outs, fits};

use crate::Height;
use crate::limits::MOST_CALLABLE_VALUES;

// The height with these numbers, where they are within the limit.
fn limited(ins: u64, outs: Option<u64>) -> Option<Height>
    ensures { result ≡ limited_height ins outs }
{
    if ins > MOST_CALLABLE_VALUES {
        return None;
    }
    match outs {
        None => Some(Height {
            ins: ins as u32,
            outs: None,
        }),
        Some(outs) => {
            if outs > MOST_CALLABLE_VALUES {
                return None;
            }
            Some(Height {
                ins: ins as u32,
                outs: Some(outs as u32),
            })
        }
    }
}

/// What `curry` makes of a callable: it takes one value less, or where it takes none leaves one more. None where a number would be above a
/// million.
pub fn curried(height: Height) -> Option<Height>
    ensures { result ≡ curried_height (Some height) }
{
    if height.ins > 0 {
        return limited(height.ins as u64 - 1, widened(height.outs));
    }
    match height.outs {
        None => limited(0, None),
        Some(outs) => limited(0, Some(outs as u64 + 1)),
    }
}

// A callable that leaves so many values, and behind it another.
fn composed(ins: u32, left: u32, second: Height) -> Option<Height>
    ensures { result ≡ composed_height (Some (record { ins = ins; outs = Some left })) (Some second) }
{
    let above = second.ins as u64;
    let left = left as u64;
    if above > left {
        return limited(ins as u64 + above - left, widened(second.outs));
    }
    match second.outs {
        None => limited(ins as u64, None),
        Some(outs) => limited(ins as u64, Some(left - above + outs as u64)),
    }
}

// The same number of outputs, in a wider type.
fn widened(outs: Option<u32>) -> Option<u64>
    ensures { result ≡ outs }
{
    match outs {
        None => None,
        Some(outs) => Some(outs as u64),
    }
}

/// What `compose` makes of two callables, the first of which runs first. None where a number would be above a million.
pub fn then(first: Height, second: Height) -> Option<Height>
    ensures { result ≡ composed_height (Some first) (Some second) }
{
    match first.outs {
        None => limited(first.ins as u64, None),
        Some(left) => composed(first.ins, left, second),
    }
}

// Whether one callable changes the number of values as another does. What never returns makes every change.
fn changes_alike(height: Height, declared: Height) -> bool
    ensures { result ≡ fits_outs height.ins height.outs declared.ins declared.outs }
{
    match height.outs {
        None => true,
        Some(outs) => match declared.outs {
            None => false,
            Some(left) => { left as u64 + height.ins as u64 == outs as u64 + declared.ins as u64 }
        },
    }
}

/// Whether a callable of this height fits a declared one: it takes no more, and never returns or changes the number of values as declared.
/// Where it is declared never to return, it must never return.
pub fn fits(height: Height, declared: Height) -> bool
    ensures { result ≡ fits height declared }
{
    height.ins <= declared.ins && changes_alike(height, declared)
}
