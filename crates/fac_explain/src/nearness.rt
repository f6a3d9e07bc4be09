//! Names that are nearly another one.
ghost use Rattle.std.specs.Prelude.{◌≡◌, ◌≤◌, length};
ghost use Rattle.std.specs.List.{list_any};
ghost use Rattle.std.specs.Option.{option_copied};
ghost use Rattle.std.specs.Str.{bytes_eq};
ghost use Rattle.fac_explain.specs.Nearness.{alike as alike_of, alone as alone_of, closest as closest_of, edited, exchanged, first_near as first_near_of, is_alone as may_be_alone, is_near as may_be_near, may_stand_beside, one_edit};

use fac_base::Bytes;

/// A name of fewer bytes is near to none.
pub const FEWEST: usize = 3;

// How many bytes two texts begin with alike.
#[tactic(auto, using(crate::proofs::NearLemmas::alike_ends, crate::proofs::NearLemmas::alike_differs, crate::proofs::NearLemmas::alike_same))]
fn alike(text: &[u8], other: &[u8]) -> usize
    ensures is { result ≡ alike_of text.now other.now }
    ensures most { result ≤ length text.now }
    ensures few { result ≤ length other.now }
{
    for (index, byte) in text.iter().enumerate() {
        if index >= other.len() {
            return index;
        }
        if *byte != other[index] {
            return index;
        }
    }
    text.len()
}

// Whether two neighbours are exchanged, and the rest is the same.
fn are_exchanged(first: u8, rest: &[u8], second: u8, others: &[u8]) -> bool
    ensures { result ≡ exchanged first rest.now second others.now }
{
    match rest {
        [] => false,
        [third, more @ ..] => match others {
            [] => false,
            [fourth, behind @ ..] => first == *fourth && *third == second && more == behind,
        },
    }
}

// Whether two texts that differ at their first byte are one text but for one edit there.
fn are_edited(text: &[u8], other: &[u8]) -> bool
    ensures { result ≡ edited text.now other.now }
{
    match text {
        [] => match other {
            [] => false,
            [_, others @ ..] => others.is_empty(),
        },
        [first, rest @ ..] => match other {
            [] => rest.is_empty(),
            [second, others @ ..] => {
                rest == others
                    || text == others
                    || rest == other
                    || are_exchanged(*first, rest, *second, others)
            }
        },
    }
}

// Whether one text comes from another one by one edit.
fn is_one_edit(text: &[u8], other: &[u8]) -> bool
    ensures { result ≡ one_edit text.now other.now }
{
    let at = alike(text, other);
    are_edited(&text[at..], &other[at..])
}

// Whether a name is near to another one.
fn is_near(name: &[u8], other: &[u8]) -> bool
    ensures { result ≡ may_be_near name.now other.now }
{
    FEWEST <= name.len() && is_one_edit(name, other)
}

// The first of names that is near.
fn first_near<'a>(names: &'a [Bytes], name: &[u8]) -> Option<&'a [u8]>
    ensures { option_copied result ≡ first_near_of name.now names.now }
{
    for other in names {
        if is_near(name, other.as_slice()) {
            return Some(other.as_slice());
        }
    }
    None
}

// Whether a name is no other than this one, or not near.
fn may_stand(name: &[u8], near: &[u8], other: &[u8]) -> bool
    ensures { result ≡ may_stand_beside name.now near.now other.now }
{
    if is_near(name, other) {
        return other == near;
    }
    true
}

// Whether no other name is near than this one.
fn is_alone(names: &[Bytes], name: &[u8], near: &[u8]) -> bool
    ensures { result ≡ may_be_alone name.now near.now names.now }
{
    for other in names {
        if !may_stand(name, near, other.as_slice()) {
            return false;
        }
    }
    true
}

// Whether a name is one of these.
fn is_among(names: &[Bytes], name: &[u8]) -> bool
    ensures { result ≡ list_any (bytes_eq name.now) names.now }
{
    for other in names {
        if name == other.as_slice() {
            return true;
        }
    }
    false
}

// The name that is near, where there is one and no other.
fn alone<'a>(names: &[Bytes], name: &[u8], near: Option<&'a [u8]>) -> Option<&'a [u8]>
    ensures { option_copied result ≡ alone_of name.now names.now (option_copied near.entry) }
{
    match near {
        None => None,
        Some(near) => {
            if is_alone(names, name, near) {
                Some(near)
            } else {
                None
            }
        }
    }
}

/// Which of these names was meant by one that isn't found.
pub fn closest<'a>(names: &'a [Bytes], name: &'a [u8]) -> Option<&'a [u8]>
    ensures { option_copied result ≡ closest_of name.now names.now }
{
    if is_among(names, name) {
        return Some(name);
    }
    alone(names, name, first_near(names, name))
}
