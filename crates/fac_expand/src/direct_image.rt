//! Whether an image has direct code for each direct phrase of the plain image that it is made of.
ghost use Rattle.std.specs.Prelude.{◌≡◌, true, IfOk};
ghost use Rattle.fac_expand.specs.inner.Bodies.{AreBegins, IsDirectBody};
ghost use Rattle.fac_expand.specs.inner.DirectImages.{HasDirectAction, HaveDirectActions, IsDirectOf};
ghost use Rattle.fac_expand.specs.inner.DirectPlaces.{IsDirectPlace};
ghost use Rattle.fac_expand.specs.inner.Steps.{FindsEntry};

use crate::bodies::{begins_of, has_direct_body};
use crate::direct_places::is_direct;
use crate::growing::Growing;
use crate::plan::Use;
use crate::tails::tails_leave_none;
use fac_base::Memory;
use fac_code::{Action, Image};
use std::alloc::Global;

// The place of the plain code of a word.
fn code_of(plain: &Image, word: u32) -> Option<u32>
    ensures { FindsEntry plain.now word result }
{
    match plain.words.get(word as usize) {
        Some(row) => match row.action {
            Action::Code(entry) => Some(entry),
            _ => None,
        },
        None => None,
    }
}

// Whether the body at a place has direct code, where the plain code at another one is that of a direct phrase.
fn is_direct_place(
    alloc: Global,
    plain: &Image,
    uses: &[Use],
    image: &Image,
    flags: &Growing<bool>,
    from: u32,
    to: u32,
) -> Result<bool, Memory>
    requires { AreBegins image.now flags.now }
    ensures { IfOk result (λ direct. direct ≡ true → IsDirectPlace plain.now uses.now from → IsDirectBody uses.now image.now to) }
{
    if !is_direct(alloc, plain, uses, from)? {
        return Ok(true);
    }
    Ok(has_direct_body(image, uses, flags, to))
}

// So for what a word does.
fn is_direct_action(
    alloc: Global,
    plain: &Image,
    uses: &[Use],
    image: &Image,
    flags: &Growing<bool>,
    word: u32,
    action: Action,
) -> Result<bool, Memory>
    requires { AreBegins image.now flags.now }
    ensures { IfOk result (λ direct. direct ≡ true → HasDirectAction plain.now uses.now image.now word action) }
{
    match action {
        Action::Code(to) => match code_of(plain, word) {
            Some(from) => is_direct_place(alloc, plain, uses, image, flags, from, to),
            None => Ok(false),
        },
        _ => Ok(true),
    }
}

// So for each word below a number.
fn are_direct_actions(
    alloc: Global,
    plain: &Image,
    uses: &[Use],
    image: &Image,
    flags: &Growing<bool>,
    count: u32,
) -> Result<bool, Memory>
    requires { AreBegins image.now flags.now }
    ensures { IfOk result (λ direct. direct ≡ true → HaveDirectActions plain.now uses.now image.now count) }
{
    for word in 0..count {
        match image.words.get(word as usize) {
            Some(row) => {
                match is_direct_action(alloc, plain, uses, image, flags, word, row.action)? {
                    true => {}
                    false => return Ok(false),
                }
            }
            None => return Ok(false),
        }
    }
    Ok(true)
}

/// Whether an image has direct code for each direct phrase of the plain image, where the top-level phrase has this number, and no call leaves a return entry
/// where `ret` comes next behind it. Want of memory is the one error.
pub fn has_direct_code(
    alloc: Global,
    plain: &Image,
    uses: &[Use],
    top: u32,
    image: &Image,
) -> Result<bool, Memory>
    ensures { IfOk result (λ direct. direct ≡ true → IsDirectOf plain.now uses.now image.now top) }
{
    if !tails_leave_none(alloc, image)? {
        return Ok(false);
    }
    let flags = match begins_of(alloc, image)? {
        Some(flags) => flags,
        None => return Ok(false),
    };
    if !are_direct_actions(alloc, plain, uses, image, &flags, top)? {
        return Ok(false);
    }
    is_direct_place(alloc, plain, uses, image, &flags, plain.start, image.start)
}
