//! Expanding the code of an image.
ghost use Rattle.std.specs.Prelude.{◌≡◌, [], true, IfOk, MatchOption};
ghost use Rattle.std.specs.List.{list_all, list_any};
ghost use Rattle.fac_bytes.specs.Spellable.{are_few as are_so_few, leaves_few};
ghost use Rattle.fac_carry.specs.TestedCalls.{TestsCallables};
ghost use Rattle.fac_expand.specs.Expands.{Expands};
ghost use Rattle.fac_expand.specs.DirectInPlace.{KeepsDirect};
ghost use Rattle.fac_expand.specs.inner.Makings.{Makes, IsMadeOf};
ghost use Rattle.fac_expand.specs.inner.Pieces.{is_test, IsMade, ArePlaced};

use crate::direct_image::has_direct_code;
use crate::making::{Making, are_placed};
use crate::pieces::{Expander, Extent, make_expander};
use crate::plan::Use;
use crate::tables::moved_tables;
use fac_base::Memory;
use fac_code::{Image, Instr, Operand};
use std::alloc::Global;

// Whether an instruction tests a callable.
fn is_tested(instr: Instr) -> bool
    ensures { result ≡ is_test instr }
{
    match instr {
        Instr::CallEffect { .. } => true,
        _ => false,
    }
}

// Whether one of the instructions tests a callable.
fn tests(code: &[Instr]) -> bool
    ensures { result ≡ list_any is_test code.now }
{
    for instr in code {
        if is_tested(*instr) {
            return true;
        }
    }
    false
}

// Whether one image tests callables only where another one does.
fn tests_no_more(plain: &Image, image: &Image) -> bool
    ensures { result ≡ true → TestsCallables image.now → TestsCallables plain.now }
{
    if !tests(image.code.as_slice()) {
        return true;
    }
    tests(plain.code.as_slice())
}

// Whether so many values that are left have, with one more, a number of 32 bits.
fn are_few(outs: Option<u32>) -> bool
    ensures { result ≡ are_so_few outs }
{
    match outs {
        None => true,
        Some(outs) => outs < u32::MAX,
    }
}

// Whether an instruction tests nothing that leaves too many values for a spelling.
fn tests_few(instr: Instr) -> bool
    ensures { result ≡ leaves_few instr }
{
    match instr.row().operand {
        Operand::Height(height) => are_few(height.outs),
        Operand::Nothing => true,
        Operand::Integer(_) => true,
        Operand::Number(_, _) => true,
    }
}

// Whether each of the instructions tests nothing that does.
fn all_test_few(code: &[Instr]) -> bool
    ensures { result ≡ list_all leaves_few code.now }
{
    for instr in code {
        if !tests_few(*instr) {
            return false;
        }
    }
    true
}

// Whether one image tests callables only where another one does, and has a spelling as far as its code goes.
fn is_fit(plain: &Image, image: &Image) -> bool
    ensures tests { result ≡ true → TestsCallables image.now → TestsCallables plain.now }
    ensures few { result ≡ true → list_all leaves_few image.now.code ≡ true }
{
    if !all_test_few(image.code.as_slice()) {
        return false;
    }
    tests_no_more(plain, image)
}

// The code, the rows of templates and the new places for an image whose top-level phrase has this number, and where that begins.
fn made_of(
    expander: &mut Expander,
    alloc: Global,
    plain: &Image,
    top: u32,
    uses: &[Use],
) -> Result<(Making, u32), Memory>
    ensures { IfOk result (λ made. IsMadeOf plain.now made.0 made.1) }
{
    let mut making = Making::new(alloc, plain)?;
    making.add_templates(expander, alloc, plain, uses)?;
    making.add_words(expander, alloc, plain, uses, top)?;
    let start = making.add_start(expander, alloc, plain, uses)?;
    Ok((making, start))
}

// The image of these, where each number in it names something of its kind and the code of each word below the top-level phrase is there.
fn image_of(
    alloc: Global,
    plain: &Image,
    top: u32,
    making: Making,
    start: u32,
) -> Result<Option<Image>, Memory>
    requires { IsMadeOf plain.now making start }
    ensures { IfOk result (λ o. MatchOption o (Unit {0}) (IsMade top plain.now)) }
{
    let Making {
        code,
        templates,
        places,
    } = making;
    if !are_placed(places.as_slice(), top, plain.words.as_slice()) {
        return Ok(None);
    }
    let tables = moved_tables(alloc, plain, start, places.as_slice(), templates)?;
    Ok(Image::new(alloc, tables, code, start))
}

// The expanded image, where there is one.
fn expanded(
    alloc: Global,
    plain: &Image,
    top: u32,
    uses: &[Use],
    expander: &mut Expander,
) -> Result<Option<Image>, Memory>
    ensures { IfOk result (λ o. MatchOption o (Unit {0}) (Expands top plain.now)) }
{
    if expander.is_idle() {
        return Ok(None);
    }
    let (making, start) = made_of(expander, alloc, plain, top, uses)?;
    match image_of(alloc, plain, top, making, start)? {
        Some(image) => {
            if is_fit(plain, &image) {
                Ok(Some(image))
            } else {
                Ok(None)
            }
        }
        None => Ok(None),
    }
}

// The image with its code expanded as far as a run comes, or as it is.
fn expanded_or_plain(alloc: Global, plain: Image, top: u32, uses: &[Use]) -> Result<Image, Memory>
    ensures { IfOk result (Expands top plain) }
{
    let mut expander = make_expander(alloc, &plain, Extent::Reached)?;
    match expanded(alloc, &plain, top, uses, &mut expander)? {
        Some(image) => Ok(image),
        None => Ok(plain),
    }
}

// The image with all of its code expanded, where each direct phrase has direct code in it.
fn directly_expanded(
    alloc: Global,
    plain: &Image,
    top: u32,
    uses: &[Use],
    expander: &mut Expander,
) -> Result<Option<Image>, Memory>
    ensures expands { IfOk result (λ o. MatchOption o (Unit {0}) (Expands top plain.now)) }
    ensures direct { IfOk result (λ o. MatchOption o (Unit {0}) (KeepsDirect top plain.now uses.now)) }
{
    let image = match expanded(alloc, plain, top, uses, expander)? {
        Some(image) => image,
        None => return Ok(None),
    };
    if has_direct_code(alloc, plain, uses, top, &image)? {
        return Ok(Some(image));
    }
    Ok(None)
}

// The plain image, where each direct phrase has direct code in it.
fn directly_plain(alloc: Global, plain: Image, top: u32, uses: &[Use]) -> Result<Image, Memory>
    ensures expands { IfOk result (Expands top plain) }
    ensures direct { IfOk result (KeepsDirect top plain uses.now) }
{
    if has_direct_code(alloc, &plain, uses, top, &plain)? {
        return Ok(plain);
    }
    Err(Memory)
}

// The image with all of its code expanded, or at least with the quotations in place that are applied where they stand, so that each direct phrase has direct code. No
// program is known that doesn't come to the first of these; one that came to none would be answered as want of memory.
fn wholly_expanded(alloc: Global, plain: Image, top: u32, uses: &[Use]) -> Result<Image, Memory>
    ensures expands { IfOk result (Expands top plain) }
    ensures direct { IfOk result (KeepsDirect top plain uses.now) }
{
    let mut expander = make_expander(alloc, &plain, Extent::All)?;
    match directly_expanded(alloc, &plain, top, uses, &mut expander)? {
        Some(image) => return Ok(image),
        None => {}
    }
    expander.stop();
    match directly_expanded(alloc, &plain, top, uses, &mut expander)? {
        Some(image) => Ok(image),
        None => directly_plain(alloc, plain, top, uses),
    }
}

/// The image with its code expanded: a callable that is made of a quotation and applied at once is run in place. The top-level phrase has this
/// number, and `uses` says by the number of a word what a use of it becomes; both that and the extent are only hints. The tables are those of
/// the plain image but for places. For each program with this top-level phrase for whose phrases the plain code stands, the code that is made
/// stands too. It has a spelling where the plain image has one. Where it can't be made so, the image stays as it is. Where all is expanded, each direct phrase has direct code. Want of memory is the one error:
/// so it is answered too where all is to be expanded and no image that was made has direct code for each direct phrase. No program is known that comes to that.
pub fn expand(
    alloc: Global,
    plain: Image,
    top: u32,
    uses: &[Use],
    extent: Extent,
) -> Result<Image, Memory>
    ensures expands { IfOk result (Expands top plain) }
    ensures direct { extent ≡ Extent.All → IfOk result (KeepsDirect top plain uses.now) }
{
    match extent {
        Extent::All => wholly_expanded(alloc, plain, top, uses),
        Extent::Reached => expanded_or_plain(alloc, plain, top, uses),
    }
}
