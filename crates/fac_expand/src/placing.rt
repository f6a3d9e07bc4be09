//! Pieces of code: expanded where that can be, and else as they stand in the plain image.
ghost use Rattle.std.specs.Prelude.{◌≡◌, ◌+◌, ◌++◌, length, drop, true, IfOk, OnOk};
ghost use Rattle.fac_code.specs.declared.image.Instr.TheVariants.{Ret};
ghost use Rattle.fac_carry.specs.Stands.{ends_phrase};
ghost use Rattle.fac_expand.specs.inner.PieceCode.{StandsFor};
ghost use Rattle.fac_expand.specs.inner.Pieces.{to_end};

use crate::direct::direct_code;
use crate::direct_places::{is_call, is_direct};
use crate::growing::Growing;
use crate::pieces::Expander;
use crate::plan::Use;
use crate::stopped::Stopped;
use fac_base::{List, Memory};
use fac_code::{Image, Instr, TemplateRow};
use std::alloc::Global;

/// Whether an instruction ends a phrase.
pub fn is_end(instr: Instr) -> bool
    ensures { result ≡ ends_phrase instr }
{
    match instr {
        Instr::Halt => true,
        Instr::Ret => true,
        _ => false,
    }
}

// The plain code from a place on, up to its end.
fn copied(alloc: Global, plain: &Image, start: u32) -> Result<Growing<Instr>, Memory>
    ensures { IfOk result (λ code. code ≡ to_end (drop start plain.now.code)) }
{
    let _count = plain.code.len();
    let mut code = Growing::new(alloc);
    let mut at = start as usize;
    while let Some(instr) = plain.code.get(at) {
        code.push(*instr)?;
        if is_end(*instr) {
            return Ok(code);
        }
        at += 1;
    }
    Ok(code)
}

// Whether code makes no quotation, applies none and calls no inline word.
fn applies_none(code: &[Instr], uses: &[Use]) -> bool {
    for instr in code {
        match instr {
            Instr::Quot(_) => return false,
            Instr::Fry(_) => return false,
            Instr::Call { .. } => return false,
            Instr::Dip => return false,
            Instr::If { .. } => return false,
            Instr::Callw { word, .. } => {
                if !is_call(uses, *word) {
                    return false;
                }
            }
            _ => {}
        }
    }
    true
}

// A piece in which quotations that are all applied where they stand are run in place, and else the plain code.
#[tactic(auto, using(crate::proofs::CopiedCode::copied_by))]
fn plain_piece(
    alloc: Global,
    plain: &Image,
    last: Instr,
    cells: u32,
    start: u32,
    base: u32,
) -> Result<Growing<Instr>, Memory>
    requires { ends_phrase last ≡ true }
    ensures { IfOk result (StandsFor plain.now last cells start base) }
{
    match direct_code(alloc, plain, last, cells, start, base) {
        Ok(code) => Ok(code),
        Err(stopped) => match stopped {
            Stopped::Plain => copied(alloc, plain, start),
            Stopped::Memory => Err(Memory),
        },
    }
}

// The same for a body, which may have loops too where it is direct.
#[tactic(auto, using(crate::proofs::CopiedCode::copied_by))]
fn body_piece(
    expander: &mut Expander,
    alloc: Global,
    plain: &Image,
    uses: &[Use],
    last: Instr,
    cells: u32,
    start: u32,
    base: u32,
) -> Result<Growing<Instr>, Memory>
    requires { ends_phrase last ≡ true }
    ensures { IfOk result (StandsFor plain.now last cells start base) }
{
    let piece = plain_piece(alloc, plain, last, cells, start, base)?;
    if applies_none(piece.as_slice(), uses) || !is_direct(alloc, plain, uses, start)? {
        return Ok(piece);
    }
    match expander.direct_piece(alloc, plain, uses, last, cells, start, base)? {
        Some(code) => Ok(code),
        None => Ok(piece),
    }
}

/// The piece of a body, for the plain code at a place, which ends in this instruction and whose frame has so many cells. Want of memory is the one error.
#[tactic(auto, using(crate::proofs::CopiedCode::copied_by))]
pub fn piece_of(
    expander: &mut Expander,
    alloc: Global,
    plain: &Image,
    uses: &[Use],
    last: Instr,
    cells: u32,
    start: u32,
    base: u32,
) -> Result<Growing<Instr>, Memory>
    requires { ends_phrase last ≡ true }
    ensures { IfOk result (StandsFor plain.now last cells start base) }
{
    if !expander.is_wanted(start) {
        return copied(alloc, plain, start);
    }
    match expander.piece(alloc, plain, uses, last, cells, start, base)? {
        Some(code) => {
            if applies_none(code.as_slice(), uses) || !is_direct(alloc, plain, uses, start)? {
                return Ok(code);
            }
            body_piece(expander, alloc, plain, uses, last, cells, start, base)
        }
        None => body_piece(expander, alloc, plain, uses, last, cells, start, base),
    }
}

// That of a template, which ends in `ret`.
#[tactic(auto, using(crate::proofs::CopiedCode::copied_by))]
fn inner_piece(
    expander: &mut Expander,
    alloc: Global,
    plain: &Image,
    uses: &[Use],
    cells: u32,
    start: u32,
    base: u32,
) -> Result<Growing<Instr>, Memory>
    ensures { IfOk result (StandsFor plain.now Ret cells start base) }
{
    if !expander.is_wanted(start) {
        return copied(alloc, plain, start);
    }
    match expander.piece(alloc, plain, uses, Instr::Ret, cells, start, base)? {
        Some(code) => Ok(code),
        None => plain_piece(alloc, plain, Instr::Ret, cells, start, base),
    }
}

/// That of a template. Want of memory is the one error.
#[tactic(auto, using(crate::proofs::CopiedCode::copied_by))]
pub fn template_piece(
    expander: &mut Expander,
    alloc: Global,
    plain: &Image,
    uses: &[Use],
    template: &TemplateRow,
    base: u32,
) -> Result<Growing<Instr>, Memory>
    ensures { IfOk result (StandsFor plain.now Ret (length template.now.cells + template.now.holes) template.now.entry base) }
{
    match template.cells.len().checked_add(template.holes) {
        Some(cells) => inner_piece(expander, alloc, plain, uses, cells, template.entry, base),
        None => copied(alloc, plain, template.entry),
    }
}

/// Adds a piece at the end of code. Want of memory is the one error.
pub fn add_piece(code: &mut List<Instr>, piece: &[Instr]) -> Result<(), Memory>
    ensures { OnOk result (code.new ≡ code.old ++ piece.now) }
{
    for instr in piece {
        code.push(*instr)?;
    }
    Ok(())
}
