//! The cells that a quotation or a fry keeps.
ghost use Rattle.std.specs.Prelude.{◌≡◌, ◌∷◌, ◌++◌, ◌&&◌, not, true, false, reverse, IfOk, OnOk};
ghost use Rattle.fac_lang.specs.Phrases.{Item as Node};
ghost use Rattle.fac_locals.specs.declared.cell.Cell.{Cell as Held};
ghost use Rattle.fac_locals.specs.Cells.{same_cell, cell_number, captured, inner_cells, hole_cells, hole_count};
ghost use Rattle.fac_locals.specs.Asked.{has_cell, AskedBy, kept_from, cells_of};

use crate::asking::Asked;
use crate::cell::Cell;
use fac_base::{List, Memory};
use std::alloc::Global;

/// The cells of the frame around it that a quotation or a fry keeps, and the cells with which its own frame begins.
#[derive(Drop)]
pub struct Kept {
    /// The numbers of the cells that it keeps, ascending.
    pub captures: List<u32>,
    /// What its own cells hold: what it keeps, and behind that its holes.
    pub cells: List<Cell>,
}

// Whether two cells hold the same.
fn is_same(cell: Cell, other: Cell) -> bool
    ensures { result ≡ same_cell cell other }
{
    match cell {
        Cell::Local(number) => match other {
            Cell::Local(local) => number == local,
            Cell::Hole(_) => false,
        },
        Cell::Hole(number) => match other {
            Cell::Local(_) => false,
            Cell::Hole(hole) => number == hole,
        },
    }
}

/// The number of the last of these cells that holds the same, where one does.
pub fn number_of(cells: &List<Cell>, cell: Cell) -> Option<u32>
    ensures { result ≡ cell_number cells.now cell }
{
    let mut number = cells.len();
    let mut rest = cells.as_slice();
    while let Some((last, earlier)) = rest.split_last() {
        number -= 1;
        if is_same(cell, *last) {
            return Some(number);
        }
        rest = earlier;
    }
    None
}

// Takes a cell out of those that are asked for, and tells whether it was there.
fn take_cell(asked: &mut Asked, cell: Cell) -> bool
    ensures there { result ≡ has_cell asked.old cell }
    ensures others { (c : Held) → has_cell asked.new c ≡ not (same_cell c cell) && has_cell asked.old c }
{
    match cell {
        Cell::Local(number) => asked.locals.remove(number),
        Cell::Hole(number) => asked.holes.remove(number),
    }
}

// Notes the number of a cell that is kept.
fn keep_cell(
    left: &mut Asked,
    numbers: &mut Vec<u32>,
    cell: Cell,
    number: u32,
) -> Result<(), Memory>
    ensures noted { OnOk result (reverse numbers.new.items ≡ elim (has_cell left.old cell) [ true ↦ number ∷ reverse numbers.old.items | false ↦ reverse numbers.old.items ]) }
    ensures others { (c : Held) → has_cell left.new c ≡ not (same_cell c cell) && has_cell left.old c }
{
    if take_cell(left, cell) {
        numbers.push(number)?;
    }
    Ok(())
}

// The numbers of the cells that are kept, the last one first, where these are asked for.
fn kept_numbers(alloc: Global, cells: &List<Cell>, left: &mut Asked) -> Result<Vec<u32>, Memory>
    ensures { IfOk result (λ numbers. reverse numbers.items ≡ kept_from 0 cells.now (has_cell left.old)) }
{
    let room = left.locals.len().saturating_add(left.holes.len());
    let mut numbers = Vec::with_capacity(alloc, room)?;
    let mut number = cells.len();
    let mut rest = cells.as_slice();
    while let Some((cell, earlier)) = rest.split_last() {
        number -= 1;
        keep_cell(left, &mut numbers, *cell, number)?;
        rest = earlier;
    }
    Ok(numbers)
}

// What the cells of these numbers hold, where all of them are there. There is room for so many more.
fn cells_at(
    alloc: Global,
    cells: &List<Cell>,
    captures: &List<u32>,
    more: u32,
) -> Result<Vec<Cell>, Memory>
    ensures { IfOk result (λ kept. kept.items ≡ cells_of cells.now captures.now) }
{
    let room = (captures.len() as usize).saturating_add(more as usize);
    let mut kept = Vec::with_capacity(alloc, room)?;
    for number in captures.as_slice() {
        if let Some(cell) = cells.get(*number as usize) {
            kept.push(*cell)?;
        }
    }
    Ok(kept)
}

// Adds the first holes of a fry.
fn add_holes(cells: &mut Vec<Cell>, holes: u32) -> Result<(), Memory>
    ensures { OnOk result (cells.new.items ≡ cells.old.items ++ hole_cells holes) }
{
    for number in 0..holes {
        cells.push(Cell::Hole(number))?;
    }
    Ok(())
}

// The numbers of the cells that are kept, for what asks for these.
fn captures_of(alloc: Global, cells: &List<Cell>, asked: Asked) -> Result<List<u32>, Memory>
    ensures { IfOk result (λ captures. (i : Node) → AskedBy i asked → captures ≡ captured cells.now i) }
{
    let mut left = asked;
    let mut numbers = kept_numbers(alloc, cells, &mut left)?;
    numbers.reverse();
    let captures = List::from_vec(numbers)?;
    Ok(captures)
}

// What is kept where these cells are captured, and behind that so many holes.
fn own_cells(
    alloc: Global,
    cells: &List<Cell>,
    captures: &List<u32>,
    holes: u32,
) -> Result<List<Cell>, Memory>
    ensures { IfOk result (λ own. own ≡ cells_of cells.now captures.now ++ hole_cells holes) }
{
    let mut own = cells_at(alloc, cells, captures, holes)?;
    add_holes(&mut own, holes)?;
    let list = List::from_vec(own)?;
    Ok(list)
}

/// What a quotation or a fry keeps of these cells, where it asks for these and has so many holes. Want of memory is the one error.
pub fn keep(alloc: Global, cells: &List<Cell>, asked: Asked, holes: u32) -> Result<Kept, Memory>
    ensures captures { IfOk result (λ kept. (i : Node) → AskedBy i asked → kept.captures ≡ captured cells.now i) }
    ensures cells { IfOk result (λ kept. (i : Node) → AskedBy i asked → hole_count i ≡ holes → kept.cells ≡ inner_cells cells.now i) }
{
    let captures = captures_of(alloc, cells, asked)?;
    let own = own_cells(alloc, cells, &captures, holes)?;
    Ok(Kept {
        captures,
        cells: own,
    })
}
