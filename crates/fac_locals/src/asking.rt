//! The cells that quotations and fries ask for.
ghost use Rattle.std.specs.Prelude.{◌≡◌, ℕ, List, [], ◌∷◌, ◌++◌, ◌||◌, ◌&&◌, false, reverse, IfOk, OnOk};
ghost use Rattle.fac_lang.specs.Phrases.{Phrase as Tree, Item as Node, end, then, quot, word, append};
ghost use Rattle.fac_lang.specs.PhraseView.{choices_behind, choices_phrase, what_item};
ghost use Rattle.fac_base.specs.declared.place.Place.{Place};
ghost use Rattle.fac_locals.specs.declared.cell.Cell.{Cell as Held};
ghost use Rattle.fac_locals.specs.Cells.{is_local};
ghost use Rattle.fac_locals.specs.Asked.{has_cell, AsksFor, AskedBy, AreAskedBy, FirstTaken, quotations_in, quotations_at};

use crate::numbers::Numbers;
use fac_base::Memory;
use fac_lang::{Choices, Phrase, What};
use std::alloc::Global;
use std::marker::Model;
use std::mem;

/// The cells that a quotation or a fry asks for.
#[derive(Drop)]
pub struct Asked {
    // The numbers of the locals.
    pub(crate) locals: Numbers,
    // The numbers of the holes.
    pub(crate) holes: Numbers,
}

/// What the quotations and fries of a phrase ask for, in reading order, an outer one before those in it.
#[derive(Drop)]
pub struct AllAsked {
    // The last one first.
    left: Vec<Asked>,
}

impl Model for AllAsked {
    ghost use Rattle.std.specs.Prelude.{List, reverse};
    ghost use Rattle.fac_locals.specs.declared.asking.Asked.{Asked as AskedCells};

    ghost Value = { List AskedCells };

    ghost view = { λ a. reverse a.left.items };
}

impl AllAsked {
    /// Nothing.
    pub fn new(alloc: Global) -> AllAsked
        ensures { result ≡ [] }
    {
        AllAsked {
            left: Vec::new(alloc),
        }
    }

    /// Takes the first one out, where there is one.
    pub fn take_first(&mut self) -> Option<Asked>
        ensures { FirstTaken self.old result self.new }
    {
        self.left.pop()
    }
}

// No cells.
fn nothing(alloc: Global) -> Asked
    ensures { (c : Held) → has_cell result c ≡ false }
{
    Asked {
        locals: Numbers::new(alloc),
        holes: Numbers::new(alloc),
    }
}

// Adds what a quotation or a fry asks for.
fn add_cells(asked: &mut Asked, inner: &Asked) -> Result<(), Memory>
    ensures { OnOk result ((c : Held) → has_cell asked.new c ≡ has_cell inner.now c || has_cell asked.old c) }
{
    asked.locals.add(&inner.locals)?;
    asked.holes.add(&inner.holes)
}

// Adds what a quotation or a fry asks for to that of the phrase behind it, and notes it.
fn add_quotation(asked: &mut Asked, all: &mut AllAsked, inner: Asked) -> Result<(), Memory>
    ensures added { OnOk result ((c : Held) → has_cell asked.new c ≡ has_cell inner c || has_cell asked.old c) }
    ensures noted { OnOk result (all.new ≡ inner ∷ all.old) }
{
    add_cells(asked, &inner)?;
    all.left.push(inner)?;
    Ok(())
}

// The cells that a fry asks for, where its phrase asks for these.
fn of_fry(alloc: Global, inner: Asked) -> Asked
    ensures { (c : Held) → has_cell result c ≡ is_local c && has_cell inner c }
{
    let Asked { locals, .. } = inner;
    Asked {
        locals,
        holes: Numbers::new(alloc),
    }
}

// What a quotation of a phrase asks for with a word behind it, where the phrase asks for these. The quotation is noted.
fn ask_choice(alloc: Global, asked: &mut Asked, all: &mut AllAsked) -> Result<(), Memory>
    ensures cells { OnOk result ((w : ℕ) (p : Place) (t : Tree) → AsksFor t asked.old → AsksFor (then (quot t) p (then (word w) p end)) asked.new) }
    ensures noted { OnOk result (all.new ≡ asked.old ∷ all.old) }
{
    let inner = mem::replace(asked, nothing(alloc));
    add_quotation(asked, all, inner)
}

// Adds what an item asks for to what the phrase behind it asks for.
#[cycle(asking)]
fn ask_item(alloc: Global, what: &What, asked: &mut Asked, all: &mut AllAsked) -> Result<(), Memory>
    ensures cells { OnOk result ((p : Place) (t : Tree) → AsksFor t asked.old → AsksFor (then (what_item what.now) p t) asked.new) }
    ensures inside { OnOk result ((is : List Node) → AreAskedBy is all.old → AreAskedBy (quotations_at (what_item what.now) ++ is) all.new) }
{
    match what {
        What::Local(number) => asked.locals.insert(*number),
        What::Hole(number) => asked.holes.insert(*number),
        What::Bind(number) => {
            asked.locals.remove(*number);
            Ok(())
        }
        What::Quot(phrase) => {
            let inner = ask_phrase(alloc, phrase, all)?;
            add_quotation(asked, all, inner)
        }
        What::Choices(choices) => {
            let inner = ask_choices(alloc, choices, all)?;
            add_quotation(asked, all, inner)
        }
        What::Fry(phrase, _) => {
            let inner = of_fry(alloc, ask_phrase(alloc, phrase, all)?);
            add_quotation(asked, all, inner)
        }
        _ => Ok(()),
    }
}

// Adds what a phrase asks for to what the phrase behind it asks for. What its quotations and fries ask for is noted.
#[cycle(asking)]
fn ask_before(
    alloc: Global,
    phrase: &Phrase,
    asked: &mut Asked,
    all: &mut AllAsked,
) -> Result<(), Memory>
    ensures cells { OnOk result ((t : Tree) → AsksFor t asked.old → AsksFor (append phrase.now t) asked.new) }
    ensures inside { OnOk result ((is : List Node) → AreAskedBy is all.old → AreAskedBy (quotations_in phrase.now ++ is) all.new) }
{
    let mut rest = phrase.items.as_slice();
    while let Some((item, earlier)) = rest.split_last() {
        ask_item(alloc, &item.what, asked, all)?;
        rest = earlier;
    }
    Ok(())
}

// The cells that a phrase asks for. What its quotations and fries ask for is noted.
#[cycle(asking)]
fn ask_phrase(alloc: Global, phrase: &Phrase, all: &mut AllAsked) -> Result<Asked, Memory>
    ensures cells { IfOk result (λ asked. AsksFor phrase.now asked) }
    ensures inside { OnOk result ((is : List Node) → AreAskedBy is all.old → AreAskedBy (quotations_in phrase.now ++ is) all.new) }
{
    let mut asked = nothing(alloc);
    ask_before(alloc, phrase, &mut asked, all)?;
    Ok(asked)
}

// Adds what choices inside one another ask for to what stands behind them, from the innermost on, which is nothing at first. Each is noted as
// a quotation with a word behind it.
#[cycle(asking)]
fn ask_inside(
    alloc: Global,
    phrases: &[Phrase],
    asked: &mut Asked,
    all: &mut AllAsked,
) -> Result<(), Memory>
    requires { (c : Held) → has_cell asked.old c ≡ false }
    ensures cells { OnOk result ((w : ℕ) (p : Place) → AsksFor (choices_behind w p (reverse phrases.now)) asked.new) }
    ensures inside { OnOk result ((w : ℕ) (p : Place) (is : List Node) → AreAskedBy is all.old → AreAskedBy (quotations_in (choices_behind w p (reverse phrases.now)) ++ is) all.new) }
{
    for phrase in phrases {
        ask_before(alloc, phrase, asked, all)?;
        ask_choice(alloc, asked, all)?;
    }
    Ok(())
}

// The cells that choices inside one another ask for. What their quotations and fries ask for is noted.
#[cycle(asking)]
fn ask_choices(alloc: Global, choices: &Choices, all: &mut AllAsked) -> Result<Asked, Memory>
    ensures cells { IfOk result (λ asked. AsksFor (choices_phrase choices.now) asked) }
    ensures inside { OnOk result ((is : List Node) → AreAskedBy is all.old → AreAskedBy (quotations_in (choices_phrase choices.now) ++ is) all.new) }
{
    match choices.phrases.split_last() {
        Some((outermost, inner)) => {
            let mut asked = nothing(alloc);
            ask_inside(alloc, inner, &mut asked, all)?;
            ask_before(alloc, outermost, &mut asked, all)?;
            Ok(asked)
        }
        None => Ok(nothing(alloc)),
    }
}

/// What the quotations and fries of a phrase ask for, in reading order. Those in its literal arrays aren't among them. Want of memory is the one error.
pub fn asked_in(alloc: Global, phrase: &Phrase) -> Result<AllAsked, Memory>
    ensures { IfOk result (λ all. AreAskedBy (quotations_in phrase.now) all) }
{
    let mut all = AllAsked::new(alloc);
    ask_phrase(alloc, phrase, &mut all)?;
    Ok(all)
}
