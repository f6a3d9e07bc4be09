//! Rows with the new places of code.
ghost use Rattle.std.specs.Prelude.{◌≡◌, map, IfOk};
ghost use Rattle.fac_expand.specs.inner.Pieces.{place_in, moved_action as action_moved, moved_word as word_moved, moved_method as method_moved, moved_generic as generic_moved};

use fac_base::{List, Memory};
use fac_code::{Action, GenericRow, MethodRow, WordRow};
use std::alloc::Global;

// The new place of code that stood at an old one, and the place `start` where it has none, as that of the top-level phrase.
fn moved_place(start: u32, places: &[Option<u32>], place: u32) -> u32
    ensures { result ≡ place_in start places.now place }
{
    match places.get(place as usize) {
        Some(Some(moved)) => *moved,
        Some(None) => start,
        None => start,
    }
}

// What a word does, with the new place of its code.
fn moved_action(start: u32, places: &[Option<u32>], action: Action) -> Action
    ensures { result ≡ action_moved start places.now action }
{
    match action {
        Action::Code(place) => Action::Code(moved_place(start, places, place)),
        other => other,
    }
}

// The row of a word.
fn moved_word(start: u32, places: &[Option<u32>], word: &WordRow) -> WordRow
    ensures { result ≡ word_moved start places.now word.now }
{
    WordRow {
        vocab: word.vocab,
        name: word.name,
        action: moved_action(start, places, word.action),
        height: word.height,
    }
}

/// The rows of words. Want of memory is the one error.
pub fn moved_words(
    alloc: Global,
    start: u32,
    places: &[Option<u32>],
    words: &List<WordRow>,
) -> Result<List<WordRow>, Memory>
    ensures { IfOk result (λ rows. rows ≡ map (word_moved start places.now) words.now) }
{
    let mut rows = List::new(alloc);
    for word in words.as_slice() {
        rows.push(moved_word(start, places, word))?;
    }
    Ok(rows)
}

// A method.
fn moved_method(start: u32, places: &[Option<u32>], method: &MethodRow) -> MethodRow
    ensures { result ≡ method_moved start places.now method.now }
{
    MethodRow {
        number: method.number,
        set: method.set,
        entry: moved_place(start, places, method.entry),
    }
}

// Methods.
fn moved_methods(
    alloc: Global,
    start: u32,
    places: &[Option<u32>],
    methods: &List<MethodRow>,
) -> Result<List<MethodRow>, Memory>
    ensures { IfOk result (λ rows. rows ≡ map (method_moved start places.now) methods.now) }
{
    let mut rows = List::new(alloc);
    for method in methods.as_slice() {
        rows.push(moved_method(start, places, method))?;
    }
    Ok(rows)
}

// The row of a generic.
fn moved_generic(
    alloc: Global,
    start: u32,
    places: &[Option<u32>],
    generic: &GenericRow,
) -> Result<GenericRow, Memory>
    ensures { IfOk result (λ row. row ≡ generic_moved start places.now generic.now) }
{
    let methods = moved_methods(alloc, start, places, &generic.methods)?;
    Ok(GenericRow {
        word: generic.word,
        methods,
    })
}

/// The rows of generics. Want of memory is the one error.
pub fn moved_generics(
    alloc: Global,
    start: u32,
    places: &[Option<u32>],
    generics: &List<GenericRow>,
) -> Result<List<GenericRow>, Memory>
    ensures { IfOk result (λ rows. rows ≡ map (generic_moved start places.now) generics.now) }
{
    let mut rows = List::new(alloc);
    for generic in generics.as_slice() {
        rows.push(moved_generic(alloc, start, places, generic)?)?;
    }
    Ok(rows)
}
