//! Quotations. Those that choose further, as `cond` is read, stand in one list with those around them.
ghost use Rattle.std.specs.Prelude.{◌≡◌, ◌<◌, length, IfOk, MatchBool};
ghost use Rattle.fac_lang.specs.Phrases.{quot};
ghost use Rattle.fac_lang.specs.PhraseView.{choices_phrase, items_phrase, what_item};
ghost use Rattle.fac_items.specs.inner.Choosing.{with_both, with_choice};

use fac_base::{Memory, Place};
use fac_lang::{Choices, Item, Phrase, What};
use std::alloc::Global;

// The phrase of these items, in no more memory than they take.
fn phrase_of(items: Vec<Item>) -> Phrase
    ensures { result ≡ items_phrase items.items }
{
    let mut items = items;
    items.shrink_to_fit();
    Phrase { items }
}

// A quotation of these items and of two more behind them.
fn whole(items: Vec<Item>, inner: Item, last: Item) -> Result<What, Memory>
    ensures { IfOk result (λ what. what_item what ≡ quot (with_both inner last (items_phrase items.items))) }
{
    let mut items = items;
    items.push(inner)?;
    items.push(last)?;
    Ok(What::Quot(phrase_of(items)))
}

// Whether two places are the same.
fn is_same(place: Place, other: Place) -> bool
    ensures { MatchBool result (place ≡ other) (Unit {0}) }
{
    place.file == other.file && place.token == other.token
}

// Choices, on the heap.
fn choices_of(alloc: Global, phrases: Vec<Phrase>, word: u32, place: Place) -> Result<What, Memory>
    ensures { IfOk result (λ what. what_item what ≡ quot (choices_phrase (record { phrases = phrases; word = word; place = place }))) }
{
    let choices = Choices {
        phrases,
        word,
        place,
    };
    Ok(What::Choices(Box::new(alloc, choices)?))
}

// A quotation of these items, of a quotation behind them and of the word that chooses.
fn choice(
    alloc: Global,
    items: Vec<Item>,
    inner: Phrase,
    chooses: u32,
    place: Place,
) -> Result<What, Memory>
    ensures { IfOk result (λ what. what_item what ≡ quot (with_choice (quot inner) chooses place (items_phrase items.items))) }
{
    let mut phrases = Vec::with_capacity(alloc, 2)?;
    phrases.push(inner)?;
    phrases.push(phrase_of(items))?;
    choices_of(alloc, phrases, chooses, place)
}

// Likewise around choices, which these items join where the same word chooses at the same place.
fn further(
    alloc: Global,
    items: Vec<Item>,
    choices: Choices,
    chooses: u32,
    place: Place,
) -> Result<What, Memory>
    ensures { IfOk result (λ what. what_item what ≡ quot (with_choice (quot (choices_phrase choices)) chooses place (items_phrase items.items))) }
{
    let Choices {
        phrases,
        word,
        place: at,
    } = choices;
    if word == chooses && is_same(at, place) && phrases.len() > 0 {
        let mut phrases = phrases;
        phrases.push(phrase_of(items))?;
        return choices_of(alloc, phrases, word, at);
    }
    let inner = choices_of(alloc, phrases, word, at)?;
    let last = What::Word(chooses);
    whole(
        items,
        Item { what: inner, place },
        Item { what: last, place },
    )
}

// Likewise around any item at the same place.
fn around(
    alloc: Global,
    items: Vec<Item>,
    inner: What,
    chooses: u32,
    place: Place,
) -> Result<What, Memory>
    ensures { IfOk result (λ what. what_item what ≡ quot (with_choice (what_item inner) chooses place (items_phrase items.items))) }
{
    match inner {
        What::Quot(phrase) => choice(alloc, items, phrase, chooses, place),
        What::Choices(choices) => {
            let choices = Box::into_inner(choices);
            further(alloc, items, choices, chooses, place)
        }
        other => {
            let last = What::Word(chooses);
            whole(
                items,
                Item { what: other, place },
                Item { what: last, place },
            )
        }
    }
}

// A quotation of these items and of two more behind them, which may be a quotation and the word that chooses.
fn ended(alloc: Global, items: Vec<Item>, inner: Item, last: Item) -> Result<What, Memory>
    ensures { IfOk result (λ what. what_item what ≡ quot (with_both inner last (items_phrase items.items))) }
{
    let Item {
        what: inside,
        place,
    } = inner;
    let Item {
        what: chooses,
        place: at,
    } = last;
    match chooses {
        What::Word(word) => {
            if is_same(place, at) {
                return around(alloc, items, inside, word, at);
            }
            let last = What::Word(word);
            whole(
                items,
                Item {
                    what: inside,
                    place,
                },
                Item {
                    what: last,
                    place: at,
                },
            )
        }
        other => whole(
            items,
            Item {
                what: inside,
                place,
            },
            Item {
                what: other,
                place: at,
            },
        ),
    }
}

/// A quotation of these items. Where a quotation and a word at one place are its end, as behind each case of a `cond` but the last, the phrases
/// of both are choices of one list. Want of memory is the one error.
pub fn quotation_of(alloc: Global, items: Vec<Item>) -> Result<What, Memory>
    ensures { IfOk result (λ what. what_item what ≡ quot (items_phrase items.items)) }
{
    let mut items = items;
    match items.pop() {
        Some(last) => match items.pop() {
            Some(inner) => ended(alloc, items, inner, last),
            None => {
                items.push(last)?;
                Ok(What::Quot(phrase_of(items)))
            }
        },
        None => Ok(What::Quot(phrase_of(items))),
    }
}
