//! How many quotations and fries there are.
ghost use Rattle.std.specs.Prelude.{◌≡◌, ◌+◌, ℕ, [], suc, reverse, slice_index_or, IfOk};
ghost use Rattle.fac_lang.specs.Meaning.{nowhere};
ghost use Rattle.fac_base.specs.declared.place.Place.{Place};
ghost use Rattle.fac_lang.specs.PhraseView.{choices_behind, choices_phrase, what_item};
ghost use Rattle.fac_locals.specs.inner.Numbering.{phrase_behind, item_behind, plain_item, plain_phrase, elements_count, counts_from, words_behind, phrase_of};

use fac_base::{List, Memory};
use fac_lang::{Choices, Lit, Phrase, Sort, What, WordDef};
use std::alloc::Global;

/// The number behind this one.
pub fn one_more(number: u32) -> Result<u32, Memory>
    ensures { IfOk result (λ n. n ≡ suc number) }
{
    match number.checked_add(1) {
        Some(next) => Ok(next),
        None => Err(Memory),
    }
}

/// The number behind those of a literal array's quotations, where each array has so many.
pub fn behind_array(array: u32, counts: &[u32], number: u32) -> Result<u32, Memory>
    ensures { IfOk result (λ n. n ≡ number + slice_index_or counts.now array 0) }
{
    match counts.get(array as usize) {
        Some(count) => match number.checked_add(*count) {
            Some(behind) => Ok(behind),
            None => Err(Memory),
        },
        None => Ok(number),
    }
}

// The number behind those of an item's quotations.
#[cycle(counting)]
fn behind_what(what: &What, counts: &[u32], number: u32) -> Result<u32, Memory>
    ensures { IfOk result (λ n. n ≡ item_behind counts.now number (what_item what.now)) }
{
    match what {
        What::Quot(inner) => behind_phrase(inner, counts, one_more(number)?),
        What::Choices(choices) => behind_choices(choices, counts, one_more(number)?),
        What::Fry(inner, _) => behind_phrase(inner, counts, one_more(number)?),
        What::Arr(array) => behind_array(*array, counts, number),
        _ => Ok(number),
    }
}

// The number behind those of a phrase's quotations.
#[cycle(counting)]
fn behind_phrase(phrase: &Phrase, counts: &[u32], number: u32) -> Result<u32, Memory>
    ensures { IfOk result (λ n. n ≡ phrase_behind counts.now number phrase.now) }
{
    let mut behind = number;
    for item in &phrase.items {
        behind = behind_what(&item.what, counts, behind)?;
    }
    Ok(behind)
}

// The number behind those of choices inside one another and of the quotations around them, an outer one first.
#[cycle(counting)]
fn behind_inside(phrases: &[Phrase], counts: &[u32], number: u32) -> Result<u32, Memory>
    ensures { IfOk result (λ n. (w : ℕ) (p : Place) → n ≡ phrase_behind counts.now number (choices_behind w p (reverse phrases.now))) }
{
    let mut behind = number;
    let mut rest = phrases;
    while let Some((phrase, inner)) = rest.split_last() {
        behind = behind_phrase(phrase, counts, one_more(behind)?)?;
        rest = inner;
    }
    Ok(behind)
}

// The number behind those of the quotations in the phrase that choices inside one another are.
#[cycle(counting)]
fn behind_choices(choices: &Choices, counts: &[u32], number: u32) -> Result<u32, Memory>
    ensures { IfOk result (λ n. n ≡ phrase_behind counts.now number (choices_phrase choices.now)) }
{
    match choices.phrases.split_last() {
        Some((outermost, inner)) => {
            let behind = behind_phrase(outermost, counts, number)?;
            let last = behind_inside(inner, counts, behind)?;
            Ok(last)
        }
        None => Ok(number),
    }
}

// The number behind those of an element's quotations.
fn behind_element(element: &Lit, counts: &[u32], number: u32) -> Result<u32, Memory>
    ensures { IfOk result (λ n. n ≡ item_behind counts.now number (plain_item element.now)) }
{
    match element {
        Lit::Quot(inner) => behind_phrase(inner, counts, one_more(number)?),
        Lit::Arr(array) => behind_array(*array, counts, number),
        _ => Ok(number),
    }
}

// How many quotations the elements of a literal array have.
fn count_elements(elements: &[Lit], counts: &[u32]) -> Result<u32, Memory>
    ensures { IfOk result (λ n. n ≡ elements_count counts.now elements.now) }
{
    let mut behind = 0;
    for element in elements {
        behind = behind_element(element, counts, behind)?;
    }
    Ok(behind)
}

/// How many quotations each literal array has, those of the arrays in it included.
pub fn count_arrays(alloc: Global, arrays: &[List<Lit>]) -> Result<Vec<u32>, Memory>
    ensures { IfOk result (λ counts. counts.items ≡ counts_from [] arrays.now) }
{
    let mut counts = Vec::new(alloc);
    for elements in arrays {
        let count = count_elements(elements.as_slice(), counts.as_slice())?;
        counts.push(count)?;
    }
    Ok(counts)
}

// The number behind those of a word's quotations.
fn behind_sort(sort: &Sort, counts: &[u32], number: u32) -> Result<u32, Memory>
    ensures { IfOk result (λ n. n ≡ phrase_behind counts.now number (phrase_of sort.now)) }
{
    match sort {
        Sort::Body(phrase) => behind_phrase(phrase, counts, number),
        Sort::Past(phrase) => behind_phrase(phrase, counts, number),
        Sort::Method { body, .. } => behind_phrase(body, counts, number),
        _ => Ok(number),
    }
}

/// How many quotations words have, those of their literal arrays included.
pub fn count_words(words: &[WordDef], counts: &[u32]) -> Result<u32, Memory>
    ensures { IfOk result (λ n. n ≡ words_behind counts.now 0 words.now) }
{
    let mut behind = 0;
    for word in words {
        behind = behind_sort(&word.sort, counts, behind)?;
    }
    Ok(behind)
}
