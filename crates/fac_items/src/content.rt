//! What a phrase or an array has so far.
ghost use Rattle.std.specs.Prelude.{◌≡◌, ◌++◌, ◌∷◌, [], length, IfOk, OnOk};
ghost use Rattle.fac_lang.specs.Phrases.{end, int, no, quot, str, then, yes};
ghost use Rattle.fac_lang.specs.PhraseView.{items_phrase, what_item};
ghost use Rattle.fac_lang.specs.RunningLaws.{append};
ghost use Rattle.fac_items.specs.FromElements.{literal_value};
ghost use Rattle.fac_items.specs.inner.TakenBits.{content_seen, elements_in, phrase_in, with_array, with_fresh, with_item, with_literal, with_reference};

use crate::choices::quotation_of;
use fac_base::{Integer, List, Memory, Place, Text};
use fac_lang::{Item, Lit, Phrase, What};
use fac_source::Literal;
use std::alloc::Global;

/// What a phrase or an array has so far.
#[derive(Drop)]
pub enum Content {
    /// The items of a quotation or fry, or of the phrase outside of all brackets.
    Items(Vec<Item>),
    /// The elements of an array.
    Elements(Vec<Lit>),
}

/// Adds an item.
#[tactic(auto, using(crate::proofs::PhraseLemmas::items_push))]
pub fn add_item(items: &mut Vec<Item>, what: What, place: Place) -> Result<(), Memory>
    ensures { OnOk result (items_phrase items.new.items ≡ append (items_phrase items.old.items) (then (what_item what) place end)) }
{
    items.push(Item { what, place })?;
    Ok(())
}

/// Adds an element of an array.
pub fn add_element(elements: &mut Vec<Lit>, element: Lit) -> Result<(), Memory>
    ensures { OnOk result (elements.new.items ≡ elements.old.items ++ element ∷ []) }
{
    elements.push(element)?;
    Ok(())
}

/// Adds an item that stands in no array.
pub fn add_what(content: &mut Content, what: What, place: Place) -> Result<(), Memory>
    ensures { OnOk result (content_seen content.new ≡ with_item (what_item what) place (content_seen content.old)) }
{
    match content {
        Content::Items(items) => add_item(items, what, place),
        Content::Elements(_) => Ok(()),
    }
}

/// Adds a fry of so many holes, or in an array a quotation.
pub fn add_fresh(
    content: &mut Content,
    phrase: Phrase,
    holes: u32,
    place: Place,
) -> Result<(), Memory>
    ensures { OnOk result (content_seen content.new ≡ with_fresh place phrase holes (content_seen content.old)) }
{
    match content {
        Content::Items(items) => add_item(items, What::Fry(phrase, holes), place),
        Content::Elements(elements) => add_element(elements, Lit::Quot(phrase)),
    }
}

/// Adds the literal array of a number.
pub fn add_array(content: &mut Content, number: u32, place: Place) -> Result<(), Memory>
    ensures { OnOk result (content_seen content.new ≡ with_array place number (content_seen content.old)) }
{
    match content {
        Content::Items(items) => add_item(items, What::Arr(number), place),
        Content::Elements(elements) => add_element(elements, Lit::Arr(number)),
    }
}

/// The phrase of all its items, in no more memory than they take.
pub fn whole_phrase(alloc: Global, content: Content) -> Phrase
    ensures { result ≡ phrase_in (content_seen content) }
{
    match content {
        Content::Items(mut items) => {
            items.shrink_to_fit();
            Phrase { items }
        }
        Content::Elements(_) => Phrase {
            items: Vec::new(alloc),
        },
    }
}

/// A quotation of all its items.
pub fn whole_quotation(alloc: Global, content: Content) -> Result<What, Memory>
    ensures { IfOk result (λ what. what_item what ≡ quot (phrase_in (content_seen content))) }
{
    match content {
        Content::Items(items) => quotation_of(alloc, items),
        Content::Elements(_) => Ok(What::Quot(Phrase {
            items: Vec::new(alloc),
        })),
    }
}

// The elements of an array.
fn elements_of(alloc: Global, content: Content) -> Vec<Lit>
    ensures { result.items ≡ elements_in (content_seen content) }
{
    match content {
        Content::Items(_) => Vec::new(alloc),
        Content::Elements(mut elements) => {
            elements.shrink_to_fit();
            elements
        }
    }
}

/// Keeps an array behind those so far. Its number is how many these are.
pub fn keep_array(
    alloc: Global,
    arrays: &mut List<List<Lit>>,
    content: Content,
) -> Result<u32, Memory>
    ensures number { IfOk result (λ number. number ≡ length arrays.old) }
    ensures arrays { OnOk result (arrays.new ≡ arrays.old ++ elements_in (content_seen content) ∷ []) }
{
    let number = arrays.len();
    let array = List::from_vec(elements_of(alloc, content))?;
    arrays.push(array)?;
    Ok(number)
}

/// Adds a word as a value, by its number.
pub fn add_reference(content: &mut Content, word: u32, place: Place) -> Result<(), Memory>
    ensures { OnOk result (content_seen content.new ≡ with_reference word place (content_seen content.old)) }
{
    match content {
        Content::Items(items) => add_item(items, What::Wref(word), place),
        Content::Elements(elements) => add_element(elements, Lit::Wref(word)),
    }
}

// Adds an integer.
fn add_int(content: &mut Content, value: Integer, place: Place) -> Result<(), Memory>
    ensures { OnOk result (content_seen content.new ≡ with_literal (int value) place (content_seen content.old)) }
{
    match content {
        Content::Items(items) => add_item(items, What::Int(value), place),
        Content::Elements(elements) => add_element(elements, Lit::Int(value)),
    }
}

// Adds a string.
fn add_text(alloc: Global, content: &mut Content, text: &str, place: Place) -> Result<(), Memory>
    ensures { OnOk result (content_seen content.new ≡ with_literal (str text.now) place (content_seen content.old)) }
{
    let text = Text::from_str(alloc, text)?;
    match content {
        Content::Items(items) => add_item(items, What::Str(text), place),
        Content::Elements(elements) => add_element(elements, Lit::Str(text)),
    }
}

// Adds the value `t`.
fn add_true(content: &mut Content, place: Place) -> Result<(), Memory>
    ensures { OnOk result (content_seen content.new ≡ with_literal yes place (content_seen content.old)) }
{
    match content {
        Content::Items(items) => add_item(items, What::True, place),
        Content::Elements(elements) => add_element(elements, Lit::True),
    }
}

// Adds the value `f`.
fn add_false(content: &mut Content, place: Place) -> Result<(), Memory>
    ensures { OnOk result (content_seen content.new ≡ with_literal no place (content_seen content.old)) }
{
    match content {
        Content::Items(items) => add_item(items, What::False, place),
        Content::Elements(elements) => add_element(elements, Lit::False),
    }
}

/// Adds a literal, by the content of its token.
pub fn add_literal(
    alloc: Global,
    content: &mut Content,
    literal: Literal<Integer>,
    text: &str,
    place: Place,
) -> Result<(), Memory>
    ensures { OnOk result (content_seen content.new ≡ with_literal (literal_value text.now literal) place (content_seen content.old)) }
{
    match literal {
        Literal::Integer(value) => add_int(content, value, place),
        Literal::Text => add_text(alloc, content, text, place),
        Literal::True => add_true(content, place),
        Literal::False => add_false(content, place),
    }
}
