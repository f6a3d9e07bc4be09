//! The rule of undeclared recursion.
ghost use Rattle.std.specs.Prelude.{◌≡◌, ◌++◌, ◌<◌, true, length, IfOk, OnOk, slice_get};
ghost use Rattle.fac_lang.specs.PhraseView.{what_item};
ghost use Rattle.fac_check.specs.inner.Walkable.{takes_all, takes_item, takes_phrase, takes_word};
ghost use Rattle.fac_check.specs.inner.UndeclaredRecursion.{named_word, made_template, inline_phrase, inline_word, left_out, are_below};
ghost use Rattle.fac_check.specs.inner.UndeclaredRecursion.{item_names, phrase_names, template_names, level_names, item_makes, phrase_makes, template_makes, level_makes};
ghost use Rattle.fac_check.specs.inner.UndeclaredRecursion.{AddsTemplates, AddsNames, LedBy, LedByPhrase, AreEdges};
ghost use Rattle.fac_check.specs.Judged.{AreUndeclared, StandsForWhole};

use fac_base::{List, Memory};
use fac_graph::leading_back;
use fac_lang::{Phrase, Sort, What, WordDef};
use fac_locals::Closed;
use std::alloc::Global;

// The word that an item names, as an item or by `\`.
fn named_in(what: &What) -> Option<u32>
    ensures { result ≡ named_word (what_item what.now) }
{
    match what {
        What::Word(word) => Some(*word),
        What::Wref(word) => Some(*word),
        _ => None,
    }
}

// The template of an item.
fn made_in(what: &What) -> Option<u32>
    ensures { result ≡ made_template (what_item what.now) }
{
    match what {
        What::Made(number) => Some(*number),
        _ => None,
    }
}

/// Whether a word is an inline word with a phrase.
pub fn is_inline(word: &WordDef) -> bool
    ensures { result ≡ inline_phrase word.now.inline word.now.sort }
{
    match &word.sort {
        Sort::Body(_) => word.inline,
        _ => false,
    }
}

// Adds a word, where it is an inline word with a phrase.
fn add_word(words: &List<WordDef>, number: u32, named: &mut List<u32>) -> Result<(), Memory>
    requires { number < length words.now }
    ensures { OnOk result (named.new ≡ named.old ++ inline_word number (slice_get words.now number)) }
{
    match words.get(number as usize) {
        Some(word) => {
            if is_inline(word) {
                return named.push(number);
            }
            Ok(())
        }
        None => unreachable!(),
    }
}

// Adds the word that an item names.
fn add_named(closed: &Closed, what: &What, named: &mut List<u32>) -> Result<(), Memory>
    requires program { takes_all closed.now.program closed.now.templates ≡ true }
    requires item { takes_item closed.now.program.top (length closed.now.templates) (what_item what.now) ≡ true }
    ensures { OnOk result (named.new ≡ named.old ++ item_names closed.now.program (what_item what.now)) }
{
    match named_in(what) {
        Some(number) => add_word(&closed.program.words, number, named),
        None => Ok(()),
    }
}

// Adds the words that the items of a phrase name.
fn add_names(closed: &Closed, phrase: &Phrase, named: &mut List<u32>) -> Result<(), Memory>
    requires program { takes_all closed.now.program closed.now.templates ≡ true }
    requires phrase { takes_phrase closed.now.program.top (length closed.now.templates) phrase.now ≡ true }
    ensures { OnOk result (named.new ≡ named.old ++ phrase_names closed.now.program phrase.now) }
{
    for item in &phrase.items {
        add_named(closed, &item.what, named)?;
    }
    Ok(())
}

// Adds the template that an item makes, where its number is this one or a larger one.
fn add_made(from: u32, what: &What, made: &mut List<u32>) -> Result<(), Memory>
    ensures { OnOk result (made.new ≡ made.old ++ item_makes from (what_item what.now)) }
{
    match made_in(what) {
        Some(number) => {
            if from <= number {
                return made.push(number);
            }
            Ok(())
        }
        None => Ok(()),
    }
}

// Adds the templates that the items of a phrase make, where their numbers are this one or larger ones.
fn add_templates(from: u32, phrase: &Phrase, made: &mut List<u32>) -> Result<(), Memory>
    ensures { OnOk result (made.new ≡ made.old ++ phrase_makes from phrase.now) }
{
    for item in &phrase.items {
        add_made(from, &item.what, made)?;
    }
    Ok(())
}

// Adds the words that the phrase of a template names, and the templates that it makes.
fn add_inner(
    closed: &Closed,
    from: u32,
    number: u32,
    named: &mut List<u32>,
    made: &mut List<u32>,
) -> Result<(), Memory>
    requires program { takes_all closed.now.program closed.now.templates ≡ true }
    requires number { number < length closed.now.templates }
    ensures named { OnOk result (named.new ≡ named.old ++ template_names closed.now.program (slice_get closed.now.templates number)) }
    ensures made { OnOk result (made.new ≡ made.old ++ template_makes from (slice_get closed.now.templates number)) }
{
    match closed.templates.get(number as usize) {
        Some(template) => {
            add_names(closed, &template.body, named)?;
            add_templates(from, &template.body, made)
        }
        None => unreachable!(),
    }
}

// Adds the words that the phrases of these templates name. The answer is the templates that they make, where their numbers are this one or
// larger ones.
fn next_level(
    alloc: Global,
    closed: &Closed,
    from: u32,
    level: &List<u32>,
    named: &mut List<u32>,
) -> Result<List<u32>, Memory>
    requires program { takes_all closed.now.program closed.now.templates ≡ true }
    requires level { are_below (length closed.now.templates) level.now ≡ true }
    ensures named { OnOk result (named.new ≡ named.old ++ level_names closed.now.program closed.now.templates level.now) }
    ensures made { IfOk result (λ made. made ≡ level_makes from closed.now.templates level.now) }
{
    let mut made = List::new(alloc);
    for number in level.as_slice() {
        add_inner(closed, from, *number, named, &mut made)?;
    }
    Ok(made)
}

// Adds the words that these templates and all templates in them name, level by level. A template has a larger number than the one around it,
// so none that stands so many deep has a lower number than that.
fn add_levels(
    alloc: Global,
    closed: &Closed,
    made: List<u32>,
    named: &mut List<u32>,
) -> Result<(), Memory>
    requires program { takes_all closed.now.program closed.now.templates ≡ true }
    requires made { are_below (length closed.now.templates) made ≡ true }
    ensures { OnOk result (AddsTemplates closed.now.program closed.now.templates made named.old named.new) }
{
    let _count = closed.templates.len();
    let mut level = made;
    let mut depth = 0u32;
    'levels: while level.len() > 0 {
        depth += 1;
        level = next_level(alloc, closed, depth, &level, named)?;
    }
    Ok(())
}

// Adds the words that a phrase and all templates in it name.
fn add_phrase(
    alloc: Global,
    closed: &Closed,
    phrase: &Phrase,
    named: &mut List<u32>,
) -> Result<(), Memory>
    requires program { takes_all closed.now.program closed.now.templates ≡ true }
    requires phrase { takes_phrase closed.now.program.top (length closed.now.templates) phrase.now ≡ true }
    ensures { OnOk result (AddsNames closed.now.program closed.now.templates phrase.now named.old named.new) }
{
    let mut made = List::new(alloc);
    add_names(closed, phrase, named)?;
    add_templates(0, phrase, &mut made)?;
    add_levels(alloc, closed, made, named)
}

// A list without one number.
fn leave_out(alloc: Global, number: u32, numbers: &List<u32>) -> Result<List<u32>, Memory>
    ensures { IfOk result (λ left. left ≡ left_out number numbers.now) }
{
    let mut left = List::new(alloc);
    for other in numbers.as_slice() {
        if number != *other {
            left.push(*other)?;
        }
    }
    Ok(left)
}

// The words that an inline word leads to.
fn led_by_phrase(
    alloc: Global,
    closed: &Closed,
    number: u32,
    recursive: bool,
    phrase: &Phrase,
) -> Result<List<u32>, Memory>
    requires program { takes_all closed.now.program closed.now.templates ≡ true }
    requires phrase { takes_phrase closed.now.program.top (length closed.now.templates) phrase.now ≡ true }
    ensures { IfOk result (LedByPhrase closed.now.program closed.now.templates number recursive phrase.now) }
{
    let mut named = List::new(alloc);
    add_phrase(alloc, closed, phrase, &mut named)?;
    if recursive {
        return leave_out(alloc, number, &named);
    }
    Ok(named)
}

// The words that a word leads to.
fn led_by(alloc: Global, closed: &Closed, number: u32, word: &WordDef) -> Result<List<u32>, Memory>
    requires program { takes_all closed.now.program closed.now.templates ≡ true }
    requires word { takes_word closed.now.program.top (length closed.now.templates) word.now ≡ true }
    ensures { IfOk result (LedBy closed.now.program closed.now.templates number word.now) }
{
    match &word.sort {
        Sort::Body(phrase) => {
            if word.inline {
                return led_by_phrase(alloc, closed, number, word.recursive, phrase);
            }
            Ok(List::new(alloc))
        }
        _ => Ok(List::new(alloc)),
    }
}

// The words that each word leads to.
fn edges_of(alloc: Global, closed: &Closed) -> Result<List<List<u32>>, Memory>
    requires { takes_all closed.now.program closed.now.templates ≡ true }
    ensures { IfOk result (AreEdges closed.now.program closed.now.templates) }
{
    let mut edges = List::new(alloc);
    let _count = closed.program.words.len();
    let mut number = 0u32;
    for word in closed.program.words.as_slice() {
        edges.push(led_by(alloc, closed, number, word)?)?;
        number += 1;
    }
    Ok(edges)
}

/// For each word of a closed program whether it breaks the rule of undeclared recursion: whether the phrase of an inline word, followed
/// through the inline words that it names, leads back to the word, otherwise than directly where it is marked recursive. The time is about that
/// of one walk through all phrases. Want of memory is the one error.
pub fn undeclared_words(alloc: Global, closed: &Closed) -> Result<List<bool>, Memory>
    requires { StandsForWhole closed.now }
    ensures { IfOk result (AreUndeclared closed.now.program closed.now.templates) }
{
    let edges = edges_of(alloc, closed)?;
    leading_back(alloc, &edges)
}
