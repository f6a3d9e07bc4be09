//! Whether a program asks for the effects of callables as it runs.
ghost use Rattle.std.specs.Prelude.{◌≡◌};
ghost use Rattle.std.specs.List.{list_any};
ghost use Rattle.fac_lang.specs.PhraseView.{what_item};
ghost use Rattle.fac_emit.specs.Heights.{asks, phrase_asks as phrase_asks_one, sort_asks as sort_asks_one, template_asks, word_asks, asks_effects as asks_any};

use fac_lang::{Phrase, Sort, Template, What, WordDef};
use fac_locals::Closed;

// Whether an item is `call( )`.
fn item_asks(what: &What) -> bool
    ensures { result ≡ asks (what_item what.now) }
{
    match what {
        What::CallEffect(_) => true,
        _ => false,
    }
}

// Whether one stands in a phrase.
fn phrase_asks(phrase: &Phrase) -> bool
    ensures { result ≡ phrase_asks_one phrase.now }
{
    for item in &phrase.items {
        if item_asks(&item.what) {
            return true;
        }
    }
    false
}

// Whether one stands in the phrase that a word of this sort runs.
fn sort_asks(sort: &Sort) -> bool
    ensures { result ≡ sort_asks_one sort.now }
{
    match sort {
        Sort::Body(phrase) => phrase_asks(phrase),
        Sort::Method { body, .. } => phrase_asks(body),
        _ => false,
    }
}

// Whether one stands in the phrase of a template.
fn templates_ask(templates: &[Template]) -> bool
    ensures { result ≡ list_any template_asks templates.now }
{
    for template in templates {
        if phrase_asks(&template.body) {
            return true;
        }
    }
    false
}

// Whether one stands in the phrase of a word.
fn words_ask(words: &[WordDef]) -> bool
    ensures { result ≡ list_any word_asks words.now }
{
    for word in words {
        if sort_asks(&word.sort) {
            return true;
        }
    }
    false
}

/// Whether a closed program asks for the effect of a callable, which `call( )` alone does. Where it doesn't, `compile` needs no effects of its
/// templates, and may be handed an empty list.
pub fn asks_effects(closed: &Closed) -> bool
    ensures { result ≡ asks_any closed.now }
{
    if templates_ask(closed.templates.as_slice()) {
        return true;
    }
    words_ask(closed.program.words.as_slice())
}
