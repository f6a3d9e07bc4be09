//! The sequence of texts of a closed program, each of which is kept where it is first met.
ghost use Rattle.std.specs.Prelude.{◌≡◌, ◌∷◌, [], IfOk, OnOk, slice_get};
ghost use Rattle.fac_lang.specs.PhraseView.{what_item};
ghost use Rattle.fac_emit.specs.ProgramTexts.{with_texts, item_texts, phrase_texts, element_texts, elements_texts, template_texts, array_texts, body_texts, own_slots, class_texts, classes_texts};
ghost use Rattle.fac_emit.specs.ProgramTexts.{found_class_texts, sort_texts, word_texts, words_texts, templates_texts, arrays_texts, program_texts, no_texts, own_texts, own_elements_texts};

use crate::texts::Texts;
use fac_base::limits::MOST_LEVELS;
use fac_base::{List, Memory, Name, Text};
use fac_lang::{ClassDef, Lit, Phrase, Program, Shape, Sort, What, WordDef};
use fac_locals::Closed;
use std::alloc::Global;

// Adds the strings of a template, with those of the templates and arrays in it to so many levels.
#[cycle(nested)]
fn add_template(
    alloc: Global,
    texts: &mut Texts,
    closed: &Closed,
    levels: u32,
    template: u32,
) -> Result<(), Memory>
    ensures { OnOk result (texts.new ≡ with_texts texts.old (template_texts closed.now levels template)) }
{
    if levels == 0 {
        return Ok(());
    }
    match closed.templates.get(template as usize) {
        Some(found) => add_phrase(alloc, texts, closed, levels - 1, &found.body),
        None => Ok(()),
    }
}

// Adds those of a literal array.
#[cycle(nested)]
fn add_array(
    alloc: Global,
    texts: &mut Texts,
    closed: &Closed,
    levels: u32,
    array: u32,
) -> Result<(), Memory>
    ensures { OnOk result (texts.new ≡ with_texts texts.old (array_texts closed.now levels array)) }
{
    if levels == 0 {
        return Ok(());
    }
    match closed.program.arrays.get(array as usize) {
        Some(found) => add_elements(alloc, texts, closed, levels - 1, found),
        None => Ok(()),
    }
}

// Adds those of an item.
#[cycle(nested)]
fn add_item(
    alloc: Global,
    texts: &mut Texts,
    closed: &Closed,
    levels: u32,
    what: &What,
) -> Result<(), Memory>
    ensures { OnOk result (texts.new ≡ with_texts texts.old (item_texts (template_texts closed.now levels) (array_texts closed.now levels) (what_item what.now))) }
{
    match what {
        What::Str(text) => texts.add(alloc, text),
        What::Arr(array) => add_array(alloc, texts, closed, levels, *array),
        What::Made(template) => add_template(alloc, texts, closed, levels, *template),
        _ => Ok(()),
    }
}

// Adds those of a phrase.
#[cycle(nested)]
fn add_phrase(
    alloc: Global,
    texts: &mut Texts,
    closed: &Closed,
    levels: u32,
    phrase: &Phrase,
) -> Result<(), Memory>
    ensures { OnOk result (texts.new ≡ with_texts texts.old (phrase_texts (template_texts closed.now levels) (array_texts closed.now levels) phrase.now)) }
{
    for item in &phrase.items {
        add_item(alloc, texts, closed, levels, &item.what)?;
    }
    Ok(())
}

// Adds those of an element.
#[cycle(nested)]
fn add_element(
    alloc: Global,
    texts: &mut Texts,
    closed: &Closed,
    levels: u32,
    lit: &Lit,
) -> Result<(), Memory>
    ensures { OnOk result (texts.new ≡ with_texts texts.old (element_texts (template_texts closed.now levels) (array_texts closed.now levels) lit.now)) }
{
    match lit {
        Lit::Str(text) => texts.add(alloc, text),
        Lit::Arr(array) => add_array(alloc, texts, closed, levels, *array),
        Lit::Made(template) => add_template(alloc, texts, closed, levels, *template),
        _ => Ok(()),
    }
}

// Adds those of elements.
#[cycle(nested)]
fn add_elements(
    alloc: Global,
    texts: &mut Texts,
    closed: &Closed,
    levels: u32,
    lits: &List<Lit>,
) -> Result<(), Memory>
    ensures { OnOk result (texts.new ≡ with_texts texts.old (elements_texts (template_texts closed.now levels) (array_texts closed.now levels) lits.now)) }
{
    for lit in lits.as_slice() {
        add_element(alloc, texts, closed, levels, lit)?;
    }
    Ok(())
}

// Adds those of a word's phrase.
fn add_body(
    alloc: Global,
    texts: &mut Texts,
    closed: &Closed,
    phrase: &Phrase,
) -> Result<(), Memory>
    ensures { OnOk result (texts.new ≡ with_texts texts.old (body_texts closed.now phrase.now)) }
{
    add_phrase(alloc, texts, closed, MOST_LEVELS + 1, phrase)
}

// Adds the vocabulary and the name of a word or class.
fn add_name(alloc: Global, texts: &mut Texts, name: &Name) -> Result<(), Memory>
    ensures { OnOk result (texts.new ≡ with_texts texts.old (name.now.vocab ∷ name.now.name ∷ [])) }
{
    texts.add(alloc, &name.vocab)?;
    texts.add(alloc, &name.name)
}

// Adds slots.
fn add_slots(alloc: Global, texts: &mut Texts, slots: &List<Text>) -> Result<(), Memory>
    ensures { OnOk result (texts.new ≡ with_texts texts.old slots.now) }
{
    for slot in slots.as_slice() {
        texts.add(alloc, slot)?;
    }
    Ok(())
}

// Adds the slots that a class has as its own.
fn add_own(alloc: Global, texts: &mut Texts, shape: &Shape) -> Result<(), Memory>
    ensures { OnOk result (texts.new ≡ with_texts texts.old (own_slots shape.now)) }
{
    match shape {
        Shape::Tuple { slots, .. } => add_slots(alloc, texts, slots),
        _ => Ok(()),
    }
}

// Adds the names of a class and of its own slots.
fn add_class(alloc: Global, texts: &mut Texts, class: &ClassDef) -> Result<(), Memory>
    ensures { OnOk result (texts.new ≡ with_texts texts.old (class_texts class.now)) }
{
    add_name(alloc, texts, &class.name)?;
    add_own(alloc, texts, &class.shape)
}

// Adds those of the class with this number.
fn add_class_numbered(
    alloc: Global,
    texts: &mut Texts,
    program: &Program,
    class: u32,
) -> Result<(), Memory>
    ensures { OnOk result (texts.new ≡ with_texts texts.old (found_class_texts (slice_get program.now.classes class))) }
{
    match program.classes.get(class as usize) {
        Some(found) => add_class(alloc, texts, found),
        None => Ok(()),
    }
}

// Adds the texts of what a word is.
fn add_sort(alloc: Global, texts: &mut Texts, closed: &Closed, sort: &Sort) -> Result<(), Memory>
    ensures { OnOk result (texts.new ≡ with_texts texts.old (sort_texts closed.now sort.now)) }
{
    match sort {
        Sort::Body(phrase) => add_body(alloc, texts, closed, phrase),
        Sort::Past(phrase) => add_body(alloc, texts, closed, phrase),
        Sort::Method { body, .. } => add_body(alloc, texts, closed, body),
        Sort::Class(class) => add_class_numbered(alloc, texts, &closed.program, *class),
        Sort::Getter(slot) => texts.add(alloc, slot),
        Sort::Setter(slot) => texts.add(alloc, slot),
        Sort::Putter(slot) => texts.add(alloc, slot),
        _ => Ok(()),
    }
}

// Adds those of a word.
fn add_word(alloc: Global, texts: &mut Texts, closed: &Closed, word: &WordDef) -> Result<(), Memory>
    ensures { OnOk result (texts.new ≡ with_texts texts.old (word_texts closed.now word.now)) }
{
    add_name(alloc, texts, &word.name)?;
    add_sort(alloc, texts, closed, &word.sort)
}

// Adds those of all words.
fn add_words(alloc: Global, texts: &mut Texts, closed: &Closed) -> Result<(), Memory>
    ensures { OnOk result (texts.new ≡ with_texts texts.old (words_texts closed.now closed.now.program.words)) }
{
    for word in closed.program.words.as_slice() {
        add_word(alloc, texts, closed, word)?;
    }
    Ok(())
}

// Adds the strings that stand in a phrase itself.
fn add_own_strings(
    alloc: Global,
    texts: &mut Texts,
    closed: &Closed,
    phrase: &Phrase,
) -> Result<(), Memory>
    ensures { OnOk result (texts.new ≡ with_texts texts.old (own_texts phrase.now)) }
{
    add_phrase(alloc, texts, closed, 0, phrase)
}

// Adds the strings that stand in the phrases of templates.
fn add_templates(alloc: Global, texts: &mut Texts, closed: &Closed) -> Result<(), Memory>
    ensures { OnOk result (texts.new ≡ with_texts texts.old (templates_texts closed.now.templates)) }
{
    for template in closed.templates.as_slice() {
        add_own_strings(alloc, texts, closed, &template.body)?;
    }
    Ok(())
}

// Adds the strings that stand in an array itself.
fn add_own_elements(
    alloc: Global,
    texts: &mut Texts,
    closed: &Closed,
    lits: &List<Lit>,
) -> Result<(), Memory>
    ensures { OnOk result (texts.new ≡ with_texts texts.old (own_elements_texts lits.now)) }
{
    add_elements(alloc, texts, closed, 0, lits)
}

// Adds the strings that stand in literal arrays.
fn add_arrays(alloc: Global, texts: &mut Texts, closed: &Closed) -> Result<(), Memory>
    ensures { OnOk result (texts.new ≡ with_texts texts.old (arrays_texts closed.now.program.arrays)) }
{
    for lits in closed.program.arrays.as_slice() {
        add_own_elements(alloc, texts, closed, lits)?;
    }
    Ok(())
}

// Adds the names of classes and of their slots.
fn add_classes(alloc: Global, texts: &mut Texts, classes: &List<ClassDef>) -> Result<(), Memory>
    ensures { OnOk result (texts.new ≡ with_texts texts.old (classes_texts classes.now)) }
{
    for class in classes.as_slice() {
        add_class(alloc, texts, class)?;
    }
    Ok(())
}

/// The texts of a closed program's image.
pub fn texts_of(alloc: Global, closed: &Closed) -> Result<Texts, Memory>
    ensures { IfOk result (λ texts. texts ≡ program_texts closed.now) }
{
    let mut texts = Texts::new(alloc);
    add_words(alloc, &mut texts, closed)?;
    add_templates(alloc, &mut texts, closed)?;
    add_arrays(alloc, &mut texts, closed)?;
    add_classes(alloc, &mut texts, &closed.program.classes)?;
    Ok(texts)
}
