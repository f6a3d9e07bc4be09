//! What forms with items define and do, and `C:`, whose items are made.
ghost use Rattle.std.specs.Prelude.{◌≡◌, ◌∷◌, [], codes, false, map, IfOk, OnOk};
ghost use Rattle.fac_lang.specs.PhraseView.{items_phrase};
ghost use Rattle.fac_lang.specs.Phrases.{end, then, word};
ghost use Rattle.fac_lang.specs.RunningLaws.{append};
ghost use Rattle.fac_lang.specs.declared.program.Sort.TheVariants.{Body};
ghost use Rattle.fac_vocab.specs.Scopes.{word_held};
ghost use Rattle.fac_source.specs.Toks.{number};
ghost use Rattle.fac_endings.specs.Words.{no_effect};
ghost use Rattle.fac_items.specs.FromElements.{AreClosing, nested, tok};
ghost use Rattle.fac_items.specs.Items.{ref, search_faults};
ghost use Rattle.fac_items.specs.Readings.{read_form, with_inputs};
ghost use Rattle.fac_items.specs.inner.Behind.{name_tok};
ghost use Rattle.fac_items.specs.Written.{f_define, f_items, f_maker, f_method, given};
ghost use Rattle.fac_names.specs.Forms.{added, refused, take};
ghost use Rattle.fac_names.specs.inner.State.{Reads, reading_of};

use crate::drafts::WordFacts;
use crate::forms::sole_item;
use crate::naming::own;
use crate::so_far::SoFar;
use fac_base::{Boxed, Effect, Memory, Name, Place, Text};
use fac_effect::text;
use fac_endings::{Late, no_effect};
use fac_items::{NameAt, phrase_of, refer};
use fac_lang::{Item, Phrase, Sort, What};
use fac_source::{Element, Ref, Token};
use std::alloc::Global;

// The phrase of items behind the bindings of inputs.
fn read_phrase<'a>(
    alloc: Global,
    so_far: &mut SoFar,
    inputs: &[NameAt<'a>],
    elements: &'a [Element],
) -> Result<Phrase, Memory>
    requires { AreClosing [] elements.now }
    ensures { IfOk result (λ phrase. Reads so_far.old (with_inputs (map name_tok inputs.now) (nested elements.now)) phrase so_far.new) }
{
    phrase_of(
        alloc,
        &so_far.scope,
        &mut so_far.first,
        &mut so_far.arrays,
        inputs,
        elements,
    )
}

// The phrase of items without inputs.
fn read_items(alloc: Global, so_far: &mut SoFar, elements: &[Element]) -> Result<Phrase, Memory>
    requires { AreClosing [] elements.now }
    ensures { IfOk result (λ phrase. Reads so_far.old (nested elements.now) phrase so_far.new) }
{
    read_phrase(alloc, so_far, &[], elements)
}

/// Takes the definition of a word with this effect and these marks, `inline` and `recursive`. Its inputs are locals where there are any.
pub fn define<'a>(
    alloc: Global,
    so_far: &mut SoFar,
    name: &Token,
    effect: Effect,
    inputs: &[NameAt<'a>],
    elements: &'a [Element],
    marks: (bool, bool),
) -> Result<(), Memory>
    requires { AreClosing [] elements.now }
    ensures { OnOk result (reading_of so_far.new ≡ take (f_define (tok name.now) (given effect) (with_inputs (map name_tok inputs.now) (nested elements.now)) marks.0 marks.1) (reading_of so_far.old)) }
{
    let (inline, recursive) = marks;
    let number = own(alloc, so_far, name)?;
    let body = read_phrase(alloc, so_far, inputs, elements)?;
    so_far.drafts.tell(
        number,
        WordFacts {
            sort: Sort::Body(body),
            effect,
            inline,
            recursive,
            late: Late::Settled,
        },
    )
}

// What a word is whose phrase has an effect that is late.
fn late_body(alloc: Global, body: Phrase, late: Late) -> WordFacts
    ensures sort { result.sort ≡ Body body }
    ensures effect { result.effect ≡ no_effect }
    ensures inline { result.inline ≡ false }
    ensures recursive { result.recursive ≡ false }
    ensures late { result.late ≡ late }
{
    WordFacts {
        sort: Sort::Body(body),
        effect: no_effect(alloc),
        inline: false,
        recursive: false,
        late,
    }
}

// The name of a method, which no table has.
fn method_name(alloc: Global, generic: &Token) -> Result<Name, Memory>
    ensures { IfOk result (λ name. name ≡ record { vocab = []; name = (tok generic.now).text }) }
{
    let name = Text::from_str(alloc, text(&generic.kind))?;
    Ok(Name {
        vocab: Text::new(alloc),
        name,
    })
}

// Two names, moved to the heap.
fn both_boxed(alloc: Global, class: Ref, generic: Ref) -> Result<(Boxed<Ref>, Boxed<Ref>), Memory>
    ensures { IfOk result (λ both. (both.0 ≡ class) × (both.1 ≡ generic)) }
{
    let class = Boxed::new(alloc, class)?;
    match Boxed::new(alloc, generic) {
        Ok(generic) => Ok((class, generic)),
        Err(Memory) => Err(Memory),
    }
}

// The class and the generic of a method.
fn refer_both(
    alloc: Global,
    so_far: &mut SoFar,
    class: &Token,
    generic: &Token,
) -> Result<(Boxed<Ref>, Boxed<Ref>), Memory>
    ensures class { IfOk result (λ both. both.0 ≡ ref so_far.old.scope (tok class.now)) }
    ensures generic { IfOk result (λ both. both.1 ≡ ref so_far.old.scope (tok generic.now)) }
    ensures refused { OnOk result (reading_of so_far.new ≡ refused (search_faults so_far.old.scope (tok class.now ∷ tok generic.now ∷ [])) (reading_of so_far.old)) }
{
    let class = refer(alloc, &so_far.scope, &mut so_far.first, class)?;
    let generic = refer(alloc, &so_far.scope, &mut so_far.first, generic)?;
    both_boxed(alloc, class, generic)
}

// A new word for a method.
fn add_method(alloc: Global, so_far: &mut SoFar, generic: &Token) -> Result<u32, Memory>
    ensures { IfOk result (λ number. record { word = number; reading = reading_of so_far.new } ≡ added [] (tok generic.now) (reading_of so_far.old)) }
{
    let number = so_far.drafts.len()?;
    let name = method_name(alloc, generic)?;
    so_far.drafts.add(alloc, name, generic.place)?;
    Ok(number)
}

/// Takes an `M:`.
pub fn method(
    alloc: Global,
    so_far: &mut SoFar,
    class: &Token,
    generic: &Token,
    elements: &[Element],
) -> Result<(), Memory>
    requires { AreClosing [] elements.now }
    ensures { OnOk result (reading_of so_far.new ≡ take (f_method (tok class.now) (tok generic.now) (nested elements.now)) (reading_of so_far.old)) }
{
    let (class, of) = refer_both(alloc, so_far, class, generic)?;
    let number = add_method(alloc, so_far, generic)?;
    let body = read_items(alloc, so_far, elements)?;
    so_far
        .drafts
        .tell(number, late_body(alloc, body, Late::Method(class, of)))
}

// The phrase of a `C:`: the word of its class, and `boa`.
fn maker_phrase(alloc: Global, class: u32, boa: u32, place: Place) -> Result<Phrase, Memory>
    ensures { IfOk result (λ phrase. phrase ≡ then (word class) place (then (word boa) place end)) }
{
    let mut items = sole_item(alloc, class, place)?;
    items.push(Item {
        what: What::Word(boa),
        place,
    })?;
    Ok(Phrase { items })
}

// The number of the word `boa`.
fn boa_number(so_far: &SoFar) -> u32
    ensures { result ≡ number (word_held so_far.now.scope.table (codes "kernel") (codes "boa")) }
{
    match so_far.scope.word("kernel", "boa") {
        Some(number) => number,
        None => 0,
    }
}

// The number of a name's word, or 0 where there is none.
fn number_of(name: &Ref) -> u32
    ensures { result ≡ number name.now.word }
{
    match name.word {
        Some(number) => number,
        None => 0,
    }
}

/// Takes a `C:`.
pub fn maker(alloc: Global, so_far: &mut SoFar, name: &Token, class: &Token) -> Result<(), Memory>
    ensures { OnOk result (reading_of so_far.new ≡ take (read_form (f_maker (tok name.now) (tok class.now))) (reading_of so_far.old)) }
{
    let number = own(alloc, so_far, name)?;
    let class = refer(alloc, &so_far.scope, &mut so_far.first, class)?;
    let body = maker_phrase(alloc, number_of(&class), boa_number(so_far), name.place)?;
    let boxed = Boxed::new(alloc, class)?;
    so_far
        .drafts
        .tell(number, late_body(alloc, body, Late::Maker(boxed)))
}

/// Adds items behind others. Where there are none before them, none is copied.
#[tactic(auto, using(fac_items::proofs::PhraseLemmas::items_phrase_append))]
pub fn add_items(items: &mut Vec<Item>, mut more: Vec<Item>) -> Result<(), Memory>
    ensures { OnOk result (items_phrase items.new.items ≡ append (items_phrase items.old.items) (items_phrase more.items)) }
{
    if items.len() == 0 {
        *items = more;
        return Ok(());
    }
    items.append(&mut more)?;
    Ok(())
}

/// Takes items at the top level.
pub fn take_items(alloc: Global, so_far: &mut SoFar, elements: &[Element]) -> Result<(), Memory>
    requires { AreClosing [] elements.now }
    ensures { OnOk result (reading_of so_far.new ≡ take (f_items (nested elements.now)) (reading_of so_far.old)) }
{
    let phrase = read_items(alloc, so_far, elements)?;
    add_items(&mut so_far.items, phrase.items)?;
    Ok(())
}
