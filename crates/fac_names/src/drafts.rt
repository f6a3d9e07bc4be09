//! Words as far as they are told.
ghost use Rattle.std.specs.Prelude.{◌≡◌, ◌++◌, ◌∷◌, [], length, IfOk, OnOk};
ghost use Rattle.fac_names.specs.Forms.{at_place, changed, counted, draft_of, is_class_sort, is_counted, one_more_if, with_told};
ghost use Rattle.fac_lang.specs.LongerPrograms.{as_earlier as past_sort};
ghost use Rattle.fac_names.specs.Resolved.{as_earlier};
ghost use Rattle.fac_names.specs.inner.Counts.{Recounts};

use fac_base::{Effect, Memory, Name, Place};
use fac_endings::{Draft, Late, no_effect};
use fac_lang::{Sort, WordDef};
use std::alloc::Global;
use std::marker::Model;
use std::mem;

/// Words, by their numbers.
#[derive(Drop)]
pub struct Drafts {
    list: Vec<Draft>,
    // How many of them count as classes that files define.
    classes: u64,
}

impl Model for Drafts {
    ghost use Rattle.std.specs.Prelude.{◌≡◌, List};
    ghost use Rattle.fac_endings.specs.declared.draft.Draft.{Draft};
    ghost use Rattle.fac_names.specs.Forms.{counted};

    ghost Value = { List Draft };

    ghost use Rattle.std.specs.Coded.{coded_list};
    ghost use Rattle.fac_endings.specs.contracts.draft.Draft as draft;

    ghost coded = { coded_list draft.the_row.coded };

    ghost view = { λ d. d.list.items };

    ghost invariant = { λ d. d.classes ≡ counted d.list.items };
}

// Whether a word is that of a class.
fn is_class(sort: &Sort) -> bool
    ensures { result ≡ is_class_sort sort.now }
{
    match sort {
        Sort::Class(_) => true,
        Sort::Prim(_) => false,
        Sort::Core(_) => false,
        Sort::Body(_) => false,
        Sort::Past(_) => false,
        Sort::Itself => false,
        Sort::Isa(_) => false,
        Sort::Getter(_) => false,
        Sort::Setter(_) => false,
        Sort::Putter(_) => false,
        Sort::Generic => false,
        Sort::Method { .. } => false,
    }
}

// Whether a word counts as a class that a file defines.
fn is_counted(word: &WordDef) -> bool
    ensures { result ≡ is_counted word.now }
{
    word.place.file > 0 && is_class(&word.sort)
}

// One more, if this holds. A number that is too large is want of memory.
fn one_more_if(more: bool, count: u64) -> Result<u64, Memory>
    ensures { IfOk result (λ next. next ≡ one_more_if more count) }
{
    if more {
        match count.checked_add(1) {
            Some(next) => Ok(next),
            None => Err(Memory),
        }
    } else {
        Ok(count)
    }
}

// A count of which one may be changed, before and behind the change.
fn recounted(count: u64, before: bool, after: bool) -> Result<u64, Memory>
    ensures { IfOk result (λ next. Recounts count before after next) }
{
    if before {
        if after {
            Ok(count)
        } else {
            Ok(count.saturating_sub(1))
        }
    } else {
        one_more_if(after, count)
    }
}

// A word that isn't told yet.
fn untold(alloc: Global, name: Name, place: Place) -> Draft
    ensures { result ≡ draft_of name.vocab (record { text = name.name; place = place }) }
{
    Draft {
        word: WordDef {
            name,
            sort: Sort::Itself,
            effect: no_effect(alloc),
            inline: false,
            recursive: false,
            place,
        },
        late: Late::Deferred,
    }
}

/// What a word is.
#[derive(Drop)]
pub struct WordFacts {
    pub sort: Sort,
    pub effect: Effect,
    pub inline: bool,
    pub recursive: bool,
    pub late: Late,
}

// Whether a word counts behind it gets a place.
fn counts_at(word: &WordDef, place: Place) -> bool
    ensures { result ≡ is_counted (record word.now { place = place }) }
{
    place.file > 0 && is_class(&word.sort)
}

// Whether a word counts behind it is told to be of a sort.
fn counts_as(word: &WordDef, sort: &Sort) -> bool
    ensures { result ≡ is_counted (record word.now { sort = sort.now }) }
{
    word.place.file > 0 && is_class(sort)
}

// The count of classes where the word of a number gets a place.
#[tactic(auto, using(crate::proofs::DraftLemmas::uncounted))]
fn placed_count(list: &[Draft], classes: u64, number: u32, place: Place) -> Result<u64, Memory>
    requires { classes ≡ counted list.now }
    ensures { IfOk result (λ next. next ≡ counted (changed (at_place place) number list.now)) }
{
    match list.get(number as usize) {
        Some(draft) => {
            let after = counts_at(&draft.word, place);
            recounted(classes, is_counted(&draft.word), after)
        }
        None => Ok(classes),
    }
}

// The count of classes where the word of a number is told.
#[tactic(auto, using(crate::proofs::DraftLemmas::uncounted))]
fn told_count(list: &[Draft], classes: u64, number: u32, told: &WordFacts) -> Result<u64, Memory>
    requires { classes ≡ counted list.now }
    ensures { IfOk result (λ next. next ≡ counted (changed (with_told told.now.sort told.now.effect told.now.inline told.now.recursive told.now.late) number list.now)) }
{
    match list.get(number as usize) {
        Some(draft) => {
            let after = counts_as(&draft.word, &told.sort);
            recounted(classes, is_counted(&draft.word), after)
        }
        None => Ok(classes),
    }
}

// Gives the word of a number its place.
fn place_at(list: &mut Vec<Draft>, number: u32, place: Place)
    ensures { list.new.items ≡ changed (at_place place) number list.old.items }
{
    if let Some(draft) = list.get_mut(number as usize) {
        draft.word.place = place;
    }
}

// Tells what the word of a number is.
fn tell_at(list: &mut Vec<Draft>, number: u32, told: WordFacts)
    ensures { list.new.items ≡ changed (with_told told.sort told.effect told.inline told.recursive told.late) number list.old.items }
{
    let WordFacts {
        sort,
        effect,
        inline,
        recursive,
        late,
    } = told;
    if let Some(draft) = list.get_mut(number as usize) {
        draft.word.sort = sort;
        draft.word.effect = effect;
        draft.word.inline = inline;
        draft.word.recursive = recursive;
        draft.late = late;
    }
}

// What a word is that was a top-level phrase.
fn retired(sort: Sort) -> Sort
    ensures { result ≡ past_sort sort }
{
    match sort {
        Sort::Prim(number) => Sort::Prim(number),
        Sort::Core(core) => Sort::Core(core),
        Sort::Body(phrase) => Sort::Past(phrase),
        Sort::Past(phrase) => Sort::Past(phrase),
        Sort::Itself => Sort::Itself,
        Sort::Class(class) => Sort::Class(class),
        Sort::Isa(class) => Sort::Isa(class),
        Sort::Getter(slot) => Sort::Getter(slot),
        Sort::Setter(slot) => Sort::Setter(slot),
        Sort::Putter(slot) => Sort::Putter(slot),
        Sort::Generic => Sort::Generic,
        Sort::Method {
            class,
            generic,
            body,
        } => Sort::Method {
            class,
            generic,
            body,
        },
    }
}

// Makes the word of a number an earlier top-level phrase.
fn retire_at(list: &mut Vec<Draft>, number: u32)
    ensures { list.new.items ≡ changed as_earlier number list.old.items }
{
    if let Some(draft) = list.get_mut(number as usize) {
        let sort = mem::replace(&mut draft.word.sort, Sort::Itself);
        draft.word.sort = retired(sort);
        draft.late = Late::Settled;
    }
}

impl Drafts {
    /// No words.
    pub fn new(alloc: Global) -> Drafts
        ensures { result ≡ [] }
    {
        Drafts {
            list: Vec::new(alloc),
            classes: 0,
        }
    }

    /// The number of words. 2^32 words are want of memory.
    pub fn len(&self) -> Result<u32, Memory>
        ensures { IfOk result (λ count. count ≡ length self.now) }
    {
        match u32::try_from(self.list.len()) {
            Ok(count) => Ok(count),
            Err(_) => Err(Memory),
        }
    }

    /// How many words are those of classes that files define, the prelude apart.
    pub fn classes(&self) -> u64
        ensures { result ≡ counted self.now }
    {
        self.classes
    }

    /// Adds a word.
    #[tactic(auto, using(crate::proofs::DraftLemmas::counted_push))]
    pub fn push(&mut self, draft: Draft) -> Result<(), Memory>
        ensures { OnOk result (self.new ≡ self.old ++ draft ∷ []) }
    {
        let classes = one_more_if(is_counted(&draft.word), self.classes)?;
        self.list.push(draft)?;
        self.classes = classes;
        Ok(())
    }

    /// Adds a word that isn't told yet.
    pub fn add(&mut self, alloc: Global, name: Name, place: Place) -> Result<(), Memory>
        ensures { OnOk result (self.new ≡ self.old ++ draft_of name.vocab (record { text = name.name; place = place }) ∷ []) }
    {
        self.push(untold(alloc, name, place))
    }

    /// Gives the word of a number its place.
    pub fn move_to(&mut self, number: u32, place: Place) -> Result<(), Memory>
        ensures { OnOk result (self.new ≡ changed (at_place place) number self.old) }
    {
        let classes = placed_count(self.list.as_slice(), self.classes, number, place)?;
        place_at(&mut self.list, number, place);
        self.classes = classes;
        Ok(())
    }

    /// Tells what the word of a number is.
    pub fn tell(&mut self, number: u32, told: WordFacts) -> Result<(), Memory>
        ensures { OnOk result (self.new ≡ changed (with_told told.sort told.effect told.inline told.recursive told.late) number self.old) }
    {
        let classes = told_count(self.list.as_slice(), self.classes, number, &told)?;
        tell_at(&mut self.list, number, told);
        self.classes = classes;
        Ok(())
    }

    /// Makes the word of a number, which was a top-level phrase, an earlier one.
    #[tactic(auto, using(crate::proofs::DraftLemmas::earlier_count))]
    pub fn retire(&mut self, number: u32)
        ensures { self.new ≡ changed as_earlier number self.old }
    {
        retire_at(&mut self.list, number);
    }

    /// The words as a `Vec`, with no copy.
    pub fn into_vec(self) -> Vec<Draft>
        ensures { result.items ≡ self }
    {
        let Drafts { list, .. } = self;
        list
    }
}
