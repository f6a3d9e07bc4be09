//! The program of all forms, or its first refusal.
ghost use Rattle.std.specs.Prelude.{◌≡◌, ◌<◌, ◌^◌, ◌+◌, ◌++◌, ◌∷◌, [], codes, fold, length, map, IfOk, OnOk};
ghost use Rattle.fac_lang.specs.PhraseView.{items_phrase};
ghost use Rattle.fac_source.specs.Refusals.{sooner};
ghost use Rattle.fac_endings.specs.Words.{top_word};
ghost use Rattle.fac_endings.specs.ClassTable.{classes_of};
ghost use Rattle.fac_endings.specs.Endings.{Ends, first_fault};
ghost use Rattle.fac_endings.specs.FinishedWords.{finished};
ghost use Rattle.fac_endings.specs.LastRefusals.{class_faults, words_faults};
ghost use Rattle.fac_endings.specs.inner.Ready.{program_with};

use crate::class_faults::refuse_classes;
use crate::class_table::classes_of;
use crate::draft::{Draft, NewClass, Table};
use crate::effects::no_effect;
use crate::finishing::finished_words;
use crate::gathered::Gathered;
use crate::graph::cycles_of;
use crate::lines::lines_of;
use crate::word_faults::refuse_words;
use fac_base::{List, Memory, Name, Place, Text};
use fac_lang::{ClassDef, Item, Lit, Phrase, Program, Sort, WordDef};
use fac_source::{NameFault, ResolveFault};
use std::alloc::Global;

// Refuses what the end shows, where the first of these new classes has this number.
fn refuse_last(
    alloc: Global,
    first: &mut Option<NameFault>,
    table: Table<'_>,
    old: u32,
    new: &[NewClass],
) -> Result<(), Memory>
    requires all { old + length new.now ≡ length table.classes.now }
    requires few { length table.classes.now < 2 ^ 32 }
    ensures { OnOk result (first.new ≡ fold sooner first.old (words_faults table.entry.drafts.now table.entry.classes.now [] table.entry.drafts.now ++ class_faults table.entry.drafts.now table.entry.classes.now old new.now)) }
{
    refuse_words(alloc, first, table)?;
    let cycles = cycles_of(alloc, table.classes)?;
    let lines = lines_of(alloc, table.classes)?;
    refuse_classes(
        alloc,
        first,
        table,
        cycles.as_slice(),
        lines.as_slice(),
        old,
        new,
    )
}

// All classes, and the first refusal of the program.
fn tested(
    alloc: Global,
    drafts: &[Draft],
    old_classes: List<ClassDef>,
    new: &[NewClass],
    first: &mut Option<NameFault>,
) -> Result<List<ClassDef>, Memory>
    ensures classes { IfOk result (λ classes. classes ≡ classes_of drafts.now old_classes new.now) }
    ensures first { OnOk result (first.new ≡ first_fault drafts.now old_classes new.now first.old) }
{
    let old = old_classes.len();
    let classes = classes_of(alloc, drafts, old_classes, new)?;
    // The count shows that there are fewer than 2^32.
    let _count = classes.len();
    let table = Table {
        drafts,
        classes: classes.as_slice(),
    };
    match refuse_last(alloc, first, table, old, new) {
        Ok(()) => Ok(classes),
        Err(Memory) => Err(Memory),
    }
}

// The name of the word of the top-level phrase.
fn top_name(alloc: Global) -> Result<Name, Memory>
    ensures { IfOk result (λ name. name ≡ record { vocab = []; name = codes "top-level" }) }
{
    let name = Text::from_str(alloc, "top-level")?;
    Ok(Name {
        vocab: Text::new(alloc),
        name,
    })
}

// The word of the top-level phrase.
fn phrase_word(alloc: Global, body: Phrase) -> Result<WordDef, Memory>
    ensures { IfOk result (λ word. word ≡ top_word body) }
{
    let name = top_name(alloc)?;
    Ok(WordDef {
        name,
        sort: Sort::Body(body),
        effect: no_effect(alloc),
        inline: false,
        recursive: false,
        place: Place { file: 0, token: 0 },
    })
}

// The program of words, literal arrays, classes and a top-level phrase.
fn with_phrase(
    alloc: Global,
    mut words: List<WordDef>,
    arrays: List<List<Lit>>,
    classes: List<ClassDef>,
    body: Phrase,
) -> Result<Program, Memory>
    ensures { IfOk result (λ program. program ≡ program_with words arrays classes body) }
{
    let top = words.len();
    words.push(phrase_word(alloc, body)?)?;
    Ok(Program {
        words,
        arrays,
        classes,
        top,
    })
}

// The program of these words and classes.
fn program(
    alloc: Global,
    drafts: Vec<Draft>,
    arrays: List<List<Lit>>,
    classes: List<ClassDef>,
    items: Vec<Item>,
) -> Result<Program, Memory>
    ensures { IfOk result (λ program. program ≡ program_with (map (finished drafts.items classes) drafts.items) arrays classes (items_phrase items.items)) }
{
    match finished_words(alloc, drafts, &classes) {
        Ok(words) => with_phrase(alloc, words, arrays.cut(), classes, Phrase { items }),
        Err(Memory) => Err(Memory),
    }
}

/// The program of what was gathered, or its first refusal.
pub fn ended(alloc: Global, gathered: Gathered) -> Result<Program, ResolveFault>
    ensures { Ends gathered result }
{
    let Gathered {
        drafts,
        old_classes,
        classes,
        arrays,
        items,
        mut first,
    } = gathered;
    let all = tested(
        alloc,
        drafts.as_slice(),
        old_classes,
        classes.as_slice(),
        &mut first,
    )?;
    match first {
        Some(fault) => Err(ResolveFault::Name(fault)),
        None => Ok(program(alloc, drafts, arrays, all, items)?),
    }
}
