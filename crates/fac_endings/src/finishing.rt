//! Words as they are at the end of the program.
ghost use Rattle.std.specs.Prelude.{◌≡◌, ◌<◌, ◌++◌, ◌∷◌, [], length, map, Some, IfOk, OnOk};
ghost use Rattle.fac_lang.specs.Classes.{slots_within};
ghost use Rattle.fac_lang.specs.Whole.{plain_effect};
ghost use Rattle.fac_endings.specs.ClassTable.{class_at, word_at};
ghost use Rattle.fac_source.specs.Toks.{number};
ghost use Rattle.fac_endings.specs.FinishedWords.{as_method, effect_of_word, finished, with_maker};
ghost use Rattle.fac_endings.specs.inner.Finishes.{AreFinishes, AreSlots, AreSlotsSoFar, FinishesBy, finished_with, line, slots_above, slots_listed, with_finish};
ghost use Rattle.fac_endings.specs.inner.Lines.{AreSettled};

use crate::draft::{Draft, Late, Table};
use crate::effects::{no_effect, one_output};
use crate::lines::{is_settled, settled};
use crate::lookup::{class_at, number_of, parent_of, slots_at, word_at};
use fac_base::{Boxed, Duplicate, Effect, List, Memory, Queue, Text};
use fac_lang::{ClassDef, Sort, WordDef};
use fac_source::Ref;
use std::alloc::Global;

// A class and its parents, from it on; at most as many as there are classes.
fn line_of(alloc: Global, classes: &[ClassDef], class: u32) -> Result<Vec<u32>, Memory>
    ensures { IfOk result (λ found. found.items ≡ line (length classes.now) classes.now (Some class)) }
{
    let mut line = Vec::new(alloc);
    let mut at = Some(class);
    for _step in classes {
        match at {
            Some(number) => {
                line.push(number)?;
                at = parent_of(classes, number);
            }
            None => return Ok(line),
        }
    }
    Ok(line)
}

// Adds copies of texts.
fn add_texts(alloc: Global, texts: &mut List<Text>, more: &[Text]) -> Result<(), Memory>
    ensures { OnOk result (texts.new ≡ texts.old ++ more.now) }
{
    for text in more {
        texts.push(text.copy(alloc)?)?;
    }
    Ok(())
}

// All slots of a class, its parents' first, by a climb.
fn climbed_slots(alloc: Global, classes: &[ClassDef], class: u32) -> Result<List<Text>, Memory>
    ensures { IfOk result (λ slots. slots ≡ slots_within (length classes.now) classes.now class) }
{
    let mut line = line_of(alloc, classes, class)?;
    let mut slots = List::new(alloc);
    while let Some(bearer) = line.pop() {
        add_texts(alloc, &mut slots, slots_at(classes, bearer))?;
    }
    Ok(slots)
}

// All slots of a class, by the table of them.
fn slots_listed(slots: &[List<Text>], class: u32) -> &[Text]
    ensures { result.now ≡ slots_listed slots.now class }
{
    match slots.get(class as usize) {
        Some(found) => found.as_slice(),
        None => &[],
    }
}

// The slots of a parent, by the table of the classes before its heir.
fn slots_above(slots: &[List<Text>], parent: Option<u32>) -> &[Text]
    ensures { result.now ≡ slots_above slots.now parent }
{
    match parent {
        Some(class) => slots_listed(slots, class),
        None => &[],
    }
}

// Copies of texts, and of others behind them.
fn both_texts(alloc: Global, above: &[Text], own: &[Text]) -> Result<List<Text>, Memory>
    ensures { IfOk result (λ slots. slots ≡ above.now ++ own.now) }
{
    let mut slots = List::new(alloc);
    add_texts(alloc, &mut slots, above)?;
    add_texts(alloc, &mut slots, own)?;
    Ok(slots)
}

// All slots of the next class of a table.
fn next_slots(
    alloc: Global,
    classes: &[ClassDef],
    flags: &[bool],
    slots: &[List<Text>],
    class: u32,
) -> Result<List<Text>, Memory>
    requires flags { AreSettled classes.now (length classes.now) flags.now }
    requires slots { AreSlotsSoFar classes.now class slots.now }
    requires there { class < length classes.now }
    ensures { IfOk result (λ slots. slots ≡ slots_within (length classes.now) classes.now class) }
{
    if is_settled(flags, class) {
        let above = slots_above(slots, parent_of(classes, class));
        return both_texts(alloc, above, slots_at(classes, class));
    }
    climbed_slots(alloc, classes, class)
}

/// All slots of each class.
pub fn all_slots(alloc: Global, classes: &List<ClassDef>) -> Result<List<List<Text>>, Memory>
    ensures { IfOk result (AreSlots classes.now) }
{
    let mut table = List::new(alloc);
    let count = classes.len();
    let flags = settled(alloc, classes.as_slice())?;
    for class in 0..count {
        let slots = next_slots(
            alloc,
            classes.as_slice(),
            flags.as_slice(),
            table.as_slice(),
            class,
        )?;
        table.push(slots)?;
    }
    Ok(table)
}

// What the end of the program settles of a word.
#[derive(Drop)]
enum Finish {
    Nothing,
    Effect(Boxed<Effect>),
    Method {
        class: u32,
        generic: u32,
        effect: Boxed<Effect>,
    },
}

// The effect of the word of a name.
fn effect_at(alloc: Global, drafts: &[Draft], name: &Ref) -> Result<Boxed<Effect>, Memory>
    ensures { IfOk result (λ effect. effect ≡ effect_of_word (word_at drafts.now name.now)) }
{
    match word_at(drafts, name) {
        Some(word) => Boxed::new(alloc, word.effect.copy(alloc)?),
        None => Boxed::new(alloc, no_effect(alloc)),
    }
}

// What is settled of a method.
fn finish_method(
    alloc: Global,
    drafts: &[Draft],
    class: &Ref,
    generic: &Ref,
) -> Result<Finish, Memory>
    ensures { IfOk result (λ finish. FinishesBy finish (λ w. as_method (class_at drafts.now class.now) (number generic.now.word) (effect_of_word (word_at drafts.now generic.now)) w.sort w)) }
{
    match class_at(drafts, class) {
        Some(class) => Ok(Finish::Method {
            class,
            generic: number_of(generic),
            effect: effect_at(alloc, drafts, generic)?,
        }),
        None => Ok(Finish::Nothing),
    }
}

// The effect of a word that makes tuples of the class of a name and number, by the table of slots.
fn maker_effect(
    alloc: Global,
    slots: &[List<Text>],
    class: &Ref,
    number: u32,
) -> Result<Boxed<Effect>, Memory>
    ensures { IfOk result (λ effect. effect ≡ plain_effect (slots_listed slots.now number) (class.now.tok.text ∷ [])) }
{
    let effect = one_output(alloc, slots_listed(slots, number), class.tok.text.as_str())?;
    Boxed::new(alloc, effect)
}

// What is settled of a word that makes tuples.
fn finish_maker(
    alloc: Global,
    table: Table<'_>,
    slots: &[List<Text>],
    class: &Ref,
) -> Result<Finish, Memory>
    requires { AreSlots table.classes.now slots.now }
    ensures { IfOk result (λ finish. FinishesBy finish (with_maker table.entry.classes.now class.now (class_at table.entry.drafts.now class.now))) }
{
    match class_at(table.drafts, class) {
        Some(number) => Ok(Finish::Effect(maker_effect(alloc, slots, class, number)?)),
        None => Ok(Finish::Nothing),
    }
}

// What is settled of a word.
fn finish_of(
    alloc: Global,
    table: Table<'_>,
    slots: &[List<Text>],
    draft: &Draft,
) -> Result<Finish, Memory>
    requires { AreSlots table.classes.now slots.now }
    ensures { IfOk result (λ finish. with_finish finish draft.now.word ≡ finished table.entry.drafts.now table.entry.classes.now draft.now) }
{
    match &draft.late {
        Late::Settled => Ok(Finish::Nothing),
        Late::Deferred => Ok(Finish::Nothing),
        Late::Maker(class) => finish_maker(alloc, table, slots, class.get()),
        Late::Method(class, generic) => finish_method(
            alloc,
            table.drafts,
            class.get(),
            generic.get(),
        ),
    }
}

// What is settled of all words.
fn finishes_of(alloc: Global, table: Table<'_>, slots: &[List<Text>]) -> Result<Vec<Finish>, Memory>
    requires { AreSlots table.classes.now slots.now }
    ensures { IfOk result (λ finishes. AreFinishes table.entry.drafts.now table.entry.classes.now table.entry.drafts.now finishes.items) }
{
    let mut finishes = Vec::new(alloc);
    for draft in table.drafts {
        let finish = finish_of(alloc, table, slots, draft)?;
        finishes.push(finish)?;
    }
    Ok(finishes)
}

// A word whose phrase is a method's.
fn as_method(word: WordDef, class: u32, generic: u32, effect: Effect) -> WordDef
    ensures { result ≡ as_method (Some class) generic effect word.sort word }
{
    let WordDef {
        name,
        sort,
        effect: own,
        inline,
        recursive,
        place,
    } = word;
    match sort {
        Sort::Body(body) => WordDef {
            name,
            sort: Sort::Method {
                class,
                generic,
                body,
            },
            effect,
            inline,
            recursive,
            place,
        },
        other => WordDef {
            name,
            sort: other,
            effect: own,
            inline,
            recursive,
            place,
        },
    }
}

// A word as it is at the end.
fn finished(word: WordDef, finish: Finish) -> WordDef
    ensures { result ≡ with_finish finish word }
{
    let mut word = word;
    match finish {
        Finish::Nothing => word,
        Finish::Effect(effect) => {
            word.effect = effect.into_value();
            word
        }
        Finish::Method {
            class,
            generic,
            effect,
        } => as_method(word, class, generic, effect.into_value()),
    }
}

// The words as they are at the end. The memory of drafts is given back meanwhile.
fn words_with(
    alloc: Global,
    drafts: Vec<Draft>,
    finishes: Vec<Finish>,
) -> Result<List<WordDef>, Memory>
    requires { length drafts.items ≡ length finishes.items }
    ensures { IfOk result (λ words. words ≡ finished_with drafts.items finishes.items) }
{
    let mut words = List::new(alloc);
    let mut rest = Queue::new(drafts);
    let mut finishes = Queue::new(finishes);
    while let Some(draft) = rest.take() {
        match finishes.take() {
            Some(finish) => words.push(finished(draft.word, finish))?,
            None => unreachable!(),
        }
    }
    Ok(words)
}

// What is settled of all words, by a table of slots that is given back then.
fn all_finishes(
    alloc: Global,
    drafts: &[Draft],
    classes: &List<ClassDef>,
) -> Result<Vec<Finish>, Memory>
    ensures { IfOk result (λ finishes. AreFinishes drafts.now classes.now drafts.now finishes.items) }
{
    let slots = all_slots(alloc, classes)?;
    let table = Table {
        drafts,
        classes: classes.as_slice(),
    };
    finishes_of(alloc, table, slots.as_slice())
}

/// The words as they are at the end.
pub fn finished_words(
    alloc: Global,
    drafts: Vec<Draft>,
    classes: &List<ClassDef>,
) -> Result<List<WordDef>, Memory>
    ensures { IfOk result (λ words. words ≡ map (finished drafts.items classes.now) drafts.items) }
{
    let finishes = all_finishes(alloc, drafts.as_slice(), classes)?;
    words_with(alloc, drafts, finishes)
}
