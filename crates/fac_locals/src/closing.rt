//! Programs whose quotations and fries are numbered templates.
ghost use Rattle.std.specs.Prelude.{◌≡◌, ◌+◌, ◌<◌, [], ◌∷◌, length, reverse, set, suc, Some, MatchOption, IfOk, OnOk};
ghost use Rattle.fac_lang.specs.Whole.{IsWhole};
ghost use Rattle.fac_lang.specs.PhraseView.{choices_behind, choices_phrase, items_phrase, what_item};
ghost use Rattle.fac_lang.specs.Phrases.{append, end, quot, bind};
ghost use Rattle.fac_graph.specs.Slots.{slot_counts};
ghost use Rattle.fac_locals.specs.Cells.{cell_number, cells_behind};
ghost use Rattle.fac_locals.specs.Asked.{quotations_in, quotations_at};
ghost use Rattle.fac_locals.specs.Closed.{Closes};
ghost use Rattle.fac_locals.specs.inner.Numbering.{ItemPassed, PhrasePassed, ArrayPassed, WordsPassed, ClosesWhat, ClosesTree, IsAsked, AreAsked, NumberTaken, KeptTaken, IsEnteredAsked, EntersLevel};
ghost use Rattle.fac_locals.specs.inner.Numbering.{EntersInside, ClosesChoices, ClosesQuotation, IsQuotedAsked, PartsClosed, closed_phrase, closed_element, closed_elements, closed_sort, closed_word, closed_words};
ghost use Rattle.fac_locals.specs.inner.Numbering.{put_all, method_of, next_what, cell_what, phrase_of, plain_item, plain_phrase, phrase_cells, choice_in, level_templates, array_closed, arrays_closed, stage_of};

use crate::counting::{behind_array, count_arrays, count_words, one_more};
use crate::{AllAsked, Cell, Kept, asked_in, keep, number_of};
use fac_base::{List, Memory, Place, Queue, Stack};
use fac_graph::slot_counts;
use fac_lang::{Choices, Item, Lit, Phrase, Program, Sort, Template, What, WordDef};
use std::alloc::Global;
use std::mem;

/// A program whose quotations and fries are numbered templates.
#[derive(Drop)]
pub struct Closed {
    /// The program, in which a quotation or fry stands as the number of its template, and a local or hole as that of its cell.
    pub program: Program,
    /// The templates, by their numbers.
    pub templates: List<Template>,
    /// How many slots each class has, with those of its parents, by the numbers of the classes.
    pub slots: List<u32>,
    /// How many values the top-level phrase starts on.
    pub start: u64,
    ghost counted: { slots ≡ slot_counts program.classes },
}

// Where a literal array stands, and the number that its first quotation gets.
#[derive(Clone, Copy)]
struct ArrayStart {
    number: u32,
    place: Place,
    // The word of the method in whose phrase it stands.
    method: Option<u32>,
}

// Around what is closed.
#[derive(Clone, Copy)]
struct Around<'a> {
    alloc: Global,
    // How many quotations each literal array has, those of the arrays in it included.
    counts: &'a [u32],
    // The word of the method in whose phrase it stands.
    method: Option<u32>,
}

// What closing has made so far.
#[derive(Drop)]
struct Closing {
    // The number of the next quotation.
    next: u32,
    // The templates by their numbers, of which some are still to be put.
    templates: Vec<Template>,
    // For each literal array that was met, where it starts.
    starts: Vec<ArrayStart>,
    // What the quotations and fries of the phrase ask for that are still to be closed.
    asked: AllAsked,
}

// A quotation that was gone into. All of its phrase is closed but the choice behind it, where it has one.
#[derive(Drop)]
struct Level {
    number: u32,
    place: Place,
    captures: List<u32>,
    body: Phrase,
}

// So many templates, whose phrases are still to be put.
fn unfilled(alloc: Global, count: u32) -> Result<Vec<Template>, Memory>
    ensures { IfOk result (λ templates. length templates.items ≡ count) }
{
    let mut templates = Vec::new(alloc);
    for _ in 0..count {
        let nothing = Phrase {
            items: Vec::new(alloc),
        };
        templates.push(Template {
            body: nothing,
            captures: List::new(alloc),
            holes: 0,
            place: Place { file: 0, token: 0 },
        })?;
    }
    Ok(templates)
}

// The starts of so many arrays, none of which was met yet.
fn unmet(alloc: Global, count: usize) -> Result<Vec<ArrayStart>, Memory>
    ensures { IfOk result (λ starts. length starts.items ≡ count) }
{
    let place = Place { file: 0, token: 0 };
    Ok(vec![in alloc; ArrayStart {
        number: 0,
        place,
        method: None
    }; count]?)
}

// Puts an element at its number, where the list has that number.
fn put<T: Drop>(list: &mut Vec<T>, number: u32, value: T)
    ensures { list.new.items ≡ set list.old.items number value }
{
    if (number as usize) < list.len() {
        list[number as usize] = value;
    }
}

// Gives the next number to a quotation or fry.
fn take_number(closing: &mut Closing) -> Result<u32, Memory>
    ensures { IfOk result (λ number. NumberTaken closing.old number closing.new) }
{
    let number = closing.next;
    closing.next = one_more(number)?;
    Ok(number)
}

// What the next quotation or fry keeps of the cells under which it stands.
fn take_kept(
    alloc: Global,
    closing: &mut Closing,
    cells: &List<Cell>,
    holes: u32,
) -> Result<Kept, Memory>
    requires { IsAsked closing.old.asked }
    ensures { IfOk result (λ kept. KeptTaken cells.now holes closing.old kept closing.new) }
{
    match closing.asked.take_first() {
        Some(asked) => keep(alloc, cells, asked, holes),
        None => unreachable!(),
    }
}

// Notes where a literal array starts, and goes behind its quotations.
fn pass_array(
    closing: &mut Closing,
    counts: &[u32],
    array: u32,
    place: Place,
    method: Option<u32>,
) -> Result<(), Memory>
    ensures passed { IfOk result (λ done. ArrayPassed counts.now method closing.old place array closing.new) }
    ensures asked { OnOk result (closing.new.asked ≡ closing.old.asked) }
{
    let number = closing.next;
    closing.next = behind_array(array, counts, number)?;
    let start = ArrayStart {
        number,
        place,
        method,
    };
    put(&mut closing.starts, array, start);
    Ok(())
}

// `call-next-method` in the phrase of this method, or in none.
fn next_method(method: Option<u32>) -> What
    ensures { result ≡ next_what method }
{
    match method {
        Some(number) => What::NextAfter(number),
        None => What::NextMethod,
    }
}

// The number of the cell that holds this, or the item where there is none.
fn in_cell(cells: &List<Cell>, cell: Cell, what: What) -> What
    ensures { result ≡ cell_what what (cell_number cells.now cell) }
{
    match number_of(cells, cell) {
        Some(number) => What::Local(number),
        None => what,
    }
}

// Binds a local, whose value gets the next cell.
fn bind_cell(cells: &mut List<Cell>, local: u32) -> Result<u32, Memory>
    ensures number { IfOk result (λ number. number ≡ length cells.old) }
    ensures cells { OnOk result (cells.new ≡ cells_behind cells.old (bind local)) }
{
    let number = cells.len();
    cells.push(Cell::Local(local))?;
    Ok(number)
}

// Takes the outermost of choices, which stand with the innermost first. None where there is none left.
fn take_outer(phrases: &mut Vec<Phrase>) -> Option<Phrase>
    ensures { MatchOption result ((reverse phrases.old.items ≡ []) × (reverse phrases.new.items ≡ [])) (λ t. reverse phrases.old.items ≡ t ∷ reverse phrases.new.items) }
{
    phrases.pop()
}

// Takes the outermost phrase of choices. Where there is none, it is the empty one.
fn take_outermost(alloc: Global, choices: &mut Choices) -> Phrase
    ensures { choices_phrase choices.old ≡ append result (choices_behind choices.new.word choices.new.place (reverse choices.new.phrases.items)) }
{
    match take_outer(&mut choices.phrases) {
        Some(phrase) => phrase,
        None => Phrase {
            items: Vec::new(alloc),
        },
    }
}

// Adds the quotation of this number and the word that chooses.
fn add_choice(items: &mut Vec<Item>, number: u32, word: u32, place: Place) -> Result<(), Memory>
    ensures { OnOk result (items_phrase items.new.items ≡ append (items_phrase items.old.items) (choice_in word place (Some number))) }
{
    items.push(Item {
        what: What::Made(number),
        place,
    })?;
    items.push(Item {
        what: What::Word(word),
        place,
    })?;
    Ok(())
}

// A phrase with the choice behind it whose quotation has this number.
fn chosen(phrase: Phrase, number: u32, word: u32, place: Place) -> Result<Phrase, Memory>
    ensures { IfOk result (λ whole. whole ≡ append phrase (choice_in word place (Some number))) }
{
    let Phrase { items } = phrase;
    let mut items = items;
    add_choice(&mut items, number, word, place)?;
    Ok(Phrase { items })
}

// A phrase with the choice behind it whose quotation has this number, or with none.
fn with_choice(
    phrase: Phrase,
    inside: Option<u32>,
    word: u32,
    place: Place,
) -> Result<Phrase, Memory>
    ensures { IfOk result (λ whole. whole ≡ append phrase (choice_in word place inside)) }
{
    match inside {
        Some(number) => chosen(phrase, number, word, place),
        None => Ok(phrase),
    }
}

// Puts the template of a quotation that was gone into, where the one inside it has this number or there is none.
fn leave_level(
    templates: &mut Vec<Template>,
    level: Level,
    inside: Option<u32>,
    word: u32,
    place: Place,
) -> Result<u32, Memory>
    ensures left { OnOk result (templates.new.items ≡ set templates.old.items level.number (record { body = append level.body (choice_in word place inside); captures = level.captures; holes = 0; place = level.place })) }
    ensures number { IfOk result (λ number. number ≡ level.number) }
{
    let Level {
        number,
        place: own,
        captures,
        body,
    } = level;
    let whole = with_choice(body, inside, word, place)?;
    let template = Template {
        body: whole,
        captures,
        holes: 0,
        place: own,
    };
    put(templates, number, template);
    Ok(number)
}

// Puts the templates of quotations inside one another, the innermost first.
fn leave_levels(
    templates: &mut Vec<Template>,
    levels: Stack<Level>,
    word: u32,
    place: Place,
) -> Result<(), Memory>
    ensures { OnOk result (templates.new.items ≡ put_all templates.old.items (level_templates word place levels end)) }
{
    let mut left = levels;
    let mut inside = None;
    while let Some(level) = left.pop() {
        inside = Some(leave_level(templates, level, inside, word, place)?);
    }
    Ok(())
}

// An item under these cells with a template in place of its quotation or fry.
#[cycle(closing)]
fn close_what(
    what: What,
    around: Around<'_>,
    closing: &mut Closing,
    place: Place,
    cells: &mut List<Cell>,
) -> Result<What, Memory>
    requires { AreAsked (quotations_at (what_item what)) closing.old.asked }
    ensures closed { IfOk result (λ closed. ClosesWhat around.entry.counts.now around.entry.method cells.old closing.old place what closed closing.new) }
    ensures cells { OnOk result (cells.new ≡ cells_behind cells.old (what_item what)) }
{
    match what {
        What::Quot(phrase) => {
            let number = close_quotation(phrase, 0, around, closing, place, cells)?;
            Ok(What::Made(number))
        }
        What::Choices(choices) => {
            let number = closing.next;
            let choices = Box::into_inner(choices);
            close_choices(choices, around, closing, place, cells)?;
            Ok(What::Made(number))
        }
        What::Fry(phrase, holes) => {
            let number = close_quotation(phrase, holes, around, closing, place, cells)?;
            Ok(What::Made(number))
        }
        What::Bind(local) => Ok(What::Bind(bind_cell(cells, local)?)),
        What::Local(local) => Ok(in_cell(cells, Cell::Local(local), What::Local(local))),
        What::Hole(hole) => Ok(in_cell(cells, Cell::Hole(hole), What::Hole(hole))),
        What::Arr(array) => {
            pass_array(closing, around.counts, array, place, around.method)?;
            Ok(What::Arr(array))
        }
        What::NextMethod => Ok(next_method(around.method)),
        other => Ok(other),
    }
}

// Closes the phrase of a quotation, or of a fry with so many holes, that stands at this place under these cells. The answer is the number of
// its template.
#[cycle(closing)]
fn close_quotation(
    phrase: Phrase,
    holes: u32,
    around: Around<'_>,
    closing: &mut Closing,
    place: Place,
    cells: &List<Cell>,
) -> Result<u32, Memory>
    requires { IsQuotedAsked phrase holes closing.old.asked }
    ensures { IfOk result (λ number. ClosesQuotation around.entry.counts.now around.entry.method cells.now closing.old place phrase holes number closing.new) }
{
    let number = take_number(closing)?;
    let Kept {
        captures,
        cells: own,
    } = take_kept(around.alloc, closing, cells, holes)?;
    let mut own = own;
    let body = close_phrase(phrase, around, closing, &mut own)?;
    let template = Template {
        body,
        captures,
        holes,
        place,
    };
    put(&mut closing.templates, number, template);
    Ok(number)
}

// A phrase under these cells with templates in place of its quotations and fries.
#[cycle(closing)]
fn close_phrase(
    phrase: Phrase,
    around: Around<'_>,
    closing: &mut Closing,
    cells: &mut List<Cell>,
) -> Result<Phrase, Memory>
    requires { AreAsked (quotations_in phrase) closing.old.asked }
    ensures closed { IfOk result (λ closed. ClosesTree around.entry.counts.now around.entry.method cells.old closing.old phrase closed closing.new) }
    ensures cells { OnOk result (cells.new ≡ phrase_cells cells.old phrase) }
{
    let mut items = Vec::with_capacity(around.alloc, phrase.items.len())?;
    for item in phrase.items {
        let Item { what, place } = item;
        let what = close_what(what, around, closing, place, cells)?;
        items.push(Item { what, place })?;
    }
    Ok(Phrase { items })
}

// Goes into a quotation that stands at this place under these cells, where this is its phrase up to the choice behind it, and tells the cells
// of its frame there.
#[cycle(closing)]
fn enter(
    phrase: Phrase,
    around: Around<'_>,
    closing: &mut Closing,
    place: Place,
    cells: &List<Cell>,
) -> Result<(Level, List<Cell>), Memory>
    requires { IsEnteredAsked phrase closing.old.asked }
    ensures { IfOk result (λ entered. EntersLevel around.entry.counts.now around.entry.method cells.now closing.old place phrase entered.0 entered.1 closing.new) }
{
    let number = take_number(closing)?;
    let Kept {
        captures,
        cells: own,
    } = take_kept(around.alloc, closing, cells, 0)?;
    let mut inner = own;
    let body = close_phrase(phrase, around, closing, &mut inner)?;
    let level = Level {
        number,
        place,
        captures,
        body,
    };
    Ok((level, inner))
}

// Goes into the quotations of choices inside one another, an outer one first.
#[cycle(closing)]
fn enter_inside(
    choices: Choices,
    around: Around<'_>,
    closing: &mut Closing,
    levels: &mut Stack<Level>,
    cells: List<Cell>,
) -> Result<(), Memory>
    requires { AreAsked (quotations_in (choices_behind choices.word choices.place (reverse choices.phrases.items))) closing.old.asked }
    ensures { OnOk result (EntersInside around.entry.counts.now around.entry.method choices.word choices.place levels.old cells closing.old (reverse choices.phrases.items) levels.new closing.new) }
{
    let Choices { phrases, place, .. } = choices;
    let mut rest = phrases;
    let mut inner = cells;
    while let Some(phrase) = take_outer(&mut rest) {
        let (level, own) = enter(phrase, around, closing, place, &inner)?;
        levels.push(level)?;
        inner = own;
    }
    Ok(())
}

// Closes choices inside one another, whose outermost quotation stands at this place under these cells.
#[cycle(closing)]
fn close_choices(
    choices: Choices,
    around: Around<'_>,
    closing: &mut Closing,
    place: Place,
    cells: &List<Cell>,
) -> Result<(), Memory>
    requires { AreAsked (quotations_at (quot (choices_phrase choices))) closing.old.asked }
    ensures { OnOk result (ClosesChoices around.entry.counts.now around.entry.method cells.now closing.old place (choices_phrase choices) closing.new) }
{
    let mut rest = choices;
    let outermost = take_outermost(around.alloc, &mut rest);
    let word = rest.word;
    let at = rest.place;
    let (level, inner) = enter(outermost, around, closing, place, cells)?;
    let mut levels = Stack::new(around.alloc);
    levels.push(level)?;
    enter_inside(rest, around, closing, &mut levels, inner)?;
    leave_levels(&mut closing.templates, levels, word, at)?;
    Ok(())
}

// A phrase under no cells with templates in place of its quotations and fries.
fn close_whole(phrase: Phrase, around: Around<'_>, closing: &mut Closing) -> Result<Phrase, Memory>
    ensures { IfOk result (λ closed. (closed ≡ closed_phrase around.entry.counts.now around.entry.method [] closing.old.next phrase) × PhrasePassed around.entry.counts.now around.entry.method [] closing.old phrase closing.new) }
{
    closing.asked = asked_in(around.alloc, &phrase)?;
    let mut cells = List::new(around.alloc);
    let closed = close_phrase(phrase, around, closing, &mut cells)?;
    Ok(closed)
}

// What the word of this number is, with its phrase closed.
fn close_sort(
    alloc: Global,
    closing: &mut Closing,
    counts: &[u32],
    number: u32,
    sort: Sort,
) -> Result<Sort, Memory>
    ensures { IfOk result (λ closed. (closed ≡ closed_sort counts.now number closing.old.next sort) × PhrasePassed counts.now (method_of number sort) [] closing.old (phrase_of sort) closing.new) }
{
    match sort {
        Sort::Body(phrase) => {
            let around = Around {
                alloc,
                counts,
                method: None,
            };
            let body = close_whole(phrase, around, closing)?;
            Ok(Sort::Body(body))
        }
        Sort::Past(phrase) => {
            let around = Around {
                alloc,
                counts,
                method: None,
            };
            let body = close_whole(phrase, around, closing)?;
            Ok(Sort::Past(body))
        }
        Sort::Method {
            class,
            generic,
            body,
        } => {
            let around = Around {
                alloc,
                counts,
                method: Some(number),
            };
            let body = close_whole(body, around, closing)?;
            Ok(Sort::Method {
                class,
                generic,
                body,
            })
        }
        other => Ok(other),
    }
}

// The word of this number with its phrase closed.
fn close_word(
    alloc: Global,
    closing: &mut Closing,
    counts: &[u32],
    number: u32,
    word: WordDef,
) -> Result<WordDef, Memory>
    ensures { IfOk result (λ closed. (closed ≡ closed_word counts.now number closing.old.next word) × PhrasePassed counts.now (method_of number word.sort) [] closing.old (phrase_of word.sort) closing.new) }
{
    let WordDef {
        name,
        sort,
        effect,
        inline,
        recursive,
        place,
    } = word;
    let sort = close_sort(alloc, closing, counts, number, sort)?;
    Ok(WordDef {
        name,
        sort,
        effect,
        inline,
        recursive,
        place,
    })
}

// The words of a program with their phrases closed. Their room is given back to memory meanwhile.
fn close_words(
    alloc: Global,
    closing: &mut Closing,
    counts: &[u32],
    words: Vec<WordDef>,
) -> Result<List<WordDef>, Memory>
    ensures { IfOk result (λ closed. (closed ≡ closed_words counts.now 0 closing.old.next words.items) × WordsPassed counts.now 0 closing.old words.items closing.new) }
{
    let mut closed = List::new(alloc);
    let mut rest = Queue::new(words);
    while let Some(word) = rest.take() {
        let number = closed.len();
        closed.push(close_word(alloc, closing, counts, number, word)?)?;
    }
    Ok(closed)
}

// An element of a literal array that stands here, with a template in place of its quotation.
fn close_element(
    element: Lit,
    around: Around<'_>,
    closing: &mut Closing,
    place: Place,
) -> Result<Lit, Memory>
    ensures { IfOk result (λ closed. (closed ≡ closed_element around.entry.counts.now closing.old.next element) × ItemPassed around.entry.counts.now around.entry.method [] closing.old place (plain_item element) closing.new) }
{
    match element {
        Lit::Quot(inner) => {
            let number = take_number(closing)?;
            let body = close_whole(inner, around, closing)?;
            let template = Template {
                body,
                captures: List::new(around.alloc),
                holes: 0,
                place,
            };
            put(&mut closing.templates, number, template);
            Ok(Lit::Made(number))
        }
        Lit::Arr(array) => {
            pass_array(closing, around.counts, array, place, around.method)?;
            Ok(Lit::Arr(array))
        }
        other => Ok(other),
    }
}

// The elements of a literal array that starts so, with templates in place of their quotations.
fn close_elements(
    elements: Vec<Lit>,
    alloc: Global,
    closing: &mut Closing,
    counts: &[u32],
    start: ArrayStart,
) -> Result<List<Lit>, Memory>
    ensures { IfOk result (λ closed. (closed ≡ closed_elements counts.now closing.old.next elements.items) × PhrasePassed counts.now start.method [] closing.old (plain_phrase start.place elements.items) closing.new) }
{
    let around = Around {
        alloc,
        counts,
        method: start.method,
    };
    let mut closed = List::new(alloc);
    for element in elements {
        let element = close_element(element, around, closing, start.place)?;
        closed.push(element)?;
    }
    Ok(closed)
}

// Closes the literal array of this number where it was met.
fn close_array(
    arrays: &mut Vec<List<Lit>>,
    alloc: Global,
    closing: &mut Closing,
    counts: &[u32],
    array: usize,
) -> Result<(), Memory>
    requires in_arrays { array < length arrays.old.items }
    requires in_starts { array < length closing.old.starts.items }
    ensures { IfOk result (λ done. stage_of arrays.new.items closing.new ≡ array_closed counts.now array (stage_of arrays.old.items closing.old)) }
{
    let start = closing.starts[array];
    closing.next = start.number;
    let elements = mem::replace(&mut arrays[array], List::new(alloc));
    let closed = close_elements(elements.into_vec(), alloc, closing, counts, start)?;
    arrays[array] = closed;
    Ok(())
}

// Closes all literal arrays, the last one first.
fn close_arrays(
    arrays: &mut Vec<List<Lit>>,
    alloc: Global,
    closing: &mut Closing,
    counts: &[u32],
) -> Result<(), Memory>
    requires { length closing.old.starts.items ≡ length arrays.old.items }
    ensures { IfOk result (λ done. stage_of arrays.new.items closing.new ≡ arrays_closed counts.now (length arrays.old.items) (stage_of arrays.old.items closing.old)) }
{
    let mut left = arrays.len();
    while left > 0 {
        left -= 1;
        close_array(arrays, alloc, closing, counts, left)?;
    }
    Ok(())
}

// The words and literal arrays of a program, closed, and the templates.
fn close_parts(
    alloc: Global,
    words: Vec<WordDef>,
    arrays: &mut Vec<List<Lit>>,
) -> Result<(List<WordDef>, List<Template>), Memory>
    ensures { IfOk result (λ parts. PartsClosed words.items arrays.old.items parts.0 arrays.new.items parts.1) }
{
    let counts = count_arrays(alloc, arrays.as_slice())?;
    let count = count_words(words.as_slice(), counts.as_slice())?;
    let mut closing = Closing {
        next: 0,
        templates: unfilled(alloc, count)?,
        starts: unmet(alloc, arrays.len())?,
        asked: AllAsked::new(alloc),
    };
    let closed = close_words(alloc, &mut closing, counts.as_slice(), words)?;
    close_arrays(arrays, alloc, &mut closing, counts.as_slice())?;
    let Closing { templates, .. } = closing;
    Ok((closed, List::from_vec(templates)?))
}

/// The program with each quotation and fry replaced by the number of its template, each local and hole by the number of its cell, and each
/// `call-next-method` of a method by the next one after that method. Templates are numbered from 0, word by word, an outer quotation before
/// those in it, and those of a literal array where the array stands. Want of memory is the one error.
pub fn close(alloc: Global, program: Program, start: u64) -> Result<Closed, Memory>
    requires { IsWhole program }
    ensures { IfOk result (λ closed. Closes program closed.program closed.templates × (closed.start ≡ start)) }
{
    let Program {
        words,
        arrays,
        classes,
        top,
    } = program;
    let slots = slot_counts(alloc, &classes)?;
    let mut arrays = arrays.into_vec();
    let (words, templates) = close_parts(alloc, words.into_vec(), &mut arrays)?;
    Ok(Closed {
        program: Program {
            words,
            arrays: List::from_vec(arrays)?,
            classes,
            top,
        },
        templates,
        slots,
        start,
    })
}
