//! The verdict on each word.
ghost use Rattle.std.specs.Prelude.{◌≡◌, ◌≤◌, true, false, length, map, option_copied, slice_get, None, Some, IfOk};
ghost use Rattle.fac_lang.specs.declared.program.Program.{Program as ProgramSeen};
ghost use Rattle.fac_base.specs.declared.limits.TheConstants.{MOST_APPLICATIONS, MOST_EFFECT_NAMES, MOST_ITEMS};
ghost use Rattle.fac_abs.specs.Marks.{on};
ghost use Rattle.fac_abs.specs.SeenMarks.{MarksSeen, IsStack, stack_of, base_seen};
ghost use Rattle.fac_abs.specs.MarkTrees.{Naming};
ghost use Rattle.fac_base.specs.Effects.{effect_height};
ghost use Rattle.fac_abs.specs.RowVariables.{effect_leaving};
ghost use Rattle.fac_base.specs.EffectView.{inputs_tree};
ghost use Rattle.fac_rows.specs.EntryCodes.{entries_prop};
ghost use Rattle.fac_rows.specs.NumberedRows.{IsRowEntry, numbered, row_entry};
ghost use Rattle.fac_check.specs.Verdicts.{any_quoted, end_of, kept_word, no_generic_effect};
ghost use Rattle.fac_check.specs.inner.BrokenRules.{IsOrdinaryBroken, IsRowBroken, IsTopBroken, IsInlineBroken, IsPhraseBroken, IsWordBroken, bad_rows_so, generic_rule, is_past_sort};
ghost use Rattle.fac_check.specs.inner.Walkable.{takes_all, takes_phrase, takes_word};
ghost use Rattle.fac_check.specs.inner.Walking.{IsWalked, walked_seen};

use crate::recursion::is_inline;
use crate::refusal::{Broken, Refusal};
use crate::subject::Subject;
use crate::walker::{Step, Walked, Walker};
use fac_abs::{Marks, Reached, Rule, same_base};
use fac_base::limits::{MOST_APPLICATIONS, MOST_ITEMS};
use fac_base::{Effect, Input, Memory, Place};
use fac_lang::{Phrase, Sort, WordDef};
use fac_locals::Closed;
use fac_rows::{
    OwnEffect, RowEffect, RowWords, bindable, has_rows, inputs_marks, outer_in, outer_out,
};
use std::alloc::Global;

/// The verdict on a word.
#[derive(Clone, Copy, Debug, PartialEq, Eq)]
pub enum Verdict {
    /// It breaks no rule.
    Accepted,
    /// It breaks this rule first.
    Refused(Refusal),
}

// What a word breaks whose walk ends so, and that must leave on this row what its effect declares.
fn kept(marks: &Marks, word: &WordDef, row: Option<u32>, walked: Walked) -> Option<Broken>
    requires { IsWalked marks.now walked }
    ensures { (P : ProgramSeen) (N : Naming) → result ≡ end_of P (walked_seen N marks.now walked) (kept_word P (effect_leaving word.now.effect) (base_seen N row) word.now.place) }
{
    match walked {
        Walked::Refused(broken) => Some(broken),
        Walked::Found(reached, _) => match reached {
            Reached::Dead => None,
            Reached::On { base, stack } => kept_outputs(marks, word, row, base, stack),
        },
    }
}

// What a word breaks that leaves this stack on this base, where it must leave it on this row.
fn kept_outputs(
    marks: &Marks,
    word: &WordDef,
    row: Option<u32>,
    base: Option<u32>,
    stack: u32,
) -> Option<Broken>
    requires { IsStack marks.now stack }
    ensures { (P : ProgramSeen) (N : Naming) → result ≡ kept_word P (effect_leaving word.now.effect) (base_seen N row) word.now.place (on (base_seen N base) (stack_of N marks.now stack)) }
{
    let found = marks.height(stack);
    match word.effect.outputs() {
        Some(declared) => {
            if same_base(base, row) && found == declared {
                return None;
            }
            Some(Broken {
                rule: Rule::Outputs { declared, found },
                place: word.place,
            })
        }
        None => Some(Broken {
            rule: Rule::MustReturn,
            place: word.place,
        }),
    }
}

// Where the walk of a word begins, with all that a word may enter and walk, under the frame with no cells.
fn first_step(place: Place, base: Option<u32>, stack: u32) -> Step
    ensures { result ≡ record { place = place; nested = MOST_APPLICATIONS; base = base; stack = stack; frame = 0; left = MOST_ITEMS; alone = false } }
{
    Step {
        place,
        nested: MOST_APPLICATIONS,
        base,
        stack,
        frame: 0,
        left: MOST_ITEMS,
        alone: false,
    }
}

// What the top-level phrase breaks whose walk ends so: it may leave any stack.
fn top_kept(walked: Walked) -> Option<Broken>
    ensures { (P : ProgramSeen) (N : Naming) (M : MarksSeen) → result ≡ end_of P (walked_seen N M walked) (λ A. None) }
{
    match walked {
        Walked::Refused(broken) => Some(broken),
        Walked::Found(_, _) => None,
    }
}

// A closed program whose words are checked.
#[derive(Drop)]
struct Checker<'a> {
    alloc: Global,
    closed: &'a Closed,
    rows: &'a RowWords,
    ghost entries_are: { rows.now.entries ≡ map row_entry closed.now.program.words } by { entries_prop rows.now.entries (map row_entry closed.now.program.words) },
    ghost taken: { takes_all closed.now.program closed.now.templates ≡ true },
}

impl<'a> Checker<'a> {
    // What an ordinary word with this phrase breaks, which starts from its inputs.
    fn ordinary_broken(&self, word: &WordDef, phrase: &Phrase) -> Result<Option<Broken>, Memory>
        requires { takes_phrase self.now.closed.now.program.top (length self.now.closed.now.templates) phrase.now ≡ true }
        ensures { IfOk result (λ broken. IsOrdinaryBroken self.now.closed.now word.now phrase.now broken) }
    {
        let closed = self.closed;
        let rows = self.rows;
        let own = None;
        let effect = None;
        let inner = closed.templates.len();
        let mut walker = Walker::new(
            self.alloc,
            Subject {
                closed,
                rows,
                own,
                effect,
                inner,
            },
        )?;
        let stack = walker.marks.unknowns(0, word.effect.inputs() as u64)?;
        let step = first_step(word.place, None, stack);
        let walked = walker.walk_phrase(phrase, step)?;
        Ok(kept(&walker.marks, word, None, walked))
    }

    // What a row word with this phrase breaks, which starts from its input row with a mark of its own for each quotation input, and must leave
    // its outputs on its output row.
    fn row_broken(
        &self,
        number: u32,
        word: &'a WordDef,
        row: &'a RowEffect,
        phrase: &Phrase,
    ) -> Result<Option<Broken>, Memory>
        requires at { slice_get self.now.closed.now.program.words number ≡ Some word.now }
        requires row { row.now.numbered ≡ numbered word.now.effect }
        requires few { (effect_height word.now.effect).ins ≤ MOST_EFFECT_NAMES }
        requires phrase { takes_phrase self.now.closed.now.program.top (length self.now.closed.now.templates) phrase.now ≡ true }
        ensures { IfOk result (λ broken. IsRowBroken self.now.closed.now number word.now phrase.now broken) }
    {
        let closed = self.closed;
        let rows = self.rows;
        let own = Some(number);
        let effect = Some(OwnEffect {
            effect: &word.effect,
            numbered: &row.numbered,
        });
        let inner = closed.templates.len();
        let mut walker = Walker::new(
            self.alloc,
            Subject {
                closed,
                rows,
                own,
                effect,
                inner,
            },
        )?;
        let stack = inputs_marks(&mut walker.marks, &word.effect)?;
        let step = first_step(word.place, outer_in(&word.effect), stack);
        let walked = walker.walk_phrase(phrase, step)?;
        Ok(kept(&walker.marks, word, outer_out(&word.effect), walked))
    }

    // What the top-level word with this phrase breaks, which starts from so many values.
    fn top_broken(&self, place: Place, phrase: &Phrase) -> Result<Option<Broken>, Memory>
        requires { takes_phrase self.now.closed.now.program.top (length self.now.closed.now.templates) phrase.now ≡ true }
        ensures { IfOk result (λ broken. IsTopBroken self.now.closed.now phrase.now broken) }
    {
        let closed = self.closed;
        let rows = self.rows;
        let own = None;
        let effect = None;
        let inner = closed.templates.len();
        let mut walker = Walker::new(
            self.alloc,
            Subject {
                closed,
                rows,
                own,
                effect,
                inner,
            },
        )?;
        let stack = walker.marks.unknowns(0, closed.start)?;
        let step = first_step(place, None, stack);
        let walked = walker.walk_phrase(phrase, step)?;
        Ok(top_kept(walked))
    }

    // What is made once of the effect of a word, where it is a row word.
    fn row_word(&self, number: u32, word: &WordDef) -> Option<&'a RowEffect>
        requires { slice_get self.now.closed.now.program.words number ≡ Some word.now }
        ensures { IsRowEntry word.now (option_copied result) }
    {
        self.rows.get(number)
    }

    // What an inline word with this phrase breaks. An expanded word isn't walked at its definition. It takes what `row_broken` takes.
    fn inline_broken(
        &self,
        number: u32,
        word: &'a WordDef,
        phrase: &Phrase,
    ) -> Result<Option<Broken>, Memory>
        requires at { slice_get self.now.closed.now.program.words number ≡ Some word.now }
        requires few { (effect_height word.now.effect).ins ≤ MOST_EFFECT_NAMES }
        requires phrase { takes_phrase self.now.closed.now.program.top (length self.now.closed.now.templates) phrase.now ≡ true }
        ensures { IfOk result (λ broken. IsInlineBroken self.now.closed.now number word.now phrase.now broken) }
    {
        match self.row_word(number, word) {
            None => Ok(None),
            Some(row) => self.row_broken(number, word, row, phrase),
        }
    }

    // What a word with this phrase breaks by its walk. It takes what `row_broken` takes.
    fn phrase_broken(
        &self,
        number: u32,
        word: &'a WordDef,
        phrase: &Phrase,
    ) -> Result<Option<Broken>, Memory>
        requires at { slice_get self.now.closed.now.program.words number ≡ Some word.now }
        requires few { (effect_height word.now.effect).ins ≤ MOST_EFFECT_NAMES }
        requires phrase { takes_phrase self.now.closed.now.program.top (length self.now.closed.now.templates) phrase.now ≡ true }
        ensures { IfOk result (λ broken. IsPhraseBroken self.now.closed.now number word.now phrase.now broken) }
    {
        let closed = self.closed;
        if number == closed.program.top {
            return self.top_broken(word.place, phrase);
        }
        if word.inline {
            return self.inline_broken(number, word, phrase);
        }
        self.ordinary_broken(word, phrase)
    }
}

// Whether a word is an earlier top-level phrase.
fn is_past(word: &WordDef) -> bool
    ensures { result ≡ is_past_sort word.now.sort }
{
    match &word.sort {
        Sort::Past(_) => true,
        _ => false,
    }
}

// Whether a word's effect has row variables where none may be: only an inline word has them, and only so that they can be bound. Top-level
// phrases are spared.
fn has_bad_rows(top: u32, number: u32, word: &WordDef) -> bool
    ensures { result ≡ bad_rows_so top number word.now }
{
    if number == top {
        return false;
    }
    if is_past(word) {
        return false;
    }
    has_rows(&word.effect) && !(is_inline(word) && bindable(&word.effect))
}

// Whether one of these inputs has an effect.
fn any_quotation(inputs: &[Input]) -> bool
    ensures { result ≡ any_quoted (inputs_tree inputs.now) }
{
    for input in inputs {
        if input.quot.is_some() {
            return true;
        }
    }
    false
}

// Whether an effect is none for a generic, which takes the value that chooses its method, and whose inputs and rows are plain.
fn is_no_generic_effect(effect: &Effect) -> bool
    ensures { result ≡ no_generic_effect effect.now }
{
    effect.inputs() == 0 || has_rows(effect) || any_quotation(&effect.ins)
}

// What a generic breaks.
fn generic_broken(word: &WordDef) -> Option<Broken>
    ensures { result ≡ generic_rule (no_generic_effect word.now.effect) word.now.place }
{
    if is_no_generic_effect(&word.effect) {
        return Some(Broken {
            rule: Rule::MethodEffect,
            place: word.place,
        });
    }
    None
}

/// What the word with this number breaks, where it is known whether its phrase leads back to it.
pub fn word_broken<'a>(
    alloc: Global,
    closed: &'a Closed,
    rows: &'a RowWords,
    leads_back: bool,
    number: u32,
    word: &'a WordDef,
) -> Result<Option<Broken>, Memory>
    requires program { takes_all closed.now.program closed.now.templates ≡ true }
    requires rows { rows.now.entries ≡ map row_entry closed.now.program.words }
    requires at { slice_get closed.now.program.words number ≡ Some word.now }
    requires word { takes_word closed.now.program.top (length closed.now.templates) word.now ≡ true }
    ensures { IfOk result (λ broken. IsWordBroken closed.now leads_back number word.now broken) }
{
    if leads_back {
        return Ok(Some(Broken {
            rule: Rule::UndeclaredRecursion,
            place: word.place,
        }));
    }
    if has_bad_rows(closed.program.top, number, word) {
        return Ok(Some(Broken {
            rule: Rule::RowDeclaration,
            place: word.place,
        }));
    }
    let checker = Checker {
        alloc,
        closed,
        rows,
    };
    match &word.sort {
        Sort::Body(phrase) => checker.phrase_broken(number, word, phrase),
        Sort::Method { body, .. } => checker.ordinary_broken(word, body),
        Sort::Generic => Ok(generic_broken(word)),
        _ => Ok(None),
    }
}
