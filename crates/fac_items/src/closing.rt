//! Brackets that close, and the end of the pairs before a `cond`.
ghost use Rattle.std.specs.Prelude.{◌≡◌, suc, IfOk, OnOk};
ghost use Rattle.fac_items.specs.FromElements.{node};
ghost use Rattle.fac_items.specs.inner.TakenBits.{added_behind, array_closed, around_closed, around_seen, bracket_closed, case_closed, cases_ended, closed_at, closed_times, content_seen, fresh_closed, leaf_at, locals_seen, quotation_closed, with_no_cond};

use crate::added::Added;
use crate::content::{
    Content, add_array, add_fresh, add_what, keep_array, whole_phrase, whole_quotation,
};
use crate::locals::keep;
use crate::nest::{Around, At, Nest, Spot, add_word, open_quotation, take_inside};
use crate::spelled::NameAt;
use fac_base::{Memory, Place};
use fac_source::Term;
use fac_vocab::Scope;
use std::alloc::Global;
use std::mem;

// Adds the word that stands behind a quotation, where there is one.
fn add_behind(
    scope: &Scope,
    nest: &mut Nest<'_>,
    added: Option<(Added, Place)>,
) -> Result<(), Memory>
    ensures { OnOk result (nest.new ≡ added_behind scope.now added nest.old) }
{
    match added {
        Some((word, place)) => add_word(scope, nest, word, place),
        None => Ok(()),
    }
}

// Closes a quotation in a phrase.
fn close_quotation(
    alloc: Global,
    nest: &mut Nest<'_>,
    before: Content,
    place: Place,
    count: usize,
    at: At,
) -> Result<(), Memory>
    ensures { OnOk result (nest.new ≡ quotation_closed (content_seen before) place count at nest.old) }
{
    let inner = mem::replace(&mut nest.content, before);
    nest.at = at;
    keep(&mut nest.locals, count);
    add_what(&mut nest.content, whole_quotation(alloc, inner)?, place)
}

// Closes a fry, or a quotation in an array.
fn close_fresh(
    alloc: Global,
    nest: &mut Nest<'_>,
    before: Content,
    place: Place,
    count: usize,
    holes: u32,
) -> Result<(), Memory>
    ensures { OnOk result (nest.new ≡ fresh_closed (content_seen before) place count holes nest.old) }
{
    let inner = mem::replace(&mut nest.content, before);
    let inner_holes = nest.holes;
    nest.at = At::Inside;
    nest.holes = holes;
    keep(&mut nest.locals, count);
    let phrase = whole_phrase(alloc, inner);
    add_fresh(&mut nest.content, phrase, inner_holes, place)
}

// Closes an array, which is kept and stands as its number.
fn close_array<'a>(
    alloc: Global,
    nest: &mut Nest<'a>,
    before: Content,
    place: Place,
    locals: Vec<NameAt<'a>>,
    holes: u32,
) -> Result<(), Memory>
    ensures { OnOk result (nest.new ≡ array_closed (content_seen before) place (locals_seen locals.entry.items) holes nest.old) }
{
    let inner = mem::replace(&mut nest.content, before);
    nest.at = At::Inside;
    nest.holes = holes;
    nest.locals = locals;
    let number = keep_array(alloc, &mut nest.arrays, inner)?;
    add_array(&mut nest.content, number, place)
}

// Closes a bracket that was open.
fn close_around<'a>(
    alloc: Global,
    scope: &Scope,
    nest: &mut Nest<'a>,
    around: Around<'a>,
) -> Result<(), Memory>
    ensures { OnOk result (nest.new ≡ around_closed scope.now (around_seen around.entry) nest.old) }
{
    match around {
        Around::Quotation {
            before,
            place,
            count,
            added,
            at,
        } => {
            close_quotation(alloc, nest, before, place, count, at)?;
            add_behind(scope, nest, added)
        }
        Around::Fresh {
            before,
            place,
            count,
            holes,
        } => close_fresh(alloc, nest, before, place, count, holes),
        Around::Array {
            before,
            place,
            locals,
            holes,
        } => close_array(alloc, nest, before, place, locals, holes),
        Around::Last { count, at } => {
            nest.at = at;
            keep(&mut nest.locals, count);
            Ok(())
        }
    }
}

// Closes the innermost bracket, where one is open.
fn close_bracket(alloc: Global, scope: &Scope, nest: &mut Nest<'_>) -> Result<(), Memory>
    ensures { OnOk result (nest.new ≡ bracket_closed scope.now nest.old) }
{
    match nest.outer.pop() {
        Some(around) => close_around(alloc, scope, nest, around),
        None => Ok(()),
    }
}

// One more than a number. A number that is too large is want of memory.
fn more(number: u64) -> Result<u64, Memory>
    ensures { IfOk result (λ next. next ≡ suc number) }
{
    match number.checked_add(1) {
        Some(next) => Ok(next),
        None => Err(Memory),
    }
}

// Takes a bracket that closes among the pairs before a `cond` at a place. Behind a pair the quotation begins that stands for the further cases.
fn close_case(
    alloc: Global,
    nest: &mut Nest<'_>,
    cond: Place,
    spot: Spot,
    pairs: u64,
) -> Result<(), Memory>
    ensures { OnOk result (nest.new ≡ case_closed cond spot pairs nest.old) }
{
    match spot {
        Spot::BehindSecond => {
            let pairs = more(pairs)?;
            open_quotation(alloc, nest, Some((Added::If, cond)), cond, At::Inside)?;
            nest.at = At::Cases(cond, Spot::Between, pairs);
            Ok(())
        }
        Spot::Between => Ok(()),
        Spot::BeforeFirst => Ok(()),
        Spot::BeforeSecond => Ok(()),
        Spot::BehindLast => Ok(()),
    }
}

/// Takes a bracket that closes.
pub fn close(alloc: Global, scope: &Scope, nest: &mut Nest<'_>) -> Result<(), Memory>
    ensures { OnOk result (nest.new ≡ closed_at scope.now nest.old.at nest.old) }
{
    match nest.at {
        At::Inside => close_bracket(alloc, scope, nest),
        At::Cases(cond, spot, pairs) => close_case(alloc, nest, cond, spot, pairs),
    }
}

// Closes so many brackets.
fn close_times(alloc: Global, scope: &Scope, nest: &mut Nest<'_>, times: u64) -> Result<(), Memory>
    ensures { OnOk result (nest.new ≡ closed_times scope.now times nest.old) }
{
    for _pair in 0..times {
        close_bracket(alloc, scope, nest)?;
    }
    Ok(())
}

// Adds the word for no case, where no last quotation stands behind the pairs.
fn add_no_cond(scope: &Scope, nest: &mut Nest<'_>, cond: Place, spot: Spot) -> Result<(), Memory>
    ensures { OnOk result (nest.new ≡ with_no_cond scope.now cond spot nest.old) }
{
    match spot {
        Spot::Between => add_word(scope, nest, Added::NoCond, cond),
        Spot::BeforeFirst => Ok(()),
        Spot::BeforeSecond => Ok(()),
        Spot::BehindSecond => Ok(()),
        Spot::BehindLast => Ok(()),
    }
}

// Takes the `cond` behind its cases.
fn end_cases(
    alloc: Global,
    scope: &Scope,
    nest: &mut Nest<'_>,
    cond: Place,
    spot: Spot,
    pairs: u64,
) -> Result<(), Memory>
    ensures { OnOk result (nest.new ≡ cases_ended scope.now cond spot pairs nest.old) }
{
    nest.at = At::Inside;
    add_no_cond(scope, nest, cond, spot)?;
    close_times(alloc, scope, nest, pairs)
}

/// Takes an item without a bracket. Behind the cases of a `cond` it is the `cond`.
pub fn take_term<'a>(
    alloc: Global,
    scope: &Scope,
    nest: &mut Nest<'a>,
    term: &'a Term,
) -> Result<(), Memory>
    ensures { OnOk result (nest.new ≡ leaf_at scope.now nest.old.at (node term.now) nest.old) }
{
    match nest.at {
        At::Inside => take_inside(alloc, scope, nest, term),
        At::Cases(cond, spot, pairs) => end_cases(alloc, scope, nest, cond, spot, pairs),
    }
}
