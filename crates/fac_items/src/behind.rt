//! The names behind arrays that `cond` could read. They are found from the last element on, so that who goes through the elements from the first one on
//! knows at each array what stands behind it.
ghost use Rattle.std.specs.Prelude.{◌≡◌, IfOk, OnOk};
ghost use Rattle.std.specs.Option.{option_map};
ghost use Rattle.fac_items.specs.declared.cases.Child.TheVariants.{Other};
ghost use Rattle.fac_items.specs.FromElements.{node};
ghost use Rattle.fac_items.specs.Items.{is_cond};
ghost use Rattle.fac_items.specs.inner.Behind.{all_scanned, bracket_before, child_of, closed_before, cond_name, leaf_name, level_seen, name_behind, name_tok, names_seen, names_with, none_scanned, none_yet, opened_before, scanned, with_element};

use crate::cases::{Cases, Child, are_cases, array_child, with_child};
use crate::search::is_cond;
use crate::spelled::{NameAt, name_at};
use fac_base::{Memory, Stack};
use fac_source::{Bracket, Element, Term};
use fac_vocab::Scope;
use std::alloc::Global;
use std::marker::Model;

// What is known of elements: what they are in an array, and the name with which they begin.
#[derive(Clone, Copy)]
struct Level<'a> {
    cases: Cases,
    first: Option<NameAt<'a>>,
}

// Elements as far as they were read. Contracts see their names as tokens.
#[derive(Drop)]
struct Scan<'a> {
    here: Level<'a>,
    // What stands around them, from the inside out.
    around: Stack<Level<'a>>,
    // For each array the name behind it, where it is `cond`; the first array first.
    names: Stack<Option<NameAt<'a>>>,
}

impl<'a> Model for Scan<'a> {
    ghost use Rattle.std.specs.Prelude.{map};
    ghost use Rattle.fac_items.specs.inner.Behind.{Scanned, level_seen, names_seen};

    ghost Value = { Scanned };

    ghost view = { λ s. record { here = level_seen s.here; around = map level_seen s.around; names = names_seen s.names } };
}

// Before an element was read.
fn none_yet<'a>() -> Level<'a>
    ensures { level_seen result ≡ none_yet }
{
    Level {
        cases: Cases::Nothing,
        first: None,
    }
}

// One element more before others.
fn with_element<'a>(child: Child, first: Option<NameAt<'a>>, level: Level<'a>) -> Level<'a>
    ensures { level_seen result ≡ with_element child (option_map name_tok first.entry) (level_seen level.entry) }
{
    Level {
        cases: with_child(child, level.cases),
        first,
    }
}

// The name that an item is.
#[tactic(auto, using(crate::proofs::SpellLemmas::call_name))]
fn leaf_name(term: &Term) -> Option<NameAt<'_>>
    ensures { option_map name_tok result ≡ leaf_name (node term.now) }
{
    match term {
        Term::Name(token) => Some(name_at(token)),
        Term::Wrapped { .. } => None,
        Term::EffectCall { .. } => None,
        Term::Literal(..) => None,
        Term::NextMethod(_) => None,
        Term::Bind { .. } => None,
        Term::Hole(_) => None,
        Term::CalledHole(_) => None,
    }
}

// What a bracket around these elements is as an element.
fn child_of(bracket: Bracket, cases: Cases) -> Child
    ensures { result ≡ child_of bracket cases }
{
    match bracket {
        Bracket::Quotation => Child::Quotation,
        Bracket::Fry => Child::Other,
        Bracket::Array => array_child(cases),
    }
}

// A name, where it is `cond`.
fn cond_name<'a>(scope: &Scope, first: Option<NameAt<'a>>) -> Option<NameAt<'a>>
    ensures { option_map name_tok result ≡ cond_name (is_cond scope.now) (option_map name_tok first.entry) }
{
    match first {
        Some(name) => {
            if is_cond(scope, name.text) {
                Some(name)
            } else {
                None
            }
        }
        None => None,
    }
}

// The name behind an array of these elements, where it is `cond` and could read the array.
fn name_behind<'a>(scope: &Scope, cases: Cases, first: Option<NameAt<'a>>) -> Option<NameAt<'a>>
    ensures { option_map name_tok result ≡ name_behind (is_cond scope.now) cases (option_map name_tok first.entry) }
{
    if are_cases(cases) {
        cond_name(scope, first)
    } else {
        None
    }
}

// Adds what stands behind an array.
fn add_name<'a>(
    scope: &Scope,
    names: &mut Stack<Option<NameAt<'a>>>,
    bracket: Bracket,
    cases: Cases,
    first: Option<NameAt<'a>>,
) -> Result<(), Memory>
    ensures { OnOk result (names_seen names.new ≡ names_with (is_cond scope.now) bracket cases (option_map name_tok first.entry) (names_seen names.old)) }
{
    match bracket {
        Bracket::Quotation => Ok(()),
        Bracket::Fry => Ok(()),
        Bracket::Array => names.push(name_behind(scope, cases, first)),
    }
}

// Takes a bracket that opens, which is one element of what is around it.
fn open(scope: &Scope, scan: &mut Scan<'_>, bracket: Bracket) -> Result<(), Memory>
    ensures { OnOk result (scan.new ≡ bracket_before (is_cond scope.now) bracket scan.old) }
{
    let cases = scan.here.cases;
    let child = child_of(bracket, cases);
    match scan.around.pop() {
        Some(level) => {
            add_name(scope, &mut scan.names, bracket, cases, level.first)?;
            scan.here = with_element(child, None, level);
            Ok(())
        }
        None => {
            add_name(scope, &mut scan.names, bracket, cases, None)?;
            scan.here = with_element(child, None, none_yet());
            Ok(())
        }
    }
}

// Takes what opens a quotation with locals, likewise.
fn open_locals(scan: &mut Scan<'_>)
    ensures { scan.new ≡ opened_before Other scan.old }
{
    match scan.around.pop() {
        Some(level) => {
            scan.here = with_element(Child::Other, None, level);
        }
        None => {
            scan.here = with_element(Child::Other, None, none_yet());
        }
    }
}

// Takes a bracket that closes, before which elements begin anew.
fn close(scan: &mut Scan<'_>) -> Result<(), Memory>
    ensures { OnOk result (scan.new ≡ closed_before scan.old) }
{
    scan.around.push(scan.here)?;
    scan.here = none_yet();
    Ok(())
}

// Takes an element before those that were read.
fn take<'a>(scope: &Scope, scan: &mut Scan<'a>, element: &'a Element) -> Result<(), Memory>
    ensures { OnOk result (scan.new ≡ scanned (is_cond scope.now) element.now scan.old) }
{
    match element {
        Element::Item(term) => {
            scan.here = with_element(Child::Other, leaf_name(term), scan.here);
            Ok(())
        }
        Element::Opens(bracket, _) => open(scope, scan, *bracket),
        Element::OpensLocals { .. } => {
            open_locals(scan);
            Ok(())
        }
        Element::Closes(_, _) => close(scan),
    }
}

// Takes elements, the last one first.
fn take_all<'a>(scope: &Scope, scan: &mut Scan<'a>, elements: &'a [Element]) -> Result<(), Memory>
    ensures { OnOk result (scan.new ≡ all_scanned (is_cond scope.now) elements.now scan.old) }
{
    let mut rest = elements;
    while let Some((element, earlier)) = rest.split_last() {
        take(scope, scan, element)?;
        rest = earlier;
    }
    Ok(())
}

/// For each array the name behind it, where it is `cond` and could read the array; the first array first.
pub fn names_behind<'a>(
    alloc: Global,
    scope: &Scope,
    elements: &'a [Element],
) -> Result<Stack<Option<NameAt<'a>>>, Memory>
    ensures { IfOk result (λ names. names_seen names ≡ (all_scanned (is_cond scope.now) elements.now none_scanned).names) }
{
    let mut scan = Scan {
        here: none_yet(),
        around: Stack::new(alloc),
        names: Stack::new(alloc),
    };
    take_all(scope, &mut scan, elements)?;
    let Scan { names, .. } = scan;
    Ok(names)
}
