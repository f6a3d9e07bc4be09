//! Items and elements as far as they were taken: the brackets that are open, the locals in scope, and the holes of the fry around.
ghost use Rattle.std.specs.Prelude.{◌≡◌, ◌++◌, ◌∷◌, [], fold, map, IfOk, OnOk};
ghost use Rattle.std.specs.Option.{option_map};
ghost use Rattle.fac_lang.specs.PhraseView.{what_item};
ghost use Rattle.fac_lang.specs.declared.program.Lit.TheVariants.{Wref};
ghost use Rattle.fac_source.specs.declared.tree.Bracket.TheVariants.{Quotation};
ghost use Rattle.fac_source.specs.Refusals.{sooner};
ghost use Rattle.fac_vocab.specs.Scopes.{Scope};
ghost use Rattle.fac_items.specs.FromElements.{node, tested_call, tok};
ghost use Rattle.fac_items.specs.Items.{local_of, search_fault, word_of};
ghost use Rattle.fac_items.specs.inner.Behind.{name_tok};
ghost use Rattle.fac_items.specs.inner.TakenBits.{added_taken, all_bound, array_in, array_opened, array_or_cases, array_taken, begun, bound_taken, bracket_opened, case_opened, cond_place, fresh_opened};
ghost use Rattle.fac_items.specs.inner.TakenBits.{hole_taken, item_taken, last_opened, leaf_inside, locals_at, locals_seen, name_as, name_in, opened_inside, quotation_opened, reference_taken};

use crate::added::{Added, number_of};
use crate::content::{Content, add_element, add_literal, add_reference, add_what};
use crate::locals::{is_among, local_number, local_of};
use crate::search::word_of;
use crate::spelled::{NameAt, name_at};
use fac_base::{Height, List, Memory, Place, Stack};
use fac_effect::text;
use fac_lang::{Lit, What};
use fac_source::{Bracket, Callee, NameFault, NameKind, Term, Token, refuse_name};
use fac_vocab::Scope;
use std::alloc::Global;
use std::marker::Model;
use std::mem;

// Where one stands among the pairs before a `cond`.
#[derive(Clone, Copy)]
pub enum Spot {
    Between,
    BeforeFirst,
    BeforeSecond,
    BehindSecond,
    BehindLast,
}

// Where one stands.
#[derive(Clone, Copy)]
pub enum At {
    // In a quotation, a fry or an array, or outside of all.
    Inside,
    // Among the pairs before a `cond` at this place, behind so many of them.
    Cases(Place, Spot, u64),
}

// A bracket that is open: what stands before it, and what comes back behind it.
#[derive(Drop)]
pub enum Around<'a> {
    // A quotation in a phrase: how many locals there were, a word that is added behind it, and where one stood.
    Quotation {
        before: Content,
        place: Place,
        count: usize,
        added: Option<(Added, Place)>,
        at: At,
    },
    // A fry, or a quotation in an array: how many locals there were, and the holes of around.
    Fresh {
        before: Content,
        place: Place,
        count: usize,
        holes: u32,
    },
    // An array: the locals and the holes of around.
    Array {
        before: Content,
        place: Place,
        locals: Vec<NameAt<'a>>,
        holes: u32,
    },
    // The last quotation before a `cond`, whose items stand where the array stands.
    Last {
        count: usize,
        at: At,
    },
}

/// Items and elements as far as they were taken. Contracts see what stands in the open brackets as phrases, and locals by their texts.
#[derive(Drop)]
pub struct Nest<'a> {
    // The brackets that are open, the innermost first.
    pub outer: Stack<Around<'a>>,
    pub at: At,
    // What stands in the innermost bracket, or outside of all where none is open.
    pub content: Content,
    // The locals in scope, the innermost last.
    pub locals: Vec<NameAt<'a>>,
    // How many holes the fry around has so far.
    pub holes: u32,
    /// The literal arrays so far.
    pub arrays: List<List<Lit>>,
    /// The first refusal so far.
    pub first: Option<NameFault>,
}

impl<'a> Model for Nest<'a> {
    ghost use Rattle.std.specs.Prelude.{map};
    ghost use Rattle.std.specs.Coded.{codes};
    ghost use Rattle.fac_lang.specs.PhraseCodes.{coded_phrase};
    ghost use Rattle.fac_items.specs.inner.TakenBits.{Taken, around_seen, content_seen, locals_seen};

    ghost Value = { Taken };

    ghost coded = { Prim.hlevel (codes, coded_phrase) };

    ghost view = { λ n. record { outer = map around_seen n.outer; at = n.at; content = content_seen n.content; locals = locals_seen n.locals.items; holes = n.holes; arrays = n.arrays; first = n.first } };
}

/// Before the first item, with the literal arrays and the first refusal so far.
pub fn begin<'a>(alloc: Global, arrays: List<List<Lit>>, first: Option<NameFault>) -> Nest<'a>
    ensures { result ≡ begun arrays first }
{
    Nest {
        outer: Stack::new(alloc),
        at: At::Inside,
        content: Content::Items(Vec::new(alloc)),
        locals: Vec::new(alloc),
        holes: 0,
        arrays,
        first,
    }
}

// Adds an item.
fn add(nest: &mut Nest<'_>, what: What, place: Place) -> Result<(), Memory>
    ensures { OnOk result (nest.new ≡ item_taken (what_item what) place nest.old) }
{
    add_what(&mut nest.content, what, place)
}

// Adds a word that a reading adds.
pub fn add_word(
    scope: &Scope,
    nest: &mut Nest<'_>,
    added: Added,
    place: Place,
) -> Result<(), Memory>
    ensures { OnOk result (nest.new ≡ added_taken scope.now added place nest.old) }
{
    add(nest, What::Word(number_of(scope, added)), place)
}

// Takes a name that is an item: that of a local, or else of a word.
fn take_item_name(
    alloc: Global,
    scope: &Scope,
    nest: &mut Nest<'_>,
    token: &Token,
) -> Result<(), Memory>
    ensures { OnOk result (nest.new ≡ name_as scope.now (tok token.now) token.now.place (local_of nest.old.locals (tok token.now).text) nest.old) }
{
    match local_of(nest.locals.as_slice(), text(&token.kind)) {
        Some(number) => {
            let number = local_number(number)?;
            add(nest, What::Local(number), token.place)
        }
        None => {
            let number = word_of(alloc, scope, &mut nest.first, token)?;
            add(nest, What::Word(number), token.place)
        }
    }
}

// Takes a name that is an element of an array, which stands for its word.
fn take_element_name(
    alloc: Global,
    scope: &Scope,
    first: &mut Option<NameFault>,
    elements: &mut Vec<Lit>,
    token: &Token,
) -> Result<(), Memory>
    ensures elements { OnOk result (elements.new.items ≡ elements.old.items ++ Wref (word_of scope.now (tok token.now)) ∷ []) }
    ensures first { OnOk result (first.new ≡ fold sooner first.old (search_fault scope.now (tok token.now))) }
{
    let number = word_of(alloc, scope, first, token)?;
    add_element(elements, Lit::Wref(number))
}

// Takes a name.
fn take_name(alloc: Global, scope: &Scope, nest: &mut Nest<'_>, token: &Token) -> Result<(), Memory>
    ensures { OnOk result (nest.new ≡ name_in scope.now (tok token.now) token.now.place nest.old.content nest.old) }
{
    match &mut nest.content {
        Content::Items(_) => take_item_name(alloc, scope, nest, token),
        Content::Elements(elements) => {
            take_element_name(alloc, scope, &mut nest.first, elements, token)
        }
    }
}

// Takes a word as a value, which stands at a place before its name.
fn take_reference(
    alloc: Global,
    scope: &Scope,
    nest: &mut Nest<'_>,
    name: &Token,
    place: Place,
) -> Result<(), Memory>
    ensures { OnOk result (nest.new ≡ reference_taken scope.now (tok name.now) place nest.old) }
{
    let number = word_of(alloc, scope, &mut nest.first, name)?;
    add_reference(&mut nest.content, number, place)
}

// Takes a call with a declared effect.
fn take_call(
    nest: &mut Nest<'_>,
    callee: Callee,
    height: Height,
    place: Place,
) -> Result<(), Memory>
    ensures { (s : Scope) → OnOk result (nest.new ≡ leaf_inside s (tested_call callee height place) nest.old) }
{
    match callee {
        Callee::Callable => add(nest, What::CallEffect(height), place),
        Callee::Word => add(nest, What::ExecuteEffect(height), place),
    }
}

// Binds a local. It is refused where it repeats a name of its list.
fn bind<'a>(
    alloc: Global,
    nest: &mut Nest<'a>,
    name: NameAt<'a>,
    twice: bool,
    place: Place,
) -> Result<(), Memory>
    ensures { OnOk result (nest.new ≡ bound_taken (name_tok name.entry) twice place nest.old) }
{
    let number = local_number(nest.locals.len())?;
    add(nest, What::Bind(number), place)?;
    nest.locals.push(name)?;
    if twice {
        refuse_name(
            alloc,
            &mut nest.first,
            NameKind::Twice,
            name.text,
            name.place,
        )
    } else {
        Ok(())
    }
}

/// Binds the inputs of a quotation or definition, the last one first.
pub fn bind_all<'a>(alloc: Global, nest: &mut Nest<'a>, names: &[NameAt<'a>]) -> Result<(), Memory>
    ensures { OnOk result (nest.new ≡ all_bound (map name_tok names.now) [] nest.old) }
{
    let mut count = names.len();
    while count > 0 {
        count -= 1;
        let name = names[count];
        let twice = is_among(name.text, &names[..count]);
        bind(alloc, nest, name, twice, name.place)?;
    }
    Ok(())
}

// Takes a hole of the fry around.
fn take_hole(nest: &mut Nest<'_>, place: Place) -> Result<(), Memory>
    ensures { OnOk result (nest.new ≡ hole_taken place nest.old) }
{
    let number = nest.holes;
    match number.checked_add(1) {
        Some(next) => {
            add(nest, What::Hole(number), place)?;
            nest.holes = next;
            Ok(())
        }
        None => Err(Memory),
    }
}

// Takes an item without a bracket.
pub fn take_inside<'a>(
    alloc: Global,
    scope: &Scope,
    nest: &mut Nest<'a>,
    term: &'a Term,
) -> Result<(), Memory>
    ensures { OnOk result (nest.new ≡ leaf_inside scope.now (node term.now) nest.old) }
{
    match term {
        Term::Literal(token, literal) => add_literal(
            alloc,
            &mut nest.content,
            *literal,
            text(&token.kind),
            token.place,
        ),
        Term::Name(token) => take_name(alloc, scope, nest, token),
        Term::Wrapped { sign, name } => take_reference(alloc, scope, nest, name, *sign),
        Term::EffectCall {
            callee,
            sign,
            tokens: _,
            height,
        } => take_call(nest, *callee, *height, *sign),
        Term::NextMethod(place) => add(nest, What::NextMethod, *place),
        Term::Bind { sign, name } => bind(alloc, nest, name_at(name), false, *sign),
        Term::Hole(place) => take_hole(nest, *place),
        Term::CalledHole(place) => {
            take_hole(nest, *place)?;
            add_word(scope, nest, Added::Call, *place)
        }
    }
}

// Opens a quotation in a phrase.
pub fn open_quotation(
    alloc: Global,
    nest: &mut Nest<'_>,
    added: Option<(Added, Place)>,
    place: Place,
    at: At,
) -> Result<(), Memory>
    ensures { OnOk result (nest.new ≡ quotation_opened added place at nest.old) }
{
    let count = nest.locals.len();
    let before = mem::replace(&mut nest.content, Content::Items(Vec::new(alloc)));
    nest.outer.push(Around::Quotation {
        before,
        place,
        count,
        added,
        at,
    })?;
    nest.at = At::Inside;
    Ok(())
}

// Opens a fry, or a quotation in an array.
fn open_fresh(alloc: Global, nest: &mut Nest<'_>, place: Place) -> Result<(), Memory>
    ensures { OnOk result (nest.new ≡ fresh_opened place nest.old) }
{
    let count = nest.locals.len();
    let holes = nest.holes;
    let before = mem::replace(&mut nest.content, Content::Items(Vec::new(alloc)));
    nest.outer.push(Around::Fresh {
        before,
        place,
        count,
        holes,
    })?;
    nest.at = At::Inside;
    nest.holes = 0;
    Ok(())
}

// Opens an array, in which no locals of around are in scope.
fn open_array(alloc: Global, nest: &mut Nest<'_>, place: Place) -> Result<(), Memory>
    ensures { OnOk result (nest.new ≡ array_opened place nest.old) }
{
    let holes = nest.holes;
    let before = mem::replace(&mut nest.content, Content::Elements(Vec::new(alloc)));
    let locals = mem::replace(&mut nest.locals, Vec::new(alloc));
    nest.outer.push(Around::Array {
        before,
        place,
        locals,
        holes,
    })?;
    nest.at = At::Inside;
    Ok(())
}

// Opens the last quotation before a `cond`.
fn open_last(nest: &mut Nest<'_>, at: At) -> Result<(), Memory>
    ensures { OnOk result (nest.new ≡ last_opened at nest.old) }
{
    let count = nest.locals.len();
    nest.outer.push(Around::Last { count, at })?;
    nest.at = At::Inside;
    Ok(())
}

// Opens a quotation among the pairs before a `cond` at a place. The first one of a pair is called.
fn open_case(
    alloc: Global,
    nest: &mut Nest<'_>,
    cond: Place,
    spot: Spot,
    pairs: u64,
    place: Place,
) -> Result<(), Memory>
    ensures { OnOk result (nest.new ≡ case_opened cond spot pairs place nest.old) }
{
    match spot {
        Spot::Between => open_last(nest, At::Cases(cond, Spot::BehindLast, pairs)),
        Spot::BeforeFirst => {
            let at = At::Cases(cond, Spot::BeforeSecond, pairs);
            open_quotation(alloc, nest, Some((Added::Call, cond)), place, at)
        }
        Spot::BeforeSecond => {
            let at = At::Cases(cond, Spot::BehindSecond, pairs);
            open_quotation(alloc, nest, None, place, at)
        }
        Spot::BehindSecond => Ok(()),
        Spot::BehindLast => Ok(()),
    }
}

// Opens a quotation or a fry.
fn open_inside(
    alloc: Global,
    nest: &mut Nest<'_>,
    bracket: Bracket,
    place: Place,
) -> Result<(), Memory>
    ensures { OnOk result (nest.new ≡ opened_inside bracket place nest.old) }
{
    match bracket {
        Bracket::Quotation => match &nest.content {
            Content::Items(_) => open_quotation(alloc, nest, None, place, At::Inside),
            Content::Elements(_) => open_fresh(alloc, nest, place),
        },
        Bracket::Fry => open_fresh(alloc, nest, place),
        Bracket::Array => Ok(()),
    }
}

/// Takes the bracket of a quotation or a fry that opens.
pub fn open(
    alloc: Global,
    nest: &mut Nest<'_>,
    bracket: Bracket,
    place: Place,
) -> Result<(), Memory>
    ensures { OnOk result (nest.new ≡ bracket_opened bracket place nest.old) }
{
    match nest.at {
        At::Inside => open_inside(alloc, nest, bracket, place),
        At::Cases(cond, spot, pairs) => open_case(alloc, nest, cond, spot, pairs, place),
    }
}

// The names that tokens spell.
fn names_at(alloc: Global, tokens: &[Token]) -> Result<Vec<NameAt<'_>>, Memory>
    ensures { IfOk result (λ names. map name_tok names.items ≡ map tok tokens.now) }
{
    let mut names = Vec::new(alloc);
    for token in tokens {
        names.push(name_at(token))?;
    }
    Ok(names)
}

// Opens a quotation with locals.
fn open_with<'a>(
    alloc: Global,
    nest: &mut Nest<'a>,
    tokens: &'a [Token],
    place: Place,
) -> Result<(), Memory>
    ensures { OnOk result (nest.new ≡ all_bound (map tok tokens.now) [] (opened_inside Quotation place nest.old)) }
{
    let names = names_at(alloc, tokens)?;
    open_inside(alloc, nest, Bracket::Quotation, place)?;
    bind_all(alloc, nest, names.as_slice())
}

/// Takes what opens a quotation with locals.
pub fn open_locals<'a>(
    alloc: Global,
    nest: &mut Nest<'a>,
    tokens: &'a [Token],
    place: Place,
) -> Result<(), Memory>
    ensures { OnOk result (nest.new ≡ locals_at nest.old.at (map tok tokens.now) place nest.old) }
{
    match nest.at {
        At::Inside => open_with(alloc, nest, tokens, place),
        At::Cases(cond, spot, pairs) => open_case(alloc, nest, cond, spot, pairs, place),
    }
}

// The place of the `cond` behind an array, where its name is that of no local.
fn cond_place(locals: &[NameAt<'_>], name: Option<NameAt<'_>>) -> Option<Place>
    ensures { result ≡ cond_place (locals_seen locals.now) (option_map name_tok name.entry) }
{
    match name {
        Some(name) => match local_of(locals, name.text) {
            Some(_) => None,
            None => Some(name.place),
        },
        None => None,
    }
}

// Opens an array, or the pairs before a `cond`.
fn open_pairs(
    alloc: Global,
    nest: &mut Nest<'_>,
    cond: Option<Place>,
    place: Place,
) -> Result<(), Memory>
    ensures { OnOk result (nest.new ≡ array_or_cases cond place nest.old) }
{
    match cond {
        Some(cond) => {
            nest.at = At::Cases(cond, Spot::Between, 0);
            Ok(())
        }
        None => open_array(alloc, nest, place),
    }
}

// Opens an array, with the name behind it that could be `cond`.
fn open_array_inside(
    alloc: Global,
    nest: &mut Nest<'_>,
    name: Option<NameAt<'_>>,
    place: Place,
) -> Result<(), Memory>
    ensures { OnOk result (nest.new ≡ array_in nest.old.content (option_map name_tok name.entry) place nest.old) }
{
    match &nest.content {
        Content::Items(_) => {
            let cond = cond_place(nest.locals.as_slice(), name);
            open_pairs(alloc, nest, cond, place)
        }
        Content::Elements(_) => open_array(alloc, nest, place),
    }
}

/// Takes the bracket of an array that opens, with the name behind the array that could be `cond`.
pub fn open_braces(
    alloc: Global,
    nest: &mut Nest<'_>,
    name: Option<NameAt<'_>>,
    place: Place,
) -> Result<(), Memory>
    ensures { OnOk result (nest.new ≡ array_taken (option_map name_tok name.entry) place nest.old) }
{
    match nest.at {
        At::Inside => open_array_inside(alloc, nest, name, place),
        At::Cases(cond, _, pairs) => {
            nest.at = At::Cases(cond, Spot::BeforeFirst, pairs);
            Ok(())
        }
    }
}
