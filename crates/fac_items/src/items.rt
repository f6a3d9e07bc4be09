//! Items with their names resolved, and the literal arrays among them.
ghost use Rattle.std.specs.Prelude.{◌≡◌, [], fold, map, IfOk, OnOk};
ghost use Rattle.fac_source.specs.Refusals.{sooner};
ghost use Rattle.std.specs.Option.{option_map};
ghost use Rattle.fac_items.specs.FromElements.{AreClosing, nested};
ghost use Rattle.fac_items.specs.Items.{items_faults};
ghost use Rattle.fac_items.specs.Made.{made, nodes_read};
ghost use Rattle.fac_items.specs.Readings.{with_inputs};
ghost use Rattle.fac_vocab.specs.Scopes.{Scope};
ghost use Rattle.fac_items.specs.inner.Behind.{name_tok, names_seen};
ghost use Rattle.fac_items.specs.inner.Bits.{all_bits, element_bit, later_names, names_behind, names_within, next_name, opens_bit};
ghost use Rattle.fac_items.specs.inner.TakenBits.{all_bound, begun, bit_taken, bits_of, bits_taken, phrase_in};

use crate::behind::names_behind;
use crate::closing::{close, take_term};
use crate::content::whole_phrase;
use crate::nest::{Nest, begin, bind_all, open, open_braces, open_locals};
use crate::spelled::NameAt;
use fac_base::{List, Memory, Place, Stack};
use fac_lang::{Lit, Phrase};
use fac_source::{Bracket, Element, NameFault};
use fac_vocab::Scope;
use std::alloc::Global;
use std::mem;

// The next of these names.
fn next_name<'a>(names: &mut Stack<Option<NameAt<'a>>>) -> Option<NameAt<'a>>
    ensures next { option_map name_tok result ≡ next_name (names_seen names.old) }
    ensures rest { names_seen names.new ≡ later_names (names_seen names.old) }
{
    match names.pop() {
        Some(name) => name,
        None => None,
    }
}

// Takes a bracket that opens. An array takes the next of the names behind arrays.
fn open_bracket<'a>(
    alloc: Global,
    nest: &mut Nest<'a>,
    names: &mut Stack<Option<NameAt<'a>>>,
    bracket: Bracket,
    place: Place,
) -> Result<(), Memory>
    ensures nest { (s : Scope) → OnOk result (nest.new ≡ bit_taken s nest.old (opens_bit bracket place (names_seen names.old))) }
    ensures names { OnOk result (names_seen names.new ≡ names_within bracket (names_seen names.old)) }
{
    match bracket {
        Bracket::Quotation => open(alloc, nest, Bracket::Quotation, place),
        Bracket::Fry => open(alloc, nest, Bracket::Fry, place),
        Bracket::Array => {
            let name = next_name(names);
            open_braces(alloc, nest, name, place)
        }
    }
}

// Takes an element.
fn take<'a>(
    alloc: Global,
    scope: &Scope,
    nest: &mut Nest<'a>,
    names: &mut Stack<Option<NameAt<'a>>>,
    element: &'a Element,
) -> Result<(), Memory>
    ensures nest { OnOk result (nest.new ≡ bit_taken scope.now nest.old (element_bit (names_seen names.old) element.now)) }
    ensures names { OnOk result (names_seen names.new ≡ names_behind element.now (names_seen names.old)) }
{
    match element {
        Element::Item(term) => take_term(alloc, scope, nest, term),
        Element::Opens(bracket, place) => open_bracket(alloc, nest, names, *bracket, *place),
        Element::OpensLocals {
            opens,
            names,
            bar: _,
        } => open_locals(alloc, nest, names.as_slice(), *opens),
        Element::Closes(_, _) => close(alloc, scope, nest),
    }
}

// Takes elements.
fn take_all<'a>(
    alloc: Global,
    scope: &Scope,
    nest: &mut Nest<'a>,
    names: Stack<Option<NameAt<'a>>>,
    elements: &'a [Element],
) -> Result<(), Memory>
    ensures { OnOk result (nest.new ≡ bits_taken scope.now nest.old (all_bits (names_seen names.entry) elements.now)) }
{
    let mut left = names;
    for element in elements {
        take(alloc, scope, nest, &mut left, element)?;
    }
    Ok(())
}

// Takes the inputs and elements of a phrase.
fn take_phrase<'a>(
    alloc: Global,
    scope: &Scope,
    nest: &mut Nest<'a>,
    inputs: &[NameAt<'a>],
    elements: &'a [Element],
) -> Result<(), Memory>
    ensures { OnOk result (nest.new ≡ bits_taken scope.now (all_bound (map name_tok inputs.now) [] nest.old) (bits_of scope.now elements.now)) }
{
    let names = names_behind(alloc, scope, elements)?;
    bind_all(alloc, nest, inputs)?;
    take_all(alloc, scope, nest, names, elements)
}

// Gives back the literal arrays and the first refusal. What is left is the phrase.
fn finish(
    alloc: Global,
    nest: Nest<'_>,
    arrays: &mut List<List<Lit>>,
    first: &mut Option<NameFault>,
) -> Phrase
    ensures phrase { result ≡ phrase_in nest.entry.content }
    ensures arrays { arrays.new ≡ nest.entry.arrays }
    ensures first { first.new ≡ nest.entry.first }
{
    let Nest {
        content,
        arrays: all,
        first: refused,
        ..
    } = nest;
    *arrays = all;
    *first = refused;
    whole_phrase(alloc, content)
}

/// The phrase of items behind their readings, and behind the bindings of inputs. The literal arrays in it come behind those so far, each where its
/// bracket closes.
pub fn phrase_of<'a>(
    alloc: Global,
    scope: &Scope,
    first: &mut Option<NameFault>,
    arrays: &mut List<List<Lit>>,
    inputs: &[NameAt<'a>],
    elements: &'a [Element],
) -> Result<Phrase, Memory>
    requires { AreClosing [] elements.now }
    ensures phrase { IfOk result (λ phrase. phrase ≡ (made scope.now (with_inputs (map name_tok inputs.now) (nested elements.now)) arrays.old).phrase) }
    ensures arrays { OnOk result (arrays.new ≡ (made scope.now (with_inputs (map name_tok inputs.now) (nested elements.now)) arrays.old).arrays) }
    ensures first { OnOk result (first.new ≡ fold sooner first.old (items_faults scope.now [] (nodes_read scope.now (with_inputs (map name_tok inputs.now) (nested elements.now))))) }
{
    let so_far = mem::replace(arrays, List::new(alloc));
    let mut nest = begin(alloc, so_far, mem::replace(first, None));
    take_phrase(alloc, scope, &mut nest, inputs, elements)?;
    Ok(finish(alloc, nest, arrays, first))
}
