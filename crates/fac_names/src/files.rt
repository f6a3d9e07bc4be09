//! Forms and files, in order.
ghost use Rattle.std.specs.Prelude.{◌≡◌, fold, OnOk};
ghost use Rattle.fac_source.specs.declared.tree.FormKind.TheVariants.{Constant, Define, DefineLocals, Generic, Method, Tuple, Union};
ghost use Rattle.fac_source.specs.FormRows.{slots_of};
ghost use Rattle.fac_parse.specs.Trees.{AreForms, FillAll, IsForm};
ghost use Rattle.fac_items.specs.FromElements.{nested, tok};
ghost use Rattle.fac_items.specs.Readings.{read_form};
ghost use Rattle.fac_items.specs.Written.{f_constant, f_define, given};
ghost use Rattle.fac_names.specs.Forms.{take};
ghost use Rattle.fac_names.specs.FromFlat.{first_node, form_of, is_inline, is_recursive, parent_name, row};
ghost use Rattle.std.specs.Option.{option_copied};
ghost use Rattle.fac_names.specs.inner.Named.{option_tok};
ghost use Rattle.fac_names.specs.inner.State.{reading_of};
ghost use Rattle.fac_names.specs.TakenForms.{take_flat};

use crate::accessors::accessors;
use crate::bodies::{define, maker, method, take_items};
use crate::classes::{singleton, tuple, union};
use crate::forms::{
    close_private, enter, from, generic, open_private, qualify, symbol, take_defer, take_main,
    use_all, use_vocab,
};
use crate::inputs::written_inputs;
use crate::parts::{
    all_names, brought, constant_parts, definition_parts, generic_parts, locals_parts,
    marks_inline, marks_recursive, method_parts, sole_name, tuple_parts, two_names, union_parts,
};
use crate::so_far::SoFar;
use fac_base::{Boxed, List, Memory};
use fac_endings::plain_effect;
use fac_source::{Form, FormKind, Parent, Part, Token};
use std::alloc::Global;

// Takes the definition of a word.
#[tactic(auto, using(crate::proofs::BracketLemmas::plain_closing))]
fn take_definition(alloc: Global, so_far: &mut SoFar, parts: &[Part]) -> Result<(), Memory>
    requires { FillAll (slots_of Define) parts.now }
    ensures { OnOk result (reading_of so_far.new ≡ take (row Define parts.now) (reading_of so_far.old)) }
{
    let definition = definition_parts(parts);
    let effect = definition.written.effect.copy(alloc)?;
    let marks = (
        marks_inline(definition.marks),
        marks_recursive(definition.marks),
    );
    define(
        alloc,
        so_far,
        definition.name,
        effect,
        &[],
        definition.elements,
        marks,
    )
}

// Takes the definition of a word whose inputs are locals.
fn take_locals(alloc: Global, so_far: &mut SoFar, parts: &[Part]) -> Result<(), Memory>
    requires { FillAll (slots_of DefineLocals) parts.now }
    ensures { OnOk result (reading_of so_far.new ≡ take (read_form (row DefineLocals parts.now)) (reading_of so_far.old)) }
{
    let definition = locals_parts(parts);
    let effect = definition.written.effect.copy(alloc)?;
    let inputs = written_inputs(alloc, definition.written.tokens.as_slice())?;
    let marks = (
        marks_inline(definition.marks),
        marks_recursive(definition.marks),
    );
    define(
        alloc,
        so_far,
        definition.name,
        effect,
        inputs.as_slice(),
        definition.elements,
        marks,
    )
}

// Takes a `CONSTANT:`.
#[tactic(auto, using(crate::proofs::BracketLemmas::literal_closing, crate::proofs::BracketLemmas::literal_sole))]
fn take_constant(alloc: Global, so_far: &mut SoFar, parts: &[Part]) -> Result<(), Memory>
    requires { FillAll (slots_of Constant) parts.now }
    ensures { OnOk result (reading_of so_far.new ≡ take (read_form (row Constant parts.now)) (reading_of so_far.old)) }
{
    let (name, literal) = constant_parts(parts);
    let effect = plain_effect(alloc, &[], &["value"])?;
    define(alloc, so_far, name, effect, &[], literal, (false, false))
}

// The name of a parent, where one is written.
fn parent_name(parent: &Option<Boxed<Parent>>) -> Option<&Token>
    ensures { option_tok (option_copied result) ≡ parent_name parent.now }
{
    match parent {
        Some(parent) => Some(&parent.get().class),
        None => None,
    }
}

// Takes a `TUPLE:`.
fn take_tuple(alloc: Global, so_far: &mut SoFar, parts: &[Part]) -> Result<(), Memory>
    requires { FillAll (slots_of Tuple) parts.now }
    ensures { OnOk result (reading_of so_far.new ≡ take (row Tuple parts.now) (reading_of so_far.old)) }
{
    let found = tuple_parts(parts);
    tuple(
        alloc,
        so_far,
        found.name,
        parent_name(found.parent),
        found.slots,
    )?;
    accessors(alloc, so_far, found.slots)
}

// Takes a `UNION:`.
fn take_union(alloc: Global, so_far: &mut SoFar, parts: &[Part]) -> Result<(), Memory>
    requires { FillAll (slots_of Union) parts.now }
    ensures { OnOk result (reading_of so_far.new ≡ take (row Union parts.now) (reading_of so_far.old)) }
{
    let (name, members) = union_parts(parts);
    union(alloc, so_far, name, members)
}

// Takes a `GENERIC:`.
fn take_generic(alloc: Global, so_far: &mut SoFar, parts: &[Part]) -> Result<(), Memory>
    requires { FillAll (slots_of Generic) parts.now }
    ensures { OnOk result (reading_of so_far.new ≡ take (row Generic parts.now) (reading_of so_far.old)) }
{
    let (name, written) = generic_parts(parts);
    let effect = written.effect.copy(alloc)?;
    generic(alloc, so_far, name, effect)
}

// Takes an `M:`.
#[tactic(auto, using(crate::proofs::BracketLemmas::plain_closing))]
fn take_method(alloc: Global, so_far: &mut SoFar, parts: &[Part]) -> Result<(), Memory>
    requires { FillAll (slots_of Method) parts.now }
    ensures { OnOk result (reading_of so_far.new ≡ take (row Method parts.now) (reading_of so_far.old)) }
{
    let found = method_parts(parts);
    method(alloc, so_far, found.class, found.generic, found.elements)
}

// Takes a row.
fn take_row(alloc: Global, so_far: &mut SoFar, kind: FormKind, parts: &[Part]) -> Result<(), Memory>
    requires { FillAll (slots_of kind) parts.now }
    ensures { OnOk result (reading_of so_far.new ≡ take (read_form (row kind parts.now)) (reading_of so_far.old)) }
{
    match kind {
        FormKind::In => enter(alloc, so_far, sole_name(parts)),
        FormKind::Use => use_vocab(alloc, so_far, sole_name(parts)),
        FormKind::Using => use_all(alloc, so_far, all_names(parts)),
        FormKind::From => {
            let (vocab, names) = brought(parts);
            from(alloc, so_far, vocab, names)
        }
        FormKind::QualifiedWith => {
            let (vocab, prefix) = two_names(parts);
            qualify(alloc, so_far, vocab, prefix)
        }
        FormKind::Defer => take_defer(alloc, so_far, sole_name(parts)),
        FormKind::Symbol => symbol(alloc, so_far, sole_name(parts)),
        FormKind::Constant => take_constant(alloc, so_far, parts),
        FormKind::Private => {
            open_private(so_far);
            Ok(())
        }
        FormKind::Public => {
            close_private(so_far);
            Ok(())
        }
        FormKind::Main => take_main(alloc, so_far, sole_name(parts)),
        FormKind::Define => take_definition(alloc, so_far, parts),
        FormKind::DefineLocals => take_locals(alloc, so_far, parts),
        FormKind::Tuple => take_tuple(alloc, so_far, parts),
        FormKind::Union => take_union(alloc, so_far, parts),
        FormKind::Singleton => singleton(alloc, so_far, sole_name(parts)),
        FormKind::Generic => take_generic(alloc, so_far, parts),
        FormKind::Method => take_method(alloc, so_far, parts),
        FormKind::Maker => {
            let (name, class) = two_names(parts);
            maker(alloc, so_far, name, class)
        }
    }
}

// Takes a form.
#[tactic(auto, using(crate::proofs::BracketLemmas::plain_closing))]
fn take_form(alloc: Global, so_far: &mut SoFar, form: &Form) -> Result<(), Memory>
    requires { IsForm form.now }
    ensures { OnOk result (reading_of so_far.new ≡ take (read_form (form_of form.now)) (reading_of so_far.old)) }
{
    match form {
        Form::Row { kind, parts, .. } => take_row(alloc, so_far, *kind, parts.as_slice()),
        Form::Items(elements) => take_items(alloc, so_far, elements.as_slice()),
    }
}

/// Takes the next forms of a file. Each is given back to memory when it is taken.
pub fn take_forms(alloc: Global, so_far: &mut SoFar, forms: List<Form>) -> Result<(), Memory>
    requires { AreForms forms }
    ensures { OnOk result (reading_of so_far.new ≡ fold take_flat (reading_of so_far.old) forms) }
{
    for form in forms.into_vec() {
        take_form(alloc, so_far, &form)?;
    }
    Ok(())
}
