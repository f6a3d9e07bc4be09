//! The parts of rows.
ghost use Rattle.std.specs.Prelude.{◌≡◌, ◌∷◌, [], drop};
ghost use Rattle.fac_source.specs.declared.tree.Key.TheVariants.{Arrow};
ghost use Rattle.fac_source.specs.declared.tree.Part.TheVariants as part;
ghost use Rattle.fac_source.specs.declared.form_table.Slot.TheVariants as slot;
ghost use Rattle.fac_parse.specs.Trees.{FillAll};
ghost use Rattle.fac_names.specs.FromFlat.{is_inline, is_recursive};
ghost use Rattle.fac_names.specs.inner.Parts.{AreBrought, IsConstant, IsDefinition, IsLocals, IsMethod, IsNamesPart, IsTuple, IsUnion};

use fac_base::Boxed;
use fac_source::{DefinitionMark, Element, Parent, Part, Token, WrittenEffect};

/// The one name of a row.
pub fn sole_name(parts: &[Part]) -> &Token
    requires { FillAll (slot.Name ∷ []) parts.now }
    ensures { parts.now ≡ part.Name result.now ∷ [] }
{
    match parts {
        [Part::Name(name)] => name,
        _ => unreachable!(),
    }
}

/// The two names of a row.
pub fn two_names(parts: &[Part]) -> (&Token, &Token)
    requires { FillAll (slot.Name ∷ slot.Name ∷ []) parts.now }
    ensures { parts.now ≡ part.Name result.0.now ∷ part.Name result.1.now ∷ [] }
{
    match parts {
        [Part::Name(name), Part::Name(other)] => (name, other),
        _ => unreachable!(),
    }
}

/// The names of a row.
pub fn all_names(parts: &[Part]) -> &[Token]
    requires { FillAll (slot.Names ∷ []) parts.now }
    ensures { IsNamesPart parts.now result.now }
{
    match parts {
        [Part::Names { names, .. }] => names.as_slice(),
        _ => unreachable!(),
    }
}

/// The vocabulary and the names of a `FROM:`.
pub fn brought(parts: &[Part]) -> (&Token, &[Token])
    requires { FillAll (slot.Name ∷ slot.Fixed Arrow ∷ slot.Names ∷ []) parts.now }
    ensures { AreBrought parts.now result.0.now result.1.now }
{
    match parts {
        [
            Part::Name(vocab),
            Part::Fixed(_, _),
            Part::Names { names, .. },
        ] => { (vocab, names.as_slice()) }
        _ => unreachable!(),
    }
}

/// The name and the literal of a `CONSTANT:`.
pub fn constant_parts(parts: &[Part]) -> (&Token, &[Element])
    requires { FillAll (slot.Name ∷ slot.Literal ∷ []) parts.now }
    ensures { IsConstant parts.now result.0.now result.1.now }
{
    match parts {
        [Part::Name(name), Part::Literal(elements)] => (name, elements.as_slice()),
        _ => unreachable!(),
    }
}

/// What a definition has.
#[derive(Clone, Copy)]
pub struct Definition<'a> {
    pub name: &'a Token,
    pub written: &'a WrittenEffect,
    pub elements: &'a [Element],
    pub marks: &'a [DefinitionMark],
}

/// The parts of a definition.
pub fn definition_parts(parts: &[Part]) -> Definition<'_>
    requires { FillAll (slot.Name ∷ slot.Effect ∷ slot.Items ∷ slot.Marks ∷ []) parts.now }
    ensures { IsDefinition parts.now result.name.now result.written.now result.elements.now result.marks.now }
{
    match parts {
        [
            Part::Name(name),
            Part::Effect(written),
            Part::Items { elements, .. },
            Part::Marks(marks),
        ] => Definition {
            name,
            written: written.get(),
            elements: elements.as_slice(),
            marks: marks.as_slice(),
        },
        _ => unreachable!(),
    }
}

/// The parts of a definition whose inputs are locals. The pattern is that of `definition_parts`, from other slots.
pub fn locals_parts(parts: &[Part]) -> Definition<'_>
    requires { FillAll (slot.Name ∷ slot.LocalsEffect ∷ slot.LocalsItems ∷ slot.Marks ∷ []) parts.now }
    ensures { IsLocals parts.now result.name.now result.written.now result.elements.now result.marks.now }
{
    match parts {
        [
            Part::Name(name),
            Part::Effect(written),
            Part::Items { elements, .. },
            Part::Marks(marks),
        ] => Definition {
            name,
            written: written.get(),
            elements: elements.as_slice(),
            marks: marks.as_slice(),
        },
        _ => unreachable!(),
    }
}

/// The name and the members of a union.
pub fn union_parts(parts: &[Part]) -> (&Token, &[Token])
    requires { FillAll (slot.Name ∷ slot.Classes ∷ []) parts.now }
    ensures { IsUnion parts.now result.0.now result.1.now }
{
    match parts {
        [Part::Name(name), Part::Names { names, .. }] => (name, names.as_slice()),
        _ => unreachable!(),
    }
}

/// The name and the effect of a generic.
pub fn generic_parts(parts: &[Part]) -> (&Token, &WrittenEffect)
    requires { FillAll (slot.Name ∷ slot.Effect ∷ []) parts.now }
    ensures { parts.now ≡ part.Name result.0.now ∷ part.Effect result.1.now ∷ [] }
{
    match parts {
        [Part::Name(name), Part::Effect(written)] => (name, written.get()),
        _ => unreachable!(),
    }
}

/// What a tuple class has.
#[derive(Clone, Copy)]
pub struct TupleParts<'a> {
    pub name: &'a Token,
    pub parent: &'a Option<Boxed<Parent>>,
    pub slots: &'a [Token],
}

/// The parts of a tuple class.
pub fn tuple_parts(parts: &[Part]) -> TupleParts<'_>
    requires { FillAll (slot.Name ∷ slot.Slots ∷ []) parts.now }
    ensures { IsTuple parts.now result.name.now result.parent.now result.slots.now }
{
    match parts {
        [
            Part::Name(name),
            Part::Slots {
                parent,
                names,
                ends: _,
            },
        ] => TupleParts {
            name,
            parent,
            slots: names.as_slice(),
        },
        _ => unreachable!(),
    }
}

/// What a method has.
#[derive(Clone, Copy)]
pub struct MethodParts<'a> {
    pub class: &'a Token,
    pub generic: &'a Token,
    pub elements: &'a [Element],
}

/// The parts of a method.
pub fn method_parts(parts: &[Part]) -> MethodParts<'_>
    requires { FillAll (slot.Class ∷ slot.Name ∷ slot.Items ∷ slot.MethodMark ∷ []) parts.now }
    ensures { IsMethod parts.now result.class.now result.generic.now result.elements.now }
{
    match parts {
        [
            Part::Name(class),
            Part::Name(generic),
            Part::Items { elements, .. },
            Part::Marks(_),
        ] => MethodParts {
            class,
            generic,
            elements: elements.as_slice(),
        },
        _ => unreachable!(),
    }
}

/// Whether marks have `inline`.
pub fn marks_inline(marks: &[DefinitionMark]) -> bool
    ensures { result ≡ is_inline marks.now }
{
    for mark in marks {
        match mark {
            DefinitionMark::Inline(_) => return true,
            DefinitionMark::Recursive(_) => {}
        }
    }
    false
}

/// Whether marks have `recursive`.
pub fn marks_recursive(marks: &[DefinitionMark]) -> bool
    ensures { result ≡ is_recursive marks.now }
{
    for mark in marks {
        match mark {
            DefinitionMark::Recursive(_) => return true,
            DefinitionMark::Inline(_) => {}
        }
    }
    false
}
