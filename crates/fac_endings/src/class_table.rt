//! Classes as they are at the end of the program.
ghost use Rattle.std.specs.Prelude.{◌≡◌, ◌++◌, ◌∷◌, [], map, IfOk, OnOk};
ghost use Rattle.fac_source.specs.Toks.{texts_of};
ghost use Rattle.fac_endings.specs.ClassTable.{class_of, classes_at, classes_of, name_of, parent_at, shape_named};
ghost use Rattle.std.specs.Prelude.{slice_get};

use crate::draft::{Draft, Named, NewClass};
use crate::lookup::class_at;
use fac_base::{Duplicate, List, Memory, Name, Text};
use fac_lang::{ClassDef, Shape};
use fac_source::{Ref, Tok};
use std::alloc::Global;

// The classes of names, where their words are those of classes.
fn classes_at(alloc: Global, drafts: &[Draft], names: &[Ref]) -> Result<List<u32>, Memory>
    ensures { IfOk result (λ classes. classes ≡ classes_at drafts.now names.now) }
{
    let mut classes = List::new(alloc);
    for name in names {
        if let Some(class) = class_at(drafts, name) {
            classes.push(class)?;
        }
    }
    Ok(classes)
}

// The class of a parent, where one is written.
fn parent_at(drafts: &[Draft], parent: &Option<Ref>) -> Option<u32>
    ensures { result ≡ parent_at drafts.now parent.now }
{
    match parent {
        Some(name) => class_at(drafts, name),
        None => None,
    }
}

// A copy of the texts of names.
fn texts_of(alloc: Global, toks: &[Tok]) -> Result<List<Text>, Memory>
    ensures { IfOk result (λ texts. texts ≡ texts_of toks.now) }
{
    let mut texts = List::new(alloc);
    for tok in toks {
        texts.push(tok.text.copy(alloc)?)?;
    }
    Ok(texts)
}

// What a class is that names these.
fn shape_of(alloc: Global, drafts: &[Draft], names: &Named) -> Result<Shape, Memory>
    ensures { IfOk result (λ shape. shape ≡ shape_named drafts.now names.now) }
{
    match names {
        Named::Tuple(parent, slots) => Ok(Shape::Tuple {
            parent: parent_at(drafts, parent),
            slots: texts_of(alloc, slots.as_slice())?,
        }),
        Named::Union(members) => Ok(Shape::Union(classes_at(alloc, drafts, members.as_slice())?)),
        Named::Single => Ok(Shape::Single),
    }
}

// A copy of the full name of the word with this number.
fn name_of(alloc: Global, drafts: &[Draft], word: u32) -> Result<Name, Memory>
    ensures { IfOk result (λ name. name ≡ name_of (slice_get drafts.now word)) }
{
    match drafts.get(word as usize) {
        Some(draft) => draft.word.name.copy(alloc),
        None => Ok(Name {
            vocab: Text::new(alloc),
            name: Text::new(alloc),
        }),
    }
}

// The class of a form.
fn class_of(alloc: Global, drafts: &[Draft], class: &NewClass) -> Result<ClassDef, Memory>
    ensures { IfOk result (λ found. found ≡ class_of drafts.now class.now) }
{
    let name = name_of(alloc, drafts, class.word)?;
    match shape_of(alloc, drafts, &class.names) {
        Ok(shape) => Ok(ClassDef { name, shape }),
        Err(Memory) => Err(Memory),
    }
}

// Adds the class of a form.
fn add_class(
    alloc: Global,
    classes: &mut List<ClassDef>,
    drafts: &[Draft],
    class: &NewClass,
) -> Result<(), Memory>
    ensures { OnOk result (classes.new ≡ classes.old ++ class_of drafts.now class.now ∷ []) }
{
    let found = class_of(alloc, drafts, class)?;
    classes.push(found)?;
    Ok(())
}

/// All classes: those that there were, and those of forms.
pub fn classes_of(
    alloc: Global,
    drafts: &[Draft],
    old: List<ClassDef>,
    new: &[NewClass],
) -> Result<List<ClassDef>, Memory>
    ensures { IfOk result (λ classes. classes ≡ classes_of drafts.now old new.now) }
{
    let mut classes = old;
    for class in new {
        add_class(alloc, &mut classes, drafts, class)?;
    }
    Ok(classes)
}
