//! What names and numbers find, as it stands at the end.
ghost use Rattle.std.specs.Prelude.{◌≡◌, Some, slice_get};
ghost use Rattle.std.specs.Option.{option_copied};
ghost use Rattle.fac_lang.specs.Classes.{is_tuple, parent_in, shape_at};
ghost use Rattle.fac_endings.specs.ClassTable.{class_at, class_of_sort, is_tuple_class, slots_at, slots_in, word_at};
ghost use Rattle.fac_source.specs.Toks.{number};
ghost use Rattle.fac_endings.specs.LastRefusals.{is_generic_sort, is_generic_word};

use crate::draft::Draft;
use fac_base::Text;
use fac_lang::{ClassDef, Shape, Sort, WordDef};
use fac_source::Ref;

/// The number of a name's word, or 0 where there is none.
pub fn number_of(name: &Ref) -> u32
    ensures { result ≡ number name.now.word }
{
    match name.word {
        Some(number) => number,
        None => 0,
    }
}

/// The word of a name.
pub fn word_at<'a>(drafts: &'a [Draft], name: &Ref) -> Option<&'a WordDef>
    ensures { option_copied result ≡ word_at drafts.now name.now }
{
    match name.word {
        Some(number) => match drafts.get(number as usize) {
            Some(draft) => Some(&draft.word),
            None => None,
        },
        None => None,
    }
}

// The class of a word, where it is that of one.
fn class_of(sort: &Sort) -> Option<u32>
    ensures { result ≡ class_of_sort sort.now }
{
    match sort {
        Sort::Class(class) => Some(*class),
        Sort::Prim(_) => None,
        Sort::Core(_) => None,
        Sort::Body(_) => None,
        Sort::Past(_) => None,
        Sort::Itself => None,
        Sort::Isa(_) => None,
        Sort::Getter(_) => None,
        Sort::Setter(_) => None,
        Sort::Putter(_) => None,
        Sort::Generic => None,
        Sort::Method { .. } => None,
    }
}

/// The class of a name, where its word is that of one.
pub fn class_at(drafts: &[Draft], name: &Ref) -> Option<u32>
    ensures { result ≡ class_at drafts.now name.now }
{
    match word_at(drafts, name) {
        Some(word) => class_of(&word.sort),
        None => None,
    }
}

// Whether a word of this sort is a generic.
fn is_generic(sort: &Sort) -> bool
    ensures { result ≡ is_generic_sort sort.now }
{
    match sort {
        Sort::Generic => true,
        Sort::Prim(_) => false,
        Sort::Core(_) => false,
        Sort::Body(_) => false,
        Sort::Past(_) => false,
        Sort::Itself => false,
        Sort::Class(_) => false,
        Sort::Isa(_) => false,
        Sort::Getter(_) => false,
        Sort::Setter(_) => false,
        Sort::Putter(_) => false,
        Sort::Method { .. } => false,
    }
}

/// Whether the word of a name is a generic.
pub fn is_generic_word(drafts: &[Draft], name: &Ref) -> bool
    ensures { result ≡ is_generic_word (word_at drafts.now name.now) }
{
    match word_at(drafts, name) {
        Some(word) => is_generic(&word.sort),
        None => false,
    }
}

// The parent of a tuple class.
fn parent_in(shape: &Shape) -> Option<u32>
    ensures { result ≡ parent_in (Some shape.now) }
{
    match shape {
        Shape::Tuple { parent, .. } => *parent,
        Shape::Kind(_) => None,
        Shape::Union(_) => None,
        Shape::Single => None,
    }
}

/// The parent of the class with this number, where it is a tuple class that has one.
pub fn parent_of(classes: &[ClassDef], class: u32) -> Option<u32>
    ensures { result ≡ parent_in (shape_at classes.now class) }
{
    match classes.get(class as usize) {
        Some(found) => parent_in(&found.shape),
        None => None,
    }
}

// The slots of its own that a class of this shape has.
fn slots_in(shape: &Shape) -> &[Text]
    ensures { result.now ≡ slots_in (Some shape.now) }
{
    match shape {
        Shape::Tuple { slots, .. } => slots.as_slice(),
        Shape::Kind(_) => &[],
        Shape::Union(_) => &[],
        Shape::Single => &[],
    }
}

/// The slots that the class with this number has of its own.
pub fn slots_at(classes: &[ClassDef], class: u32) -> &[Text]
    ensures { result.now ≡ slots_at classes.now class }
{
    match classes.get(class as usize) {
        Some(found) => slots_in(&found.shape),
        None => &[],
    }
}

// Whether a shape is that of a tuple class.
fn is_tuple(shape: &Shape) -> bool
    ensures { result ≡ is_tuple (Some shape.now) }
{
    match shape {
        Shape::Tuple { .. } => true,
        Shape::Kind(_) => false,
        Shape::Union(_) => false,
        Shape::Single => false,
    }
}

/// Whether a class is there, and a tuple class.
pub fn is_tuple_class(classes: &[ClassDef], class: Option<u32>) -> bool
    ensures { result ≡ is_tuple_class classes.now class }
{
    match class {
        Some(number) => match classes.get(number as usize) {
            Some(found) => is_tuple(&found.shape),
            None => false,
        },
        None => false,
    }
}
