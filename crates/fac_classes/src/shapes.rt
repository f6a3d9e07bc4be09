//! What the shapes of classes say.
ghost use Rattle.std.specs.Prelude.{◌≡◌};
ghost use Rattle.fac_lang.specs.Classes.{has_own, shape_at, parent_in, is_tuple, is_single};
ghost use Rattle.fac_classes.specs.inner.Members.{members as members_seen, built_in_in};

use fac_lang::{ClassDef, Shape};

/// The members of a class; only a union has some.
pub fn members_of(classes: &[ClassDef], class: u32) -> &[u32]
    ensures { result.now ≡ members_seen classes.now class }
{
    match classes.get(class as usize) {
        Some(def) => match &def.shape {
            Shape::Kind(_) => &[],
            Shape::Tuple { .. } => &[],
            Shape::Union(members) => members.as_slice(),
            Shape::Single => &[],
        },
        None => &[],
    }
}

/// The parent of a class; only a tuple class has one.
pub fn parent_of(classes: &[ClassDef], class: u32) -> Option<u32>
    ensures { result ≡ parent_in (shape_at classes.now class) }
{
    match classes.get(class as usize) {
        Some(def) => match &def.shape {
            Shape::Kind(_) => None,
            Shape::Tuple { parent, .. } => *parent,
            Shape::Union(_) => None,
            Shape::Single => None,
        },
        None => None,
    }
}

/// The number of a built-in class among these.
pub fn built_in_of(classes: &[ClassDef], class: u32) -> Option<u32>
    ensures { result ≡ built_in_in (shape_at classes.now class) }
{
    match classes.get(class as usize) {
        Some(def) => match &def.shape {
            Shape::Kind(number) => Some(*number),
            Shape::Tuple { .. } => None,
            Shape::Union(_) => None,
            Shape::Single => None,
        },
        None => None,
    }
}

/// Whether a class has a kind of its own.
pub fn has_own_kind(shape: &Shape) -> bool
    ensures { result ≡ has_own shape.now }
{
    match shape {
        Shape::Kind(_) => false,
        Shape::Tuple { .. } => true,
        Shape::Union(_) => false,
        Shape::Single => true,
    }
}

/// Whether a class is a tuple class.
pub fn is_tuple_class(classes: &[ClassDef], class: u32) -> bool
    ensures { result ≡ is_tuple (shape_at classes.now class) }
{
    match classes.get(class as usize) {
        Some(def) => match &def.shape {
            Shape::Kind(_) => false,
            Shape::Tuple { .. } => true,
            Shape::Union(_) => false,
            Shape::Single => false,
        },
        None => false,
    }
}

/// Whether a class is a singleton.
pub fn is_singleton(classes: &[ClassDef], class: u32) -> bool
    ensures { result ≡ is_single (shape_at classes.now class) }
{
    match classes.get(class as usize) {
        Some(def) => match &def.shape {
            Shape::Kind(_) => false,
            Shape::Tuple { .. } => false,
            Shape::Union(_) => false,
            Shape::Single => true,
        },
        None => false,
    }
}
