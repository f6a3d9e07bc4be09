//! The kinds of built-in classes.
ghost use Rattle.std.specs.Prelude.{◌≡◌, ◌<◌, ◌*◌, ◌^◌, length, Some};
ghost use Rattle.fac_lang.specs.Classes.{built_in_has as built_in_has_seen, shape_at};
ghost use Rattle.fac_classes.specs.inner.Members.{AreSound, built_in_in};
ghost use Rattle.fac_classes.specs.inner.OwnKinds.{owners_from};
ghost use Rattle.fac_classes.specs.inner.Cells.{IsRight};
ghost use Rattle.fac_classes.specs.inner.Filling.{Lays, LaysBuiltIns};

use crate::cells::mark;
use crate::own_kinds::{FIRST_OWN, is_single_kind, is_tuple_kind};
use crate::shapes::built_in_of;
use fac_lang::ClassDef;

// Whether a built-in class has a kind.
fn built_in_has(classes: &[ClassDef], owners: &[u32], number: u32, kind: u32) -> bool
    requires { owners.now ≡ owners_from 0 classes.now }
    ensures { result ≡ built_in_has_seen classes.now number kind }
{
    if number == 5 {
        return kind == 5 || is_single_kind(classes, owners, kind);
    }
    if number < 8 {
        return number == kind;
    }
    if number == 8 {
        return kind == 1 || kind == 2;
    }
    if number == 9 {
        return kind == 3 || kind == 4 || kind == 6;
    }
    if number == 10 {
        return is_tuple_kind(classes, owners, kind);
    }
    (kind as usize) < FIRST_OWN as usize + owners.len()
}

// Marks the kinds of a built-in class.
fn lay_built_in(
    cells: &mut [bool],
    width: u32,
    classes: &[ClassDef],
    owners: &[u32],
    class: u32,
    number: u32,
)
    requires sound { AreSound classes.now }
    requires owners { owners.now ≡ owners_from 0 classes.now }
    requires sized { length cells.old ≡ length classes.now * width }
    requires right { IsRight classes.now width cells.old }
    requires class { class < length classes.now }
    requires number { built_in_in (shape_at classes.now class) ≡ Some number }
    ensures { Lays classes.now width class cells.old cells.new }
{
    for kind in 0..width {
        if built_in_has(classes, owners, number, kind) {
            mark(cells, width, class, kind);
        }
    }
}

/// Marks the kinds of the built-in classes.
pub fn lay_built_ins(cells: &mut [bool], width: u32, classes: &[ClassDef], owners: &[u32])
    requires sound { AreSound classes.now }
    requires owners { owners.now ≡ owners_from 0 classes.now }
    requires sized { length cells.old ≡ length classes.now * width }
    requires right { IsRight classes.now width cells.old }
    requires count { length classes.now < 2 ^ 32 }
    ensures { LaysBuiltIns classes.now width (length classes.now) cells.old cells.new }
{
    for class in 0..classes.len() as u32 {
        match built_in_of(classes, class) {
            Some(number) => lay_built_in(cells, width, classes, owners, class, number),
            None => {}
        }
    }
}
