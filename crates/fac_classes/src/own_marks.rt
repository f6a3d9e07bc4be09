//! The own kinds of tuple classes and singletons, which all classes above have too.
ghost use Rattle.std.specs.Prelude.{◌≡◌, ◌<◌, ◌*◌, length, Some};
ghost use Rattle.fac_lang.specs.Classes.{class_with};
ghost use Rattle.fac_classes.specs.ClassKinds.{kind_total};
ghost use Rattle.fac_classes.specs.inner.Members.{AreSound};
ghost use Rattle.fac_classes.specs.inner.OwnKinds.{owners_from};
ghost use Rattle.fac_classes.specs.inner.Cells.{IsRight};
ghost use Rattle.fac_classes.specs.inner.Filling.{MarksUp, LaysOwners};

use crate::cells::mark;
use crate::own_kinds::FIRST_OWN;
use crate::shapes::parent_of;
use fac_lang::ClassDef;

// Marks the own kind of a class for it and for all classes above it. No chain of parents is longer than the classes are many.
fn mark_up(cells: &mut [bool], width: u32, classes: &[ClassDef], class: u32, kind: u32)
    requires sound { AreSound classes.now }
    requires sized { length cells.old ≡ length classes.now * width }
    requires right { IsRight classes.now width cells.old }
    requires kind { kind < width }
    requires owner { class_with 0 classes.now kind ≡ Some class }
    ensures { MarksUp classes.now width class kind cells.old cells.new }
{
    let mut at = class;
    let mut left = classes.len();
    'up: loop {
        mark(cells, width, at, kind);
        if left == 0 {
            return;
        }
        match parent_of(classes, at) {
            Some(parent) => {
                at = parent;
                left -= 1;
            }
            None => return,
        }
    }
}

/// Marks the own kinds of all classes.
pub fn mark_owners(cells: &mut [bool], width: u32, classes: &[ClassDef], owners: &[u32])
    requires sound { AreSound classes.now }
    requires owners { owners.now ≡ owners_from 0 classes.now }
    requires width { width ≡ kind_total classes.now }
    requires sized { length cells.old ≡ length classes.now * width }
    requires right { IsRight classes.now width cells.old }
    ensures { LaysOwners classes.now width cells.old cells.new }
{
    let mut kind = FIRST_OWN;
    for class in owners {
        mark_up(cells, width, classes, *class, kind);
        kind += 1;
    }
}
