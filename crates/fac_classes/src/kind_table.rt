//! The table of which classes have which kinds.
ghost use Rattle.std.specs.Prelude.{◌≡◌, ◌<◌, ◌*◌, ◌^◌, length, IfOk, OnOk};
ghost use Rattle.fac_classes.specs.ClassKinds.{kind_total};
ghost use Rattle.fac_classes.specs.inner.Members.{AreSound};
ghost use Rattle.fac_classes.specs.inner.OwnKinds.{owners_from};
ghost use Rattle.fac_classes.specs.inner.Cells.{IsRight, IsTable};
ghost use Rattle.fac_classes.specs.inner.Filling.{JoinsUnions};

use crate::built_ins::lay_built_ins;
use crate::own_marks::mark_owners;
use crate::unions::join_unions;
use fac_base::Memory;
use fac_lang::ClassDef;
use std::alloc::Global;

// Marks all kinds of all classes in a blank table.
fn fill(
    alloc: Global,
    cells: &mut [bool],
    width: u32,
    classes: &[ClassDef],
    owners: &[u32],
) -> Result<(), Memory>
    requires sound { AreSound classes.now }
    requires count { length classes.now < 2 ^ 32 }
    requires owners { owners.now ≡ owners_from 0 classes.now }
    requires width { width ≡ kind_total classes.now }
    requires sized { length cells.old ≡ length classes.now * width }
    requires right { IsRight classes.now width cells.old }
    ensures { OnOk result (JoinsUnions classes.now width cells.new) }
{
    lay_built_ins(cells, width, classes, owners);
    mark_owners(cells, width, classes, owners);
    join_unions(alloc, cells, width, classes)
}

/// The table, with rows of `width` cells.
pub fn kind_table(
    alloc: Global,
    classes: &[ClassDef],
    owners: &[u32],
    width: u32,
) -> Result<Vec<bool>, Memory>
    requires sound { AreSound classes.now }
    requires count { length classes.now < 2 ^ 32 }
    requires owners { owners.now ≡ owners_from 0 classes.now }
    requires width { width ≡ kind_total classes.now }
    ensures { IfOk result (λ cells. IsTable classes.now width cells.items) }
{
    let mut cells = vec![in alloc; false; classes.len() * width as usize]?;
    fill(alloc, cells.as_mut_slice(), width, classes, owners)?;
    Ok(cells)
}
