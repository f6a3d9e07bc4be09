//! The kinds of unions, from those of their members.
ghost use Rattle.std.specs.Prelude.{◌≡◌, ◌<◌, ◌≤◌, ◌+◌, ◌*◌, ◌^◌, ℕ, length, Some, OnOk, slice_get};
ghost use Rattle.std.specs.Bool.{Decides};
ghost use Rattle.fac_classes.specs.inner.Members.{AreSound, IsIn, members as members_seen};
ghost use Rattle.fac_classes.specs.inner.Cells.{IsRight, IsFull};
ghost use Rattle.fac_classes.specs.inner.Filling.{HasSimple, Remembers, JoinsMember, JoinsMembers, JoinsUnions};
ghost use Rattle.fac_classes.specs.inner.Visits.{IsOrder};

use crate::cells::join;
use crate::shapes::members_of;
use crate::visits::class_order;
use fac_base::Memory;
use fac_lang::ClassDef;
use std::alloc::Global;

// Whether the row of a member was last joined to that of this union.
fn was_joined(last: &[Option<u32>], class: u32, member: u32) -> bool
    requires { member < length last.now }
    ensures { Decides result (slice_get last.now member ≡ Some (Some class)) }
{
    match last[member as usize] {
        Some(union) => union == class,
        None => false,
    }
}

// Joins the row of a member to that of its union, where it wasn't the last that was.
fn join_member(cells: &mut [bool], width: u32, last: &mut [Option<u32>], class: u32, member: u32)
    requires last { member < length last.old }
    requires to { class * width + width ≤ length cells.old }
    requires from { member * width + width ≤ length cells.old }
    ensures { JoinsMember width class member last.old cells.old last.new cells.new }
{
    if was_joined(last, class, member) {
        return;
    }
    join(cells, width, class, member);
    last[member as usize] = Some(class);
}

// Joins the rows of a class's members to its own.
fn join_members(
    cells: &mut [bool],
    width: u32,
    last: &mut [Option<u32>],
    classes: &[ClassDef],
    class: u32,
)
    requires sound { AreSound classes.now }
    requires sized { length cells.old ≡ length classes.now * width }
    requires last { length last.old ≡ length classes.now }
    requires class { class < length classes.now }
    requires right { IsRight classes.now width cells.old }
    requires remembers { Remembers classes.now width last.old cells.old }
    requires members { (m : ℕ) → IsIn m (members_seen classes.now class) → IsFull classes.now width cells.old m }
    ensures { JoinsMembers classes.now width class (members_seen classes.now class) cells.old cells.new last.new }
{
    for member in members_of(classes, class) {
        join_member(cells, width, last, class, *member);
    }
}

// Joins the rows of members to those of their unions, in an order in which each class comes behind its members.
fn join_all(
    cells: &mut [bool],
    width: u32,
    last: &mut [Option<u32>],
    classes: &[ClassDef],
    order: &[u32],
)
    requires sound { AreSound classes.now }
    requires sized { length cells.old ≡ length classes.now * width }
    requires last { length last.old ≡ length classes.now }
    requires order { IsOrder classes.now order.now }
    requires right { IsRight classes.now width cells.old }
    requires remembers { Remembers classes.now width last.old cells.old }
    requires simple { HasSimple classes.now width cells.old }
    ensures { JoinsUnions classes.now width cells.new }
{
    for class in order {
        join_members(cells, width, last, classes, *class);
    }
}

/// Marks the kinds of unions, where those of all other classes are marked. A member's row is joined once to that of its union, however often the
/// union names it.
pub fn join_unions(
    alloc: Global,
    cells: &mut [bool],
    width: u32,
    classes: &[ClassDef],
) -> Result<(), Memory>
    requires sound { AreSound classes.now }
    requires count { length classes.now < 2 ^ 32 }
    requires sized { length cells.old ≡ length classes.now * width }
    requires right { IsRight classes.now width cells.old }
    requires simple { HasSimple classes.now width cells.old }
    ensures { OnOk result (JoinsUnions classes.now width cells.new) }
{
    let order = class_order(alloc, classes)?;
    let mut last = vec![in alloc; None; classes.len()]?;
    join_all(cells, width, last.as_mut_slice(), classes, order.as_slice());
    Ok(())
}
