//! The classes of a program.
ghost use Rattle.std.specs.Prelude.{◌≡◌, ◌<◌, ◌+◌, ◌^◌, length, IfOk};
ghost use Rattle.fac_lang.specs.Classes.{has_kind, own_kind, slots_within};
ghost use Rattle.fac_classes.specs.ClassKinds.{CanBeBuilt, kind_total, lies_within, kinds_of, place_of};
ghost use Rattle.fac_classes.specs.inner.Members.{AreSound};
ghost use Rattle.fac_classes.specs.inner.OwnKinds.{own_kinds as own_kinds_seen, owners_from};

use crate::cells::is_marked;
use crate::kind_table::kind_table;
use crate::order::places_of;
use crate::own_kinds::{FIRST_OWN, own_kinds, owners};
use crate::slots::slots_of;
use fac_base::{Duplicate, List, Memory, Text};
use fac_lang::{ClassDef, Program};
use std::alloc::Global;
use std::marker::Model;

/// The classes of a program, with the kinds of each and their order.
#[derive(Drop)]
pub struct Classes {
    defs: List<ClassDef>,
    // How many kinds there are.
    width: u32,
    // For each class its own kind.
    own: Vec<Option<u32>>,
    // For each class a row, which tells of each kind whether the class has it.
    cells: Vec<bool>,
    // For each class how many come before it.
    places: Vec<u32>,
}

impl Model for Classes {
    ghost use Rattle.std.specs.Prelude.{List};
    ghost use Rattle.fac_lang.specs.declared.program.ClassDef.{ClassDef};
    ghost use Rattle.fac_classes.specs.inner.Built.{AreBuilt};

    ghost Value = { List ClassDef };

    ghost view = { λ c. c.defs };

    ghost invariant = { λ c. AreBuilt c.defs c.width c.own.items c.cells.items c.places.items };
}

// The classes, where their own kinds and the classes of these are known.
fn assemble(
    alloc: Global,
    defs: List<ClassDef>,
    own: Vec<Option<u32>>,
    owners: &[u32],
) -> Result<Classes, Memory>
    requires sound { AreSound defs }
    requires count { length defs + 8 < 2 ^ 32 }
    requires own { own.items ≡ own_kinds_seen 8 defs }
    requires owners { owners.now ≡ owners_from 0 defs }
    ensures { IfOk result (λ classes. classes ≡ defs) }
{
    let width = FIRST_OWN + owners.len() as u32;
    let cells = kind_table(alloc, defs.as_slice(), owners, width)?;
    let places = places_of(alloc, cells.as_slice(), width, defs.as_slice())?;
    Ok(Classes {
        defs,
        width,
        own,
        cells,
        places,
    })
}

impl Classes {
    /// The classes of a program, with what is told of them. Want of memory is the one error, also where there are more kinds than numbers for them.
    pub fn build(alloc: Global, program: &Program) -> Result<Classes, Memory>
        requires { CanBeBuilt program.now }
        ensures { IfOk result (λ classes. classes ≡ program.now.classes) }
    {
        if program.classes.len() >= u32::MAX - FIRST_OWN {
            return Err(Memory);
        }
        let defs = program.classes.copy(alloc)?;
        let own = own_kinds(alloc, defs.as_slice())?;
        let owners = owners(alloc, defs.as_slice())?;
        assemble(alloc, defs, own, owners.as_slice())
    }

    /// How many classes there are.
    pub fn len(&self) -> u32
        ensures { result ≡ length self.now }
    {
        self.defs.len()
    }

    /// How many kinds there are.
    pub fn kind_count(&self) -> u32
        ensures { result ≡ kind_total self.now }
    {
        self.width
    }

    /// Whether a class has a kind.
    pub fn has(&self, class: u32, kind: u32) -> bool
        requires class { class < length self.now }
        requires kind { kind < kind_total self.now }
        ensures { result ≡ has_kind self.now class kind }
    {
        is_marked(self.cells.as_slice(), self.width, class, kind)
    }

    /// The kind that a class has as its own. None exactly where it is no tuple class and no singleton.
    pub fn kind_of(&self, class: u32) -> Option<u32>
        requires { class < length self.now }
        ensures { result ≡ own_kind 8 self.now class }
    {
        self.own[class as usize]
    }

    /// How many classes come before a class, by the number of kinds and then by full name.
    pub fn order_of(&self, class: u32) -> u32
        requires { class < length self.now }
        ensures { result ≡ place_of self.now class }
    {
        self.places[class as usize]
    }

    /// Whether each kind of `a` is one of `b`. It takes the time of all kinds.
    pub fn le(&self, a: u32, b: u32) -> bool
        requires a { a < length self.now }
        requires b { b < length self.now }
        ensures { result ≡ lies_within self.now a b }
    {
        for kind in 0..self.width {
            if self.has(a, kind) && !self.has(b, kind) {
                return false;
            }
        }
        true
    }

    /// The kinds of a class, ascending.
    pub fn kinds(&self, alloc: Global, class: u32) -> Result<List<u32>, Memory>
        requires { class < length self.now }
        ensures { IfOk result (λ kinds. kinds ≡ kinds_of self.now class) }
    {
        let mut kinds = List::new(alloc);
        for kind in 0..self.width {
            if self.has(class, kind) {
                kinds.push(kind)?;
            }
        }
        Ok(kinds)
    }

    /// All slots of a tuple class, those of its parents first. Another class has none. The time is that of the slots and of the chain of parents.
    pub fn slots(&self, alloc: Global, class: u32) -> Result<List<Text>, Memory>
        requires { class < length self.now }
        ensures { IfOk result (λ slots. slots ≡ slots_within (length self.now) self.now class) }
    {
        slots_of(alloc, self.defs.as_slice(), class)
    }
}
