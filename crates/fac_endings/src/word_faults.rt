//! What the end shows to be refused of words.
ghost use Rattle.std.specs.Prelude.{◌≡◌, ◌||◌, ◌&&◌, ◌++◌, [], fold, not, OnOk};
ghost use Rattle.fac_source.specs.Refusals.{fault_if, sooner};
ghost use Rattle.fac_source.specs.declared.refusal.NameKind.TheVariants.{NotGeneric, Twice};
ghost use Rattle.fac_endings.specs.ClassTable.{word_at};
ghost use Rattle.fac_endings.specs.LastRefusals.{is_generic_word, late_faults, method_faults, words_faults};
ghost use Rattle.fac_endings.specs.inner.MethodKeys.{is_kept, key_by, key_late, same_as};
ghost use Rattle.std.specs.List.{list_any};
ghost use Rattle.fac_endings.specs.declared.methods.MethodKey.{MethodKey};

use crate::class_faults::refuse_no_class;
use crate::draft::{Draft, Late, Table};
use crate::lookup::{class_at, is_generic_word, is_tuple_class, number_of};
use crate::methods::{MethodKey, add, is_known};
use fac_base::Memory;
use fac_lang::Sort;
use fac_source::{NameFault, NameKind, Ref, refuse_if, refuse_name};
use indexmap::IndexSet;
use std::alloc::Global;

// The method that a word of this sort is, where its phrase is a method's on this class and of this generic. Each sort has its line, as in fac_generic,
// so that a new one is asked for here.
fn key_by(class: Option<u32>, generic: u32, sort: &Sort) -> Option<MethodKey>
    ensures { result ≡ key_by class generic sort.now }
{
    match sort {
        Sort::Body(_) => match class {
            Some(class) => Some(MethodKey { class, generic }),
            None => None,
        },
        Sort::Method { class, generic, .. } => Some(MethodKey {
            class: *class,
            generic: *generic,
        }),
        Sort::Prim(_) => None,
        Sort::Core(_) => None,
        Sort::Past(_) => None,
        Sort::Itself => None,
        Sort::Class(_) => None,
        Sort::Isa(_) => None,
        Sort::Getter(_) => None,
        Sort::Setter(_) => None,
        Sort::Putter(_) => None,
        Sort::Generic => None,
    }
}

// The method that a word is at the end.
fn key_of(drafts: &[Draft], draft: &Draft) -> Option<MethodKey>
    ensures { result ≡ key_late drafts.now draft.now.word.sort draft.now.late }
{
    match &draft.late {
        Late::Method(class, generic) => key_by(
            class_at(drafts, class.get()),
            number_of(generic.get()),
            &draft.word.sort,
        ),
        Late::Settled => key_by(None, 0, &draft.word.sort),
        Late::Deferred => key_by(None, 0, &draft.word.sort),
        Late::Maker(_) => key_by(None, 0, &draft.word.sort),
    }
}

// Whether a method is known already.
fn is_second(methods: &IndexSet<MethodKey>, key: Option<MethodKey>) -> bool
    ensures { result ≡ is_kept methods.now.keys key }
{
    match key {
        Some(key) => is_known(methods, key),
        None => false,
    }
}

// Keeps a method, where a word is one.
fn note(methods: &mut IndexSet<MethodKey>, key: Option<MethodKey>) -> Result<(), Memory>
    ensures { (q : MethodKey) → OnOk result (is_kept methods.new.keys (Some q) ≡ same_as q key || is_kept methods.old.keys (Some q)) }
{
    match key {
        Some(key) => add(methods, key),
        None => Ok(()),
    }
}

// Refuses a method whose class is none, whose generic is none, or which is the second one.
fn refuse_method(
    alloc: Global,
    first: &mut Option<NameFault>,
    drafts: &[Draft],
    is_second: bool,
    class: &Ref,
    generic: &Ref,
) -> Result<(), Memory>
    ensures { OnOk result (first.new ≡ fold sooner first.old (method_faults drafts.now is_second class.now generic.now)) }
{
    refuse_no_class(alloc, first, drafts, class)?;
    let is_generic = is_generic_word(drafts, generic);
    refuse_if(
        alloc,
        first,
        !is_generic,
        NameKind::NotGeneric,
        &generic.tok,
    )?;
    refuse_if(
        alloc,
        first,
        is_generic && is_second,
        NameKind::Twice,
        &generic.tok,
    )
}

// Refuses a word by what is late of it.
fn refuse_late(
    alloc: Global,
    first: &mut Option<NameFault>,
    table: Table<'_>,
    is_second: bool,
    draft: &Draft,
) -> Result<(), Memory>
    ensures { OnOk result (first.new ≡ fold sooner first.old (late_faults table.entry.drafts.now table.entry.classes.now is_second draft.now.word draft.now.late)) }
{
    match &draft.late {
        Late::Settled => Ok(()),
        Late::Deferred => refuse_name(
            alloc,
            first,
            NameKind::Undefined,
            draft.word.name.name.as_str(),
            draft.word.place,
        ),
        Late::Maker(class) => {
            let class = class.get();
            let is_tuple = is_tuple_class(table.classes, class_at(table.drafts, class));
            refuse_if(alloc, first, !is_tuple, NameKind::NotClass, &class.tok)
        }
        Late::Method(class, generic) => {
            refuse_method(
                alloc,
                first,
                table.drafts,
                is_second,
                class.get(),
                generic.get(),
            )
        }
    }
}

/// Refuses what the end shows of words.
pub fn refuse_words(
    alloc: Global,
    first: &mut Option<NameFault>,
    table: Table<'_>,
) -> Result<(), Memory>
    ensures { OnOk result (first.new ≡ fold sooner first.old (words_faults table.entry.drafts.now table.entry.classes.now [] table.entry.drafts.now)) }
{
    let mut methods = IndexSet::new(alloc);
    for draft in table.drafts {
        let key = key_of(table.drafts, draft);
        refuse_late(alloc, first, table, is_second(&methods, key), draft)?;
        note(&mut methods, key)?;
    }
    Ok(())
}
