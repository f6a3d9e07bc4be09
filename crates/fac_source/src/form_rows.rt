//! What the table of the forms says of each.
ghost use Rattle.std.specs.Prelude.{◌≡◌, true, map, slice_get};
ghost use Rattle.fac_source.specs.FormRows.{kind_among, kind_begun as begun_by, gives_phrase, slots_of};
ghost use Rattle.fac_source.specs.inner.Heads.{are_early, is_late};

use crate::FormKind;
use crate::form_table::{FORMS, FormRow, Slot};

// The slots of a row.
fn slots(kind: FormKind) -> &'static [Slot]
    ensures { result.now ≡ slots_of kind }
{
    FORMS[kind as usize].slots
}

/// The slot of this number of a row, counted from 0. None where the row has no more.
pub fn slot_at(kind: FormKind, number: usize) -> Option<Slot>
    ensures { result ≡ slice_get (slots_of kind) number }
{
    slots(kind).get(number).copied()
}

/// Whether a row defines a word that has a phrase.
pub fn has_phrase(kind: FormKind) -> bool
    ensures { result ≡ gives_phrase kind }
{
    FORMS[kind as usize].has_phrase
}

// The first of these rows that a token of this text begins.
fn kind_in(text: &str, table: &[FormRow<&str, &[Slot]>]) -> Option<FormKind>
    ensures { result ≡ kind_among (map (λ row. (row.head.now, row.kind)) table.now) text.now }
{
    for row in table {
        if text == row.head {
            return Some(row.kind);
        }
    }
    None
}

// Whether a text begins none of the forms by its first byte: a small letter, or what stands behind those in ASCII.
fn begins_late(text: &str) -> bool
    ensures { result ≡ is_late text.now }
{
    match text.as_bytes().first() {
        Some(byte) => *byte >= b'a',
        None => false,
    }
}

// The first of these rows that a token of this text begins, where none of them begins late.
#[tactic(auto, using(crate::proofs::HeadLemmas::late_begins_none))]
fn early_kind_in(text: &str, table: &[FormRow<&str, &[Slot]>]) -> Option<FormKind>
    requires { are_early (map (λ row. (row.head.now, row.kind)) table.now) ≡ true }
    ensures { result ≡ kind_among (map (λ row. (row.head.now, row.kind)) table.now) text.now }
{
    if begins_late(text) {
        None
    } else {
        kind_in(text, table)
    }
}

/// The form that a token of this text begins.
#[tactic(auto, unfolding(crate::specs::FormRows::kind_begun))]
pub fn kind_begun(text: &str) -> Option<FormKind>
    ensures { result ≡ begun_by text.now }
{
    early_kind_in(text, &FORMS)
}
