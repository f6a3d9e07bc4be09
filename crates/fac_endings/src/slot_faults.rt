//! Slots that repeat one of their list or of a parent.
ghost use Rattle.std.specs.Prelude.{◌≡◌, ◌||◌, fold, OnOk};
ghost use Rattle.fac_source.specs.Refusals.{fault_if, sooner};
ghost use Rattle.fac_source.specs.Toks.{is_among, texts_of};
ghost use Rattle.fac_source.specs.declared.refusal.NameKind.TheVariants.{Twice};
ghost use Rattle.fac_endings.specs.LastRefusals.{slot_faults};
ghost use Rattle.fac_endings.specs.inner.Chains.{slots_of};

use crate::lookup::slots_at;
use fac_base::{Memory, Text};
use fac_lang::ClassDef;
use fac_source::{NameFault, NameKind, Tok, refuse_if};
use std::alloc::Global;

// Whether a text is one of these.
fn is_text_among(text: &str, texts: &[Text]) -> bool
    ensures { result ≡ is_among text.now texts.now }
{
    for other in texts {
        if text == other.as_str() {
            return true;
        }
    }
    false
}

// Whether a text is that of one of these names.
fn is_tok_among(text: &str, toks: &[Tok]) -> bool
    ensures { result ≡ is_among text.now (texts_of toks.now) }
{
    for other in toks {
        if text == other.text.as_str() {
            return true;
        }
    }
    false
}

// Whether a text is that of a slot of one of these classes.
fn is_slot_of(classes: &[ClassDef], bearers: &[u32], text: &str) -> bool
    ensures { result ≡ is_among text.now (slots_of classes.now bearers.now) }
{
    for bearer in bearers {
        if is_text_among(text, slots_at(classes, *bearer)) {
            return true;
        }
    }
    false
}

// Refuses a slot that is one of those before it, or of a parent.
fn refuse_slot(
    alloc: Global,
    first: &mut Option<NameFault>,
    classes: &[ClassDef],
    bearers: &[u32],
    before: &[Tok],
    slot: &Tok,
) -> Result<(), Memory>
    ensures { OnOk result (first.new ≡ fold sooner first.old (fault_if (is_among slot.now.text (texts_of before.now) || is_among slot.now.text (slots_of classes.now bearers.now)) Twice slot.now)) }
{
    let repeats = is_tok_among(slot.text.as_str(), before)
        || is_slot_of(classes, bearers, slot.text.as_str());
    refuse_if(alloc, first, repeats, NameKind::Twice, slot)
}

/// Refuses slots that repeat one of their list, or one of these parents.
pub fn refuse_slots(
    alloc: Global,
    first: &mut Option<NameFault>,
    classes: &[ClassDef],
    bearers: &[u32],
    slots: &[Tok],
) -> Result<(), Memory>
    ensures { OnOk result (first.new ≡ fold sooner first.old (slot_faults (slots_of classes.now bearers.now) slots.now)) }
{
    for (number, slot) in slots.iter().enumerate() {
        refuse_slot(alloc, first, classes, bearers, &slots[..number], slot)?;
    }
    Ok(())
}
