//! The first refusal.
ghost use Rattle.std.specs.Prelude.{◌≡◌, fold, IfOk, OnOk};
ghost use Rattle.fac_source.specs.Refusals.{rank, fault, fault_if, comes_before, sooner};
ghost use Rattle.fac_source.specs.inner.First.{is_sooner};

use crate::refusal::{NameFault, NameKind};
use crate::tok::Tok;
use fac_base::{Memory, Place, Text};
use std::alloc::Global;

// The place of a kind of refusal in the order of their table.
fn rank(kind: &NameKind) -> u32
    ensures { result ≡ rank kind.now }
{
    match kind {
        NameKind::Unknown => 0,
        NameKind::Ambiguous(_, _) => 1,
        NameKind::Twice => 2,
        NameKind::NoVocab => 3,
        NameKind::NotClass => 4,
        NameKind::NotGeneric => 5,
        NameKind::BadParent => 6,
        NameKind::Cycle => 7,
        NameKind::TooMany => 8,
        NameKind::Undefined => 9,
    }
}

// Whether a refusal comes before another one.
fn comes_before(fault: &NameFault, other: &NameFault) -> bool
    ensures { result ≡ comes_before fault.now other.now }
{
    fault.place.file < other.place.file
        || (fault.place.file == other.place.file
            && (fault.place.token < other.place.token
                || (fault.place.token == other.place.token
                    && rank(&fault.kind) < rank(&other.kind))))
}

// Whether a refusal comes before the first one so far.
fn is_sooner(first: &Option<NameFault>, fault: &NameFault) -> bool
    ensures { result ≡ is_sooner first.now fault.now }
{
    match first {
        Some(other) => comes_before(fault, other),
        None => true,
    }
}

/// Keeps the first refusal.
#[tactic(auto, using(crate::proofs::FirstLemmas::kept, crate::proofs::FirstLemmas::stays))]
pub fn keep(first: &mut Option<NameFault>, fault: NameFault)
    ensures { first.new ≡ sooner first.old fault }
{
    if is_sooner(first, &fault) {
        *first = Some(fault);
    }
}

// The refusal of a name at a place.
fn refusal(alloc: Global, kind: NameKind, name: &str, place: Place) -> Result<NameFault, Memory>
    ensures { IfOk result (λ refusal. refusal ≡ fault kind (record { text = name.now; place = place })) }
{
    let name = Text::from_str(alloc, name)?;
    Ok(NameFault { place, kind, name })
}

/// Refuses a name at a place.
pub fn refuse_name(
    alloc: Global,
    first: &mut Option<NameFault>,
    kind: NameKind,
    name: &str,
    place: Place,
) -> Result<(), Memory>
    ensures { OnOk result (first.new ≡ sooner first.old (fault kind (record { text = name.now; place = place }))) }
{
    let fault = refusal(alloc, kind, name, place)?;
    keep(first, fault);
    Ok(())
}

/// Refuses a name where it stands.
pub fn refuse(
    alloc: Global,
    first: &mut Option<NameFault>,
    kind: NameKind,
    tok: &Tok,
) -> Result<(), Memory>
    ensures { OnOk result (first.new ≡ sooner first.old (fault kind tok.now)) }
{
    refuse_name(alloc, first, kind, tok.text.as_str(), tok.place)
}

/// Refuses a name where it stands, if this holds.
pub fn refuse_if(
    alloc: Global,
    first: &mut Option<NameFault>,
    refused: bool,
    kind: NameKind,
    tok: &Tok,
) -> Result<(), Memory>
    ensures { OnOk result (first.new ≡ fold sooner first.old (fault_if refused kind tok.now)) }
{
    if refused {
        refuse(alloc, first, kind, tok)
    } else {
        Ok(())
    }
}
