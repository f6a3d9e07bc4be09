//! What helps with a name that isn't found: which vocabularies hold a word of it, or else which name was meant.
ghost use Rattle.std.specs.Prelude.{map, IfOk, OnOk};
ghost use Rattle.fac_explainer.specs.Help.{AreNames, HelpsBy, HelpsFind, HelpsName, IsHelp, Means};
ghost use Rattle.fac_explainer.specs.inner.Steps.{AddsAll};

use crate::homes::homes_of;
use fac_base::{Bytes, List, Memory, Text};
use fac_explain::{closest, language_names, push_defined, push_hint, push_meant};
use fac_par::{Gate, Workers};
use fac_source::NameKind;
use fac_tool::Report;
use std::alloc::Global;
use std::thread::Threads;

// Puts the names that texts define behind others.
fn push_all(alloc: Global, names: &mut List<Bytes>, given: &[(Text, Bytes)]) -> Result<(), Memory>
    ensures { OnOk result (AddsAll (map (λ pair. pair.1) given.now) names.old names.new) }
{
    for pair in given {
        push_defined(alloc, names, pair.1.as_slice())?;
    }
    Ok(())
}

// The names that there are.
#[tactic(auto, using(crate::proofs::HelpLemmas::all_names))]
fn names_of(alloc: Global, given: &List<(Text, Bytes)>) -> Result<List<Bytes>, Memory>
    ensures { IfOk result (AreNames (map (λ pair. pair.1) given.now)) }
{
    let mut names = language_names(alloc)?;
    push_defined(alloc, &mut names, fac_prelude::text().as_bytes())?;
    push_all(alloc, &mut names, given.as_slice())?;
    Ok(names)
}

// Which of them was meant.
#[tactic(auto, using(crate::proofs::HelpLemmas::means))]
fn meant(alloc: Global, given: &List<(Text, Bytes)>, name: &Text) -> Result<Bytes, Memory>
    ensures { IfOk result (Means (map (λ pair. pair.1) given.now) name.now) }
{
    let names = names_of(alloc, given)?;
    let mut out = Bytes::new(alloc);
    let near = closest(names.as_slice(), name.as_bytes());
    push_meant(&mut out, name.as_bytes(), near)?;
    Ok(out)
}

// What helps where these vocabularies hold a word of the name.
fn help_by(
    alloc: Global,
    given: &List<(Text, Bytes)>,
    name: &Text,
    homes: &[Text],
) -> Result<Bytes, Memory>
    ensures { IfOk result (HelpsBy (map (λ pair. pair.1) given.now) name.now homes.now) }
{
    match homes {
        [] => meant(alloc, given, name),
        [_, ..] => {
            let mut out = Bytes::new(alloc);
            push_hint(&mut out, homes)?;
            Ok(out)
        }
    }
}

// What helps with a name that isn't found.
#[tactic(auto, using(crate::proofs::HelpLemmas::finds))]
fn help_to_find<R: Threads + Sync, G: Gate + Sync>(
    workers: &Workers<'_, R, G>,
    given: &List<(Text, Bytes)>,
    name: &Text,
) -> Result<Bytes, Memory>
    ensures { IfOk result (HelpsFind (map (λ pair. pair.1) given.now) name.now) }
{
    let homes = homes_of(workers, name)?;
    help_by(workers.alloc, given, name, homes.as_slice())
}

// What helps with a refused name.
fn help_with_name<R: Threads + Sync, G: Gate + Sync>(
    workers: &Workers<'_, R, G>,
    given: &List<(Text, Bytes)>,
    kind: &NameKind,
    name: &Text,
) -> Result<Bytes, Memory>
    ensures { IfOk result (HelpsName (map (λ pair. pair.1) given.now) kind.now name.now) }
{
    match kind {
        NameKind::Unknown => help_to_find(workers, given, name),
        NameKind::Ambiguous(_, _) => Ok(Bytes::new(workers.alloc)),
        NameKind::Twice => Ok(Bytes::new(workers.alloc)),
        NameKind::NoVocab => Ok(Bytes::new(workers.alloc)),
        NameKind::NotClass => Ok(Bytes::new(workers.alloc)),
        NameKind::NotGeneric => Ok(Bytes::new(workers.alloc)),
        NameKind::BadParent => Ok(Bytes::new(workers.alloc)),
        NameKind::Cycle => Ok(Bytes::new(workers.alloc)),
        NameKind::TooMany => Ok(Bytes::new(workers.alloc)),
        NameKind::Undefined => Ok(Bytes::new(workers.alloc)),
    }
}

/// What helps with a refusal.
pub fn help_of<R: Threads + Sync, G: Gate + Sync>(
    workers: &Workers<'_, R, G>,
    given: &List<(Text, Bytes)>,
    report: &Report,
) -> Result<Bytes, Memory>
    ensures { IfOk result (IsHelp (map (λ pair. pair.1) given.now) report.now) }
{
    match report {
        Report::Name(fault) => help_with_name(workers, given, &fault.kind, &fault.name),
        Report::Bytes { .. } => Ok(Bytes::new(workers.alloc)),
        Report::Syntax { .. } => Ok(Bytes::new(workers.alloc)),
        Report::Check { .. } => Ok(Bytes::new(workers.alloc)),
        Report::Error { .. } => Ok(Bytes::new(workers.alloc)),
        Report::Spent { .. } => Ok(Bytes::new(workers.alloc)),
        Report::Image { .. } => Ok(Bytes::new(workers.alloc)),
        Report::Trap { .. } => Ok(Bytes::new(workers.alloc)),
        Report::File { .. } => Ok(Bytes::new(workers.alloc)),
        Report::TooLong { .. } => Ok(Bytes::new(workers.alloc)),
    }
}
