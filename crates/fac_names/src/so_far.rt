//! What was read so far.
use crate::drafts::Drafts;
use fac_base::List;
use fac_endings::NewClass;
use fac_lang::{ClassDef, Item, Lit};
use fac_source::NameFault;
use fac_vocab::Scope;

/// What the forms so far come to.
#[derive(Drop)]
pub struct SoFar {
    /// What names find.
    pub scope: Scope,
    /// The words, by their numbers.
    pub drafts: Drafts,
    /// The classes that there were before any form, by their numbers.
    pub old_classes: List<ClassDef>,
    /// Those of forms, whose numbers come behind.
    pub classes: List<NewClass>,
    /// The literal arrays, by their numbers.
    pub arrays: List<List<Lit>>,
    /// The items at the top level.
    pub items: Vec<Item>,
    /// The item of the last `MAIN:`, where one stands.
    pub main: Vec<Item>,
    /// The first refusal.
    pub first: Option<NameFault>,
}
