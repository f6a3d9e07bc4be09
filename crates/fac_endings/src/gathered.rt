//! What the forms of all files come to.
use crate::draft::{Draft, NewClass};
use fac_base::List;
use fac_lang::{ClassDef, Item, Lit};
use fac_source::NameFault;

/// Words, classes and phrases, as all forms told them.
#[derive(Drop)]
pub struct Gathered {
    /// The words, by their numbers.
    pub drafts: Vec<Draft>,
    /// The classes that there were before any form, by their numbers.
    pub old_classes: List<ClassDef>,
    /// Those of the forms, in their order. Their numbers come behind.
    pub classes: List<NewClass>,
    /// The literal arrays, by their numbers.
    pub arrays: List<List<Lit>>,
    /// The items of the top-level phrase.
    pub items: Vec<Item>,
    /// The first refusal in the forms.
    pub first: Option<NameFault>,
}
