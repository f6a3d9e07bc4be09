//! Words and classes as forms tell them: what is only known at the end of the program is kept open.
use fac_base::{Boxed, List};
use fac_lang::{ClassDef, WordDef};
use fac_source::{Ref, Tok};

/// What of a word is settled at the end of the program.
#[derive(Drop)]
pub enum Late {
    /// Nothing.
    Settled,
    /// All of it: the word is only deferred.
    Deferred,
    /// Its effect, by the class of a `C:`.
    Maker(Boxed<Ref>),
    /// The class and the generic of an `M:`, whose items are the word's phrase.
    Method(Boxed<Ref>, Boxed<Ref>),
}

/// A word as far as it is told.
#[derive(Drop)]
pub struct Draft {
    pub word: WordDef,
    pub late: Late,
}

/// What a class form names.
#[derive(Drop)]
pub enum Named {
    /// The parent of a tuple class, where one is written, and its own slots.
    Tuple(Option<Ref>, List<Tok>),
    /// The members of a union.
    Union(List<Ref>),
    /// Nothing, for a singleton.
    Single,
}

/// The class of a form.
#[derive(Drop)]
pub struct NewClass {
    /// Its name where the form has it.
    pub tok: Tok,
    /// The number of its word.
    pub word: u32,
    pub names: Named,
}

/// All words and classes, as they stand at the end.
#[derive(Clone, Copy)]
pub struct Table<'a> {
    pub drafts: &'a [Draft],
    pub classes: &'a [ClassDef],
}
