//! Full names of words and classes.
use crate::{Duplicate, Memory, Text};
use std::alloc::Global;

/// The full name of a word or class.
#[derive(Debug, Drop)]
pub struct Name {
    /// The vocabulary in which it is defined.
    pub vocab: Text,
    /// The name in that vocabulary.
    pub name: Text,
}

impl Duplicate for Name {
    fn copy(&self, alloc: Global) -> Result<Name, Memory> {
        let vocab = self.vocab.copy(alloc)?;
        let name = self.name.copy(alloc)?;
        Ok(Name { vocab, name })
    }
}
