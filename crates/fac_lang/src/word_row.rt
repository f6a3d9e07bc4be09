//! A row of a table of words.

/// A word that no source defines, as it is written, with its texts and its lists of texts. Names and effects are those of the Factor Handbook's vocabularies.
#[derive(Clone, Copy)]
pub struct WordRow<Text = &'static str, Texts = &'static [&'static str]> {
    /// The vocabulary that the word is in.
    pub vocab: Text,
    /// Its name.
    pub name: Text,
    /// The names of its inputs, the deepest first.
    pub ins: Texts,
    /// The names of its outputs, the deepest first. None where it never returns.
    pub outs: Option<Texts>,
}
