//! The table of the built-in classes. The number of a row is that of the class. The definitions cite it, so no contract stands here.

/// A class that no source defines, with its texts. Names are those of the Factor Handbook's vocabularies.
#[derive(Clone, Copy)]
pub struct ClassRow<Text = &'static str> {
    /// The vocabulary of the class.
    pub vocab: Text,
    /// Its name.
    pub name: Text,
    /// Whether a word asks if a value is of the class: its name with `?` behind it.
    pub has_predicate: bool,
}

/// The rows.
#[rattlefmt::skip]
pub static CLASSES: &[ClassRow] = &[
    ClassRow { vocab: "math", name: "integer", has_predicate: true },
    ClassRow { vocab: "syntax", name: "t", has_predicate: false },
    ClassRow { vocab: "syntax", name: "f", has_predicate: false },
    ClassRow { vocab: "strings", name: "string", has_predicate: true },
    ClassRow { vocab: "sequences", name: "iota", has_predicate: true },
    ClassRow { vocab: "words", name: "word", has_predicate: true },
    ClassRow { vocab: "arrays", name: "array", has_predicate: true },
    ClassRow { vocab: "kernel", name: "callable", has_predicate: true },
    ClassRow { vocab: "kernel", name: "boolean", has_predicate: true },
    ClassRow { vocab: "sequences", name: "sequence", has_predicate: true },
    ClassRow { vocab: "kernel", name: "tuple", has_predicate: true },
    ClassRow { vocab: "kernel", name: "object", has_predicate: true },
];
