//! The table of the primitive words that are built. The number of a row is that of the primitive and of its word. The definitions cite it, so no
//! contract stands here. Numbers stand in images, so a primitive that is added goes behind all others.

use crate::word_row::WordRow;

/// A primitive word, with its texts, its lists of texts and its lists of places.
#[derive(Clone, Copy)]
pub struct PrimitiveRow<
    Text = &'static str,
    Texts = &'static [&'static str],
    Places = &'static [u32],
> {
    /// The word, as it is written.
    pub word: WordRow<Text, Texts>,
    /// What it does.
    pub does: Operation<Places>,
}

/// What a primitive does, by what it works with.
#[derive(Clone, Copy)]
pub enum Operation<Places = &'static [u32]> {
    /// Takes so many values and leaves those at these places, the last on top. The deepest value that it takes is at place 0.
    Shuffle {
        /// How many values it takes.
        takes: u32,
        /// The places of the values that it leaves.
        leaves: Places,
    },
    /// It works on the values alone.
    Simple(Simple),
    /// It works with the store, and is none on sequences and numbers.
    Storing(Storing),
    /// It works on sequences and numbers, and takes one value.
    OfOne(OfOne),
    /// It works on them, and takes two values.
    OfTwo(OfTwo),
    /// It works on them, and takes three values.
    OfThree(OfThree),
    /// It writes.
    Writing(Writing),
    /// `readln`
    ReadLine,
}

/// What works on the values alone.
#[derive(Clone, Copy)]
pub enum Simple {
    /// `throw`
    Throw,
    /// `not`
    Not,
    /// `and`
    And,
    /// `or`
    Or,
    /// `?`
    Choose,
    /// `(no-cond)`
    NoCond,
    /// `+`
    Add,
    /// `-`
    Subtract,
    /// `*`
    Multiply,
    /// `/i`
    Divide,
    /// `mod`
    Remainder,
    /// `shift`
    Shift,
    /// `bitand`
    BitAnd,
    /// `bitor`
    BitOr,
    /// `bitxor`
    BitXor,
    /// `bitnot`
    BitNot,
    /// `<`
    Less,
    /// `>`
    Greater,
    /// `<=`
    AtMost,
    /// `>=`
    AtLeast,
}

/// What works with the store, and is none on sequences and numbers.
#[derive(Clone, Copy)]
pub enum Storing {
    /// `curry`
    Curry,
    /// `compose`
    Compose,
    /// `=`
    Equal,
    /// `eq?`
    Same,
    /// `new`
    New,
}

/// What works on sequences and numbers, and takes one value.
#[derive(Clone, Copy)]
pub enum OfOne {
    /// `number>string`
    NumberToString,
    /// `string>number`
    StringToNumber,
    /// `length`
    Length,
    /// `<iota>`
    MakeIota,
    /// `reverse`
    Reverse,
    /// `1array`
    OneArray,
    /// `>array`
    ToArray,
}

/// What works on them, and takes two values.
#[derive(Clone, Copy)]
pub enum OfTwo {
    /// `nth`
    Nth,
    /// `append`
    Append,
    /// `suffix`
    Suffix,
    /// `(select)`
    Select,
    /// `<array>`
    MakeArray,
    /// `2array`
    TwoArray,
}

/// What works on them, and takes three values.
#[derive(Clone, Copy)]
pub enum OfThree {
    /// `set-nth`
    SetNth,
    /// `subseq`
    Subsequence,
}

/// What writes.
#[derive(Clone, Copy)]
pub enum Writing {
    /// `write`
    Write,
    /// `print`
    Print,
    /// `nl`
    NewLine,
    /// `.`
    Show,
}

/// The rows.
#[rattlefmt::skip]
pub static PRIMITIVES: &[PrimitiveRow] = &[
    PrimitiveRow { word: WordRow { vocab: "kernel", name: "drop", ins: &["x"], outs: Some(&[]) }, does: Operation::Shuffle { takes: 1, leaves: &[] } },
    PrimitiveRow { word: WordRow { vocab: "kernel", name: "dup", ins: &["x"], outs: Some(&["x", "x"]) }, does: Operation::Shuffle { takes: 1, leaves: &[0, 0] } },
    PrimitiveRow { word: WordRow { vocab: "kernel", name: "swap", ins: &["x", "y"], outs: Some(&["y", "x"]) }, does: Operation::Shuffle { takes: 2, leaves: &[1, 0] } },
    PrimitiveRow { word: WordRow { vocab: "kernel", name: "over", ins: &["x", "y"], outs: Some(&["x", "y", "x"]) }, does: Operation::Shuffle { takes: 2, leaves: &[0, 1, 0] } },
    PrimitiveRow { word: WordRow { vocab: "kernel", name: "pick", ins: &["x", "y", "z"], outs: Some(&["x", "y", "z", "x"]) }, does: Operation::Shuffle { takes: 3, leaves: &[0, 1, 2, 0] } },
    PrimitiveRow { word: WordRow { vocab: "kernel", name: "rot", ins: &["x", "y", "z"], outs: Some(&["y", "z", "x"]) }, does: Operation::Shuffle { takes: 3, leaves: &[1, 2, 0] } },
    PrimitiveRow { word: WordRow { vocab: "kernel", name: "-rot", ins: &["x", "y", "z"], outs: Some(&["z", "x", "y"]) }, does: Operation::Shuffle { takes: 3, leaves: &[2, 0, 1] } },
    PrimitiveRow { word: WordRow { vocab: "kernel", name: "nip", ins: &["x", "y"], outs: Some(&["y"]) }, does: Operation::Shuffle { takes: 2, leaves: &[1] } },
    PrimitiveRow { word: WordRow { vocab: "kernel", name: "dupd", ins: &["x", "y"], outs: Some(&["x", "x", "y"]) }, does: Operation::Shuffle { takes: 2, leaves: &[0, 0, 1] } },
    PrimitiveRow { word: WordRow { vocab: "kernel", name: "swapd", ins: &["x", "y", "z"], outs: Some(&["y", "x", "z"]) }, does: Operation::Shuffle { takes: 3, leaves: &[1, 0, 2] } },
    PrimitiveRow { word: WordRow { vocab: "kernel", name: "2drop", ins: &["x", "y"], outs: Some(&[]) }, does: Operation::Shuffle { takes: 2, leaves: &[] } },
    PrimitiveRow { word: WordRow { vocab: "kernel", name: "2dup", ins: &["x", "y"], outs: Some(&["x", "y", "x", "y"]) }, does: Operation::Shuffle { takes: 2, leaves: &[0, 1, 0, 1] } },
    PrimitiveRow { word: WordRow { vocab: "kernel", name: "3drop", ins: &["x", "y", "z"], outs: Some(&[]) }, does: Operation::Shuffle { takes: 3, leaves: &[] } },
    PrimitiveRow { word: WordRow { vocab: "kernel", name: "3dup", ins: &["x", "y", "z"], outs: Some(&["x", "y", "z", "x", "y", "z"]) }, does: Operation::Shuffle { takes: 3, leaves: &[0, 1, 2, 0, 1, 2] } },
    PrimitiveRow { word: WordRow { vocab: "kernel", name: "2over", ins: &["x", "y", "z"], outs: Some(&["x", "y", "z", "x", "y"]) }, does: Operation::Shuffle { takes: 3, leaves: &[0, 1, 2, 0, 1] } },
    PrimitiveRow { word: WordRow { vocab: "kernel", name: "2nip", ins: &["x", "y", "z"], outs: Some(&["z"]) }, does: Operation::Shuffle { takes: 3, leaves: &[2] } },
    PrimitiveRow { word: WordRow { vocab: "kernel", name: "curry", ins: &["obj", "quot"], outs: Some(&["curry"]) }, does: Operation::Storing(Storing::Curry) },
    PrimitiveRow { word: WordRow { vocab: "kernel", name: "compose", ins: &["p", "q"], outs: Some(&["compose"]) }, does: Operation::Storing(Storing::Compose) },
    PrimitiveRow { word: WordRow { vocab: "kernel", name: "throw", ins: &["error"], outs: None }, does: Operation::Simple(Simple::Throw) },
    PrimitiveRow { word: WordRow { vocab: "kernel", name: "not", ins: &["x"], outs: Some(&["?"]) }, does: Operation::Simple(Simple::Not) },
    PrimitiveRow { word: WordRow { vocab: "kernel", name: "and", ins: &["x", "y"], outs: Some(&["z"]) }, does: Operation::Simple(Simple::And) },
    PrimitiveRow { word: WordRow { vocab: "kernel", name: "or", ins: &["x", "y"], outs: Some(&["z"]) }, does: Operation::Simple(Simple::Or) },
    PrimitiveRow { word: WordRow { vocab: "kernel", name: "?", ins: &["?", "x", "y"], outs: Some(&["z"]) }, does: Operation::Simple(Simple::Choose) },
    PrimitiveRow { word: WordRow { vocab: "kernel", name: "=", ins: &["x", "y"], outs: Some(&["?"]) }, does: Operation::Storing(Storing::Equal) },
    PrimitiveRow { word: WordRow { vocab: "kernel", name: "eq?", ins: &["x", "y"], outs: Some(&["?"]) }, does: Operation::Storing(Storing::Same) },
    PrimitiveRow { word: WordRow { vocab: "kernel", name: "new", ins: &["class"], outs: Some(&["tuple"]) }, does: Operation::Storing(Storing::New) },
    PrimitiveRow { word: WordRow { vocab: "math", name: "+", ins: &["x", "y"], outs: Some(&["z"]) }, does: Operation::Simple(Simple::Add) },
    PrimitiveRow { word: WordRow { vocab: "math", name: "-", ins: &["x", "y"], outs: Some(&["z"]) }, does: Operation::Simple(Simple::Subtract) },
    PrimitiveRow { word: WordRow { vocab: "math", name: "*", ins: &["x", "y"], outs: Some(&["z"]) }, does: Operation::Simple(Simple::Multiply) },
    PrimitiveRow { word: WordRow { vocab: "math", name: "/i", ins: &["x", "y"], outs: Some(&["z"]) }, does: Operation::Simple(Simple::Divide) },
    PrimitiveRow { word: WordRow { vocab: "math", name: "mod", ins: &["x", "y"], outs: Some(&["z"]) }, does: Operation::Simple(Simple::Remainder) },
    PrimitiveRow { word: WordRow { vocab: "math", name: "shift", ins: &["x", "n"], outs: Some(&["y"]) }, does: Operation::Simple(Simple::Shift) },
    PrimitiveRow { word: WordRow { vocab: "math", name: "bitand", ins: &["x", "y"], outs: Some(&["z"]) }, does: Operation::Simple(Simple::BitAnd) },
    PrimitiveRow { word: WordRow { vocab: "math", name: "bitor", ins: &["x", "y"], outs: Some(&["z"]) }, does: Operation::Simple(Simple::BitOr) },
    PrimitiveRow { word: WordRow { vocab: "math", name: "bitxor", ins: &["x", "y"], outs: Some(&["z"]) }, does: Operation::Simple(Simple::BitXor) },
    PrimitiveRow { word: WordRow { vocab: "math", name: "bitnot", ins: &["x"], outs: Some(&["y"]) }, does: Operation::Simple(Simple::BitNot) },
    PrimitiveRow { word: WordRow { vocab: "math", name: "<", ins: &["x", "y"], outs: Some(&["?"]) }, does: Operation::Simple(Simple::Less) },
    PrimitiveRow { word: WordRow { vocab: "math", name: ">", ins: &["x", "y"], outs: Some(&["?"]) }, does: Operation::Simple(Simple::Greater) },
    PrimitiveRow { word: WordRow { vocab: "math", name: "<=", ins: &["x", "y"], outs: Some(&["?"]) }, does: Operation::Simple(Simple::AtMost) },
    PrimitiveRow { word: WordRow { vocab: "math", name: ">=", ins: &["x", "y"], outs: Some(&["?"]) }, does: Operation::Simple(Simple::AtLeast) },
    PrimitiveRow { word: WordRow { vocab: "math.parser", name: "number>string", ins: &["n"], outs: Some(&["str"]) }, does: Operation::OfOne(OfOne::NumberToString) },
    PrimitiveRow { word: WordRow { vocab: "math.parser", name: "string>number", ins: &["str"], outs: Some(&["n/f"]) }, does: Operation::OfOne(OfOne::StringToNumber) },
    PrimitiveRow { word: WordRow { vocab: "sequences", name: "length", ins: &["seq"], outs: Some(&["n"]) }, does: Operation::OfOne(OfOne::Length) },
    PrimitiveRow { word: WordRow { vocab: "sequences", name: "nth", ins: &["n", "seq"], outs: Some(&["elt"]) }, does: Operation::OfTwo(OfTwo::Nth) },
    PrimitiveRow { word: WordRow { vocab: "sequences", name: "set-nth", ins: &["elt", "n", "seq"], outs: Some(&[]) }, does: Operation::OfThree(OfThree::SetNth) },
    PrimitiveRow { word: WordRow { vocab: "sequences", name: "<iota>", ins: &["n"], outs: Some(&["iota"]) }, does: Operation::OfOne(OfOne::MakeIota) },
    PrimitiveRow { word: WordRow { vocab: "sequences", name: "append", ins: &["a", "b"], outs: Some(&["c"]) }, does: Operation::OfTwo(OfTwo::Append) },
    PrimitiveRow { word: WordRow { vocab: "sequences", name: "suffix", ins: &["seq", "elt"], outs: Some(&["newseq"]) }, does: Operation::OfTwo(OfTwo::Suffix) },
    PrimitiveRow { word: WordRow { vocab: "sequences", name: "subseq", ins: &["from", "to", "seq"], outs: Some(&["newseq"]) }, does: Operation::OfThree(OfThree::Subsequence) },
    PrimitiveRow { word: WordRow { vocab: "sequences", name: "reverse", ins: &["seq"], outs: Some(&["newseq"]) }, does: Operation::OfOne(OfOne::Reverse) },
    PrimitiveRow { word: WordRow { vocab: "sequences.private", name: "(select)", ins: &["flags", "seq"], outs: Some(&["newseq"]) }, does: Operation::OfTwo(OfTwo::Select) },
    PrimitiveRow { word: WordRow { vocab: "arrays", name: "<array>", ins: &["n", "elt"], outs: Some(&["array"]) }, does: Operation::OfTwo(OfTwo::MakeArray) },
    PrimitiveRow { word: WordRow { vocab: "arrays", name: "1array", ins: &["x"], outs: Some(&["array"]) }, does: Operation::OfOne(OfOne::OneArray) },
    PrimitiveRow { word: WordRow { vocab: "arrays", name: "2array", ins: &["x", "y"], outs: Some(&["array"]) }, does: Operation::OfTwo(OfTwo::TwoArray) },
    PrimitiveRow { word: WordRow { vocab: "arrays", name: ">array", ins: &["seq"], outs: Some(&["array"]) }, does: Operation::OfOne(OfOne::ToArray) },
    PrimitiveRow { word: WordRow { vocab: "io", name: "write", ins: &["str"], outs: Some(&[]) }, does: Operation::Writing(Writing::Write) },
    PrimitiveRow { word: WordRow { vocab: "io", name: "print", ins: &["str"], outs: Some(&[]) }, does: Operation::Writing(Writing::Print) },
    PrimitiveRow { word: WordRow { vocab: "io", name: "nl", ins: &[], outs: Some(&[]) }, does: Operation::Writing(Writing::NewLine) },
    PrimitiveRow { word: WordRow { vocab: "io", name: "readln", ins: &[], outs: Some(&["str/f"]) }, does: Operation::ReadLine },
    PrimitiveRow { word: WordRow { vocab: "prettyprint", name: ".", ins: &["x"], outs: Some(&[]) }, does: Operation::Writing(Writing::Show) },
    PrimitiveRow { word: WordRow { vocab: "combinators.private", name: "(no-cond)", ins: &[], outs: None }, does: Operation::Simple(Simple::NoCond) },
];
