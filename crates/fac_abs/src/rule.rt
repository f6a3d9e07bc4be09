//! The rules of the checker.

/// Why a word is refused, with the numbers that the rule names.
#[derive(Clone, Copy, Debug, PartialEq, Eq)]
pub enum Rule {
    /// An item needs more values than there are.
    Underflow {
        /// The number of values that it takes.
        needs: u32,
        /// The number of values that are there, which is less.
        has: u32,
    },
    /// A callable that an item runs isn't known: no literal quotation, and nothing that `curry` or `compose` made of known ones.
    NotKnown,
    /// `boa` on a known word that is no tuple class.
    NotAClass,
    /// Both branches of an `if` return, and leave other numbers of values.
    Branches {
        /// The number of values after the first branch.
        first: u32,
        /// The number of values after the second branch.
        second: u32,
    },
    /// The own recursive call of a row word has another mark in a place than the word's quotation input of that place.
    RecursiveInput {
        /// The number of the input, from 1.
        input: u32,
    },
    /// A row isn't what it has to be.
    Rows {
        /// The number of the quotation input, from 1, or 0 for the own recursive call.
        input: u32,
        /// The number of values that should stand there.
        expected: u32,
        /// The number of values that stand there.
        found: u32,
    },
    /// The phrase of an inline word leads back to it through inline words, otherwise than directly in a word marked `recursive`.
    /// The place is that of the word's name.
    UndeclaredRecursion,
    /// A word with a row variable isn't inline, or its rows can't be bound. The place is that of the word's name.
    RowDeclaration,
    /// A generic has no input, a row variable or an input with an effect; or `call-next-method` stands outside a method.
    MethodEffect,
    /// The 65th nested application is entered.
    TooDeep,
    /// The 200,001st item of a word's walk is walked.
    TooLarge,
    /// A word leaves another number of values than its effect declares. The place is that of the word's name.
    Outputs {
        /// The number of outputs that the effect declares.
        declared: u32,
        /// The number of values that stand at the end of the word's phrase, which is another.
        found: u32,
    },
    /// A word that is declared never to return can return. The place is that of the word's name.
    MustReturn,
}
