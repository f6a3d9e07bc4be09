//! The names of run errors, and their texts.
ghost use Rattle.std.specs.Prelude.{◌≡◌};
ghost use Rattle.fac_lang.specs.ErrorTexts.{error_text};

/// The names of the run errors. They and their limits are this profile's own.
#[derive(Clone, Copy, Debug, PartialEq, Eq)]
pub enum ErrorName {
    /// An operand that must be an integer is another value.
    NotInteger,
    /// An operand that must be a sequence is another value.
    NotSequence,
    /// An operand that must be a tuple or a tuple class is another value.
    NotTuple,
    /// A tuple lacks the slot of an accessor.
    NoSlot,
    /// A generic word has no method for its operand.
    NoMethod,
    /// No method follows the one that runs, or its operand is now of a kind that it isn't a method for.
    NoNextMethod,
    /// A value that must be a callable or a word is another one, or has another effect than the one that is tested.
    WrongValues,
    /// The program threw a value.
    Thrown,
    /// An operand that must be a string is another value, or a line of the input isn't UTF-8.
    BadText,
    /// The result of an arithmetic word has more than 128 bits.
    Overflow,
    /// A division by 0.
    ZeroDivisor,
    /// An index is negative or past the end of its sequence.
    Bounds,
    /// A length is negative or more than 1,000,000, or two lengths that must agree differ.
    Length,
    /// No pair of a `cond` held, and it has no default.
    NoCond,
    /// Two callables were to be compared.
    NoCompare,
    /// A comparison came to more than 1,000,000 pairs of values.
    CompareTooLarge,
    /// A printed form has more than 1,000,000 bytes, or a line of the input is too long.
    TextTooLong,
}

impl ErrorName {
    /// How the error is told.
    pub fn text(self) -> &'static str
        ensures { result.now ≡ error_text self }
    {
        match self {
            ErrorName::NotInteger => "not-integer",
            ErrorName::NotSequence => "not-sequence",
            ErrorName::NotTuple => "not-tuple",
            ErrorName::NoSlot => "no-slot",
            ErrorName::NoMethod => "no-method",
            ErrorName::NoNextMethod => "no-next-method",
            ErrorName::WrongValues => "wrong-values",
            ErrorName::Thrown => "thrown",
            ErrorName::BadText => "bad-text",
            ErrorName::Overflow => "overflow",
            ErrorName::ZeroDivisor => "zero-divisor",
            ErrorName::Bounds => "bounds",
            ErrorName::Length => "length",
            ErrorName::NoCond => "no-cond",
            ErrorName::NoCompare => "no-compare",
            ErrorName::CompareTooLarge => "compare-too-large",
            ErrorName::TextTooLong => "text-too-long",
        }
    }
}
