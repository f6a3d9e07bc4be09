//! Whether the elements of an array are those that `cond` reads: pairs of quotations, and perhaps a last quotation.
ghost use Rattle.std.specs.Prelude.{◌≡◌};
ghost use Rattle.fac_items.specs.inner.CaseLists.{are_cases, array_child, with_child};

/// What the elements of an array are, as far as they were read, from the last one on.
#[derive(Clone, Copy, Debug, PartialEq, Eq)]
pub enum Cases {
    Nothing,
    OneQuotation,
    TwoQuotations,
    /// Pairs of quotations, each in an array, and perhaps a quotation behind them.
    Pairs,
    Other,
}

/// An element of an array.
#[derive(Clone, Copy, Debug, PartialEq, Eq)]
pub enum Child {
    Quotation,
    /// An array of two quotations.
    Pair,
    Other,
}

/// With one element more before them.
pub fn with_child(child: Child, cases: Cases) -> Cases
    ensures { result ≡ with_child child cases }
{
    match child {
        Child::Quotation => match cases {
            Cases::Nothing => Cases::OneQuotation,
            Cases::OneQuotation => Cases::TwoQuotations,
            Cases::TwoQuotations => Cases::Other,
            Cases::Pairs => Cases::Other,
            Cases::Other => Cases::Other,
        },
        Child::Pair => match cases {
            Cases::Nothing => Cases::Pairs,
            Cases::OneQuotation => Cases::Pairs,
            Cases::Pairs => Cases::Pairs,
            Cases::TwoQuotations => Cases::Other,
            Cases::Other => Cases::Other,
        },
        Child::Other => Cases::Other,
    }
}

/// Whether an array of these elements is one that `cond` reads.
pub fn are_cases(cases: Cases) -> bool
    ensures { result ≡ are_cases cases }
{
    match cases {
        Cases::Nothing => true,
        Cases::OneQuotation => true,
        Cases::Pairs => true,
        Cases::TwoQuotations => false,
        Cases::Other => false,
    }
}

/// What an array of these elements is as an element.
pub fn array_child(cases: Cases) -> Child
    ensures { result ≡ array_child cases }
{
    match cases {
        Cases::TwoQuotations => Child::Pair,
        Cases::Nothing => Child::Other,
        Cases::OneQuotation => Child::Other,
        Cases::Pairs => Child::Other,
        Cases::Other => Child::Other,
    }
}
