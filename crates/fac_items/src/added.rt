//! The words that readings add, which are named by their full names.
ghost use Rattle.std.specs.Prelude.{◌≡◌};
ghost use Rattle.fac_source.specs.Toks.{number};
ghost use Rattle.fac_vocab.specs.Scopes.{word_held};
ghost use Rattle.fac_items.specs.inner.TakenBits.{added_name, added_vocab};

use fac_vocab::Scope;

/// A word that a reading names by its full name.
#[derive(Clone, Copy, Debug, PartialEq, Eq)]
pub enum Added {
    /// `kernel:call`
    Call,
    /// `kernel:if`
    If,
    /// `combinators.private:(no-cond)`
    NoCond,
}

// The vocabulary and the name of a word that a reading adds.
fn full_name(added: Added) -> (&'static str, &'static str)
    ensures vocab { result.0.now ≡ added_vocab added }
    ensures name { result.1.now ≡ added_name added }
{
    match added {
        Added::Call => ("kernel", "call"),
        Added::If => ("kernel", "if"),
        Added::NoCond => ("combinators.private", "(no-cond)"),
    }
}

/// The number of the word that a reading adds, or 0 where there is none.
pub fn number_of(scope: &Scope, added: Added) -> u32
    ensures { result ≡ number (word_held scope.now.table (added_vocab added) (added_name added)) }
{
    let (vocab, name) = full_name(added);
    match scope.word(vocab, name) {
        Some(number) => number,
        None => 0,
    }
}
