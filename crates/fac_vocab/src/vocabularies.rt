//! The vocabularies that exist from the start.
ghost use Rattle.std.specs.Prelude.{◌≡◌, [], map, IfOk};
ghost use Rattle.fac_vocab.specs.Scopes.{first_vocabularies as first_names};
ghost use Rattle.fac_vocab.specs.inner.Rows.{with_vocabs};

use crate::named_vocabs::NamedVocabs;
use fac_base::Memory;
use std::alloc::Global;

#[rattlefmt::skip]
static VOCABULARIES: [&str; 15] = [
    "kernel", "math", "math.parser", "sequences", "arrays", "io", "prettyprint", "combinators",
    "strings", "words", "syntax", "accessors", "scratchpad", "locals", "fry",
];

// Vocabularies of these names.
fn set_of(alloc: Global, texts: &[&str]) -> Result<NamedVocabs, Memory>
    ensures { IfOk result (λ set. set ≡ with_vocabs [] (map (λ text. text.now) texts.now)) }
{
    let mut set = NamedVocabs::new(alloc);
    for text in texts {
        set.add(alloc, text)?;
    }
    Ok(set)
}

/// The vocabularies that exist from the start, but for their companions.
pub fn first_vocabularies(alloc: Global) -> Result<NamedVocabs, Memory>
    ensures { IfOk result (λ set. set ≡ first_names) }
{
    set_of(alloc, &VOCABULARIES)
}
