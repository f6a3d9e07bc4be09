//! Names where they stand in a source.
ghost use Rattle.std.specs.Prelude.{◌≡◌};
ghost use Rattle.fac_items.specs.FromElements.{tok};
ghost use Rattle.fac_items.specs.inner.Behind.{name_tok};

use fac_base::Place;
use fac_effect::text;
use fac_source::Token;

/// A name, and the place of its token.
#[derive(Clone, Copy)]
pub struct NameAt<'a> {
    pub text: &'a str,
    pub place: Place,
}

/// The name that a token spells.
pub fn name_at(token: &Token) -> NameAt<'_>
    ensures { name_tok result ≡ tok token.now }
{
    NameAt {
        text: text(&token.kind),
        place: token.place,
    }
}
