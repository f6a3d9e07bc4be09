//! Names of locals, and the effects whose inputs are locals.
ghost use Rattle.std.specs.Prelude.{◌≡◌, true};
ghost use Rattle.fac_effect.specs.EffectReading.{may_end as ends_at};
ghost use Rattle.fac_effect.specs.LocalNames.{is_local_name as may_be_local, input_at, entry_name as named_by, may_name as name_fits, may_stand as fits};

use crate::effect_parts::described_name;
use crate::effect_reader::{EffectReader, Side, may_end};
use crate::spelling::{Spelling, begins_with_dots, text};
use fac_source::Token;

/// Whether a name may be that of a local: it doesn't end in `!`.
pub fn is_local_name(name: &str) -> bool
    ensures { result ≡ may_be_local name.now }
{
    !name.as_bytes().ends_with(b"!".as_slice())
}

// The name of the entry that a token names.
fn entry_name(token: &Token) -> &str
    ensures { result.now ≡ named_by token.now }
{
    let name = text(&token.kind);
    match described_name(name) {
        Some(stem) => stem,
        None => name,
    }
}

// Whether the name of an input of the whole effect, or its row variable, may be next.
fn is_at_input(reader: &EffectReader) -> bool
    ensures { result ≡ input_at reader.now.outer reader.now.side (ends_at reader.now.spot) }
{
    if reader.outer.len() != 0 {
        return false;
    }
    match reader.side {
        Side::Inputs => may_end(reader.spot),
        Side::Outputs => false,
    }
}

// Whether a token may name the row variable of an effect's inputs or an input that is a local.
fn may_name(token: &Token) -> bool
    ensures { result ≡ name_fits true token.now }
{
    begins_with_dots(text(&token.kind)) || is_local_name(entry_name(token))
}

/// Whether the inputs of an effect may still be locals where a token of this spelling goes on with it.
pub fn may_stand(reader: &EffectReader, spelling: Spelling, token: &Token) -> bool
    ensures { result ≡ fits reader.now spelling token.now }
{
    match spelling {
        Spelling::Name => {
            if is_at_input(reader) {
                may_name(token)
            } else {
                true
            }
        }
        _ => true,
    }
}
