//! The use of all vocabularies but private ones.
ghost use Rattle.std.specs.Prelude.{◌≡◌, fold, map, string_bytes, OnOk, OnErr};
ghost use Rattle.fac_vocab.specs.Scopes.{is_private as ends_private};
ghost use Rattle.fac_vocab.specs.inner.Leasts.{LeastWhere};
ghost use Rattle.fac_vocab.specs.inner.PublicVocabs.{with_public, BeginsWith};

use crate::leasts::{Leasts, use_text};
use crate::table::Table;
use crate::text_set::TextSet;
use fac_base::Memory;
use std::alloc::Global;

// Whether a name ends in `.private`.
fn is_private(vocab: &str) -> bool
    ensures { result ≡ ends_private vocab.now }
{
    match vocab.strip_suffix(".private") {
        Some(_stem) => true,
        None => false,
    }
}

// Uses a vocabulary, unless its name ends in `.private`.
fn use_public(
    alloc: Global,
    table: &Table,
    used: &mut TextSet,
    leasts: &mut Leasts,
    vocab: &str,
) -> Result<(), Memory>
    requires { LeastWhere leasts.old.is_kept leasts.old.kept table.now used.old }
    ensures ok { OnOk result (used.new ≡ with_public used.old vocab.now) }
    ensures err { OnErr result (used.new ≡ used.old) }
    ensures kept { LeastWhere leasts.new.is_kept leasts.new.kept table.now used.new }
{
    if is_private(vocab) {
        return Ok(());
    }
    use_text(alloc, table, used, leasts, vocab)
}

/// Uses those of these vocabularies whose names don't end in `.private`. Where memory is wanted some of them may be used, behind those that were.
pub fn use_each(
    alloc: Global,
    table: &Table,
    used: &mut TextSet,
    leasts: &mut Leasts,
    vocabs: &[String],
) -> Result<(), Memory>
    requires { LeastWhere leasts.old.is_kept leasts.old.kept table.now used.old }
    ensures ok { OnOk result (used.new ≡ fold with_public used.old (map string_bytes vocabs.now)) }
    ensures front { BeginsWith used.new used.old }
    ensures kept { LeastWhere leasts.new.is_kept leasts.new.kept table.now used.new }
{
    for vocab in vocabs {
        use_public(alloc, table, used, leasts, vocab.as_str())?;
    }
    Ok(())
}
