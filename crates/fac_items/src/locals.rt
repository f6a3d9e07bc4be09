//! The locals in scope.
ghost use Rattle.std.specs.Prelude.{◌≡◌, take, reverse, IfOk};
ghost use Rattle.fac_source.specs.Toks.{is_among};
ghost use Rattle.fac_items.specs.Items.{local_of};
ghost use Rattle.fac_items.specs.inner.TakenBits.{kept_locals, locals_seen};

use crate::spelled::NameAt;
use fac_base::Memory;

/// The number of the local of this name: how many are in scope around it. The last of the locals is the innermost.
pub fn local_of(locals: &[NameAt<'_>], name: &str) -> Option<usize>
    ensures { result ≡ local_of (locals_seen locals.now) name.now }
{
    let mut count = locals.len();
    while count > 0 {
        count -= 1;
        if locals[count].text == name {
            return Some(count);
        }
    }
    None
}

/// Whether a name is among these.
pub fn is_among(name: &str, names: &[NameAt<'_>]) -> bool
    ensures { result ≡ is_among name.now (locals_seen names.now) }
{
    local_of(names, name).is_some()
}

/// A number of locals as items have it. One that is too large is want of memory.
pub fn local_number(number: usize) -> Result<u32, Memory>
    ensures { IfOk result (λ small. small ≡ number) }
{
    match u32::try_from(number) {
        Ok(small) => Ok(small),
        Err(_) => Err(Memory),
    }
}

/// Takes away the innermost locals, so that only so many are left.
pub fn keep(locals: &mut Vec<NameAt<'_>>, count: usize)
    ensures { locals_seen locals.new.items ≡ kept_locals count (locals_seen locals.old.items) }
{
    locals.truncate(count);
}
