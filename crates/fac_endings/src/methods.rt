//! The methods that there are so far, each by its class and its generic.
ghost use Rattle.std.specs.Prelude.{◌≡◌, ◌||◌, OnOk};
ghost use Rattle.std.specs.List.{list_any};
ghost use Rattle.fac_endings.specs.inner.MethodKeys.{same_key};

use fac_base::Memory;
use indexmap::IndexSet;

/// A method by its class and its generic.
#[derive(Clone, Copy, Debug, PartialEq, Eq, Hash)]
pub struct MethodKey {
    pub class: u32,
    pub generic: u32,
}

/// Whether there is a method on this class, of this generic.
pub fn is_known(methods: &IndexSet<MethodKey>, key: MethodKey) -> bool
    ensures { result ≡ list_any (same_key key) methods.now.keys }
{
    methods.contains(&key)
}

/// Keeps one method more.
pub fn add(methods: &mut IndexSet<MethodKey>, key: MethodKey) -> Result<(), Memory>
    ensures { (q : MethodKey) → OnOk result (list_any (same_key q) methods.new.keys ≡ same_key q key || list_any (same_key q) methods.old.keys) }
{
    methods.insert(key)?;
    Ok(())
}
