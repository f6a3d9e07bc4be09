//! Pairs whose keys ascend.
ghost use Rattle.std.specs.Prelude.{◌≡◌, length, true};
ghost use Rattle.fac_spelling.specs.Formats.{each};
ghost use Rattle.fac_spelling.specs.Numbers.{number32};
ghost use Rattle.fac_spelling.specs.Lists.{ascending_by};
ghost use Rattle.fac_bytes.specs.Ascending.{keys_ascend, pair_format};

use fac_base::List;
use fac_spelling::number_fits;

// Pairs of numbers of 32 bits have a spelling where their order doesn't count.
fn each_fits(pairs: &[(u32, u32)])
    ensures { (each (length pairs.now) pair_format).Fits pairs.now }
{
    for pair in pairs {
        number_fits(pair.0);
        number_fits(pair.1);
    }
}

/// Pairs whose keys ascend have a spelling as such.
pub fn pairs_fit(pairs: &List<(u32, u32)>)
    requires { keys_ascend 0 pairs.now ≡ true }
    ensures { (ascending_by number32).Fits pairs.now }
{
    let _count = pairs.len();
    each_fits(pairs.as_slice());
}
