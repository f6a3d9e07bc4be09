//! A tag with the numbers behind it.
ghost use Rattle.std.specs.Prelude.{◌≡◌, ◌++◌, [], OnOk};
ghost use Rattle.fac_spelling.specs.Numbers.{shortest};

use fac_base::{Bytes, Memory};
use fac_spelling::write_number;

/// Adds a tag with nothing behind it.
#[tactic(auto, using(crate::proofs::Written::written_one))]
pub fn write_none(out: &mut Bytes, tag: u128) -> Result<(), Memory>
    ensures { OnOk result (out.new ≡ out.old ++ (shortest tag ++ [])) }
{
    write_number(out, tag)
}

/// Adds a tag and a number.
#[tactic(auto, using(fac_spelling::proofs::WriteLoops::written))]
pub fn write_one(out: &mut Bytes, tag: u128, number: u128) -> Result<(), Memory>
    ensures { OnOk result (out.new ≡ out.old ++ (shortest tag ++ (shortest number ++ []))) }
{
    write_number(out, tag)?;
    write_number(out, number)
}

/// Adds a tag and two numbers.
#[tactic(auto, using(fac_spelling::proofs::WriteLoops::written_three))]
pub fn write_two(out: &mut Bytes, tag: u128, first: u128, second: u128) -> Result<(), Memory>
    ensures { OnOk result (out.new ≡ out.old ++ (shortest tag ++ (shortest first ++ (shortest second ++ [])))) }
{
    write_number(out, tag)?;
    write_number(out, first)?;
    write_number(out, second)
}
