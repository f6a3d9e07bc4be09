//! The tables of a program are made.
ghost use Rattle.std.specs.Prelude.{◌≡◌, IfOk};
ghost use Rattle.fac_generic.specs.Methods.{HasMethods};

use crate::method_tables::Tables;
use crate::rows::rows_of;
use fac_base::Memory;
use fac_classes::Classes;
use fac_lang::Program;
use std::alloc::Global;

/// The tables of a program whose classes were built. Want of memory is the one error. The time is near linear in the number of words: a method is put
/// among those of its generic, of which there are no more than classes.
pub fn tables<'a>(
    alloc: Global,
    program: &'a Program,
    classes: &'a Classes,
) -> Result<Tables<'a>, Memory>
    requires fits { HasMethods program.now }
    requires classes { classes.now ≡ program.now.classes }
    ensures { IfOk result (λ tables. tables ≡ program.now) }
{
    let rows = rows_of(alloc, program, classes)?;
    Ok(Tables::with_rows(program, classes, rows))
}
