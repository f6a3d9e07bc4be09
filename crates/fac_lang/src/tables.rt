//! The tables of what no source defines, as other crates ask for them. Their rows stand in files without a contract, which the definitions cite.
ghost use Rattle.std.specs.Prelude.{◌≡◌, ◌<◌, map};
ghost use Rattle.fac_lang.specs.BuiltInClasses.{built_in_classes, written_class};
ghost use Rattle.fac_lang.specs.CoreWords.{built_core_words, written_core};
ghost use Rattle.fac_lang.specs.Primitives.{built_count, is_built_primitive, row_seen, rows_seen, IsOperationOf};

use crate::class_table::{CLASSES, ClassRow};
use crate::core_table::{CORE_WORDS, CoreRow};
use crate::primitive_table::{Operation, PRIMITIVES, PrimitiveRow};

/// The table of the built-in classes, by their numbers.
pub fn built_in_classes() -> &'static [ClassRow]
    ensures { map written_class result.now ≡ built_in_classes }
{
    CLASSES
}

/// The table of the core words, in the order in which programs have them behind the primitives.
pub fn core_words() -> &'static [CoreRow]
    ensures { map written_core result.now ≡ built_core_words }
{
    CORE_WORDS
}

/// The table of the primitives, by their numbers.
pub fn primitives() -> &'static [PrimitiveRow]
    ensures { map row_seen result.now ≡ rows_seen }
{
    PRIMITIVES
}

/// What the primitive of this number does.
pub fn operation_of(number: u32) -> Operation
    requires { number < built_count }
    ensures { IsOperationOf number result }
{
    match primitives().get(number as usize) {
        Some(row) => row.does,
        None => unreachable!(),
    }
}

/// Whether a primitive that is built has this number.
pub fn is_primitive(number: u32) -> bool
    ensures { result ≡ is_built_primitive number }
{
    (number as usize) < primitives().len()
}
