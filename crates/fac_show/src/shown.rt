//! The printed form of a value.
ghost use Rattle.std.specs.Prelude.{◌≡◌, ◌∷◌, ◌++◌, [], map, string_bytes, slice_get, codes};
ghost use Rattle.std.specs.Fmt.{signed_decimal, decimal};
ghost use Rattle.fac_code.specs.ImageNames.{image_names};
ghost use Rattle.fac_lang.specs.World.{World};
ghost use Rattle.fac_lang.specs.Printed.{printed, spaced};
ghost use Rattle.fac_store.specs.MachineValues.{MValue, machine_values};
ghost use Rattle.fac_store.specs.ValueTrees.{trees_of, objects_of, value_in, iota_count};
ghost use Rattle.fac_show.specs.Shown.{IsShown};
ghost use Rattle.fac_show.specs.inner.Adding.{Adds};
ghost use Rattle.fac_show.specs.inner.StoredForms.{head_of, tail_of, object_of, object_form, stored_form};

use crate::ShowFault;
use crate::escaping::add_quoted;
use crate::line::add;
use fac_base::Text;
use fac_base::limits::MOST_PRINTED_LEVELS;
use fac_code::Image;
use fac_store::{Store, Value, iota_length};
use itoa::Buffer;
use std::alloc::Global;

/// What a value is printed with.
#[derive(Clone, Copy)]
struct Printing<'a> {
    /// The image, which has the names of words and classes.
    pub image: &'a Image,
    /// The store of the values.
    pub store: &'a Store,
    /// The most bytes.
    pub limit: usize,
}

// Adds an integer.
fn add_integer(line: &mut String, limit: usize, number: i128) -> Result<(), ShowFault>
    ensures { Adds limit (string_bytes line.old) (signed_decimal number) (string_bytes line.new) result }
{
    let mut buffer = Buffer::new();
    add(line, limit, buffer.format(number))
}

// Adds the number of elements of an iota.
fn add_count(line: &mut String, limit: usize, number: i128) -> Result<(), ShowFault>
    ensures { Adds limit (string_bytes line.old) (decimal (iota_count number)) (string_bytes line.new) result }
{
    let mut buffer = Buffer::new();
    add(line, limit, buffer.format(iota_length(number)))
}

// Adds an iota.
fn add_iota(line: &mut String, limit: usize, number: i128) -> Result<(), ShowFault>
    ensures { Adds limit (string_bytes line.old) (codes "<iota " ++ decimal (iota_count number) ++ codes ">") (string_bytes line.new) result }
{
    match add(line, limit, "<iota ") {
        Ok(()) => match add_count(line, limit, number) {
            Ok(()) => add(line, limit, ">"),
            Err(fault) => Err(fault),
        },
        Err(fault) => Err(fault),
    }
}

// Adds what a tuple of this kind begins with.
fn add_class(line: &mut String, printing: Printing<'_>, kind: u32) -> Result<(), ShowFault>
    ensures { Adds printing.entry.limit (string_bytes line.old) (codes "T{ " ++ (image_names printing.entry.image.now).kind_name kind ++ codes " ") (string_bytes line.new) result }
{
    let limit = printing.limit;
    match add(line, limit, "T{ ") {
        Ok(()) => match add(line, limit, printing.image.kind_name(kind)) {
            Ok(()) => add(line, limit, " "),
            Err(fault) => Err(fault),
        },
        Err(fault) => Err(fault),
    }
}

// Adds what an object begins with.
fn add_head(line: &mut String, printing: Printing<'_>, number: u64) -> Result<(), ShowFault>
    ensures { Adds printing.entry.limit (string_bytes line.old) (head_of (image_names printing.entry.image.now) (slice_get printing.entry.store.now.objects number)) (string_bytes line.new) result }
{
    match printing.store.kind(number) {
        Some(kind) => add_class(line, printing, kind),
        None => match printing.store.elements(number) {
            Some(_) => add(line, printing.limit, "{ "),
            None => add(line, printing.limit, ""),
        },
    }
}

// Adds what an object ends with.
fn add_tail(line: &mut String, printing: Printing<'_>, number: u64) -> Result<(), ShowFault>
    ensures { Adds printing.entry.limit (string_bytes line.old) (tail_of (slice_get printing.entry.store.now.objects number)) (string_bytes line.new) result }
{
    match printing.store.kind(number) {
        Some(_) => add(line, printing.limit, "}"),
        None => match printing.store.elements(number) {
            Some(_) => add(line, printing.limit, "}"),
            None => add(line, printing.limit, ""),
        },
    }
}

// Adds a value and a space.
#[cycle(showing)]
fn add_spaced(
    line: &mut String,
    printing: Printing<'_>,
    value: Value,
    levels: usize,
) -> Result<(), ShowFault>
    ensures { Adds printing.entry.limit (string_bytes line.old) (stored_form printing.entry.store.now (image_names printing.entry.image.now) levels value ++ 32 ∷ []) (string_bytes line.new) result }
{
    match add_value(line, printing, value, levels) {
        Ok(()) => add(line, printing.limit, " "),
        Err(fault) => Err(fault),
    }
}

// Adds values, each with a space behind it.
#[cycle(showing)]
fn add_each(
    line: &mut String,
    printing: Printing<'_>,
    values: &[Value],
    levels: usize,
) -> Result<(), ShowFault>
    ensures { Adds printing.entry.limit (string_bytes line.old) (spaced (map (stored_form printing.entry.store.now (image_names printing.entry.image.now) levels) values.now)) (string_bytes line.new) result }
{
    for value in values {
        match add_spaced(line, printing, *value, levels) {
            Ok(()) => {}
            Err(fault) => return Err(fault),
        }
    }
    Ok(())
}

// Adds an object, whose values have so many levels.
#[cycle(showing)]
fn add_members(
    line: &mut String,
    printing: Printing<'_>,
    number: u64,
    levels: usize,
) -> Result<(), ShowFault>
    ensures { Adds printing.entry.limit (string_bytes line.old) (object_of printing.entry.store.now (image_names printing.entry.image.now) levels number) (string_bytes line.new) result }
{
    match add_head(line, printing, number) {
        Ok(()) => match add_each(line, printing, printing.store.object(number), levels) {
            Ok(()) => add_tail(line, printing, number),
            Err(fault) => Err(fault),
        },
        Err(fault) => Err(fault),
    }
}

// Adds an object with so many levels.
#[cycle(showing)]
fn add_object(
    line: &mut String,
    printing: Printing<'_>,
    number: u64,
    levels: usize,
) -> Result<(), ShowFault>
    ensures { Adds printing.entry.limit (string_bytes line.old) (object_form printing.entry.store.now (image_names printing.entry.image.now) levels number) (string_bytes line.new) result }
{
    if levels == 0 {
        return add(line, printing.limit, "...");
    }
    add_members(line, printing, number, levels - 1)
}

// Adds a value with so many levels.
#[cycle(showing)]
fn add_value(
    line: &mut String,
    printing: Printing<'_>,
    value: Value,
    levels: usize,
) -> Result<(), ShowFault>
    ensures { Adds printing.entry.limit (string_bytes line.old) (stored_form printing.entry.store.now (image_names printing.entry.image.now) levels value) (string_bytes line.new) result }
{
    match value {
        Value::Int(number) => add_integer(line, printing.limit, i128::from(number)),
        Value::Wide(high, low) => {
            add_integer(line, printing.limit, printing.store.wide(high, low))
        }
        Value::True => add(line, printing.limit, "t"),
        Value::False => add(line, printing.limit, "f"),
        Value::Text(number) => add_quoted(line, printing.limit, printing.store.text(number)),
        Value::Iota(number) => add_iota(line, printing.limit, i128::from(number)),
        Value::WideIota(high, low) => {
            add_iota(line, printing.limit, printing.store.wide(high, low))
        }
        Value::Word(word) => add(line, printing.limit, printing.image.word_name(word)),
        Value::Array(number) => add_object(line, printing, number, levels),
        Value::Tuple(number) => add_object(line, printing, number, levels),
        Value::Callable(_) => add(line, printing.limit, "[ ... ]"),
    }
}

/// The printed form of a value, where it has at most so many bytes. It stops as soon as it has more.
pub fn show(
    alloc: Global,
    image: &Image,
    store: &Store,
    value: Value,
    limit: usize,
) -> Result<Text, ShowFault>
    ensures { (w : World MValue) → w.objects ≡ objects_of store.now → IsShown limit (printed machine_values (image_names image.now) w (value_in (trees_of store.now) value)) result }
{
    let mut line = String::new(alloc);
    let printing = Printing {
        image,
        store,
        limit,
    };
    match add_value(&mut line, printing, value, MOST_PRINTED_LEVELS) {
        Ok(()) => Ok(Text::from_string(line)),
        Err(fault) => Err(fault),
    }
}
