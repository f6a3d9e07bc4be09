//! The lines of a listing.
ghost use Rattle.std.specs.Prelude.{◌≡◌, ◌-◌, ◌∷◌, ◌++◌, decimal, length, replicate, OnOk, IfOk};
ghost use Rattle.std.specs.Fmt.{signed_decimal};
ghost use Rattle.fac_bytes.specs.Listings.{aligned, flag, instr_line, instr_text, left_number, lines_from, listing as listing_of, operand_text, spaced, start_line, tail_text};

use fac_base::{Height, Memory, Text};
use fac_code::{Image, Instr, Operand};
use fac_num::write_int;
use itoa::Buffer;
use std::alloc::Global;

// Adds a number.
fn push_number(text: &mut Text, number: u64) -> Result<(), Memory>
    ensures { OnOk result (text.new ≡ text.old ++ decimal number) }
{
    let mut buffer = Buffer::new();
    text.push_str(buffer.format(number))
}

// Adds a space and a number.
fn push_operand(text: &mut Text, number: u64) -> Result<(), Memory>
    ensures { OnOk result (text.new ≡ text.old ++ spaced number) }
{
    text.push_ascii(b' ')?;
    push_number(text, number)
}

// Whether a call is a tail call, as a number.
fn number_of_flag(tail: bool) -> u64
    ensures { result ≡ flag tail }
{
    if tail { 1 } else { 0 }
}

// How many values a callable leaves, as a number.
fn number_left(outs: Option<u32>) -> u64
    ensures { result ≡ left_number outs }
{
    match outs {
        None => 0,
        Some(outs) => u64::from(outs) + 1,
    }
}

// Adds a space and an integer.
fn push_integer(text: &mut Text, value: i128) -> Result<(), Memory>
    ensures { OnOk result (text.new ≡ text.old ++ 32 ∷ signed_decimal value) }
{
    text.push_ascii(b' ')?;
    write_int(value, text)
}

// Adds the numbers of an effect.
fn push_height(text: &mut Text, height: Height) -> Result<(), Memory>
    ensures { OnOk result (text.new ≡ text.old ++ operand_text (Operand.Height height)) }
{
    push_operand(text, u64::from(height.ins))?;
    push_operand(text, number_left(height.outs))
}

// Adds what an instruction is given.
fn push_given(text: &mut Text, operand: Operand) -> Result<(), Memory>
    ensures { OnOk result (text.new ≡ text.old ++ operand_text operand) }
{
    match operand {
        Operand::Nothing => Ok(()),
        Operand::Integer(value) => push_integer(text, value),
        Operand::Height(height) => push_height(text, height),
        Operand::Number(_, number) => push_operand(text, u64::from(number)),
    }
}

// Adds whether an instruction that may be a tail call is one.
fn push_tail(text: &mut Text, tail: Option<bool>) -> Result<(), Memory>
    ensures { OnOk result (text.new ≡ text.old ++ tail_text tail) }
{
    match tail {
        None => Ok(()),
        Some(tail) => push_operand(text, number_of_flag(tail)),
    }
}

// Adds an instruction with its operands.
fn push_instr(text: &mut Text, instr: Instr) -> Result<(), Memory>
    ensures { OnOk result (text.new ≡ text.old ++ instr_text instr) }
{
    let row = instr.row();
    text.push_str(row.name)?;
    push_given(text, row.operand)?;
    push_tail(text, row.tail)
}

// Adds so many spaces.
fn push_spaces(text: &mut Text, count: usize) -> Result<(), Memory>
    ensures { OnOk result (text.new ≡ text.old ++ replicate count 32) }
{
    for _ in 0..count {
        text.push_ascii(b' ')?;
    }
    Ok(())
}

// Adds digits in at least eight places.
fn push_digits(text: &mut Text, digits: &str) -> Result<(), Memory>
    ensures { OnOk result (text.new ≡ text.old ++ (replicate (8 - length digits.now) 32 ++ digits.now)) }
{
    push_spaces(text, 8usize.saturating_sub(digits.len()))?;
    text.push_str(digits)
}

// Adds a place in at least eight places.
fn push_aligned(text: &mut Text, place: u64) -> Result<(), Memory>
    ensures { OnOk result (text.new ≡ text.old ++ aligned place) }
{
    let mut buffer = Buffer::new();
    push_digits(text, buffer.format(place))
}

// Adds the line of an instruction at a place.
fn push_line(text: &mut Text, place: u64, instr: Instr) -> Result<(), Memory>
    ensures { OnOk result (text.new ≡ text.old ++ instr_line place instr) }
{
    push_aligned(text, place)?;
    text.push_ascii(b' ')?;
    push_instr(text, instr)?;
    text.push_ascii(b'\n')
}

// Adds the lines of the instructions.
fn push_lines(text: &mut Text, code: &[Instr]) -> Result<(), Memory>
    ensures { OnOk result (text.new ≡ text.old ++ lines_from 0 code.now) }
{
    let mut place = 0u64;
    for instr in code {
        push_line(text, place, *instr)?;
        place += 1;
    }
    Ok(())
}

/// The code of an image as text: for each instruction a line with its place in eight columns, its name and its operands, and last the place
/// where a run begins. Want of memory is the one error.
pub fn listing(alloc: Global, image: &Image) -> Result<Text, Memory>
    ensures { IfOk result (λ text. text ≡ listing_of image.now) }
{
    let mut text = Text::new(alloc);
    push_lines(&mut text, image.code.as_slice())?;
    text.push_str("start ")?;
    push_number(&mut text, u64::from(image.start))?;
    text.push_str("\n")?;
    Ok(text)
}
