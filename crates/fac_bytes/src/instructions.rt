//! Instructions as bytes.
ghost use Rattle.std.specs.Prelude.{◌≡◌, ◌++◌, ◌≤◌, true, OnOk};
ghost use Rattle.fac_bytes.specs.Spellable.{are_few};
ghost use Rattle.fac_spelling.specs.Numbers.{greatest32};
ghost use Rattle.fac_spelling.specs.Choices.{bit};
ghost use Rattle.fac_spelling.specs.Reads.{Gives};
ghost use Rattle.fac_bytes.specs.Keeping.{operand_keeps, instr_keeps};
ghost use Rattle.fac_bytes.specs.InstructionBytes.{instr as instr_format, operand as operand_format, tail as tail_format, greatest as greatest_of, last_primitive as last_of, operand_bytes, outs_number as number_of_outs, height_of as height_read, tail_bytes};

use crate::part::{Part, Writable};
use fac_base::{Bytes, Height, Memory};
use fac_code::{INSTR_COUNT, Instr, Operand, Referent};
use fac_spelling::{ReadFault, read_number, read_wide, unzigzag, write_number, zigzag};
use std::alloc::Global;

/// The number of the last primitive.
#[tactic(auto, unfolding(fac_lang::specs::Primitives::built_count))]
pub fn last_primitive() -> u32
    ensures { result ≡ last_of }
{
    60
}

// The greatest number of such a thing that has a spelling.
fn greatest(referent: Referent) -> u32
    ensures { result ≡ greatest_of referent }
{
    match referent {
        Referent::Primitive => last_primitive(),
        _ => u32::MAX,
    }
}

// A height that was read, with the number of values that are left as bytes have it.
fn height_of(ins: u32, outs: u32) -> Height
    ensures { result ≡ height_read ins outs }
{
    if outs == 0 {
        return Height { ins, outs: None };
    }
    Height {
        ins,
        outs: Some(outs - 1),
    }
}

// How many values are left, as bytes have it.
fn outs_number(height: Height) -> u64
    ensures { result ≡ number_of_outs height.outs }
{
    match height.outs {
        None => 0,
        Some(outs) => u64::from(outs) + 1,
    }
}

// Adds the numbers of a height.
#[tactic(auto, using(crate::proofs::Written::written_two))]
fn write_height(out: &mut Bytes, height: Height) -> Result<(), Memory>
    ensures { OnOk result (out.new ≡ out.old ++ operand_bytes (Operand.Height height)) }
{
    write_number(out, u128::from(height.ins))?;
    write_number(out, u128::from(outs_number(height)))
}

// Adds the bytes of what an instruction is given.
#[tactic(auto, using(crate::proofs::Written::written_nothing))]
fn write_operand(out: &mut Bytes, operand: Operand) -> Result<(), Memory>
    ensures { OnOk result (out.new ≡ out.old ++ operand_bytes operand) }
{
    match operand {
        Operand::Nothing => Ok(()),
        Operand::Integer(integer) => write_number(out, zigzag(integer)),
        Operand::Height(height) => write_height(out, height),
        Operand::Number(_, number) => write_number(out, u128::from(number)),
    }
}

// A flag as a number.
fn flag_number(flag: bool) -> u128
    ensures { result ≡ bit flag }
{
    if flag {
        return 1;
    }
    0
}

// Adds the flag of an instruction that may be a tail call.
#[tactic(auto, using(crate::proofs::Written::written_nothing))]
fn write_tail(out: &mut Bytes, tail: Option<bool>) -> Result<(), Memory>
    ensures { OnOk result (out.new ≡ out.old ++ tail_bytes tail) }
{
    match tail {
        None => Ok(()),
        Some(tail) => write_number(out, flag_number(tail)),
    }
}

// Few values that are left have, with one more, a number of 32 bits.
fn outs_fit(_height: Height)
    requires { are_few _height.outs ≡ true }
    ensures { number_of_outs _height.outs ≤ greatest32 }
{
    match _height.outs {
        None => {}
        Some(_) => {}
    }
}

// What an instruction is given has a spelling where it is a primitive that there is, and leaves few values.
fn operand_fits(_operand: Operand)
    requires { operand_keeps _operand ≡ true }
    ensures { (operand_format _operand).Fits _operand }
{
    match _operand {
        Operand::Nothing => {}
        Operand::Integer(_) => {}
        Operand::Height(height) => outs_fit(height),
        Operand::Number(_, _) => {}
    }
}

// The operand at the front, of the kind of another one, and the bytes behind it.
fn read_operand(like: Operand, bytes: &[u8]) -> Result<(Operand, &[u8]), ReadFault>
    ensures { Gives (λ x. (x.0, x.1.now)) result ((operand_format like).read bytes.now) }
{
    match like {
        Operand::Nothing => Ok((Operand::Nothing, bytes)),
        Operand::Integer(_) => {
            let (number, rest) = read_wide(bytes, 0, u128::MAX)?;
            Ok((Operand::Integer(unzigzag(number)), rest))
        }
        Operand::Height(_) => {
            let (ins, rest) = read_number(bytes, 0, u32::MAX)?;
            let (outs, rest) = read_number(rest, 0, u32::MAX)?;
            Ok((Operand::Height(height_of(ins, outs)), rest))
        }
        Operand::Number(referent, _) => {
            let (number, rest) = read_number(bytes, 0, greatest(referent))?;
            Ok((Operand::Number(referent, number), rest))
        }
    }
}

// The flag at the front, where there is one, and the bytes behind it.
fn read_tail(like: Option<bool>, bytes: &[u8]) -> Result<(bool, &[u8]), ReadFault>
    ensures { Gives (λ x. (x.0, x.1.now)) result ((tail_format like).read bytes.now) }
{
    match like {
        None => Ok((false, bytes)),
        Some(_) => {
            let (flag, rest) = read_number(bytes, 0, 1)?;
            Ok((flag == 1, rest))
        }
    }
}

impl Writable for Instr {
    ghost format = { instr_format };

    ghost keeps = { instr_keeps };

    #[tactic(auto, using(crate::proofs::InstructionLaws::instr_fits))]
    fn fits(&self) {
        operand_fits(self.row().operand);
    }

    #[tactic(auto, using(crate::proofs::InstructionLaws::instr_written))]
    fn write(&self, out: &mut Bytes) -> Result<(), Memory> {
        let row = self.row();
        write_number(out, u128::from(row.code))?;
        write_operand(out, row.operand)?;
        write_tail(out, row.tail)
    }
}

impl Part for Instr {
    fn read(_alloc: Global, bytes: &[u8]) -> Result<(Instr, &[u8]), ReadFault> {
        let (code, rest) = read_number(bytes, 0, INSTR_COUNT - 1)?;
        let like = Instr::of(code, Operand::Nothing, false).row();
        let (operand, rest) = read_operand(like.operand, rest)?;
        let (tail, rest) = read_tail(like.tail, rest)?;
        Ok((Instr::of(code, operand, tail), rest))
    }
}
