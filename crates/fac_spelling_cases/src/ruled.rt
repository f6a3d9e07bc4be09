//! Even numbers, which have a rule besides their spelling.
ghost use Rattle.fac_spelling.specs.Numbers.{number32};

use crate::stop::Stop;
use crate::telling::{tell, tell_again};
use crate::wholes::number_is_exact;
use fac_base::{Bytes, Text};
use fac_spelling::{ReadFault, Ruled, Spelled, read_all_ruled, read_number, write_number};
use std::alloc::Global;
use std::marker::Model;

// A number of 32 bits.
#[derive(Drop)]
struct Even {
    number: u32,
}

impl Model for Even {
    ghost use Rattle.std.specs.Prelude.{ℕ};

    ghost Value = { ℕ };

    ghost view = { λ even. even.number };
}

impl Spelled for Even {
    ghost format = { number32 };

    fn read(_alloc: Global, bytes: &[u8]) -> Result<(Even, &[u8]), ReadFault> {
        let (number, rest) = read_number(bytes, 0, u32::MAX)?;
        Ok((Even { number }, rest))
    }
}

impl Ruled for Even {
    ghost use Rattle.std.specs.Prelude.{◌%◌, nat_eq};

    ghost rule = { λ number. nat_eq (number % 2) 0 };

    fn keeps(&self) -> bool {
        self.number % 2 == 0
    }
}

/// All of the bytes as a number of 32 bits, which keeps the rule that it is even.
pub fn even_number(alloc: Global, bytes: &[u8]) -> Result<Text, Stop> {
    number_is_exact();
    let number = read_all_ruled::<Even>(alloc, bytes)?.number;
    let mut told = tell(alloc, &number)?;
    let mut out = Bytes::new(alloc);
    write_number(&mut out, u128::from(number))?;
    tell_again(&mut told, &mut out, b"".as_slice(), bytes)?;
    Ok(told)
}
