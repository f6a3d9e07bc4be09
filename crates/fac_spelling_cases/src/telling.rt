//! How what was read is told.
use fac_base::{Bytes, List, Memory, Text};
use fac_num::write_int;
use std::alloc::Global;

/// A type whose values are told by a text.
pub trait Told {
    /// Puts what the value is behind a text.
    fn tell(&self, told: &mut Text) -> Result<(), Memory>;
}

impl Told for u32 {
    fn tell(&self, told: &mut Text) -> Result<(), Memory> {
        write_int(i128::from(*self), told)
    }
}

impl Told for i128 {
    fn tell(&self, told: &mut Text) -> Result<(), Memory> {
        write_int(*self, told)
    }
}

impl Told for Text {
    fn tell(&self, told: &mut Text) -> Result<(), Memory> {
        told.push_str("\"")?;
        told.push_str(self.as_str())?;
        told.push_str("\"")
    }
}

impl<T: Told + Drop> Told for Option<T> {
    fn tell(&self, told: &mut Text) -> Result<(), Memory> {
        match self {
            None => told.push_str("none"),
            Some(value) => {
                told.push_str("some ")?;
                value.tell(told)
            }
        }
    }
}

impl<A: Told + Drop, B: Told + Drop> Told for (A, B) {
    fn tell(&self, told: &mut Text) -> Result<(), Memory> {
        self.0.tell(told)?;
        told.push_str(": ")?;
        self.1.tell(told)
    }
}

impl<T: Told + Drop> Told for List<T> {
    fn tell(&self, told: &mut Text) -> Result<(), Memory> {
        told.push_str("[")?;
        let mut between = "";
        for value in self.as_slice() {
            told.push_str(between)?;
            value.tell(told)?;
            between = ", ";
        }
        told.push_str("]")
    }
}

/// Tells a value.
pub fn tell<T: Told>(alloc: Global, value: &T) -> Result<Text, Memory> {
    let mut told = Text::new(alloc);
    value.tell(&mut told)?;
    Ok(told)
}

/// Tells behind a value how many bytes are left.
pub fn tell_left(told: &mut Text, rest: &[u8]) -> Result<(), Memory> {
    told.push_str(", left ")?;
    write_int(rest.len() as i128, told)
}

/// Tells behind a value whether what was written, and behind it what is left, are the bytes again.
pub fn tell_again(
    told: &mut Text,
    out: &mut Bytes,
    rest: &[u8],
    bytes: &[u8],
) -> Result<(), Memory> {
    out.extend(rest)?;
    if out.as_slice() == bytes {
        told.push_str(", written so")
    } else {
        told.push_str(", written otherwise")
    }
}
