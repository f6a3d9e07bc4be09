//! Literal arrays, class sets and texts as parts.
ghost use Rattle.std.specs.Prelude.{◌≡◌, true};
ghost use Rattle.fac_bytes.specs.Spellable.{is_short};
ghost use Rattle.fac_spelling.specs.Lists.{counted, ascending};
ghost use Rattle.fac_spelling.specs.Texts.{text};
ghost use Rattle.fac_bytes.specs.Ascending.{ascends};
ghost use Rattle.fac_bytes.specs.RowBytes.{elem};

use crate::part::{Part, Writable, list_fits, read_list, write_list};
use fac_base::{Bytes, List, Memory, Text};
use fac_code::Elem;
use fac_spelling::{ReadFault, Spelled, Writes, numbers_fit, read_ascending, write_ascending};
use std::alloc::Global;

impl Writable for Text {
    ghost format = { text };

    ghost keeps = { is_short };

    fn fits(&self) {
        self.as_str();
    }

    fn write(&self, out: &mut Bytes) -> Result<(), Memory> {
        <Text as Writes>::write(self, out)
    }
}

impl Part for Text {
    fn read(alloc: Global, bytes: &[u8]) -> Result<(Text, &[u8]), ReadFault> {
        <Text as Spelled>::read(alloc, bytes)
    }
}

// A literal array.
impl Writable for List<Elem> {
    ghost format = { counted elem };

    ghost keeps = { λ _. true };

    fn fits(&self) {
        list_fits(self);
    }

    fn write(&self, out: &mut Bytes) -> Result<(), Memory> {
        write_list(self, out)
    }
}

impl Part for List<Elem> {
    fn read(alloc: Global, bytes: &[u8]) -> Result<(List<Elem>, &[u8]), ReadFault> {
        read_list(alloc, bytes)
    }
}

// A class set.
impl Writable for List<u32> {
    ghost format = { ascending };

    ghost keeps = { ascends 0 };

    fn fits(&self) {
        let _count = self.len();
        numbers_fit(self.as_slice());
    }

    fn write(&self, out: &mut Bytes) -> Result<(), Memory> {
        write_ascending(self.as_slice(), out)
    }
}

impl Part for List<u32> {
    fn read(alloc: Global, bytes: &[u8]) -> Result<(List<u32>, &[u8]), ReadFault> {
        read_ascending(alloc, bytes)
    }
}
