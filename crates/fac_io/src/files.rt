//! Named files.
ghost use Rattle.std.specs.Prelude.{◌≡◌, List, Option, ℕ};
ghost use Rattle.fac_io.specs.Names.{Held};
ghost use Rattle.fac_io.specs.Told.{Stays};
ghost use Rattle.fac_io.specs.Files.{LoadAnswers, LoadAsks, LoadCounts, SaveLeaves, SaveAsks, SaveCounts};

use fac_base::{Bytes, Memory, Text};
use std::alloc::Global;
use thiserror::Error;

/// One call of a `Files`, with the name that it was given.
#[derive(Debug, Drop, PartialEq, Eq)]
pub enum Asked {
    /// A load, whatever it answered but want of memory.
    Load(Text),
    /// A save, whatever it answered but want of memory.
    Save(Text),
}

/// Why a load gave no bytes.
#[derive(Clone, Copy, Debug, PartialEq, Eq, Error)]
pub enum LoadFault {
    /// There is no such name, or its bytes could not be read. The count of faults rose.
    #[error("the file was not read")]
    Failed,
    /// The bytes are more than the limit. This is no fault: the count stays.
    #[error("the file is too long")]
    TooLong,
    /// A growth was refused. This is no fault and no call: the count and the list of calls stay.
    #[error("out of memory")]
    Memory,
}

/// Why a save was not done.
#[derive(Clone, Copy, Debug, PartialEq, Eq, Error)]
pub enum SaveFault {
    /// The bytes could not be written. The count of faults rose, and the name may hold anything or be gone.
    #[error("the file was not written")]
    Failed,
    /// A growth was refused. This is no fault and no call: all is as before.
    #[error("out of memory")]
    Memory,
}

impl From<Memory> for LoadFault {
    ghost use Rattle.fac_io.specs.declared.files.LoadFault.TheVariants.{Memory};

    ghost from_gives = { λ _ fault. fault ≡ Memory };

    fn from(_: Memory) -> Self {
        LoadFault::Memory
    }
}

impl From<Memory> for SaveFault {
    ghost use Rattle.fac_io.specs.declared.files.SaveFault.TheVariants.{Memory};

    ghost from_gives = { λ _ fault. fault ≡ Memory };

    fn from(_: Memory) -> Self {
        SaveFault::Memory
    }
}

/// Named files, with a count of their faults, which never falls.
pub trait Files {
    ghost use Rattle.fac_io.specs.declared.files.Asked.{Asked};

    /// What each name holds, where it is told.
    ghost held: { Self → Option Held };

    /// The calls so far, the oldest first, where they are told.
    ghost asked: { Self → Option (List Asked) };

    /// How often a call has failed, up to the end of a `u64`.
    ghost faults: { Self → ℕ };

    /// The bytes of a name, where they are at most `limit` bytes. A missing name is a fault.
    fn load(&mut self, alloc: Global, name: &str, limit: u64) -> Result<Bytes, LoadFault>
        ensures answer { LoadAnswers (held self.old) name.now limit result }
        ensures held { Stays (held self.old) (held self.new) }
        ensures asked { LoadAsks name.now (asked self.old) (asked self.new) result }
        ensures counts { LoadCounts (faults self.old) (faults self.new) result };

    /// Puts the bytes under the name, in place of what it held.
    fn save(&mut self, alloc: Global, name: &str, bytes: &[u8]) -> Result<(), SaveFault>
        ensures held { SaveLeaves name.now bytes.now (held self.old) (held self.new) result }
        ensures asked { SaveAsks name.now (asked self.old) (asked self.new) result }
        ensures counts { SaveCounts (faults self.old) (faults self.new) result };
}
