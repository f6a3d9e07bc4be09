//! Why a case has no value.
use fac_base::Memory;
use fac_spelling::{ReadFault, WholeFault};

/// Why a case has no value.
#[derive(Clone, Copy, Debug, PartialEq, Eq)]
pub enum Stop {
    /// Memory ran out.
    Memory,
    /// `at` is the first byte with which no value's bytes go on, or the number of bytes.
    Broken { at: usize },
}

impl From<Memory> for Stop {
    ghost from_gives = { λ _ _. Unit {0} };

    fn from(_: Memory) -> Self {
        Stop::Memory
    }
}

impl From<WholeFault> for Stop {
    ghost from_gives = { λ _ _. Unit {0} };

    fn from(fault: WholeFault) -> Self {
        match fault {
            WholeFault::Memory => Stop::Memory,
            WholeFault::Broken { at } => Stop::Broken { at },
        }
    }
}

/// Where a reader stopped in these bytes. No more are left than there are.
pub fn place(bytes: &[u8], fault: ReadFault) -> Stop {
    match fault {
        ReadFault::Memory => Stop::Memory,
        ReadFault::Refused { left } => Stop::Broken {
            at: bytes.len().saturating_sub(left),
        },
    }
}
