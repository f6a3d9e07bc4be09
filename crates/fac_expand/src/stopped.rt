//! Why the making of code stopped.
use fac_base::Memory;

/// Why the making of code stopped.
#[derive(Debug, Drop)]
pub enum Stopped {
    /// There was too little memory.
    Memory,
    /// The code is to be left plain.
    Plain,
}

impl From<Memory> for Stopped {
    fn from(_memory: Memory) -> Stopped {
        Stopped::Memory
    }
}
