//! Where bytes come from and go to: sources, sinks and named files, in memory and over the runtime.
//!
//! Each object counts its faults. A failure is answered only where that count rose, so whoever hands the object in can
//! tell a failure of the outside from any other answer. Want of memory is no fault.
#![tactic(auto)]

mod files;
mod mem_files;
mod mem_sink;
mod mem_source;
mod real;
mod sink;
mod source;

pub use files::{Asked, Files, LoadFault, SaveFault};
pub use mem_files::MemFiles;
pub use mem_sink::MemSink;
pub use mem_source::MemSource;
pub use real::{RealFiles, RealSink, RealSource};
pub use sink::Sink;
pub use source::{Failed, Source};
