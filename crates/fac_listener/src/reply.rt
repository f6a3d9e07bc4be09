//! What is answered of a line.
use fac_notes::Report;

/// The reply to a line. Ticks are those of its phrase.
#[derive(Drop)]
pub enum Reply {
    /// The text waits for its end, and the next line is put behind it.
    More(Report),
    /// The text has definitions alone, which stand.
    Defined,
    /// The phrase ran, its definitions and its stack stand, and the stack was written.
    Ran { ticks: u64 },
    /// The text is refused, and all is as it was before it.
    Refused(Report),
    /// The phrase failed. Its definitions stand, the stack is that of before, and objects keep their changes.
    Failed { error: Report, ticks: u64 },
    /// The phrase used up its budget. What stands is as behind a failure.
    Spent { ticks: u64 },
    /// The input failed, and the session has ended.
    InputFault { ticks: u64 },
    /// A write failed, and the session has ended.
    WriteFault { ticks: u64 },
    /// Memory was wanted, and the session has ended.
    Memory { ticks: u64 },
}
