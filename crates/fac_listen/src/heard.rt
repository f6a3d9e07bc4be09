//! How a session ends.
use fac_notes::Report;

/// The exit status with which a session ends, the sum of the ticks of its lines, and the refusal.
#[derive(Drop)]
pub struct Heard {
    pub status: u8,
    /// It stays at the greatest `u64` once it would pass that.
    pub ticks: u64,
    /// That of the prelude, of the text that waits at the end of the input, or of a line that is too long.
    pub refusal: Option<Report>,
}
