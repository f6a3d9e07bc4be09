//! Where bytes go to.
ghost use Rattle.std.specs.Prelude.{◌≡◌, ◌<◌, List, Option, ℕ, length, IsErr, OnOk, OnErr};
ghost use Rattle.fac_io.specs.Faults.{HasCause};
ghost use Rattle.fac_io.specs.Told.{Grows, GrowsByPrefix, Took, sink_tells};

use crate::Failed;

/// A sink of bytes, with a count of its faults, which never falls.
pub trait Sink {
    /// The bytes taken so far, where the sink tells them.
    ghost taken: { Self → Option (List ℕ) };

    /// The pieces in which it took them, one for each write that it took anything of, the oldest first, where it tells them.
    ghost pieces: { Self → Option (List (List ℕ)) };

    /// How often it has failed, up to the end of a `u64`.
    ghost faults: { Self → ℕ };

    /// Takes the whole piece, or at a failure a prefix of it, which may be empty or the whole.
    fn write(&mut self, piece: &[u8]) -> Result<(), Failed>
        requires { 0 < length piece.now }
        ensures ok { OnOk result (Grows (taken self.old) (taken self.new) piece.now) }
        ensures err { OnErr result (GrowsByPrefix (taken self.old) (taken self.new) piece.now) }
        ensures took { Took (sink_tells (taken self.old) (pieces self.old)) (sink_tells (taken self.new) (pieces self.new)) piece.now result }
        ensures cause { HasCause (faults self.old) (faults self.new) (IsErr result) }
        ensures no_fault { OnOk result (faults self.new ≡ faults self.old) };
}
