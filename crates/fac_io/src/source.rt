//! Where bytes come from.
ghost use Rattle.std.specs.Prelude.{◌≡◌, ◌+◌, ◌<◌, ◌≤◌, List, Option, ℕ, length, IsErr, OnOk, MatchResult};
ghost use Rattle.std.specs.Io.{ReadsAtMost};
ghost use Rattle.std.specs.Io.KnownBytes.{ReadConsumes};
ghost use Rattle.fac_io.specs.Faults.{HasCause};

use thiserror::Error;

/// A read or a write failed, and the count of faults of its object rose.
#[derive(Clone, Copy, Debug, PartialEq, Eq, Error)]
#[error("a read or a write failed")]
pub struct Failed;

/// A source of bytes, with a count of its faults, which never falls.
///
/// That every failure is counted, and that a bound on the bytes to come is told, are this project's own rules: so a
/// caller can show that a failure came from outside, and that reading ends.
pub trait Source {
    /// The bytes left, where the source tells them.
    ghost left: { Self → Option (List ℕ) };

    /// The most bytes that it may still give.
    ghost may_give: { Self → ℕ };

    /// How often it has failed, up to the end of a `u64`.
    ghost faults: { Self → ℕ };

    /// Moves the first bytes left into the front of the buffer, and answers how many: 0 exactly where none is left.
    /// It may give fewer than there is room for. After a failure no byte is lost, and the buffer may hold anything.
    fn read(&mut self, buf: &mut [u8]) -> Result<usize, Failed>
        requires { 0 < length buf.old }
        ensures bound { ReadsAtMost result buf.new }
        ensures bytes { ReadConsumes (left self.old) (left self.new) result buf.new }
        ensures falls { MatchResult result (λ n. may_give self.new + n ≤ may_give self.old) (λ _. may_give self.new ≤ may_give self.old) }
        ensures cause { HasCause (faults self.old) (faults self.new) (IsErr result) }
        ensures no_fault { OnOk result (faults self.new ≡ faults self.old) };
}
