//! What is worked in pieces, and who is told of it.
ghost use Rattle.std.specs.Prelude.{IfOk};

use fac_base::Memory;

/// A piece of work, which is done by one thread.
pub trait Piece {
    type Out: Send + Drop;

    /// What a piece needs for its work.
    ghost ready: { Self → Type 0 };

    /// What the result of a piece is to meet.
    ghost meets: { Self → Self.Out → Type 0 };

    /// Does the work.
    fn work(&self) -> Result<Self::Out, Memory>
        requires { ready self.now }
        ensures { IfOk result (λ out. meets self.now out) };
}

/// Is told where the work of a piece begins and where it ends, by the thread that does it. It can change nothing of the work.
pub trait Gate {
    /// The work of this piece begins. Pieces are counted from 0, in the order of the list.
    fn begun(&self, piece: u64);

    /// It has ended, or memory was wanted in it.
    fn ended(&self, piece: u64);
}

/// A gate that does nothing.
#[derive(Clone, Copy)]
pub struct NoGate;

impl Gate for NoGate {
    fn begun(&self, _piece: u64) {}

    fn ended(&self, _piece: u64) {}
}
