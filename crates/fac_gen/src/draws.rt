//! Numbers that are drawn from a seed.
ghost use Rattle.std.specs.Prelude.{◌≡◌, ◌<◌};
ghost use Rattle.fac_gen.specs.Generated.{drawn_of, next_state};

// How many states there are.
const STATES: u64 = 2_147_483_648;

/// The state behind one.
pub fn next(state: u64) -> u64
    requires { state < 4294967296 }
    ensures is { result ≡ next_state state }
    ensures within { result < 2147483648 }
{
    (state * 1_103_515_245 + 12_345) % STATES
}

/// Which of so many numbers, counted from 0, is drawn at a state.
pub fn drawn(count: u64, state: u64) -> u64
    requires { 0 < count }
    ensures is { result ≡ drawn_of count state }
{
    state / 65_536 % count
}
