//! How many entries of a name are gone through one by one.
ghost use Rattle.std.specs.Prelude.{◌≡◌, take};

/// So many entries of a name come first. Those behind them are late, and are found by their vocabularies.
pub const FEW: usize = 8;

/// The first few numbers.
pub fn first_few(numbers: &[u32]) -> &[u32]
    ensures { result.now ≡ take FEW numbers.now }
{
    if numbers.len() <= FEW {
        numbers
    } else {
        &numbers[..FEW]
    }
}
