//! Endings in which nothing ran.
ghost use Rattle.std.specs.Prelude.{◌≡◌};
ghost use Rattle.fac_explainer.specs.Explains.{bare as bare_ending, status_if, told as told_ending};

use fac_notes::status::SUCCESS;
use fac_tool::{Ended, Report};

/// An ending without a refusal.
pub fn bare(status: u8) -> Ended
    ensures { result ≡ bare_ending status }
{
    Ended {
        status,
        ticks: 0,
        stack: None,
        refusal: None,
    }
}

// The exit status of a refusal, or of none.
fn status_of(refusal: &Option<Report>) -> u8
    ensures { result ≡ status_if refusal.now }
{
    match refusal {
        None => SUCCESS,
        Some(report) => report.status(),
    }
}

/// The ending by a refusal, or without one.
pub fn told(refusal: Option<Report>) -> Ended
    ensures { result ≡ told_ending refusal }
{
    Ended {
        status: status_of(&refusal),
        ticks: 0,
        stack: None,
        refusal,
    }
}
