//! How a call ends.
ghost use Rattle.std.specs.Prelude.{◌≡◌};
ghost use Rattle.fac_tool.specs.Answers.{heard_ending};
ghost use Rattle.fac_tool.specs.inner.StepEnds.{bare as bare_ending, reported as reported_ending};

use fac_base::{List, Text};
use fac_listen::Heard;
use fac_notes::Report;

/// A call's exit status, the ticks of its run, the stack that it left and the refusal.
#[derive(Drop)]
pub struct Ended {
    pub status: u8,
    /// 0 without a run.
    pub ticks: u64,
    /// At status 0 of a run the texts of its values, from the bottom to the top.
    pub stack: Option<List<Text>>,
    pub refusal: Option<Report>,
}

/// An ending with neither a stack nor a refusal.
pub fn bare(status: u8, ticks: u64) -> Ended
    ensures { result ≡ bare_ending status ticks }
{
    Ended {
        status,
        ticks,
        stack: None,
        refusal: None,
    }
}

/// An ending by a report, with its status.
pub fn reported(ticks: u64, report: Report) -> Ended
    ensures { result ≡ reported_ending ticks report }
{
    Ended {
        status: report.status(),
        ticks,
        stack: None,
        refusal: Some(report),
    }
}

/// The ending of a session of the listener, which tells no stack.
pub fn ended_of(heard: Heard) -> Ended
    ensures { result ≡ heard_ending heard }
{
    Ended {
        status: heard.status,
        ticks: heard.ticks,
        stack: None,
        refusal: heard.refusal,
    }
}
