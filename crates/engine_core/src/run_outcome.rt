// What a run comes to: its report, and how it ended.
ghost use Rattle.std.specs.Prelude.{◌≡◌};
ghost use Rattle.engine_core.specs.Endings.{end_by, outcome_by};

use crate::run_report::{Finish, Refusal, Report};
use fs_model::{Memory, Reply};

/// How a run ended.
#[derive(Clone, Copy, Debug, PartialEq, Eq)]
pub enum End {
    /// Every request was answered, and no core has stopped.
    Complete,
    /// Every request was answered, and a core has stopped: a call of the region failed.
    RegionFault,
    /// There was no memory to go on. What was answered until then is in the report.
    Memory,
}

/// The replies in the order of the requests, the finishes and refusals among them by rising number, and how the run
/// ended. The requests are those that were given, all but at want of memory. One without an answer is replied to as one
/// that is stopped.
#[derive(Drop)]
pub struct Outcome {
    /// One for each request.
    pub replies: Vec<Reply>,
    /// The requests that were answered Stored or Deleted.
    pub finishes: Vec<Finish>,
    /// The requests that were answered Full, VersionsSpent or TooLong, with the cause.
    pub refusals: Vec<Refusal>,
    /// Whether all was answered, and why not.
    pub end: End,
}

/// How a run ended, by what it answered and whether a core has stopped.
pub fn end_of(stopped: bool, run: Result<(), Memory>) -> End
    ensures { result ≡ end_by stopped run }
{
    match run {
        Err(Memory) => End::Memory,
        Ok(()) => {
            if stopped {
                End::RegionFault
            } else {
                End::Complete
            }
        }
    }
}

impl Outcome {
    /// The outcome that has this report, of a run that ended so. It takes no memory.
    pub fn of(report: Report, end: End) -> Outcome
        ensures { result ≡ outcome_by report end }
    {
        Outcome {
            replies: report.replies,
            finishes: report.finishes,
            refusals: report.refusals,
            end,
        }
    }
}
