// The finishes that a report names.
ghost use Rattle.std.specs.Prelude.{◌≡◌, []};
ghost use Rattle.flatstore_commands.specs.Finished.{finishes_of};

use engine_core::run_report::Finish;
use std::alloc::Global;

/// The requests that were answered `Stored` or `Deleted`, by rising number, each with the region's stamp after the move
/// that fixed its answer.
#[derive(Drop)]
pub enum Finishes {
    /// Each with a stamp of its own.
    Each(Vec<Finish>),
    /// Of the requests from the first on, whether each is one of them. All have the same stamp.
    Alike { finished: Vec<bool>, stamp: u64 },
}

impl Finishes {
    /// None. It takes no memory.
    pub fn none(alloc: Global) -> Finishes
        ensures { finishes_of result ≡ [] }
    {
        Finishes::Each(Vec::new(alloc))
    }
}
