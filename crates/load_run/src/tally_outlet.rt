// Replies that are counted behind their window.
ghost use Rattle.std.specs.Prelude.{◌≡◌, []};
ghost use Rattle.load_tally.specs.Tallied.{IsWithin, tally_of};
ghost use Rattle.load_run.specs.Counted.{CountsMore};

use crate::answer_counts::add_answers;
use engine_core::types::Stamped;
use fs_text::LoadTally;
use load_tally::nothing;
use pm_region::SplitRegion;
use std::alloc::Global;
use thread_engine::outlet::Outlet;

/// Counts the replies of each window. It takes all of them, unless they are more than can be counted.
#[derive(Clone, Copy, Debug)]
pub struct TallyOutlet {
    /// Of the replies so far. Of live pairs it has none.
    pub tally: LoadTally,
    ghost within: { IsWithin tally },
}

impl TallyOutlet {
    /// Before the first window.
    pub fn new() -> TallyOutlet
        ensures { result.tally ≡ tally_of [] [] }
    {
        TallyOutlet { tally: nothing() }
    }
}

impl Outlet for TallyOutlet {
    ghost takes = { λ s old rs heard t new. (t ≡ s) × CountsMore old.tally rs heard new.tally };

    fn take_window<R: SplitRegion>(
        &mut self,
        _alloc: Global,
        _region: &mut R,
        answers: &[Option<Stamped>],
    ) -> bool {
        let all = self.tally.requests.checked_add(answers.len() as u64);
        if all.is_none() {
            return false;
        }
        add_answers(&mut self.tally, answers);
        true
    }
}
