// An outlet that tells how many requests are answered.
ghost use Rattle.std.specs.Prelude.{◌≡◌};

use crate::outlet::Outlet;
use crate::watch::Watch;
use engine_core::types::Stamped;
use pm_region::SplitRegion;
use std::alloc::Global;

/// The same outlet. A watch is told before it takes a window's replies, and behind that how many requests are answered.
#[derive(Drop)]
pub struct WatchedOutlet<'a, O, W> {
    /// What takes the replies.
    pub outlet: O,
    /// Who is told.
    pub watch: &'a mut W,
    /// How many requests were answered so far.
    pub answered: u64,
}

impl<'a, O: Outlet, W: Watch> WatchedOutlet<'a, O, W> {
    /// Before the first window. It takes no memory.
    pub fn of(outlet: O, watch: &'a mut W) -> WatchedOutlet<'a, O, W>
        ensures { result.outlet ≡ outlet }
    {
        WatchedOutlet {
            outlet,
            watch,
            answered: 0,
        }
    }
}

impl<'a, O: Outlet, W: Watch> Outlet for WatchedOutlet<'a, O, W> {
    ghost takes = { λ s old replies heard t new. O.takes s old.outlet replies heard t new.outlet };

    fn take_window<R: SplitRegion>(
        &mut self,
        alloc: Global,
        region: &mut R,
        answers: &[Option<Stamped>],
    ) -> bool {
        self.watch.pauses();
        let heard = self.outlet.take_window(alloc, region, answers);
        self.answered = self.answered.wrapping_add(answers.len() as u64);
        self.watch.answered(self.answered);
        heard
    }
}
