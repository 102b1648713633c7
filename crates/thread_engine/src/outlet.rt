// What the replies of a run are handed to.
ghost use Rattle.std.specs.Prelude.{◌≡◌, ℕ, List, Bool, map};
ghost use Rattle.fs_model.specs.declared.model.Reply as replies;
ghost use Rattle.pm_region.specs.State.{State};
ghost use Rattle.engine_core.specs.Reports.{reply_in};
ghost use Rattle.thread_engine.specs.Outlets.{IsAsked};

use engine_core::types::Stamped;
use pm_region::SplitRegion;
use std::alloc::Global;

/// What takes the replies of a run, window by window, in the order of the requests.
pub trait Outlet {
    // What it makes of replies, with the region that is split: whether it took them, and what both are then.
    ghost takes: { State → Self → List replies.Reply → Bool → State → Self → Type 0 };

    /// Takes the answers of a window, while no core works, and answers whether it did. It may ask the region, whose pieces
    /// the cores have, whether it is in its place.
    fn take_window<R: SplitRegion>(
        &mut self,
        alloc: Global,
        region: &mut R,
        answers: &[Option<Stamped>],
    ) -> bool
        ensures took { takes (R.state region.old) self.old (map reply_in answers.now) result
            (R.state region.new) self.new }
        ensures asked { IsAsked (R.state region.old) (R.state region.new) };
}
