// What a worker gives back.
ghost use Rattle.std.specs.Prelude.{◌≡◌, ℕ, false};
ghost use Rattle.group_laws.specs.Places.{Place as PlaceOf};
ghost use Rattle.group_laws.specs.MemberViews.{View};
ghost use Rattle.pm_region.specs.State.{State};
ghost use Rattle.core_worker.specs.Ties.{Holds, Stands};
ghost use Rattle.core_worker.specs.Order.{InOrder};
ghost use Rattle.core_worker.specs.Status.{is_leading, is_pending};
ghost use Rattle.core_worker.specs.GivenBack.{GivesBack, IsGivenBack, NamesGiven};
ghost use Rattle.core_worker.specs.Outbox.{as_told};

use crate::worker::Worker;
use recover::CoreStart;

impl Worker {
    /// Ends a worker of which nothing is pending and that isn't leading. It gives back what a worker of its core may
    /// begin with: its log, its free room, its keys, and what stands in its log. Until it stopped or wound down these
    /// are what its view has, the names where its region tells; answers that were not given out are dropped, and dead
    /// names that wait to be sent to other members count as told.
    pub fn stop(self) -> CoreStart
        requires idle { is_pending self ≡ false }
        requires free { is_leading self.leading ≡ false }
        ensures parts { GivesBack self result }
        ensures view { (p : PlaceOf) (m : ℕ) (v : View) → Holds p m v self → InOrder p m v self
            → self.stopped ≡ false → self.winds_down ≡ false
            → IsGivenBack p m (as_told self v) result }
        ensures names { (s : State) (p : PlaceOf) (m : ℕ) (v : View) → Stands s p m v self
            → self.stopped ≡ false → self.winds_down ≡ false → NamesGiven s m v result }
    {
        let Worker {
            core,
            log,
            allocator,
            index,
            standing,
            ..
        } = self;
        CoreStart {
            core,
            log,
            allocator,
            index,
            standing,
        }
    }
}
