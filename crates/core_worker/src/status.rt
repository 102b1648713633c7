// What a worker tells of itself, and how it is told to wind down.
ghost use Rattle.std.specs.Prelude.{◌≡◌, ℕ, ◌∷◌, [], length, true, MatchOption};
ghost use Rattle.pm_region.specs.State.{State};
ghost use Rattle.group_laws.specs.Places.{Place as PlaceOf};
ghost use Rattle.group_laws.specs.MemberViews.{View};
ghost use Rattle.core_worker.specs.Ties.{Holds, Stands};
ghost use Rattle.core_worker.specs.Order.{InOrder};
ghost use Rattle.core_worker.specs.WorkerMoves.{hands_of};
ghost use Rattle.core_worker.specs.Beginning.{answers_of};
ghost use Rattle.core_worker.specs.Status.{any_free, all_free, has_room, is_leading, is_pending};

use crate::types::{Answer, Leading, Place};
use crate::worker::Worker;

// How many requests may wait.
pub(crate) const WAITING: u32 = 64;

fn any_free(places: &Vec<Place>) -> bool
    ensures { result ≡ any_free places.now.items }
{
    for place in places {
        if let Place::Free = place {
            return true;
        }
    }
    false
}

fn all_free(places: &Vec<Place>) -> bool
    ensures { result ≡ all_free places.now.items }
{
    for place in places {
        match place {
            Place::Free => {}
            _ => {
                return false;
            }
        }
    }
    true
}

impl Worker {
    // How many requests wait.
    fn waiting(&self) -> u32
        ensures { result ≡ length self.now.queue }
    {
        WAITING - self.queue.free_nodes()
    }

    /// Whether it may accept a request: one of its places is free, and there is room for one more request that waits.
    pub fn has_room(&self) -> bool
        ensures { result ≡ has_room self.now }
    {
        any_free(&self.places) && self.waiting() < WAITING
    }

    /// Whether it leads its group: it collects, or has a batch to write or changes to give back.
    pub fn leading(&self) -> bool
        ensures { result ≡ is_leading self.now.leading }
    {
        match &self.leading {
            Leading::Nothing(_) => false,
            Leading::Collecting(_) => true,
            Leading::Batch(_) => true,
            Leading::Persisted(_) => true,
            Leading::Failed(_) => true,
            Leading::Between => false,
        }
    }

    /// Whether it has stopped: a call of its own on the region failed, or it took back a change that could not be
    /// written. It answers `Stopped` from then on.
    pub fn stopped(&self) -> bool
        ensures { result ≡ self.now.stopped }
    {
        self.stopped
    }

    /// Whether it was told to wind down, or began to for want of memory: it accepts, begins and posts nothing more.
    pub fn winding_down(&self) -> bool
        ensures { result ≡ self.now.winds_down }
    {
        self.winds_down
    }

    /// Whether a request that it accepted has no answer yet: its change stands in a place, or it waits. Answers that
    /// were fixed and not given out don't count.
    pub fn pending(&self) -> bool
        ensures { result ≡ is_pending self.now }
    {
        !all_free(&self.places) || self.in_hand.is_some() || self.waiting() > 0
    }

    /// The next answer, in the order in which they were fixed, and None exactly where all were given.
    pub fn next_answer(&mut self) -> Option<Answer>
        ensures answer { MatchOption result
            ((answers_of self.old ≡ []) × (answers_of self.new ≡ []))
            (λ a. answers_of self.old ≡ a ∷ answers_of self.new) }
        ensures rest { self.new ≡ record self.old { answers = self.new.answers } }
        ensures holds { (p : PlaceOf) (m : ℕ) (v : View)
            → Holds p m v self.old → Holds p m v self.new }
        ensures stands { (s : State) (p : PlaceOf) (m : ℕ) (v : View)
            → Stands s p m v self.old → Stands s p m v self.new }
        ensures order { (p : PlaceOf) (m : ℕ) (v : View)
            → InOrder p m v self.old → InOrder p m v self.new }
        ensures hands { (v : View) → hands_of v self.new ≡ hands_of v self.old }
    {
        self.answers.pop_front()
    }

    /// Lets it finish what is posted or taken, and begin, post and accept nothing more. It needs no memory for this.
    pub fn wind_down(&mut self)
        ensures winds { self.new ≡ record self.old { winds_down = true } }
        ensures holds { (p : PlaceOf) (m : ℕ) (v : View)
            → Holds p m v self.old → Holds p m v self.new }
        ensures stands { (s : State) (p : PlaceOf) (m : ℕ) (v : View)
            → Stands s p m v self.old → Stands s p m v self.new }
        ensures order { (p : PlaceOf) (m : ℕ) (v : View)
            → InOrder p m v self.old → InOrder p m v self.new }
    {
        self.winds_down = true;
    }
}
