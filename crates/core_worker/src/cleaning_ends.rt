// The end of a cleaning, by the ties of a worker.
ghost use Rattle.std.specs.Prelude.{◌≡◌, ℕ, [], false, Option};
ghost use Rattle.pm_region.specs.State.{State, During, IsTelling, cell_now};
ghost use Rattle.pm_region.specs.Words.{KeepsOutside};
ghost use Rattle.group_laws.specs.Places.{Place as PlaceOf};
ghost use Rattle.group_laws.specs.State.{Group};
ghost use Rattle.group_laws.specs.MemberViews.{View};
ghost use Rattle.licence.specs.Licence.{Licensed, part_at, part_end};
ghost use Rattle.log_cleaner.specs.Clearing.{ClearingState};
ghost use Rattle.core_worker.specs.declared.worker.Worker.{Worker};
ghost use Rattle.core_worker.specs.EndsCleaning.{EndsIn, EndsInRegion};
ghost use Rattle.core_worker.specs.GoneNames.{KnowsAll};
ghost use Rattle.core_worker.specs.Order.{InOrder};
ghost use Rattle.core_worker.specs.Outbox.{as_told};
ghost use Rattle.core_worker.specs.Supplies.{HasKeptRoom};
ghost use Rattle.core_worker.specs.Ties.{Holds, Stands};
ghost use Rattle.core_worker.specs.Turns.{Steps};
ghost use Rattle.core_worker.specs.WorkerMoves.{hands_of, WorkerMoves};

/// What a worker has of all its keys, by its ties and once all that waits is told; and what the end of a cleaning
/// leaves: the worker's ties, what it keeps in order, its ties to the region and the room rule. To whoever runs several
/// workers it is a move that answers nothing.
pub fn every_end()
    ensures knows { (p : PlaceOf) (m : ℕ) (v : View) (w : Worker) → Holds p m v w → InOrder p m v w
        → w.stopped ≡ false → KnowsAll p m (as_told w v) w.places.items w.index }
    ensures holds { (p : PlaceOf) (m : ℕ) (v u : View) (w x : Worker) (c : ClearingState)
        → Holds p m v w → InOrder p m v w → EndsIn p m v u w x c → Holds p m u x }
    ensures order { (p : PlaceOf) (m : ℕ) (v u : View) (w x : Worker) (c : ClearingState)
        → Holds p m v w → InOrder p m v w → EndsIn p m v u w x c → InOrder p m u x }
    ensures stands { (s t : State) (p : PlaceOf) (m : ℕ) (v u : View) (w x : Worker)
        (c : ClearingState) → Holds p m v w → Stands s p m v w → EndsIn p m v u w x c
        → EndsInRegion s t p m u w x c → Stands t p m u x }
    ensures room { (p : PlaceOf) (m : ℕ) (v u : View) (w x : Worker) (c : ClearingState)
        → Holds p m v w → InOrder p m v w → EndsIn p m v u w x c → Holds p m u x
        → HasKeptRoom w → HasKeptRoom x }
    ensures moves { (p : PlaceOf) (m : ℕ) (v u : View) (w x : Worker) (c : ClearingState)
        → Holds p m v w → InOrder p m v w → EndsIn p m v u w x c → Holds p m u x
        → (s t : State) (before after : Option Group)
        → During s t (KeepsOutside (cell_now s) (part_at p m) (part_end p m))
        → During s t (Licensed p m v) → (IsTelling t → Licensed p m u (cell_now t))
        → Steps before after m u
        → WorkerMoves p m s t before after v u (hands_of v w) (hands_of u x) [] [] }
{}
