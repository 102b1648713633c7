// What a core's part may have at a cut inside a turn.
ghost use Rattle.std.specs.Prelude.{◌≡◌, ℕ, ◌≤◌, Bool, false, List, ◌∷◌};
ghost use Rattle.pm_region.specs.State.{State, IsTold};
ghost use Rattle.group_laws.specs.MemberViews.{View};
ghost use Rattle.group_board.specs.Seats.{SeatAt};
ghost use Rattle.group_board.specs.Trails.{TrailStep};
ghost use Rattle.licence.specs.Licence.{Licensed};
ghost use Rattle.batch_leader.specs.Persisting.{StaysLicensed, IsLicensedNow};
ghost use Rattle.batch_leader.specs.TurnSteps.{Trail, is_load, TurnSteps, since};

/// Until a turn's step each told stamp of the turn has what the view at entry licenses, and from the step on what the
/// view at exit does.
pub fn turn_at_a_cut()
    ensures before { (s : State) (t : State) (seat : SeatAt) (v : View)
        → StaysLicensed s t seat v → (i : ℕ) → IsTold t i → s.stamp ≤ i
        → Licensed seat.place seat.number v (t.cells i) }
    ensures after { (s : State) (t : State) (seat : SeatAt) (v : View) (u : View) (old : Trail)
        (x : Trail) (passes : Bool) (turn : TurnSteps passes s t v u old x) (k : TrailStep)
        (ks : List TrailStep) → turn.made ≡ k ∷ ks
        → is_load k.kind ≡ false → IsLicensedNow t seat u
        → (i : ℕ) → IsTold t i → since k.kind s x ≤ i
        → Licensed seat.place seat.number u (t.cells i) }
{}
