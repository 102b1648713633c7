// The laws of a core's work.
ghost use Rattle.std.specs.Prelude.{◌≡◌, ℕ, Bool, false};
ghost use Rattle.pm_region.specs.State.{State, IsTelling, cell_now};
ghost use Rattle.pm_region.specs.Split.{TakesPiece};
ghost use Rattle.group_laws.specs.Places.{Place};
ghost use Rattle.group_laws.specs.MemberViews.{View};
ghost use Rattle.licence.specs.Licence.{Licensed};
ghost use Rattle.core_worker.specs.declared.worker.Worker.{Worker};
ghost use Rattle.engine_core.specs.Working.{IsMember};
ghost use Rattle.thread_engine.specs.Pieces.{IsPieceOf, HasPart};
ghost use Rattle.group_board.specs.Seats.{SeatAt};
ghost use Rattle.thread_engine.specs.WorkStates.{WorkState, IsAtWork, Works, HasEnded, joined_in, given_in};
ghost use Rattle.thread_engine.specs.WorkLaws.{KeepsDoubts, WorksOff, HasRested};
ghost use Rattle.thread_engine.specs.CoreRuns.{fixed_in};
ghost use Rattle.thread_engine.specs.WindowLaws.{AnswersOnce};

use engine_laws::engine_rules;

/// A chain of a core's moves, whatever the other cores of its group did between them: the requests that joined are accepted in
/// their order, each key's are answered in the order of their arrival, and each key is where its answers led it.
pub fn every_chain()
    ensures { (seat : SeatAt) (refused : Bool) (a b : WorkState)
        → IsAtWork seat a → KeepsDoubts seat a.view → (w : Works seat refused a b)
        → (x : WorksOff seat a b) × (x.fixed ≡ fixed_in seat refused a b w)
        × KeepsDoubts seat b.view × (x.joined ≡ joined_in seat refused a b w)
        × (x.given ≡ given_in seat refused a b w) }
{
    engine_rules::every_key();
}

/// A core that has ended leads nothing, has nothing posted and nothing taken, and its part is licensed by its view.
/// Unless there was no memory, each request that it was given is answered.
pub fn every_end()
    ensures { (seat : SeatAt) (x : WorkState) → IsAtWork seat x → HasEnded x → HasRested seat x }
{}

/// A window, which is a chain from one end of a core to another: each request that joined in it is answered once, unless
/// its worker winds down, and no other is.
pub fn every_window()
    ensures { (seat : SeatAt) (refused : Bool) (a b : WorkState)
        → IsAtWork seat a → KeepsDoubts seat a.view
        → HasEnded a → a.worker.winds_down ≡ false → HasEnded b
        → (w : Works seat refused a b) → AnswersOnce seat refused a b w }
{
    every_chain();
}

/// A worker that is tied to a region is so to its piece.
pub fn every_piece()
    ensures { (s t : State) (p : Place) (m : ℕ) (v : View) (w : Worker)
        → IsMember p m s v w → IsPieceOf p m s t → IsMember p m t v w }
{}

/// What a piece licensed at its end, the joined region does.
pub fn every_join()
    ensures { (t new : State) (p : Place) (m : ℕ) (v : View) → HasPart p m t → TakesPiece new t
        → (IsTelling t → Licensed p m v (cell_now t))
        → IsTelling new → Licensed p m v (cell_now new) }
{}
