// What the engine asks of the worker of one core.
ghost use Rattle.std.specs.Prelude.{◌≡◌, ◌≢◌, ℕ, ◌+◌, ◌<◌, ◌≤◌, List, [], ◌∷◌, Bool, true, false, Option, OnOk, OnErr, IfOk, IfErr, IfSome, IsSomeAnd, MatchOption};
ghost use Rattle.fs_model.specs.declared.model.Request as requests;
ghost use Rattle.fs_model.specs.Cells.{key_of};
ghost use Rattle.pm_region.specs.State.{State, During, cell_now};
ghost use Rattle.group_laws.specs.Places.{Place, owner};
ghost use Rattle.group_laws.specs.State.{Group};
ghost use Rattle.group_laws.specs.MemberViews.{View};
ghost use Rattle.group_laws.specs.Invariant.{Lawful};
ghost use Rattle.group_laws.specs.Runs.{Kind, Runs};
ghost use Rattle.group_board.specs.Seats.{SeatAt};
ghost use Rattle.engine_laws.specs.WorkerMoves.{Hands};
ghost use Rattle.core_worker.specs.declared.types.Answer as answers;
ghost use Rattle.core_worker.specs.declared.types.Turn.TheVariants.{Moved, Idle};
ghost use Rattle.engine_core.specs.Calls.{AcceptsForAny, BeginsByEachView, Turns, KeepsPart, WindsDown, has_moved, is_open, is_idle, steps_of};

use core_worker::{Answer, NotAccepted, Turn};
use fs_model::{Memory, Request};
use group_board::Board;
use pm_region::Region;
use std::alloc::Global;

/// The worker of one core. It serves a member of a group, whose place and number its seat at the board has.
pub trait CoreWorker {
    // What it holds, by its own view.
    ghost hands: { View → Self → Hands };

    // The answers that it fixed and has not given out yet.
    ghost answers: { Self → List answers.Answer };

    // What ties it to its member, to the region and to its own view.
    ghost stands: { Place → ℕ → State → View → Self → Type 0 };

    // What of the group's state it needs besides, so that its turns come to an end.
    ghost fair: { Group → ℕ → Self → Type 0 };

    ghost room: { Self → Bool };

    ghost leads: { Self → Bool };

    // Whether it winds down.
    ghost winds: { Self → Bool };

    // How it accepts a request with a number, by its view in the region's state.
    ghost begins: { State → View → Self → Self → ℕ → requests.Request → Type 0 };

    // What a turn of it does, by whether anything moved: from the region's state, where its group stands so or does not
    // tell, at a seat, from one view to the next.
    ghost turned: { Bool → State → State → Option Group → SeatAt → View → View → Self → Self → Type 0 };

    // Nothing but its answers differs.
    ghost alike: { Self → Self → Type 0 };

    // What it has still to do, what is under way in a group, and what an accepted request adds at most.
    ghost left: { Self → ℕ };

    ghost under_way: { Group → ℕ };

    ghost most: { ℕ };

    /// Whether it may accept a request.
    fn has_room(&self) -> bool
        ensures { result ≡ room self.now };

    /// Whether it leads its group.
    fn leading(&self) -> bool
        ensures { result ≡ leads self.now };

    /// Whether it has stopped: it answers `Stopped` from then on.
    fn stopped(&self) -> bool
        ensures { (v : View) → result ≡ (hands v self.now).stopped };

    /// The next answer, in the order in which they were fixed, and None exactly where all were given.
    fn next_answer(&mut self) -> Option<Answer>
        ensures answer { MatchOption result ((answers self.old ≡ []) × (answers self.new ≡ []))
            (λ a. answers self.old ≡ a ∷ answers self.new) }
        ensures alike { alike self.old self.new }
        ensures hands { (v : View) → hands v self.new ≡ hands v self.old }
        ensures stands { (p : Place) (m : ℕ) (s : State) (v : View)
            → stands p m s v self.old → stands p m s v self.new }
        ensures fair { (a : Group) (m : ℕ) → fair a m self.old → fair a m self.new }
        ensures open { is_open room leads self.new ≡ is_open room leads self.old }
        ensures winds { winds self.new ≡ winds self.old }
        ensures left { left self.new ≡ left self.old };

    /// Accepts a request of one of its keys, and begins it where nothing of its key is under way. Where there is no
    /// memory for it the request comes back.
    fn accept<R: Region>(
        &mut self,
        alloc: Global,
        region: &R,
        number: u64,
        request: Request,
    ) -> Result<(), NotAccepted>
        requires open { is_open room leads self.old ≡ true }
        requires stands { (p : Place) × (m : ℕ) × (v : View)
            × stands p m (R.state region.now) v self.old × (owner p (key_of request) ≡ m) }
        ensures accepted { OnOk result (AcceptsForAny hands answers stands fair (R.state region.now)
            self.old self.new ((number, request) ∷ [])) }
        ensures begins { OnOk result (BeginsByEachView stands begins (R.state region.now)
            self.old self.new number request) }
        ensures refused { IfErr result (λ back. (back.request ≡ request)
            × AcceptsForAny hands answers stands fair (R.state region.now) self.old self.new []) }
        ensures winds { OnOk result (winds self.new ≡ winds self.old) }
        ensures less { OnOk result (left self.new ≤ left self.old + most) };

    /// Lets it finish what is posted or taken, and begin, post and accept nothing more. It needs no memory for this.
    fn wind_down(&mut self)
        ensures { WindsDown hands answers stands fair room leads winds self.old self.new };

    /// Makes a turn, and answers whether it found something to do. One that winds down finds memory for all that it
    /// does.
    fn turn<R: Region, B: Board>(
        &mut self,
        alloc: Global,
        region: &mut R,
        board: &mut B,
    ) -> Result<Turn, Memory>
        requires stands { stands (B.seat board.old).place (B.seat board.old).number
            (R.state region.old) (B.view board.old) self.old }
        requires fair { IfSome (B.whole board.old)
            (λ a. fair a (B.seat board.old).number self.old) }
        ensures seat { B.seat board.new ≡ B.seat board.old }
        ensures turns { Turns hands answers stands fair room leads
            (B.seat board.old).place (B.seat board.old).number
            (R.state region.old) (R.state region.new) (B.whole board.old) (B.whole board.new)
            (B.view board.old) (B.view board.new) self.old self.new (is_idle result)
            (winds self.old) }
        ensures turned { IfOk result (λ turn. turned (has_moved turn) (R.state region.old)
            (R.state region.new) (B.whole board.old) (B.seat board.old) (B.view board.old) (B.view board.new)
            self.old self.new) }
        ensures winds { OnOk result (winds self.new ≡ winds self.old) }
        ensures awake { OnErr result (winds self.old ≡ false) }
        ensures less { IfOk result (λ turn. turn ≡ Moved → IfSome (B.whole board.old) (λ a.
            IsSomeAnd (B.whole board.new) (λ e.
            left self.new + under_way e < left self.old + under_way a))) }
        ensures idle { IfOk result (λ turn. turn ≡ Idle → IfSome (B.whole board.old) (λ a.
            IsSomeAnd (B.whole board.new) (λ e.
            left self.new + under_way e ≤ left self.old + under_way a))) };

    // One that winds down may not be handed a request.
    ghost wakes: { (w : Self) → is_open room leads w ≡ true → winds w ≡ false };

    // As it is, it is like itself, and so is what is like one that is like it.
    ghost same: { (w : Self) → alike w w };

    ghost same_too: { (w x y : Self) → alike w x → alike x y → alike w y };

    // What another member does leaves it as it is: to words outside the own part,
    ghost apart: { (p : Place) (m : ℕ) (s t : State) (v : View) (w : Self)
        → During s t (KeepsPart p m (cell_now s)) → stands p m s v w → stands p m t v w };

    // and to the group.
    ghost beside: { (a e : Group) (m n : ℕ) (kinds : List Kind) (w : Self)
        → Lawful a → Runs a (steps_of m kinds) e → n ≢ m → fair a n w → fair e n w };
}
