// Taking own changes back.
ghost use Rattle.std.specs.Prelude.{◌≡◌, ◌≢◌, ℕ, ◌+◌, ◌<◌, ◌≤◌, true, false, [], IfSome, MatchOption, Option};
ghost use Rattle.batch_leader.specs.Leading.{Collects, TakesBack, FindsNone, SawNonePosted, IsNotPosted, taken_by};
ghost use Rattle.batch_leader.specs.TakenChanges.{MatchBool};
ghost use Rattle.batch_leader.specs.TurnSteps.{OnlyLoads, LoadsThenOne};
ghost use Rattle.group_board.specs.declared.board.SlotState.TheVariants as slots;

use crate::states::Collecting;
use group_board::{Board, Change, SlotState};
use group_laws::group_sizes::SLOTS;

fn is_posted(found: SlotState) -> bool
    ensures { MatchBool result ((n : ℕ) × (found ≡ slots.Posted n)) (IsNotPosted found) }
{
    match found {
        SlotState::Posted { words: _ } => true,
        _ => false,
    }
}

impl Collecting {
    /// Takes the lowest own change back whose slot it finds Posted. None exactly where it finds none, and then the lock
    /// may be given back.
    pub fn withdraw_own<B: Board>(&mut self, board: &mut B) -> Option<Change>
        requires collects { Collects (B.seat board.old) (B.view board.old) self.old }
        requires idle { taken_by self.old ≡ [] }
        ensures seat { B.seat board.new ≡ B.seat board.old }
        ensures collects { Collects (B.seat board.old) (B.view board.new) self.new }
        ensures idle { taken_by self.new ≡ [] }
        ensures over { MatchOption result
            (self.new.over ≡ true) (λ _. self.new.over ≡ self.old.over) }
        ensures found { MatchOption result
            (FindsNone (B.whole board.old) (B.whole board.new) (B.seat board.old).number
            (B.view board.old) (B.view board.new))
            (TakesBack (B.whole board.old) (B.whole board.new) (B.seat board.old).number
            (B.view board.old) (B.view board.new)) }
        // Where it took nothing back, its view has what it loaded of each own slot.
        ensures seen { result ≡ Option.None → SawNonePosted (B.seat board.old).number
            (B.view board.old) (B.view board.new) SLOTS }
        ensures steps { MatchOption result (OnlyLoads (B.view board.old) (B.view board.new)
            (B.trail board.old) (B.trail board.new))
            (λ _. LoadsThenOne (B.view board.old) (B.view board.new)
            (B.trail board.old) (B.trail board.new)) }
    {
        let own = board.member();
        'slots: for slot in 0..SLOTS {
            let found = board.look(own, slot);
            if is_posted(found) {
                return Some(board.withdraw(slot));
            }
        }
        self.over = true;
        None
    }
}
