// Giving changes back.
ghost use Rattle.std.specs.Prelude.{◌≡◌, ◌≢◌, ℕ, true, false, [], ◌∷◌, is_some};
ghost use Rattle.group_laws.specs.Runs as runs;
ghost use Rattle.batch_leader.specs.TakenChanges.{MatchBool, taken_in};
ghost use Rattle.batch_leader.specs.Leading.{IsCertain, IsLost, MakesAll};
ghost use Rattle.batch_leader.specs.TurnSteps.{LoadsThenOne};
ghost use Rattle.batch_leader.specs.GivingBack.{GivesBack, marked, failed, marked_all, marks_of};

use crate::batch_buffer::BatchBuffer;
use crate::states::{FailedBatch, Persisted};
use group_board::Board;

impl Persisted {
    /// Marks the next change, in the batch's order. False exactly where all are marked.
    pub fn mark_one<B: Board>(&mut self, board: &mut B) -> bool
        requires { IsCertain (B.seat board.old) (B.view board.old) self.old.left.taken.items }
        ensures seat { B.seat board.new ≡ B.seat board.old }
        ensures certain { IsCertain (B.seat board.old)
            (B.view board.new) self.new.left.taken.items }
        ensures gave { GivesBack result marked (λ a s. runs.Kind.Mark a s) (B.seat board.old).number
            (B.whole board.old) (B.whole board.new) (B.view board.old) (B.view board.new)
            self.old.left.taken.items self.new.left.taken.items }
        ensures steps { MatchBool result (LoadsThenOne (B.view board.old) (B.view board.new)
            (B.trail board.old) (B.trail board.new))
            ((B.trail board.new ≡ B.trail board.old) × (B.view board.new ≡ B.view board.old)) }
    {
        match self.left.take_first() {
            None => false,
            Some(taken) => {
                board.mark(taken.member, taken.slot, taken.change);
                true
            }
        }
    }

    /// Marks all that are left, in the batch's order.
    pub fn mark_all<B: Board>(&mut self, board: &mut B)
        requires { IsCertain (B.seat board.old) (B.view board.old) self.old.left.taken.items }
        ensures seat { B.seat board.new ≡ B.seat board.old }
        ensures none { self.new.left.taken.items ≡ [] }
        ensures certain { IsCertain (B.seat board.old)
            (B.view board.new) self.new.left.taken.items }
        ensures view { B.view board.new ≡ marked_all self.old.left.taken.items (B.view board.old) }
        ensures made { MakesAll (B.whole board.old)
            (marks_of (B.seat board.old).number self.old.left.taken.items)
            (B.whole board.new) (B.seat board.old).number (B.view board.new) }
    {
        'marks: while self.mark_one(board) {}
    }

    /// Whether all are given back.
    pub fn is_done(&self) -> bool
        ensures { MatchBool result (self.now.left.taken.items ≡ [])
            (self.now.left.taken.items ≢ []) }
    {
        self.left.is_empty()
    }

    /// Whether the change out of this slot of the member is among those that are left.
    pub fn has(&self, member: u32, slot: u32) -> bool
        ensures { result ≡ is_some (taken_in self.now.left.taken.items member slot) }
    {
        self.left.has(member, slot)
    }

    /// The room for the next batch, once all are marked.
    pub fn done(self) -> BatchBuffer
        requires { self.left.taken.items ≡ [] }
    {
        self.left.into_buffer()
    }
}

impl FailedBatch {
    /// Fails the next change, in the batch's order. False exactly where all are failed.
    pub fn fail_one<B: Board>(&mut self, board: &mut B) -> bool
        requires { IsLost (B.seat board.old) (B.view board.old) self.old.left.taken.items }
        ensures seat { B.seat board.new ≡ B.seat board.old }
        ensures lost { IsLost (B.seat board.old) (B.view board.new) self.new.left.taken.items }
        ensures gave { GivesBack result failed (λ a s. runs.Kind.Fail a s) (B.seat board.old).number
            (B.whole board.old) (B.whole board.new) (B.view board.old) (B.view board.new)
            self.old.left.taken.items self.new.left.taken.items }
        ensures steps { MatchBool result (LoadsThenOne (B.view board.old) (B.view board.new)
            (B.trail board.old) (B.trail board.new))
            ((B.trail board.new ≡ B.trail board.old) × (B.view board.new ≡ B.view board.old)) }
    {
        match self.left.take_first() {
            None => false,
            Some(taken) => {
                board.fail(taken.member, taken.slot, taken.change);
                true
            }
        }
    }

    /// Whether all are given back.
    pub fn is_done(&self) -> bool
        ensures { MatchBool result (self.now.left.taken.items ≡ [])
            (self.now.left.taken.items ≢ []) }
    {
        self.left.is_empty()
    }

    /// The room, once all are failed. Its member is broken then and takes no change any more.
    pub fn done(self) -> BatchBuffer
        requires { self.left.taken.items ≡ [] }
    {
        self.left.into_buffer()
    }
}
