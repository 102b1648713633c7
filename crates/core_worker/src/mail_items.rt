// What a turn does with what members tell each other.
ghost use Rattle.std.specs.Prelude.{◌≡◌, ◌<◌, length, Bool, true, false, Option};
ghost use Rattle.group_laws.specs.declared.group_sizes.TheConstants.{SLOTS};
ghost use Rattle.group_laws.specs.Places.{members, core_of};
ghost use Rattle.group_laws.specs.State.{Group};
ghost use Rattle.group_laws.specs.MemberViews.{View};
ghost use Rattle.batch_leader.specs.TurnSteps.{trail_with};
ghost use Rattle.core_worker.specs.Left.{HasOffer, Measures};
ghost use Rattle.core_worker.specs.Mails.{MailSteps, NoneTold, ReceivesFirst, ReceivesMail};
ghost use Rattle.core_worker.specs.Resting.{IfIdle, TriedAfter};
ghost use Rattle.core_worker.specs.Ties.{HoldsAt};
ghost use Rattle.core_worker.specs.Turning.{MayServe, ServesTurn, Tells, TurnedTo, at_entry};
ghost use Rattle.core_worker.specs.Turns.{PassesPost};

use crate::log_names::hear_notices;
use crate::types::Turn;
use crate::worker::Worker;
use fs_model::Memory;
use group_board::Board;
use pm_region::Region;
use std::alloc::Global;

impl Worker {
    // Receives what a member told, where it told something. Else the mailbox was loaded alone.
    fn receive_mail<B: Board>(&mut self, board: &mut B, from: u32) -> bool
        requires member { (B.seat board.old).number < members (B.seat board.old).place }
        requires sender { from < members (B.seat board.old).place }
        requires core { self.old.core
            ≡ core_of (B.seat board.old).place (B.seat board.old).number }
        requires eight { length self.old.places.items ≡ SLOTS }
        ensures seat { B.seat board.new ≡ B.seat board.old }
        ensures received { ReceivesMail result (B.seat board.old).place (B.seat board.old).number
            from (B.whole board.old) (B.whole board.new) (B.view board.old) (B.view board.new)
            self.old self.new }
        ensures steps { MailSteps result (B.view board.old) (B.view board.new)
            (B.trail board.old) (B.trail board.new) }
    {
        match board.receive(from) {
            None => {
                return false;
            }
            Some(notices) => {
                hear_notices(
                    &mut self.index,
                    &mut self.standing,
                    &mut self.places,
                    self.core,
                    &notices,
                );
                return true;
            }
        }
    }

    // The same of a member that may be this one, who tells itself nothing.
    fn receive_beside<B: Board>(&mut self, board: &mut B, from: u32) -> bool
        requires member { (B.seat board.old).number < members (B.seat board.old).place }
        requires sender { from < members (B.seat board.old).place }
        requires core { self.old.core
            ≡ core_of (B.seat board.old).place (B.seat board.old).number }
        requires eight { length self.old.places.items ≡ SLOTS }
        ensures seat { B.seat board.new ≡ B.seat board.old }
        ensures received { ReceivesMail result (B.seat board.old).place (B.seat board.old).number
            from (B.whole board.old) (B.whole board.new) (B.view board.old) (B.view board.new)
            self.old self.new }
        ensures steps { MailSteps result (B.view board.old) (B.view board.new)
            (B.trail board.old) (B.trail board.new) }
    {
        if from == board.member() {
            return false;
        }
        self.receive_mail(board, from)
    }

    // Receives what the lowest member with a full mailbox told.
    fn receive_first<B: Board>(&mut self, board: &mut B) -> bool
        requires holds { HoldsAt (B.seat board.old) (B.view board.old) self.old }
        ensures seat { B.seat board.new ≡ B.seat board.old }
        ensures received { ReceivesFirst result (B.seat board.old).place
            (B.seat board.old).number (B.whole board.old) (B.whole board.new)
            (B.view board.old) (B.view board.new) self.old self.new }
        ensures steps { MailSteps result (B.view board.old) (B.view board.new)
            (B.trail board.old) (B.trail board.new) }
    {
        for from in 0..board.members() {
            if self.receive_beside(board, from) {
                return true;
            }
        }
        false
    }

    // Sends, as a core that no member told anything. Else it goes on with a cleaning, or tries the lock, where an own
    // change was found that nobody had taken.
    fn serve_sending<R: Region, B: Board>(
        &mut self,
        alloc: Global,
        region: &mut R,
        board: &mut B,
        posted: bool,
    ) -> Result<Turn, Memory>
        requires may { MayServe (R.state region.old) (B.seat board.old)
            (B.view board.old) self.old }
        requires runs { self.old.stopped ≡ false }
        requires works { self.old.winds_down ≡ false }
        ensures serves { (passes : Bool) → ServesTurn passes result
            (B.seat board.old) (B.seat board.new) (R.state region.old) (R.state region.new)
            (B.whole board.old) (B.whole board.new) (B.view board.old) (B.view board.new)
            self.old self.new (trail_with (B.trail board.old) (B.at board.old))
            (trail_with (B.trail board.new) (B.at board.new)) }
        ensures turned { (refused : Bool) (before : Option Group) (v : View)
            → PassesPost refused self.old
            → (tells : Tells posted (B.seat board.old).number self.old v (B.view board.old))
            → NoneTold (B.seat board.old).place (B.seat board.old).number tells.0.looked.looks
            → TurnedTo result (R.state region.old) (R.state region.new) refused before
            (B.seat board.old) (at_entry self.old v) (at_entry self.new (B.view board.new)) }
        ensures less { (posted ≡ true → HasOffer (B.whole board.old) (B.seat board.old).number)
            → Measures result (B.whole board.old) (B.whole board.new) self.old self.new }
        ensures tries { IfIdle result (TriedAfter posted (B.seat board.old).number
            (B.whole board.old) (B.whole board.new) (B.view board.old) (B.view board.new)) }
    {
        match self.send_first(alloc, board) {
            Ok(sent) => {
                if sent {
                    return Ok(Turn::Moved);
                }
                return self.serve_cleaning(alloc, region, board, posted);
            }
            Err(memory) => {
                return Err(memory);
            }
        }
    }

    // Receives what a member told, as a core that goes on, or sends. One that has stopped or winds down does neither, and
    // goes on with what comes behind.
    pub(crate) fn serve_mail<R: Region, B: Board>(
        &mut self,
        alloc: Global,
        region: &mut R,
        board: &mut B,
        posted: bool,
    ) -> Result<Turn, Memory>
        requires may { MayServe (R.state region.old) (B.seat board.old)
            (B.view board.old) self.old }
        ensures serves { (passes : Bool) → ServesTurn passes result
            (B.seat board.old) (B.seat board.new) (R.state region.old) (R.state region.new)
            (B.whole board.old) (B.whole board.new) (B.view board.old) (B.view board.new)
            self.old self.new (trail_with (B.trail board.old) (B.at board.old))
            (trail_with (B.trail board.new) (B.at board.new)) }
        ensures turned { (refused : Bool) (before : Option Group) (v : View)
            → PassesPost refused self.old
            → Tells posted (B.seat board.old).number self.old v (B.view board.old)
            → TurnedTo result (R.state region.old) (R.state region.new) refused before
            (B.seat board.old) (at_entry self.old v) (at_entry self.new (B.view board.new)) }
        ensures less { (posted ≡ true → HasOffer (B.whole board.old) (B.seat board.old).number)
            → Measures result (B.whole board.old) (B.whole board.new) self.old self.new }
        ensures tries { IfIdle result (TriedAfter posted (B.seat board.old).number
            (B.whole board.old) (B.whole board.new) (B.view board.old) (B.view board.new)) }
    {
        if self.stopped || self.winds_down {
            return self.serve_cleaning(alloc, region, board, posted);
        }
        if self.receive_first(board) {
            return Ok(Turn::Moved);
        }
        self.serve_sending(alloc, region, board, posted)
    }
}
