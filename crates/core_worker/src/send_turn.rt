// What a turn sends: all that waits for the lowest other member whose mailbox is empty.
ghost use Rattle.std.specs.Prelude.{◌≡◌, ◌≢◌, ◌<◌, true, false, [], length, Some, slice_get};
ghost use Rattle.pm_region.specs.State.{State};
ghost use Rattle.group_board.specs.declared.names.Notices.{Notices as ToSend};
ghost use Rattle.group_laws.specs.Places.{members};
ghost use Rattle.core_worker.specs.Outbox.{TellsNothing};
ghost use Rattle.core_worker.specs.Readying.{IfNoneSent, IfOver, SendSteps, SendsBeside, SendsFirst, SendsTo, StaysTiedFrom};
ghost use Rattle.core_worker.specs.Sending.{HasNames};
ghost use Rattle.core_worker.specs.Ties.{HoldsAt, StandsAt, LeadsNothing};
ghost use Rattle.core_worker.specs.Turning.{KeepsTurn};
ghost use Rattle.core_worker.specs.Turns.{InOrderAt};

use crate::worker::Worker;
use fs_model::Memory;
use group_board::{Board, Names};
use std::alloc::Global;

// Whether a list has a name.
fn has_some(names: &Names) -> bool
    ensures some { result ≡ true → 0 < length names.now.names }
    ensures none { result ≡ false → names.now.names ≡ [] }
{
    !names.names().is_empty()
}

impl Worker {
    // Whether something waits for a member.
    fn has_mail(&self, to: u32) -> bool
        requires within { to < length self.now.notices.items }
        ensures some { result ≡ true → HasNames to self.now }
        ensures none { result ≡ false → (n : ToSend) → slice_get self.now.notices.items to ≡ Some n
            → TellsNothing n }
    {
        let waiting = &self.notices[to as usize];
        has_some(&waiting.dead) || has_some(&waiting.gone)
    }

    // Sends what waits for another member, with all that awaits to be told there, where its mailbox is empty. Says
    // whether it was sent.
    fn send_to<B: Board>(&mut self, alloc: Global, board: &mut B, to: u32) -> Result<bool, Memory>
        requires holds { HoldsAt (B.seat board.old) (B.view board.old) self.old }
        requires order { InOrderAt (B.seat board.old) (B.view board.old) self.old }
        requires nothing { LeadsNothing self.old }
        requires runs { self.old.stopped ≡ false }
        requires works { self.old.winds_down ≡ false }
        requires other { to ≢ (B.seat board.old).number }
        requires member { to < members (B.seat board.old).place }
        ensures seat { B.seat board.new ≡ B.seat board.old }
        ensures sends { SendsTo result (B.seat board.old).place (B.seat board.old).number to
            (B.whole board.old) (B.whole board.new) (B.view board.old) (B.view board.new)
            self.old self.new }
        ensures keeps { (s : State) → StandsAt s (B.seat board.old) (B.view board.old) self.old
            → IfOver result (KeepsTurn (B.seat board.old) s s
            (B.whole board.old) (B.whole board.new) (B.view board.old) (B.view board.new)
            self.old self.new) }
        ensures tied { IfNoneSent result (StaysTiedFrom (B.seat board.old) (B.view board.old)
            (B.view board.new) self.old self.new) }
        ensures steps { SendSteps result (B.view board.old) (B.view board.new)
            (B.trail board.old) (B.trail board.new) }
    {
        let home = self.core - board.member() + to;
        match self.ready_for(alloc, to, home) {
            Ok(()) => {
                if !self.has_mail(to) {
                    return Ok(false);
                }
                return self.send_ready(alloc, board, to);
            }
            Err(memory) => {
                return Err(memory);
            }
        }
    }

    // The same of a member that may be this one, for whom nothing waits.
    fn send_beside<B: Board>(
        &mut self,
        alloc: Global,
        board: &mut B,
        to: u32,
    ) -> Result<bool, Memory>
        requires holds { HoldsAt (B.seat board.old) (B.view board.old) self.old }
        requires order { InOrderAt (B.seat board.old) (B.view board.old) self.old }
        requires nothing { LeadsNothing self.old }
        requires runs { self.old.stopped ≡ false }
        requires works { self.old.winds_down ≡ false }
        requires member { to < members (B.seat board.old).place }
        ensures seat { B.seat board.new ≡ B.seat board.old }
        ensures sends { SendsBeside result (B.seat board.old).place (B.seat board.old).number to
            (B.whole board.old) (B.whole board.new) (B.view board.old) (B.view board.new)
            self.old self.new }
        ensures keeps { (s : State) → StandsAt s (B.seat board.old) (B.view board.old) self.old
            → IfOver result (KeepsTurn (B.seat board.old) s s
            (B.whole board.old) (B.whole board.new) (B.view board.old) (B.view board.new)
            self.old self.new) }
        ensures tied { IfNoneSent result (StaysTiedFrom (B.seat board.old) (B.view board.old)
            (B.view board.new) self.old self.new) }
        ensures steps { SendSteps result (B.view board.old) (B.view board.new)
            (B.trail board.old) (B.trail board.new) }
    {
        if to == board.member() {
            return Ok(false);
        }
        self.send_to(alloc, board, to)
    }

    // Sends what waits for the lowest other member whose mailbox is empty. Says whether it was sent.
    pub(crate) fn send_first<B: Board>(
        &mut self,
        alloc: Global,
        board: &mut B,
    ) -> Result<bool, Memory>
        requires holds { HoldsAt (B.seat board.old) (B.view board.old) self.old }
        requires order { InOrderAt (B.seat board.old) (B.view board.old) self.old }
        requires nothing { LeadsNothing self.old }
        requires runs { self.old.stopped ≡ false }
        requires works { self.old.winds_down ≡ false }
        ensures seat { B.seat board.new ≡ B.seat board.old }
        ensures sends { SendsFirst result (B.seat board.old).place (B.seat board.old).number
            (B.whole board.old) (B.whole board.new) (B.view board.old) (B.view board.new)
            self.old self.new }
        ensures keeps { (s : State) → StandsAt s (B.seat board.old) (B.view board.old) self.old
            → IfOver result (KeepsTurn (B.seat board.old) s s
            (B.whole board.old) (B.whole board.new) (B.view board.old) (B.view board.new)
            self.old self.new) }
        ensures tied { IfNoneSent result (StaysTiedFrom (B.seat board.old) (B.view board.old)
            (B.view board.new) self.old self.new) }
        ensures steps { SendSteps result (B.view board.old) (B.view board.new)
            (B.trail board.old) (B.trail board.new) }
    {
        for to in 0..board.members() {
            match self.send_beside(alloc, board, to) {
                Ok(sent) => {
                    if sent {
                        return Ok(true);
                    }
                }
                Err(memory) => {
                    return Err(memory);
                }
            }
        }
        Ok(false)
    }
}
