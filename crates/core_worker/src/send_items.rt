// What a turn sends to other members.
ghost use Rattle.std.specs.Prelude.{◌≡◌, ◌≢◌, ◌⊎◌, ℕ, ◌<◌, true, false, length, Some, slice_get, vec_capacity, IfOk, OnOk, OnErr};
ghost use Rattle.pm_region.specs.State.{State};
ghost use Rattle.group_board.specs.declared.names.Notices.{Notices as ToSend};
ghost use Rattle.group_board.specs.Mailing.{notices_of};
ghost use Rattle.group_laws.specs.Places as groups;
ghost use Rattle.group_laws.specs.MemberViews.{View};
ghost use Rattle.group_board.specs.Conditions.{MaySend};
ghost use Rattle.core_worker.specs.Order.{InOrder};
ghost use Rattle.core_worker.specs.Outbox.{HasSpare};
ghost use Rattle.core_worker.specs.Left.{Lowers};
ghost use Rattle.core_worker.specs.Mails.{MailSteps};
ghost use Rattle.core_worker.specs.Sending.{HasNames, IsReadyFor, KeepsTiesAt, SendsBox, TakesAt, WindsOnly};
ghost use Rattle.core_worker.specs.declared.types.Cleaning.TheVariants.{Nothing};
ghost use Rattle.core_worker.specs.Supplies.{under_way};
ghost use Rattle.core_worker.specs.Ties.{Holds, HoldsAt, StandsAt, LeadsNothing};
ghost use Rattle.core_worker.specs.Turning.{KeepsTurn};
ghost use Rattle.core_worker.specs.Turns.{InOrderAt};

use crate::sending::{send_waiting, take_notices};
use crate::types::Cleaning;
use crate::worker::Worker;
use fs_model::Memory;
use group_board::Board;
use std::alloc::Global;

impl Worker {
    // Takes what awaits to be told to a member out of the index. Where there is no memory for all of it, the rest awaits
    // on, and the core winds down.
    fn take_for(&mut self, alloc: Global, to: u32, home: u32) -> Result<(), Memory>
        requires within { to < length self.old.notices.items }
        requires spare { (n : ToSend) → slice_get self.old.notices.items to ≡ Some n → HasSpare n }
        ensures takes { TakesAt home to self.old self.new }
        ensures ready { OnOk result (IsReadyFor home to self.old self.new) }
        ensures memory { OnErr result (self.new.winds_down ≡ true) }
    {
        let waiting = &mut self.notices[to as usize];
        match take_notices(alloc, &mut self.index, &mut waiting.dead, home) {
            Ok(()) => {
                return Ok(());
            }
            Err(memory) => {
                self.winds_down = true;
                return Err(memory);
            }
        }
    }

    // The same of another member. Wherever the core is tied, and in order, it stays so.
    pub(crate) fn ready_for(&mut self, alloc: Global, to: u32, home: u32) -> Result<(), Memory>
        requires within { to < length self.old.notices.items }
        requires spare { (n : ToSend) → slice_get self.old.notices.items to ≡ Some n → HasSpare n }
        ensures takes { TakesAt home to self.old self.new }
        ensures ready { OnOk result (IsReadyFor home to self.old self.new) }
        ensures memory { OnErr result (self.new.winds_down ≡ true) }
        ensures keeps { (p : groups.Place) (m : ℕ) (v : View) → Holds p m v self.old
            → InOrder p m v self.old → self.old.stopped ≡ false → LeadsNothing self.old → to ≢ m
            → home ≡ groups.core_of p to → KeepsTiesAt p m v self.old self.new }
    {
        match self.take_for(alloc, to, home) {
            Ok(()) => {
                return Ok(());
            }
            Err(memory) => {
                return Err(memory);
            }
        }
    }

    // How many names a cleaning under way may let go.
    fn gone_places(&self) -> u64
        ensures { (under_way self.now ≡ Nothing)
            ⊎ (result ≡ vec_capacity self.now.own_gone) }
    {
        match self.under_way() {
            Cleaning::Nothing => 0,
            _ => self.own_gone.capacity() as u64,
        }
    }

    // Sends all that waits for a member, where its mailbox is empty, and says whether it was. Where there is no memory
    // for what will wait next, the mailbox is not looked at, and the core winds down.
    fn send_box<B: Board>(&mut self, alloc: Global, board: &mut B, to: u32) -> Result<bool, Memory>
        requires within { to < length self.old.notices.items }
        requires may { (n : ToSend) → slice_get self.old.notices.items to ≡ Some n
            → MaySend (B.seat board.old).place (B.seat board.old).number (B.view board.old) to
            (notices_of n) }
        requires spare { (n : ToSend) → slice_get self.old.notices.items to ≡ Some n → HasSpare n }
        ensures seat { B.seat board.new ≡ B.seat board.old }
        ensures sent { IfOk result (λ sent. SendsBox sent (B.seat board.old).number to
            (B.whole board.old) (B.whole board.new) (B.view board.old) (B.view board.new)
            self.old self.new) }
        ensures steps { IfOk result (λ sent. MailSteps sent (B.view board.old) (B.view board.new)
            (B.trail board.old) (B.trail board.new)) }
        ensures err { OnErr result ((board.new ≡ board.old) × WindsOnly self.old self.new) }
    {
        let places = self.gone_places();
        match send_waiting(alloc, board, &mut self.notices[to as usize], to, places) {
            Ok(sent) => {
                return Ok(sent);
            }
            Err(memory) => {
                self.winds_down = true;
                return Err(memory);
            }
        }
    }

    // The same of another member, by a core that goes on: what a turn that sends keeps, and that it leaves less to do.
    pub(crate) fn send_ready<B: Board>(
        &mut self,
        alloc: Global,
        board: &mut B,
        to: u32,
    ) -> Result<bool, Memory>
        requires holds { HoldsAt (B.seat board.old) (B.view board.old) self.old }
        requires order { InOrderAt (B.seat board.old) (B.view board.old) self.old }
        requires nothing { LeadsNothing self.old }
        requires runs { self.old.stopped ≡ false }
        requires works { self.old.winds_down ≡ false }
        requires other { to ≢ (B.seat board.old).number }
        requires member { to < groups.members (B.seat board.old).place }
        ensures seat { B.seat board.new ≡ B.seat board.old }
        ensures sent { IfOk result (λ sent. SendsBox sent (B.seat board.old).number to
            (B.whole board.old) (B.whole board.new) (B.view board.old) (B.view board.new)
            self.old self.new) }
        ensures keeps { (s : State) → StandsAt s (B.seat board.old) (B.view board.old) self.old
            → IfOk result (λ sent. sent ≡ true
            → KeepsTurn (B.seat board.old) s s (B.whole board.old) (B.whole board.new)
            (B.view board.old) (B.view board.new) self.old self.new) }
        ensures less { HasNames to self.old → IfOk result (λ sent. sent ≡ true
            → Lowers (B.whole board.old) (B.whole board.new) self.old self.new) }
        ensures steps { IfOk result (λ sent. MailSteps sent (B.view board.old) (B.view board.new)
            (B.trail board.old) (B.trail board.new)) }
        ensures err { OnErr result ((board.new ≡ board.old) × WindsOnly self.old self.new) }
    {
        self.send_box(alloc, board, to)
    }
}
