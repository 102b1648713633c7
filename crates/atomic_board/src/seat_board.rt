// A member's seat at its table has the board's calls. It tells no state of the group: that each call is a step of the
// machine from one lawful state to another is the rule of the table.
ghost use Rattle.std.specs.Prelude.{None};
ghost use Rattle.atomic_board.specs.Deeds.{committed_at};
ghost use Rattle.atomic_board.specs.MemberSeats.{seat_of, view_at, done_at, trail_at};

use crate::token::CoreSeat;
use group_board::{Board, Busy, Change, MailFull, Notices, SlotState};
use log_entry::entry::EntryName;
use pm_region::Region;

impl<'a> Board for CoreSeat<'a> {
    ghost seat = { λ s. seat_of s.own };

    ghost view = { λ s. view_at s.own };

    ghost trail = { λ s. trail_at s.own };

    ghost at = { λ s. committed_at (done_at s.own) };

    ghost whole = { λ s. None };

    ghost agrees = { λ s. tt };

    ghost lawful = { λ s. tt };

    fn member(&self) -> u32 {
        self.own.member
    }

    fn members(&self) -> u32 {
        self.own.members
    }

    fn post<R: Region>(&mut self, region: &R, slot: u32, change: Change, value: &[u8]) {
        self.own.post(self.shared, region, slot, change, value);
    }

    fn try_lock(&mut self) -> Result<(), Busy> {
        self.own.try_lock(self.shared)
    }

    fn look(&mut self, member: u32, slot: u32) -> SlotState {
        self.own.look(self.shared, member, slot)
    }

    fn take(&mut self, member: u32, slot: u32) -> Change {
        self.own.take(self.shared, member, slot)
    }

    fn unlock(&mut self) {
        self.own.unlock(self.shared);
    }

    fn commit<R: Region>(&mut self, region: &R) {
        self.own.commit(self.shared, region);
    }

    fn mark(&mut self, member: u32, slot: u32, change: Change) {
        self.own.mark(self.shared, member, slot, change);
    }

    fn fail(&mut self, member: u32, slot: u32, change: Change) {
        self.own.fail(self.shared, member, slot, change);
    }

    fn finish(&mut self, slot: u32) -> Change {
        self.own.finish(self.shared, slot)
    }

    fn withdraw(&mut self, slot: u32) -> Change {
        self.own.withdraw(self.shared, slot)
    }

    fn doom<R: Region>(&mut self, region: &R, names: &[EntryName]) {
        self.own.doom(self.shared, region, names);
    }

    fn retire<R: Region>(&mut self, region: &R, names: &[EntryName]) {
        self.own.retire(self.shared, region, names);
    }

    fn send(&mut self, to: u32, notices: Notices) -> Result<(), MailFull> {
        self.own.send(self.shared, to, notices)
    }

    fn receive(&mut self, from: u32) -> Option<Notices> {
        self.own.receive(self.shared, from)
    }
}
