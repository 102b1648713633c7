// A member's seat at the board of one thread. It tells the state of the group.
ghost use Rattle.std.specs.Prelude.{Some, refl};
ghost use Rattle.group_board.specs.Journals.{state, trail_in, at_in};
ghost use Rattle.group_board.specs.Kept.{kept_lawful};
ghost use Rattle.group_laws.specs.MemberViews.{view_of};

use crate::board::{Board, Busy, MailFull, SlotState};
use crate::change::Change;
use crate::local_board::LocalBoard;
use crate::names::Notices;
use log_entry::entry::EntryName;
use pm_region::Region;

/// The seat of one member at a board of one thread.
#[derive(Drop)]
pub struct LocalSeat<'a> {
    /// That of the member's group. One seat at a time has it.
    pub board: &'a mut LocalBoard,
    /// By its number in the group.
    pub member: u32,
}

impl<'a> Board for LocalSeat<'a> {
    ghost seat = { λ s. record {
      number = s.member;
      place = (state s.board.now.keeper.me.0).place;
      table = s.board.now.table.shared.table_id;
      handle = s.board.ghost_name;
    } };

    ghost view = { λ s. view_of (state s.board.now.keeper.me.0) s.member };

    ghost trail = { λ s. trail_in s.member s.board.now.keeper.me.0 };

    ghost at = { λ s. at_in s.member s.board.now.keeper.me.0 };

    ghost whole = { λ s. Some (state s.board.now.keeper.me.0) };

    ghost agrees = { λ s. (refl, refl) };

    ghost lawful = { λ s. kept_lawful _ _ _ _ _ s.board.now.kept };

    fn member(&self) -> u32 {
        self.member
    }

    fn members(&self) -> u32 {
        self.board.member_count
    }

    fn post<R: Region>(&mut self, region: &R, slot: u32, change: Change, value: &[u8]) {
        self.board.post(self.member, region, slot, change, value);
    }

    fn try_lock(&mut self) -> Result<(), Busy> {
        self.board.try_lock(self.member)
    }

    fn look(&mut self, member: u32, slot: u32) -> SlotState {
        self.board.look(self.member, member, slot)
    }

    fn take(&mut self, member: u32, slot: u32) -> Change {
        self.board.take(self.member, member, slot)
    }

    fn unlock(&mut self) {
        self.board.unlock(self.member);
    }

    fn commit<R: Region>(&mut self, region: &R) {
        self.board.commit(self.member, region);
    }

    fn mark(&mut self, member: u32, slot: u32, change: Change) {
        self.board.mark(self.member, member, slot, change);
    }

    fn fail(&mut self, member: u32, slot: u32, change: Change) {
        self.board.fail(self.member, member, slot, change);
    }

    fn finish(&mut self, slot: u32) -> Change {
        self.board.finish(self.member, slot)
    }

    fn withdraw(&mut self, slot: u32) -> Change {
        self.board.withdraw(self.member, slot)
    }

    fn doom<R: Region>(&mut self, region: &R, names: &[EntryName]) {
        self.board.doom(self.member, region, names);
    }

    fn retire<R: Region>(&mut self, region: &R, names: &[EntryName]) {
        self.board.retire(self.member, region, names);
    }

    fn send(&mut self, to: u32, notices: Notices) -> Result<(), MailFull> {
        self.board.send(self.member, to, notices)
    }

    fn receive(&mut self, from: u32) -> Option<Notices> {
        self.board.receive(self.member, from)
    }
}
