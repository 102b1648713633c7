// Collecting under the lock, and giving it back.
ghost use Rattle.std.specs.Prelude.{◌≡◌, ◌≢◌, ◌⊎◌, ℕ, ◌+◌, ◌-◌, ◌*◌, ◌/◌, ◌%◌, ◌<◌, ◌≤◌, ◌==◌, true, false, [], ◌∷◌, ◌++◌, length, Option};
ghost use Rattle.log_entry.specs.Spelling.{words_of};
ghost use Rattle.store_image.specs.Facts.{In};
ghost use Rattle.group_laws.specs.Runs as runs;
ghost use Rattle.group_laws.specs.declared.types.Seen.TheVariants as loads;
ghost use Rattle.group_laws.specs.declared.types.SlotWord.TheVariants as words;
ghost use Rattle.group_laws.specs.Places.{members};
ghost use Rattle.group_board.specs.Views.{after_unlock};
ghost use Rattle.group_board.specs.Told.{Makes};
ghost use Rattle.group_board.specs.Trails.{step_with};
ghost use Rattle.batch_leader.specs.Leading.{Collects, Suits, Takes, Went, SawPassed, IsOver, steps_of, MakesAll, IsReleased, took, taken_by};
ghost use Rattle.batch_leader.specs.Rounds.{fits, member_at, slot_at, round_end};
ghost use Rattle.batch_leader.specs.TakenChanges.{MatchBool};
ghost use Rattle.batch_leader.specs.TurnSteps.{OnlyLoads, LoadsThenOne};
ghost use Rattle.batch_leader.specs.declared.states.Collected.TheVariants as answers;

use crate::fitting::own_share;
use crate::round::{member_at, slot_at};
use crate::states::{Batch, Collected, Collecting, Released};
use chunk_map::layout_sizes::MOST_GROUP;
use core_log::Room;
use group_board::Board;
use group_laws::group_sizes::SLOTS;
use log_entry::{LONGEST_ENTRY, LONGEST_ENTRY_LINES, MOST_ENTRIES};

impl Collecting {
    // Takes the change of the slot at the round's position, which a look found Posted and which fits.
    fn take_here<B: Board>(
        &mut self,
        board: &mut B,
        own: u32,
        member: u32,
        slot: u32,
        count: u64,
        room: &Room,
    )
        requires collects { Collects (B.seat board.old) (B.view board.old) self.old }
        requires whole { (B.view board.old).broken ≡ false }
        requires few { length (taken_by self.old) < MOST_ENTRIES }
        requires within { self.old.at < round_end (B.seat board.old).place }
        requires suits { Suits room.now self.old }
        requires group { members (B.seat board.old).place ≤ MOST_GROUP }
        requires room { LONGEST_ENTRY_LINES ≤ room.now.payload_lines }
        requires own { own ≡ (B.seat board.old).number }
        requires member { member ≡ member_at (B.seat board.old).number self.old.at }
        requires slot { slot ≡ slot_at self.old.at }
        requires short { count ≤ LONGEST_ENTRY }
        requires seen { In (loads.Slot member slot (words.Posted count)) (B.view board.old).looked }
        requires fits { fits room.now self.old.own_lines (taken_by self.old) self.old.fresh
            (member == own) count ≡ true }
        ensures seat { B.seat board.new ≡ B.seat board.old }
        ensures collects { Collects (B.seat board.old) (B.view board.new) self.new }
        ensures suits { Suits room.now self.new }
        ensures at { self.new.at ≡ self.old.at + 1 }
        ensures takes { Takes room.now (B.seat board.old).number (B.view board.old)
            (B.view board.new)
            self.old self.new }
        ensures step { B.trail board.new
            ≡ step_with (runs.Kind.Take member slot) (B.view board.new) ∷ B.trail board.old }
        ensures whole { Makes (B.whole board.old) (B.seat board.old).number
            (runs.Kind.Take member slot) (B.whole board.new) (B.view board.new) }
    {
        let fresh = self.goes_fresh(count, room);
        let lines = own_share(own, member, count);
        let change = board.take(member, slot);
        self.own_lines += lines;
        self.changes.add(member, slot, change);
        self.fresh = fresh;
        self.at += 1;
        self.over = false;
    }

    // Looks at the slot at the round's position, and takes its change where that fits. Else it passes the slot.
    fn visit<B: Board>(&mut self, board: &mut B, room: &Room) -> bool
        requires collects { Collects (B.seat board.old) (B.view board.old) self.old }
        requires whole { (B.view board.old).broken ≡ false }
        requires few { length (taken_by self.old) < MOST_ENTRIES }
        requires within { self.old.at < round_end (B.seat board.old).place }
        requires suits { Suits room.now self.old }
        requires group { members (B.seat board.old).place ≤ MOST_GROUP }
        requires room { LONGEST_ENTRY_LINES ≤ room.now.payload_lines }
        ensures seat { B.seat board.new ≡ B.seat board.old }
        ensures collects { Collects (B.seat board.old) (B.view board.new) self.new }
        ensures suits { Suits room.now self.new }
        ensures at { self.new.at ≡ self.old.at + 1 }
        ensures went { Went result (B.whole board.old) room.now (B.seat board.old).number
            (B.view board.old) (B.view board.new) self.old self.new }
        ensures seen { result ≡ false → SawPassed room.now (B.seat board.old).number
            (B.view board.old) (B.view board.new) self.old self.new }
        ensures made { MakesAll (B.whole board.old)
            (steps_of result (B.seat board.old).number self.old self.new)
            (B.whole board.new) (B.seat board.old).number (B.view board.new) }
        ensures steps { MatchBool result (LoadsThenOne (B.view board.old) (B.view board.new)
            (B.trail board.old) (B.trail board.new))
            (OnlyLoads (B.view board.old) (B.view board.new)
            (B.trail board.old) (B.trail board.new)) }
    {
        let own = board.member();
        let member = member_at(own, self.at);
        let slot = slot_at(self.at);
        let found = board.look(member, slot);
        match self.wanted(found, member == own, room) {
            Some(count) => {
                self.take_here(board, own, member, slot, count, room);
                true
            }
            None => {
                self.at += 1;
                false
            }
        }
    }

    /// Goes on with the round: looks at the slots from where it stands, first the own ones, then those of the other
    /// members by rising number, and takes the first change that it finds Posted and that fits. It answers RoundOver
    /// exactly where the round's end is reached, or the batch has as many entries as it may. The room is that of the
    /// own part.
    pub fn collect<B: Board>(&mut self, board: &mut B, room: &Room) -> Collected
        requires collects { Collects (B.seat board.old) (B.view board.old) self.old }
        requires whole { (B.view board.old).broken ≡ false }
        requires suits { Suits room.now self.old }
        requires group { members (B.seat board.old).place ≤ MOST_GROUP }
        requires room { LONGEST_ENTRY_LINES ≤ room.now.payload_lines }
        ensures seat { B.seat board.new ≡ B.seat board.old }
        ensures collects { Collects (B.seat board.old) (B.view board.new) self.new }
        ensures suits { Suits room.now self.new }
        ensures went { Went (took result) (B.whole board.old) room.now (B.seat board.old).number
            (B.view board.old) (B.view board.new) self.old self.new }
        // Where it took nothing, its view has what it loaded of each slot that it passed.
        ensures seen { result ≡ answers.RoundOver → SawPassed room.now (B.seat board.old).number
            (B.view board.old) (B.view board.new) self.old self.new }
        ensures over { result ≡ answers.RoundOver
            → (self.new.over ≡ true) × IsOver (B.seat board.old) self.new }
        ensures made { MakesAll (B.whole board.old)
            (steps_of (took result) (B.seat board.old).number self.old self.new)
            (B.whole board.new) (B.seat board.old).number (B.view board.new) }
        ensures steps { MatchBool (took result)
            (LoadsThenOne (B.view board.old) (B.view board.new)
            (B.trail board.old) (B.trail board.new))
            (OnlyLoads (B.view board.old) (B.view board.new)
            (B.trail board.old) (B.trail board.new)) }
    {
        let end = SLOTS * board.members();
        'round: while self.changes.count() < MOST_ENTRIES && self.at < end {
            if self.visit(board, room) {
                return Collected::Took;
            }
        }
        self.over = true;
        Collected::RoundOver
    }

    /// Gives the lock back. What was taken becomes a batch.
    pub fn release<B: Board>(self, board: &mut B) -> Released
        requires collects { Collects (B.seat board.old) (B.view board.old) self }
        requires over { self.over ≡ true }
        ensures seat { B.seat board.new ≡ B.seat board.old }
        ensures view { B.view board.new ≡ after_unlock (B.view board.old) }
        ensures released { IsReleased (B.seat board.old) (B.view board.new) self result }
        ensures step { B.trail board.new
            ≡ step_with runs.Kind.Unlock (B.view board.new) ∷ B.trail board.old }
        ensures whole { Makes (B.whole board.old) (B.seat board.old).number
            runs.Kind.Unlock (B.whole board.new) (B.view board.new) }
    {
        board.unlock();
        let Collecting {
            changes,
            at: _,
            fresh,
            own_lines,
            over: _,
        } = self;
        if changes.is_empty() {
            Released::Nothing(changes.into_buffer())
        } else {
            Released::Batch(Batch {
                changes,
                fresh,
                own_lines,
            })
        }
    }
}
