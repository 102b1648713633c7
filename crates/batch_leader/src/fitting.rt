// Which entries fit into a batch.
ghost use Rattle.std.specs.Prelude.{◌≡◌, ℕ, ◌+◌, ◌/◌, ◌≤◌, ◌==◌, true, length, MatchOption, if◌then◌else◌};
ghost use Rattle.pm_region.specs.Words.{lines_for};
ghost use Rattle.batch_leader.specs.Leading.{Fits, taken_by};
ghost use Rattle.batch_leader.specs.Rounds.{fits, Passes, goes_fresh, stays_in, leaves_room, has_chunk, left_free, space, words_taken};

use crate::states::Collecting;
use core_log::Room;
use group_board::SlotState;
use log_entry::{LONGEST_ENTRY, LONGEST_ENTRY_LINES};
use pm_region::LINE_WORDS;

// The lines that are free for the batch in its chunk.
fn space(room: &Room, fresh: bool) -> u64
    ensures { result ≡ space room.now fresh }
{
    if fresh {
        room.payload_lines
    } else {
        room.open_lines
    }
}

// The free chunks that the batch leaves.
fn left_free(room: &Room, fresh: bool) -> u32
    ensures { result ≡ left_free room.now fresh }
{
    if fresh {
        room.free_chunks.saturating_sub(1)
    } else {
        room.free_chunks
    }
}

// There is a chunk for the batch.
fn has_chunk(room: &Room, fresh: bool) -> bool
    ensures { result ≡ has_chunk room.now fresh }
{
    !fresh || 0 < room.free_chunks
}

/// The lines of an entry of so many words, where it is an own one.
pub fn own_share(own: u32, member: u32, count: u64) -> u64
    requires { count ≤ LONGEST_ENTRY }
    ensures share { result ≡ (if member == own then lines_for count else 0) }
    ensures few { result ≤ LONGEST_ENTRY_LINES }
{
    if member == own {
        count.div_ceil(LINE_WORDS)
    } else {
        0
    }
}

impl Collecting {
    /// Whether the batch goes into a fresh chunk, once an entry of so many words is taken.
    #[tactic(auto, unfolding(crate::specs::Rounds::goes_fresh))]
    pub(crate) fn goes_fresh(&self, words: u64, room: &Room) -> bool
        requires { words ≤ LONGEST_ENTRY }
        ensures { result ≡ goes_fresh room.now (taken_by self.now) self.now.fresh words }
    {
        if self.changes.is_empty() {
            room.open_lines < words.div_ceil(LINE_WORDS)
        } else {
            self.fresh
        }
    }

    // The lines of the batch with so many words more.
    fn lines_with(&self, words: u64) -> u64
        requires { words ≤ LONGEST_ENTRY }
        ensures { result ≡ lines_for (words_taken (taken_by self.now) + words) }
    {
        (self.changes.word_count() + words).div_ceil(LINE_WORDS)
    }

    #[tactic(auto, unfolding(crate::specs::Rounds::stays_in))]
    fn stays_in(&self, fresh: bool, words: u64, room: &Room) -> bool
        requires { words ≤ LONGEST_ENTRY }
        ensures { result ≡ stays_in room.now (taken_by self.now) fresh words }
    {
        self.changes.is_empty() || self.lines_with(words) <= space(room, fresh)
    }

    #[tactic(auto, unfolding(crate::specs::Rounds::leaves_room))]
    fn leaves_room(&self, fresh: bool, words: u64, room: &Room) -> bool
        requires { words ≤ LONGEST_ENTRY }
        ensures { result ≡ leaves_room room.now self.now.own_lines (taken_by self.now) fresh words }
    {
        let left = space(room, fresh).saturating_sub(self.lines_with(words));
        let pledged = room.pledged_lines.saturating_sub(self.own_lines);
        pledged <= left || 2 <= left_free(room, fresh)
    }

    // An entry of so many words fits into the batch.
    #[tactic(auto, unfolding(crate::specs::Rounds::fits))]
    fn fits(&self, mine: bool, words: u64, room: &Room) -> bool
        requires { words ≤ LONGEST_ENTRY }
        ensures { result ≡ fits room.now self.now.own_lines
            (taken_by self.now) self.now.fresh mine words }
    {
        let fresh = self.goes_fresh(words, room);
        self.stays_in(fresh, words, room)
            && has_chunk(room, fresh)
            && (mine || self.leaves_room(fresh, words, room))
    }

    /// How many words the entry has that a look found, where it fits.
    #[tactic(auto, unfolding(crate::specs::Rounds::fits))]
    pub(crate) fn wanted(&self, found: SlotState, mine: bool, room: &Room) -> Option<u64>
        ensures { MatchOption result
            (Passes room.now self.now.own_lines (taken_by self.now) self.now.fresh mine found)
            (λ n. Fits room.now self.now.own_lines
            (taken_by self.now) self.now.fresh mine found n) }
    {
        match found {
            SlotState::Posted { words } => {
                if words <= LONGEST_ENTRY {
                    if self.fits(mine, words, room) {
                        Some(words)
                    } else {
                        None
                    }
                } else {
                    None
                }
            }
            _ => None,
        }
    }
}
