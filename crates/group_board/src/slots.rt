// What stands in a slot, and what comes out of it.
ghost use Rattle.std.specs.Prelude.{◌≡◌, ◌+◌, ◌*◌, ◌<◌, Option};
ghost use Rattle.group_laws.specs.declared.types.Slot.TheVariants as slots;
ghost use Rattle.group_board.specs.Told.{state_of, stood_as};
ghost use Rattle.group_board.specs.Slots.{IsPosted, IsOver};

use crate::board::SlotState;
use crate::change::Change;
use chunk_map::layout_sizes::MOST_GROUP;
use group_laws::group_sizes::SLOTS;
use group_laws::types::{Slot, SlotWord};

/// How long a row is: a member has as many slots, and a group at most as many members.
pub const ROW_LENGTH: u32 = SLOTS;

/// The place of a slot or of a mailbox in its list.
pub fn place_of(row: u32, column: u32) -> usize
    requires { (row < MOST_GROUP) × (column < ROW_LENGTH) }
    ensures { result ≡ ROW_LENGTH * row + column }
{
    ROW_LENGTH as usize * row as usize + column as usize
}

/// What a look answers at a word.
pub fn answer_at(word: SlotWord) -> SlotState
    ensures { result ≡ state_of word }
{
    match word {
        SlotWord::Empty => SlotState::Empty,
        SlotWord::Posted(words) => SlotState::Posted { words },
        SlotWord::Taken => SlotState::Taken,
        SlotWord::Done(_) => SlotState::Done,
        SlotWord::Failed => SlotState::Failed,
    }
}

/// The change that a slot offers.
pub fn offered(slot: Slot) -> Change
    requires { IsPosted slot }
    ensures stood { slot ≡ slots.Posted result.entry }
    ensures home { result.home ≡ Option.None }
{
    match slot {
        Slot::Posted(entry) => Change { entry, home: None },
        Slot::Empty => unreachable!(),
        Slot::Taken => unreachable!(),
        Slot::Done(_, _) => unreachable!(),
        Slot::Failed(_) => unreachable!(),
    }
}

/// The change that its leader gave back, with its home where it is Done.
pub fn given_back(slot: Slot) -> Change
    requires { IsOver slot }
    ensures { slot ≡ stood_as result.entry result.home }
{
    match slot {
        Slot::Done(entry, home) => Change {
            entry,
            home: Some(home),
        },
        Slot::Failed(entry) => Change { entry, home: None },
        Slot::Empty => unreachable!(),
        Slot::Posted(_) => unreachable!(),
        Slot::Taken => unreachable!(),
    }
}
