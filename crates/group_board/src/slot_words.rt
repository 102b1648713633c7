// What the word of a slot tells, and how long an entry is.
ghost use Rattle.std.specs.Prelude.{◌≡◌, length};
ghost use Rattle.log_entry.specs.Spelling.{words_of};
ghost use Rattle.group_laws.specs.State.{word_shown};

use group_laws::types::{Slot, SlotWord};
use log_entry::entry::{Body, Entry};
use log_entry::entry_limits::SHORTEST_ENTRY;
use pm_region::WORD_BYTES;

/// How many words an entry has. It asks for no spelling, since a state may hold any entries.
pub fn words_in(entry: &Entry) -> u64
    ensures { result ≡ length (words_of entry.now) }
{
    match &entry.body {
        Body::Embedded(value) => {
            let bytes = value.bytes().len() as u64;
            SHORTEST_ENTRY + bytes.div_ceil(WORD_BYTES)
        }
        Body::Pointer(_) => SHORTEST_ENTRY,
        Body::Tombstone => SHORTEST_ENTRY,
    }
}

/// What the word of a slot tells.
pub fn word_of(slot: &Slot) -> SlotWord
    ensures { result ≡ word_shown slot.now }
{
    match slot {
        Slot::Empty => SlotWord::Empty,
        Slot::Posted(entry) => SlotWord::Posted(words_in(entry)),
        Slot::Taken => SlotWord::Taken,
        Slot::Done(_, home) => SlotWord::Done(*home),
        Slot::Failed(_) => SlotWord::Failed,
    }
}
