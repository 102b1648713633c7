// Whether the copies of a chunk fit.
ghost use Rattle.std.specs.Prelude.{◌≡◌, ◌+◌, nat_le};
ghost use Rattle.log_cleaner.specs.Choosing.{copy_lines, has_room};

use crate::types::Victim;
use core_log::Room;
use log_entry::MOST_ENTRIES;
use pm_region::LINE_WORDS;

// The lines that the copies take at most.
pub(crate) fn copy_lines(victim: Victim) -> u64
    ensures { result ≡ copy_lines victim }
{
    victim.words.div_ceil(LINE_WORDS) + victim.entries.div_ceil(u64::from(MOST_ENTRIES))
}

// Whether the open chunk has so many lines besides what is promised.
fn has_lines(room: &Room, lines: u64) -> bool
    ensures { result ≡ nat_le (room.now.pledged_lines + lines) room.now.open_lines }
{
    lines <= room.open_lines && room.pledged_lines <= room.open_lines - lines
}

// Whether a chunk with so many lines to copy may be cleaned: they are a third of a payload at most, and there is room
// for them.
pub(crate) fn has_room(room: &Room, lines: u64) -> bool
    ensures { result ≡ has_room room.now lines }
{
    lines <= room.payload_lines / 3 && (has_lines(room, lines) || room.free_chunks >= 1)
}
