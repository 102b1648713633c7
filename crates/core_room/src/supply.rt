// What a core has free, and what it has promised.
ghost use Rattle.std.specs.Prelude.{◌≡◌, ◌+◌, ◌<◌, ◌^◌};
ghost use Rattle.core_room.specs.RoomRule.{pledged, lacks_room, may_cut, lacks_block, counts_at, shortage_at};

use crate::types::{Counts, Shortage};

/// The room of a core at one moment. Lines are of 64 bytes.
#[derive(Clone, Copy, Debug, PartialEq, Eq)]
pub struct Supply {
    /// Free chunks of the core's part.
    pub free_chunks: u32,
    /// Free lines of the open log chunk, 0 where none is open.
    pub open_lines: u64,
    /// Lines that are promised to changes under way.
    pub own_lines: u64,
    /// Lines that a cleaning under way has still to copy, 0 where none is.
    pub rest_lines: u64,
}

impl Supply {
    /// The lines that are promised.
    pub fn pledged(&self) -> u64
        requires { pledged self.now < 2 ^ 64 }
        ensures { result ≡ pledged self.now }
    {
        self.own_lines + self.rest_lines
    }

    /// Whether an entry of so many lines fits neither in the open chunk nor in a fresh one.
    pub fn lacks_room(&self, need: u64) -> bool
        requires { pledged self.now + need < 2 ^ 64 }
        ensures { result ≡ lacks_room self.now need }
    {
        self.open_lines < self.pledged() + need && self.free_chunks < 2
    }

    /// Whether a chunk may be cut into blocks, and still an entry of so many lines fits.
    pub fn may_cut(&self, need: u64) -> bool
        requires { pledged self.now + need < 2 ^ 64 }
        ensures { result ≡ may_cut self.now need }
    {
        self.free_chunks >= 3 || (self.free_chunks == 2 && self.pledged() + need <= self.open_lines)
    }

    // Whether a value needs a block of the class, of which so many are free, and gets none.
    fn lacks_block(&self, need: u64, class: u32, free_blocks: u32) -> bool
        requires { pledged self.now + need < 2 ^ 64 }
        ensures { result ≡ lacks_block self.now need class free_blocks }
    {
        class != 0 && free_blocks == 0 && !self.may_cut(need)
    }

    /// The numbers of a refusal, of a change that needs so many lines, and a block of the class or none.
    fn counts(&self, need: u64, class: u32, free_blocks: u32) -> Counts
        requires { pledged self.now < 2 ^ 64 }
        ensures { result ≡ counts_at self.now need class free_blocks }
    {
        Counts {
            free_chunks: self.free_chunks,
            open_lines: self.open_lines,
            pledged_lines: self.pledged(),
            need_lines: need,
            class,
            free_blocks: if class == 0 { 0 } else { free_blocks },
        }
    }

    /// Why a change finds no place that needs so many lines of the log, and a block of the class, of which so many are
    /// free, or no block where the class is 0.
    pub fn shortage(&self, need: u64, class: u32, free_blocks: u32) -> Option<Shortage>
        requires { pledged self.now + need < 2 ^ 64 }
        ensures { result ≡ shortage_at self.now need class free_blocks }
    {
        if self.lacks_room(need) {
            return Some(Shortage::Room(self.counts(need, class, free_blocks)));
        }
        if self.lacks_block(need, class, free_blocks) {
            return Some(Shortage::Block(self.counts(need, class, free_blocks)));
        }
        None
    }
}
