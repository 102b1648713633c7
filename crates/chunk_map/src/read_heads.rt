// Heads and superblocks are read.
ghost use Rattle.std.specs.Prelude.{◌≡◌, ℕ, ◌+◌, ◌*◌, ◌/◌, ◌%◌, ◌^◌, ◌≤◌, ◌<◌, IfOk, IfErr, Option, None};
ghost use Rattle.pm_region.specs.State.{State, Frame, IsTelling, cell_now};
ghost use Rattle.pm_region.specs.Words.{lasts};
ghost use Rattle.chunk_map.specs.Layouts.{head_at, total_bytes, IsLayout, layout_rule};
ghost use Rattle.chunk_map.specs.Setting.{HeadLies};
ghost use Rattle.chunk_map.specs.Checked.{checked_head, FitsHead, checked_superblock, IsLength};

use crate::heads::{BadHead, Head, head_by};
use crate::layout_sizes::{FORMAT, MAGIC, SUPERBLOCK_BYTES};
use crate::layouts::Layout;
use crate::superblock::NotARegion;
use pm_region::{MOST_BYTES, Region, WORD_BYTES};

/// The head of a chunk, or the rule that it breaks. The address is a word number of the region.
pub fn read_head<R: Region>(region: &R, layout: &Layout, at: u64) -> Result<Head, BadHead>
    requires { HeadLies (R.state region.now).frame at }
    ensures told { IsTelling (R.state region.now)
        → result ≡ checked_head (head_at layout.now (lasts (R.state region.now)) at) }
    // Whatever the region tells.
    ensures fits { IfOk result (FitsHead layout.now) }
{
    let geometry = layout.geometry();
    let kind = region.load(at);
    let tail = region.load(at + 1);
    match head_by(&geometry, kind, tail) {
        Ok(head) => Ok(head),
        Err(rule) => Err(BadHead { rule }),
    }
}

/// The layout of a region of so many bytes, or the first rule that its superblock breaks.
pub fn read_superblock<R: Region>(region: &R, bytes: u64) -> Result<Layout, NotARegion>
    requires first { (R.state region.now).frame.first ≡ 0 }
    requires words { IsLength bytes → (R.state region.now).frame.words ≡ bytes / WORD_BYTES }
    ensures told { IsTelling (R.state region.now)
        → result ≡ checked_superblock bytes (lasts (R.state region.now)) }
    // Whatever the region tells.
    ensures bytes { IfOk result (λ l. IsLayout l × (total_bytes l ≡ bytes)) }
{
    if !(bytes % WORD_BYTES == 0 && bytes >= SUPERBLOCK_BYTES && bytes <= MOST_BYTES) {
        return Err(NotARegion { rule: 1 });
    }
    if !(region.load(0) == MAGIC && region.load(1) == FORMAT) {
        return Err(NotARegion { rule: 2 });
    }
    match Layout::of_numbers(
        region.load(2),
        region.load(3),
        region.load(4),
        region.load(5),
    ) {
        Some(layout) if layout.total_bytes() == bytes => Ok(layout),
        _ => Err(NotARegion { rule: 3 }),
    }
}
