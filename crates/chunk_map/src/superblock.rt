// The superblock: the magic word, the format and the four numbers of the layout, in words 0 to 5.
ghost use Rattle.std.specs.Prelude.{◌≡◌, ◌⊎◌, ℕ, ◌+◌, ◌*◌, ◌/◌, ◌%◌, ◌^◌, ◌≤◌, ◌<◌, length, slice_index, IfOk, OnOk, OnErr};
ghost use Rattle.pm_region.specs.Cell.{Cell, certain};
ghost use Rattle.pm_region.specs.State.{State, Frame, During, IsTelling, cell_now, Faulted, LineInRange};
ghost use Rattle.pm_region.specs.Words.{KeepsOutside, EachIn, Surely, lasts};
ghost use Rattle.chunk_map.specs.Layouts.{total_bytes, IsLayout};
ghost use Rattle.chunk_map.specs.Checked.{checked_superblock};
ghost use Rattle.chunk_map.specs.Superblock.{IsSuperblock, MayHaveSuperblock, IsRefusedOrWhole, NarrowsOutside};

use crate::layout_sizes::{FORMAT, MAGIC};
use crate::layouts::Layout;
use crate::words::{set_word, store_words};
use pm_region::{LINE_WORDS, Region, RegionFault};

/// The region has no superblock: rule 1, its length in bytes is none; 2, the magic word or the format; 3, the
/// numbers of the layout, or the length is another one. The first that is broken.
#[derive(Clone, Copy, Debug, PartialEq, Eq)]
pub struct NotARegion {
    /// 1, 2 or 3.
    pub rule: u32,
}

// Makes words of one line certain, and stores no other word.
fn write_in_line<R: Region>(region: &mut R, at: u64, words: &[u64]) -> Result<(), RegionFault>
    requires lies { LineInRange (R.state region.old).frame (at / LINE_WORDS) }
    requires within { at + length words.now ≤ LINE_WORDS * (at / LINE_WORDS) + LINE_WORDS }
    requires fits { at + length words.now < 2 ^ 64 }
    ensures run { During (R.state region.old) (R.state region.new)
        (KeepsOutside (cell_now (R.state region.old)) (LINE_WORDS * (at / LINE_WORDS))
        (LINE_WORDS * (at / LINE_WORDS) + LINE_WORDS)) }
    ensures others { During (R.state region.old) (R.state region.new)
        (NarrowsOutside (cell_now (R.state region.old)) at (at + length words.now)) }
    ensures ok { OnOk result (IsTelling (R.state region.new) → (j : ℕ) → j < length words.now
        → cell_now (R.state region.new) (at + j) ≡ certain (slice_index words.now j)) }
    ensures cause { OnErr result (Faulted (R.state region.old) (R.state region.new)) }
{
    store_words(region, at, words);
    region.flush(at / LINE_WORDS);
    region.fence()
}

/// Writes the superblock of a layout: words 1 to 5 are certain before the magic word is stored. Two fences.
pub fn write_superblock<R: Region>(region: &mut R, layout: &Layout) -> Result<(), RegionFault>
    requires first { (R.state region.old).frame.first ≡ 0 }
    requires words { LINE_WORDS ≤ (R.state region.old).frame.words }
    // At each moment word 0 is what it might be before, or the whole superblock is there.
    ensures moments { During (R.state region.old) (R.state region.new)
        (EachIn 0 6 (MayHaveSuperblock (cell_now (R.state region.old)) layout.now)) }
    // No word but the six is stored, and no line but the first is flushed.
    ensures outside { During (R.state region.old) (R.state region.new)
        (KeepsOutside (cell_now (R.state region.old)) 0 LINE_WORDS) }
    ensures others { During (R.state region.old) (R.state region.new)
        (NarrowsOutside (cell_now (R.state region.old)) 0 6) }
    // Over a zero magic word each image is refused by rule 2 or has the whole superblock.
    ensures fresh { (IsTelling (R.state region.old) → Surely (cell_now (R.state region.old) 0) 0)
        → During (R.state region.old) (R.state region.new)
        (EachIn 0 6 (IsRefusedOrWhole layout.now (total_bytes layout.now))) }
    ensures ok { OnOk result (IsTelling (R.state region.new)
        → EachIn 0 6 (IsSuperblock layout.now) (cell_now (R.state region.new))) }
    ensures cause { OnErr result (Faulted (R.state region.old) (R.state region.new)) }
{
    let geometry = layout.geometry();
    let numbers = [
        FORMAT,
        geometry.cores as u64,
        geometry.group as u64,
        geometry.chunks as u64,
        geometry.chunk_bytes,
    ];
    write_in_line(region, 1, &numbers)?;
    set_word(region, 0, MAGIC)
}
