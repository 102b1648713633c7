// A value is written to its block: its length in the block's first word, and its bytes behind.
ghost use Rattle.std.specs.Prelude.{◌≡◌, ◌⊎◌, ℕ, ◌+◌, ◌-◌, ◌*◌, ◌/◌, ◌%◌, ◌^◌, ◌≤◌, ◌<◌, length, slice_index, OnOk, OnErr};
ghost use Rattle.pm_region.specs.Cell.{Cell, certain};
ghost use Rattle.pm_region.specs.State.{State, During, IsTelling, cell_now, Faulted, WordsLie};
ghost use Rattle.pm_region.specs.Words.{KeepsOutside};
ghost use Rattle.log_entry.specs.Words.{words_for};
ghost use Rattle.lazy_alloc.specs.Written.{block_words, block_lines};

use chunk_map::words::flush_lines;
use log_entry::packing::{word_at, words_for};
use pm_region::{LINE_WORDS, Region, RegionFault, WORD_BYTES};

// A word of a block: the length, or eight bytes of the value with zeros past its end.
fn block_word(value: &[u8], at: u64) -> u64
    requires { at ≤ words_for (length value.now) }
    ensures { result ≡ slice_index (block_words value.now) at }
{
    if at == 0 {
        value.len() as u64
    } else {
        word_at(value, WORD_BYTES as usize * (at as usize - 1))
    }
}

// Stores the length and the words of the value, and no other word.
fn store_block<R: Region>(region: &mut R, at: u64, value: &[u8], count: u64)
    requires count { count ≡ 1 + words_for (length value.now) }
    requires lies { WordsLie (R.state region.old).frame at count }
    ensures run { During (R.state region.old) (R.state region.new)
        (KeepsOutside (cell_now (R.state region.old)) at (at + count)) }
    ensures stored { IsTelling (R.state region.new) → (j : ℕ) → j < count
        → (cell_now (R.state region.new) (at + j)).last ≡ slice_index (block_words value.now) j }
{
    for i in 0..count {
        region.store(at + i, block_word(value, i));
    }
}

/// Makes the length and the value certain: each touched line is flushed once, and one fence follows. The block begins
/// at line `line`.
pub fn write_block<R: Region>(region: &mut R, line: u64, value: &[u8]) -> Result<(), RegionFault>
    requires { WordsLie (R.state region.old).frame (LINE_WORDS * line)
        (LINE_WORDS * block_lines value.now) }
    ensures run { During (R.state region.old) (R.state region.new)
        (KeepsOutside (cell_now (R.state region.old)) (LINE_WORDS * line)
        (LINE_WORDS * (line + block_lines value.now))) }
    ensures ok { OnOk result (IsTelling (R.state region.new) → (j : ℕ)
        → j < 1 + words_for (length value.now)
        → cell_now (R.state region.new) (LINE_WORDS * line + j)
        ≡ certain (slice_index (block_words value.now) j)) }
    ensures cause { OnErr result (Faulted (R.state region.old) (R.state region.new)) }
{
    let count = 1 + words_for(value.len() as u64);
    store_block(region, LINE_WORDS * line, value, count);
    flush_lines(region, line, count.div_ceil(LINE_WORDS));
    region.fence()
}
