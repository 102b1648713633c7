// Words and lines of a region are stored, flushed and made certain. Addresses are word numbers of the region.
ghost use Rattle.std.specs.Prelude.{◌≡◌, ◌⊎◌, ℕ, ◌+◌, ◌*◌, ◌/◌, ◌^◌, ◌≤◌, ◌<◌, [], length, slice_index, IfOk, OnOk, OnErr};
ghost use Rattle.pm_region.specs.Cell.{Cell, certain};
ghost use Rattle.pm_region.specs.State.{State, During, IsTelling, LineInRange, cell_now, Faulted, WordsLie};
ghost use Rattle.pm_region.specs.Words.{KeepsOutside, Sets, lasts};

use fs_model::Memory;
use pm_region::{LINE_WORDS, Region, RegionFault};
use std::alloc::Global;

/// Stores a word and makes it certain: one store, one flush of its line, one fence. At every moment the word
/// may be what it might be before or the new value.
pub fn set_word<R: Region>(region: &mut R, at: u64, value: u64) -> Result<(), RegionFault>
    requires { LineInRange (R.state region.old).frame (at / LINE_WORDS) }
    ensures run { During (R.state region.old) (R.state region.new)
        (Sets (cell_now (R.state region.old)) (at / LINE_WORDS) at value) }
    ensures ok { OnOk result (IsTelling (R.state region.new) → cell_now (R.state region.new) at
        ≡ certain value) }
    ensures cause { OnErr result (Faulted (R.state region.old) (R.state region.new)) }
{
    region.store(at, value);
    region.flush(at / LINE_WORDS);
    region.fence()
}

/// Stores words, one after another from a place on, and no other word.
pub fn store_words<R: Region>(region: &mut R, at: u64, words: &[u64])
    requires { WordsLie (R.state region.old).frame at (length words.now) }
    ensures run { During (R.state region.old) (R.state region.new)
        (KeepsOutside (cell_now (R.state region.old)) at (at + length words.now)) }
    ensures stored { IsTelling (R.state region.new) → (j : ℕ) → j < length words.now
        → (cell_now (R.state region.new) (at + j)).last ≡ slice_index words.now j }
{
    for (i, word) in words.iter().enumerate() {
        region.store(at + i as u64, *word);
    }
}

/// Flushes so many lines, one after another. A line is named by its number, its first word's divided by 8.
pub fn flush_lines<R: Region>(region: &mut R, line: u64, count: u64)
    requires low { (R.state region.old).frame.first ≤ LINE_WORDS * line }
    requires high { LINE_WORDS * (line + count) ≤ (R.state region.old).frame.first
        + (R.state region.old).frame.words }
    requires fits { line + count < 2 ^ 64 }
    ensures run { During (R.state region.old) (R.state region.new)
        (KeepsOutside (cell_now (R.state region.old)) (LINE_WORDS * line)
        (LINE_WORDS * (line + count))) }
    ensures lasts { IsTelling (R.state region.new) → (w : ℕ)
        → (cell_now (R.state region.new) w).last ≡ (cell_now (R.state region.old) w).last }
    ensures marks { IsTelling (R.state region.new) → (w : ℕ) → LINE_WORDS * line ≤ w
        → w < LINE_WORDS * (line + count)
        → (cell_now (R.state region.new) w).marked ≡ [] }
{
    for i in 0..count {
        region.flush(line + i);
    }
}

// Loads as many words of the region as the slice has places, from a word on.
fn load_into<R: Region>(region: &R, first: u64, words: &mut [u64])
    requires { WordsLie (R.state region.now).frame first (length words.old) }
    ensures long { length words.new ≡ length words.old }
    ensures words { IsTelling (R.state region.now) → (k : ℕ) → k < length words.old
        → slice_index words.new k ≡ lasts (R.state region.now) (first + k) }
{
    for i in 0..words.len() {
        words[i] = region.load(first + i as u64);
    }
}

/// Fills a list with so many words of the region, from a word on, as a load gives each of them. What the list had is
/// written over and its room stays, so one list serves many fillings and has room for the longest.
pub fn fill_words<R: Region>(
    region: &R,
    first: u64,
    count: u64,
    words: &mut Vec<u64>,
) -> Result<(), Memory>
    requires { WordsLie (R.state region.now).frame first count }
    ensures long { OnOk result (length words.new.items ≡ count) }
    ensures words { OnOk result (IsTelling (R.state region.now) → (k : ℕ) → k < count
        → slice_index words.new.items k ≡ lasts (R.state region.now) (first + k)) }
{
    words.resize(count as usize, 0)?;
    load_into(region, first, words);
    Ok(())
}

/// So many words of the region, from a word on, as a load gives each of them.
pub fn load_words<R: Region>(
    alloc: Global,
    region: &R,
    first: u64,
    count: u64,
) -> Result<Vec<u64>, Memory>
    requires { WordsLie (R.state region.now).frame first count }
    ensures long { IfOk result (λ words. length words.items ≡ count) }
    ensures words { IfOk result (λ words. IsTelling (R.state region.now) → (k : ℕ) → k < count
        → slice_index words.items k ≡ lasts (R.state region.now) (first + k)) }
{
    let mut words = Vec::with_capacity(alloc, count as usize)?;
    fill_words(region, first, count, &mut words)?;
    Ok(words)
}
