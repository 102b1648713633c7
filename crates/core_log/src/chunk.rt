// One chunk of a log: a batch is appended behind its tail.
ghost use Rattle.std.specs.Prelude.{◌≡◌, ◌⊎◌, ℕ, ◌+◌, ◌-◌, ◌*◌, ◌/◌, ◌%◌, ◌^◌, ◌≤◌, ◌<◌, length, [], slice_index, OnOk, OnErr};
ghost use Rattle.pm_region.specs.Cell.{Cell, certain};
ghost use Rattle.pm_region.specs.State.{State, During, IsTelling, cell_now, Faulted, WordsLie};
ghost use Rattle.pm_region.specs.Words.{KeepsOutside, EachIn, Surely, lines_for};
ghost use Rattle.core_log.specs.Chunk.{padded, words_now, HasOrLacks, ChunkLies, IsLog, Appended};

use chunk_map::layout_sizes::{HEAD_LINES, HEAD_WORDS};
use chunk_map::words::{flush_lines, set_word};
use pm_region::{LINE_WORDS, Region, RegionFault};

// The word of a list, or 0 behind its end.
fn word_or_zero(words: &[u64], at: u64) -> u64
    ensures { result ≡ slice_index words.now at }
{
    if at < words.len() as u64 {
        words[at as usize]
    } else {
        0
    }
}

// Stores so many words: those of the list, then zeros.
fn store_all<R: Region>(region: &mut R, at: u64, words: &[u64], count: u64)
    requires { WordsLie (R.state region.old).frame at count }
    ensures run { During (R.state region.old) (R.state region.new)
        (KeepsOutside (cell_now (R.state region.old)) at (at + count)) }
    ensures stored { IsTelling (R.state region.new) → (j : ℕ) → j < count
        → (cell_now (R.state region.new) (at + j)).last ≡ slice_index words.now j }
{
    for i in 0..count {
        region.store(at + i, word_or_zero(words, i));
    }
}

// Makes so many lines certain: the words of the list, then zeros.
fn write_lines<R: Region>(
    region: &mut R,
    line: u64,
    words: &[u64],
    lines: u64,
) -> Result<(), RegionFault>
    requires { WordsLie (R.state region.old).frame (LINE_WORDS * line) (LINE_WORDS * lines) }
    ensures run { During (R.state region.old) (R.state region.new)
        (KeepsOutside (cell_now (R.state region.old)) (LINE_WORDS * line)
        (LINE_WORDS * (line + lines))) }
    ensures ok { OnOk result (IsTelling (R.state region.new) → (j : ℕ) → j < LINE_WORDS * lines
        → cell_now (R.state region.new) (LINE_WORDS * line + j)
        ≡ certain (slice_index words.now j)) }
    ensures cause { OnErr result (Faulted (R.state region.old) (R.state region.new)) }
{
    store_all(region, LINE_WORDS * line, words, LINE_WORDS * lines);
    flush_lines(region, line, lines);
    region.fence()
}

/// Appends a batch to a chunk of a log, with zeros up to a line's end. At every moment an image has it
/// wholly or not at all. The chunk begins at word `at` and has `words` words.
pub fn append_at<R: Region>(
    region: &mut R,
    at: u64,
    words: u64,
    tail: u64,
    batch: &[u64],
) -> Result<(), RegionFault>
    requires lies { ChunkLies (R.state region.old).frame at words tail }
    requires log { IsTelling (R.state region.old) → IsLog (cell_now (R.state region.old)) at tail }
    requires room { tail + LINE_WORDS * lines_for (length batch.now) + HEAD_WORDS ≤ words }
    ensures moments { During (R.state region.old) (R.state region.new) (EachIn at (at + words)
        (HasOrLacks at tail (words_now (R.state region.old) at tail) (padded batch.now))) }
    ensures outside { During (R.state region.old) (R.state region.new)
        (KeepsOutside (cell_now (R.state region.old)) at (at + words)) }
    ensures ok { OnOk result (IsTelling (R.state region.new)
        → Appended (R.state region.old) (R.state region.new) at tail (padded batch.now)) }
    ensures cause { OnErr result (Faulted (R.state region.old) (R.state region.new)) }
{
    let lines = (batch.len() as u64 + 7) / LINE_WORDS;
    write_lines(
        region,
        at / LINE_WORDS + HEAD_LINES + tail / LINE_WORDS,
        batch,
        lines,
    )?;
    set_word(region, at + 1, tail + LINE_WORDS * lines)
}
