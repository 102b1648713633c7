// The runs of neighbours among the flushed lines of a file.
ghost use Rattle.std.specs.Prelude.{◌≡◌, ◌≢◌, ℕ, ◌+◌, ◌-◌, ◌*◌, ◌≤◌, ◌<◌, ◌∷◌, length, take, drop, slice_index, OnOk, OnErr};
ghost use Rattle.region_file.specs.Calls.{wrote, failed};
ghost use Rattle.region_file.specs.LineRuns.{AreRuns, AreCutShort, IsRun};

use crate::device::Device;
use crate::file_bytes::FileBytes;
use pm_region::{LINE_BYTES, MOST_BYTES, RegionFault};

/// Where the run of neighbours ends that begins at a place of this list of lines.
pub fn run_end(lines: &[u32], from: usize) -> usize
    requires { from < length lines.now }
    ensures after { from < result }
    ensures within { result ≤ length lines.now }
    ensures neighbours { (j : ℕ) → from + j < result → slice_index lines.now (from + j)
        ≡ slice_index lines.now from + j }
    ensures longest { result < length lines.now → slice_index lines.now result ≢ slice_index
        lines.now from + (result - from) }
{
    let first = u64::from(lines[from]);
    for end in from + 1..lines.len() {
        if u64::from(lines[end]) != first + (end - from) as u64 {
            return end;
        }
    }
    lines.len()
}

/// Writes these lines to the file, where the bytes begin at the byte `start`, each run of neighbours at once, but for the
/// ends of pages.
pub fn write_runs(
    device: &mut Device,
    start: u64,
    lines: &[u32],
    bytes: &FileBytes,
) -> Result<(), RegionFault>
    requires start { start ≤ MOST_BYTES }
    requires within { (j : ℕ) → j < length lines.now
        → LINE_BYTES * slice_index lines.now j + LINE_BYTES
        ≤ length bytes.now.items }
    ensures ok { OnOk result (AreRuns start lines.now bytes.now.items (length lines.now)
        device.old.calls.made device.new.calls.made) }
    ensures err { OnErr result (AreCutShort start lines.now bytes.now.items device.old.calls.made
        device.new.calls.made) }
{
    let mut from = 0;
    while from < lines.len() {
        let run = run_bytes(lines, from, bytes);
        device.write(start + LINE_BYTES * u64::from(lines[from]), run)?;
        from += run.len() / LINE_BYTES as usize;
    }
    Ok(())
}

// The bytes of the run of neighbours that begins at a place of this list of lines, as far as they stand in one page.
fn run_bytes<'a>(lines: &[u32], from: usize, bytes: &'a FileBytes) -> &'a [u8]
    requires before { from < length lines.now }
    requires within { LINE_BYTES * slice_index lines.now from + LINE_BYTES ≤ length bytes.now.items }
    ensures run { IsRun lines.now bytes.now.items from result.now }
{
    let part = bytes.rest((LINE_BYTES * u64::from(lines[from])) as usize);
    let count = (run_end(lines, from) - from).min(part.len() / LINE_BYTES as usize);
    &part[..LINE_BYTES as usize * count]
}
