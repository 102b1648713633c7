// How the bytes of a file are read.
ghost use Rattle.std.specs.Prelude.{◌≡◌, ℕ, ◌+◌, ◌*◌, ◌%◌, ◌≤◌, ◌<◌, ◌∷◌, ◌++◌, length, take, drop, slice_index, true, OnOk, OnErr, IfOk};
ghost use Rattle.pm_region.specs.declared.region_sizes.TheConstants.{MOST_BYTES, WORD_BYTES};
ghost use Rattle.region_file.specs.declared.page_size.TheConstants.{PAGE};
ghost use Rattle.region_file.specs.Calls.{gave, refused, OnlyReads};
ghost use Rattle.region_file.specs.Reads.{pages_in, reads_of};

use crate::device::Device;
use crate::file_bytes::FileBytes;
use crate::page_size::PAGE;
use pm_region::byte_words::word;
use pm_region::{AttachError, RegionFault, WORD_BYTES};
use std::alloc::Global;

/// So many bytes from the beginning of the file, read page by page, so that a page is in the processor's cache still when
/// it is kept. One of zeros takes no room.
pub fn read_pages(
    alloc: Global,
    device: &mut Device,
    count: usize,
) -> Result<FileBytes, AttachError>
    requires whole { count % WORD_BYTES ≡ 0 }
    requires most { count ≤ MOST_BYTES }
    ensures count { IfOk result (λ b. length b.items ≡ count) }
    ensures ok { IfOk result (λ b. device.new.calls.made ≡ reads_of b.items (pages_in count)
        ++ device.old.calls.made) }
    ensures err { OnErr result (OnlyReads device.old.calls.made device.new.calls.made) }
{
    let mut bytes = FileBytes::zeros(alloc, count)?;
    let mut room = [0u8; PAGE];
    for page in 0..count.div_ceil(PAGE) {
        let low = PAGE * page;
        read_page(device, &mut bytes, low, &mut room[..PAGE.min(count - low)])?;
    }
    Ok(bytes)
}

// Reads the bytes from a place of the file on that there is room for.
fn read_page(
    device: &mut Device,
    bytes: &mut FileBytes,
    low: usize,
    room: &mut [u8],
) -> Result<(), RegionFault>
    requires some { 0 < length room.old }
    requires whole { length room.old % WORD_BYTES ≡ 0 }
    requires within { low + length room.old ≤ length bytes.old.items }
    ensures count { length bytes.new.items ≡ length bytes.old.items }
    ensures room { length room.new ≡ length room.old }
    ensures others { (k : ℕ) → k < low → slice_index bytes.new.items k ≡ slice_index bytes.old.items k }
    ensures ok { OnOk result (device.new.calls.made
        ≡ gave low (take (length room.old) (drop low bytes.new.items)) ∷ device.old.calls.made) }
    ensures err { OnErr result (device.new.calls.made ≡ refused ∷ device.old.calls.made) }
{
    device.read(low as u64, room)?;
    if bytes.blank(low) >= room.len() && are_zeros(room) {
        return Ok(());
    }
    bytes.put(low, room);
    Ok(())
}

// Whether all of them are zeros.
fn are_zeros(bytes: &[u8]) -> bool
    requires { length bytes.now % WORD_BYTES ≡ 0 }
    ensures { result ≡ true → (j : ℕ) → j < length bytes.now → slice_index bytes.now j ≡ 0 }
{
    let mut bits = 0;
    for place in 0..bytes.len() as u64 / WORD_BYTES {
        bits |= word(bytes, place);
    }
    bits == 0
}
