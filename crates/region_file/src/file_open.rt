// How the file of a region is opened, made and written.
ghost use Rattle.std.specs.Prelude.{false, ◌≡◌, ℕ, ◌*◌, ◌≤◌, [], ◌∷◌, ◌++◌, length, IfOk, OnOk, OnErr, string_bytes};
ghost use Rattle.region_file.specs.Calls.{settled, measured, wrote, synced, named, placed, OnlyReads};
ghost use Rattle.region_file.specs.Reads.{pages_in, reads_of};
ghost use Rattle.region_file.specs.Filed.{beside, calls_on, looked, HasFailed, HasStopped, IsOpened, IsNotAttached, IsMade, IsNotMade, IsFenced, IsNotFenced, IsKept, IsSettled, flushes};

use crate::calls::Calls;
use crate::device::{Device, find_place};
use crate::file_bytes::FileBytes;
use crate::file_words::FileWords;
use crate::read_pages::read_pages;
use crate::system::FilePlace;
use pm_region::byte_words::word_count;
use pm_region::{AttachError, MOST_BYTES, MOST_WORDS, RegionFault, WORD_BYTES};
use std::alloc::{AllocError, Global};
use std::fs::File;
use std::rt::Files;

/// The file as it stands. Its words are read at once. What was tried where it answers an `Err` is in `tried`.
pub fn open_words<R: Files<File = File>>(
    alloc: Global,
    rt: &R,
    path: &str,
    tried: &mut Calls,
) -> Result<(Device, FileWords), AttachError>
    ensures ok { IfOk result (λ pair. IsOpened path.now pair.0 pair.1) }
    ensures err { OnErr result (IsNotAttached path.now tried.new.made) }
{
    *tried = Calls::none();
    let mut device = Device::open(rt, path, tried)?;
    match read_words(alloc, rt, path, &mut device) {
        Ok(words) => Ok((device, words)),
        Err(e) => {
            *tried = device.calls;
            Err(e)
        }
    }
}

// Makes certain what an open file has, and reads it.
fn read_words<R: Files<File = File>>(
    alloc: Global,
    rt: &R,
    path: &str,
    device: &mut Device,
) -> Result<FileWords, AttachError>
    ensures ok { IfOk result (λ w. device.new.calls.made ≡ reads_of w.bytes.items
        (pages_in (length w.bytes.items)) ++ measured w.size ∷ settled ∷ device.old.calls.made) }
    ensures none { IfOk result (λ w. (line : ℕ) → flushes w line ≡ false) }
    ensures err { OnErr result (OnlyReads device.old.calls.made device.new.calls.made) }
{
    device.settle(rt, path)?;
    let size = device.size()?;
    let count = (WORD_BYTES * word_count(size)) as usize;
    let bytes = read_pages(alloc, device, count)?;
    let words = FileWords::new(alloc, size, bytes)?;
    Ok(words)
}

/// A file of so many zero words, in place of what was there. It is made beside the old one, and takes its name once it
/// is whole and synced: until then the old one stays as it was, also after a power failure.
pub fn create_words<R: Files<File = File>>(
    alloc: Global,
    rt: &R,
    path: &str,
    count: u64,
    tried: &mut Calls,
) -> Result<(Device, FileWords), AttachError>
    requires { count ≤ MOST_WORDS }
    ensures ok { IfOk result (λ pair. IsMade path.now count pair.0 pair.1) }
    ensures err { OnErr result (IsNotMade path.now count tried.new.made) }
{
    *tried = Calls::none();
    let size = WORD_BYTES * count;
    let zeros = vec![in alloc; 0u8; size as usize]?;
    let words = FileWords::new(alloc, size, FileBytes::zeros(alloc, size as usize)?)?;
    let name = name_beside(alloc, path)?;
    let own = name.as_str();
    let place = find_place(rt, path, tried)?;
    let mut device = Device::begin(rt, own, &place, tried)?;
    match put_in_place(rt, path, own, &place, &zeros, &mut device) {
        Ok(()) => Ok((device, words)),
        Err(e) => {
            *tried = device.calls;
            Err(AttachError::from(e))
        }
    }
}

// Where the file is made that takes this name.
fn name_beside(alloc: Global, path: &str) -> Result<String, AllocError>
    ensures { IfOk result (λ name. string_bytes name ≡ beside path.now) }
{
    let mut name = String::from_str(alloc, path)?;
    name.push_str(".unfinished")?;
    Ok(name)
}

// Writes the bytes to the file that was begun, and gives it the name.
fn put_in_place<R: Files<File = File>>(
    rt: &R,
    path: &str,
    own: &str,
    place: &FilePlace,
    bytes: &[u8],
    device: &mut Device,
) -> Result<(), RegionFault>
    ensures ok { OnOk result (device.new.calls.made ≡ named ∷ placed path.now ∷ synced
        ∷ wrote 0 bytes.now ∷ device.old.calls.made) }
    ensures err { OnErr result (HasFailed path.now own.now bytes.now device.old.calls.made
        device.new.calls.made) }
{
    if fill(rt, path, own, place, bytes, device).is_err() {
        device.remove(rt, own);
        return Err(RegionFault);
    }
    device.keep_name(place)
}

// Writes the bytes to the file, syncs it, and gives it the name.
fn fill<R: Files<File = File>>(
    rt: &R,
    path: &str,
    own: &str,
    place: &FilePlace,
    bytes: &[u8],
    device: &mut Device,
) -> Result<(), RegionFault>
    ensures ok { OnOk result (device.new.calls.made ≡ placed path.now ∷ synced ∷ wrote 0 bytes.now
        ∷ device.old.calls.made) }
    ensures err { OnErr result (HasStopped bytes.now device.old.calls.made device.new.calls.made) }
{
    device.write(0, bytes)?;
    device.sync()?;
    device.take_place(rt, own, path, place)
}

/// A fence of the words of the file of this name. Without a file it is a fault, and where the name leads elsewhere by
/// now, or the file has another length.
pub fn fence_file<R: Files<File = File>>(
    rt: &R,
    path: &str,
    words: &mut FileWords,
    device: &mut Option<Device>,
) -> Result<(), RegionFault>
    ensures ok { OnOk result (IsFenced words.old words.new 0 (looked path.now words.old.size
        (calls_on device.old)) (calls_on device.new)) }
    ensures err { OnErr result (IsKept words.old words.new) }
    ensures err_calls { OnErr result (IsNotFenced words.new 0 (calls_on device.old)
        (looked path.now words.old.size (calls_on device.old)) (calls_on device.new)) }
{
    match device {
        Some(device) => fence_device(rt, path, words, device),
        None => Err(RegionFault),
    }
}

fn fence_device<R: Files<File = File>>(
    rt: &R,
    path: &str,
    words: &mut FileWords,
    device: &mut Device,
) -> Result<(), RegionFault>
    ensures ok { OnOk result (IsFenced words.old words.new 0 (looked path.now words.old.size
        device.old.calls.made) device.new.calls.made) }
    ensures err { OnErr result (IsKept words.old words.new) }
    ensures err_calls { OnErr result (IsNotFenced words.new 0 device.old.calls.made
        (looked path.now words.old.size device.old.calls.made) device.new.calls.made) }
{
    look(rt, path, words.size, device)?;
    words.write_flushed(device, 0)
}

/// A fence of words that begin at the byte `start` of an open file. It is a fault where the file hasn't so many bytes.
pub fn fence_sized(
    words: &mut FileWords,
    device: &mut Device,
    start: u64,
    size: u64,
) -> Result<(), RegionFault>
    requires { start ≤ MOST_BYTES }
    ensures ok { OnOk result (IsFenced words.old words.new start
        (measured size ∷ device.old.calls.made) device.new.calls.made) }
    ensures err { OnErr result (IsKept words.old words.new) }
    ensures err_calls { OnErr result (IsNotFenced words.new start device.old.calls.made
        (measured size ∷ device.old.calls.made) device.new.calls.made) }
{
    check_size(device, size)?;
    words.write_flushed(device, start)
}

/// Asks whether the name still leads to the file, and whether the file has so many bytes. Without a file it is a fault.
pub fn find_in_place<R: Files<File = File>>(
    rt: &R,
    path: &str,
    size: u64,
    device: &mut Option<Device>,
) -> Result<(), RegionFault>
    ensures ok { OnOk result (calls_on device.new ≡ looked path.now size (calls_on device.old)) }
    ensures err { OnErr result (OnlyReads (calls_on device.old) (calls_on device.new)) }
{
    match device {
        Some(device) => look(rt, path, size, device),
        None => Err(RegionFault),
    }
}

fn look<R: Files<File = File>>(
    rt: &R,
    path: &str,
    size: u64,
    device: &mut Device,
) -> Result<(), RegionFault>
    ensures ok { OnOk result (device.new.calls.made ≡ looked path.now size device.old.calls.made) }
    ensures err { OnErr result (OnlyReads device.old.calls.made device.new.calls.made) }
{
    if device.find(rt, path)? == size {
        Ok(())
    } else {
        Err(RegionFault)
    }
}

/// Asks whether the file still has so many bytes.
pub fn check_size(device: &mut Device, size: u64) -> Result<(), RegionFault>
    ensures ok { OnOk result (device.new.calls.made ≡ measured size ∷ device.old.calls.made) }
    ensures err { OnErr result (OnlyReads device.old.calls.made device.new.calls.made) }
{
    if device.size()? == size {
        Ok(())
    } else {
        Err(RegionFault)
    }
}

/// Writes what is flushed, if anything is.
pub fn write_pending<R: Files<File = File>>(
    rt: &R,
    path: &str,
    words: &mut FileWords,
    device: &mut Option<Device>,
) -> Result<(), RegionFault>
    ensures size { words.new.size ≡ words.old.size }
    ensures bytes { words.new.bytes ≡ words.old.bytes }
    ensures clean { OnOk result ((line : ℕ) → flushes words.new line ≡ false) }
    ensures written { OnOk result (IsSettled path.now words.old words.new (calls_on device.old)
        (calls_on device.new)) }
    ensures err_calls { OnErr result (IsNotFenced words.new 0 (calls_on device.old)
        (looked path.now words.old.size (calls_on device.old)) (calls_on device.new)) }
{
    if words.is_clean() {
        Ok(())
    } else {
        fence_file(rt, path, words, device)
    }
}
