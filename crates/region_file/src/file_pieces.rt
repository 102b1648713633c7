// The pieces of a region in a file, as they are split off and taken back.
ghost use Rattle.std.specs.Prelude.{◌≡◌, ℕ, ◌+◌, ◌-◌, ◌*◌, ◌≤◌, ◌<◌, length, [], ◌∷◌, slice_index, slice_index_or, IfOk, OnErr};
ghost use Rattle.region_file.specs.Calls.{measured, opened, AreReads};
ghost use Rattle.pm_region.specs.Split.{words_in, AreCuts};
ghost use Rattle.region_file.specs.Pages.{Shares};
ghost use Rattle.region_file.specs.Files.{AreFileParts, ArePlaced, HaveTaken};

use crate::calls::Calls;
use crate::device::Device;
use crate::file_open::check_size;
use crate::file_piece::FilePiece;
use crate::file_words::FileWords;
use crate::shared_bytes::SharedBytes;
use pm_region::{AttachError, RegionFault};
use std::alloc::Global;
use std::fs::File;
use std::rt::Files;

/// The parts between the cuts, each with the file opened for itself. It is a fault where the name leads to another
/// file by now, or the file has another length. What was tried where it answers an `Err` is in `tried`.
pub fn file_pieces<R: Files<File = File>>(
    alloc: Global,
    rt: &R,
    device: &Option<Device>,
    words: &FileWords,
    shared: &SharedBytes,
    cuts: &[u64],
    path: &str,
    stamp: u64,
    faults: u64,
    tried: &mut Calls,
) -> Result<Vec<FilePiece>, AttachError>
    requires cuts { AreCuts (words_in words.now.size) cuts.now }
    requires shares { Shares words.now.bytes.items shared.now }
    ensures ok { IfOk result (λ pieces. AreFileParts path.now words.now cuts.now stamp faults
        pieces.items (length cuts.now - 1)) }
    ensures err { OnErr result (AreReads tried.new.made) }
{
    *tried = Calls::none();
    let Some(device) = device else {
        return Err(AttachError::RegionFault);
    };
    let size = words.size;
    let mut pieces = Vec::new(alloc);
    for i in 0..cuts.len().saturating_sub(1) {
        let device = open_again(rt, path, device, size, tried)?;
        let words = words.part(alloc, shared, cuts[i], cuts[i + 1])?;
        pieces.push(FilePiece {
            first: cuts[i],
            size,
            words,
            device,
            since: stamp,
            stamp: stamp,
            faults: faults,
        })?;
    }
    Ok(pieces)
}

// Opens the file once more, which must have so many bytes.
fn open_again<R: Files<File = File>>(
    rt: &R,
    path: &str,
    device: &Device,
    size: u64,
    tried: &mut Calls,
) -> Result<Device, RegionFault>
    requires { AreReads tried.old.made }
    ensures ok { IfOk result (λ d. d.calls.made ≡ measured size ∷ opened path.now ∷ []) }
    ensures reads { AreReads tried.new.made }
{
    let mut again = device.again(rt, path, tried)?;
    match check_size(&mut again, size) {
        Ok(()) => Ok(again),
        Err(e) => {
            *tried = again.calls;
            Err(e)
        }
    }
}

/// The latest stamp of the pieces, and of what they were taken from.
pub fn latest_of(pieces: &[FilePiece], from: u64) -> u64
    ensures low { from ≤ result }
    ensures pieces { (i : ℕ) (p : FilePiece) → i < length pieces.now
        → (slice_index_or pieces.now i p).stamp ≤ result }
{
    let mut latest = from;
    for piece in pieces {
        if piece.stamp > latest {
            latest = piece.stamp;
        }
    }
    latest
}

/// The greatest count of the pieces, and of what they were taken from.
pub fn most_faults(pieces: &[FilePiece], from: u64) -> u64
    ensures low { from ≤ result }
    ensures pieces { (i : ℕ) (p : FilePiece) → i < length pieces.now
        → (slice_index_or pieces.now i p).faults ≤ result }
{
    let mut most = from;
    for piece in pieces {
        if piece.faults > most {
            most = piece.faults;
        }
    }
    most
}

/// Takes the words of the pieces back, with what is flushed of them.
pub fn absorb_all(words: &mut FileWords, pieces: &[FilePiece])
    requires { ArePlaced (words_in words.old.size) pieces.now }
    ensures { HaveTaken words.old words.new pieces.now (length pieces.now) }
{
    for piece in pieces {
        words.absorb(&piece.words, piece.first);
    }
}
