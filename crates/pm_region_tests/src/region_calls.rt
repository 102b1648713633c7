// Calls of a region, and what they answer. Each test is a table of calls and answers, which a loop plays: the proof of
// a function costs the square of its length, and each exit of a function that owns a region drops it. So one function
// owns the region that the calls are made on.
ghost use Rattle.std.specs.Prelude.{◌≡◌, false, ◌+◌, ◌*◌, ◌%◌, ◌^◌, ◌≤◌, ◌<◌, OnOk};
ghost use Rattle.pm_region.specs.State.{During, cell_now};
ghost use Rattle.pm_region.specs.Words.{KeepsOutside};

use pm_region::{AttachError, MOST_WORDS, Region, RegionFault, SplitRegion};
use region_memory::Pick;
use std::alloc::{AllocError, Global};

/// How a region gets its words.
#[derive(Clone, Copy)]
pub(crate) enum Opening {
    Attach,
    Create(u64),
}

/// A region of so many words and bytes that is opened and split at a cut. The value is written into the piece below
/// the cut, and the pieces are joined.
#[derive(Clone, Copy)]
pub(crate) struct WrittenPart {
    pub(crate) opening: Opening,
    pub(crate) words: u64,
    pub(crate) bytes: u64,
    pub(crate) cut: u64,
    pub(crate) value: u64,
}

/// So many bytes: zeros, but for these.
pub(crate) fn bytes_of(
    alloc: Global,
    length: usize,
    bytes: &[(usize, u8)],
) -> Result<Vec<u8>, AllocError> {
    let mut all = vec![in alloc; 0u8; length]?;
    for (at, byte) in bytes {
        if let Some(place) = all.get_mut(*at) {
            *place = *byte;
        }
    }
    Ok(all)
}

/// One call, or a few that belong together.
#[derive(Clone, Copy)]
pub(crate) enum Call {
    // of each region: a word by its address, a line by its number, a create by its words
    Words,
    Bytes,
    Stamp,
    Faults,
    Get(u64),
    Put(u64, u64),
    Flush(u64),
    Fence,
    Attach,
    Create(u64),
    Revalidate,
    WritePart(WrittenPart),
    // of one in memory: a word behind an attach of its image of a stamp, or of its oldest one of the moment
    Image(u64, Pick, u64),
    OldestImage(u64),
    // of one in a file, and of files by their names: a file's bytes are so many zeros, but for these; a snapshot gives
    // how many words it has, and two of them
    WriteFile(&'static str, usize, &'static [(usize, u8)]),
    HasBytes(&'static str, usize, &'static [(usize, u8)]),
    Rename(&'static str, &'static str),
    Remove(&'static str),
    CreateRenameAndSplit(u64, &'static str, &'static str),
    CreateCutAndSplit(u64, &'static str, usize),
    WriteTwoPieces,
    FlushOften,
    Snapshot(u64, u64),
}

/// What it answers.
#[derive(Clone, Copy, Debug, PartialEq, Eq)]
pub(crate) enum Answer {
    Done,
    RegionFault,
    NotTold,
    Memory,
    Number(u64),
    Numbers([u64; 3]),
    Is(bool),
    WrongSize,
    NoSuchCall,
}

pub(crate) fn put<R: Region>(region: &mut R, at: u64, value: u64) {
    let first = region.first();
    if first <= at && at - first < region.words() {
        region.store(at, value);
    }
}

pub(crate) fn get<R: Region>(region: &R, at: u64) -> u64 {
    let first = region.first();
    if first <= at && at - first < region.words() {
        region.load(at)
    } else {
        u64::MAX
    }
}

pub(crate) fn flush<R: Region>(region: &mut R, line: u64) {
    let first = region.first();
    if line < 1000 && first <= 8 * line && 8 * line - first + 8 <= region.words() {
        region.flush(line);
    }
}

fn of_fence(outcome: Result<(), RegionFault>) -> Answer {
    match outcome {
        Ok(()) => Answer::Done,
        Err(RegionFault) => Answer::RegionFault,
    }
}

pub(crate) fn fault(error: AttachError) -> Answer {
    match error {
        AttachError::RegionFault => Answer::RegionFault,
        AttachError::Memory => Answer::Memory,
    }
}

fn of_attach(outcome: Result<(), AttachError>) -> Answer {
    match outcome {
        Ok(()) => Answer::Done,
        Err(error) => fault(error),
    }
}

fn create<R: SplitRegion>(alloc: Global, region: &mut R, words: u64) -> Answer {
    if words <= MOST_WORDS {
        of_attach(region.create(alloc, words))
    } else {
        Answer::WrongSize
    }
}

// Stores a word of a piece, flushes its line and makes a fence.
pub(crate) fn write_first<P: Region>(
    piece: &mut P,
    line: u64,
    value: u64,
) -> Result<(), RegionFault>
    requires low { (P.state piece.old).frame.first ≤ 8 * line }
    requires high { 8 * line + 8 ≤ (P.state piece.old).frame.first
        + (P.state piece.old).frame.words }
    requires fits { 8 * line < 2 ^ 64 }
    ensures run { During (P.state piece.old) (P.state piece.new)
        (KeepsOutside (cell_now (P.state piece.old)) (8 * line) (8 * line + 8)) }
{
    piece.store(8 * line, value);
    piece.flush(line);
    piece.fence()
}

// Splits the region at a cut, writes in the piece below it, and joins.
pub(crate) fn write_part<R: SplitRegion>(
    alloc: Global,
    region: &mut R,
    cut: u64,
    value: u64,
) -> Result<bool, AttachError>
    requires whole { (R.state region.old).frame.parted ≡ false }
    requires cut { cut % 8 ≡ 0 }
    requires some { 8 ≤ cut }
    requires within { cut ≤ (R.state region.old).frame.words }
{
    let cuts = [0, cut];
    let mut pieces = region.split(alloc, &cuts)?;
    let done = write_first(&mut pieces[0], 0, value).is_ok();
    region.join(pieces);
    Ok(done)
}

fn open<R: SplitRegion>(alloc: Global, region: &mut R, opening: Opening) -> Result<(), AttachError>
    ensures { OnOk result ((R.state region.new).frame.parted ≡ false) }
{
    match opening {
        Opening::Attach => region.attach(alloc),
        Opening::Create(words) => region.create(alloc, words.min(MOST_WORDS)),
    }
}

// None where the region has another size, or the cut is none of it.
fn open_and_write<R: SplitRegion>(
    alloc: Global,
    region: &mut R,
    part: WrittenPart,
) -> Result<Option<bool>, AttachError> {
    open(alloc, region, part.opening)?;
    let words = region.words();
    if words != part.words || region.bytes() != part.bytes {
        return Ok(None);
    }
    let cut = part.cut;
    if cut % 8 != 0 || cut < 8 || words < cut {
        return Ok(None);
    }
    let done = write_part(alloc, region, cut, part.value)?;
    Ok(Some(done))
}

fn written<R: SplitRegion>(alloc: Global, region: &mut R, part: WrittenPart) -> Answer {
    match open_and_write(alloc, region, part) {
        Ok(Some(done)) => Answer::Is(done),
        Ok(None) => Answer::WrongSize,
        Err(error) => fault(error),
    }
}

fn ask<R: SplitRegion>(region: &R, call: Call) -> Answer {
    match call {
        Call::Words => Answer::Number(region.words()),
        Call::Bytes => Answer::Number(region.bytes()),
        Call::Stamp => Answer::Number(region.stamp()),
        Call::Faults => Answer::Number(region.faults()),
        Call::Get(at) => Answer::Number(get(region, at)),
        _ => Answer::NoSuchCall,
    }
}

fn change<R: Region>(region: &mut R, call: Call) -> Answer {
    match call {
        Call::Put(at, value) => put(region, at, value),
        Call::Flush(line) => flush(region, line),
        _ => return Answer::NoSuchCall,
    }
    Answer::Done
}

/// Makes a call that each region has.
pub(crate) fn make<R: SplitRegion>(alloc: Global, region: &mut R, call: Call) -> Answer {
    match call {
        Call::Put(_, _) | Call::Flush(_) => change(region, call),
        Call::Fence => of_fence(region.fence()),
        Call::Attach => of_attach(region.attach(alloc)),
        Call::Create(words) => create(alloc, region, words),
        Call::Revalidate => of_fence(region.revalidate()),
        Call::WritePart(part) => written(alloc, region, part),
        _ => ask(region, call),
    }
}

/// The first call that answers otherwise, by its place, and what it answers.
pub(crate) type Other = Option<(usize, Answer)>;
