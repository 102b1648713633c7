// Regions in real files. What a file has at the end is worked out by hand, byte by byte.
ghost use Rattle.std.specs.Prelude.{◌≡◌, false, ◌+◌, ◌*◌, ◌^◌, ◌≤◌, ◌<◌};
ghost use Rattle.pm_region.specs.State.{During, cell_now};
ghost use Rattle.pm_region.specs.Words.{KeepsOutside};

use crate::region_calls::{
    Answer, Call, Opening, Other, WrittenPart, bytes_of, fault, flush, get, make, write_first,
    write_part,
};
use pm_region::{AttachError, ReadRegion, Region, Snapshot, SplitRegion};
use region_file::FileRegion;
use std::alloc::Global;
use std::fs;
use std::test::Fail;

fn region_in(rt: &HostRuntime, name: &str) -> Result<FileRegion<HostRuntime>, Fail> {
    Ok(FileRegion::at(rt.clone()?, String::from_str(rt.alloc(), name)?))
}

fn write_file(
    rt: &HostRuntime,
    name: &str,
    length: usize,
    bytes: &[(usize, u8)],
) -> Result<(), Fail> {
    let bytes = bytes_of(rt.alloc(), length, bytes)?;
    fs::write(rt, name, bytes.as_slice())?;
    Ok(())
}

fn has_bytes(
    rt: &HostRuntime,
    name: &str,
    length: usize,
    bytes: &[(usize, u8)],
) -> Result<bool, Fail> {
    let expected = bytes_of(rt.alloc(), length, bytes)?;
    let found = fs::read(rt, name)?;
    Ok(found.as_slice() == expected.as_slice())
}

// More flushes than the file has lines.
fn flush_often<R: Region>(region: &mut R) {
    for _ in 0..12 {
        for line in [8, 0, 3, 7, 1] {
            flush(region, line);
        }
    }
}

// Stores a word of a piece and flushes its line, with no fence.
fn flush_first<P: Region>(piece: &mut P, line: u64, value: u64)
    requires low { (P.state piece.old).frame.first ≤ 8 * line }
    requires high { 8 * line + 8 ≤ (P.state piece.old).frame.first
        + (P.state piece.old).frame.words }
    requires fits { 8 * line < 2 ^ 64 }
    ensures run { During (P.state piece.old) (P.state piece.new)
        (KeepsOutside (cell_now (P.state piece.old)) (8 * line) (8 * line + 8)) }
{
    piece.store(8 * line, value);
    piece.flush(line);
}

// Splits the region at 8, 16 and 32, writes line 1 in the first piece, only flushes line 3 in the second, and joins.
fn write_two<R: SplitRegion>(alloc: Global, region: &mut R) -> Result<bool, AttachError>
    requires whole { (R.state region.old).frame.parted ≡ false }
    requires words { 32 ≤ (R.state region.old).frame.words }
{
    let cuts = [8, 16, 32];
    let mut pieces = region.split(alloc, &cuts)?;
    let done = write_first(&mut pieces[0], 1, 21).is_ok();
    flush_first(&mut pieces[1], 3, 22);
    region.join(pieces);
    Ok(done)
}

// Creates a region of 40 words, flushes line 0 with a word in it, and writes in two pieces.
fn create_and_write_two<R: SplitRegion>(
    alloc: Global,
    region: &mut R,
) -> Result<bool, AttachError> {
    region.create(alloc, 40)?;
    region.store(1, 20);
    region.flush(0);
    write_two(alloc, region)
}

// Splits a region that has the words for it, and writes in the piece.
fn split_once_more<R: SplitRegion>(alloc: Global, region: &mut R) -> Result<bool, AttachError>
    requires { (R.state region.old).frame.parted ≡ false }
{
    if region.words() < 8 {
        return Ok(false);
    }
    write_part(alloc, region, 8, 23)
}

fn of_split(outcome: Result<bool, AttachError>) -> Answer {
    match outcome {
        Ok(done) => Answer::Is(done),
        Err(error) => fault(error),
    }
}

// Creates a region, gives another file its name, and splits it.
fn create_rename_and_split<R: SplitRegion>(
    rt: &HostRuntime,
    region: &mut R,
    words: u64,
    from: &str,
    to: &str,
) -> Result<Answer, Fail>
    requires { words ≤ 1000 }
{
    region.create(rt.alloc(), words)?;
    fs::rename(rt, from, to)?;
    Ok(of_split(split_once_more(rt.alloc(), region)))
}

// Creates a region, cuts its file to so many zeros, and splits it.
fn create_cut_and_split<R: SplitRegion>(
    rt: &HostRuntime,
    region: &mut R,
    words: u64,
    name: &str,
    length: usize,
) -> Result<Answer, Fail>
    requires { words ≤ 1000 }
{
    region.create(rt.alloc(), words)?;
    write_file(rt, name, length, &[])?;
    Ok(of_split(split_once_more(rt.alloc(), region)))
}

fn snapshot_words<R: ReadRegion>(region: &R, first: u64, second: u64) -> Answer {
    let snapshot = Snapshot::of(region);
    Answer::Numbers([
        snapshot.words(),
        get(&snapshot, first),
        get(&snapshot, second),
    ])
}

fn make_with_files<R: SplitRegion>(
    rt: &HostRuntime,
    region: &mut R,
    call: Call,
) -> Result<Answer, Fail> {
    match call {
        Call::WriteFile(name, length, bytes) => write_file(rt, name, length, bytes)?,
        Call::Rename(from, to) => fs::rename(rt, from, to)?,
        Call::Remove(name) => fs::remove_file(rt, name)?,
        Call::HasBytes(name, length, bytes) => {
            return Ok(Answer::Is(has_bytes(rt, name, length, bytes)?));
        }
        Call::CreateRenameAndSplit(words, from, to) if words <= 1000 => {
            return create_rename_and_split(rt, region, words, from, to);
        }
        Call::CreateCutAndSplit(words, name, length) if words <= 1000 => {
            return create_cut_and_split(rt, region, words, name, length);
        }
        _ => return Ok(make(rt.alloc(), region, call)),
    }
    Ok(Answer::Done)
}

fn make_in_file<R: SplitRegion + ReadRegion>(
    rt: &HostRuntime,
    region: &mut R,
    call: Call,
) -> Result<Answer, Fail> {
    Ok(match call {
        Call::WriteTwoPieces => of_split(create_and_write_two(rt.alloc(), region)),
        Call::FlushOften => {
            flush_often(region);
            Answer::Done
        }
        Call::Snapshot(first, second) => snapshot_words(region, first, second),
        _ => make_with_files(rt, region, call)?,
    })
}

fn play<R: SplitRegion + ReadRegion>(
    rt: &HostRuntime,
    region: &mut R,
    calls: &[(Call, Answer)],
) -> Result<Other, Fail> {
    for (place, (call, expected)) in calls.iter().enumerate() {
        let found = make_in_file(rt, region, *call)?;
        if found != *expected {
            return Ok(Some((place, found)));
        }
    }
    Ok(None)
}

fn first_other(rt: &HostRuntime, name: &str, calls: &[(Call, Answer)]) -> Result<Other, Fail> {
    let mut region = region_in(rt, name)?;
    play(rt, &mut region, calls)
}

const WORDS: &str = "pm_region_words_of_a_file";

// Before it is attached it has no words, and a fence is a fault. The region that is attached once more gives its own
// lock back first.
const WORDS_OF_A_FILE: [(Call, Answer); 19] = [
    (Call::WriteFile(WORDS, 200, &[(64, 7)]), Answer::Done),
    (Call::Words, Answer::Number(0)),
    (Call::Fence, Answer::RegionFault),
    (Call::Attach, Answer::Done),
    (Call::Words, Answer::Number(25)),
    (Call::Bytes, Answer::Number(200)),
    (Call::Put(2, 12), Answer::Done),
    (Call::Put(9, 13), Answer::Done),
    (Call::Put(0, 11), Answer::Done),
    (Call::Flush(0), Answer::Done),
    (Call::Fence, Answer::Done),
    (Call::Attach, Answer::Done),
    (Call::Get(0), Answer::Number(11)),
    (Call::Get(2), Answer::Number(12)),
    (Call::Get(8), Answer::Number(7)),
    (Call::Get(9), Answer::Number(0)),
    (Call::Remove(WORDS), Answer::Done),
    (Call::Attach, Answer::RegionFault),
    (Call::Faults, Answer::Number(2)),
];

#[test]
fn words_of_a_file(rt: HostRuntime) -> Result<(), Fail> {
    let other = first_other(&rt, WORDS, &WORDS_OF_A_FILE)?;
    assert_eq!(rt; other, None);
    Ok(())
}

const ANEW: &str = "pm_region_a_file_that_is_made_anew";

const MADE_ANEW: [(Call, Answer); 6] = [
    (Call::WriteFile(ANEW, 200, &[]), Answer::Done),
    (
        Call::WritePart(WrittenPart {
            opening: Opening::Create(16),
            words: 16,
            bytes: 128,
            cut: 8,
            value: 21,
        }),
        Answer::Is(true),
    ),
    (Call::Get(0), Answer::Number(21)),
    (Call::Attach, Answer::Done),
    (Call::Get(0), Answer::Number(21)),
    (Call::Remove(ANEW), Answer::Done),
];

#[test]
fn a_file_that_is_made_anew(rt: HostRuntime) -> Result<(), Fail> {
    let other = first_other(&rt, ANEW, &MADE_ANEW)?;
    assert_eq!(rt; other, None);
    Ok(())
}

const RUNS: &str = "pm_region_runs_of_lines";

// Lines 0, 1, 3, 7 and 8 of ten are written, in three runs; line 5 is stored and not flushed. Of each it is the last
// word.
const RUNS_OF_LINES: [(Call, Answer); 14] = [
    (Call::Create(80), Answer::Done),
    (Call::Put(71, 9), Answer::Done),
    (Call::Put(63, 8), Answer::Done),
    (Call::Put(47, 6), Answer::Done),
    (Call::Put(31, 4), Answer::Done),
    (Call::Put(15, 2), Answer::Done),
    (Call::Put(7, 1), Answer::Done),
    (Call::FlushOften, Answer::Done),
    (Call::Fence, Answer::Done),
    (
        Call::HasBytes(
            RUNS,
            640,
            &[(56, 1), (120, 2), (248, 4), (504, 8), (568, 9)],
        ),
        Answer::Is(true),
    ),
    (Call::Flush(5), Answer::Done),
    (Call::Fence, Answer::Done),
    (
        Call::HasBytes(
            RUNS,
            640,
            &[(56, 1), (120, 2), (248, 4), (504, 8), (568, 9), (376, 6)],
        ),
        Answer::Is(true),
    ),
    (Call::Remove(RUNS), Answer::Done),
];

#[test]
fn runs_of_lines(rt: HostRuntime) -> Result<(), Fail> {
    let other = first_other(&rt, RUNS, &RUNS_OF_LINES)?;
    assert_eq!(rt; other, None);
    Ok(())
}

const PIECES: &str = "pm_region_pieces_of_a_file";

// What was flushed before the split was written by it; line 3 is written by the next fence of the whole.
const PIECES_OF_A_FILE: [(Call, Answer); 8] = [
    (Call::WriteTwoPieces, Answer::Is(true)),
    (Call::Words, Answer::Number(40)),
    (Call::Get(8), Answer::Number(21)),
    (Call::Get(24), Answer::Number(22)),
    (
        Call::HasBytes(PIECES, 320, &[(8, 20), (64, 21)]),
        Answer::Is(true),
    ),
    (Call::Fence, Answer::Done),
    (
        Call::HasBytes(PIECES, 320, &[(8, 20), (64, 21), (192, 22)]),
        Answer::Is(true),
    ),
    (Call::Remove(PIECES), Answer::Done),
];

#[test]
fn pieces_of_a_file(rt: HostRuntime) -> Result<(), Fail> {
    let other = first_other(&rt, PIECES, &PIECES_OF_A_FILE)?;
    assert_eq!(rt; other, None);
    Ok(())
}

const ANOTHER: &str = "pm_region_another_file";

const NAMED_AS_IT: &str = "pm_region_other_file";

// Another file of the same name is none to split.
const ANOTHER_FILE: [(Call, Answer); 4] = [
    (Call::WriteFile(NAMED_AS_IT, 64, &[]), Answer::Done),
    (
        Call::CreateRenameAndSplit(8, NAMED_AS_IT, ANOTHER),
        Answer::RegionFault,
    ),
    (Call::Faults, Answer::Number(1)),
    (Call::Remove(ANOTHER), Answer::Done),
];

#[test]
fn another_file(rt: HostRuntime) -> Result<(), Fail> {
    let other = first_other(&rt, ANOTHER, &ANOTHER_FILE)?;
    assert_eq!(rt; other, None);
    Ok(())
}

const CUT: &str = "pm_region_a_cut_file";

// A file that was cut since it was attached is not written.
const A_CUT_FILE: [(Call, Answer); 7] = [
    (Call::CreateCutAndSplit(16, CUT, 64), Answer::RegionFault),
    (Call::Put(0, 5), Answer::Done),
    (Call::Flush(0), Answer::Done),
    (Call::Fence, Answer::RegionFault),
    (Call::HasBytes(CUT, 64, &[]), Answer::Is(true)),
    (Call::Create(8), Answer::Done),
    (Call::Remove(CUT), Answer::Done),
];

#[test]
fn a_cut_file(rt: HostRuntime) -> Result<(), Fail> {
    let other = first_other(&rt, CUT, &A_CUT_FILE)?;
    assert_eq!(rt; other, None);
    Ok(())
}

const TAKEN: &str = "pm_region_a_taken_name";

const TAKER: &str = "pm_region_taker_of_a_name";

// A file that another one took the name of is not written, and neither is that one.
const A_TAKEN_NAME: [(Call, Answer); 8] = [
    (Call::Create(8), Answer::Done),
    (Call::WriteFile(TAKER, 64, &[]), Answer::Done),
    (Call::Rename(TAKER, TAKEN), Answer::Done),
    (Call::Put(0, 6), Answer::Done),
    (Call::Flush(0), Answer::Done),
    (Call::Fence, Answer::RegionFault),
    (Call::HasBytes(TAKEN, 64, &[]), Answer::Is(true)),
    (Call::Remove(TAKEN), Answer::Done),
];

#[test]
fn a_taken_name(rt: HostRuntime) -> Result<(), Fail> {
    let other = first_other(&rt, TAKEN, &A_TAKEN_NAME)?;
    assert_eq!(rt; other, None);
    Ok(())
}

const HELD: &str = "pm_region_a_held_region";

const THE_HOLDER_WRITES: [(Call, Answer); 4] = [
    (Call::Create(8), Answer::Done),
    (Call::Put(0, 5), Answer::Done),
    (Call::Flush(0), Answer::Done),
    (Call::Fence, Answer::Done),
];

// It is neither attached nor made, as another holds its file.
const THE_OTHER_IS_REFUSED: [(Call, Answer); 3] = [
    (Call::Attach, Answer::RegionFault),
    (Call::Create(16), Answer::RegionFault),
    (Call::Faults, Answer::Number(2)),
];

// Its own lock is no hindrance to itself.
const THE_HOLDER_READS: [(Call, Answer); 3] = [
    (Call::HasBytes(HELD, 64, &[(0, 5)]), Answer::Is(true)),
    (Call::Attach, Answer::Done),
    (Call::Get(0), Answer::Number(5)),
];

const THE_OTHER_READS: [(Call, Answer); 3] = [
    (Call::Attach, Answer::Done),
    (Call::Get(0), Answer::Number(5)),
    (Call::Remove(HELD), Answer::Done),
];

// The holder writes, while the other is refused.
fn others_while_held<R: SplitRegion + ReadRegion>(
    rt: &HostRuntime,
    holder: &mut R,
    other: &mut R,
) -> Result<[Other; 3], Fail> {
    Ok([
        play(rt, holder, &THE_HOLDER_WRITES)?,
        play(rt, other, &THE_OTHER_IS_REFUSED)?,
        play(rt, holder, &THE_HOLDER_READS)?,
    ])
}

// The holder lives as long as this call.
fn others_with_holder(
    rt: &HostRuntime,
    other: &mut FileRegion<HostRuntime>,
) -> Result<[Other; 3], Fail> {
    let mut holder = region_in(rt, HELD)?;
    others_while_held(rt, &mut holder, other)
}

fn others_of_held(rt: &HostRuntime) -> Result<([Other; 3], Other), Fail> {
    let mut other = region_in(rt, HELD)?;
    let held = others_with_holder(rt, &mut other)?;
    Ok((held, play(rt, &mut other, &THE_OTHER_READS)?))
}

#[test]
fn a_held_region(rt: HostRuntime) -> Result<(), Fail> {
    let others = others_of_held(&rt)?;
    assert_eq!(rt; others, ([None, None, None], None));
    Ok(())
}

const SNAPSHOT: &str = "pm_region_snapshot_of_a_file";

// How many words it has, and what stands in words 8 and 9.
const SNAPSHOT_OF_A_FILE: [(Call, Answer); 4] = [
    (Call::Create(16), Answer::Done),
    (Call::Put(9, 13), Answer::Done),
    (Call::Snapshot(8, 9), Answer::Numbers([16, 0, 13])),
    (Call::Remove(SNAPSHOT), Answer::Done),
];

#[test]
fn snapshot_of_a_file(rt: HostRuntime) -> Result<(), Fail> {
    let other = first_other(&rt, SNAPSHOT, &SNAPSHOT_OF_A_FILE)?;
    assert_eq!(rt; other, None);
    Ok(())
}

const PLACE: &str = "pm_region_the_place_of_a_file";

const AWAY: &str = "pm_region_the_place_of_a_file_before";

// A file is in its place while its name leads to it and it has its length. Without a file a region has no place.
const THE_PLACE_OF_A_FILE: [(Call, Answer); 15] = [
    (Call::Revalidate, Answer::RegionFault),
    (Call::Create(16), Answer::Done),
    (Call::Put(3, 9), Answer::Done),
    (Call::Revalidate, Answer::Done),
    (Call::Rename(PLACE, AWAY), Answer::Done),
    (Call::Revalidate, Answer::RegionFault),
    (Call::WriteFile(PLACE, 128, &[]), Answer::Done),
    (Call::Revalidate, Answer::RegionFault),
    (Call::Rename(AWAY, PLACE), Answer::Done),
    (Call::Revalidate, Answer::Done),
    (Call::WriteFile(PLACE, 192, &[]), Answer::Done),
    (Call::Revalidate, Answer::RegionFault),
    (Call::Faults, Answer::Number(4)),
    (Call::Get(3), Answer::Number(9)),
    (Call::Remove(PLACE), Answer::Done),
];

#[test]
fn the_place_of_a_file(rt: HostRuntime) -> Result<(), Fail> {
    let other = first_other(&rt, PLACE, &THE_PLACE_OF_A_FILE)?;
    assert_eq!(rt; other, None);
    Ok(())
}
