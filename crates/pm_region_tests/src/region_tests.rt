// Each kind of region in memory once, at small sizes. Expected values are worked out by hand from the rule of values
// and marks.
use crate::region_calls::{
    Answer, Call, Opening, Other, WrittenPart, bytes_of, flush, get, make, put,
};
use pm_region::{Region, RegionFault, Snapshot, SplitRegion};
use region_memory::{
    FaultPlan, Faults, FenceNumber, ImageError, MemRegion, MemoryRegion, Pick, SteadyRegion,
};
use std::alloc::Global;
use std::test::Fail;

// A word after an attach, and the greatest of all where there is none.
fn attached_word<R: SplitRegion>(alloc: Global, image: &mut R, at: u64) -> u64 {
    match image.attach(alloc) {
        Ok(()) => get(image, at),
        Err(_) => u64::MAX,
    }
}

// A word after an attach, in the image of this stamp.
fn word_of_image<P: FaultPlan + Send + Drop>(
    alloc: Global,
    region: &MemoryRegion<P>,
    stamp: u64,
    pick: Pick,
    at: u64,
) -> Answer {
    match region.image_at(alloc, stamp, pick) {
        Ok(mut image) => Answer::Number(attached_word(alloc, &mut image, at)),
        Err(ImageError::NotTold) => Answer::NotTold,
        Err(ImageError::Memory) => Answer::Memory,
    }
}

fn make_in_memory<P: FaultPlan + Send + Drop>(
    alloc: Global,
    region: &mut MemoryRegion<P>,
    call: Call,
) -> Answer {
    match call {
        Call::Image(stamp, pick, at) => word_of_image(alloc, region, stamp, pick, at),
        Call::OldestImage(at) => word_of_image(alloc, region, region.stamp(), Pick::Oldest, at),
        _ => make(alloc, region, call),
    }
}

fn play<P: FaultPlan + Send + Drop>(
    alloc: Global,
    region: &mut MemoryRegion<P>,
    calls: &[(Call, Answer)],
) -> Other {
    for (place, (call, expected)) in calls.iter().enumerate() {
        let found = make_in_memory(alloc, region, *call);
        if found != *expected {
            return Some((place, found));
        }
    }
    None
}

// Of a region that begins with so many zero bytes, but for these, and has room for so many steps.
fn other_of_steady(
    alloc: Global,
    length: usize,
    bytes: &[(usize, u8)],
    steps: u64,
    calls: &[(Call, Answer)],
) -> Result<Other, Fail> {
    let bytes = bytes_of(alloc, length, bytes)?;
    let mut region = SteadyRegion::new(alloc, bytes, steps)?;
    Ok(play(alloc, &mut region, calls))
}

// The values of word 0 are 0, 5 and 6 at stamp 3, with the mark at 5, and 5 and 6 at stamp 4.
const IMAGES: [(Call, Answer); 21] = [
    (Call::Words, Answer::Number(0)),
    (Call::Attach, Answer::Done),
    (Call::Words, Answer::Number(16)),
    (Call::Bytes, Answer::Number(131)),
    (Call::Get(1), Answer::Number(0x0200_0000_0000_0001)),
    (Call::Put(0, 5), Answer::Done),
    (Call::Flush(0), Answer::Done),
    (Call::Put(0, 6), Answer::Done),
    (Call::Fence, Answer::Done),
    (Call::Stamp, Answer::Number(4)),
    (Call::Image(0, Pick::Newest, 0), Answer::Number(0)),
    (Call::Image(1, Pick::Oldest, 0), Answer::Number(0)),
    (Call::Image(1, Pick::Newest, 0), Answer::Number(5)),
    (Call::Image(3, Pick::Oldest, 0), Answer::Number(0)),
    (Call::Image(3, Pick::Mixed(1), 0), Answer::Number(5)),
    (Call::Image(3, Pick::Mixed(2), 0), Answer::Number(6)),
    (Call::Image(4, Pick::Oldest, 0), Answer::Number(5)),
    (Call::Image(4, Pick::Newest, 0), Answer::Number(6)),
    (Call::Put(0, 7), Answer::Done),
    (Call::Image(5, Pick::Newest, 0), Answer::NotTold),
    (Call::Image(4, Pick::Newest, 0), Answer::Number(6)),
];

#[test]
fn images_of_a_steady_region(rt: HostRuntime) -> Result<(), Fail> {
    let other = other_of_steady(rt.alloc(), 131, &[(8, 1), (15, 2)], 4, &IMAGES)?;
    assert_eq!(rt; other, None);
    Ok(())
}

// A region of so many zero bytes, of whose calls these fail.
fn planned(
    alloc: Global,
    bytes: usize,
    opens: &[u64],
    fences: &[FenceNumber],
) -> Result<MemRegion, Fail> {
    let bytes = vec![in alloc; 0u8; bytes]?;
    let opens = Vec::from_slice(alloc, opens)?;
    let fences = Vec::from_slice(alloc, fences)?;
    let region = MemRegion::new(alloc, bytes, 100, Faults { opens, fences })?;
    Ok(region)
}

fn other_of_planned(
    alloc: Global,
    bytes: usize,
    opens: &[u64],
    fences: &[FenceNumber],
    calls: &[(Call, Answer)],
) -> Result<Other, Fail> {
    let mut region = planned(alloc, bytes, opens, fences)?;
    Ok(play(alloc, &mut region, calls))
}

// The first attach fails, and the second fence.
const FAULTS_OF_A_REGION: [(Call, Answer); 15] = [
    (Call::Attach, Answer::RegionFault),
    (Call::Faults, Answer::Number(1)),
    (Call::Words, Answer::Number(0)),
    (Call::Attach, Answer::Done),
    (Call::Words, Answer::Number(8)),
    (Call::Put(3, 9), Answer::Done),
    (Call::Flush(0), Answer::Done),
    (Call::Fence, Answer::Done),
    (Call::Put(3, 10), Answer::Done),
    (Call::Flush(0), Answer::Done),
    (Call::Fence, Answer::RegionFault),
    (Call::Faults, Answer::Number(2)),
    (Call::OldestImage(3), Answer::Number(9)),
    (Call::Fence, Answer::Done),
    (Call::OldestImage(3), Answer::Number(10)),
];

#[test]
fn faults_of_a_region(rt: HostRuntime) -> Result<(), Fail> {
    let fence = FenceNumber {
        piece: 0,
        number: 2,
    };
    let other = other_of_planned(rt.alloc(), 64, &[1], &[fence], &FAULTS_OF_A_REGION)?;
    assert_eq!(rt; other, None);
    Ok(())
}

const PIECES_OF_A_REGION: [(Call, Answer); 5] = [
    (
        Call::WritePart(WrittenPart {
            opening: Opening::Attach,
            words: 16,
            bytes: 128,
            cut: 8,
            value: 77,
        }),
        Answer::Is(true),
    ),
    (Call::Words, Answer::Number(16)),
    (Call::Stamp, Answer::Number(4)),
    (Call::Image(4, Pick::Oldest, 0), Answer::Number(77)),
    (Call::Image(3, Pick::Oldest, 0), Answer::NotTold),
];

#[test]
fn pieces_of_a_region(rt: HostRuntime) -> Result<(), Fail> {
    let other = other_of_steady(rt.alloc(), 128, &[], 100, &PIECES_OF_A_REGION)?;
    assert_eq!(rt; other, None);
    Ok(())
}

// The first fence of the first piece fails, and the first create behind it.
const FAULTS_OF_A_PIECE: [(Call, Answer); 7] = [
    (
        Call::WritePart(WrittenPart {
            opening: Opening::Attach,
            words: 16,
            bytes: 128,
            cut: 16,
            value: 77,
        }),
        Answer::Is(false),
    ),
    (Call::Faults, Answer::Number(1)),
    (Call::Get(0), Answer::Number(77)),
    (Call::Create(8), Answer::RegionFault),
    (Call::Create(8), Answer::Done),
    (Call::Bytes, Answer::Number(64)),
    (Call::Get(0), Answer::Number(0)),
];

#[test]
fn faults_of_a_piece(rt: HostRuntime) -> Result<(), Fail> {
    let fence = FenceNumber {
        piece: 1,
        number: 1,
    };
    let other = other_of_planned(rt.alloc(), 128, &[3], &[fence], &FAULTS_OF_A_PIECE)?;
    assert_eq!(rt; other, None);
    Ok(())
}

// Attaches, splits and revalidations share the numbers of the plan.
const A_LOST_PLACE: [(Call, Answer); 8] = [
    (Call::Attach, Answer::Done),
    (Call::Revalidate, Answer::Done),
    (Call::Faults, Answer::Number(0)),
    (Call::Revalidate, Answer::RegionFault),
    (Call::Faults, Answer::Number(1)),
    (Call::Words, Answer::Number(8)),
    (Call::Revalidate, Answer::Done),
    (Call::Attach, Answer::RegionFault),
];

// A region that was never attached is in its place.
const STEADY_PLACE: [(Call, Answer); 1] = [(Call::Revalidate, Answer::Done)];

#[test]
fn a_place_that_is_lost(rt: HostRuntime) -> Result<(), Fail> {
    let lost = other_of_planned(rt.alloc(), 64, &[3, 5], &[], &A_LOST_PLACE)?;
    let steady = other_of_steady(rt.alloc(), 0, &[], 4, &STEADY_PLACE)?;
    assert_eq!(rt; [lost, steady], [None, None]);
    Ok(())
}

/// What a snapshot says before and behind a store, a flush and a fence.
#[derive(Clone, Copy, Debug, PartialEq, Eq)]
struct StoredInASnapshot {
    words: u64,
    stamp: u64,
    third_and_fourth: [u64; 2],
    fence: Result<(), RegionFault>,
    stamp_behind: u64,
    fourth_behind: u64,
}

fn stored_in<R: Region>(snapshot: &mut R) -> StoredInASnapshot {
    let words = snapshot.words();
    let stamp = snapshot.stamp();
    let third_and_fourth = [get(snapshot, 3), get(snapshot, 4)];
    put(snapshot, 4, 10);
    flush(snapshot, 0);
    let fence = snapshot.fence();
    StoredInASnapshot {
        words,
        stamp,
        third_and_fourth,
        fence,
        stamp_behind: snapshot.stamp(),
        fourth_behind: get(snapshot, 4),
    }
}

// What is found of a snapshot, and then the stamp, the third and the fourth word of its region.
fn found_of_snapshot(alloc: Global) -> Result<(StoredInASnapshot, [u64; 3]), Fail> {
    let mut region = SteadyRegion::new(alloc, Vec::new(alloc), 4)?;
    region.create(alloc, 16)?;
    put(&mut region, 3, 9);
    let mut snapshot = Snapshot::of(&region);
    let stored = stored_in(&mut snapshot);
    Ok((stored, [region.stamp(), get(&region, 3), get(&region, 4)]))
}

// What is stored in a snapshot is not kept, and the region is as it was.
#[test]
fn words_of_a_snapshot(rt: HostRuntime) -> Result<(), Fail> {
    let (stored, region) = found_of_snapshot(rt.alloc())?;
    let expected = StoredInASnapshot {
        words: 16,
        stamp: 0,
        third_and_fourth: [9, 0],
        fence: Ok(()),
        stamp_behind: 3,
        fourth_behind: 0,
    };
    assert_eq!(rt; (stored, region), (expected, [1, 9, 0]));
    Ok(())
}
