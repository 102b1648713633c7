// What recovery finds of a region is what the yardstick finds of its words.
use crate::call_tests::words_of;
use image_yardstick::first_fault;
use pm_region::{Region, SplitRegion};
use region_memory::SteadyRegion;
use std::alloc::Global;
use std::test::Fail;

// One core: a block in chunk 0, logs in chunks 1 and 2 with three entries each.
const ONE_LOG: [(u64, u64); 25] = [
    (0, 0x3130_5453_5441_4c46),
    (1, 1),
    (2, 1),
    (3, 1),
    (4, 4),
    (5, 4096),
    (512, 258),
    (544, 300),
    (1024, 1),
    (1025, 16),
    (1056, 0x1100_0011),
    (1057, 2),
    (1058, 0x0100_0015),
    (1059, 1),
    (1060, 97),
    (1064, 0x22),
    (1065, 1),
    (1536, 1),
    (1537, 8),
    (1568, 0x1100_0011),
    (1569, 2),
    (1570, 0x0100_0035),
    (1571, 1),
    (1572, 98),
    (1573, 0x1900_0021),
];

const PLACES: [u64; 14] = [
    1, 5, 512, 544, 1024, 1025, 1056, 1057, 1059, 1064, 1537, 1568, 1570, 1571,
];

const WORDS: [u64; 12] = [
    0,
    1,
    2,
    8,
    16,
    258,
    505,
    0x22,
    0x0100_0015,
    0x1100_0021,
    0x1300_0011,
    u64::MAX,
];

// A region of 20,480 bytes with the words of one log, and one other word.
fn region(alloc: Global, at: u64, word: u64) -> Result<SteadyRegion, Fail> {
    let mut region = SteadyRegion::new(alloc, Vec::new(alloc), 64)?;
    region.create(alloc, 2560)?;
    for (place, known) in ONE_LOG {
        if region.first() == 0 && place < region.words() {
            region.store(place, known);
        }
    }
    if region.first() == 0 && at < region.words() {
        region.store(at, word);
    }
    Ok(region)
}

// Whether recovery finds the fault that the yardstick finds.
fn agrees(alloc: Global, at: u64, word: u64) -> Result<bool, Fail> {
    let region = region(alloc, at, word)?;
    let words = words_of(alloc, &region)?;
    if region.first() != 0 || region.words() != 2560 || words.len() != 2560 {
        return Ok(false);
    }
    let found = recover::first_fault(alloc, &region, 20480)?;
    Ok(found == first_fault(alloc, &words, 20480)?)
}

// The first place and word, by the order of the lists, where recovery finds another fault than the yardstick.
fn first_difference(alloc: Global) -> Result<Option<(u64, u64)>, Fail> {
    for at in PLACES {
        for word in WORDS {
            if !agrees(alloc, at, word)? {
                return Ok(Some((at, word)));
            }
        }
    }
    Ok(None)
}

#[test]
fn one_other_word(rt: HostRuntime) -> Result<(), Fail> {
    assert_eq!(rt; first_difference(rt.alloc())?, None);
    Ok(())
}
