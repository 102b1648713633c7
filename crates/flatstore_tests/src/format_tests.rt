// How a region is made, on the top call, and what a failed fence leaves of it.
use crate::call_tests::{PICKS, words_of};
use flatstore_commands::{Status, flatstore_alone};
use fs_text::{SteadySink, SteadySource};
use image_yardstick::first_fault;
use pm_region::{ReadRegion, Region, SplitRegion};
use region_memory::{Faults, FenceNumber, MemRegion, SteadyRegion};
use std::alloc::{AllocError, AllocGlobal, Global};
use std::test::Fail;
use std::thread::Threads;
use store_image::Fault;

// The bytes of a region of two cores with four chunks of 4,096 bytes.
const BYTES: usize = 36_864;

// The words of a line that are parted by spaces, the program's name first.
fn words(alloc: Global, line: &str) -> Result<Vec<String>, AllocError> {
    let mut words = vec![in alloc; String::from_str(alloc, "flatstore")?]?;
    for word in line.split(' ') {
        words.push(String::from_str(alloc, word)?)?;
    }
    Ok(words)
}

// A call of the program, with no input: what it says, and whether it attached or created the region.
fn call<R: SplitRegion + ReadRegion>(
    rt: &(impl Threads + AllocGlobal),
    line: &str,
    region: &mut R,
) -> Result<(Status, bool), Fail> {
    let alloc = rt.alloc();
    let mut source = SteadySource::new(Vec::new(alloc), 1);
    let mut sink = SteadySink::new(alloc, 10, 10)?;
    let words = words(alloc, line)?;
    let report = flatstore_alone(rt, alloc, &words, &mut source, &mut sink, region);
    Ok((report.status, report.attached))
}

const FORMAT: &str = "format r --cores 2 --group 2 --chunks 4 --chunk-bytes 4096";

// What an image breaks, once it is attached: rule 0 where it has another length.
fn fault<R: SplitRegion>(alloc: Global, region: &mut R) -> Result<Option<Fault>, Fail> {
    region.attach(alloc)?;
    let words = words_of(alloc, region)?;
    if words.len() * 8 != BYTES {
        return Ok(Some(Fault::NotARegion { rule: 0 }));
    }
    Ok(first_fault(alloc, &words, BYTES as u64)?)
}

const SUPER_WORDS: [u64; 6] = [0x3130_5453_5441_4c46, 1, 2, 2, 4, 4096];

// Whether a region has just the words of the superblock.
fn is_empty<R: Region>(alloc: Global, region: &R) -> Result<bool, Fail> {
    let words = words_of(alloc, region)?;
    for (place, word) in words.iter().enumerate() {
        if Some(word) != SUPER_WORDS.get(place).or(Some(&0)) {
            return Ok(false);
        }
    }
    Ok(words.len() * 8 == BYTES)
}

// What a format in the place of other bytes says, whether the region is empty then, and what its image breaks.
fn formatted(
    rt: &(impl Threads + AllocGlobal),
) -> Result<((Status, bool), bool, Option<Fault>), Fail> {
    let alloc = rt.alloc();
    let mut region = SteadyRegion::new(alloc, vec![in alloc; 7u8; 100]?, 50)?;
    let said = call(rt, FORMAT, &mut region)?;
    let empty = is_empty(alloc, &region)?;
    Ok((said, empty, fault(alloc, &mut region)?))
}

#[test]
fn a_new_region(rt: HostRuntime) -> Result<(), Fail> {
    assert_eq!(rt; formatted(&rt)?, ((Status::Done, true), true, None));
    Ok(())
}

// Whether each image of a stamp is refused by rule 2, or sound.
fn is_refused_or_sound(alloc: Global, region: &MemRegion, stamp: u64) -> Result<bool, Fail> {
    for pick in PICKS {
        let mut image = region.image_at(alloc, stamp, pick)?;
        let fault = fault(alloc, &mut image)?;
        if fault.is_some() && fault != Some(Fault::NotARegion { rule: 2 }) {
            return Ok(false);
        }
    }
    Ok(true)
}

// Whether it is so at each stamp.
fn are_refused_or_sound(alloc: Global, region: &MemRegion) -> Result<bool, Fail> {
    for stamp in 0..region.stamp() {
        if !is_refused_or_sound(alloc, region, stamp)? {
            return Ok(false);
        }
    }
    is_refused_or_sound(alloc, region, region.stamp())
}

// A region whose fence with this number fails.
fn failing(alloc: Global, number: u64) -> Result<MemRegion, Fail> {
    let plan = Faults {
        opens: Vec::new(alloc),
        fences: vec![in alloc; FenceNumber { piece: 0, number }]?,
    };
    Ok(MemRegion::new(alloc, Vec::new(alloc), 50, plan)?)
}

// What a format says whose fence with this number fails, and whether each image is refused or sound.
fn fails_at(
    rt: &(impl Threads + AllocGlobal),
    number: u64,
) -> Result<((Status, bool), bool), Fail> {
    let mut region = failing(rt.alloc(), number)?;
    let said = call(rt, FORMAT, &mut region)?;
    Ok((said, are_refused_or_sound(rt.alloc(), &region)?))
}

#[test]
fn failing_fences(rt: HostRuntime) -> Result<(), Fail> {
    for number in 1..3 {
        let found = fails_at(&rt, number)?;
        assert_eq!(rt; found, ((Status::RegionFault, true), true), "at {number}");
    }
    Ok(())
}

// What a format says whose region can't be created.
fn with_a_failing_create(rt: &(impl Threads + AllocGlobal)) -> Result<(Status, bool), Fail> {
    let alloc = rt.alloc();
    let plan = Faults {
        opens: vec![in alloc; 1]?,
        fences: Vec::new(alloc),
    };
    let mut region = MemRegion::new(alloc, Vec::new(alloc), 50, plan)?;
    call(rt, FORMAT, &mut region)
}

#[test]
fn a_failing_create(rt: HostRuntime) -> Result<(), Fail> {
    assert_eq!(rt; with_a_failing_create(&rt)?, (Status::RegionFault, false));
    Ok(())
}
