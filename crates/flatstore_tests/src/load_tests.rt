// A load, on the top call.
use crate::call_tests::Ended;
use crate::row_tests::fresh_of;
use crate::thread_tests::threads_end;
use core_worker::OpenGate;
use flatstore_commands::Status;
use pm_region::{ReadRegion, SplitRegion};
use region_memory::{Faults, MemRegion, SteadyRegion};
use std::alloc::AllocGlobal;
use std::sync::Wait;
use std::test::Fail;
use std::thread::Threads;
use std::time::Clock;

// How a load of so many requests from a number on ends, where this text is wanted.
fn load<R: SplitRegion + ReadRegion>(
    rt: &(impl Threads + Wait + Clock + Sync + AllocGlobal),
    region: &mut R,
    start: &str,
    count: &str,
    text: &str,
) -> Result<Ended, Fail> {
    let words = ["flatstore", "load", "region", start, count];
    threads_end(rt, &words, region, "", text, &OpenGate)
}

// Two loads, one behind the other on one region of two cores: the first number, the tally, and how many changes were
// finished. Both have keys 7 to 46, the second one in the next round of its operations.
const LOADS: [(&str, &str, usize); 2] = [
    (
        "1000007",
        "requests 40\nstored 20\nvalue 0\nabsent 20\ndeleted 0\nrefused 0\nlive 20\nbytes 291\n",
        20,
    ),
    (
        "10007",
        "requests 40\nstored 20\nvalue 10\nabsent 10\ndeleted 0\nrefused 0\nlive 30\nbytes 453\n",
        20,
    ),
];

// Whether each of these loads, one behind the other, is done, writes its tally and finishes so many changes.
fn are_loaded(
    rt: &(impl Threads + Wait + Clock + Sync + AllocGlobal),
    loads: &[(&str, &str, usize)],
) -> Result<bool, Fail> {
    let mut region = SteadyRegion::new(rt.alloc(), fresh_of(rt.alloc(), 2, 2)?, 5000)?;
    for (start, tally, changes) in loads {
        let ended = load(rt, &mut region, start, "40", tally)?;
        if (ended.said(), ended.finishes) != ((Status::Done, true), *changes) {
            return Ok(false);
        }
    }
    Ok(true)
}

#[test]
fn two_loads(rt: HostRuntime) -> Result<(), Fail> {
    assert!(rt; are_loaded(&rt, &LOADS)?);
    Ok(())
}

// Which look for the region fails, where attaching and splitting it are the first two; then whether the run came to its
// end, and how many changes were finished. Nothing is written.
const LOOKS: [(u64, bool, usize); 3] = [(1, false, 0), (2, false, 0), (3, true, 20)];

// How a load ends on a fresh region with that look failing, where nothing is to be written.
fn lost_load(
    rt: &(impl Threads + Wait + Clock + Sync + AllocGlobal),
    look: u64,
) -> Result<Ended, Fail> {
    let alloc = rt.alloc();
    let plan = Faults {
        opens: vec![in alloc; look]?,
        fences: Vec::new(alloc),
    };
    let mut region = MemRegion::new(alloc, fresh_of(alloc, 2, 2)?, 5000, plan)?;
    load(rt, &mut region, "7", "40", "")
}

#[test]
fn a_load_that_loses_its_region(rt: HostRuntime) -> Result<(), Fail> {
    for (look, complete, changes) in LOOKS {
        let ended = lost_load(&rt, look)?;
        assert_eq!(rt;
            (ended.said(), ended.complete, ended.in_place, ended.finishes),
            ((Status::RegionFault, true), complete, false, changes),
            "at {look}"
        );
    }
    Ok(())
}
