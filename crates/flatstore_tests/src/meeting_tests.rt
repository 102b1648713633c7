// Runs on threads whose gate lets the cores meet, and what a crash leaves of a run at its end.
ghost use Rattle.std.specs.Prelude.{false, true};

use crate::call_tests::{Ended, PICKS, cell, words_of};
use crate::row_tests::fresh_of;
use crate::thread_tests::{RUN, threads_end};
use core_worker::{Gate, OpenGate, Point};
use flatstore_commands::Status;
use pm_region::{ReadRegion, Region, SplitRegion};
use region_memory::{Faults, FenceNumber, MemRegion, SteadyRegion};
use std::alloc::{AllocGlobal, Global};
use std::sync::Wait;
use std::sync::atomic::{AtomicBool, AtomicU64, Ordering};
use std::test::Fail;
use std::thread::Threads;
use std::time::Clock;

const LOADS: u64 = 200_000_000;

// Each of the first so many cores waits in one of its asks until all of them have asked as often.
#[derive(Drop)]
struct Gathering {
    asked: [AtomicU64; 4],
    cores: usize,
    ask: u64,
    missed: AtomicBool,
}

impl Gathering {
    fn new(cores: usize, ask: u64) -> Gathering {
        Gathering {
            asked: [
                AtomicU64::new(0),
                AtomicU64::new(0),
                AtomicU64::new(0),
                AtomicU64::new(0),
            ],
            cores,
            ask,
            missed: AtomicBool::new(false),
        }
    }

    fn all_there(&self) -> bool {
        self.asked
            .iter()
            .take(self.cores)
            .all(|count| self.ask <= count.load(Ordering::SeqCst))
    }

    // For so many loads at most.
    fn wait(&self) {
        for _ in 0..LOADS {
            if self.all_there() {
                return;
            }
        }
        self.missed.store(true, Ordering::SeqCst);
    }
}

impl Gate for Gathering {
    ghost may_refuse = { λ _. false };

    ghost may_pass = { λ _. true };

    fn ready(&self, core: u32, _point: Point) -> bool {
        let Some(count) = self.asked.get(core as usize) else {
            return true;
        };
        let before = count.fetch_add(1, Ordering::SeqCst);
        if before < self.ask && self.ask - before == 1 {
            self.wait();
        }
        true
    }
}

// How a run of these puts on so many cores ends whose gate makes them meet.
fn met(
    rt: &(impl Threads + Wait + Clock + Sync + AllocGlobal),
    region: &mut (impl SplitRegion + ReadRegion),
    text: &str,
    gate: &Gathering,
) -> Result<Ended, Fail> {
    let input = "put 0 a\nput 1 b\nput 2 c\nput 3 d\n";
    threads_end(rt, &RUN, region, input, text, gate)
}

// How such a run of four cores in one group ends.
fn four_met(
    rt: &(impl Threads + Wait + Clock + Sync + AllocGlobal),
    gate: &Gathering,
) -> Result<Ended, Fail> {
    let mut region = SteadyRegion::new(rt.alloc(), fresh_of(rt.alloc(), 4, 4)?, 5000)?;
    met(rt, &mut region, "stored\nstored\nstored\nstored\n", gate)
}

// Each core waits with its first post for the other three.
#[test]
fn four_cores_meet(rt: HostRuntime) -> Result<(), Fail> {
    let gate = Gathering::new(4, 1);
    let ended = four_met(&rt, &gate)?;
    let missed = gate.missed.load(Ordering::SeqCst);
    assert_eq!(rt; (ended.said(), missed), ((Status::Done, true), false));
    Ok(())
}

// Whether the words have this value of the key, or none where it is none.
fn has(alloc: Global, words: &[u64], key: u64, text: Option<&[u8]>) -> Result<bool, Fail> {
    Ok(match (cell(alloc, words, key)?, text) {
        (Some(value), Some(text)) => value.bytes() == text,
        (None, None) => true,
        _ => false,
    })
}

// Whether the words have all of these.
fn has_all(alloc: Global, words: &[u64], cells: &[(u64, Option<&[u8]>)]) -> Result<bool, Fail> {
    for (key, text) in cells {
        if !has(alloc, words, *key, *text)? {
            return Ok(false);
        }
    }
    Ok(true)
}

// Whether each image that a crash leaves of a region that is yet to be attached has them.
fn image_has_all<R: SplitRegion>(
    alloc: Global,
    image: &mut R,
    cells: &[(u64, Option<&[u8]>)],
) -> Result<bool, Fail> {
    image.attach(alloc)?;
    let words = words_of(alloc, image)?;
    has_all(alloc, &words, cells)
}

const AT_EXIT: [(u64, Option<&[u8]>); 3] = [(0, Some(b"c")), (1, None), (3, Some(b"d"))];

// Whether each image of the last stamp has these cells.
fn images_have_all(
    alloc: Global,
    region: &SteadyRegion,
    cells: &[(u64, Option<&[u8]>)],
) -> Result<bool, Fail> {
    for pick in PICKS {
        let mut image = region.image_at(alloc, region.stamp(), pick)?;
        if !image_has_all(alloc, &mut image, cells)? {
            return Ok(false);
        }
    }
    Ok(true)
}

// How a run of five changes ends, and whether a crash then leaves their cells.
fn ran_to_exit(
    rt: &(impl Threads + Wait + Clock + Sync + AllocGlobal),
) -> Result<((Status, bool), bool), Fail> {
    let alloc = rt.alloc();
    let mut region = SteadyRegion::new(alloc, fresh_of(alloc, 2, 2)?, 5000)?;
    let input = "put 0 a\nput 1 b\nput 0 c\ndelete 1\nput 3 d\n";
    let text = "stored\nstored\nstored\ndeleted\nstored\n";
    let ended = threads_end(rt, &RUN, &mut region, input, text, &OpenGate)?;
    Ok((ended.said(), images_have_all(alloc, &region, &AT_EXIT)?))
}

#[test]
fn images_at_exit(rt: HostRuntime) -> Result<(), Fail> {
    assert_eq!(rt; ran_to_exit(&rt)?, ((Status::Done, true), true));
    Ok(())
}

// A region of two cores, of whose pieces each first fence fails.
fn failing_batch(alloc: Global) -> Result<MemRegion, Fail> {
    let plan = Faults {
        opens: Vec::new(alloc),
        fences: vec![in alloc;
            FenceNumber {
                piece: 1,
                number: 1
            },
            FenceNumber {
                piece: 2,
                number: 1
            },
        ]?,
    };
    Ok(MemRegion::new(alloc, fresh_of(alloc, 2, 2)?, 5000, plan)?)
}

const NONE: [(u64, Option<&[u8]>); 4] = [(0, None), (1, None), (2, None), (3, None)];

// Whether no image of the last stamp has a value.
fn has_none(alloc: Global, region: &MemRegion) -> Result<bool, Fail> {
    for pick in PICKS {
        let mut image = region.image_at(alloc, region.stamp(), pick)?;
        if !image_has_all(alloc, &mut image, &NONE)? {
            return Ok(false);
        }
    }
    Ok(true)
}

// How such a run ends on that region, and whether no image then has a value.
fn two_failed(
    rt: &(impl Threads + Wait + Clock + Sync + AllocGlobal),
    gate: &Gathering,
) -> Result<(Ended, bool), Fail> {
    let mut region = failing_batch(rt.alloc())?;
    let text = "stopped\nstopped\nstopped\nstopped\n";
    let ended = met(rt, &mut region, text, gate)?;
    Ok((ended, has_none(rt.alloc(), &region)?))
}

// Both cores have posted when they meet, so the first batch is of both; it fails, whoever makes it.
#[test]
fn batch_of_two_cores_fails(rt: HostRuntime) -> Result<(), Fail> {
    let gate = Gathering::new(2, 2);
    let (ended, none) = two_failed(&rt, &gate)?;
    let missed = gate.missed.load(Ordering::SeqCst);
    assert_eq!(rt;
        (ended.said(), ended.complete, ended.finishes, missed, none),
        ((Status::RegionFault, true), true, 0, false, true)
    );
    Ok(())
}
