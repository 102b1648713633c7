// A run on threads, on the top call: cores that meet, and pieces that fail.
ghost use Rattle.std.specs.Prelude.{false, true};

use crate::call_tests::{Ended, command, ends, with, words_of};
use crate::row_tests::{fresh_of, text_of};
use core_worker::{Gate, OpenGate, Point};
use flatstore_commands::{CommandReport, Status, flatstore};
use fs_text::{Sink, SteadySink, SteadySource};
use pm_region::{ReadRegion, SplitRegion};
use region_memory::{Faults, FenceNumber, MemRegion, SteadyRegion};
use std::alloc::{AllocError, AllocGlobal, Global};
use std::sync::Wait;
use std::sync::atomic::{AtomicBool, AtomicU64, Ordering};
use std::test::Fail;
use std::thread::Threads;
use std::time::Clock;
use thread_engine::watch::Unwatched;

pub const RUN: [&str; 3] = ["flatstore", "run", "region"];

// One call with these words and a gate, into a sink that takes everything.
pub fn threads<R: SplitRegion + ReadRegion, G: Gate + Sync>(
    rt: &(impl Threads + Wait + Clock + Sync + AllocGlobal),
    words: &[&str],
    region: &mut R,
    input: &str,
    gate: &G,
) -> Result<(CommandReport, Vec<u8>), Fail> {
    let alloc = rt.alloc();
    let line = command(alloc, words)?;
    let mut source = SteadySource::new(Vec::from_slice(alloc, input.as_bytes())?, 1000);
    let mut sink = SteadySink::new(alloc, 100_000, 1000)?;
    let report = flatstore(
        rt,
        alloc,
        &line,
        &mut source,
        &mut sink,
        region,
        gate,
        &mut Unwatched,
    );
    let text = Vec::from_slice(alloc, sink.text().unwrap_or(b"not kept"))?;
    Ok((report, text))
}

// How such a call ends, where this text is wanted.
pub fn threads_end<R: SplitRegion + ReadRegion, G: Gate + Sync>(
    rt: &(impl Threads + Wait + Clock + Sync + AllocGlobal),
    words: &[&str],
    region: &mut R,
    input: &str,
    text: &str,
    gate: &G,
) -> Result<Ended, Fail> {
    let (report, written) = threads(rt, words, region, input, gate)?;
    Ok(Ended::of(&report, written.as_slice(), text.as_bytes()))
}

// How a run of an input on a region ends, where this text is wanted.
fn run<R: SplitRegion + ReadRegion>(
    rt: &(impl Threads + Wait + Clock + Sync + AllocGlobal),
    region: &mut R,
    input: &str,
    text: &str,
) -> Result<Ended, Fail> {
    threads_end(rt, &RUN, region, input, text, &OpenGate)
}

// So many gets of a key, then a put of it and one more get; and their replies.
pub fn gets_and_a_put(alloc: Global, gets: u64) -> Result<(String, String), AllocError> {
    let mut input = String::new(alloc);
    let mut replies = String::new(alloc);
    for _ in 0..gets {
        input.push_str("get 1\n")?;
        replies.push_str("absent\n")?;
    }
    input.push_str("put 1 x\nget 1\n")?;
    replies.push_str("stored\nvalue x\n")?;
    Ok((input, replies))
}

const LOADS: u64 = 500_000_000;

// Counts how often each of two cores asks. Core 0's first ask waits for core 1's second, and that one for core 0's
// second.
#[derive(Drop)]
struct Meeting {
    asked: [AtomicU64; 2],
    missed: AtomicBool,
}

impl Meeting {
    fn new() -> Meeting {
        Meeting {
            asked: [AtomicU64::new(0), AtomicU64::new(0)],
            missed: AtomicBool::new(false),
        }
    }

    fn asks_of(&self, core: usize) -> u64 {
        match self.asked.get(core) {
            Some(count) => count.load(Ordering::SeqCst),
            None => 0,
        }
    }

    // Waits until that core has asked twice, for so many loads at most.
    fn wait_for(&self, core: usize) {
        for _ in 0..LOADS {
            if self.asks_of(core) == 2 {
                return;
            }
        }
        self.missed.store(true, Ordering::SeqCst);
    }
}

impl Gate for Meeting {
    ghost may_refuse = { λ _. false };

    ghost may_pass = { λ _. true };

    fn ready(&self, core: u32, _point: Point) -> bool {
        let before = match self.asked.get(core as usize) {
            Some(count) => count.fetch_add(1, Ordering::SeqCst),
            None => return true,
        };
        if core == 0 && before == 0 {
            self.wait_for(1);
        }
        if core == 1 && before == 1 {
            self.wait_for(0);
        }
        true
    }
}

const FIRST_OF_THE_LOG: &str = "core 0 chunk 0 place 0 key 0 version 1 embedded 1\n\
        core 0 chunk 0 place 3 key 1 version 1 embedded 1\n";

// How the run ends, and whether its log begins so.
fn met(
    rt: &(impl Threads + Wait + Clock + Sync + AllocGlobal),
    gate: &Meeting,
) -> Result<((Status, bool), bool), Fail> {
    let mut region = SteadyRegion::new(rt.alloc(), fresh_of(rt.alloc(), 2, 2)?, 5000)?;
    let input = "put 0 a\nput 0 b\nput 1 c\nput 3 d\n";
    let text = "stored\nstored\nstored\nstored\n";
    let ended = threads_end(rt, &RUN, &mut region, input, text, gate)?;
    let log = text_of(rt, "log", &mut region)?;
    let begins = log.as_slice().starts_with(FIRST_OF_THE_LOG.as_bytes());
    Ok((ended.said(), begins))
}

#[test]
fn two_cores_meet(rt: HostRuntime) -> Result<(), Fail> {
    let gate = Meeting::new();
    let (said, begins) = met(&rt, &gate)?;
    let missed = gate.missed.load(Ordering::SeqCst);
    assert_eq!(rt;
        (said, begins, missed, gate.asks_of(0), gate.asks_of(1)),
        ((Status::Done, true), true, false, 2, 2)
    );
    Ok(())
}

// A fresh region of two cores that keeps this plan.
fn planned(alloc: Global, group: u8, plan: Faults) -> Result<MemRegion, Fail> {
    Ok(MemRegion::new(alloc, fresh_of(alloc, 2, group)?, 5000, plan)?)
}

// One of which the look with this number fails.
fn lost_at(alloc: Global, look: u64) -> Result<MemRegion, Fail> {
    let plan = Faults {
        opens: vec![in alloc; look]?,
        fences: Vec::new(alloc),
    };
    planned(alloc, 2, plan)
}

// One of two groups, in which this fence of core 1's piece fails.
fn failing_piece(alloc: Global, number: u64) -> Result<MemRegion, Fail> {
    let plan = Faults {
        opens: Vec::new(alloc),
        fences: vec![in alloc; FenceNumber { piece: 2, number }]?,
    };
    planned(alloc, 1, plan)
}

// The words of a fresh region of two cores.
fn fresh_words(alloc: Global) -> Result<Vec<u64>, Fail> {
    let plan = Faults {
        opens: Vec::new(alloc),
        fences: Vec::new(alloc),
    };
    let mut region = planned(alloc, 2, plan)?;
    region.attach(alloc)?;
    Ok(words_of(alloc, &region)?)
}

fn is_fresh(alloc: Global, region: &MemRegion) -> Result<bool, Fail> {
    let words = words_of(alloc, region)?;
    let fresh = fresh_words(alloc)?;
    Ok(words.as_slice() == fresh.as_slice())
}

// How a run ends whose split fails, and whether the region is fresh then.
fn with_a_failing_split(
    rt: &(impl Threads + Wait + Clock + Sync + AllocGlobal),
) -> Result<(Ended, bool), Fail> {
    let mut region = lost_at(rt.alloc(), 2)?;
    let ended = run(rt, &mut region, "put 5 abc\nget 5\n", "")?;
    Ok((ended, is_fresh(rt.alloc(), &region)?))
}

#[test]
fn a_split_that_fails(rt: HostRuntime) -> Result<(), Fail> {
    let (ended, fresh) = with_a_failing_split(&rt)?;
    assert_eq!(rt;
        (ended.said(), ended.attached, ended.complete, fresh),
        ((Status::RegionFault, true), true, false, true)
    );
    Ok(())
}

// How a run ends in which core 1's piece fails at its first fence.
fn with_a_failing_piece(
    rt: &(impl Threads + Wait + Clock + Sync + AllocGlobal),
) -> Result<Ended, Fail> {
    let mut region = failing_piece(rt.alloc(), 1)?;
    let input = "put 0 a\nput 1 b\nget 0\nget 1\n";
    let text = "stored\nstopped\nvalue a\nstopped\n";
    run(rt, &mut region, input, text)
}

#[test]
fn a_piece_that_fails(rt: HostRuntime) -> Result<(), Fail> {
    let ended = with_a_failing_piece(&rt)?;
    assert_eq!(rt;
        (ended.said(), ended.complete, ended.finishes),
        ((Status::RegionFault, true), true, 1)
    );
    Ok(())
}
