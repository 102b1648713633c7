// What a run writes behind each window of its requests, and where it ends when a window's replies do not go out, on the
// top call.
use crate::call_tests::{Ended, command};
use crate::row_tests::fresh_of;
use crate::thread_tests::{RUN, gets_and_a_put};
use core_worker::OpenGate;
use flatstore_commands::{CommandReport, Status, flatstore};
use fs_text::{MemSink, SteadySource};
use pm_region::{ReadRegion, SplitRegion};
use region_memory::{Faults, MemRegion, SteadyRegion};
use std::alloc::{AllocGlobal, Global};
use std::sync::Wait;
use std::test::Fail;
use std::thread::Threads;
use std::time::Clock;
use thread_engine::watch::Unwatched;

// A sink that takes all bytes of a call, and whose calls of these numbers fail.
fn sink_of(alloc: Global, fails: Vec<u64>) -> Result<MemSink, Fail> {
    Ok(MemSink::new(alloc, 100_000, 100_000, fails)?)
}

// Runs 4,096 gets, which are the first window, and a put and a get behind them.
fn two_windows<R: SplitRegion + ReadRegion>(
    rt: &(impl Threads + Wait + Clock + Sync + AllocGlobal),
    region: &mut R,
    sink: &mut MemSink,
) -> Result<CommandReport, Fail> {
    let alloc = rt.alloc();
    let (input, _) = gets_and_a_put(alloc, 4096)?;
    let line = command(alloc, &RUN)?;
    let mut source = SteadySource::new(Vec::from_slice(alloc, input.as_bytes())?, 1000);
    Ok(flatstore(
        rt,
        alloc,
        &line,
        &mut source,
        sink,
        region,
        &OpenGate,
        &mut Unwatched,
    ))
}

// How such a run ends, where so many bytes are to be out that begin the replies.
fn run_ends<R: SplitRegion + ReadRegion>(
    rt: &(impl Threads + Wait + Clock + Sync + AllocGlobal),
    region: &mut R,
    sink: &mut MemSink,
    bytes: usize,
) -> Result<Ended, Fail> {
    let report = two_windows(rt, region, sink)?;
    let (_, replies) = gets_and_a_put(rt.alloc(), 4096)?;
    let out = replies.as_bytes().get(..bytes).unwrap_or(b"too short");
    Ok(Ended::of(&report, sink.text().unwrap_or(b"not kept"), out))
}

// Which call of the sink fails, counted from 1; then the status, the bytes that are out, and the changes that are done.
// The first window's text goes out in four writes and a flush, the second one's in a write and a flush.
const CALLS: [(u64, Status, usize, usize); 4] = [
    (0, Status::Done, 28_687, 1),
    (5, Status::SinkFault, 28_672, 0),
    (6, Status::SinkFault, 28_672, 1),
    (7, Status::SinkFault, 28_687, 1),
];

// A run into a sink whose call with this number fails.
fn with_a_failing_sink(
    rt: &(impl Threads + Wait + Clock + Sync + AllocGlobal),
    call: u64,
    bytes: usize,
) -> Result<Ended, Fail> {
    let alloc = rt.alloc();
    let mut sink = sink_of(alloc, vec![in alloc; call]?)?;
    let mut region = SteadyRegion::new(alloc, fresh_of(alloc, 1, 1)?, 5000)?;
    run_ends(rt, &mut region, &mut sink, bytes)
}

#[test]
fn a_sink_that_fails_in_a_window(rt: HostRuntime) -> Result<(), Fail> {
    for (call, status, bytes, changes) in CALLS {
        let ended = with_a_failing_sink(&rt, call, bytes)?;
        assert_eq!(rt;
            (ended.said(), ended.finishes, ended.complete, ended.in_place),
            ((status, true), changes, true, true),
            "at {call}"
        );
    }
    Ok(())
}

// Which look for the region fails, where attaching and splitting it are the first two; then the bytes that are out, and
// the changes that are done.
const LOOKS: [(u64, usize, usize); 2] = [(3, 0, 0), (4, 28_672, 1)];

// A region of which the look with this number fails.
fn lost_at(alloc: Global, look: u64) -> Result<MemRegion, Fail> {
    let plan = Faults {
        opens: vec![in alloc; look]?,
        fences: Vec::new(alloc),
    };
    Ok(MemRegion::new(alloc, fresh_of(alloc, 1, 1)?, 5000, plan)?)
}

// A run on it.
fn with_a_lost_place(
    rt: &(impl Threads + Wait + Clock + Sync + AllocGlobal),
    look: u64,
    bytes: usize,
) -> Result<Ended, Fail> {
    let mut sink = sink_of(rt.alloc(), Vec::new(rt.alloc()))?;
    let mut region = lost_at(rt.alloc(), look)?;
    run_ends(rt, &mut region, &mut sink, bytes)
}

#[test]
fn a_place_that_is_lost_at_work(rt: HostRuntime) -> Result<(), Fail> {
    for (look, bytes, changes) in LOOKS {
        let ended = with_a_lost_place(&rt, look, bytes)?;
        assert_eq!(rt;
            (ended.said(), ended.finishes, ended.complete, ended.in_place),
            ((Status::RegionFault, true), changes, true, false),
            "at {look}"
        );
    }
    Ok(())
}
