// A scan whose ends fail, on the top call.
use crate::call_tests::{Ended, all_done, call, with};
use flatstore_commands::{CommandReport, Status};
use fs_text::{MemSink, MemSource, Sink, SteadySink, SteadySource};
use pm_region::{ReadRegion, SplitRegion};
use region_memory::SteadyRegion;
use std::alloc::{AllocGlobal, Global};
use std::process::Abort;
use std::test::Fail;
use std::thread::Threads;

const SCAN: [&str; 3] = ["flatstore", "scan", "region"];

const THREE: &str = "put 1 a\nput 5 bb\nput 9 c\n";

// A region of one core with four chunks of 4,096 bytes, with these bytes beside its superblock.
fn region(alloc: Global, others: &[(usize, u8)]) -> Result<SteadyRegion, Fail> {
    Ok(SteadyRegion::new(alloc, with(alloc, others)?, 5000)?)
}

fn scan_into<O: Sink, R: SplitRegion + ReadRegion>(
    rt: &(impl Threads + AllocGlobal),
    sink: &mut O,
    region: &mut R,
    queries: &str,
) -> Result<CommandReport, Fail> {
    let bytes = Vec::from_slice(rt.alloc(), queries.as_bytes())?;
    let mut source = SteadySource::new(bytes, 7);
    Ok(call(rt, &SCAN, &mut source, sink, region)?)
}

// A region with the three pairs.
fn with_three(rt: &(impl Threads + AllocGlobal + Abort)) -> Result<SteadyRegion, Fail> {
    let mut region = region(rt.alloc(), &[])?;
    all_done(rt, &mut region, &[(THREE, "stored\nstored\nstored\n")])?;
    Ok(region)
}

// How a scan ends whose sink takes three bytes a call and fails at the second one, where these bytes are wanted.
fn with_a_failing_sink(
    rt: &(impl Threads + AllocGlobal),
    region: &mut SteadyRegion,
    text: &str,
) -> Result<Ended, Fail> {
    let alloc = rt.alloc();
    let mut sink = MemSink::new(alloc, 100, 3, vec![in alloc; 2]?)?;
    let report = scan_into(rt, &mut sink, region, "range 1 9 9\n")?;
    Ok(Ended::of(&report, sink.text().unwrap_or(b"not kept"), text.as_bytes()))
}

// How one ends whose source gives four bytes a call and fails at the second one, where these bytes are wanted.
fn with_a_failing_source(
    rt: &(impl Threads + AllocGlobal),
    region: &mut SteadyRegion,
    text: &str,
) -> Result<Ended, Fail> {
    let alloc = rt.alloc();
    let queries = Vec::from_slice(alloc, b"count 1 2\n")?;
    let mut source = MemSource::new(queries, 4, vec![in alloc; 2]?);
    let mut sink = SteadySink::new(alloc, 100, 100)?;
    let report = call(rt, &SCAN, &mut source, &mut sink, region)?;
    Ok(Ended::of(&report, sink.text().unwrap_or(b"not kept"), text.as_bytes()))
}

// How a scan ends whose sink fails, and then one whose source does.
fn with_failing_ends(rt: &(impl Threads + AllocGlobal + Abort)) -> Result<(Ended, Ended), Fail> {
    let mut region = with_three(rt)?;
    let sink = with_a_failing_sink(rt, &mut region, "1 a")?;
    Ok((sink, with_a_failing_source(rt, &mut region, "")?))
}

#[test]
fn failing_ends(rt: HostRuntime) -> Result<(), Fail> {
    let (sink, source) = with_failing_ends(&rt)?;
    assert_eq!(rt;
        (sink.said(), sink.complete, source.said(), source.complete),
        (
            (Status::SinkFault, true),
            true,
            (Status::SourceFault, true),
            false
        )
    );
    Ok(())
}
