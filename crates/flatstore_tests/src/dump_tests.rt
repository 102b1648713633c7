// A dump whose sink fails, on the top call.
use crate::call_tests::{Ended, call, ends, with};
use flatstore_commands::{CommandReport, Status};
use fs_text::{MemSink, Sink, SteadySource};
use pm_region::{ReadRegion, SplitRegion};
use region_memory::SteadyRegion;
use std::alloc::{AllocGlobal, Global};
use std::test::Fail;
use std::thread::Threads;

const DUMP: [&str; 3] = ["flatstore", "dump", "region"];

// A region of one core with four chunks of 4,096 bytes, with these bytes beside its superblock.
fn region(alloc: Global, others: &[(usize, u8)]) -> Result<SteadyRegion, Fail> {
    Ok(SteadyRegion::new(alloc, with(alloc, others)?, 5000)?)
}

fn dump<O: Sink, R: SplitRegion + ReadRegion>(
    rt: &(impl Threads + AllocGlobal),
    sink: &mut O,
    region: &mut R,
) -> Result<CommandReport, Fail> {
    let mut source = SteadySource::new(Vec::new(rt.alloc()), 1);
    Ok(call(rt, &DUMP, &mut source, sink, region)?)
}

// How a dump ends whose sink takes three bytes a call and fails at the second one, where these bytes are wanted.
fn with_a_failing_sink(
    rt: &(impl Threads + AllocGlobal),
    region: &mut SteadyRegion,
    text: &str,
) -> Result<Ended, Fail> {
    let alloc = rt.alloc();
    let mut sink = MemSink::new(alloc, 100, 3, vec![in alloc; 2]?)?;
    let report = dump(rt, &mut sink, region)?;
    Ok(Ended::of(&report, sink.text().unwrap_or(b"not kept"), text.as_bytes()))
}

// How a put ends, and then such a dump, where the beginning of the pair is wanted.
fn put_and_dumped(rt: &(impl Threads + AllocGlobal)) -> Result<(Ended, Ended), Fail> {
    let mut region = region(rt.alloc(), &[])?;
    let replayed = ends(rt, &mut region, "put 5 abc\n", "stored\n")?;
    Ok((replayed, with_a_failing_sink(rt, &mut region, "5 a")?))
}

#[test]
fn a_failing_sink(rt: HostRuntime) -> Result<(), Fail> {
    let (replayed, dumped) = put_and_dumped(&rt)?;
    assert_eq!(rt;
        (replayed.said(), dumped.said(), dumped.complete),
        ((Status::Done, true), (Status::SinkFault, true), true)
    );
    Ok(())
}
