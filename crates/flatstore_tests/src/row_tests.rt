// Several cores and groups, on the top call: the images of their batches, and a core that stops.
use crate::call_tests::{Ended, PICKS, call, cell, ends, replay, stamp_of, with, words_of};
use flatstore_commands::{CommandReport, Status};
use fs_text::{Sink, SteadySink, SteadySource};
use pm_region::{ReadRegion, Region, SplitRegion};
use region_memory::{Faults, FenceNumber, MemRegion, SteadyRegion};
use std::alloc::{AllocError, AllocGlobal, Global};
use std::test::Fail;
use std::thread::Threads;

const ONE_BATCH: &str = "put 0 a\nput 1 b\nput 2 c\ngo 1 2\ngo 2 2\ngo 0 20\n";

const STOLEN: &str = "put 4 a\ngo 0 2\nput 1 x\ngo 1 5\nget 4\nput 4 b\ngo 0 5\nget 4\n";

const FAILS_THIRD: &str = "put 0 a\nput 1 b\nget 0\nget 1\n";

// Core 1 takes the change of key 0, and its batch fails, while that of key 2 stands posted: its core stops, and takes
// it back.
const WITHDRAWN: &str = "put 0 a\ngo 0 2\nput 1 x\ngo 1 6\nput 2 b\ngo 0 2\ngo 1 3\n";

// The bytes of a fresh region: so many cores in groups, each with 4 chunks of 4,096 bytes.
pub fn fresh_of(alloc: Global, cores: u8, group: u8) -> Result<Vec<u8>, AllocError> {
    let mut bytes = with(alloc, &[(16, cores), (24, group)])?;
    bytes.resize(4096 + 16384 * cores as usize, 0)?;
    Ok(bytes)
}

// What a command that only reads writes of a region.
pub fn text_of<R: SplitRegion + ReadRegion>(
    rt: &(impl Threads + AllocGlobal),
    command: &str,
    region: &mut R,
) -> Result<Vec<u8>, Fail> {
    let alloc = rt.alloc();
    let mut source = SteadySource::new(Vec::new(alloc), 1);
    let mut sink = SteadySink::new(alloc, 100_000, 1000)?;
    let words = ["flatstore", command, "region"];
    let _ = call(rt, &words, &mut source, &mut sink, region)?;
    Ok(Vec::from_slice(alloc, sink.text().unwrap_or(b"not kept"))?)
}

// A key, the requests that change it, and its cells before the first change and after each one; none is empty.
#[derive(Clone, Copy)]
struct Changed {
    key: u64,
    requests: &'static [u64],
    cells: &'static [&'static str],
}

// How many of these requests were finished by a stamp.
fn finished_by(report: &CommandReport, requests: &[u64], stamp: u64) -> usize {
    let mut count = 0usize;
    for request in requests {
        let finish = stamp_of(report, *request);
        if finish.is_some_and(|finish| finish <= stamp) {
            count = count.saturating_add(1);
        }
    }
    count
}

// Whether the words recover for the key the cell after so many changes, or after one more.
fn has_prefix(alloc: Global, words: &[u64], changed: &Changed, count: usize) -> Result<bool, Fail> {
    let bytes = match cell(alloc, words, changed.key)? {
        None => Vec::new(alloc),
        Some(value) => Vec::from_slice(alloc, value.bytes())?,
    };
    for at in [count, count.saturating_add(1)] {
        if let Some(cell) = changed.cells.get(at) {
            if bytes.as_slice() == cell.as_bytes() {
                return Ok(true);
            }
        }
    }
    Ok(false)
}

// Whether each image of a stamp has such a prefix of each key's changes.
fn has_prefixes(
    alloc: Global,
    region: &MemRegion,
    report: &CommandReport,
    changes: &[Changed],
    stamp: u64,
) -> Result<bool, Fail> {
    for pick in PICKS {
        let mut image = region.image_at(alloc, stamp, pick)?;
        image.attach(alloc)?;
        let words = words_of(alloc, &image)?;
        for changed in changes {
            let count = finished_by(report, changed.requests, stamp);
            if !has_prefix(alloc, &words, changed, count)? {
                return Ok(false);
            }
        }
    }
    Ok(true)
}

// A region of so many cores in one group, whose fences with these numbers fail.
fn region_of(alloc: Global, cores: u8, fails: &[u64]) -> Result<MemRegion, Fail> {
    let mut fences = Vec::new(alloc);
    for number in fails {
        fences.push(FenceNumber {
            piece: 0,
            number: *number,
        })?;
    }
    let plan = Faults {
        opens: Vec::new(alloc),
        fences,
    };
    Ok(MemRegion::new(alloc, fresh_of(alloc, cores, cores)?, 5000, plan)?)
}

// Whether each image of each stamp since the attach has them.
fn has_all(
    alloc: Global,
    region: &MemRegion,
    report: &CommandReport,
    changes: &[Changed],
) -> Result<bool, Fail> {
    for stamp in 0..region.stamp() {
        if !has_prefixes(alloc, region, report, changes, stamp)? {
            return Ok(false);
        }
    }
    has_prefixes(alloc, region, report, changes, region.stamp())
}

// How a replay on so many cores of one group ends whose fences with these numbers fail, where this text is wanted, and
// whether each image of each stamp has a prefix of these changes.
fn ends_with_images(
    rt: &(impl Threads + AllocGlobal),
    cores: u8,
    fails: &[u64],
    input: &str,
    text: &str,
    changes: &[Changed],
) -> Result<((Status, bool), bool), Fail> {
    let mut region = region_of(rt.alloc(), cores, fails)?;
    let (report, written) = replay(rt, &mut region, input)?;
    let ended = Ended::of(&report, written.as_slice(), text.as_bytes());
    let all = has_all(rt.alloc(), &region, &report, changes)?;
    Ok((ended.said(), all))
}

const OF_A_BATCH: [Changed; 3] = [
    Changed {
        key: 0,
        requests: &[0],
        cells: &["", "a"],
    },
    Changed {
        key: 1,
        requests: &[1],
        cells: &["", "b"],
    },
    Changed {
        key: 2,
        requests: &[2],
        cells: &["", "c"],
    },
];

#[test]
fn images_of_a_batch(rt: HostRuntime) -> Result<(), Fail> {
    let text = "stored\nstored\nstored\n";
    let found = ends_with_images(&rt, 4, &[], ONE_BATCH, text, &OF_A_BATCH)?;
    assert_eq!(rt; found, ((Status::Done, true), true));
    Ok(())
}

const STOLEN_AND_OTHER: [Changed; 2] = [
    Changed {
        key: 4,
        requests: &[0, 3],
        cells: &["", "a", "b"],
    },
    Changed {
        key: 1,
        requests: &[1],
        cells: &["", "x"],
    },
];

#[test]
fn images_of_a_stolen_change(rt: HostRuntime) -> Result<(), Fail> {
    let text = "stored\nstored\nvalue a\nstored\nvalue b\n";
    let found = ends_with_images(&rt, 4, &[], STOLEN, text, &STOLEN_AND_OTHER)?;
    assert_eq!(rt; found, ((Status::Done, true), true));
    Ok(())
}

const OF_TWO_CORES: [Changed; 2] = [
    Changed {
        key: 0,
        requests: &[0],
        cells: &["", "a"],
    },
    Changed {
        key: 1,
        requests: &[1],
        cells: &["", "b"],
    },
];

const BY_TURNS: [(&str, &str); 2] = [
    ("", "stopped\nstored\nstopped\nvalue b\n"),
    ("go 1 3\n", "stopped\nstopped\nstopped\nstopped\n"),
];

// How two puts and two gets end whose third fence fails, with these turns behind them, where this text is wanted.
fn ends_by_turns(
    rt: &(impl Threads + AllocGlobal),
    turns: &str,
    text: &str,
) -> Result<((Status, bool), bool), Fail> {
    let input = format!(in rt.alloc(); "{FAILS_THIRD}{turns}")?;
    ends_with_images(rt, 2, &[3], input.as_str(), text, &OF_TWO_CORES)
}

#[test]
fn a_core_that_stops(rt: HostRuntime) -> Result<(), Fail> {
    for (turns, text) in BY_TURNS {
        let found = ends_by_turns(&rt, turns, text)?;
        assert_eq!(rt; found, ((Status::RegionFault, true), true), "{turns}");
    }
    Ok(())
}

// How the replay ends, and how many bytes its log has.
fn withdrawn(rt: &(impl Threads + AllocGlobal)) -> Result<(Ended, usize), Fail> {
    let mut region = region_of(rt.alloc(), 2, &[1])?;
    let ended = ends(rt, &mut region, WITHDRAWN, "stopped\nstopped\nstopped\n")?;
    let log = text_of(rt, "log", &mut region)?;
    Ok((ended, log.len()))
}

#[test]
fn a_change_that_is_taken_back(rt: HostRuntime) -> Result<(), Fail> {
    let (ended, log) = withdrawn(&rt)?;
    assert_eq!(rt;
        (ended.said(), ended.finishes, log),
        ((Status::RegionFault, true), 0, 0)
    );
    Ok(())
}

// How a replay ends that is to write nothing, on a region of one core of which the look with this number fails.
fn lost_at(rt: &(impl Threads + AllocGlobal), look: u64, input: &str) -> Result<Ended, Fail> {
    let alloc = rt.alloc();
    let plan = Faults {
        opens: vec![in alloc; look]?,
        fences: Vec::new(alloc),
    };
    let mut region = MemRegion::new(alloc, fresh_of(alloc, 1, 1)?, 5000, plan)?;
    ends(rt, &mut region, input, "")
}

#[test]
fn an_attach_that_fails(rt: HostRuntime) -> Result<(), Fail> {
    let ended = lost_at(&rt, 1, "put 5 abc\nget 5\ndelete 5\nget 5\n")?;
    assert_eq!(rt;
        (ended.said(), ended.attached),
        ((Status::RegionFault, true), false)
    );
    Ok(())
}

// Attached, and out of its place when all is answered: no reply tells of the put, which is done.
#[test]
fn a_place_that_is_lost(rt: HostRuntime) -> Result<(), Fail> {
    let ended = lost_at(&rt, 2, "put 5 abc\nget 5\n")?;
    assert_eq!(rt;
        (ended.said(), ended.complete, ended.in_place, ended.finishes),
        ((Status::RegionFault, true), true, false, 1)
    );
    Ok(())
}
