// A replay on one core, on the top call: what it refuses, what fails under it, and its images.
ghost use Rattle.std.specs.Prelude.{◌≡◌, false};

use crate::change_tests::put;
use core_room::{Counts, Shortage};
use engine_core::run_report::Refusal;
use flatstore_commands::{CommandReport, Finishes, Status, command_line, flatstore_alone};
use fs_model::{Memory, Value};
use fs_text::{MemSink, MemSource, Sink, Source, SteadySink, SteadySource};
use image_yardstick::image_superblock::read_layout;
use image_yardstick::{first_fault, recovered_cells};
use pm_region::{ReadRegion, Region, SplitRegion};
use region_memory::{Faults, FenceNumber, MemRegion, Pick, SteadyRegion};
use std::alloc::{Alloc, AllocError, AllocGlobal, Global};
use std::env::{Env, FillError};
use std::process::Abort;
use std::test::Fail;
use std::thread::Threads;

const BYTES: usize = 20480;

const REPLAY: [&str; 3] = ["flatstore", "replay", "region"];

const THREE: &str = "put 5 abc\nget 5\nget 6\n";

pub const PICKS: [Pick; 6] = [
    Pick::Oldest,
    Pick::Newest,
    Pick::Mixed(0),
    Pick::Mixed(1),
    Pick::Mixed(2),
    Pick::Mixed(3),
];

fn set(bytes: &mut [u8], place: usize, byte: u8) {
    if let Some(at) = bytes.get_mut(place) {
        *at = byte;
    }
}

// The bytes of the fresh region: the superblock of one core with four chunks of 4,096 bytes.
fn fresh(alloc: Global) -> Result<Vec<u8>, AllocError> {
    let mut bytes = vec![in alloc; 0u8; BYTES]?;
    for (place, byte) in b"FLATST01".iter().enumerate() {
        set(&mut bytes, place, *byte);
    }
    for (place, byte) in [(8, 1), (16, 1), (24, 1), (32, 4), (41, 16)] {
        set(&mut bytes, place, byte);
    }
    Ok(bytes)
}

pub fn command(alloc: Global, words: &[&str]) -> Result<Vec<String>, AllocError> {
    let mut line = Vec::new(alloc);
    for word in words {
        line.push(String::from_str(alloc, word)?)?;
    }
    Ok(line)
}

// One call of the program, of which only the report counts.
pub fn call<S: Source, O: Sink, R: SplitRegion + ReadRegion>(
    rt: &(impl Threads + AllocGlobal),
    words: &[&str],
    source: &mut S,
    sink: &mut O,
    region: &mut R,
) -> Result<CommandReport, AllocError>
    requires open { S.ended source.old ≡ false }
{
    let alloc = rt.alloc();
    let line = command(alloc, words)?;
    Ok(flatstore_alone(rt, alloc, &line, source, sink, region))
}

// Replays an input on a region, into a sink that takes everything.
pub fn replay<R: SplitRegion + ReadRegion>(
    rt: &(impl Threads + AllocGlobal),
    region: &mut R,
    input: &str,
) -> Result<(CommandReport, Vec<u8>), Fail> {
    let alloc = rt.alloc();
    let mut source = SteadySource::new(Vec::from_slice(alloc, input.as_bytes())?, 7);
    let mut sink = SteadySink::new(alloc, 100_000, 1000)?;
    let report = call(rt, &REPLAY, &mut source, &mut sink, region)?;
    let text = Vec::from_slice(alloc, sink.text().unwrap_or(b"not kept"))?;
    Ok((report, text))
}

// How many changes a report names as finished.
fn finish_count(report: &CommandReport) -> usize {
    match &report.finishes {
        Finishes::Each(finishes) => finishes.len(),
        Finishes::Alike { finished, .. } => {
            let mut count = 0usize;
            for is in finished.as_slice() {
                if *is {
                    count = count.saturating_add(1);
                }
            }
            count
        }
    }
}

// The stamp by which a request was finished, where it was.
pub fn stamp_of(report: &CommandReport, request: u64) -> Option<u64> {
    match &report.finishes {
        Finishes::Each(finishes) => {
            for finish in finishes.as_slice() {
                if finish.request == request {
                    return Some(finish.stamp);
                }
            }
            None
        }
        Finishes::Alike { finished, stamp } => match finished.get(request as usize) {
            Some(true) => Some(*stamp),
            Some(false) | None => None,
        },
    }
}

// What a report says beside its lists, and whether the text that was written is the wanted one.
#[derive(Clone, Copy)]
pub struct Ended {
    pub status: Status,
    pub attached: bool,
    pub complete: bool,
    pub in_place: bool,
    pub finishes: usize,
    pub as_wanted: bool,
}

impl Ended {
    pub fn of(report: &CommandReport, written: &[u8], text: &[u8]) -> Ended {
        Ended {
            status: report.status,
            attached: report.attached,
            complete: report.complete,
            in_place: report.in_place,
            finishes: finish_count(report),
            as_wanted: written == text,
        }
    }

    pub fn said(&self) -> (Status, bool) {
        (self.status, self.as_wanted)
    }
}

// How a replay on a region ends, where this text is wanted.
pub fn ends<R: SplitRegion + ReadRegion>(
    rt: &(impl Threads + AllocGlobal),
    region: &mut R,
    input: &str,
    text: &str,
) -> Result<Ended, Fail> {
    let (report, written) = replay(rt, region, input)?;
    Ok(Ended::of(&report, written.as_slice(), text.as_bytes()))
}

// The same, and whether it reports just these refusals.
pub fn refuses<R: SplitRegion + ReadRegion>(
    rt: &(impl Threads + AllocGlobal),
    region: &mut R,
    input: &str,
    text: &str,
    refusals: &[Refusal],
) -> Result<(Ended, bool), Fail> {
    let (report, written) = replay(rt, region, input)?;
    let ended = Ended::of(&report, written.as_slice(), text.as_bytes());
    Ok((ended, report.refusals.as_slice() == refusals))
}

fn steady(alloc: Global) -> Result<SteadyRegion, Memory> {
    SteadyRegion::new(alloc, fresh(alloc)?, 5000)
}

// How a replay on a region in memory ends that is fresh, and whether it reports just these refusals.
pub fn row(
    rt: &(impl Threads + AllocGlobal),
    input: &str,
    text: &str,
    refusals: &[Refusal],
) -> Result<(Ended, bool), Fail> {
    let mut region = steady(rt.alloc())?;
    refuses(rt, &mut region, input, text, refusals)
}

// The words of a region that starts at word 0.
pub fn words_of<R: Region>(alloc: Global, region: &R) -> Result<Vec<u64>, AllocError> {
    let mut words = Vec::new(alloc);
    if region.first() == 0 {
        for place in 0..region.words() {
            words.push(region.load(place))?;
        }
    }
    Ok(words)
}

// A key's cell in an image, once the yardstick has found it sound.
pub fn cell(alloc: Global, words: &[u64], key: u64) -> Result<Option<Value>, Fail> {
    let bytes = words.len() as u64 * 8;
    if first_fault(alloc, words, bytes)?.is_some() || read_layout(words, bytes).is_err() {
        return Ok(Some(Value::of(Vec::from_slice(alloc, b"not sound")?)));
    }
    for pair in recovered_cells(alloc, words)? {
        if pair.key == key {
            return Ok(Some(pair.value));
        }
    }
    Ok(None)
}

// A key's cell in a region that is yet to be attached.
fn cell_in<R: SplitRegion>(alloc: Global, region: &mut R, key: u64) -> Result<Option<Value>, Fail> {
    region.attach(alloc)?;
    let words = words_of(alloc, region)?;
    cell(alloc, &words, key)
}

// An environment with one word, which is not UTF-8.
#[derive(Drop)]
struct NoText {
    alloc: Global,
}

impl Alloc for NoText {
    type A = Global;

    fn alloc(&self) -> Global {
        self.alloc
    }
}

impl Env for NoText {
    fn arg(&self, i: usize, buf: &mut [u8]) -> Result<usize, FillError> {
        if i > 0 {
            return Err(FillError::NotPresent);
        }
        match buf.first_mut() {
            None => Err(FillError::TooLong),
            Some(byte) => {
                *byte = 0xff;
                Ok(1)
            }
        }
    }

    fn var(&self, _name: &str, _buf: &mut [u8]) -> Result<usize, FillError> {
        Err(FillError::NotPresent)
    }

    fn var_at(&self, _i: usize, _buf: &mut [u8]) -> Result<usize, FillError> {
        Err(FillError::NotPresent)
    }
}

// How many words there are in such an environment.
fn words_of_no_text(alloc: Global) -> Result<usize, Memory> {
    let words = command_line(&NoText { alloc }, alloc)?;
    Ok(words.len())
}

#[test]
fn words_that_are_no_text(rt: HostRuntime) -> Result<(), Fail> {
    assert_eq!(rt; words_of_no_text(rt.alloc())?, 0);
    Ok(())
}

// The bytes of the fresh region with others at some places.
pub fn with(alloc: Global, places: &[(usize, u8)]) -> Result<Vec<u8>, AllocError> {
    let mut bytes = fresh(alloc)?;
    for (place, byte) in places {
        set(&mut bytes, *place, *byte);
    }
    Ok(bytes)
}

// Replays inputs on a region, one behind the other, and sees that each is done and writes its text.
pub fn all_done<R: SplitRegion + ReadRegion>(
    rt: &(impl Threads + AllocGlobal + Abort),
    region: &mut R,
    rows: &[(&str, &str)],
) -> Result<(), Fail> {
    for (input, text) in rows {
        let ended = ends(rt, region, input, text)?;
        assert_eq!(*rt; ended.said(), (Status::Done, true), "{input}");
    }
    Ok(())
}

// The only entry is key 9 version 1,048,574 with the value `q`, in log chunk 0.
pub fn spent(alloc: Global) -> Result<Vec<u8>, AllocError> {
    let places: [(usize, u8); 8] = [
        (4096, 1),
        (4104, 8),
        (4352, 0xe5),
        (4353, 0xff),
        (4354, 0xff),
        (4355, 1),
        (4360, 9),
        (4368, b'q'),
    ];
    with(alloc, places.as_slice())
}

// 37 puts of values with 255 bytes, each with turns enough to end it, and the replies to them: a chunk of 60 lines has
// 12 entries of 5 lines.
fn many(alloc: Global) -> Result<(String, String), Fail> {
    let value = String::from_utf8(vec![in alloc; b'v'; 255]?)?;
    let mut input = String::new(alloc);
    let mut text = String::new(alloc);
    for key in 1..38u64 {
        input.push_str(format!(in alloc; "put {key} {value}\ngo 0 50\n")?.as_str())?;
        text.push_str(if key < 37 { "stored\n" } else { "full\n" })?;
    }
    Ok((input, text))
}

fn many_on_a_fresh_region(
    rt: &(impl Threads + AllocGlobal),
    refusals: &[Refusal],
) -> Result<(Ended, bool), Fail> {
    let (input, text) = many(rt.alloc())?;
    row(rt, input.as_str(), text.as_str(), refusals)
}

#[test]
fn a_full_log(rt: HostRuntime) -> Result<(), Fail> {
    let why = Shortage::Room(Counts {
        free_chunks: 1,
        open_lines: 0,
        pledged_lines: 0,
        need_lines: 5,
        class: 0,
        free_blocks: 0,
    });
    let (ended, refused) = many_on_a_fresh_region(&rt, &[Refusal { request: 36, why }])?;
    assert_eq!(rt;
        (ended.said(), refused, ended.finishes),
        ((Status::Done, true), true, 36)
    );
    Ok(())
}

fn failing(alloc: Global, number: u64) -> Result<MemRegion, Memory> {
    let plan = Faults {
        opens: Vec::new(alloc),
        fences: vec![in alloc; FenceNumber { piece: 0, number }]?,
    };
    MemRegion::new(alloc, fresh(alloc)?, 5000, plan)
}

// Whether each image of the last stamp has no value for key 1, or this one.
fn has_none_or(alloc: Global, region: &MemRegion, bytes: &[u8]) -> Result<bool, Fail> {
    for pick in PICKS {
        let mut image = region.image_at(alloc, region.stamp(), pick)?;
        if let Some(value) = cell_in(alloc, &mut image, 1)? {
            if value.bytes() != bytes {
                return Ok(false);
            }
        }
    }
    Ok(true)
}

// How a replay ends whose fence with this number fails, where this text is wanted, and whether each image of the last
// stamp has no value for key 1, or this one.
fn fails_at(
    rt: &(impl Threads + AllocGlobal),
    number: u64,
    input: &str,
    text: &str,
    bytes: &[u8],
) -> Result<((Status, bool), bool), Fail> {
    let mut region = failing(rt.alloc(), number)?;
    let ended = ends(rt, &mut region, input, text)?;
    Ok((ended.said(), has_none_or(rt.alloc(), &region, bytes)?))
}

const STOPPED: ((Status, bool), bool) = ((Status::RegionFault, true), true);

#[test]
fn failing_fences(rt: HostRuntime) -> Result<(), Fail> {
    for number in 1..5 {
        let found = fails_at(&rt, number, "put 1 a\nget 1\n", "stopped\nstopped\n", b"a")?;
        assert_eq!(rt; found, STOPPED, "at {number}");
    }
    Ok(())
}

// How the put of a value that stands in a block ends, where the fence with this number fails.
fn block_fails_at(
    rt: &(impl Threads + AllocGlobal),
    number: u64,
) -> Result<((Status, bool), bool), Fail> {
    let input = put(rt.alloc(), 1, b'b', 256)?;
    fails_at(rt, number, input.as_str(), "stopped\n", &[b'b'; 256])
}

#[test]
fn failing_fences_of_a_block(rt: HostRuntime) -> Result<(), Fail> {
    // the head of the block's chunk and the value, the head of the log's chunk, and the batch
    for number in 1..7 {
        assert_eq!(rt; block_fails_at(&rt, number)?, STOPPED, "at {number}");
    }
    Ok(())
}

// Whether each image of a stamp has `abc` for key 5, or no value where the change isn't finished.
fn has_abc(alloc: Global, region: &SteadyRegion, stamp: u64, finished: bool) -> Result<bool, Fail> {
    for pick in PICKS {
        let mut image = region.image_at(alloc, stamp, pick)?;
        let good = match cell_in(alloc, &mut image, 5)? {
            Some(value) => value.bytes() == b"abc".as_slice(),
            None => !finished,
        };
        if !good {
            return Ok(false);
        }
    }
    Ok(true)
}

// Whether they have it at each stamp, where the change is finished at this one.
fn have_abc(alloc: Global, region: &SteadyRegion, finish: u64) -> Result<bool, Fail> {
    for stamp in 0..region.stamp() {
        if !has_abc(alloc, region, stamp, finish <= stamp)? {
            return Ok(false);
        }
    }
    has_abc(alloc, region, region.stamp(), true)
}

// The stamp by which the first change of the three lines is finished.
fn finish_of_three(
    rt: &(impl Threads + AllocGlobal),
    region: &mut SteadyRegion,
) -> Result<u64, Fail> {
    let (report, _) = replay(rt, region, THREE)?;
    Ok(stamp_of(&report, 0).unwrap_or(u64::MAX))
}

// Whether that stamp has come, and whether the images of all stamps have what they must.
fn three_and_their_images(rt: &(impl Threads + AllocGlobal)) -> Result<(bool, bool), Fail> {
    let mut region = steady(rt.alloc())?;
    let finish = finish_of_three(rt, &mut region)?;
    Ok((
        finish <= region.stamp(),
        have_abc(rt.alloc(), &region, finish)?,
    ))
}

#[test]
fn images_at_each_stamp(rt: HostRuntime) -> Result<(), Fail> {
    assert_eq!(rt; three_and_their_images(&rt)?, (true, true));
    Ok(())
}

// What a call says whose source fails, whether it wrote nothing, and the region's stamp then.
fn with_a_failing_source(rt: &(impl Threads + AllocGlobal)) -> Result<(Status, bool, u64), Fail> {
    let alloc = rt.alloc();
    // the second read would begin inside line 3
    let input = Vec::from_slice(alloc, THREE.as_bytes())?;
    let mut source = MemSource::new(input, 18, vec![in alloc; 2]?);
    let mut sink = SteadySink::new(alloc, 100, 10)?;
    let mut region = steady(alloc)?;
    let report = call(rt, &REPLAY, &mut source, &mut sink, &mut region)?;
    let nothing = sink.text() == Some(b"".as_slice());
    Ok((report.status, nothing, region.stamp()))
}

#[test]
fn a_failing_source(rt: HostRuntime) -> Result<(), Fail> {
    assert_eq!(rt; with_a_failing_source(&rt)?, (Status::SourceFault, true, 0));
    Ok(())
}

// What a call says whose sink fails at its second call, and whether it wrote what the first one took.
fn with_a_failing_sink(rt: &(impl Threads + AllocGlobal)) -> Result<(Status, bool), Fail> {
    let alloc = rt.alloc();
    let input = Vec::from_slice(alloc, b"put 5 abc\nget 5\n")?;
    let mut source = SteadySource::new(input, 100);
    let mut sink = MemSink::new(alloc, 100, 10, vec![in alloc; 2]?)?;
    let mut region = steady(alloc)?;
    let report = call(rt, &REPLAY, &mut source, &mut sink, &mut region)?;
    Ok((
        report.status,
        sink.text() == Some(b"stored\nval".as_slice()),
    ))
}

#[test]
fn a_failing_sink(rt: HostRuntime) -> Result<(), Fail> {
    assert_eq!(rt; with_a_failing_sink(&rt)?, (Status::SinkFault, true));
    Ok(())
}
