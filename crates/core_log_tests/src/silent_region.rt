// A region that tells nothing, as a file does, and a log in it that has opened its first chunk.
ghost use Rattle.std.specs.Prelude.{◌≡◌, ◌<◌, Some, false, IfOk, OnOk};
ghost use Rattle.region_memory.specs.Steady.{steady_state};
ghost use Rattle.core_log.specs.Log.{IsOwn, StandsIn, room_of};

use chunk_map::Layout;
use core_log::CoreLog;
use pm_region::{Region, RegionFault, SplitRegion};
use region_memory::SteadyRegion;
use std::alloc::Global;
use std::test::Fail;

// It counts its flushes and fences. What it has inside tells what a crash may leave.
#[derive(Drop)]
pub(crate) struct Silent {
    pub region: SteadyRegion,
    pub flushes: u64,
    pub fences: u64,
}

impl Region for Silent {
    ghost use Rattle.std.specs.Prelude.{false};
    ghost use Rattle.region_memory.specs.Steady.{steady_state};

    ghost state = { λ a. record (steady_state a.region) { told = λ t. false } };

    fn first(&self) -> u64 {
        self.region.first()
    }

    fn words(&self) -> u64 {
        self.region.words()
    }

    fn load(&self, at: u64) -> u64 {
        self.region.load(at)
    }

    fn store(&mut self, at: u64, value: u64) {
        self.region.store(at, value);
    }

    fn flush(&mut self, line: u64) {
        self.flushes = self.flushes.saturating_add(1);
        self.region.flush(line);
    }

    fn fence(&mut self) -> Result<(), RegionFault> {
        self.fences = self.fences.saturating_add(1);
        self.region.fence()
    }

    fn stamp(&self) -> u64 {
        self.region.stamp()
    }

    fn faults(&self) -> u64 {
        self.region.faults()
    }
}

pub(crate) fn word(region: &SteadyRegion, at: u64) -> u64 {
    if region.first() == 0 && at < region.words() {
        region.load(at)
    } else {
        0
    }
}

// A region of one part with four chunks of 4,096 bytes, with nothing in it and room for a journal of so many steps.
fn blank(alloc: Global, steps: u64) -> Result<Silent, Fail>
    ensures first { IfOk result (λ r. (steady_state r.region).frame.first ≡ 0) }
    ensures words { IfOk result (λ r. (steady_state r.region).frame.words ≡ 2560) }
{
    let mut region = SteadyRegion::new(alloc, Vec::new(alloc), steps)?;
    region.create(alloc, 2560)?;
    Ok(Silent {
        region,
        flushes: 0,
        fences: 0,
    })
}

// The log of the part, with no chunk.
fn empty_log(alloc: Global) -> Result<CoreLog, Fail>
    ensures own { IfOk result (λ log. IsOwn log) }
    ensures layout { IfOk result (λ log. log.layout
        ≡ record { cores = 1; group = 1; chunks = 4; chunk_bytes = 4096 }) }
    ensures part { IfOk result (λ log. log.part ≡ 0) }
{
    let layout = Layout::new(1, 1, 4, 4096)?;
    Ok(CoreLog::open(alloc, layout, 0, Vec::new(alloc))?)
}

fn open_chunk(region: &mut Silent, log: &mut CoreLog, chunk: u32) -> Result<(), RegionFault>
    requires first { (steady_state region.old.region).frame.first ≡ 0 }
    requires words { (steady_state region.old.region).frame.words ≡ 2560 }
    requires own { IsOwn log.old }
    requires layout { log.old.layout
        ≡ record { cores = 1; group = 1; chunks = 4; chunk_bytes = 4096 } }
    requires part { log.old.part ≡ 0 }
    requires chunk { chunk < 4 }
    ensures stands { OnOk result (StandsIn (record (steady_state region.new.region)
        { told = λ t. false }) log.new) }
    ensures chunks { OnOk result (log.new.layout.chunks ≡ 4) }
    ensures opened { OnOk result (log.new.opened ≡ Some chunk) }
    ensures room { OnOk result (room_of log.new ≡ 60) }
{
    log.open_chunk(region, chunk)
}

// Which chunk takes the next batch, and how many lines it has left.
#[derive(Clone, Copy, Debug, PartialEq, Eq)]
pub(crate) struct OpenChunk {
    pub chunk: Option<u32>,
    pub lines: u64,
}

pub(crate) fn open_chunk_of(log: &CoreLog) -> OpenChunk {
    OpenChunk {
        chunk: log.opened(),
        lines: log.room(),
    }
}

// A log with an empty chunk, and what it said before it had one.
#[derive(Drop)]
pub(crate) struct OpenLog {
    pub region: Silent,
    pub log: CoreLog,
    pub before: OpenChunk,
}

pub(crate) fn opened(alloc: Global, steps: u64, chunk: u32) -> Result<OpenLog, Fail>
    requires { chunk < 4 }
    ensures stands { IfOk result (λ o. StandsIn (record (steady_state o.region.region)
        { told = λ t. false }) o.log) }
    ensures chunks { IfOk result (λ o. o.log.layout.chunks ≡ 4) }
    ensures opened { IfOk result (λ o. o.log.opened ≡ Some chunk) }
    ensures room { IfOk result (λ o. room_of o.log ≡ 60) }
{
    let mut region = blank(alloc, steps)?;
    let mut log = empty_log(alloc)?;
    let before = open_chunk_of(&log);
    open_chunk(&mut region, &mut log, chunk)?;
    Ok(OpenLog {
        region,
        log,
        before,
    })
}
