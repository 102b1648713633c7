// A run of a load.
ghost use Rattle.std.specs.Prelude.{◌≡◌, ◌^◌, ◌<◌, false, IfOk, OnErr};
ghost use Rattle.pm_region.specs.Split.{Stays, Refuses, IsNotOpened};
ghost use Rattle.engine_core.specs.RunStarts.{StandsAsFound};
ghost use Rattle.load_requests.specs.Generated.{requests_of_load};
ghost use Rattle.load_run.specs.Loaded.{RanLoad};

use crate::made_requests::LoadRequests;
use crate::tally_outlet::TallyOutlet;
use core_worker::Gate;
use fs_text::LoadTally;
use pm_region::{AttachError, ReadRegion, SplitRegion};
use recover::Recovered;
use std::alloc::Global;
use std::sync::Wait;
use std::thread::Threads;
use std::time::Clock;
use thread_engine::run_apart::{RunOutcome, run};
use thread_engine::watch::Watch;
use thread_engine::watched_outlet::WatchedOutlet;

/// What a load came to.
#[derive(Drop)]
pub struct LoadRun {
    /// On all of its requests.
    pub outcome: RunOutcome,
    /// Of their replies. Where memory ran out in a window, it has not those of that window and of what was to come
    /// behind it. Of live pairs it has none.
    pub tally: LoadTally,
}

/// Runs so many requests of a load that begins at `start`: they are made and dealt window by window, and the replies of
/// a window are counted behind it. After an `Err` the region is as it was: `RegionFault` comes where it could not be
/// split, and `Memory` where there was none for what the run needs.
pub fn run_load<
    T: Threads + Wait + Clock + Sync,
    R: SplitRegion + ReadRegion,
    G: Gate + Sync,
    W: Watch,
>(
    rt: &T,
    alloc: Global,
    region: &mut R,
    recovered: Recovered,
    start: u64,
    count: u64,
    gate: &G,
    watch: &mut W,
) -> Result<LoadRun, AttachError>
    requires whole { (R.state region.old).frame.parted ≡ false }
    requires region { StandsAsFound (R.state region.old) (R.word region.old) recovered }
    requires few { count < 2 ^ 63 }
    ensures ran { IfOk result (RanLoad (R.state region.old) (R.word region.old)
        (G.may_refuse gate.now) recovered (requests_of_load start count) (R.state region.new)) }
    ensures stays { OnErr result (Stays (R.state region.old) (R.state region.new)) }
    ensures cause { Refuses (R.state region.old) (R.state region.new) result }
    ensures opens { IsNotOpened (R.state region.old) (R.state region.new) }
{
    let mut requests = LoadRequests::of(start, count);
    let mut outlet = WatchedOutlet::of(TallyOutlet::new(), watch);
    match run(
        rt,
        alloc,
        region,
        &mut outlet,
        recovered,
        &mut requests,
        gate,
    ) {
        Err(error) => Err(error),
        Ok(ran) => Ok(LoadRun {
            outcome: ran.outcome,
            tally: outlet.outlet.tally,
        }),
    }
}
