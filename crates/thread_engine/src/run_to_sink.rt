// A run on threads whose replies go to a sink, window by window.
ghost use Rattle.std.specs.Prelude.{◌≡◌, true, false, None, IfOk, OnErr};
ghost use Rattle.pm_region.specs.Split.{Stays, Refuses, IsNotOpened};
ghost use Rattle.engine_core.specs.RunStarts.{StandsAsFound};
ghost use Rattle.thread_engine.specs.Printed.{RanToSink};

use crate::requests::Requests;
use crate::run_apart::{RunOutcome, run};
use crate::text_outlet::{TextOutlet, Unwritten};
use crate::watch::Watch;
use crate::watched_outlet::WatchedOutlet;
use core_worker::Gate;
use engine_core::run_outcome::Outcome;
use fs_text::Sink;
use pm_region::{AttachError, ReadRegion, SplitRegion};
use recover::Recovered;
use std::alloc::Global;
use std::sync::Wait;
use std::thread::Threads;
use std::time::Clock;

/// What a run came to whose replies went to a sink.
#[derive(Drop)]
pub struct SinkRun {
    /// On the requests that were begun: those of the input, or those up to the end of a window whose text is not out.
    pub outcome: RunOutcome,
    /// Why a window's text is not out, where one's is not that was to go out. Where memory ran out in a window, its text
    /// was not to.
    pub unwritten: Option<Unwritten>,
}

// The cause, where there is one.
fn unwritten_by(heard: bool, cause: Option<Unwritten>) -> Option<Unwritten>
    ensures none { heard ≡ true → result ≡ None }
    ensures cause { heard ≡ false → result ≡ cause }
{
    if heard { None } else { cause }
}

/// Runs requests as `run_apart::run` does, and writes the replies of each window behind it, once the region was found in
/// its place; then the sink is flushed. Where the region was not, a write failed or there was no memory to write in, the
/// run ends behind that window. A watch is told before each window's text, and how many requests are answered behind it.
///
/// After an `Err` region and sink are as they were.
pub fn run_to_sink<
    T: Threads + Wait + Clock + Sync,
    R: SplitRegion + ReadRegion,
    O: Sink,
    G: Gate + Sync,
    Q: Requests,
    W: Watch,
>(
    rt: &T,
    alloc: Global,
    region: &mut R,
    sink: &mut O,
    recovered: Recovered,
    requests: &mut Q,
    gate: &G,
    watch: &mut W,
) -> Result<SinkRun, AttachError>
    requires whole { (R.state region.old).frame.parted ≡ false }
    requires region { StandsAsFound (R.state region.old) (R.word region.old) recovered }
    ensures ran { IfOk result (λ x. RanToSink (O.taken sink.old) (O.taken sink.new)
        (O.flushed sink.new) (O.fault_count sink.old) (O.fault_count sink.new)
        (R.state region.old) (R.word region.old) (G.may_refuse gate.now) recovered
        (Q.left requests.old) (R.state region.new) x) }
    ensures stays { OnErr result (Stays (R.state region.old) (R.state region.new)) }
    ensures cause { Refuses (R.state region.old) (R.state region.new) result }
    ensures opens { IsNotOpened (R.state region.old) (R.state region.new) }
    ensures unwritten { OnErr result (sink.new ≡ sink.old) }
{
    let mut outlet = WatchedOutlet {
        outlet: TextOutlet { sink, cause: None },
        watch,
        answered: 0,
    };
    match run(rt, alloc, region, &mut outlet, recovered, requests, gate) {
        Err(error) => Err(error),
        Ok(ran) => Ok(SinkRun {
            outcome: ran.outcome,
            unwritten: unwritten_by(ran.heard, outlet.outlet.cause),
        }),
    }
}
