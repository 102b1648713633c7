// A run of requests on threads, and its outcome.
ghost use Rattle.std.specs.Prelude.{◌≡◌, ℕ, length, false, IfOk, OnErr};
ghost use Rattle.pm_region.specs.Split.{Stays, Refuses, IsNotOpened};
ghost use Rattle.recover.specs.declared.types.Recovered.{Recovered};
ghost use Rattle.engine_laws.specs.Origins.{Origin};
ghost use Rattle.engine_core.specs.RunStarts.{StandsAsFound, BeginsAt};
ghost use Rattle.thread_engine.specs.RanApart.{RanInWindows};
ghost use Rattle.thread_engine.specs.Supplied.{IsSupplied, ArePartCuts};

use crate::closing::{close_tables, token_rooms};
use crate::crew::{Crew, Returned};
use crate::group_leads::AllLeads;
use crate::group_tables::open_tables;
use crate::outlet::Outlet;
use crate::requests::Requests;
use crate::run_answers::RunAnswers;
use crate::run_end::run_end;
use crate::run_notes::RunNotes;
use crate::work_apart::work_apart;
use crate::{cut_rules, opening_rules, refusal_rules, work_rules};
use atomic_board::{GroupTable, SeatToken};
use chunk_map::{Geometry, Layout};
use core_worker::{Gate, Worker};
use engine_core::open_workers::open_workers;
use engine_core::run_outcome::End;
use engine_laws::engine_rules;
use fs_model::Memory;
use pm_region::{AttachError, ReadRegion, SplitRegion};
use recover::Recovered;
use std::alloc::Global;
use std::sync::Wait;
use std::thread::Threads;
use std::time::Clock;

/// What a run needs, all of it taken before the region is split.
#[derive(Drop)]
pub struct Supplies {
    /// That of the region.
    pub layout: Geometry,
    /// One for each group.
    pub tables: Vec<GroupTable>,
    /// What each core begins with but its piece.
    pub crew: Crew,
    /// None yet, with room for what is kept of all.
    pub answers: RunAnswers,
    /// Room for the tokens of each table.
    pub token_rooms: Vec<Vec<SeatToken>>,
    /// Where the parts begin, in words from the region's start, and where the last one ends.
    pub cuts: Vec<u64>,
}

/// What a run came to, on the requests that were begun. It has no reply: these were handed on.
#[derive(Drop)]
pub struct RunOutcome {
    /// Of each request's answer. A request without one counts as stopped.
    pub notes: RunNotes,
    /// That of the joined region, by which each of these answers was fixed.
    pub stamp: u64,
    /// Whether all was answered, and why not.
    pub end: End,
    /// By the core's number, as they stand, with all that they hold.
    pub workers: Vec<Worker>,
}

/// A run whose replies were handed on, window by window.
#[derive(Drop)]
pub struct HandedRun {
    /// On the requests that were begun.
    pub outcome: RunOutcome,
    /// Whether the outlet took all replies that it was handed. Where it did not, nothing was begun behind their window,
    /// and the outcome is that of the requests up to its end.
    pub heard: bool,
}

// Where the parts begin, and where the last one ends.
fn part_cuts(alloc: Global, layout: &Layout) -> Result<Vec<u64>, Memory>
    ensures { IfOk result (λ cuts. ArePartCuts layout.now cuts.items) }
{
    let cores = layout.geometry().cores;
    let mut cuts = Vec::new(alloc);
    for part in 0..cores + 1 {
        cuts.push(layout.part_first(part))?;
    }
    Ok(cuts)
}

// Takes all that a run of so many requests needs. Nothing is written.
fn supply<R: ReadRegion>(
    alloc: Global,
    region: &R,
    recovered: Recovered,
    count: usize,
) -> Result<Supplies, Memory>
    requires region { StandsAsFound (R.state region.now) (R.word region.now) recovered }
    ensures { IfOk result (λ x. (o : Origin) × BeginsAt (R.state region.now) (R.word region.now) o
        × IsSupplied o recovered count x) }
{
    let layout = recovered.layout.geometry();
    let opened = open_tables(alloc, region, &recovered)?;
    let cuts = part_cuts(alloc, &recovered.layout)?;
    let workers = open_workers(alloc, recovered.layout, recovered.starts)?;
    let answers = RunAnswers::with_room(alloc, count)?;
    let rooms = token_rooms(alloc, layout.group, opened.tables.len())?;
    Ok(Supplies {
        layout,
        tables: opened.tables,
        crew: Crew {
            tokens: opened.tokens,
            workers,
        },
        answers,
        token_rooms: rooms,
        cuts,
    })
}

// Splits the region, lets the cores work, and joins it. The memory for what comes after the split is taken before it.
fn run_supplied<
    T: Threads + Wait + Clock + Sync,
    R: SplitRegion + ReadRegion,
    O: Outlet,
    G: Gate + Sync,
    Q: Requests,
>(
    rt: &T,
    alloc: Global,
    region: &mut R,
    outlet: &mut O,
    supplies: Supplies,
    requests: &mut Q,
    gate: &G,
) -> Result<HandedRun, AttachError>
    requires whole { (R.state region.old).frame.parted ≡ false }
    requires supplied { (o : Origin) × (r : Recovered)
        × StandsAsFound (R.state region.old) (R.word region.old) r
        × BeginsAt (R.state region.old) (R.word region.old) o
        × IsSupplied o r (length (Q.left requests.old)) supplies }
    ensures ran { IfOk result (λ x. (o : Origin) (r : Recovered)
        → StandsAsFound (R.state region.old) (R.word region.old) r
        → BeginsAt (R.state region.old) (R.word region.old) o
        → IsSupplied o r (length (Q.left requests.old)) supplies
        → RanInWindows O.takes (R.state region.old) (R.word region.old) (G.may_refuse gate.now) r
        (Q.left requests.old) (R.state region.new) x outlet.old outlet.new) }
    ensures stays { OnErr result (Stays (R.state region.old) (R.state region.new)) }
    ensures cause { Refuses (R.state region.old) (R.state region.new) result }
    ensures opens { IsNotOpened (R.state region.old) (R.state region.new) }
    ensures unheard { OnErr result (outlet.new ≡ outlet.old) }
{
    opening_rules::every_opening();
    work_rules::every_chain();
    refusal_rules::every_refusal();
    engine_rules::every_moment();
    cut_rules::every_cut();
    let Supplies {
        layout,
        tables,
        crew,
        mut answers,
        token_rooms,
        cuts,
    } = supplies;
    let cores = layout.cores as usize;
    let leads = AllLeads::open(alloc, tables.len(), layout.group)?;
    let jobs = Vec::with_capacity(alloc, cores)?;
    let room = Returned::with_room(alloc, cores)?;
    let pieces = region.split(alloc, &cuts)?;
    let (back, course) = work_apart(
        rt,
        alloc,
        region,
        outlet,
        &tables,
        layout.group,
        pieces,
        crew,
        jobs,
        room,
        requests,
        gate,
        &leads,
        &mut answers,
    );
    close_tables(tables, layout.group, back.tokens, token_rooms);
    region.join(back.pieces);
    let outcome = RunOutcome {
        notes: answers.notes,
        stamp: region.stamp(),
        end: run_end(&back.workers, course.all),
        workers: back.workers,
    };
    Ok(HandedRun {
        outcome,
        heard: course.heard,
    })
}

/// Runs requests on a region that stands as recovery found it: one worker for each core, each in a thread of its own
/// and on its own piece of the region. They are made and dealt window by window, and the replies of a window are handed
/// to the outlet behind it, before the next one is begun. Where it does not take them, the run ends there: it is one of
/// the requests up to the window's end.
///
/// Whatever the end of a run, the pieces are joined again. After an `Err` region and outlet are as they were:
/// `RegionFault` comes where the region could not be split, and `Memory` where there was none for what the run needs.
pub fn run<
    T: Threads + Wait + Clock + Sync,
    R: SplitRegion + ReadRegion,
    O: Outlet,
    G: Gate + Sync,
    Q: Requests,
>(
    rt: &T,
    alloc: Global,
    region: &mut R,
    outlet: &mut O,
    recovered: Recovered,
    requests: &mut Q,
    gate: &G,
) -> Result<HandedRun, AttachError>
    requires whole { (R.state region.old).frame.parted ≡ false }
    requires region { StandsAsFound (R.state region.old) (R.word region.old) recovered }
    ensures ran { IfOk result (λ x. RanInWindows O.takes (R.state region.old) (R.word region.old)
        (G.may_refuse gate.now) recovered (Q.left requests.old) (R.state region.new) x outlet.old
        outlet.new) }
    ensures stays { OnErr result (Stays (R.state region.old) (R.state region.new)) }
    ensures cause { Refuses (R.state region.old) (R.state region.new) result }
    ensures opens { IsNotOpened (R.state region.old) (R.state region.new) }
    ensures unheard { OnErr result (outlet.new ≡ outlet.old) }
{
    let count = requests.count();
    let Ok(supplies) = supply(alloc, &*region, recovered, count) else {
        return Err(AttachError::Memory);
    };
    run_supplied(rt, alloc, region, outlet, supplies, requests, gate)
}
