// The requests of a run, dealt window by window to the cores that own their keys, and worked off.
ghost use Rattle.std.specs.Prelude.{◌≡◌, ℕ, ◌+◌, ◌<◌, ◌≤◌, List, [], ◌∷◌, ◌++◌, Option, map, take, length, slice_index_or, true, OnOk, OnErr};
ghost use Rattle.std.specs.List.{list_any};
ghost use Rattle.answer_queue.specs.declared.window_sizes.TheConstants.{WINDOW, PARTS};
ghost use Rattle.engine_core.specs.declared.types.Stamped as stamped;
ghost use Rattle.engine_core.specs.Reports.{reply_in};
ghost use Rattle.thread_engine.specs.declared.core_job.CoreJob as data_of;
ghost use Rattle.thread_engine.specs.WorkStates.{IsAtWork, sight_by, stands_at};
ghost use Rattle.thread_engine.specs.Windows.{AreDealt, DealsSome, DealsTo, AreAtRest, EachChanges, Winds, WorksOffSome, WorksOffTo, WorksThrough, InWindows};
ghost use Rattle.thread_engine.specs.Collected.{IsWindow};
ghost use Rattle.thread_engine.specs.Desks.{IsCleared};
ghost use Rattle.thread_engine.specs.Noted.{IsNoted, HasNoteRoom};
ghost use Rattle.thread_engine.specs.Outlets.{IsAsked};

use crate::core_job::CoreJob;
use crate::desk::{Desk, work_at_desk};
use crate::group_leads::AllLeads;
use crate::outlet::Outlet;
use crate::requests::Requests;
use crate::run_answers::{RunAnswers, clear_window};
use answer_queue::WINDOW;
use core_worker::Gate;
use engine_core::backlog::append;
use engine_core::types::Stamped;
use fs_model::{Memory, Request};
use group_board::Board;
use pm_region::{Region, SplitRegion};
use std::alloc::Global;
use std::sync::Wait;
use std::thread::Threads;
use std::time::Clock;

/// How the windows of a run came to an end.
#[derive(Clone, Copy, Debug)]
pub struct Course {
    /// Whether there was memory for all that was begun. Where there was not, what was posted or taken is finished, and
    /// every worker winds down.
    pub all: bool,
    /// Whether the outlet took all replies that it was handed. Where it did not, nothing was begun behind their window.
    pub heard: bool,
}

// Deals a request to the core that owns its key.
fn deal_one<B, P>(jobs: &mut [CoreJob<B, P>], number: u64, request: Request) -> Result<(), Memory>
    requires some { 0 < length jobs.old }
    ensures dealt { OnOk result
        (AreDealt number (request ∷ []) jobs.old jobs.new) }
    ensures kept { OnErr result (AreDealt number [] jobs.old jobs.new) }
{
    let owner = (request.key() % jobs.len() as u64) as usize;
    append(&mut jobs[owner].queue, number, request)
}

// Deals the requests before number `to`, of which the next one has number `from`.
fn deal_window<B, P, Q: Requests>(
    alloc: Global,
    requests: &mut Q,
    jobs: &mut [CoreJob<B, P>],
    from: u64,
    to: u64,
) -> Result<(), Memory>
    requires some { 0 < length jobs.old }
    requires order { from ≤ to }
    requires within { to ≤ from + length (Q.left requests.old) }
    ensures some_ { DealsSome from to (Q.left requests.old) jobs.old jobs.new }
    ensures all { OnOk result (DealsTo from to (Q.left requests.old) (Q.left requests.new)
        jobs.old jobs.new) }
{
    for number in from..to {
        let Some(request) = requests.next(alloc)? else {
            unreachable!()
        };
        deal_one(jobs, number, request)?;
    }
    Ok(())
}

// Whether a worker found no memory, or was told that another one didn't.
fn is_short<B, P>(jobs: &[CoreJob<B, P>]) -> bool
    ensures { result ≡ list_any (λ job. job.worker.winds_down) jobs.now }
{
    jobs.iter().any(|job| job.worker.winding_down())
}

// Lets all workers wind down.
fn wind_all_down<B: Board, P: Region>(jobs: &mut [CoreJob<B, P>])
    requires { (c : ℕ) (d : data_of.CoreJob B P) → c < length jobs.old
        → IsAtWork (B.seat (slice_index_or jobs.old c d).seat)
        (stands_at (sight_by B.view B.trail B.at) P.state (slice_index_or jobs.old c d)) }
    ensures { EachChanges (Winds B.seat (sight_by B.view B.trail B.at) P.state)
        jobs.old jobs.new }
{
    for job in jobs.iter_mut() {
        job.wind_down();
    }
}

// Deals the requests of a window, which are those before number `to`, lets all cores work them off, and keeps the
// answers in the window's places. Answers whether there was memory for all.
fn work_window<
    T: Threads + Wait + Clock + Sync,
    B: Board + Send,
    P: Region + Send,
    G: Gate + Sync,
    Q: Requests,
>(
    rt: &T,
    alloc: Global,
    requests: &mut Q,
    jobs: &mut [CoreJob<B, P>],
    gate: &G,
    leads: &AllLeads,
    desk: &mut Desk,
    window: &mut Vec<Option<Stamped>>,
    from: u64,
    to: u64,
) -> bool
    requires some { 0 < length jobs.old }
    requires parts { length jobs.old < PARTS }
    requires rest { AreAtRest B.seat (sight_by B.view B.trail B.at) P.state jobs.old }
    requires order { from ≤ to }
    requires few { to ≤ from + WINDOW }
    requires within { to ≤ from + length (Q.left requests.old) }
    requires cleared { IsCleared desk.old }
    requires places { IsWindow window.old.items }
    ensures some_ { WorksOffSome B.seat (sight_by B.view B.trail B.at) P.state
        (G.may_refuse gate.now) from to (Q.left requests.old) jobs.old jobs.new
        window.new.items }
    ensures all { result ≡ true → WorksOffTo B.seat (sight_by B.view B.trail B.at) P.state
        (G.may_refuse gate.now) from to (Q.left requests.old) (Q.left requests.new)
        jobs.old jobs.new window.new.items }
    ensures count { length window.new.items ≡ WINDOW }
    ensures cleared { IsCleared desk.new }
{
    desk.begin(from, to);
    let dealt = deal_window(alloc, requests, jobs, from, to).is_ok();
    work_at_desk(rt, alloc, jobs, gate, !dealt, desk, leads, from, window);
    dealt && !is_short(jobs)
}

// The end of the window that begins with number `from`, of so many requests.
fn window_end(from: u64, count: u64) -> u64
    requires { from ≤ count }
    ensures after { from ≤ result }
    ensures moves { from < count → from < result }
    ensures few { result ≤ from + WINDOW }
    ensures within { result ≤ count }
    ensures full { result < count → result ≡ from + WINDOW }
{
    if count - from < WINDOW as u64 {
        count
    } else {
        from + WINDOW as u64
    }
}

// Hands a window's answers to the outlet: those of its first so many requests.
fn hand_window<R: SplitRegion, O: Outlet>(
    alloc: Global,
    region: &mut R,
    outlet: &mut O,
    window: &Vec<Option<Stamped>>,
    count: usize,
) -> bool
    requires places { count ≤ length window.now.items }
    ensures took { O.takes (R.state region.old) outlet.old
        (map reply_in (take count window.now.items)) result
        (R.state region.new) outlet.new }
    ensures asked { IsAsked (R.state region.old) (R.state region.new) }
{
    outlet.take_window(alloc, region, &window[..count])
}

// Notes the answers of a window's first so many requests.
fn note_window(answers: &mut RunAnswers, count: usize)
    requires places { count ≤ length answers.old.window.items }
    requires room { HasNoteRoom count answers.old.notes }
    ensures notes { (ks : List (Option stamped.Stamped)) → IsNoted ks answers.old.notes
        → IsNoted (ks ++ take count answers.old.window.items) answers.new.notes }
    ensures room { (n : ℕ) → HasNoteRoom (count + n) answers.old.notes
        → HasNoteRoom n answers.new.notes }
    ensures window { answers.new.window.items ≡ answers.old.window.items }
    ensures desk { answers.new.desk ≡ answers.old.desk }
{
    answers.notes.note_all(&answers.window[..count]);
}

/// Lets all cores work the requests off, window by window, notes the answers, and hands those of each window to the
/// outlet behind it. Where there was not memory for all of them, what was posted or taken is finished, nothing more is
/// begun, and every worker winds down; the answers of that window are not handed over. Where the outlet did not take a
/// window's answers, no window is begun behind it, and the notes end with it.
pub fn work_windows<
    T: Threads + Wait + Clock + Sync,
    R: SplitRegion,
    O: Outlet,
    B: Board + Send,
    P: Region + Send,
    G: Gate + Sync,
    Q: Requests,
>(
    rt: &T,
    alloc: Global,
    region: &mut R,
    outlet: &mut O,
    requests: &mut Q,
    jobs: &mut [CoreJob<B, P>],
    gate: &G,
    leads: &AllLeads,
    answers: &mut RunAnswers,
) -> Course
    requires some { 0 < length jobs.old }
    requires parts { length jobs.old < PARTS }
    requires rest { AreAtRest B.seat (sight_by B.view B.trail B.at) P.state jobs.old }
    requires cleared { IsCleared answers.old.desk }
    requires window { IsWindow answers.old.window.items }
    requires blank { IsNoted [] answers.old.notes }
    requires room { HasNoteRoom (length (Q.left requests.old)) answers.old.notes }
    ensures works { InWindows O.takes (Q.left requests.old) result
        (λ windows given places kept. WorksThrough B.seat (sight_by B.view B.trail B.at) P.state
        (G.may_refuse gate.now) given windows result.all jobs.old jobs.new places kept)
        answers.new.notes (R.state region.old) outlet.old (R.state region.new) outlet.new }
    ensures asked { IsAsked (R.state region.old) (R.state region.new) }
{
    let count = requests.count() as u64;
    let mut from = 0;
    for _ in rt.forever() {
        let to = window_end(from, count);
        let size = (to - from) as usize;
        let desk = &mut answers.desk;
        let window = &mut answers.window;
        let all = work_window(
            rt, alloc, requests, jobs, gate, leads, desk, window, from, to,
        );
        note_window(answers, size);
        if !all {
            answers.notes.note_none(count - to);
            wind_all_down(jobs);
            return Course {
                all: false,
                heard: true,
            };
        }
        let heard = hand_window(alloc, region, outlet, &answers.window, size);
        if !heard || to == count {
            return Course { all: true, heard };
        }
        clear_window(&mut answers.window);
        from = to;
    }
    unreachable!()
}
