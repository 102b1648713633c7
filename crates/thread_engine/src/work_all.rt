// All cores at work, each in a thread of its own.
ghost use Rattle.std.specs.Prelude.{◌≡◌, ℕ, ◌<◌, length, slice_index_or};
ghost use Rattle.thread_engine.specs.declared.core_job.CoreJob as data_of;
ghost use Rattle.thread_engine.specs.WorkStates.{sight_by};
ghost use Rattle.thread_engine.specs.WindowJobs.{IsReady, WorksWindow};

use crate::core_job::CoreJob;
use crate::for_each_flat::for_each_flat;
use crate::group_leads::AllLeads;
use answer_queue::AnswerQueue;
use core_worker::Gate;
use group_board::Board;
use pm_region::Region;
use std::alloc::Global;
use std::sync::Wait;
use std::sync::atomic::AtomicBool;
use std::thread::Threads;
use std::time::Clock;

/// Does the work of all cores in a window, each in a thread of its own, and returns when all have ended and have handed
/// their answers over. Where a thread can't be started, its core's work is done by this one, behind that of its own.
/// Where there was no memory already, `short` says so: then nothing is begun. It takes no memory.
pub fn work_all<
    R: Threads + Wait + Clock + Sync,
    B: Board + Send,
    P: Region + Send,
    G: Gate + Sync,
>(
    rt: &R,
    alloc: Global,
    jobs: &mut [CoreJob<B, P>],
    gate: &G,
    short: bool,
    answers: &AnswerQueue,
    leads: &AllLeads,
)
    requires { (c : ℕ) (d : data_of.CoreJob B P) → c < length jobs.old
        → IsReady B.seat (sight_by B.view B.trail B.at) P.state answers.now
        (slice_index_or jobs.old c d) }
    ensures { (c : ℕ) (d : data_of.CoreJob B P) → c < length jobs.old
        → WorksWindow B.seat (sight_by B.view B.trail B.at) P.state (G.may_refuse gate.now)
        answers.now (slice_index_or jobs.old c d) (slice_index_or jobs.new c d) }
{
    let short = AtomicBool::new(short);
    for_each_flat(
        rt,
        jobs,
        &|core, job| job.work_window(rt, alloc, gate, &short, answers, leads, core),
    );
}
