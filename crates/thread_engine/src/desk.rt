// The queue of a run's answers, and what the cores put there.
ghost use Rattle.std.specs.Prelude.{◌≡◌, ℕ, ◌<◌, ◌≤◌, ◌+◌, length, map, slice_index_or, IfOk};
ghost use Rattle.answer_queue.specs.declared.window_sizes.TheConstants.{WINDOW, PARTS};
ghost use Rattle.answer_queue.specs.Accounts.{AreAmong};
ghost use Rattle.answer_queue.specs.Queues.{account_of};
ghost use Rattle.engine_core.specs.Answers.{stored};
ghost use Rattle.answer_cores.specs.Passes.{all_numbers};
ghost use Rattle.thread_engine.specs.declared.core_job.CoreJob as data_of;
ghost use Rattle.thread_engine.specs.WorkStates.{sight_by};
ghost use Rattle.thread_engine.specs.WindowJobs.{Awaits, AllWorked, waiting_for};
ghost use Rattle.thread_engine.specs.Desks.{IsCleared, IsFresh, IsOpen};
ghost use Rattle.thread_engine.specs.Takings.{numbered_from};

use crate::core_job::CoreJob;
use crate::group_leads::AllLeads;
use crate::taken_answers::keep_all;
use crate::window_passes::{deal_passes, take_passes};
use crate::work_all::work_all;
use answer_queue::{AnswerPass, AnswerQueue, WINDOW};
use core_worker::Gate;
use engine_core::types::Stamped;
use group_board::Board;
use pm_region::Region;
use std::alloc::{AllocError, Global};
use std::marker::Brand;
use std::sync::Wait;
use std::thread::Threads;
use std::time::Clock;

/// The queue of a run's answers, which serves each window in turn, with the pass that has all its parts.
#[derive(Drop)]
pub struct Desk {
    /// Empty between windows.
    pub queue: AnswerQueue,
    /// It is dealt to the cores.
    pub pass: AnswerPass,
}

impl Desk {
    /// With no window yet. It takes room for the answers of one.
    pub fn open(alloc: Global) -> Result<Desk, AllocError>
        ensures { IfOk result IsCleared }
    {
        let (queue, pass) = AnswerQueue::open::<Brand, ()>(alloc, &())?;
        Ok(Desk { queue, pass })
    }

    /// Begins a window: for answers to the requests from number `from` on, before number `to`. It takes no memory.
    pub fn begin(&mut self, from: u64, to: u64)
        requires cleared { IsCleared self.old }
        requires order { from ≤ to }
        requires few { to ≤ from + WINDOW }
        ensures { IsOpen from to self.new }
    {
        self.queue
            .renew::<Brand, (u64, u64)>(&mut self.pass, &(from, to));
    }
}

/// Lets all cores work their requests off, each with a pass of the queue, and keeps what they put there by its number
/// from the number `first` on. Where there was no memory already, `short` says so: then nothing is begun. It takes no
/// memory.
pub fn work_at_desk<
    R: Threads + Wait + Clock + Sync,
    B: Board + Send,
    P: Region + Send,
    G: Gate + Sync,
>(
    rt: &R,
    alloc: Global,
    jobs: &mut [CoreJob<B, P>],
    gate: &G,
    short: bool,
    desk: &mut Desk,
    leads: &AllLeads,
    first: u64,
    window: &mut Vec<Option<Stamped>>,
)
    requires awaits { (c : ℕ) (d : data_of.CoreJob B P) → c < length jobs.old
        → Awaits B.seat (sight_by B.view B.trail B.at) P.state (slice_index_or jobs.old c d) }
    requires parts { length jobs.old < PARTS }
    requires fresh { IsFresh desk.old }
    requires may { AreAmong (all_numbers (waiting_for jobs.old)) (account_of desk.old.pass).may }
    ensures worked { AllWorked B.seat (sight_by B.view B.trail B.at) P.state
        (G.may_refuse gate.now) jobs.old jobs.new (account_of desk.new.pass).took }
    ensures kept { window.new.items ≡ stored (map (numbered_from first)
        (account_of desk.new.pass).took) 0 window.old.items }
    ensures cleared { IsCleared desk.new }
{
    deal_passes(&desk.queue, &mut desk.pass, jobs);
    work_all(rt, alloc, jobs, gate, short, &desk.queue, leads);
    take_passes(&desk.queue, &mut desk.pass, jobs);
    keep_all(rt, &desk.queue, &mut desk.pass, first, window);
}
