// The cores' passes of a window's queue of answers.
ghost use Rattle.std.specs.Prelude.{◌≡◌, ℕ, ◌<◌, length, slice_index_or, IsSomeAnd};
ghost use Rattle.answer_queue.specs.Accounts.{AreAmong};
ghost use Rattle.answer_queue.specs.Queues.{IsOf, account_of};
ghost use Rattle.answer_cores.specs.Passes.{after_deals, all_numbers, joined_all};
ghost use Rattle.thread_engine.specs.declared.core_job.CoreJob as data_of;
ghost use Rattle.thread_engine.specs.Windows.{EachChanges};
ghost use Rattle.thread_engine.specs.WindowJobs.{waiting_for, passes_of, TakesPass, LosesPass};

use crate::core_job::CoreJob;
use answer_queue::{AnswerPass, AnswerQueue};
use fs_model::Request;
use std::collections::VecDeque;
use std::marker::Brand;

/// Gives each core a pass for answers to the requests that wait for it. It takes no memory.
pub fn deal_passes<B, P>(queue: &AnswerQueue, pass: &mut AnswerPass, jobs: &mut [CoreJob<B, P>])
    requires of { IsOf queue.now pass.old }
    requires parts { length jobs.old < (account_of pass.old).parts }
    requires may { AreAmong (all_numbers (waiting_for jobs.old)) (account_of pass.old).may }
    ensures of { IsOf queue.now pass.new }
    ensures rest { account_of pass.new ≡ after_deals (account_of pass.old) (waiting_for jobs.old) }
    ensures dealt { EachChanges (TakesPass queue.now) jobs.old jobs.new }
{
    for job in jobs.iter_mut() {
        let own = queue.deal::<Brand, VecDeque<(u64, Request)>>(pass, &job.queue);
        job.pass = Some(own);
    }
}

/// Takes the cores' passes in. It takes no memory.
pub fn take_passes<B, P>(queue: &AnswerQueue, pass: &mut AnswerPass, jobs: &mut [CoreJob<B, P>])
    requires of { IsOf queue.now pass.old }
    requires each { (c : ℕ) (d : data_of.CoreJob B P) → c < length jobs.old
        → IsSomeAnd (slice_index_or jobs.old c d).pass (IsOf queue.now) }
    ensures of { IsOf queue.now pass.new }
    ensures joined { account_of pass.new ≡ joined_all (account_of pass.old) (passes_of jobs.old) }
    ensures jobs { EachChanges LosesPass jobs.old jobs.new }
{
    for job in jobs.iter_mut() {
        let Some(own) = job.pass.take() else {
            unreachable!()
        };
        queue.absorb(pass, own);
    }
}
