// A core hands its answers over.
ghost use Rattle.std.specs.Prelude.{◌≡◌, ◌<◌};
ghost use Rattle.core_worker.specs.Beginning.{answers_of};
ghost use Rattle.answer_queue.specs.Accounts.{AreAmong, numbers};
ghost use Rattle.answer_queue.specs.Queues.{IsOf, account_of};
ghost use Rattle.answer_cores.specs.Passes.{HasPut};
ghost use Rattle.answer_cores.specs.Handing.{HandsOver};

use answer_queue::{AnswerPass, AnswerQueue};
use core_worker::Worker;
use std::sync::Wait;

/// Puts all answers of a core's worker into the queue, in the order in which they were fixed. There is a place for each,
/// and it takes no memory.
pub fn hand_over(rt: &impl Wait, queue: &AnswerQueue, pass: &mut AnswerPass, worker: &mut Worker)
    requires of { IsOf queue.now pass.old }
    requires part { 0 < (account_of pass.old).parts }
    requires may { AreAmong (numbers (answers_of worker.old)) (account_of pass.old).may }
    ensures put { HasPut queue.now (account_of pass.old) (answers_of worker.old) pass.new }
    ensures worker { HandsOver worker.old worker.new }
{
    for _ in rt.forever() {
        match worker.next_answer() {
            Some(answer) => queue.put(rt, pass, answer),
            None => return,
        }
    }
    unreachable!()
}
