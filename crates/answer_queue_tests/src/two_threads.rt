// Two threads put, and the caller takes.
ghost use Rattle.std.specs.Prelude.{◌≡◌, ◌<◌, ◌≤◌, ◌+◌, ◌++◌, [], length, IfOk, IsPermutation};
ghost use Rattle.answer_queue.specs.Accounts.{AreAmong, AreDistinct, numbers, after_puts};
ghost use Rattle.answer_queue.specs.Queues.{IsOf, account_of};
ghost use Rattle.answer_queue_tests.specs.Putting.{MayPut, HasPut};

use crate::taking::take_all;
use answer_queue::{AnswerPass, AnswerQueue, WINDOW};
use core_worker::Answer;
use std::alloc::{AllocError, Global};
use std::marker::Brand;
use std::sync::Wait;
use std::thread;
use std::thread::Threads;

/// Puts all answers, in their order. There is a place for each.
fn put_all<R: Wait>(
    rt: &R,
    queue: &AnswerQueue,
    mut pass: AnswerPass,
    answers: Vec<Answer>,
) -> AnswerPass
    requires of { IsOf queue.now pass }
    requires part { 0 < (account_of pass).parts }
    requires may { AreAmong (numbers answers.items) (account_of pass).may }
    ensures of { IsOf queue.now result }
    ensures put { account_of result ≡ after_puts (account_of pass) answers.items }
{
    for answer in answers {
        queue.put(rt, &mut pass, answer);
    }
    pass
}

/// What two threads put, in some order: each answer once, and no other.
pub fn exchange<R: Threads + Wait + Sync>(
    rt: &R,
    alloc: Global,
    first: Vec<Answer>,
    second: Vec<Answer>,
) -> Result<Vec<Answer>, AllocError>
    requires few { length first.items + length second.items ≤ 4096 }
    requires distinct { AreDistinct (numbers (first.items ++ second.items)) }
    ensures all { IfOk result (λ got. IsPermutation (first.items ++ second.items) got.items) }
    ensures distinct { IfOk result (λ got. AreDistinct (numbers got.items)) }
{
    let room = Vec::with_capacity(alloc, WINDOW)?;
    let (queue, mut pass) = AnswerQueue::open::<Brand, (&Vec<Answer>, &Vec<Answer>)>(
        alloc,
        &(&first, &second),
    )?;
    let one = queue.deal::<Brand, Vec<Answer>>(&mut pass, &first);
    let two = queue.deal::<Brand, Vec<Answer>>(&mut pass, &second);
    let shared = &queue;
    let (one, two) = thread::join(
        rt,
        move || -> AnswerPass
            requires { MayPut shared.now first.items one }
            ensures { HasPut shared.entry.now first.items result }
        { put_all(rt, shared, one, first) },
        move || -> AnswerPass
            requires { MayPut shared.now second.items two }
            ensures { HasPut shared.entry.now second.items result }
        { put_all(rt, shared, two, second) },
    );
    queue.absorb(&mut pass, one);
    queue.absorb(&mut pass, two);
    Ok(take_all(rt, &queue, &mut pass, room))
}
