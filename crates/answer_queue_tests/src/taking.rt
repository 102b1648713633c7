// How the caller takes the answers of all cores.
ghost use Rattle.std.specs.Prelude.{◌≡◌, ◌≤◌, [], length, IsPermutation, vec_capacity};
ghost use Rattle.answer_queue.specs.declared.window_sizes.TheConstants.{WINDOW, PARTS};
ghost use Rattle.answer_queue.specs.Accounts.{AreDistinct, numbers};
ghost use Rattle.answer_queue.specs.Queues.{IsOf, account_of};

use answer_queue::{AnswerPass, AnswerQueue};
use core_worker::Answer;
use std::sync::Wait;

/// Takes all that was put, for a pass that has all parts again and has taken nothing: each answer once and no other.
/// It takes no memory. The queue is empty then.
pub fn take_all<R: Wait>(
    rt: &R,
    queue: &AnswerQueue,
    pass: &mut AnswerPass,
    mut room: Vec<Answer>,
) -> Vec<Answer>
    requires of { IsOf queue.now pass.old }
    requires whole { ((account_of pass.old).parts ≡ PARTS) × ((account_of pass.old).took ≡ []) }
    requires room { (room.items ≡ []) × (WINDOW ≤ vec_capacity room) }
    ensures of { IsOf queue.now pass.new }
    ensures parts { (account_of pass.new).parts ≡ PARTS }
    ensures level { length (account_of pass.new).took ≡ length (account_of pass.new).put }
    ensures all { IsPermutation (account_of pass.old).put result.items }
    ensures distinct { AreDistinct (numbers result.items) }
{
    for _ in rt.forever() {
        match queue.take(rt, pass) {
            Some(answer) => room.push_reserved(answer),
            None => return room,
        }
    }
    unreachable!()
}
