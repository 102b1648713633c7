// How the answers of a window are taken out of the queue and kept by number.
ghost use Rattle.std.specs.Prelude.{◌≡◌, [], ◌∷◌, length, map, IsPermutation};
ghost use Rattle.answer_queue.specs.declared.window_sizes.TheConstants.{PARTS};
ghost use Rattle.answer_queue.specs.Accounts.{AreDistinct, IsClear, numbers};
ghost use Rattle.answer_queue.specs.Queues.{IsOf, account_of};
ghost use Rattle.engine_core.specs.Answers.{stored};
ghost use Rattle.thread_engine.specs.Takings.{numbered_from};

use answer_queue::{AnswerPass, AnswerQueue};
use core_worker::Answer;
use engine_core::types::Stamped;
use std::sync::Wait;

// Keeps an answer by its number from the window's first one on. All have one stamp in the end, so none is kept here.
fn keep_one(answer: Answer, first: u64, window: &mut Vec<Option<Stamped>>)
    ensures { window.new.items ≡ stored (numbered_from first answer ∷ []) 0 window.old.items }
{
    let at = answer.number.saturating_sub(first) as usize;
    if let Some(place) = window.get_mut(at) {
        *place = Some(Stamped {
            reply: answer.reply,
            refusal: answer.refusal,
            stamp: 0,
        });
    }
}

/// Takes all that was put, for a pass that has all parts again and has taken nothing, and keeps it by number from the
/// number `first` on: each answer once and no other. It takes no memory. The queue is empty then.
pub fn keep_all<R: Wait>(
    rt: &R,
    queue: &AnswerQueue,
    pass: &mut AnswerPass,
    first: u64,
    window: &mut Vec<Option<Stamped>>,
)
    requires of { IsOf queue.now pass.old }
    requires whole { ((account_of pass.old).parts ≡ PARTS) × ((account_of pass.old).took ≡ []) }
    ensures of { IsOf queue.now pass.new }
    ensures clear { IsClear (account_of pass.new) }
    ensures all { IsPermutation (account_of pass.old).put (account_of pass.new).took }
    ensures distinct { AreDistinct (numbers (account_of pass.new).took) }
    ensures kept { window.new.items ≡ stored (map (numbered_from first) (account_of pass.new).took) 0
        window.old.items }
{
    for _ in rt.forever() {
        match queue.take(rt, pass) {
            Some(answer) => keep_one(answer, first, window),
            None => return,
        }
    }
    unreachable!()
}
