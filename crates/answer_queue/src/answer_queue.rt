// The queue of a window's answers, and its passes.
ghost use Rattle.std.specs.Prelude.{◌≡◌};
ghost use Rattle.crossbeam_queue.specs.Passes.{ruled_capacity};
ghost use Rattle.answer_queue.specs.declared.window_sizes.TheConstants.{WINDOW};

use crate::account::{Account, Kept};
use core_worker::Answer;
use crossbeam_queue::{Pass, RuledArrayQueue};

/// A pass of an `AnswerQueue`.
pub type AnswerPass = Pass<Answer, Account>;

/// The answers of a window that were put and not taken yet.
#[derive(Drop)]
pub struct AnswerQueue {
    pub(crate) ring: RuledArrayQueue<Answer, Account, Kept>,
    ghost places: { ruled_capacity ring ≡ WINDOW },
}
