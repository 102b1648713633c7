// What a thread does with the queue of a window's answers.
ghost use Rattle.std.specs.Prelude.{◌≡◌, ◌<◌, ◌≤◌, length, IfOk, MatchOption};
ghost use Rattle.answer_queue.specs.declared.window_sizes.TheConstants.{WINDOW, PARTS};
ghost use Rattle.answer_queue.specs.Accounts.{AreDistinct, times, AreAmong, IsClear, granted, without_numbers, with_numbers, joined, after_put, TakesAs, IsSettled};
ghost use Rattle.answer_queue.specs.Queues.{IsOf, account_of};

use crate::account::{Account, Deals, Grants, Joins, Kept, Numbers, Puts, TakesAnswer};
use crate::answer_queue::{AnswerPass, AnswerQueue};
use crate::window_sizes::WINDOW;
use core_worker::Answer;
use crossbeam_queue::RuledArrayQueue;
use std::alloc::{AllocError, Global};
use std::sync::Wait;

impl AnswerQueue {
    /// An empty queue, and the one pass of it, which may put answers of these numbers. What `_of` has the call may pick
    /// them from.
    pub fn open<W: Numbers, Q>(
        alloc: Global,
        _of: &Q,
    ) -> Result<(AnswerQueue, AnswerPass), AllocError>
        requires few { length W.numbers ≤ WINDOW }
        requires distinct { AreDistinct W.numbers }
        ensures of { IfOk result (λ q. IsOf q.0 q.1) }
        ensures granted { IfOk result (λ q. account_of q.1 ≡ granted W.numbers) }
    {
        let (ring, mut first) = RuledArrayQueue::<Answer, Account, Kept>::ruled(alloc, WINDOW)?;
        let pass = ring.another::<Grants<W>>(&mut first);
        Ok((AnswerQueue { ring }, pass))
    }

    /// Makes the pass one that may put answers of these numbers, where it has all parts and has taken all that was put:
    /// so one queue serves one window after another. What `_of` has the call may pick them from.
    pub fn renew<W: Numbers, Q>(&self, pass: &mut AnswerPass, _of: &Q)
        requires of { IsOf self.now pass.old }
        requires clear { IsClear (account_of pass.old) }
        requires few { length W.numbers ≤ WINDOW }
        requires distinct { AreDistinct W.numbers }
        ensures of { IsOf self.now pass.new }
        ensures granted { account_of pass.new ≡ granted W.numbers }
    {
        let next = self.ring.another::<Grants<W>>(pass);
        *pass = next;
    }

    /// Puts an answer of a number that the pass may put. There is a place for it.
    pub fn put<R: Wait>(&self, rt: &R, pass: &mut AnswerPass, answer: Answer)
        requires of { IsOf self.now pass.old }
        requires part { 0 < (account_of pass.old).parts }
        requires may { 0 < times answer.number (account_of pass.old).may }
        ensures of { IsOf self.now pass.new }
        ensures put { account_of pass.new ≡ after_put (account_of pass.old) answer }
    {
        let Ok(()) = self.ring.push_as::<Puts, R>(rt, pass, answer) else {
            unreachable!()
        };
    }

    /// Takes the oldest answer. Where there is none, a pass with all parts has taken all that was put.
    pub fn take<R: Wait>(&self, rt: &R, pass: &mut AnswerPass) -> Option<Answer>
        requires of { IsOf self.now pass.old }
        requires part { 0 < (account_of pass.old).parts }
        ensures of { IsOf self.now pass.new }
        ensures took { MatchOption result
            ((account_of pass.new ≡ account_of pass.old)
            × ((account_of pass.old).parts ≡ PARTS → IsSettled (account_of pass.old)))
            (λ x. TakesAs (account_of pass.old) x (account_of pass.new)) }
    {
        self.ring.pop_as::<TakesAnswer, R>(rt, pass)
    }

    /// A pass with one part, which may put answers of these numbers. The old one may not any more. What `_of` has the
    /// call may pick them from.
    pub fn deal<W: Numbers, Q>(&self, pass: &mut AnswerPass, _of: &Q) -> AnswerPass
        requires of { IsOf self.now pass.old }
        requires parts { 1 < (account_of pass.old).parts }
        requires among { AreAmong W.numbers (account_of pass.old).may }
        ensures of { IsOf self.now pass.new × IsOf self.now result }
        ensures old { account_of pass.new ≡ without_numbers W.numbers (account_of pass.old) }
        ensures new { account_of result ≡ with_numbers W.numbers }
    {
        self.ring.another::<Deals<W>>(pass)
    }

    /// Takes in a pass that has ended.
    pub fn absorb(&self, pass: &mut AnswerPass, other: AnswerPass)
        requires of { IsOf self.now pass.old × IsOf self.now other }
        ensures of { IsOf self.now pass.new }
        ensures joined { account_of pass.new ≡ joined (account_of pass.old) (account_of other) }
    {
        self.ring.absorb::<Joins>(pass, other);
    }
}
