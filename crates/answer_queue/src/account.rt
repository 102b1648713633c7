// What a pass of the queue knows, the rule of the queue, and what its steps tell.
ghost use Rattle.std.specs.Prelude.{ℕ, List, []};
ghost use Rattle.answer_queue.specs.declared.window_sizes.TheConstants.{PARTS};
ghost use Rattle.answer_queue.specs.Accounts.{account, Once, after_put, after_take, without_numbers, with_numbers, granted, spent, joined, HasRoomFor, PutsAs, TakesAs, SettlesAs};

use core_worker::Answer;
use crossbeam_queue::protocol::{Join, Lesson, Outcome, Protocol, Split};
use std::collections::LinkedList;
use std::marker::{Brand, PhantomData};

/// What one pass has done and may do. No value of it is made.
pub struct Account {
    /// How many of the `PARTS` it has.
    pub parts: u64,
    /// The numbers of the answers that it may still put.
    pub may: LinkedList<u64>,
    /// What it put.
    pub put: LinkedList<Answer>,
    /// What it took.
    pub took: LinkedList<Answer>,
}

/// Each answer that was put is in the queue or was taken, once, and no other is; all of them and those that may come
/// have numbers of their own, and places.
pub struct Kept;

impl Protocol<Answer, Account> for Kept {
    ghost holds = { Once };

    ghost first = { account PARTS [] [] [] };
}

/// Numbers that a pass is given. The proof of the call picks them.
pub trait Numbers {
    ghost numbers: { List ℕ };
}

impl Numbers for Brand {
    ghost numbers = { [] };
}

/// A new pass that has all parts, and may put answers of these numbers.
pub struct Grants<W> {
    marker: PhantomData<W>,
}

impl<W: Numbers> Split<Account> for Grants<W> {
    ghost left = { λ v. spent };

    ghost right = { λ v. granted W.numbers };
}

/// A new pass that has one part, and may put answers of these numbers, which the old one then may not.
pub struct Deals<W> {
    marker: PhantomData<W>,
}

impl<W: Numbers> Split<Account> for Deals<W> {
    ghost left = { without_numbers W.numbers };

    ghost right = { λ v. with_numbers W.numbers };
}

/// A pass with what two had.
pub struct Joins;

impl Join<Account> for Joins {
    ghost both = { joined };

    ghost spent = { spent };
}

/// An answer is put. Where there is no place for it, it tells that there is one.
pub struct Puts;

impl Outcome<Answer, Account> for Puts {
    ghost then = { PutsAs };
}

impl Lesson<Answer, Account> for Puts {
    ghost fact = { HasRoomFor };
}

/// An answer is taken. Where there is none, a pass with all parts has taken what was put.
pub struct TakesAnswer;

impl Outcome<Answer, Account> for TakesAnswer {
    ghost then = { TakesAs };
}

impl Lesson<Answer, Account> for TakesAnswer {
    ghost fact = { SettlesAs };
}
