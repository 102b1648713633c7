// A journal of steps.
ghost use Rattle.std.specs.Prelude.{◌≡◌, ℕ, ◌+◌, ◌-◌, ◌^◌, ◌≤◌, ◌<◌, min, [], ◌++◌, true, false, IfOk, OnOk, OnErr, length, vec_capacity, ◌*◌};

use crate::step::{Step, touching_steps};
use std::alloc::{AllocError, Global};

/// The steps of a region, oldest first. The moment `since` stands after the first `base` of them, and each later moment
/// one step later. It keeps the steps up to the stamp `limit`, for which it has room from the start: for its own, and
/// while its region is split for those of each piece, which are its `shares`.
#[derive(Drop)]
pub struct Journal {
    /// Those that it keeps.
    pub steps: Vec<Step>,
    /// How many of them stand before the moment `since`.
    pub base: u64,
    /// The first stamp of which it may tell.
    pub since: u64,
    /// The present one. It stays at the last number of 64 bits.
    pub stamp: u64,
    /// The last stamp of which it may tell.
    pub limit: u64,
    /// 1, or more while the region is split.
    pub shares: u64,
    ghost ordered: { since ≤ stamp },
    ghost last_stamp: { stamp < 2 ^ 64 },
    ghost last_limit: { limit < 2 ^ 64 },
    ghost kept: { length steps.items ≡ base + (min stamp limit - since) },
    ghost own_share: { 1 ≤ shares },
    ghost room: { length steps.items + (limit - stamp) * shares ≤ vec_capacity steps },
}

impl Journal {
    ghost use Rattle.region_memory.specs.Journals.{Records, IsComplete, GoesOnFrom, Closed, Appends, Reopens, SameSteps};

    /// An empty one with room for the steps up to this stamp.
    pub fn new(alloc: Global, limit: u64) -> Result<Journal, AllocError>
        ensures empty { IfOk result (λ j. j.steps.items ≡ []) }
        ensures fields { IfOk result (λ j. (j.base ≡ 0) × (j.since ≡ 0) × (j.stamp ≡ 0)
            × (j.limit ≡ limit)) }
    {
        let steps = Vec::with_capacity(alloc, limit as usize)?;
        Ok(Journal {
            steps,
            base: 0,
            since: 0,
            stamp: 0,
            limit,
            shares: 1,
        })
    }

    /// Takes one step.
    pub fn record(&mut self, step: Step)
        ensures { Records self.old self.new step }
    {
        if self.stamp < self.limit {
            match self.steps.push(step) {
                Ok(()) => {}
                Err(_) => unreachable!(),
            }
        }
        self.stamp = self.stamp.saturating_add(1);
    }

    /// Whether it has every step, and the moment can be told.
    pub fn is_complete(&self) -> bool
        ensures yes { result ≡ true → IsComplete self.now }
        ensures no { IsComplete self.now → result ≡ true }
    {
        self.stamp <= self.limit && self.stamp < u64::MAX
    }

    /// One that begins where this one stands, for the words from one to another, with room for as many steps. It takes
    /// no step but those that touch these words.
    pub fn go_on(&self, alloc: Global, from: u64, end: u64) -> Result<Journal, AllocError>
        ensures { IfOk result (GoesOnFrom self.now from end) }
    {
        let room = self.limit.saturating_sub(self.stamp);
        let mut steps = touching_steps(alloc, &self.steps, from, end)?;
        steps.reserve(room as usize)?;
        let base = steps.len() as u64;
        Ok(Journal {
            steps,
            base,
            since: self.stamp,
            stamp: self.stamp,
            limit: self.limit,
            shares: 1,
        })
    }

    /// Makes room for the steps of so many pieces beside its own.
    pub fn make_room(&mut self, pieces: u64) -> Result<(), AllocError>
        ensures same { SameSteps self.old self.new }
        ensures shares { OnOk result (pieces < self.new.shares) }
    {
        let room = self.limit.saturating_sub(self.stamp);
        let Some(shares) = pieces.checked_add(1) else {
            return Err(AllocError);
        };
        let Some(more) = room.checked_mul(shares) else {
            return Err(AllocError);
        };
        self.steps.reserve(more as usize)?;
        self.shares = shares;
        Ok(())
    }

    /// It stands at the last stamp, and tells nothing.
    pub fn close(&mut self)
        ensures { Closed self.old self.new }
    {
        self.stamp = u64::MAX;
        self.since = u64::MAX;
        self.base = self.steps.len() as u64;
        self.shares = 1;
    }

    /// Takes the steps of a piece, if there is room. It answers whether it has all of the piece's steps.
    pub fn append(&mut self, piece: &Journal) -> bool
        requires closed { self.old.since ≡ 2 ^ 64 - 1 }
        ensures { Appends self.old self.new piece.now result }
    {
        let tail = &piece.steps[piece.base as usize..];
        let fits = tail.len() <= self.steps.capacity() - self.steps.len();
        if fits {
            match self.steps.extend_from_slice(tail) {
                Ok(()) => {}
                Err(_) => unreachable!(),
            }
        }
        self.base = self.steps.len() as u64;
        fits && piece.is_complete()
    }

    /// A new moment after this stamp, the only one that it tells. If it doesn't have all the steps before, it stays
    /// at the last stamp and tells nothing.
    pub fn reopen(&mut self, after: u64, complete: bool)
        ensures { Reopens self.old self.new after complete }
    {
        let next = after.saturating_add(1);
        let room = self.limit.saturating_sub(next);
        let fits = room <= (self.steps.capacity() - self.steps.len()) as u64;
        self.stamp = if fits && (complete || next > self.limit) {
            next
        } else {
            u64::MAX
        };
        self.since = self.stamp;
        self.base = self.steps.len() as u64;
        self.shares = 1;
    }
}
