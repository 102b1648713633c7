// A step moves any worker: here one behind counts of what it was handed and of its turns that did something.
ghost use Rattle.std.specs.Prelude.{◌≡◌, ℕ, ◌%◌, IfOk};
ghost use Rattle.group_laws.specs.Places.{Place, owner};
ghost use Rattle.group_board.specs.Journals.{state};
ghost use Rattle.group_laws.specs.MemberViews.{view_of};
ghost use Rattle.engine_core.specs.Calls.{AreOwn};
ghost use Rattle.region_memory.specs.Steady.{steady_state};
ghost use Rattle.engine_tests.specs.WorkerTrials.{IsAtBoard};

use crate::counted_cores_tests::after;
use crate::gate_tests::{is_stored, put, seated};
use crate::worker_tests::attached;
use core_worker::{Answer, NotAccepted, Turn, Worker};
use engine_core::backlog::append;
use engine_core::engine_step::step;
use engine_core::worker_calls::CoreWorker;
use fs_model::{Memory, Request};
use group_board::{Board, LocalBoard};
use pm_region::Region;
use region_memory::SteadyRegion;
use std::alloc::Global;
use std::collections::VecDeque;
use std::test::Fail;

/// Any worker, how many requests it accepted, and how many of its turns did something.
#[derive(Drop)]
struct CountedWorker<W> {
    worker: W,
    accepted: u64,
    turns: u64,
}

impl<W: CoreWorker> CoreWorker for CountedWorker<W> {
    ghost hands = { λ v x. W.hands v x.worker };

    ghost answers = { λ x. W.answers x.worker };

    ghost stands = { λ p m s v x. W.stands p m s v x.worker };

    ghost fair = { λ a m x. W.fair a m x.worker };

    ghost room = { λ x. W.room x.worker };

    ghost leads = { λ x. W.leads x.worker };

    ghost winds = { λ x. W.winds x.worker };

    ghost begins = { λ s v x y n q. W.begins s v x.worker y.worker n q };

    ghost turned = { λ moved s t a seat v u x y. W.turned moved s t a seat v u x.worker y.worker };

    ghost alike = { λ x y. W.alike x.worker y.worker };

    ghost left = { λ x. W.left x.worker };

    ghost under_way = { W.under_way };

    ghost most = { W.most };

    fn has_room(&self) -> bool {
        self.worker.has_room()
    }

    fn leading(&self) -> bool {
        self.worker.leading()
    }

    fn stopped(&self) -> bool {
        self.worker.stopped()
    }

    fn next_answer(&mut self) -> Option<Answer> {
        self.worker.next_answer()
    }

    fn accept<R: Region>(
        &mut self,
        alloc: Global,
        region: &R,
        number: u64,
        request: Request,
    ) -> Result<(), NotAccepted> {
        let answer = self.worker.accept(alloc, region, number, request);
        self.accepted = after(self.accepted, answer.is_ok());
        answer
    }

    fn wind_down(&mut self) {
        self.worker.wind_down();
    }

    fn turn<R: Region, B: Board>(
        &mut self,
        alloc: Global,
        region: &mut R,
        board: &mut B,
    ) -> Result<Turn, Memory> {
        let turn = self.worker.turn(alloc, region, board);
        self.turns = after(self.turns, matches!(turn, Ok(Turn::Moved)));
        turn
    }

    ghost wakes = { λ x. W.wakes x.worker };

    ghost same = { λ x. W.same x.worker };

    ghost same_too = { λ x y z. W.same_too x.worker y.worker z.worker };

    ghost apart = { λ p m s t v x. W.apart p m s t v x.worker };

    ghost beside = { λ a e m n kinds x. W.beside a e m n kinds x.worker };
}

/// Makes steps of member 1 until one finds nothing to do.
fn work_off<W: CoreWorker>(
    alloc: Global,
    region: &mut SteadyRegion,
    board: &mut LocalBoard,
    worker: &mut W,
    backlog: &mut VecDeque<(u64, Request)>,
) -> Result<(), Memory>
    requires stands { W.stands (state board.old.keeper.me.0).place 1 (steady_state region.old)
        (view_of (state board.old.keeper.me.0) 1) worker.old }
    requires fair { W.fair (state board.old.keeper.me.0) 1 worker.old }
    requires own { AreOwn (state board.old.keeper.me.0).place 1 backlog.old.items }
{
    loop {
        match step(worker, board, backlog, alloc, region, 1)? {
            Turn::Moved => {}
            Turn::Idle => return Ok(()),
        }
    }
}

/// What the counts are once the requests of a backlog were worked off, and whether the first answer is that of a put.
fn counts<W: CoreWorker>(
    alloc: Global,
    region: &mut SteadyRegion,
    board: &mut LocalBoard,
    counted: &mut CountedWorker<W>,
    backlog: &mut VecDeque<(u64, Request)>,
) -> Result<(u64, u64, bool), Memory>
    requires stands { W.stands (state board.old.keeper.me.0).place 1 (steady_state region.old)
        (view_of (state board.old.keeper.me.0) 1) counted.old.worker }
    requires fair { W.fair (state board.old.keeper.me.0) 1 counted.old.worker }
    requires own { AreOwn (state board.old.keeper.me.0).place 1 backlog.old.items }
{
    work_off(alloc, region, board, counted, backlog)?;
    let answer = counted.next_answer();
    Ok((counted.accepted, counted.turns, is_stored(&answer)))
}

/// A backlog with one put, of key 29.
fn one_put(alloc: Global) -> Result<VecDeque<(u64, Request)>, Fail>
    ensures { IfOk result (λ backlog. (p : Place) → ((k : ℕ) → k % 8 ≡ 5 → owner p k ≡ 1)
        → AreOwn p 1 backlog.items) }
{
    let request = put(alloc, 29)?;
    let mut backlog = VecDeque::new(alloc);
    append(&mut backlog, 7, request)?;
    Ok(backlog)
}

/// What the counts are of the worker of core 5 that works such a backlog off.
fn counts_of(
    alloc: Global,
    region: &mut SteadyRegion,
    board: &mut LocalBoard,
    worker: Worker,
    mut backlog: VecDeque<(u64, Request)>,
) -> Result<(u64, u64, bool), Memory>
    requires seated { IsAtBoard (steady_state region.old) (state board.old.keeper.me.0) worker }
    requires own { (p : Place) → ((k : ℕ) → k % 8 ≡ 5 → owner p k ≡ 1) → AreOwn p 1 backlog.items }
{
    let mut counted = CountedWorker {
        worker,
        accepted: 0,
        turns: 0,
    };
    counts(alloc, region, board, &mut counted, &mut backlog)
}

#[test]
fn a_step_is_one_acceptance_or_one_turn(rt: HostRuntime) -> Result<(), Fail> {
    let alloc = rt.alloc();
    let mut region = attached(alloc)?;
    let Some((worker, mut board)) = seated(alloc, &region)? else {
        assert!(rt; false, "the worker is seated");
        return Ok(());
    };
    let backlog = one_put(alloc)?;
    let seen = counts_of(alloc, &mut region, &mut board, worker, backlog)?;
    // another core is told of a dead name; the post, the lock, the take, the unlock, the log, the mark and the finish
    assert_eq!(rt; seen, (1, 8, true));
    Ok(())
}
