// A step of a core of a replay, which tells its group's state, and how the answers of its worker are taken.
ghost use Rattle.std.specs.Prelude.{◌≡◌, ℕ, ◌+◌, ◌*◌, ◌<◌, ◌≤◌, List, [], length, false, Some, IfOk, OnOk, OnErr};
ghost use Rattle.fs_model.specs.declared.model.Request as requests;
ghost use Rattle.pm_region.specs.State.{State};
ghost use Rattle.group_laws.specs.Places.{Place};
ghost use Rattle.group_laws.specs.State.{Group};
ghost use Rattle.group_laws.specs.MemberViews.{View, view_of};
ghost use Rattle.group_board.specs.Journals.{state};
ghost use Rattle.core_worker.specs.declared.types.Turn.TheVariants.{Moved, Idle};
ghost use Rattle.engine_core.specs.Answers.{HavePlaces, stored};
ghost use Rattle.engine_core.specs.Calls.{AreOwn, Turns, Steps, TakesTurn, Does, has_moved, is_idle, is_open, next_of};

use crate::core_step::step_core;
use crate::types::Stamped;
use crate::worker_calls::CoreWorker;
use core_worker::Turn;
use fs_model::{Memory, Request};
use group_board::{LocalBoard, LocalSeat};
use pm_region::Region;
use std::alloc::Global;
use std::collections::VecDeque;

// A turn of a worker at its board.
fn turn_at<W: CoreWorker, R: Region>(
    worker: &mut W,
    board: &mut LocalBoard,
    alloc: Global,
    region: &mut R,
    member: u32,
) -> Result<Turn, Memory>
    requires stands { W.stands (state board.old.keeper.me.0).place member (R.state region.old)
        (view_of (state board.old.keeper.me.0) member) worker.old }
    requires fair { W.fair (state board.old.keeper.me.0) member worker.old }
    ensures turns { Turns W.hands W.answers W.stands W.fair W.room W.leads
        (state board.old.keeper.me.0).place member (R.state region.old) (R.state region.new)
        (Some (state board.old.keeper.me.0)) (Some (state board.new.keeper.me.0))
        (view_of (state board.old.keeper.me.0) member)
        (view_of (state board.new.keeper.me.0) member) worker.old worker.new (is_idle result)
        (W.winds worker.old) }
    ensures turned { IfOk result (λ turn. TakesTurn W.turned
        (state board.old.keeper.me.0).place member
        (R.state region.old) (R.state region.new) (state board.old.keeper.me.0)
        (state board.new.keeper.me.0) worker.old worker.new (has_moved turn)) }
    ensures winds { OnOk result (W.winds worker.new ≡ W.winds worker.old) }
    ensures awake { OnErr result (W.winds worker.old ≡ false) }
    ensures less { IfOk result (λ turn. turn ≡ Moved
        → W.left worker.new + W.under_way (state board.new.keeper.me.0)
        < W.left worker.old + W.under_way (state board.old.keeper.me.0)) }
    ensures idle { IfOk result (λ turn. turn ≡ Idle
        → W.left worker.new + W.under_way (state board.new.keeper.me.0)
        ≤ W.left worker.old + W.under_way (state board.old.keeper.me.0)) }
{
    let mut seat = LocalSeat { board, member };
    worker.turn(alloc, region, &mut seat)
}

/// A step of a core at the board of a replay.
pub fn step<W: CoreWorker, R: Region>(
    worker: &mut W,
    board: &mut LocalBoard,
    backlog: &mut VecDeque<(u64, Request)>,
    alloc: Global,
    region: &mut R,
    member: u32,
) -> Result<Turn, Memory>
    requires stands { W.stands (state board.old.keeper.me.0).place member (R.state region.old)
        (view_of (state board.old.keeper.me.0) member) worker.old }
    requires own { AreOwn (state board.old.keeper.me.0).place member backlog.old.items }
    requires fair { W.fair (state board.old.keeper.me.0) member worker.old }
    ensures steps { (accepted : List (ℕ × requests.Request)) × (rest : List (ℕ × requests.Request))
        × Steps W.hands W.answers W.stands W.fair (state board.old.keeper.me.0).place member
        (R.state region.old) (R.state region.new)
        (state board.old.keeper.me.0) (state board.new.keeper.me.0)
        (view_of (state board.old.keeper.me.0) member)
        (view_of (state board.new.keeper.me.0) member)
        worker.old worker.new backlog.old.items accepted rest (is_idle result)
        (W.winds worker.old) × (backlog.new.items ≡ rest) × OnOk result (accepted
        ≡ next_of (is_open W.room W.leads worker.old) backlog.old.items) }
    ensures does { IfOk result (λ turn. Does W.begins W.turned
        (state board.old.keeper.me.0).place member
        (R.state region.old) (R.state region.new)
        (state board.old.keeper.me.0) (state board.new.keeper.me.0) worker.old worker.new
        (next_of (is_open W.room W.leads worker.old) backlog.old.items) (has_moved turn)) }
    ensures winds { OnOk result (W.winds worker.new ≡ W.winds worker.old) }
    ensures awake { OnErr result (W.winds worker.old ≡ false) }
    ensures less { IfOk result (λ turn. turn ≡ Moved
        → W.left worker.new + W.under_way (state board.new.keeper.me.0)
        + (W.most + 1) * length backlog.new.items
        < W.left worker.old + W.under_way (state board.old.keeper.me.0)
        + (W.most + 1) * length backlog.old.items) }
    ensures idle { IfOk result (λ turn. turn ≡ Idle
        → W.left worker.new + W.under_way (state board.new.keeper.me.0)
        + (W.most + 1) * length backlog.new.items
        ≤ W.left worker.old + W.under_way (state board.old.keeper.me.0)
        + (W.most + 1) * length backlog.old.items) }
{
    step_core(
        worker,
        board,
        region,
        backlog,
        alloc,
        |worker, board, region| { turn_at(worker, board, alloc, region, member) },
    )
}

/// Takes the answers that a worker fixed, and keeps each by the number of its request, with this stamp.
pub fn collect<W: CoreWorker>(worker: &mut W, kept: &mut Vec<Option<Stamped>>, stamp: u64)
    requires { HavePlaces (length kept.old.items) (W.answers worker.old) }
    ensures kept { kept.new.items ≡ stored (W.answers worker.old) stamp kept.old.items }
    ensures answers { W.answers worker.new ≡ [] }
    ensures alike { W.alike worker.old worker.new }
    ensures hands { (v : View) → W.hands v worker.new ≡ W.hands v worker.old }
    ensures stands { (p : Place) (m : ℕ) (s : State) (v : View)
        → W.stands p m s v worker.old → W.stands p m s v worker.new }
    ensures fair { (a : Group) (m : ℕ) → W.fair a m worker.old → W.fair a m worker.new }
    ensures open { is_open W.room W.leads worker.new ≡ is_open W.room W.leads worker.old }
    ensures winds { W.winds worker.new ≡ W.winds worker.old }
    ensures left { W.left worker.new ≡ W.left worker.old }
{
    loop {
        match worker.next_answer() {
            Some(answer) => {
                kept[answer.number as usize] = Some(Stamped {
                    reply: answer.reply,
                    refusal: answer.refusal,
                    stamp,
                });
            }
            None => return,
        }
    }
}
