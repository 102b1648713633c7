// One step of a core, in a replay as in a thread.
ghost use Rattle.std.specs.Prelude.{◌≡◌, ◌⊎◌, ℕ, true, []};
ghost use Rattle.engine_core.specs.Calls.{is_open};
ghost use Rattle.engine_core.specs.CoreSteps.{HandsFirst, HasOwn, MayTurn, GivesTurn};

use crate::backlog::{hand_to, next_for};
use crate::worker_calls::CoreWorker;
use core_worker::Turn;
use fs_model::{Memory, Request};
use pm_region::Region;
use std::alloc::Global;
use std::collections::VecDeque;

/// Hands a worker the first request of its backlog, where it leads nothing and has room, and else has it make a turn by
/// `turn`, at its board and in its region. Where there is no memory for a request, it stays at the front of the backlog.
pub fn step_core<W: CoreWorker, B, R: Region, F>(
    worker: &mut W,
    board: &mut B,
    region: &mut R,
    backlog: &mut VecDeque<(u64, Request)>,
    alloc: Global,
    turn: F,
) -> Result<Turn, Memory>
where
    F: FnOnce(&mut W, &mut B, &mut R) -> Result<Turn, Memory>,
    requires own { HasOwn W.stands (R.state region.old) worker.old backlog.old.items }
    requires turns { MayTurn F.FnOnce turn worker.old board.old region.old }
    ensures { ((is_open W.room W.leads worker.old ≡ true)
        × HandsFirst W.hands W.answers W.stands W.fair W.begins W.winds W.left W.most
        (R.state region.old) worker.old worker.new backlog.old.items backlog.new.items result
        × (board.new ≡ board.old) × (region.new ≡ region.old))
        ⊎ ((is_open W.room W.leads worker.old ≡ true → backlog.old.items ≡ [])
        × (backlog.new.items ≡ backlog.old.items)
        × GivesTurn F.FnOnce turn worker.old board.old region.old result
        worker.new board.new region.new) }
{
    match next_for(worker, backlog) {
        Some((number, request)) => hand_to(worker, backlog, alloc, &*region, number, request),
        None => turn(worker, board, region),
    }
}
