// The requests that a core's worker has not accepted yet, and how they are handed to it.
ghost use Rattle.std.specs.Prelude.{◌≡◌, ℕ, ◌+◌, ◌<◌, ◌≤◌, ◌++◌, ◌∷◌, [], true, OnOk, OnErr, IfOk, IfSome, MatchOption};
ghost use Rattle.std.specs.VecDeque.{deque_len, deque_capacity};
ghost use Rattle.fs_model.specs.Cells.{key_of};
ghost use Rattle.group_laws.specs.Places.{Place, owner};
ghost use Rattle.group_laws.specs.MemberViews.{View};
ghost use Rattle.core_worker.specs.declared.types.Turn.TheVariants.{Moved};
ghost use Rattle.engine_core.specs.Calls.{AcceptsForAny, BeginsByEachView, is_open};

use crate::worker_calls::CoreWorker;
use core_worker::Turn;
use fs_model::{Memory, Request};
use pm_region::Region;
use std::alloc::Global;
use std::collections::VecDeque;

/// Puts a request with its number behind those of a backlog. Where there is no memory for it, they stand as before.
pub fn append(
    backlog: &mut VecDeque<(u64, Request)>,
    number: u64,
    request: Request,
) -> Result<(), Memory>
    ensures appended { OnOk result
        (backlog.new.items ≡ backlog.old.items ++ (number, request) ∷ []) }
    ensures kept { OnErr result (backlog.new.items ≡ backlog.old.items) }
{
    backlog.push_back((number, request))?;
    Ok(())
}

// Whether a worker is handed a request.
fn takes<W: CoreWorker>(worker: &W) -> bool
    ensures { result ≡ is_open W.room W.leads worker.now }
{
    !worker.leading() && worker.has_room()
}

/// Takes the first request out of a backlog, where its worker leads nothing and has room. With none its core's next
/// move is a turn.
pub(crate) fn next_for<W: CoreWorker>(
    worker: &W,
    backlog: &mut VecDeque<(u64, Request)>,
) -> Option<(u64, Request)>
    ensures open { MatchOption result
        (is_open W.room W.leads worker.now ≡ true → backlog.old.items ≡ [])
        (λ x. is_open W.room W.leads worker.now ≡ true) }
    ensures rest { MatchOption result (backlog.new.items ≡ backlog.old.items)
        (λ x. backlog.old.items ≡ x ∷ backlog.new.items) }
    ensures room { IfSome result (λ x. deque_len backlog.new < deque_capacity backlog.new) }
{
    if !takes(worker) {
        return None;
    }
    backlog.pop_front()
}

/// Hands a worker a request. Where there is no memory for it, the request goes back to the front of the backlog that it
/// came from.
pub(crate) fn hand_to<W: CoreWorker, R: Region>(
    worker: &mut W,
    backlog: &mut VecDeque<(u64, Request)>,
    alloc: Global,
    region: &R,
    number: u64,
    request: Request,
) -> Result<Turn, Memory>
    requires open { is_open W.room W.leads worker.old ≡ true }
    requires stands { (p : Place) × (m : ℕ) × (v : View)
        × W.stands p m (R.state region.now) v worker.old × (owner p (key_of request) ≡ m) }
    requires room { deque_len backlog.old < deque_capacity backlog.old }
    ensures moved { IfOk result (λ turn. (turn ≡ Moved)
        × AcceptsForAny W.hands W.answers W.stands W.fair (R.state region.now) worker.old worker.new
        ((number, request) ∷ [])) }
    ensures begins { OnOk result (BeginsByEachView W.stands W.begins (R.state region.now)
        worker.old worker.new number request) }
    ensures failed { OnErr result (AcceptsForAny W.hands W.answers W.stands W.fair
        (R.state region.now) worker.old worker.new []) }
    ensures taken { OnOk result (backlog.new.items ≡ backlog.old.items) }
    ensures back { OnErr result (backlog.new.items ≡ (number, request) ∷ backlog.old.items) }
    ensures winds { OnOk result (W.winds worker.new ≡ W.winds worker.old) }
    ensures less { OnOk result (W.left worker.new ≤ W.left worker.old + W.most) }
{
    match worker.accept(alloc, region, number, request) {
        Ok(()) => Ok(Turn::Moved),
        Err(refused) => {
            backlog.push_front((number, refused.request)).unwrap();
            Err(Memory)
        }
    }
}
