// One core's job with a put in its queue: it is answered, or left where another core has found no memory.
ghost use Rattle.std.specs.Prelude.{◌≡◌, ℕ, [], ◌∷◌, ◌%◌, IfOk};
ghost use Rattle.region_memory.specs.Steady.{steady_state};
ghost use Rattle.fs_model.specs.declared.model.Request.{Request};
ghost use Rattle.fs_model.specs.Cells.{key_of};
ghost use Rattle.core_worker.specs.Supplies.{HasKeptRoom};
ghost use Rattle.group_laws.specs.Places.{owner};
ghost use Rattle.thread_engine.specs.WorkStates.{IsAtWork, sight_by, stands_at};
ghost use Rattle.engine_tests.specs.WorkerTrials.{IsSeated};

use crate::gate_tests::seated;
use crate::worker_tests::attached;
use core_worker::{OpenGate, Worker};
use fs_model::{Key, Request, Value};
use group_board::{Board, LocalSeat};
use pm_region::Region;
use region_memory::SteadyRegion;
use std::alloc::Global;
use std::collections::VecDeque;
use std::sync::Wait;
use std::sync::atomic::AtomicBool;
use std::test::Fail;
use std::time::Clock;
use thread_engine::core_job::CoreJob;
use thread_engine::group_leads::AllLeads;

// A queue with a put of three bytes under this key, as request 7.
fn queue_of(alloc: Global, key: Key) -> Result<VecDeque<(u64, Request)>, Fail>
    ensures { IfOk result (λ q. (r : Request) × (key_of r ≡ key) × (q.items ≡ (7, r) ∷ [])) }
{
    let value = Value::of(Vec::from_slice(alloc, b"abc")?);
    let mut queue = VecDeque::new(alloc);
    queue.push_back((7, Request::Put { key, value }))?;
    Ok(queue)
}

// Works a job off, where the others have said so much of memory. It gives how many requests are left, and whether one
// was answered.
fn work_off<B: Board, P: Region>(
    rt: &(impl Wait + Clock),
    alloc: Global,
    job: &mut CoreJob<B, P>,
    leads: &AllLeads,
    short: bool,
) -> (u64, bool)
    requires { IsAtWork (B.seat job.old.seat)
        (stands_at (sight_by B.view B.trail B.at) P.state job.old) }
{
    job.work(rt, alloc, &OpenGate, &AtomicBool::new(short), leads, 0);
    let answer = job.worker.next_answer();
    (job.queue.len() as u64, answer.is_some())
}

// Works such a queue off, at this seat. The key is passed since what is known of it must be said of what is passed.
fn worked<B: Board + Drop>(
    rt: &(impl Wait + Clock),
    alloc: Global,
    seat: B,
    piece: SteadyRegion,
    worker: Worker,
    queue: VecDeque<(u64, Request)>,
    _key: Key,
    leads: &AllLeads,
    short: bool,
) -> (u64, bool)
    requires seated { IsSeated (steady_state piece) (B.seat seat).place (B.seat seat).number
        (B.view seat) worker }
    requires rule { HasKeptRoom worker }
    requires own { owner (B.seat seat).place _key ≡ (B.seat seat).number }
    requires queue { (r : Request) × (key_of r ≡ _key) × (queue.items ≡ (7, r) ∷ []) }
{
    let mut job = CoreJob {
        seat,
        piece,
        worker,
        queue,
        pass: None,
    };
    work_off(rt, alloc, &mut job, leads, short)
}

fn worked_at_board(
    rt: &(impl Wait + Clock),
    alloc: Global,
    short: bool,
) -> Result<(u64, bool), Fail> {
    let queue = queue_of(alloc, 29)?;
    let leads = AllLeads::open(alloc, 1, 1)?;
    let region = attached(alloc)?;
    let Some((worker, mut board)) = seated(alloc, &region)? else {
        return Ok((0, false));
    };
    let seat = LocalSeat {
        board: &mut board,
        member: 1,
    };
    Ok(worked(rt, alloc, seat, region, worker, queue, 29, &leads, short))
}

#[test]
fn works_off(rt: HostRuntime) -> Result<(), Fail> {
    assert_eq!(rt; worked_at_board(&rt, rt.alloc(), false)?, (0, true));
    Ok(())
}

#[test]
fn heeds_want_of_memory(rt: HostRuntime) -> Result<(), Fail> {
    assert_eq!(rt; worked_at_board(&rt, rt.alloc(), true)?, (1, false));
    Ok(())
}
