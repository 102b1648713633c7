// The workers of a run, as they open on what recovery found.
ghost use Rattle.std.specs.Prelude.{◌≡◌, length, IfOk};
ghost use Rattle.engine_core.specs.RunStarts.{AreNew};
ghost use Rattle.engine_core.specs.Working.{SeatFirst};

use crate::real_worker::open_worker;
use chunk_map::Layout;
use core_worker::Worker;
use fs_model::Memory;
use recover::CoreStart;
use std::alloc::Global;

/// One worker for each core, in their order, as it is opened of what recovery gave of the core.
pub fn open_workers(
    alloc: Global,
    layout: Layout,
    starts: Vec<CoreStart>,
) -> Result<Vec<Worker>, Memory>
    ensures count { IfOk result (λ workers. length workers.items ≡ length starts.items) }
    ensures new { IfOk result (λ workers. AreNew starts.items layout workers.items) }
    ensures seat { IfOk result (λ workers. SeatFirst starts.items layout workers.items) }
{
    let mut workers = Vec::new(alloc);
    for start in starts {
        let worker = open_worker(alloc, start, layout)?;
        workers.push(worker)?;
    }
    Ok(workers)
}
