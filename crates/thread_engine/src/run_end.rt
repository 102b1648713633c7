// How a run on threads ended, by its workers.
ghost use Rattle.std.specs.Prelude.{◌≡◌, true, false};
ghost use Rattle.thread_engine.specs.Collected.{end_by, any_stopped};

use core_worker::Worker;
use engine_core::run_outcome::End;

// Whether a worker has stopped.
fn has_stopped(workers: &[Worker]) -> bool
    ensures { result ≡ any_stopped workers.now }
{
    workers.iter().any(|worker| worker.stopped())
}

fn end_of(all: bool, stopped: bool) -> End
    ensures { result ≡ end_by all stopped }
{
    if !all {
        return End::Memory;
    }
    if stopped {
        End::RegionFault
    } else {
        End::Complete
    }
}

/// How a run of these workers ended, where there was memory for all or not.
pub fn run_end(workers: &Vec<Worker>, all: bool) -> End
    ensures { result ≡ end_by all (any_stopped workers.now.items) }
{
    end_of(all, has_stopped(workers))
}
