// The requests of a load, made one by one.
ghost use Rattle.std.specs.Prelude.{◌≡◌, ◌-◌, ◌^◌, ◌<◌, ◌≤◌};
ghost use Rattle.load_requests.specs.Generated.{requests_from, requests_of_load};

use fs_model::{Memory, Request};
use load_requests::request_at;
use std::alloc::Global;
use thread_engine::requests::Requests;

/// The requests of a load that are still to come. None of them is kept.
#[derive(Clone, Copy, Debug)]
pub struct LoadRequests {
    // The first number of the load, the number of the next request, and the number behind the last one.
    start: u64,
    next: u64,
    end: u64,
    ghost order: { next ≤ end },
    ghost few: { end < 2 ^ 63 },
}

impl LoadRequests {
    /// All requests of a load of so many. It takes no memory.
    pub fn of(start: u64, count: u64) -> LoadRequests
        requires few { count < 2 ^ 63 }
        ensures { requests_from result.start result.next (result.end - result.next)
            ≡ requests_of_load start count }
    {
        LoadRequests {
            start,
            next: 0,
            end: count,
        }
    }
}

impl Requests for LoadRequests {
    ghost left = { λ x. requests_from x.start x.next (x.end - x.next) };

    fn count(&self) -> usize {
        (self.end - self.next) as usize
    }

    fn next(&mut self, alloc: Global) -> Result<Option<Request>, Memory> {
        if self.next == self.end {
            return Ok(None);
        }
        let request = request_at(alloc, self.start, self.next)?;
        self.next += 1;
        Ok(Some(request))
    }
}
