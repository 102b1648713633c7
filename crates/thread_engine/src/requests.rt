// Where the requests of a run come from.
ghost use Rattle.std.specs.Prelude.{◌≡◌, List, length, IfOk};
ghost use Rattle.fs_model.specs.declared.model.Request as requests;
ghost use Rattle.engine_laws.specs.Ran.{asked_in};
ghost use Rattle.thread_engine.specs.Requests.{Makes};

use fs_model::{Memory, Request};
use fs_text::{Input, Line};
use std::alloc::Global;
use std::collections::VecDeque;

/// Requests that are made one by one. The first has the number 0.
pub trait Requests {
    /// Those that are still to come, in order.
    ghost left: { Self → List requests.Request };

    /// How many are still to come.
    fn count(&self) -> usize
        ensures { result ≡ length (left self.now) };

    /// Makes the next one, and answers None where none is left. Where there is no memory for it, nothing is said of what
    /// is left.
    fn next(&mut self, alloc: Global) -> Result<Option<Request>, Memory>
        ensures { IfOk result (Makes (left self.old) (left self.new)) };
}

/// The requests among the lines of an input. Its `go` lines are passed over.
#[derive(Drop)]
pub struct TraceRequests {
    // Those that are still to be read, and how many requests are among them.
    lines: VecDeque<Line>,
    count: usize,
    ghost counted: { count ≡ length (asked_in lines.items) },
}

impl TraceRequests {
    /// Those of this input. It takes no memory.
    pub fn of(input: Input) -> TraceRequests
        ensures { asked_in result.lines.items ≡ asked_in input }
    {
        let count = count_requests(input.lines());
        TraceRequests {
            lines: VecDeque::from_vec(input.into_lines()),
            count,
        }
    }
}

impl Requests for TraceRequests {
    ghost left = { λ x. asked_in x.lines.items };

    fn count(&self) -> usize {
        self.count
    }

    fn next(&mut self, _alloc: Global) -> Result<Option<Request>, Memory> {
        let next = next_request(&mut self.lines);
        if next.is_some() {
            self.count -= 1;
        }
        Ok(next)
    }
}

// How many requests are among the lines.
fn count_requests(lines: &[Line]) -> usize
    ensures { result ≡ length (asked_in lines.now) }
{
    let mut count = 0;
    for line in lines {
        if let Line::Ask(_) = line {
            count += 1;
        }
    }
    count
}

// Takes the lines up to the first request.
fn next_request(lines: &mut VecDeque<Line>) -> Option<Request>
    ensures { Makes (asked_in lines.old.items) (asked_in lines.new.items) result }
{
    while let Some(line) = lines.pop_front() {
        match line {
            Line::Ask(request) => return Some(request),
            Line::Go { .. } => {}
        }
    }
    None
}
