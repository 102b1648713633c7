// A replay of an input on a region.
ghost use Rattle.group_engine.specs.Passes.{NameCores};
ghost use Rattle.engine_core.specs.RunStarts.{StandsAsFound};
ghost use Rattle.group_engine.specs.Replayed.{Replayed};

use crate::engine::Engine;
use core_worker::Worker;
use engine_core::run_outcome::{End, Outcome, end_of};
use engine_core::run_report::Report;
use fs_model::Memory;
use fs_text::Input;
use pm_region::ReadRegion;
use recover::Recovered;
use std::alloc::Global;
use std::collections::VecDeque;

/// Opens the engine of a region that stands as recovery found it, handles the lines of an input in order, drains, and
/// reports. Whatever the end, the region stands at the last state of the run, and the report is that state's: at want
/// of memory too, since making it takes none. The workers come with it, with all that they hold; where the engine could
/// not be opened there is none.
pub fn replay<R: ReadRegion>(
    alloc: Global,
    region: &mut R,
    recovered: Recovered,
    input: Input,
) -> (Outcome, Vec<Worker>)
    requires region { StandsAsFound (R.state region.old) (R.word region.old) recovered }
    requires lines { NameCores recovered.layout.cores input }
    ensures { Replayed (R.state region.old) (R.word region.old) recovered input
        (R.state region.new) result.0 }
{
    let mut engine = match Engine::open(alloc, region, recovered) {
        Ok(engine) => engine,
        Err(Memory) => {
            let nothing = Outcome::of(Report::new(alloc), End::Memory);
            return (nothing, Vec::new(alloc));
        }
    };
    let lines = VecDeque::from_vec(input.into_lines());
    let run = engine.replay(alloc, region, lines);
    let end = end_of(engine.has_stopped(), run);
    let (report, workers) = engine.into_report();
    (Outcome::of(report, end), workers)
}
