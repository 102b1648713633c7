// Replies that are written behind their window.
ghost use Rattle.std.specs.Prelude.{◌≡◌, ℕ, Some};
ghost use Rattle.thread_engine.specs.Printed.{WritesWindow};

use crate::answer_text::write_answers;
use crate::outlet::Outlet;
use engine_core::types::Stamped;
use fs_text::{OutError, Sink};
use pm_region::{RegionFault, SplitRegion};
use std::alloc::Global;

/// Why a window's text is not out.
#[derive(Clone, Copy, Debug, PartialEq, Eq)]
pub enum Unwritten {
    /// The region was not found in its place. Nothing was written.
    Astray,
    /// A write or a flush failed.
    SinkFault,
    /// There was no memory to write in.
    Memory,
}

/// Writes the replies of each window to a sink, and flushes it, once the region was found in its place.
#[derive(Drop)]
pub struct TextOutlet<'a, O> {
    /// It takes nothing else while a run goes on.
    pub sink: &'a mut O,
    /// Why it did not take the replies of a window, where it did not.
    pub cause: Option<Unwritten>,
}

impl<'a, O: Sink> Outlet for TextOutlet<'a, O> {
    // It writes to one sink from first to last.
    ghost takes = { λ s old replies heard t new. (new.sink.ghost_name ≡ old.sink.ghost_name)
        × WritesWindow O.taken O.flushed O.fault_count s old.sink.now replies heard t new.sink.now
        new.cause };

    fn take_window<R: SplitRegion>(
        &mut self,
        alloc: Global,
        region: &mut R,
        answers: &[Option<Stamped>],
    ) -> bool {
        // a count that has been read is one of its type, so it can't fall where it rises
        let _faults = region.faults();
        if let Err(RegionFault) = region.revalidate() {
            self.cause = Some(Unwritten::Astray);
            return false;
        }
        match write_answers(alloc, self.sink, answers) {
            Ok(()) => true,
            Err(OutError::SinkFault) => {
                self.cause = Some(Unwritten::SinkFault);
                false
            }
            Err(OutError::Memory) => {
                self.cause = Some(Unwritten::Memory);
                false
            }
        }
    }
}
