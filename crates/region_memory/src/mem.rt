// A region in memory whose calls fail by a plan.
ghost use Rattle.std.specs.Prelude.{◌≡◌, ℕ, ◌<◌, length, IfOk};
ghost use Rattle.pm_region.specs.Split.{words_in};
ghost use Rattle.pm_region.specs.Bytes.{word_at};

use crate::memory_piece::MemoryPiece;
use crate::memory_region::MemoryRegion;
use crate::plan::{Faults, PlannedFaults};
use crate::volume::Volume;
use fs_model::Memory;
use std::alloc::Global;

/// A region in memory whose attaches, creates, splits, revalidations and fences fail by a plan. It keeps its whole
/// history, and tells each moment since the last attach, create or join up to the stamp that it was given room for.
pub type MemRegion = MemoryRegion<PlannedFaults>;

/// A piece of a `MemRegion`.
pub type MemPiece = MemoryPiece<PlannedFaults>;

impl MemoryRegion<PlannedFaults> {
    ghost use Rattle.region_memory.specs.Mem.{mem_state, mem_plan, planned};
    ghost use Rattle.region_memory.specs.MemoryRegions.{found_of, steps_of};
    ghost use Rattle.region_memory.specs.Telling.{TellsUpTo};

    /// A region whose attach finds these bytes, the lowest byte of each word first, with room for a journal of so many
    /// steps. It isn't attached yet.
    pub fn new(alloc: Global, bytes: Vec<u8>, steps: u64, plan: Faults) -> Result<MemRegion, Memory>
        ensures found { IfOk result (λ r. (w : ℕ) → w < words_in (length bytes.items)
            → found_of r w ≡ word_at bytes.items w) }
        ensures closed { IfOk result (λ r. (mem_state r).frame.words ≡ 0) }
        ensures bytes { IfOk result (λ r. (mem_state r).frame.bytes ≡ length bytes.items) }
        ensures steps { IfOk result (λ r. steps_of r ≡ steps) }
        ensures tells { IfOk result (λ r. TellsUpTo steps (mem_state r)) }
        ensures plan { IfOk result (λ r. mem_plan r ≡ planned plan) }
        ensures counts { IfOk result (λ r. ((mem_state r).faults ≡ 0)
            × ((mem_state r).frame.refusals ≡ 0)) }
    {
        let volume = Volume::new(alloc, &bytes, steps)?;
        let counts = PlannedFaults::new(alloc, plan)?;
        Ok(MemoryRegion { volume, counts })
    }
}
