// A region in memory that never fails.
ghost use Rattle.std.specs.Prelude.{◌≡◌, ℕ, ◌<◌, length, IfOk};
ghost use Rattle.pm_region.specs.Split.{words_in};
ghost use Rattle.pm_region.specs.Bytes.{word_at};

use crate::fault_plan::FaultPlan;
use crate::memory_piece::MemoryPiece;
use crate::memory_region::MemoryRegion;
use crate::no_faults::NoFaults;
use crate::volume::Volume;
use fs_model::Memory;
use std::alloc::Global;

/// A region in memory that never fails: its count of faults is 0. It keeps its whole history, and tells each moment
/// since the last attach, create or join up to the stamp that it was given room for.
pub type SteadyRegion = MemoryRegion<NoFaults>;

/// A piece of a `SteadyRegion`.
pub type SteadyPiece = MemoryPiece<NoFaults>;

impl MemoryRegion<NoFaults> {
    ghost use Rattle.region_memory.specs.Steady.{steady_state};
    ghost use Rattle.region_memory.specs.MemoryRegions.{found_of, steps_of};
    ghost use Rattle.region_memory.specs.Telling.{TellsUpTo};

    /// A region whose attach finds these bytes, the lowest byte of each word first, with room for a journal of so many
    /// steps. It isn't attached yet.
    pub fn new(alloc: Global, bytes: Vec<u8>, steps: u64) -> Result<SteadyRegion, Memory>
        ensures found { IfOk result (λ r. (w : ℕ) → w < words_in (length bytes.items)
            → found_of r w ≡ word_at bytes.items w) }
        ensures closed { IfOk result (λ r. (steady_state r).frame.words ≡ 0) }
        ensures bytes { IfOk result (λ r. (steady_state r).frame.bytes ≡ length bytes.items) }
        ensures steps { IfOk result (λ r. steps_of r ≡ steps) }
        ensures tells { IfOk result (λ r. TellsUpTo steps (steady_state r)) }
    {
        let volume = Volume::new(alloc, &bytes, steps)?;
        Ok(MemoryRegion {
            volume,
            counts: NoFaults::nothing(alloc),
        })
    }
}
