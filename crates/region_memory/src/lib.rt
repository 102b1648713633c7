//! Regions in memory, for tests: their whole history, the images that a crash may have left at each moment, and
//! calls that fail by a plan.
#![tactic(auto)]

mod crash_image;
mod fault_plan;
mod history;
mod mem;
mod memory_piece;
mod memory_region;
mod no_faults;
mod pieces;
mod plan;
mod region_journal;
mod steady;
mod step;
mod volume;
mod word_cells;

pub use crash_image::{ImageError, Pick};
pub use fault_plan::FaultPlan;
pub use mem::{MemPiece, MemRegion};
pub use memory_piece::MemoryPiece;
pub use memory_region::MemoryRegion;
pub use no_faults::NoFaults;
pub use plan::{Faults, FenceNumber, PlannedFaults};
pub use steady::{SteadyPiece, SteadyRegion};
