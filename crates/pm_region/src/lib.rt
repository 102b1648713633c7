//! A region of persistent memory: the interface, and what a crash may leave of one at each moment. The regions
//! themselves stand in `region_file` and `region_memory`.
#![tactic(auto)]

pub mod byte_words;
mod read_region;
mod region;
pub mod region_sizes;
mod snapshot;
mod split;

pub use read_region::ReadRegion;
pub use region::{Region, RegionFault};
pub use region_sizes::{LINE_BYTES, LINE_WORDS, MOST_BYTES, MOST_WORDS, WORD_BYTES};
pub use snapshot::Snapshot;
pub use split::{AttachError, SplitRegion};
