//! Cleaning of a core's own log: what of a chunk is still needed is copied, and the chunk is given up.
#![tactic(auto)]

mod choosing;
mod chunk_tally;
pub mod cleaning_laws;
mod clearing;
mod collect_copies;
mod copy_room;
mod copying;
mod counting;
mod reading_start;
mod searching;
mod types;

pub use choosing::victim;
pub use chunk_tally::tally_of;
pub use clearing::Clearing;
pub use copying::copy_live;
pub use counting::to_copy;
pub use log_standing::Standing;
pub use types::{Cleared, Victim};
