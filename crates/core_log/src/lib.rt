//! One core's log: batches of entries in chunks of a region.
#![tactic(auto)]

mod chunk;
mod log;
pub mod part_laws;
mod tails;
mod types;
mod walking;

pub use log::CoreLog;
pub use types::{LogChunk, Peek, Placed, Room, WalkStep};
