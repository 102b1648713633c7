//! The allocator of one core's part: free chunks, and chunks that are cut into blocks for larger values.
#![tactic(auto)]

mod allocator;
mod bits;
mod block_places;
mod class_chains;
mod classes;
mod counts;
mod values;
mod written;

pub use allocator::Allocator;
pub use classes::class_of;
pub use values::value_in;
