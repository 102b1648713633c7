//! What a change needs of a core's room, and when it is refused for want of it. A core keeps a rule: the lines that are
//! promised, to changes under way and to the copies of a cleaning, fit in the open chunk of its log, or two chunks are
//! free. So whatever was accepted can be written.
#![tactic(auto)]

mod needs;
pub mod room_laws;
mod supply;
mod types;

pub use needs::{byte_count, class_or_zero, lines_needed, lines_to_copy, longest_value};
pub use supply::Supply;
pub use types::{Counts, Shortage};
