//! Which entries stand in a core's log, and which of them were told dead.
#![tactic(auto)]

mod floors;
mod log_names;
mod logged_names;
mod merging;
mod name_item;
mod name_table;
mod standing_names;
mod tally;
mod types;

pub use log_names::LogNames;
pub use name_item::CHUNK_NUMBERS;
pub use standing_names::Standing;
pub use tally::Tally;
pub use types::{Amount, Copies, NOWHERE, Settled, Spot};
