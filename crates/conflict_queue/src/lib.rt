//! Requests that wait for their key, in order of arrival, in places that are all taken beforehand.
#![tactic(auto)]

mod key_chains;
mod nodes;
mod queue;
mod types;

pub use queue::ConflictQueue;
pub use types::{Held, NoNode};
