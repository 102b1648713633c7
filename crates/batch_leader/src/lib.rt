//! Leading a group: collecting posted changes under the lock, writing them as one batch into the own log, and giving
//! them back. Each state is a type of its own: only `Collecting` has the lock, and only its `release` makes a `Batch`,
//! so nothing is written under the lock.
#![tactic(auto)]

mod batch_buffer;
mod changes;
mod collect_changes;
pub mod cut_laws;
mod fitting;
mod mark_and_fail;
mod persisting;
mod returning;
mod round;
mod starting;
mod states;
mod taken;
mod withdrawing;

pub use batch_buffer::BatchBuffer;
pub use starting::lead;
pub use states::{Batch, Collected, Collecting, FailedBatch, NotLeading, Persisted, Released};
