//! What a load counts: its replies, window by window, and the live pairs of the region afterwards.
#![tactic(auto)]

mod tallying;
#[cfg(test)]
mod tallying_tests;

pub use tallying::{add_pairs, add_reply, nothing};
