//! The requests that a load makes, by a first number and a count.
#![tactic(auto)]

mod generator;
#[cfg(test)]
mod generator_tests;

pub use generator::{KEYS, Operation, STARTS, request_at};
