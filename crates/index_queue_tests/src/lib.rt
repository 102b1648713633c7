//! Tests of what a core keeps of its keys: the index, and the queue of requests that wait for a key. They stand beside
//! the crates that they test, since a crate with tests is proved twice.
#![tactic(auto)]

#[cfg(test)]
mod index_tests;
#[cfg(test)]
mod queue_tests;
