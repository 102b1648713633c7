//! Tests of a core's blocks, against a plain allocator, and of the room for a change. They stand beside the crates that
//! they test, since a crate with tests is proved twice.
#![tactic(auto)]

#[cfg(test)]
mod block_tests;
#[cfg(test)]
mod plain_allocator;
#[cfg(test)]
mod room_tests;
