//! Tests of a core's log: appends, the names that stand in it, and its cleaning. They stand beside the crates that they
//! test, since a crate with tests is proved twice.
#![tactic(auto)]

#[cfg(test)]
mod append_tests;
#[cfg(test)]
mod cleaning_tests;
#[cfg(test)]
mod silent_region;
#[cfg(test)]
mod standing_tests;
