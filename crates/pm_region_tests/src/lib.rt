//! Tests of regions: in memory with faults and images, in pieces, and in files. They stand beside the crate that they
//! test, since a crate with tests is proved twice.
#![tactic(auto)]

#[cfg(test)]
mod file_tests;
#[cfg(test)]
mod region_calls;
#[cfg(test)]
mod region_tests;
