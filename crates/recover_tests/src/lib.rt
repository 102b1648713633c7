//! Tests of recovery: damaged regions, and what is found of sound ones. They stand beside the crate that they test,
//! since a crate with tests is proved twice.
#![tactic(auto)]

#[cfg(test)]
mod recovery_tests;
