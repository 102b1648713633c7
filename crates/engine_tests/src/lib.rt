//! Tests of a core's worker, of the engines' reports, and of cores in threads. They stand beside the crates that they
//! test, since a crate with tests is proved twice.
#![tactic(auto)]

#[cfg(test)]
mod counted_cores_tests;
#[cfg(test)]
mod counted_worker_tests;
#[cfg(test)]
mod crew_tests;
#[cfg(test)]
mod forgotten_tests;
#[cfg(test)]
mod gate_tests;
#[cfg(test)]
mod heed_tests;
#[cfg(test)]
mod report_tests;
#[cfg(test)]
mod worker_tests;
