//! The group machine in pure form: what the state of a group of cores is, which steps its members make,
//! what holds of every state that they reach, and what a crash at any of them recovers.
#![tactic(auto)]

pub mod group_sizes;
pub mod machine_laws;
pub mod openings;
pub mod types;
