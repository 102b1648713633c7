//! The tests of the group machine over plain data. They make public calls alone, and are proved over the contracts of
//! the crates below.
#![tactic(auto)]

#[cfg(test)]
mod machine_tests;
