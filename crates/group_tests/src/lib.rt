//! The tests of a group: its board of one thread and of threads, and its leaders. They make public calls alone, and are
//! proved over the contracts of the crates below.
#![tactic(auto)]

#[cfg(test)]
mod board_tests;
#[cfg(test)]
mod eight_members;
#[cfg(test)]
mod given_back;
#[cfg(test)]
mod leader_tests;
#[cfg(test)]
mod no_region;
#[cfg(test)]
mod thread_board_tests;
#[cfg(test)]
mod two_leaders;
