//! Tests of the whole program, on its top call: faults at a certain call, the images of a crash, cores that meet. They
//! stand beside the crate that they test, since a crate with tests is proved twice.
#![tactic(auto)]

#[cfg(test)]
mod call_tests;
#[cfg(test)]
mod change_tests;
#[cfg(test)]
mod dump_tests;
#[cfg(test)]
mod format_tests;
#[cfg(test)]
mod judging_tests;
#[cfg(test)]
mod load_tests;
#[cfg(test)]
mod meeting_tests;
#[cfg(test)]
mod row_tests;
#[cfg(test)]
mod scan_tests;
#[cfg(test)]
mod space_tests;
#[cfg(test)]
mod thread_tests;
#[cfg(test)]
mod window_tests;
