//! Tests of the ground: cells, entries, layouts, texts, and the yardstick of images. They stand beside the crates that
//! they test, since a crate with tests is proved twice.
#![tactic(auto)]

#[cfg(test)]
mod cell_tests;
#[cfg(test)]
mod entry_tests;
#[cfg(test)]
mod layout_tests;
#[cfg(test)]
mod text_tests;
#[cfg(test)]
mod yardstick_tests;
