//! Ranges of keys over what recovery gives: how many live keys stand between two bounds, and a page of their pairs.
//!
//! The indexes of the cores give their live keys by rising key. A directory merges these lists once, and then answers
//! each query by two searches by halves. A page reads only the values that it gives.
#![tactic(auto)]

mod directory;
mod key_union;
mod keys_of_cores;
mod page;
mod page_values;
mod ranging;

pub use directory::Directory;
pub use page::Page;
