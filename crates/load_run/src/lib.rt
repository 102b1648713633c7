//! A run on threads whose requests are those of a load: they are made window by window, and their replies are counted.
#![tactic(auto)]

mod answer_counts;
mod load;
mod made_requests;
mod tally_outlet;

pub use load::{LoadRun, run_load};
pub use made_requests::LoadRequests;
pub use tally_outlet::TallyOutlet;
