//! What a core of a run does at the queue of a window's answers: it puts those of its worker there. With it the notions of
//! passes that are dealt to cores, used and taken in again.
#![tactic(auto)]

mod handing;

pub use handing::hand_over;
