//! The queue through which the cores of a run hand over the answers of a window: what is taken out in the end is what
//! was put in, each answer once and no other.
#![tactic(auto)]

mod account;
mod answer_queue;
mod queue_calls;
mod window_sizes;

pub use account::{Account, Numbers};
pub use answer_queue::{AnswerPass, AnswerQueue};
pub use window_sizes::{PARTS, WINDOW};
