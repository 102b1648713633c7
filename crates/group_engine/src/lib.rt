//! The engine of a replay: one worker for each core, one board for each group, and what was answered.
#![tactic(auto)]

pub mod cores;
pub mod engine;
pub mod open_boards;
pub mod open_engine;
pub mod passes;
pub mod replaying;
