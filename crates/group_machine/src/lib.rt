//! The group machine over plain data: the state of a group of cores, its steps one at a time, and the claim
//! over every list of steps. Tests run it; the program makes the same steps at the boards of `group_board` and
//! `atomic_board`.
#![tactic(auto)]

mod cleaning;
mod copies;
mod finishing;
mod group_state;
mod kinds;
mod leader_steps;
mod machine;
mod member_places;
mod post_step;
mod return_steps;
mod sets;
mod state;
mod tables;
mod tidy_rules;

pub use kinds::{Kind, MemberStep, StepError, StepsError};
pub use machine::{all_steps, step};
pub use state::{GroupState, MemberView};
