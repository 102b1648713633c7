//! What a member's view allows an image of its part to be, and what becomes of that: while the core's log and its
//! blocks are written, and when the view makes its steps. There is no code here but the laws' statements.
#![tactic(auto)]

pub mod licence_laws;
