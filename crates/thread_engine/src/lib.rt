//! A run on threads: one worker for each core, each in a thread of its own.
#![tactic(auto)]

pub mod answer_text;
pub mod closing;
pub mod core_job;
pub mod core_side;
pub mod crew;
pub mod cut_rules;
pub mod desk;
pub mod for_each_flat;
pub mod group_leads;
pub mod group_tables;
pub mod opening_rules;
pub mod outlet;
pub mod refusal_rules;
pub mod requests;
pub mod run_answers;
pub mod run_apart;
pub mod run_end;
pub mod run_notes;
pub mod run_to_sink;
pub mod table_end;
pub mod taken_answers;
pub mod text_outlet;
pub mod usual_time;
pub mod watch;
pub mod watched_outlet;
pub mod window_passes;
pub mod windows;
pub mod work_all;
pub mod work_apart;
pub mod work_rules;
