//! What a replay and a run on threads share: what an engine asks of a core's worker, and the worker as one that gives
//! it; how groups and workers open; backlogs, and the step by which a core takes its next request or makes a turn; the
//! answers that are kept, the report on them, and the outcome.
#![tactic(auto)]

pub mod backlog;
pub mod core_step;
pub mod engine_step;
pub mod found_region;
pub mod open_workers;
pub mod real_worker;
pub mod run_outcome;
pub mod run_report;
pub mod types;
pub mod worker_calls;
