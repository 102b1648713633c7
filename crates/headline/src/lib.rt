//! What a run of the store promises, and how the promise grows request by request.
#![tactic(auto)]
