//! The texts of queries for ranges of keys: their lines, and the text of an answer.
#![tactic(auto)]

mod answers;
mod queries;
mod query;
mod query_lines;

pub use answers::{write_count, write_page};
pub use queries::{Queries, parse_queries, read_queries};
pub use query::Query;
