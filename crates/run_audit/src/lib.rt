//! Whether the replies to a trace are those of one cell for each key, and if not, where they first aren't.
#![tactic(auto)]

mod audit_input;
mod audit_run;
mod key_share;
mod key_state;
mod parted_line;
mod parting;
mod reply_lines;
mod verdict;
mod verdict_text;

pub use audit_input::{AuditInput, parse_audit, read_audit};
pub use audit_run::audit;
pub use reply_lines::{MOST_REPLIES, read_replies, read_reply};
pub use verdict::{StartCell, Verdict};
pub use verdict_text::write_verdict;
