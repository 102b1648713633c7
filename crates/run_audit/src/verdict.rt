// What an audit is given and what it says.
use fs_model::Pair;

/// A key and its value before the first request. A key without one has no value.
pub type StartCell = Pair;

/// Whether replies are lawful: each key answers as one cell does, from its value at the start on. A refusal leaves the
/// cell, and comes only where it may.
#[derive(Clone, Copy, Debug, PartialEq, Eq)]
pub enum Verdict {
    /// They are.
    Lawful,
    /// They aren't, and this is the first request, counted from 0, up to and with which they aren't. Where all that
    /// there are on both sides are lawful, it is the first number that either the requests or the replies lack.
    Unlawful { request: u64 },
}
