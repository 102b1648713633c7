// What is asked of a range of keys.
use fs_model::Key;

/// How many queries an input may have: one on each line.
pub const MOST_QUERIES: u64 = 1_000_000;

/// How many pairs a query may ask for.
pub const MOST_PAIRS: u64 = 1_000_000;

/// A query for the live keys from `lo` to `hi`. There are none where `lo` is above `hi`.
#[derive(Clone, Copy, Debug, PartialEq, Eq)]
pub enum Query {
    /// Their pairs, at most so many. The limit is from 1 to a million.
    Range { lo: Key, hi: Key, limit: u64 },
    /// How many there are.
    Count { lo: Key, hi: Key },
}
