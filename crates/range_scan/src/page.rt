// What a query for pairs gets.
use fs_model::{Key, Pair};

/// The first pairs of a range, by rising key.
#[derive(Debug, Drop)]
pub struct Page {
    /// At most as many as the query asked for.
    pub pairs: Vec<Pair>,
    /// The next key of the range that is live. None exactly where no further one is.
    pub more: Option<Key>,
}
