// What waits, and what is given back where there is no place.
use fs_model::Request;

/// A request that waits for its key, with the number that its owner gave it.
#[derive(Debug, Drop)]
pub struct Held {
    /// The queue only keeps it.
    pub number: u64,
    /// Put, get or delete, whole, with the bytes of its value.
    pub request: Request,
}

/// All places are in use. The request comes back.
#[derive(Debug, Drop)]
pub struct NoNode {
    /// The one that was to wait.
    pub request: Request,
}
