// What an engine keeps.
use core_room::Shortage;
use fs_model::Reply;

/// An answer that is kept, with the region's stamp after the move that fixed it.
#[derive(Drop)]
pub struct Stamped {
    /// What the request is answered.
    pub reply: Reply,
    /// The cause of a Full, a VersionsSpent or a TooLong; else none.
    pub refusal: Option<Shortage>,
    /// In a run on threads that of the joined region.
    pub stamp: u64,
}
