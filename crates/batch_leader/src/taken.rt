// A change on its way through a leader's hands.
use group_board::Change;

/// A change that a leader took out of a slot of a member.
#[derive(Drop)]
pub struct Taken {
    /// By its number in the group.
    pub member: u32,
    /// From 0 to 7.
    pub slot: u32,
    /// As the slot had it, without a home.
    pub change: Change,
}
