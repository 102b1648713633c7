// The order of a round.
ghost use Rattle.std.specs.Prelude.{◌≡◌, ◌*◌, ◌<◌, ◌≤◌};
ghost use Rattle.batch_leader.specs.Rounds.{member_at, slot_at};

use group_laws::group_sizes::SLOTS;

/// Whose slot stands at a position of the round of a member.
pub fn member_at(own: u32, position: u32) -> u32
    ensures { result ≡ member_at own position }
{
    let row = position / SLOTS;
    if row == 0 {
        own
    } else if row <= own {
        row - 1
    } else {
        row
    }
}

/// Which of that member's slots stands there.
pub fn slot_at(position: u32) -> u32
    ensures { result ≡ slot_at position }
{
    position % SLOTS
}
