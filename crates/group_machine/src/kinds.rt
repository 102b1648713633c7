// The steps of a group, as data.
use crate::state::GroupState;
use fs_model::Memory;
use fs_model::model::Value;
use group_board::{Change, Names, Notices};

/// What a member does. Members are numbered from 0 in their group, and slots from 0 to 7 in each pool.
#[derive(Drop)]
pub enum Kind {
    /// Takes the own view out of the table's spare seat.
    Split,
    /// Puts the own view back there.
    Join,
    /// Offers a change of an own key in an own slot. `value` is what the entry's block holds; without a
    /// pointer it says nothing.
    Post {
        slot: u32,
        change: Change,
        value: Value,
    },
    /// Tries to become the leader.
    Lock,
    /// Loads the word of a slot or of a mailbox. Words are numbered as in the group's table: the lock, an own
    /// word for each member, the slots by member, the mailboxes by sender.
    Look {
        word: u64,
    },
    /// As the leader, takes the change of a slot.
    Take {
        member: u32,
        slot: u32,
    },
    /// Gives the lock back.
    Unlock,
    /// Makes certain what was taken.
    Commit,
    /// Gives a change back that is certain in the own log.
    Mark {
        member: u32,
        slot: u32,
    },
    /// Takes a change of an own slot back that is done, or failed.
    Finish {
        slot: u32,
    },
    /// Gives a change back that could not be written.
    Fail {
        member: u32,
        slot: u32,
    },
    /// As the leader, takes an own change back that nobody took.
    Withdraw {
        slot: u32,
    },
    /// Lets dead entries of the own log vanish from now on.
    Doom {
        names: Names,
    },
    /// Records that doomed entries have vanished.
    Retire {
        names: Names,
    },
    /// Tells another member of dead and of vanished entries.
    Send {
        to: u32,
        notices: Notices,
    },
    /// Takes what another member told.
    Receive {
        from: u32,
    },
}

/// What a member does, and which.
#[derive(Drop)]
pub struct MemberStep {
    /// The one whose step it is.
    pub member: u32,
    /// With the data that this kind of step takes.
    pub kind: Kind,
}

/// Why a step was not made.
#[derive(Drop)]
pub enum StepError {
    /// Its condition does not hold of the state, which is given back.
    NotEnabled { state: GroupState },
    /// The state is lost.
    Memory,
}

/// Why a list of steps was not made to its end.
#[derive(Drop)]
pub enum StepsError {
    /// The condition of the step with this number, counted from 0, does not hold. The state is the one
    /// before it.
    NotEnabled { at: u64, state: GroupState },
    /// The state is lost.
    Memory,
}

impl From<Memory> for StepError {
    ghost use Rattle.std.specs.Prelude.{◌≡◌};
    ghost use Rattle.group_machine.specs.declared.kinds.StepError.TheVariants as errors;

    ghost from_gives = { λ _ e. e ≡ errors.Memory };

    fn from(_: Memory) -> StepError {
        StepError::Memory
    }
}
