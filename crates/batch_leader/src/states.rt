// The states of a leader.
ghost use Rattle.std.specs.Prelude.{◌≢◌, []};

use crate::batch_buffer::BatchBuffer;
use crate::changes::Changes;
use crate::returning::Returning;

/// A leader that has the lock and collects.
#[derive(Drop)]
pub struct Collecting {
    pub(crate) changes: Changes,
    /// The position in the round.
    pub(crate) at: u32,
    /// Whether the batch is for a fresh chunk.
    pub(crate) fresh: bool,
    /// The lines of the own entries among those taken, each by itself.
    pub(crate) own_lines: u64,
    /// Whether the lock may be given back: the round is over, or nothing was taken and no own slot was found Posted.
    pub(crate) over: bool,
}

/// What a call of `collect` did.
#[derive(Clone, Copy, Debug, PartialEq, Eq)]
pub enum Collected {
    /// It took one change. The round may go on.
    Took,
    /// It took none: the round is at its end, or the batch has as many entries as it may.
    RoundOver,
}

/// Another member has the lock.
#[derive(Drop)]
pub struct NotLeading {
    /// For the next try.
    pub buffer: BatchBuffer,
    /// Who has it, by its number in the group.
    pub holder: u32,
}

/// What a leader has that gave the lock back.
#[derive(Drop)]
pub enum Released {
    /// Some changes were taken, and are to be written.
    Batch(Batch),
    /// None were taken. The buffer serves the next try.
    Nothing(BatchBuffer),
}

/// Changes that were taken, and are to be written. The lock is given back.
#[derive(Drop)]
pub struct Batch {
    pub(crate) changes: Changes,
    pub(crate) fresh: bool,
    /// The lines of the own entries, each by itself.
    pub(crate) own_lines: u64,
    ghost some: { changes.taken.items ≢ [] },
}

/// Changes that are certain in the own log, and are to be given back.
#[derive(Drop)]
pub struct Persisted {
    pub(crate) left: Returning,
}

/// Changes that could not be written, and are to be given back.
#[derive(Drop)]
pub struct FailedBatch {
    pub(crate) left: Returning,
}
