// What a worker is made of, and what it answers.
ghost use Rattle.std.specs.Prelude.{◌≡◌};

use batch_leader::{Batch, BatchBuffer, Collecting, FailedBatch, Persisted};
use conflict_queue::NoNode;
use core_room::Shortage;
use fs_model::{Key, Reply, Request, Value, Version};
pub use log_cleaner::Victim;
use log_entry::Entry;

/// One of the eight places, which are numbered as the core's slots.
#[derive(Drop)]
pub enum Place {
    /// For the next change that is begun.
    Free,
    /// A change that is to be posted, with the number of its request. `value` is what its block is to hold, empty where
    /// it has none.
    Staged {
        number: u64,
        entry: Entry,
        value: Value,
    },
    /// A change that was posted and is not finished. `lines` are those that the log must still have for it: 0 once the
    /// core itself made its entry certain.
    Posted {
        number: u64,
        key: Key,
        lines: u64,
    },
}

/// What the core leads, and how far.
#[derive(Drop)]
pub enum Leading {
    /// It leads nothing, and keeps the buffer for its next batch.
    Nothing(BatchBuffer),
    /// It has the lock, and takes posted changes.
    Collecting(Collecting),
    /// The lock is given back, and the batch is to be written.
    Batch(Batch),
    /// The batch is certain in the own log. Its changes are marked, one a turn.
    Persisted(Persisted),
    /// The batch could not be written, and the core has stopped. Its changes are given back as failed, one a turn.
    Failed(FailedBatch),
    /// Between two of these, inside a call.
    Between,
}

/// How far a cleaning is.
#[derive(Clone, Copy, Debug, PartialEq, Eq)]
pub enum Cleaning {
    /// No cleaning is under way.
    Nothing,
    /// `first` until its first copy is made.
    Copying { victim: Victim, first: bool },
    /// The names that may vanish are doomed.
    Doomed { chunk: u32 },
}

// What is done for a request that is not refused.
#[derive(Drop)]
pub(crate) enum Plan {
    Get {
        key: Key,
    },
    // A delete of a key without a value is answered.
    Absent,
    PutBeside {
        key: Key,
        value: Value,
        version: Version,
    },
    // The value gets a block of the class, for which a chunk may be cut or not.
    PutInBlock {
        key: Key,
        value: Value,
        version: Version,
        class: u32,
        may_cut: bool,
    },
    Delete {
        key: Key,
        version: Version,
    },
}

/// The answer to a request, by its number.
#[derive(Drop)]
pub struct Answer {
    /// As `accept` was given it.
    pub number: u64,
    /// With the bytes of the value, where it shows one.
    pub reply: Reply,
    /// The cause of a Full, a VersionsSpent or a TooLong; else none.
    pub refusal: Option<Shortage>,
}

/// A request that was not accepted, for want of memory.
#[derive(Drop)]
pub struct NotAccepted {
    /// As it was given, to be tried again or left.
    pub request: Request,
}

impl From<NoNode> for NotAccepted {
    ghost from_gives = { λ full back. back.request ≡ full.request };

    fn from(full: NoNode) -> NotAccepted {
        NotAccepted {
            request: full.request,
        }
    }
}

/// Whether a turn found something to do.
#[derive(Clone, Copy, Debug, PartialEq, Eq)]
pub enum Turn {
    /// It did one item of the order of work.
    Moved,
    /// No item applied. It made loads alone.
    Idle,
}
