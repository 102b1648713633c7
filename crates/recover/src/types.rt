// What recovery gives.
ghost use Rattle.std.specs.Prelude.{◌≡◌};
ghost use Rattle.store_image.specs.declared.types.Fault.TheVariants as faults;
ghost use Rattle.recover.specs.declared.types.RecoverError.TheVariants as errors;

use chunk_map::{Layout, NotARegion};
use core_index::CoreIndex;
use core_log::CoreLog;
use fs_model::Memory;
use lazy_alloc::Allocator;
use log_standing::Standing;
use std::alloc::{AllocError, AllocFailed};
use store_image::Fault;
use thiserror::Error;

/// What a core begins with.
#[derive(Drop)]
pub struct CoreStart {
    /// The core's number in the region, from 0.
    pub core: u32,
    /// The log of the core's part.
    pub log: CoreLog,
    /// The free chunks and blocks of the part. Exactly the blocks of live values are allocated.
    pub allocator: Allocator,
    /// The keys of the core: the newest version of each and what it left, and its entries in all logs.
    pub index: CoreIndex,
    /// The entries that stand in the log. Those of the core's own keys that are dead were told dead.
    pub standing: Standing,
}

/// What the words of a sound region say.
#[derive(Drop)]
pub struct Recovered {
    /// What the superblock says.
    pub layout: Layout,
    /// One start for each core, in their order.
    pub starts: Vec<CoreStart>,
}

/// Why nothing was recovered.
#[derive(Clone, Copy, Debug, PartialEq, Eq, Error)]
pub enum RecoverError {
    /// The region is not sound: the first broken rule.
    #[error("the region is damaged")]
    Fault(Fault),
    /// No memory.
    #[error("out of memory")]
    Memory,
}

impl From<Fault> for RecoverError {
    ghost from_gives = { λ fault e. e ≡ errors.Fault fault };

    fn from(fault: Fault) -> RecoverError {
        RecoverError::Fault(fault)
    }
}

impl From<NotARegion> for RecoverError {
    ghost from_gives = { λ bad e. e ≡ errors.Fault (faults.NotARegion bad.rule) };

    fn from(bad: NotARegion) -> RecoverError {
        RecoverError::Fault(Fault::NotARegion { rule: bad.rule })
    }
}

impl From<Memory> for RecoverError {
    ghost from_gives = { λ _ e. e ≡ errors.Memory };

    fn from(_: Memory) -> RecoverError {
        RecoverError::Memory
    }
}

impl From<AllocError> for RecoverError {
    ghost from_gives = { λ _ e. e ≡ errors.Memory };

    fn from(_: AllocError) -> RecoverError {
        RecoverError::Memory
    }
}

impl<T: Drop> From<AllocFailed<T>> for RecoverError {
    ghost from_gives = { λ _ e. e ≡ errors.Memory };

    fn from(_: AllocFailed<T>) -> RecoverError {
        RecoverError::Memory
    }
}
