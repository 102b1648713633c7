// What the cores of a run begin with, and what they give back.
ghost use Rattle.std.specs.Prelude.{IfOk};
ghost use Rattle.thread_engine.specs.Returns.{HasRoomOf};

use atomic_board::SeatToken;
use core_worker::Worker;
use std::alloc::{AllocError, Global};

/// What the cores begin with but their pieces, in the cores' order: their tokens and their workers.
#[derive(Drop)]
pub struct Crew {
    /// One for each core, of its seat at its group's table.
    pub tokens: Vec<SeatToken>,
    /// One for each core.
    pub workers: Vec<Worker>,
}

/// What the cores give back, in the cores' order: their pieces, their tokens and their workers.
#[derive(Drop)]
pub struct Returned<P> {
    /// For the join.
    pub pieces: Vec<P>,
    /// For closing the tables.
    pub tokens: Vec<SeatToken>,
    /// They have handed over the answers that they fixed.
    pub workers: Vec<Worker>,
}

impl<P: Drop> Returned<P> {
    /// Room for what so many cores give back.
    pub fn with_room(alloc: Global, cores: usize) -> Result<Returned<P>, AllocError>
        ensures { IfOk result (HasRoomOf cores) }
    {
        let pieces = Vec::with_capacity(alloc, cores)?;
        let tokens = Vec::with_capacity(alloc, cores)?;
        let workers = Vec::with_capacity(alloc, cores)?;
        Ok(Returned {
            pieces,
            tokens,
            workers,
        })
    }
}
