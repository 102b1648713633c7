// Bytes that are kept in memory.
ghost use Rattle.std.specs.Prelude.{◌≡◌, ℕ, ◌+◌, ◌<◌, ◌≤◌, List, [], length, take, Some, None, IfOk, IfSome, IsSome, option_copied, if◌then◌else◌};
ghost use Rattle.fs_text.specs.Memory.{Kept};
ghost use Rattle.fs_text.specs.Streams.{Takes};

use std::alloc::{AllocError, Global};
use std::marker::Model;

/// The first bytes of those taken, as many as there is room for. It takes at most so many a call.
#[derive(Drop)]
pub struct Store {
    kept: Vec<u8>,
    room: u64,
    most: u64,
    over: bool,
}

impl Model for Store {
    ghost use Rattle.std.specs.Prelude.{ℕ, ◌<◌, ◌≤◌, length, vec_capacity, Some, None, if◌then◌else◌};
    ghost use Rattle.fs_text.specs.Memory.{Kept};

    ghost Value = { Kept };

    ghost view = { λ s. record {
      bytes = if s.over then None else Some s.kept.items;
      room = s.room;
    } };

    ghost invariant = { λ s. (length s.kept.items ≤ s.room) × (s.room ≤ vec_capacity s.kept)
        × (0 < s.most) };
}

impl Store {
    /// An empty one with room for so many bytes.
    pub fn new(alloc: Global, room: u64, most: u64) -> Result<Store, AllocError>
        requires { 0 < most }
        ensures { IfOk result (λ s. s ≡ record { bytes = Some []; room = room }) }
    {
        let kept = Vec::with_capacity(alloc, room as usize)?;
        Ok(Store {
            kept,
            room,
            most,
            over: false,
        })
    }

    /// Takes bytes from the front of a piece, and answers how many.
    pub fn take(&mut self, piece: &[u8]) -> usize
        ensures within { result ≤ length piece.now }
        ensures some { 0 < length piece.now → 0 < result }
        ensures room { self.new.room ≡ self.old.room }
        ensures takes { Takes self.old.bytes self.new.bytes (take result piece.now) }
        ensures tells { IfSome self.old.bytes (λ bytes. length bytes + result ≤ self.old.room
            → IsSome self.new.bytes) }
    {
        let count = (piece.len() as u64).min(self.most) as usize;
        let free = self.room as usize - self.kept.len();
        let kept = count.min(free);
        match self.kept.extend_from_slice(&piece[..kept]) {
            Ok(()) => {}
            Err(_) => unreachable!(),
        }
        if kept < count {
            self.over = true;
        }
        count
    }

    /// The bytes taken, where no more came than there was room for.
    pub fn text(&self) -> Option<&[u8]>
        ensures { option_copied result ≡ self.now.bytes }
    {
        if self.over {
            None
        } else {
            Some(self.kept.as_slice())
        }
    }
}
