// What a leader has to give back, after its batch was written or could not be written.
ghost use Rattle.std.specs.Prelude.{◌≡◌, ◌≢◌, ◌≤◌, [], ◌∷◌, vec_capacity, is_some, MatchOption};
ghost use Rattle.log_entry.specs.declared.entry_limits.TheConstants.{MOST_ENTRIES, MOST_BATCH_WORDS};
ghost use Rattle.batch_leader.specs.TakenChanges.{MatchBool, taken_in};

use crate::batch_buffer::BatchBuffer;
use crate::changes::Changes;
use crate::taken::Taken;
use log_entry::WordBuffer;

/// Changes that are to be given back, in order.
#[derive(Drop)]
pub struct Returning {
    /// Those that are left.
    pub taken: Vec<Taken>,
    /// Kept for its room alone.
    pub words: WordBuffer,
    ghost places: { MOST_ENTRIES ≤ vec_capacity taken },
    ghost room: { MOST_BATCH_WORDS ≤ words.room },
}

impl Returning {
    /// All changes of a batch.
    pub fn all(changes: Changes) -> Returning
        ensures { result.taken.items ≡ changes.taken.items }
    {
        let Changes { taken, words } = changes;
        Returning { taken, words }
    }

    /// Takes the first change out. None exactly where none is left.
    pub fn take_first(&mut self) -> Option<Taken>
        ensures { MatchOption result
            ((self.old.taken.items ≡ []) × (self.new ≡ self.old))
            (λ t. self.old.taken.items ≡ t ∷ self.new.taken.items) }
    {
        if self.taken.is_empty() {
            None
        } else {
            Some(self.taken.remove(0))
        }
    }

    /// Whether the change out of this slot of the member is one of them.
    pub fn has(&self, member: u32, slot: u32) -> bool
        ensures { result ≡ is_some (taken_in self.now.taken.items member slot) }
    {
        for taken in &self.taken {
            if taken.member == member && taken.slot == slot {
                return true;
            }
        }
        false
    }

    /// Whether all were given back.
    pub fn is_empty(&self) -> bool
        ensures { MatchBool result (self.now.taken.items ≡ []) (self.now.taken.items ≢ []) }
    {
        self.taken.is_empty()
    }

    /// The room, once nothing is left.
    pub fn into_buffer(self) -> BatchBuffer
        requires { self.taken.items ≡ [] }
    {
        let Returning { taken, mut words } = self;
        words.clear();
        BatchBuffer { taken, words }
    }
}
