// What a leader took, until it is written.
ghost use Rattle.std.specs.Prelude.{◌≡◌, ◌≢◌, ℕ, ◌+◌, ◌*◌, ◌≤◌, ◌<◌, List, [], ◌∷◌, ◌++◌, length, vec_capacity, MatchOption};
ghost use Rattle.log_entry.specs.Spelling.{words_of, HasSpelling};
ghost use Rattle.log_entry.specs.declared.entry_limits.TheConstants.{LONGEST_ENTRY, MOST_ENTRIES, MOST_BATCH_WORDS};
ghost use Rattle.batch_leader.specs.TakenChanges.{name_in, spelled, MatchBool};

use crate::batch_buffer::BatchBuffer;
use crate::taken::Taken;
use group_board::Change;
use log_entry::{EntryName, MOST_BATCH_WORDS, MOST_ENTRIES, WordBuffer, entry_words, write_entry};

/// The changes that a leader took, in order, with the words of their entries.
#[derive(Drop)]
pub struct Changes {
    /// Has room for as many as a batch may have.
    pub taken: Vec<Taken>,
    /// The spellings of their entries, one behind the other. Has room for those of the largest batch.
    pub words: WordBuffer,
    ghost places: { MOST_ENTRIES ≤ vec_capacity taken },
    ghost room: { MOST_BATCH_WORDS ≤ words.room },
    ghost few: { length taken.items ≤ MOST_ENTRIES },
    ghost short: { length words.words ≤ LONGEST_ENTRY * length taken.items },
    ghost written: { words.words ≡ spelled taken.items },
}

impl Changes {
    /// No change yet.
    pub fn none(buffer: BatchBuffer) -> Changes
        ensures { result.taken.items ≡ [] }
    {
        let BatchBuffer { taken, words } = buffer;
        Changes { taken, words }
    }

    /// The room, where nothing was taken.
    pub fn into_buffer(self) -> BatchBuffer
        requires { self.taken.items ≡ [] }
    {
        let Changes { taken, mut words } = self;
        words.clear();
        BatchBuffer { taken, words }
    }

    /// How many changes.
    pub fn count(&self) -> u32
        ensures { result ≡ length self.now.taken.items }
    {
        self.taken.len() as u32
    }

    /// Whether nothing was taken.
    pub fn is_empty(&self) -> bool
        ensures { MatchBool result (self.now.taken.items ≡ []) (self.now.taken.items ≢ []) }
    {
        self.taken.is_empty()
    }

    /// How many words their entries have together.
    pub fn word_count(&self) -> u64
        ensures count { result ≡ length (spelled self.now.taken.items) }
        ensures few { result ≤ MOST_BATCH_WORDS }
    {
        self.words.words().len() as u64
    }

    /// Appends a change, with the words of its entry.
    pub fn add(&mut self, member: u32, slot: u32, change: Change)
        requires few { length self.old.taken.items < MOST_ENTRIES }
        requires spelled { HasSpelling change.entry }
        ensures { self.new.taken.items
            ≡ self.old.taken.items ++ (record {
              member = member;
              slot = slot;
              change = change;
            }) ∷ [] }
    {
        let _words = entry_words(&change.entry);
        write_entry(&change.entry, &mut self.words);
        let taken = Taken {
            member,
            slot,
            change,
        };
        self.taken.push(taken).unwrap();
    }

    /// The name of the entry with this number, counted from 0, and none exactly past the last one.
    pub fn name_at(&self, at: u64) -> Option<EntryName>
        ensures { result ≡ name_in self.now.taken.items at }
    {
        match self.taken.get(at as usize) {
            None => None,
            Some(taken) => Some(EntryName {
                key: taken.change.entry.key,
                version: taken.change.entry.version,
            }),
        }
    }
}
