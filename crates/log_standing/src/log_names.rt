// The names of a log's entries, as they are found.
ghost use Rattle.std.specs.Prelude.{◌≡◌, ℕ, ◌<◌, ◌&&◌, ◌++◌, ◌∷◌, [], Bool, is_some, None, IfOk};
ghost use Rattle.core_log.specs.Log.{LogState, IsOwn};
ghost use Rattle.log_standing.specs.ChunkCounts.{chunks_in};
ghost use Rattle.log_standing.specs.NameCounts.{copies_at, count_of, floor_at, is_told};
ghost use Rattle.log_standing.specs.Killing.{Answers};
ghost use Rattle.log_standing.specs.Notes.{IsNote, AreOfLog, noted_as};

use crate::name_item::{CHUNK_NUMBERS, NameItem};
use crate::name_table::NameTable;
use crate::standing_names::Standing;
use fs_model::Memory;
use log_entry::EntryName;
use std::alloc::Global;
use std::marker::Model;

/// The names of a log's entries, each with the chunk in which it was found: what a `Standing` is made of, in 16 bytes an
/// entry.
#[derive(Drop)]
pub struct LogNames {
    items: Vec<NameItem>,
}

impl Model for LogNames {
    ghost use Rattle.std.specs.Prelude.{List, map};
    ghost use Rattle.std.specs.List.{All};
    ghost use Rattle.log_standing.specs.NameItems.{Fits};
    ghost use Rattle.log_standing.specs.Notes.{Noted, note_of};

    ghost Value = { List Noted };

    ghost view = { λ a. map note_of a.items.items };

    ghost invariant = { λ a. All Fits a.items.items };
}

// The item of a name in a chunk.
fn noted(name: EntryName, chunk: u32) -> NameItem
    requires { chunk < CHUNK_NUMBERS }
    ensures { IsNote result name chunk }
{
    NameItem {
        key: name.key,
        version: name.version,
        count: 1,
        chunk: chunk as u8,
        words: 0,
        dead: false,
    }
}

impl LogNames {
    /// No names, and no room for any.
    pub fn none(alloc: Global) -> LogNames
        ensures { result ≡ [] }
    {
        LogNames {
            items: Vec::new(alloc),
        }
    }

    /// No names yet, with room for so many entries.
    pub fn with_room(alloc: Global, entries: usize) -> Result<LogNames, Memory>
        ensures { IfOk result (λ names. names ≡ []) }
    {
        Ok(LogNames {
            items: Vec::with_capacity(alloc, entries)?,
        })
    }

    /// Notes that an entry of this name stands in a chunk.
    pub fn note(&mut self, name: EntryName, chunk: u32) -> Result<(), Memory>
        requires { chunk < CHUNK_NUMBERS }
        ensures { IfOk result (λ _. self.new ≡ self.old ++ noted_as name chunk ∷ []) }
    {
        self.items.push(noted(name, chunk))?;
        Ok(())
    }

    /// What stands in a log of which each entry was noted: of each name in how many chunks, equal entries in one chunk
    /// being one copy. The names are told dead of which `dead` says so. They are put in order where they are: where
    /// they were noted from the last one to the first, that is one pass.
    pub fn standing<F: Fn(EntryName) -> bool>(self, alloc: Global, dead: F) -> Standing
        requires dead { F.IsAlwaysCallable dead }
        ensures told { (f : ℕ → ℕ → Bool) → Answers (F.post dead) f → (k v : ℕ)
            → is_told result k v ≡ (is_some (copies_at result k v) && f k v) }
        ensures settled { result.settled ≡ None }
        ensures floors { (j : ℕ) → floor_at result j ≡ None }
        ensures counts { (image : ℕ → ℕ) (log : LogState) → IsOwn log → AreOfLog image log self
            → (k v : ℕ) → count_of result k v ≡ chunks_in image log k v }
    {
        let mut items = self.items;
        items.reverse();
        let mut table = NameTable::of(items);
        table.kill_where(dead);
        Standing::of(alloc, table)
    }
}
