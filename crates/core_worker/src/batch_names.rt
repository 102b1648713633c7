// The names of a batch's entries, which stand in the own log once it is certain.
ghost use Rattle.std.specs.Prelude.{◌≡◌, ◌+◌, ◌≤◌, true, false, length, OnOk, OnErr};
ghost use Rattle.batch_leader.specs.TakenChanges.{entries_taken};
ghost use Rattle.core_worker.specs.StandingTies.{AddsNames, SameNames, most_names};

use crate::worker::Worker;
use batch_leader::Batch;
use fs_model::Memory;
use log_entry::MOST_ENTRIES;
use log_standing::Standing;

/// As many names as a batch may have.
pub(crate) const MOST_NAMES: u64 = MOST_ENTRIES as u64;

// Adds the names of a batch's entries.
fn add_names(standing: &mut Standing, batch: &Batch)
    requires room { most_names ≤ standing.old.room }
    ensures adds { AddsNames standing.old standing.new
        (entries_taken batch.now.changes.taken.items) }
    ensures count { length standing.new.entries
        ≤ length standing.old.entries + length batch.now.changes.taken.items }
{
    for at in 0..MOST_NAMES {
        if let Some(name) = batch.name_at(at) {
            standing.add(name);
        }
    }
}

// The same, where they are needed.
pub(crate) fn note_names(standing: &mut Standing, batch: &Batch, needed: bool)
    requires room { needed ≡ true → most_names ≤ standing.old.room }
    ensures adds { needed ≡ true → AddsNames standing.old standing.new
        (entries_taken batch.now.changes.taken.items) }
    ensures count { length standing.new.entries
        ≤ length standing.old.entries + length batch.now.changes.taken.items }
{
    if needed {
        add_names(standing, batch);
    }
}

impl Worker {
    // Makes sure of the places for the names of the next batch. Where there is no memory for them the worker winds
    // down; one that winds down or has stopped needs none.
    pub(crate) fn renew_names(&mut self) -> Result<(), Memory>
        ensures rest { self.new ≡ record self.old {
          standing = self.new.standing;
          winds_down = self.new.winds_down;
        } }
        ensures names { SameNames self.old.standing self.new.standing }
        ensures count { length self.new.standing.entries ≡ length self.old.standing.entries }
        ensures room { self.new.stopped ≡ false → self.new.winds_down ≡ false
            → most_names ≤ self.new.standing.room }
        ensures works { OnOk result (self.new.winds_down ≡ self.old.winds_down) }
        ensures memory { OnErr result (self.new.winds_down ≡ true) }
        ensures awake { OnErr result (self.old.winds_down ≡ false) }
        ensures winds { self.old.winds_down ≡ true → self.new.winds_down ≡ true }
        ensures still { self.old.stopped ≡ true → self.new ≡ self.old }
    {
        if self.stopped || self.winds_down {
            return Ok(());
        }
        match self.standing.reserve(MOST_NAMES) {
            Ok(()) => Ok(()),
            Err(memory) => {
                self.winds_down = true;
                Err(memory)
            }
        }
    }
}
