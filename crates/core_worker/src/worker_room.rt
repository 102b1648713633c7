// What room a core has, and what it has promised.
ghost use Rattle.std.specs.Prelude.{◌≡◌, ◌⊎◌, ℕ, ◌+◌, ◌*◌, ◌^◌, ◌<◌, ◌≤◌, length, true, Some, None, IfOk, IfErr, OnOk};
ghost use Rattle.chunk_map.specs.Layouts.{is_class};
ghost use Rattle.core_room.specs.RoomRule.{pledged};
ghost use Rattle.core_worker.specs.OwnPlaces.{lines_in, own};
ghost use Rattle.core_worker.specs.Supplies.{supply_of, under_way, rest, IsSmall, free_blocks, lacks, counted_by, no_more_than};
ghost use Rattle.core_worker.specs.Refusals.{IsCounted, AreCounted, IsMeasured};

use crate::types::{Cleaning, Place, Victim};
use crate::worker::Worker;
use core_room::{Shortage, Supply, lines_to_copy};
use group_laws::group_sizes::SLOTS;
use log_entry::{LONGEST_ENTRY_LINES, entry_lines};
use log_standing::Amount;
use std::cmp::min;

// The lines of the log that a place pledges.
fn lines_in(place: &Place) -> u64
    requires { IsCounted place.now }
    ensures lines { result ≡ lines_in place.now }
    ensures few { result ≤ LONGEST_ENTRY_LINES }
{
    match place {
        Place::Free => 0,
        Place::Staged { entry, .. } => entry_lines(entry),
        Place::Posted { lines, .. } => *lines,
    }
}

// The lines that all places pledge.
fn own_lines(places: &Vec<Place>) -> u64
    requires each { AreCounted places.now.items }
    requires eight { length places.now.items ≡ SLOTS }
    ensures lines { result ≡ own places.now.items }
    ensures few { result ≤ SLOTS * LONGEST_ENTRY_LINES }
{
    let mut lines = 0;
    for place in places {
        lines += lines_in(place);
    }
    lines
}

// The lines that a cleaning has still to copy.
fn copy_lines(cleaning: &Cleaning) -> u64
    requires { IsSmall cleaning.now }
    ensures lines { result ≡ rest cleaning.now }
    ensures few { result < 2 ^ 32 }
{
    match cleaning {
        Cleaning::Nothing => 0,
        Cleaning::Copying { victim, .. } => lines_to_copy(victim.entries, victim.words),
        Cleaning::Doomed { .. } => 0,
    }
}

// What is left of a victim's chunk: no more than is counted of it.
fn no_more_than(left: Option<Amount>, victim: Victim) -> Victim
    ensures { result ≡ no_more_than left victim }
{
    match left {
        None => victim,
        Some(left) => Victim {
            chunk: victim.chunk,
            entries: min(victim.entries, left.entries),
            words: min(victim.words, left.words),
        },
    }
}

// The cleaning with what is still to be copied, where so much is counted of its chunk.
fn counted_by(left: Option<Amount>, cleaning: Cleaning) -> Cleaning
    ensures { result ≡ counted_by left cleaning }
{
    match cleaning {
        Cleaning::Nothing => Cleaning::Nothing,
        Cleaning::Copying { victim, first } => Cleaning::Copying {
            victim: no_more_than(left, victim),
            first,
        },
        Cleaning::Doomed { chunk } => Cleaning::Doomed { chunk },
    }
}

impl Worker {
    // The cleaning that the core goes on with.
    pub(crate) fn under_way(&self) -> Cleaning
        ensures { result ≡ under_way self.now }
    {
        if self.stopped {
            return Cleaning::Nothing;
        }
        if self.winds_down {
            return Cleaning::Nothing;
        }
        counted_by(self.standing.left(), self.cleaning)
    }

    // The room of the core at this moment.
    pub(crate) fn supply(&self) -> Supply
        requires { IsMeasured self.now }
        ensures supply { result ≡ supply_of self.now }
        ensures few { pledged result < 2 ^ 33 }
    {
        let cleaning = self.under_way();
        Supply {
            free_chunks: self.allocator.free_chunks(),
            open_lines: self.log.room(),
            own_lines: own_lines(&self.places),
            rest_lines: copy_lines(&cleaning),
        }
    }

    fn free_blocks(&self, class: u32) -> u32
        requires { (class ≡ 0) ⊎ (is_class self.now.allocator.layout class ≡ true) }
        ensures { result ≡ free_blocks self.now.allocator class }
    {
        if class == 0 {
            0
        } else {
            self.allocator.free_blocks(class)
        }
    }

    // What room there is, where an entry of so many lines finds place, with a block of the class or none; else why not.
    pub(crate) fn supply_for(&self, need: u64, class: u32) -> Result<Supply, Shortage>
        requires measured { IsMeasured self.now }
        requires few { need ≤ LONGEST_ENTRY_LINES }
        requires class { (class ≡ 0) ⊎ (is_class self.now.allocator.layout class ≡ true) }
        ensures supply { IfOk result (λ supply. supply ≡ supply_of self.now) }
        ensures few { IfOk result (λ supply. pledged supply < 2 ^ 33) }
        ensures fits { OnOk result
            (lacks (supply_of self.now) self.now.allocator need class ≡ None) }
        ensures lacks { IfErr result (λ shortage.
            lacks (supply_of self.now) self.now.allocator need class ≡ Some shortage) }
    {
        let free = self.free_blocks(class);
        let supply = self.supply();
        match supply.shortage(need, class, free) {
            Some(shortage) => Err(shortage),
            None => Ok(supply),
        }
    }
}
