// Posting a staged change.
ghost use Rattle.std.specs.Prelude.{◌≡◌, ◌≢◌, ◌⊎◌, ℕ, ◌+◌, ◌≤◌, ◌<◌, Bool, true, false, List, [], ◌∷◌, length, Option, Some, None, OnOk, OnErr, not};
ghost use Rattle.pm_region.specs.State.{State, During, IsTelling, cell_now, Faulted};
ghost use Rattle.pm_region.specs.Words.{KeepsOutside, EachIn};
ghost use Rattle.log_entry.specs.declared.entry.Entry.{Entry};
ghost use Rattle.log_entry.specs.declared.entry.Body.TheVariants as bodies;
ghost use Rattle.chunk_map.specs.Layouts.{has_class};
ghost use Rattle.lazy_alloc.specs.Sets.{AreSets, free_chunk_count, free_block_count, class_at, block_is_used};
ghost use Rattle.lazy_alloc.specs.Written.{PartLies, HasHead, WroteValue, KeepsOthers, HeadTurnsTo, head_of};
ghost use Rattle.group_laws.specs.Places.{IsPlace, core_of};
ghost use Rattle.licence.specs.Licence.{Licensed, part_at, part_end};
ghost use Rattle.group_laws.specs.Runs as runs;
ghost use Rattle.group_board.specs.Views.{after_post};
ghost use Rattle.group_board.specs.Told.{Makes};
ghost use Rattle.batch_leader.specs.declared.batch_buffer.BatchBuffer.{BatchBuffer};
ghost use Rattle.core_worker.specs.declared.types.Leading.TheVariants as leads;
ghost use Rattle.core_worker.specs.declared.types.Place.TheVariants as kinds;
ghost use Rattle.core_worker.specs.OwnPlaces.{is_staged, place_at, Replaces};
ghost use Rattle.core_worker.specs.Supplies.{HasKeptRoom};
ghost use Rattle.batch_leader.specs.Persisting.{StaysLicensed, WritesPart};
ghost use Rattle.core_worker.specs.Ties.{HoldsAt, LeadsNothing, Stands, StandsAt};
ghost use Rattle.core_worker.specs.Turns.{InOrderAt};
ghost use Rattle.core_worker.specs.WorkerMoves.{hands_of, WorkerMoves};
ghost use Rattle.batch_leader.specs.TurnSteps.{OneHanded, TurnSteps, trail_with};
ghost use Rattle.core_worker.specs.Posting.{PostsPlain, IsStagedWith, WouldStand, PostsOrStops};

use crate::types::Place;
use crate::worker::Worker;
use group_board::{Board, Change};
use group_laws::group_sizes::SLOTS;
use lazy_alloc::Allocator;
use log_entry::entry_lines;
use pm_region::{Region, RegionFault};
use std::mem;

// Writes the value of a change that isn't posted yet into its block. It's licensed throughout, and in the end by the
// view that the post makes.
fn write_for<R: Region, B: Board>(
    allocator: &mut Allocator,
    region: &mut R,
    board: &B,
    pointer: u64,
    value: &[u8],
) -> Result<(), RegionFault>
    requires place { IsPlace (B.seat board.now).place }
    requires sets { AreSets allocator.old }
    requires layout { allocator.old.layout ≡ (B.seat board.now).place.layout }
    requires part { allocator.old.part
        ≡ core_of (B.seat board.now).place (B.seat board.now).number }
    requires used { block_is_used allocator.old pointer ≡ true }
    requires class { (class : ℕ) × (class_at allocator.old pointer ≡ Some class)
        × (has_class (length value.now) class ≡ true)
        × HasHead (R.state region.old) allocator.old pointer class }
    requires lies { PartLies (R.state region.old).frame allocator.old }
    requires unused { (B.view board.now).blocks pointer ≡ None }
    requires licensed { IsTelling (R.state region.old)
        → Licensed (B.seat board.now).place (B.seat board.now).number (B.view board.now)
        (cell_now (R.state region.old)) }
    ensures moments { StaysLicensed (R.state region.old) (R.state region.new)
        (B.seat board.now) (B.view board.now) }
    ensures outside { WritesPart (R.state region.old) (R.state region.new) (B.seat board.now) }
    ensures others { (class : ℕ) → class_at allocator.old pointer ≡ Some class
        → During (R.state region.old) (R.state region.new)
        (KeepsOthers allocator.old pointer class (cell_now (R.state region.old))) }
    ensures head { (class : ℕ) → class_at allocator.old pointer ≡ Some class
        → During (R.state region.old) (R.state region.new)
        (EachIn (head_of allocator.old pointer) (head_of allocator.old pointer + 2)
        (HeadTurnsTo allocator.old pointer class)) }
    ensures exit { OnOk result ((slot : ℕ) (e : Entry) → e.body ≡ bodies.Pointer pointer
        → IsTelling (R.state region.new)
        → Licensed (B.seat board.now).place (B.seat board.now).number
        (after_post slot e value.now (B.view board.now)) (cell_now (R.state region.new))) }
    ensures sets { AreSets allocator.new }
    ensures ok { OnOk result ((class : ℕ) → class_at allocator.old pointer ≡ Some class
        → WroteValue (R.state region.new) allocator.old allocator.new pointer class value.now) }
    ensures err { OnErr result (allocator.new ≡ allocator.old) }
    ensures cause { OnErr result (Faulted (R.state region.old) (R.state region.new)) }
{
    allocator.write_value(region, pointer, value)
}

// Puts another one into a place.
pub(crate) fn swap_place(places: &mut Vec<Place>, slot: u32, place: Place) -> Place
    requires { slot < length places.old.items }
    ensures was { result ≡ place_at places.old.items slot }
    ensures now { Replaces places.old.items places.new.items slot place }
{
    let at = &mut places[slot as usize];
    mem::replace(at, place)
}

pub(crate) fn place_in(places: &Vec<Place>, slot: u32) -> &Place
    requires { slot < length places.now.items }
    ensures { result.now ≡ place_at places.now.items slot }
{
    &places[slot as usize]
}

impl Worker {
    // Writes the block of the change that is staged in a place. It answers false where that failed, or where the
    // region counted a fault meanwhile, whatever it answered: then the core stops.
    fn write_staged<R: Region, B: Board>(
        &mut self,
        region: &mut R,
        board: &B,
        slot: u32,
        pointer: u64,
    ) -> bool
        requires holds { HoldsAt (B.seat board.now) (B.view board.now) self.old }
        requires stands { StandsAt (R.state region.old) (B.seat board.now)
            (B.view board.now) self.old }
        requires runs { self.old.stopped ≡ false }
        requires nothing { LeadsNothing self.old }
        requires slot { slot < SLOTS }
        requires staged { IsStagedWith (place_at self.old.places.items slot) pointer }
        ensures moments { StaysLicensed (R.state region.old) (R.state region.new)
            (B.seat board.now) (B.view board.now) }
        ensures outside { WritesPart (R.state region.old) (R.state region.new) (B.seat board.now) }
        ensures holds { HoldsAt (B.seat board.now) (B.view board.now) self.new }
        ensures ready { result ≡ true → WouldStand (R.state region.new) (B.seat board.now).place
            (B.seat board.now).number (B.view board.now) self.new slot
            (place_at self.old.places.items slot) }
        ensures stands { result ≡ false → StandsAt (R.state region.new) (B.seat board.now)
            (B.view board.now) self.new }
        ensures rest { self.new
            ≡ record self.old { allocator = self.new.allocator; stopped = not result } }
        ensures chunks { free_chunk_count self.new.allocator
            ≡ free_chunk_count self.old.allocator }
        ensures blocks { (class : ℕ) → free_block_count self.new.allocator class
            ≡ free_block_count self.old.allocator class }
        ensures cause { result ≡ false → Faulted (R.state region.old) (R.state region.new) }
        ensures calm { result ≡ true
            → (R.state region.new).faults ≡ (R.state region.old).faults }
    {
        let before = region.faults();
        match place_in(&self.places, slot) {
            Place::Staged { value, .. } => {
                match write_for(&mut self.allocator, region, board, pointer, value.bytes()) {
                    Ok(()) => {
                        if region.faults() == before {
                            return true;
                        }
                        self.stopped = true;
                        false
                    }
                    Err(_) => {
                        self.stopped = true;
                        false
                    }
                }
            }
            _ => unreachable!(),
        }
    }

    // Posts the change that is staged in a place. Where it has a block, that is written.
    pub(crate) fn post_staged<R: Region, B: Board>(&mut self, region: &R, board: &mut B, slot: u32)
        requires holds { HoldsAt (B.seat board.old) (B.view board.old) self.old }
        requires runs { self.old.stopped ≡ false }
        requires nothing { LeadsNothing self.old }
        requires slot { slot < SLOTS }
        requires staged { is_staged (place_at self.old.places.items slot) ≡ true }
        ensures seat { B.seat board.new ≡ B.seat board.old }
        ensures holds { HoldsAt (B.seat board.old) (B.view board.new) self.new }
        ensures stands { (s : State) → WouldStand s (B.seat board.old).place
            (B.seat board.old).number (B.view board.old) self.old slot
            (place_at self.old.places.items slot)
            → Stands s (B.seat board.old).place (B.seat board.old).number
            (B.view board.new) self.new }
        ensures rule { HasKeptRoom self.old → HasKeptRoom self.new }
        ensures posts { PostsPlain (B.seat board.old).number (B.whole board.old)
            (B.whole board.new) (B.view board.old) (B.view board.new) self.old self.new slot }
        ensures step { OneHanded (R.state region.now).stamp (B.view board.new)
            (B.trail board.old)
            (trail_with (B.trail board.new) (B.at board.new)) }
    {
        match swap_place(&mut self.places, slot, Place::Free) {
            Place::Staged {
                number,
                entry,
                value,
            } => {
                let key = entry.key;
                let lines = entry_lines(&entry);
                let change = Change { entry, home: None };
                board.post(region, slot, change, value.bytes());
                let posted = Place::Posted { number, key, lines };
                let _free = swap_place(&mut self.places, slot, posted);
            }
            _ => unreachable!(),
        }
    }

    // Writes the block of the change that is staged in a place, and posts the change. After a fault the core stops, and
    // the change stays staged.
    pub(crate) fn post_block<R: Region, B: Board>(
        &mut self,
        region: &mut R,
        board: &mut B,
        slot: u32,
        pointer: u64,
    )
        requires holds { HoldsAt (B.seat board.old) (B.view board.old) self.old }
        requires stands { StandsAt (R.state region.old) (B.seat board.old)
            (B.view board.old) self.old }
        requires runs { self.old.stopped ≡ false }
        requires nothing { LeadsNothing self.old }
        requires slot { slot < SLOTS }
        requires staged { IsStagedWith (place_at self.old.places.items slot) pointer }
        ensures seat { B.seat board.new ≡ B.seat board.old }
        ensures moments { StaysLicensed (R.state region.old) (R.state region.new)
            (B.seat board.old) (B.view board.old) }
        ensures outside { WritesPart (R.state region.old) (R.state region.new) (B.seat board.old) }
        ensures holds { HoldsAt (B.seat board.old) (B.view board.new) self.new }
        ensures stands { StandsAt (R.state region.new) (B.seat board.old)
            (B.view board.new) self.new }
        ensures rule { HasKeptRoom self.old → HasKeptRoom self.new }
        ensures posts { PostsOrStops (B.seat board.old).number (B.whole board.old)
            (B.whole board.new) (B.view board.old) (B.view board.new) self.old self.new slot }
        ensures moves { WorkerMoves (B.seat board.old).place (B.seat board.old).number
            (R.state region.old) (R.state region.new) (B.whole board.old) (B.whole board.new)
            (B.view board.old) (B.view board.new) (hands_of (B.view board.old) self.old)
            (hands_of (B.view board.new) self.new) [] [] }
        ensures order { InOrderAt (B.seat board.old) (B.view board.old) self.old
            → InOrderAt (B.seat board.old) (B.view board.new) self.new }
        ensures cause { self.new.stopped ≡ true
            → Faulted (R.state region.old) (R.state region.new) }
        ensures calm { self.new.stopped ≡ false
            → (R.state region.new).faults ≡ (R.state region.old).faults }
        ensures steps { TurnSteps true (R.state region.old) (R.state region.new)
            (B.view board.old) (B.view board.new)
            (trail_with (B.trail board.old) (B.at board.old))
            (trail_with (B.trail board.new) (B.at board.new)) }
    {
        if self.write_staged(region, &*board, slot, pointer) {
            self.post_staged(&*region, board, slot);
        }
    }
}
