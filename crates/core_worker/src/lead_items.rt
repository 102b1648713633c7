// What a turn does for the group: trying the lock, collecting, writing the batch, and giving its changes back.
ghost use Rattle.std.specs.Prelude.{◌≡◌, ◌≢◌, ◌⊎◌, ℕ, ◌+◌, ◌≤◌, ◌<◌, Bool, true, false, List, [], ◌∷◌, length, is_some, Option, OnOk, MatchOption};
ghost use Rattle.pm_region.specs.State.{State, During, IsTelling, cell_now, Faulted};
ghost use Rattle.pm_region.specs.Words.{KeepsOutside};
ghost use Rattle.group_laws.specs.Runs as runs;
ghost use Rattle.group_laws.specs.declared.types.Seen.TheVariants as loads;
ghost use Rattle.group_board.specs.Views.{after_lock, after_find};
ghost use Rattle.group_board.specs.Told.{Makes};
ghost use Rattle.batch_leader.specs.Leading.{MakesAll};
ghost use Rattle.batch_leader.specs.TakenChanges.{MatchBool, taken_in};
ghost use Rattle.core_worker.specs.OwnPlaces.{place_at, Replaces};
ghost use Rattle.batch_leader.specs.declared.batch_buffer.BatchBuffer.{BatchBuffer};
ghost use Rattle.batch_leader.specs.declared.states.Collecting.{Collecting};
ghost use Rattle.batch_leader.specs.declared.states.Persisted.{Persisted};
ghost use Rattle.batch_leader.specs.declared.states.FailedBatch.{FailedBatch};
ghost use Rattle.core_worker.specs.declared.types.Leading.TheVariants as leads;
ghost use Rattle.batch_leader.specs.Persisting.{StaysLicensed, WritesPart};
ghost use Rattle.batch_leader.specs.TurnSteps.{LoadsThenOne, TurnSteps, trail_with};
ghost use Rattle.core_worker.specs.Ties.{HoldsAt, KeepsStanding, LeadsNothing, StandsAt};
ghost use Rattle.core_worker.specs.Turns.{TriesLock, GoesRound, Marks, Fails, persisted_left, failed_left, led_by, TakesChunkIf, Steps, MadeOrStops, PersistsOrLoses, unpledged, unpledged_if};
ghost use Rattle.lazy_alloc.specs.Sets.{AreSets};
ghost use Rattle.licence.specs.Licence.{Licensed, part_at, part_end};
ghost use Rattle.batch_leader.specs.declared.states.Batch.{Batch};
ghost use Rattle.core_worker.specs.declared.types.Cleaning.TheVariants.{Nothing};
ghost use Rattle.core_worker.specs.Supplies.{room_for, under_way, HasKeptRoom};
ghost use Rattle.core_worker.specs.StandingTies.{most_names};
ghost use Rattle.core_worker.specs.Left.{Lowers, StartsFirst};

use crate::batch_names::note_names;
use crate::post_item::swap_place;
use crate::types::{Leading, Place};
use crate::worker::Worker;
use batch_leader::{Collected, FailedBatch, Persisted, Released, lead};
use core_log::Room;
use group_board::Board;
use group_laws::group_sizes::SLOTS;
use lazy_alloc::Allocator;
use pm_region::Region;
use std::mem;

// The lowest free chunk, where one is needed.
pub(crate) fn chunk_for(allocator: &mut Allocator, needed: bool) -> Option<u32>
    requires { AreSets allocator.old }
    ensures takes { TakesChunkIf needed allocator.old allocator.new result }
    ensures sets { AreSets allocator.new }
{
    if needed { allocator.take_chunk() } else { None }
}

// What is left of a batch that is certain.
fn still_certain(done: Persisted) -> Leading
    ensures { persisted_left done.left.taken.items result }
{
    if done.is_done() {
        Leading::Nothing(done.done())
    } else {
        Leading::Persisted(done)
    }
}

// What is left of a batch that is lost.
fn still_lost(lost: FailedBatch) -> Leading
    ensures { failed_left lost.left.taken.items result }
{
    if lost.is_done() {
        Leading::Nothing(lost.done())
    } else {
        Leading::Failed(lost)
    }
}

// What is left of a lead that gave the lock back.
pub(crate) fn led_by(released: Released) -> Leading
    ensures { result ≡ led_by released }
{
    match released {
        Released::Batch(batch) => Leading::Batch(batch),
        Released::Nothing(buffer) => Leading::Nothing(buffer),
    }
}

// The same place, where it is posted with nothing pledged any more.
fn unpledged(place: Place) -> Place
    ensures { result ≡ unpledged place }
{
    match place {
        Place::Posted { number, key, .. } => Place::Posted {
            number,
            key,
            lines: 0,
        },
        other => other,
    }
}

fn unpledge_at(places: &mut Vec<Place>, slot: u32)
    requires { slot < length places.old.items }
    ensures { Replaces places.old.items places.new.items slot
        (unpledged (place_at places.old.items slot)) }
{
    let place = swap_place(places, slot, Place::Free);
    let _ = swap_place(places, slot, unpledged(place));
}

// The places of the own changes that are certain pledge nothing any more.
fn unpledge(places: &mut Vec<Place>, done: &Persisted, own: u32)
    requires eight { length places.old.items ≡ SLOTS }
    ensures count { length places.new.items ≡ SLOTS }
    ensures each { (s : ℕ) → s < SLOTS → place_at places.new.items s
        ≡ unpledged_if (is_some (taken_in done.now.left.taken.items own s))
        (place_at places.old.items s) }
{
    for slot in 0..SLOTS {
        if done.has(own, slot) {
            unpledge_at(places, slot);
        }
    }
}

impl Worker {
    // Tries the lock. It answers false where it found a holder.
    pub(crate) fn try_lead<B: Board>(&mut self, board: &mut B) -> bool
        requires holds { HoldsAt (B.seat board.old) (B.view board.old) self.old }
        requires nothing { LeadsNothing self.old }
        requires clean { under_way self.old ≡ Nothing }
        ensures seat { B.seat board.new ≡ B.seat board.old }
        ensures holds { HoldsAt (B.seat board.old) (B.view board.new) self.new }
        ensures stands { KeepsStanding (B.seat board.old) (B.view board.old)
            (B.view board.new) self.old self.new }
        ensures rule { HasKeptRoom self.old → HasKeptRoom self.new }
        ensures tried { TriesLock result (B.seat board.old).number (B.view board.old)
            (B.view board.new) self.old self.new }
        ensures whole { Makes (B.whole board.old) (B.seat board.old).number runs.Kind.Lock
            (B.whole board.new) (B.view board.new) }
        ensures steps { LoadsThenOne (B.view board.old) (B.view board.new)
            (B.trail board.old) (B.trail board.new) }
    {
        match mem::replace(&mut self.leading, Leading::Between) {
            Leading::Nothing(buffer) => match lead(board, buffer) {
                Ok(collecting) => {
                    self.leading = Leading::Collecting(collecting);
                    true
                }
                Err(busy) => {
                    self.leading = Leading::Nothing(busy.buffer);
                    false
                }
            },
            _ => unreachable!(),
        }
    }

    // Gives the next change of a batch that is certain back. With the last one the core leads no more.
    pub(crate) fn mark_next<B: Board>(&mut self, board: &mut B)
        requires holds { HoldsAt (B.seat board.old) (B.view board.old) self.old }
        requires certain { (x : Persisted) × (self.old.leading ≡ leads.Persisted x) }
        ensures seat { B.seat board.new ≡ B.seat board.old }
        ensures holds { HoldsAt (B.seat board.old) (B.view board.new) self.new }
        ensures stands { KeepsStanding (B.seat board.old) (B.view board.old)
            (B.view board.new) self.old self.new }
        ensures made { Steps (B.whole board.old) (B.whole board.new) (B.seat board.old).number
            (B.view board.new) }
        ensures rule { HasKeptRoom self.old → HasKeptRoom self.new }
        ensures marks { Marks (record { worker = self.old; view = B.view board.old })
            (record { worker = self.new; view = B.view board.new }) }
        ensures less { Lowers (B.whole board.old) (B.whole board.new) self.old self.new }
        ensures steps { (passes : Bool) (s : State) → TurnSteps passes s s
            (B.view board.old) (B.view board.new)
            (trail_with (B.trail board.old) (B.at board.old))
            (trail_with (B.trail board.new) (B.at board.new)) }
    {
        match mem::replace(&mut self.leading, Leading::Between) {
            Leading::Persisted(mut done) => {
                let _marked = done.mark_one(board);
                self.leading = still_certain(done);
            }
            _ => unreachable!(),
        }
    }

    // Gives the next change of a batch that is lost back. With the last one the core leads no more.
    pub(crate) fn fail_next<B: Board>(&mut self, board: &mut B)
        requires holds { HoldsAt (B.seat board.old) (B.view board.old) self.old }
        requires lost { (x : FailedBatch) × (self.old.leading ≡ leads.Failed x) }
        ensures seat { B.seat board.new ≡ B.seat board.old }
        ensures holds { HoldsAt (B.seat board.old) (B.view board.new) self.new }
        ensures stands { KeepsStanding (B.seat board.old) (B.view board.old)
            (B.view board.new) self.old self.new }
        ensures made { Steps (B.whole board.old) (B.whole board.new) (B.seat board.old).number
            (B.view board.new) }
        ensures rule { HasKeptRoom self.old → HasKeptRoom self.new }
        ensures fails { Fails (record { worker = self.old; view = B.view board.old })
            (record { worker = self.new; view = B.view board.new }) }
        ensures less { Lowers (B.whole board.old) (B.whole board.new) self.old self.new }
        ensures steps { (passes : Bool) (s : State) → TurnSteps passes s s
            (B.view board.old) (B.view board.new)
            (trail_with (B.trail board.old) (B.at board.old))
            (trail_with (B.trail board.new) (B.at board.new)) }
    {
        match mem::replace(&mut self.leading, Leading::Between) {
            Leading::Failed(mut lost) => {
                let _failed = lost.fail_one(board);
                self.leading = still_lost(lost);
            }
            _ => unreachable!(),
        }
    }

    // Goes on with the round: takes the next change that fits, or gives the lock back where none is left.
    pub(crate) fn go_round<B: Board>(&mut self, board: &mut B, room: &Room)
        requires holds { HoldsAt (B.seat board.old) (B.view board.old) self.old }
        requires collects { (c : Collecting) × (self.old.leading ≡ leads.Collecting c) }
        requires runs { self.old.stopped ≡ false }
        requires room { room.now ≡ room_for self.old }
        ensures seat { B.seat board.new ≡ B.seat board.old }
        ensures holds { HoldsAt (B.seat board.old) (B.view board.new) self.new }
        ensures stands { KeepsStanding (B.seat board.old) (B.view board.old)
            (B.view board.new) self.old self.new }
        ensures made { Steps (B.whole board.old) (B.whole board.new) (B.seat board.old).number
            (B.view board.new) }
        ensures rule { HasKeptRoom self.old → HasKeptRoom self.new }
        ensures went { GoesRound (B.whole board.old) (B.seat board.old)
            (record { worker = self.old; view = B.view board.old })
            (record { worker = self.new; view = B.view board.new }) }
        ensures less { HasKeptRoom self.old → StartsFirst self.old
            → Lowers (B.whole board.old) (B.whole board.new) self.old self.new }
        ensures steps { (passes : Bool) (s : State) → TurnSteps passes s s
            (B.view board.old) (B.view board.new)
            (trail_with (B.trail board.old) (B.at board.old))
            (trail_with (B.trail board.new) (B.at board.new)) }
    {
        match mem::replace(&mut self.leading, Leading::Between) {
            Leading::Collecting(mut collecting) => match collecting.collect(board, room) {
                Collected::Took => {
                    self.leading = Leading::Collecting(collecting);
                }
                Collected::RoundOver => {
                    self.leading = led_by(collecting.release(board));
                }
            },
            _ => unreachable!(),
        }
    }

    // Writes the batch in hand into the own log and commits. After a fault the core stops.
    pub(crate) fn write_batch<R: Region, B: Board>(&mut self, region: &mut R, board: &mut B)
        requires holds { HoldsAt (B.seat board.old) (B.view board.old) self.old }
        requires stands { StandsAt (R.state region.old) (B.seat board.old)
            (B.view board.old) self.old }
        requires batch { (b : Batch) × (self.old.leading ≡ leads.Batch b) }
        requires runs { self.old.stopped ≡ false }
        requires names { self.old.winds_down ≡ false → most_names ≤ self.old.standing.room }
        ensures seat { B.seat board.new ≡ B.seat board.old }
        ensures works { self.new.winds_down ≡ self.old.winds_down }
        ensures moments { StaysLicensed (R.state region.old) (R.state region.new)
            (B.seat board.old) (B.view board.old) }
        ensures outside { WritesPart (R.state region.old) (R.state region.new) (B.seat board.old) }
        ensures holds { HoldsAt (B.seat board.old) (B.view board.new) self.new }
        ensures stands { StandsAt (R.state region.new) (B.seat board.old)
            (B.view board.new) self.new }
        ensures made { MadeOrStops self.new.stopped (B.whole board.old) (B.whole board.new)
            (B.seat board.old).number (B.view board.old) (B.view board.new) }
        ensures cause { self.new.stopped ≡ true
            → Faulted (R.state region.old) (R.state region.new) }
        ensures steps { (passes : Bool) → TurnSteps passes (R.state region.old) (R.state region.new)
            (B.view board.old) (B.view board.new)
            (trail_with (B.trail board.old) (B.at board.old))
            (trail_with (B.trail board.new) (B.at board.new)) }
        // The rule is one of a core that hasn't stopped.
        ensures rule { self.new.stopped ≡ false → HasKeptRoom self.old → HasKeptRoom self.new }
        ensures persists { PersistsOrLoses self.new.stopped (B.seat board.old).number
            (record { worker = self.old; view = B.view board.old })
            (record { worker = self.new; view = B.view board.new }) }
        ensures less { Lowers (B.whole board.old) (B.whole board.new) self.old self.new }
    {
        match mem::replace(&mut self.leading, Leading::Between) {
            Leading::Batch(batch) => {
                let fresh = chunk_for(&mut self.allocator, batch.needs_chunk());
                note_names(&mut self.standing, &batch, !self.winds_down);
                match batch.persist(region, &mut self.log, board, fresh) {
                    Ok(done) => {
                        let own = board.member();
                        unpledge(&mut self.places, &done, own);
                        self.leading = Leading::Persisted(done);
                    }
                    Err(lost) => {
                        self.stopped = true;
                        self.lost_batch = true;
                        self.leading = Leading::Failed(lost);
                    }
                }
            }
            _ => unreachable!(),
        }
    }
}
