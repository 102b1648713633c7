// What a stopped core does with its own changes: it takes back what is posted, and answers what is staged.
ghost use Rattle.std.specs.Prelude.{◌≡◌, ◌<◌, true, false, length, is_ok, IfSome, MatchOption, Option, Some, None, OnErr, OnOk};
ghost use Rattle.batch_leader.specs.declared.states.Collecting.{Collecting};
ghost use Rattle.pm_region.specs.State.{State};
ghost use Rattle.core_index.specs.Records.{pointer_of};
ghost use Rattle.lazy_alloc.specs.Sets.{AreSets, block_is_used};
ghost use Rattle.batch_leader.specs.TurnSteps.{LoadsThenOne};
ghost use Rattle.core_worker.specs.Turning.{TiedAt};
ghost use Rattle.core_worker.specs.declared.types.Leading.TheVariants as leads;
ghost use Rattle.core_worker.specs.OwnPlaces.{place_at, key_in, is_busy, is_free, is_of, is_staged};
ghost use Rattle.core_worker.specs.Refusals.{HasAnswerRoom};
ghost use Rattle.core_worker.specs.Supplies.{HasKeptRoom};
ghost use Rattle.core_worker.specs.Ties.{HoldsAt, HoldsBy, StandsAt, Tie};
ghost use Rattle.core_worker.specs.Order.{InOrderBy};
ghost use Rattle.core_worker.specs.Finishing.{IsServed};
ghost use Rattle.core_worker.specs.Stopping.{DropsStaged, FreesBySight, PutsAway, PutsAwayKey, Retracts, staged_block, Unlocks, WithdrawsOrUnlocks};
ghost use Rattle.core_worker.specs.Turns.{InOrderAt, Steps};
ghost use Rattle.core_worker.specs.Left.{left, Lowers};

use crate::finish_item::put_back;
use crate::lead_items::led_by;
use crate::post_item::place_in;
use crate::types::{Leading, Place};
use crate::worker::Worker;
use fs_model::{Key, Memory, Reply};
use group_board::{Board, Change};
use group_laws::group_sizes::SLOTS;
use log_entry::{Body, Entry};
use pm_region::Region;
use std::alloc::Global;
use std::mem;

fn pointer_of(body: &Body) -> Option<u64>
    ensures { result ≡ pointer_of body.now }
{
    match body {
        Body::Pointer(pointer) => Some(*pointer),
        Body::Embedded(_) => None,
        Body::Tombstone => None,
    }
}

// The block of a staged change.
fn block_in(place: &Place) -> Option<u64>
    ensures { result ≡ staged_block place.now }
{
    match place {
        Place::Free => None,
        Place::Staged { entry, .. } => pointer_of(&entry.body),
        Place::Posted { .. } => None,
    }
}

// Whose change stands in a place.
fn key_in(place: &Place) -> Option<Key>
    ensures { result ≡ key_in place.now }
{
    match place {
        Place::Free => None,
        Place::Staged { entry, .. } => Some(entry.key),
        Place::Posted { key, .. } => Some(*key),
    }
}

// Whether a change of the key stands in a place.
fn has_key(place: &Place, key: Key) -> bool
    ensures { result ≡ is_of key (key_in place.now) }
{
    match key_in(place) {
        None => false,
        Some(other) => key == other,
    }
}

// The place of a key's change.
fn place_with(places: &Vec<Place>, key: Key) -> u32
    requires eight { length places.now.items ≡ SLOTS }
    requires busy { is_busy places.now.items key ≡ true }
    ensures place { key_in (place_at places.now.items result) ≡ Some key }
    ensures within { result < SLOTS }
{
    for slot in 0..SLOTS {
        if has_key(place_in(places, slot), key) {
            return slot;
        }
    }
    unreachable!()
}

impl Worker {
    // Puts a block back, frees a place, and answers the request whose change stood in it.
    fn put_away(&mut self, slot: u32, block: Option<u64>)
        requires slot { slot < length self.old.places.items }
        requires taken { is_free (place_at self.old.places.items slot) ≡ false }
        requires room { HasAnswerRoom 1 self.old }
        requires sets { AreSets self.old.allocator }
        requires used { IfSome block (λ q. block_is_used self.old.allocator q ≡ true) }
        ensures { PutsAway self.old self.new slot block }
    {
        put_back(&mut self.allocator, block);
        self.let_go(slot, Reply::Stopped);
    }

    // Takes the staged change of a place out of it.
    fn drop_out(&mut self, slot: u32) -> Key
        requires tied { (t : Tie) × HoldsBy t self.old × InOrderBy t self.old }
        requires stopped { self.old.stopped ≡ true }
        requires slot { slot < SLOTS }
        requires staged { is_staged (place_at self.old.places.items slot) ≡ true }
        ensures key { key_in (place_at self.old.places.items slot) ≡ Some result }
        ensures puts { PutsAway self.old self.new slot
            (staged_block (place_at self.old.places.items slot)) }
        ensures freed { FreesBySight self.old self.new result }
    {
        let key = key_in(place_in(&self.places, slot)).unwrap();
        let block = block_in(place_in(&self.places, slot));
        self.put_away(slot, block);
        key
    }

    // Answers the staged change of a place, and begins what waits of its key.
    pub(crate) fn drop_staged<R: Region>(
        &mut self,
        alloc: Global,
        region: &R,
        slot: u32,
    ) -> Result<(), Memory>
        requires tied { (t : Tie) × IsServed (R.state region.now) self.old t }
        requires stopped { self.old.stopped ≡ true }
        requires slot { slot < SLOTS }
        requires staged { is_staged (place_at self.old.places.items slot) ≡ true }
        ensures ties { (s : State) (t : Tie) → IsServed s self.old t → IsServed s self.new t }
        ensures rule { HasKeptRoom self.old → HasKeptRoom self.new }
        ensures drops { DropsStaged (R.state region.now) slot self.old self.new (is_ok result) }
        ensures memory { OnErr result (self.new.winds_down ≡ true) }
        ensures awake { OnErr result (self.old.winds_down ≡ false) }
        ensures less { left self.new < left self.old }
        ensures works { OnOk result (self.new.winds_down ≡ self.old.winds_down) }
    {
        let key = self.drop_out(slot);
        self.serve(alloc, region, key)
    }

    // Puts a change away that was withdrawn.
    fn put_by(&mut self, entry: Entry)
        requires eight { length self.old.places.items ≡ SLOTS }
        requires busy { is_busy self.old.places.items entry.key ≡ true }
        requires room { HasAnswerRoom 1 self.old }
        requires sets { AreSets self.old.allocator }
        requires used { IfSome (pointer_of entry.body)
            (λ q. block_is_used self.old.allocator q ≡ true) }
        ensures { PutsAwayKey self.old self.new entry.key (pointer_of entry.body) }
    {
        let slot = place_with(&self.places, entry.key);
        let block = pointer_of(&entry.body);
        self.put_away(slot, block);
    }

    // Takes the lowest own change back that nobody had taken, or gives the lock back where there is none.
    fn retract<B: Board>(&mut self, board: &mut B) -> Option<Change>
        requires holds { HoldsAt (B.seat board.old) (B.view board.old) self.old }
        requires order { InOrderAt (B.seat board.old) (B.view board.old) self.old }
        requires collects { (c : Collecting) × (self.old.leading ≡ leads.Collecting c) }
        requires stopped { self.old.stopped ≡ true }
        ensures seat { B.seat board.new ≡ B.seat board.old }
        ensures retracts { MatchOption result
            (Unlocks (B.seat board.old) (B.whole board.old) (B.whole board.new)
            (B.view board.old) (B.view board.new) self.old self.new)
            (Retracts (B.seat board.old) (B.whole board.old) (B.whole board.new)
            (B.view board.old) (B.view board.new) self.old self.new) }
        ensures less { result ≡ None
            → Lowers (B.whole board.old) (B.whole board.new) self.old self.new }
        ensures steps { LoadsThenOne (B.view board.old) (B.view board.new)
            (B.trail board.old) (B.trail board.new) }
    {
        match mem::replace(&mut self.leading, Leading::Between) {
            Leading::Collecting(mut collecting) => match collecting.withdraw_own(board) {
                Some(change) => {
                    self.leading = Leading::Collecting(collecting);
                    return Some(change);
                }
                None => {
                    self.leading = led_by(collecting.release(board));
                    return None;
                }
            },
            _ => unreachable!(),
        }
    }

    // Takes the lowest own change back that nobody had taken, answers it and begins what waits of its key. Where there
    // is none it gives the lock back.
    pub(crate) fn withdraw<R: Region, B: Board>(
        &mut self,
        alloc: Global,
        region: &R,
        board: &mut B,
    ) -> Result<(), Memory>
        requires tied { TiedAt (R.state region.now) (B.seat board.old)
            (B.view board.old) self.old }
        requires collects { (c : Collecting) × (self.old.leading ≡ leads.Collecting c) }
        requires stopped { self.old.stopped ≡ true }
        ensures seat { B.seat board.new ≡ B.seat board.old }
        ensures holds { HoldsAt (B.seat board.old) (B.view board.new) self.new }
        ensures stands { StandsAt (R.state region.now) (B.seat board.old)
            (B.view board.new) self.new }
        ensures order { InOrderAt (B.seat board.old) (B.view board.new) self.new }
        ensures rule { HasKeptRoom self.old → HasKeptRoom self.new }
        ensures withdraws { WithdrawsOrUnlocks (R.state region.now) (B.seat board.old)
            (B.whole board.old) (B.whole board.new) (B.view board.old) (B.view board.new)
            self.old self.new (is_ok result) }
        ensures memory { OnErr result (self.new.winds_down ≡ true) }
        ensures awake { OnErr result (self.old.winds_down ≡ false) }
        ensures made { Steps (B.whole board.old) (B.whole board.new) (B.seat board.old).number
            (B.view board.new) }
        ensures steps { LoadsThenOne (B.view board.old) (B.view board.new)
            (B.trail board.old) (B.trail board.new) }
        ensures less { Lowers (B.whole board.old) (B.whole board.new) self.old self.new }
        ensures works { OnOk result (self.new.winds_down ≡ self.old.winds_down) }
    {
        match self.retract(board) {
            None => {
                return Ok(());
            }
            Some(change) => {
                let key = change.entry.key;
                self.put_by(change.entry);
                return self.serve(alloc, region, key);
            }
        }
    }
}
