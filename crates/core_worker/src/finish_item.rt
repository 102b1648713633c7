// Taking posted changes back that their leader gave back.
ghost use Rattle.std.specs.Prelude.{◌≡◌, ◌∷◌, ◌⊎◌, ◌+◌, ◌<◌, true, false, length, is_ok, IfSome, Some, OnErr, OnOk};
ghost use Rattle.core_worker.specs.Supplies.{HasKeptRoom};
ghost use Rattle.pm_region.specs.State.{State};
ghost use Rattle.group_laws.specs.Places.{Place as PlaceOf, IsPlace, members, core_of};
ghost use Rattle.group_laws.specs.Runs as runs;
ghost use Rattle.group_laws.specs.declared.types.Seen.TheVariants as loads;
ghost use Rattle.group_laws.specs.declared.types.SlotWord.TheVariants as words;
ghost use Rattle.group_board.specs.Told.{Makes};
ghost use Rattle.group_board.specs.Trails.{step_with};
ghost use Rattle.core_worker.specs.Ties.{HoldsAt, LeadsNothing, StandsAt};
ghost use Rattle.core_worker.specs.Turning.{MayServe};
ghost use Rattle.core_worker.specs.Turns.{InOrderAt};
ghost use Rattle.core_index.specs.Index.{known_at, room_at};
ghost use Rattle.core_index.specs.Records.{last_of, block_of};
ghost use Rattle.lazy_alloc.specs.Sets.{AreSets, block_is_used};
ghost use Rattle.core_worker.specs.OwnPlaces.{place_at, is_free};
ghost use Rattle.core_worker.specs.Refusals.{HasAnswerRoom};
ghost use Rattle.core_worker.specs.Finishing.{done_reply, FinishesSlot, IsFreed, LetsGo, PutsBackIf, Settles, StopsByFailed, TakesBackKey, WasFoundBack};
ghost use Rattle.core_worker.specs.Left.{Lowers};

use crate::hearing::hear_own;
use crate::post_item::swap_place;
use crate::types::Place;
use crate::worker::Worker;
use fs_model::{Key, Memory, Reply};
use group_board::{Board, Change};
use group_laws::group_sizes::SLOTS;
use lazy_alloc::Allocator;
use log_entry::{Body, Entry};
use pm_region::Region;
use std::alloc::Global;

// The reply to a request whose change is done.
fn done_reply(body: &Body) -> Reply
    ensures { result ≡ done_reply body.now }
{
    match body {
        Body::Pointer(_) => Reply::Stored,
        Body::Embedded(_) => Reply::Stored,
        Body::Tombstone => Reply::Deleted,
    }
}

// The core that another member is, by that of one.
fn core_beside(core: u32, member: u32, home: u32) -> u32
    requires { (p : PlaceOf) × IsPlace p × (core ≡ core_of p member) × (home < members p) }
    ensures { (p : PlaceOf) → core ≡ core_of p member → result ≡ core_of p home }
{
    core - member + home
}

// Puts a block back, where there is one.
pub(crate) fn put_back(allocator: &mut Allocator, block: Option<u64>)
    requires sets { AreSets allocator.old }
    requires used { IfSome block (λ q. block_is_used allocator.old q ≡ true) }
    ensures sets { AreSets allocator.new }
    ensures puts { PutsBackIf allocator.old allocator.new block }
{
    if let Some(pointer) = block {
        allocator.put_back(pointer);
    }
}

impl Worker {
    // Frees a place, and answers the request whose change stood in it.
    pub(crate) fn let_go(&mut self, slot: u32, reply: Reply)
        requires slot { slot < length self.old.places.items }
        requires taken { is_free (place_at self.old.places.items slot) ≡ false }
        requires room { HasAnswerRoom 1 self.old }
        ensures frees { LetsGo self.old self.new slot reply }
    {
        match swap_place(&mut self.places, slot, Place::Free) {
            Place::Free => unreachable!(),
            Place::Staged { number, .. } => {
                self.answer(number, reply, None);
                return;
            }
            Place::Posted { number, .. } => {
                self.answer(number, reply, None);
                return;
            }
        }
    }

    // Records a change whose entry is certain in the log of this core. The block that it replaced is put back.
    fn settle(&mut self, entry: Entry, home: u32)
        requires room { 0 < room_at self.old.index entry.key }
        requires next { entry.version ≡ last_of (known_at self.old.index entry.key) + 1 }
        requires sets { AreSets self.old.allocator }
        requires used { IfSome (block_of (known_at self.old.index entry.key))
            (λ q. block_is_used self.old.allocator q ≡ true) }
        ensures { Settles self.old self.new entry home }
    {
        let replaced = self.index.settle(entry, home);
        hear_own(&mut self.index, &mut self.standing, self.core);
        put_back(&mut self.allocator, replaced);
    }

    // Takes the change of a slot that was found given back out of its place: it is settled where it is done, and else
    // the core stops.
    fn take_out<B: Board>(&mut self, board: &mut B, slot: u32) -> Key
        requires holds { HoldsAt (B.seat board.old) (B.view board.old) self.old }
        requires order { InOrderAt (B.seat board.old) (B.view board.old) self.old }
        requires nothing { LeadsNothing self.old }
        requires slot { slot < SLOTS }
        requires seen { WasFoundBack (B.seat board.old).number slot (B.view board.old) }
        ensures seat { B.seat board.new ≡ B.seat board.old }
        ensures freed { IsFreed (B.seat board.old).place (B.seat board.old).number
            (B.view board.old) (B.view board.new) self.old self.new result }
        ensures takes { TakesBackKey (B.seat board.old).place (B.seat board.old).number slot
            (B.view board.old) (B.view board.new) self.old self.new result }
        ensures cause { StopsByFailed (B.whole board.old) (B.seat board.old).number
            self.old self.new }
        ensures step { B.trail board.new
            ≡ step_with (runs.Kind.Finish slot) (B.view board.new) ∷ B.trail board.old }
        ensures made { Makes (B.whole board.old) (B.seat board.old).number
            (runs.Kind.Finish slot) (B.whole board.new) (B.view board.new) }
    {
        let Change { entry, home } = board.finish(slot);
        let key = entry.key;
        match home {
            None => {
                self.stopped = true;
                self.let_go(slot, Reply::Stopped);
                return key;
            }
            Some(home) => {
                let reply = done_reply(&entry.body);
                let core = core_beside(self.core, board.member(), home);
                self.settle(entry, core);
                self.let_go(slot, reply);
                return key;
            }
        }
    }

    // Finishes the change of a slot that was found given back, and begins what waits of its key.
    pub(crate) fn take_back<R: Region, B: Board>(
        &mut self,
        alloc: Global,
        region: &R,
        board: &mut B,
        slot: u32,
    ) -> Result<(), Memory>
        requires may { MayServe (R.state region.now) (B.seat board.old)
            (B.view board.old) self.old }
        requires slot { slot < SLOTS }
        requires seen { WasFoundBack (B.seat board.old).number slot (B.view board.old) }
        ensures seat { B.seat board.new ≡ B.seat board.old }
        ensures holds { HoldsAt (B.seat board.old) (B.view board.new) self.new }
        ensures stands { StandsAt (R.state region.now) (B.seat board.old)
            (B.view board.new) self.new }
        ensures order { InOrderAt (B.seat board.old) (B.view board.new) self.new }
        ensures rule { HasKeptRoom self.old → HasKeptRoom self.new }
        ensures finishes { FinishesSlot (R.state region.now) (B.seat board.old).place
            (B.seat board.old).number slot (B.view board.old) (B.view board.new)
            self.old self.new (is_ok result) }
        ensures memory { OnErr result (self.new.winds_down ≡ true) }
        ensures awake { OnErr result (self.old.winds_down ≡ false) }
        ensures cause { StopsByFailed (B.whole board.old) (B.seat board.old).number
            self.old self.new }
        ensures step { B.trail board.new
            ≡ step_with (runs.Kind.Finish slot) (B.view board.new) ∷ B.trail board.old }
        ensures made { Makes (B.whole board.old) (B.seat board.old).number
            (runs.Kind.Finish slot) (B.whole board.new) (B.view board.new) }
        ensures less { Lowers (B.whole board.old) (B.whole board.new) self.old self.new }
        ensures works { OnOk result (self.new.winds_down ≡ self.old.winds_down) }
    {
        let key = self.take_out(board, slot);
        self.serve(alloc, region, key)
    }
}
