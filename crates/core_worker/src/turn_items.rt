// One turn of a worker.
ghost use Rattle.std.specs.Prelude.{◌≡◌, ◌<◌, Bool, true, false, Option, [], ◌∷◌, OnErr, OnOk};
ghost use Rattle.pm_region.specs.State.{State};
ghost use Rattle.group_laws.specs.State.{Group};
ghost use Rattle.group_laws.specs.MemberViews.{View};
ghost use Rattle.batch_leader.specs.declared.states.Batch.{Batch};
ghost use Rattle.batch_leader.specs.declared.states.Collecting.{Collecting};
ghost use Rattle.core_worker.specs.declared.types.Leading.TheVariants as leads;
ghost use Rattle.core_worker.specs.OwnPlaces.{place_at, is_staged};
ghost use Rattle.core_worker.specs.Refusals.{IsMeasured};
ghost use Rattle.core_worker.specs.declared.types.Cleaning.TheVariants.{Nothing};
ghost use Rattle.core_worker.specs.Supplies.{room_for, under_way, HasKeptRoom};
ghost use Rattle.batch_leader.specs.TurnSteps.{TurnSteps, trail_with};
ghost use Rattle.batch_leader.specs.Persisting.{StaysLicensed, WritesPart};
ghost use Rattle.core_worker.specs.Posting.{HasNoBlock, PostsOrStops};
ghost use Rattle.core_worker.specs.Ties.{HoldsAt, StandsAt, LeadsNothing};
ghost use Rattle.core_worker.specs.Turns.{InOrderAt, PassesPost};
ghost use Rattle.core_worker.specs.Turning.{TiedAt, MayServe, ServesTurn, HasBatch, KeepsTurn, TurnMoves, Did, Turned, TurnedTo, Tells, at_entry};
ghost use Rattle.core_worker.specs.IndexRoom.{HasJustRoom};
ghost use Rattle.core_worker.specs.Left.{HasOffer, Lowers, Measures, MeasuresTurn, StartsFirst};
ghost use Rattle.core_worker.specs.BeginsCleaning.{BeginsNone};
ghost use Rattle.core_worker.specs.Mails.{PassesMail};
ghost use Rattle.core_worker.specs.Readying.{PassesSending};
ghost use Rattle.core_worker.specs.declared.worker.Worker.{Worker};
ghost use Rattle.core_worker.specs.Resting.{AtRest, IfIdle, IfIdleTurn, TriedAfter, TriedIf};

use crate::choose_item::{Choice, staged_block};
use crate::gate::Gate;
use crate::post_item::place_in;
use crate::search_places::Search;
use crate::types::{Leading, Turn};
use crate::worker::Worker;
use core_log::Room;
use fs_model::Memory;
use group_board::Board;
use group_laws::group_sizes::SLOTS;
use pm_region::Region;
use std::alloc::Global;

impl Worker {
    // A turn of a core that has a batch to write, or changes to give back.
    fn serve_batch<R: Region, B: Board>(
        &mut self,
        region: &mut R,
        board: &mut B,
    ) -> Result<(), Memory>
        requires tied { TiedAt (R.state region.old) (B.seat board.old)
            (B.view board.old) self.old }
        requires batch { HasBatch self.old.leading }
        ensures serves { (passes : Bool) → ServesTurn passes result
            (B.seat board.old) (B.seat board.new) (R.state region.old) (R.state region.new)
            (B.whole board.old) (B.whole board.new) (B.view board.old) (B.view board.new)
            self.old self.new (trail_with (B.trail board.old) (B.at board.old))
            (trail_with (B.trail board.new) (B.at board.new)) }
        ensures did { (refused : Bool) → Did (R.state region.old) (R.state region.new) refused
            (B.whole board.old)
            (B.seat board.old) (at_entry self.old (B.view board.old))
            (at_entry self.new (B.view board.new)) }
        ensures less { Lowers (B.whole board.old) (B.whole board.new) self.old self.new }
    {
        match &self.leading {
            Leading::Batch(_) => {
                self.write_batch(region, board);
                return self.renew_names();
            }
            Leading::Persisted(_) => {
                self.mark_next(board);
                return Ok(());
            }
            Leading::Failed(_) => {
                self.fail_next(board);
                return Ok(());
            }
            _ => unreachable!(),
        }
    }

    // Posts the change that is staged in a place, after its block where it has one.
    fn post<R: Region, B: Board>(&mut self, region: &mut R, board: &mut B, slot: u32)
        requires may { MayServe (R.state region.old) (B.seat board.old)
            (B.view board.old) self.old }
        requires runs { self.old.stopped ≡ false }
        requires slot { slot < SLOTS }
        requires staged { is_staged (place_at self.old.places.items slot) ≡ true }
        ensures seat { B.seat board.new ≡ B.seat board.old }
        ensures keeps { KeepsTurn (B.seat board.old) (R.state region.old) (R.state region.new)
            (B.whole board.old) (B.whole board.new) (B.view board.old) (B.view board.new)
            self.old self.new }
        ensures posts { PostsOrStops (B.seat board.old).number (B.whole board.old)
            (B.whole board.new) (B.view board.old) (B.view board.new) self.old self.new slot }
        ensures plain { HasNoBlock (place_at self.old.places.items slot)
            → R.state region.new ≡ R.state region.old }
        ensures calm { self.new.stopped ≡ false
            → (R.state region.new).faults ≡ (R.state region.old).faults }
        ensures steps { TurnSteps true (R.state region.old) (R.state region.new)
            (B.view board.old) (B.view board.new)
            (trail_with (B.trail board.old) (B.at board.old))
            (trail_with (B.trail board.new) (B.at board.new)) }
    {
        match staged_block(place_in(&self.places, slot)) {
            Some(pointer) => {
                self.post_block(region, board, slot, pointer);
                return;
            }
            None => {
                self.post_staged(&*region, board, slot);
                return;
            }
        }
    }

    // Tries the lock, where an own change was found that nobody had taken.
    pub(crate) fn serve_lock<B: Board>(&mut self, board: &mut B, posted: bool) -> Turn
        requires holds { HoldsAt (B.seat board.old) (B.view board.old) self.old }
        requires order { InOrderAt (B.seat board.old) (B.view board.old) self.old }
        requires nothing { LeadsNothing self.old }
        requires clean { under_way self.old ≡ Nothing }
        ensures seat { B.seat board.new ≡ B.seat board.old }
        ensures keeps { (s : State) → StandsAt s (B.seat board.old) (B.view board.old) self.old
            → KeepsTurn (B.seat board.old) s s (B.whole board.old) (B.whole board.new)
            (B.view board.old) (B.view board.new) self.old self.new }
        ensures turned { (s : State) (refused : Bool) (before : Option Group) (v : View)
            (w y : Worker) → PassesPost refused w
            → (tells : Tells posted (B.seat board.old).number w v (B.view board.old))
            → PassesMail (B.seat board.old).place (B.seat board.old).number w tells.0.looked.looks
            → PassesSending (B.seat board.old).place (B.seat board.old).number w y
            tells.0.looked.looks
            → BeginsNone s y self.old
            → Turned result s s refused before (B.seat board.old) (at_entry w v)
            (at_entry self.new (B.view board.new)) }
        ensures less { (posted ≡ true → HasOffer (B.whole board.old) (B.seat board.old).number)
            → MeasuresTurn result (B.whole board.old) (B.whole board.new) self.old self.new }
        ensures starts { StartsFirst self.new }
        ensures tries { IfIdleTurn result (TriedIf posted (B.seat board.old).number
            (B.whole board.old) (B.whole board.new) (B.view board.new)) }
        ensures works { self.new.winds_down ≡ self.old.winds_down }
        ensures steps { (passes : Bool) (s : State) → TurnSteps passes s s
            (B.view board.old) (B.view board.new)
            (trail_with (B.trail board.old) (B.at board.old))
            (trail_with (B.trail board.new) (B.at board.new)) }
    {
        if !posted {
            return Turn::Idle;
        }
        if self.try_lead(board) {
            return Turn::Moved;
        }
        Turn::Idle
    }

    // Posts the lowest staged change, or does what comes behind: mail, what waits to be sent, a cleaning, the lock. A stopped
    // core answers the change instead.
    fn serve_staged<R: Region, B: Board, G: Gate>(
        &mut self,
        alloc: Global,
        region: &mut R,
        board: &mut B,
        gate: &G,
        posted: bool,
    ) -> Result<Turn, Memory>
        requires may { MayServe (R.state region.old) (B.seat board.old)
            (B.view board.old) self.old }
        ensures serves { ServesTurn (G.may_pass gate.now) result
            (B.seat board.old) (B.seat board.new) (R.state region.old) (R.state region.new)
            (B.whole board.old) (B.whole board.new) (B.view board.old) (B.view board.new)
            self.old self.new (trail_with (B.trail board.old) (B.at board.old))
            (trail_with (B.trail board.new) (B.at board.new)) }
        ensures turned { (before : Option Group) (v : View)
            → Tells posted (B.seat board.old).number self.old v (B.view board.old)
            → TurnedTo result (R.state region.old) (R.state region.new) (G.may_refuse gate.now)
            before (B.seat board.old) (at_entry self.old v) (at_entry self.new (B.view board.new)) }
        ensures less { (posted ≡ true → HasOffer (B.whole board.old) (B.seat board.old).number)
            → Measures result (B.whole board.old) (B.whole board.new) self.old self.new }
        ensures tries { IfIdle result (TriedAfter posted (B.seat board.old).number
            (B.whole board.old) (B.whole board.new) (B.view board.old) (B.view board.new)) }
    {
        match self.choose(gate) {
            Choice::Pass => {
                return self.serve_mail(alloc, region, board, posted);
            }
            Choice::Drop(slot) => match self.drop_staged(alloc, &*region, slot) {
                Ok(()) => {
                    return Ok(Turn::Moved);
                }
                Err(memory) => {
                    return Err(memory);
                }
            },
            Choice::Post(slot) => {
                self.post(region, board, slot);
                return Ok(Turn::Moved);
            }
        }
    }

    // A turn of a core that leads nothing: it looks for a change that is given back, and else goes on with its places.
    fn serve_own<R: Region, B: Board, G: Gate>(
        &mut self,
        alloc: Global,
        region: &mut R,
        board: &mut B,
        gate: &G,
    ) -> Result<Turn, Memory>
        requires may { MayServe (R.state region.old) (B.seat board.old)
            (B.view board.old) self.old }
        ensures serves { ServesTurn (G.may_pass gate.now) result
            (B.seat board.old) (B.seat board.new) (R.state region.old) (R.state region.new)
            (B.whole board.old) (B.whole board.new) (B.view board.old) (B.view board.new)
            self.old self.new (trail_with (B.trail board.old) (B.at board.old))
            (trail_with (B.trail board.new) (B.at board.new)) }
        ensures turned { TurnedTo result (R.state region.old) (R.state region.new)
            (G.may_refuse gate.now) (B.whole board.old) (B.seat board.old) (at_entry self.old (B.view board.old))
            (at_entry self.new (B.view board.new)) }
        ensures less { Measures result (B.whole board.old) (B.whole board.new)
            self.old self.new }
        ensures idles { IfIdle result (AtRest (G.may_refuse gate.now) (B.seat board.old)
            (B.whole board.old) (B.whole board.new) (B.view board.old) (B.view board.new)
            self.old self.new) }
    {
        match self.find_back(board) {
            Search::Back(slot) => match self.take_back(alloc, &*region, board, slot) {
                Ok(()) => {
                    return Ok(Turn::Moved);
                }
                Err(memory) => {
                    return Err(memory);
                }
            },
            Search::Out { posted } => {
                return self.serve_staged(alloc, region, board, gate, posted);
            }
        }
    }

    // What it tells a leader of its room.
    pub(crate) fn room(&self) -> Room
        requires measured { IsMeasured self.now }
        requires layout { self.now.log.layout ≡ self.now.layout }
        ensures { result ≡ room_for self.now }
    {
        let supply = self.supply();
        Room {
            open_lines: supply.open_lines,
            free_chunks: supply.free_chunks,
            pledged_lines: supply.pledged(),
            payload_lines: self.layout.payload_lines(),
        }
    }

    // Goes on with the round, as a core that runs.
    fn serve_round<B: Board>(&mut self, board: &mut B)
        requires holds { HoldsAt (B.seat board.old) (B.view board.old) self.old }
        requires order { InOrderAt (B.seat board.old) (B.view board.old) self.old }
        requires collects { (c : Collecting) × (self.old.leading ≡ leads.Collecting c) }
        requires runs { self.old.stopped ≡ false }
        ensures seat { B.seat board.new ≡ B.seat board.old }
        ensures keeps { (s : State) → StandsAt s (B.seat board.old) (B.view board.old) self.old
            → KeepsTurn (B.seat board.old) s s (B.whole board.old) (B.whole board.new)
            (B.view board.old) (B.view board.new) self.old self.new }
        ensures did { (s : State) (refused : Bool) → Did s s refused (B.whole board.old)
            (B.seat board.old) (at_entry self.old (B.view board.old))
            (at_entry self.new (B.view board.new)) }
        ensures less { HasKeptRoom self.old → StartsFirst self.old
            → Lowers (B.whole board.old) (B.whole board.new) self.old self.new }
        ensures starts { StartsFirst self.new }
        ensures works { self.new.winds_down ≡ self.old.winds_down }
        ensures steps { (passes : Bool) (s : State) → TurnSteps passes s s
            (B.view board.old) (B.view board.new)
            (trail_with (B.trail board.old) (B.at board.old))
            (trail_with (B.trail board.new) (B.at board.new)) }
    {
        let room = self.room();
        self.go_round(board, &room);
    }

    // Goes on with the round, or, as a stopped core, takes an own change back.
    fn serve_collecting<R: Region, B: Board>(
        &mut self,
        alloc: Global,
        region: &R,
        board: &mut B,
    ) -> Result<(), Memory>
        requires tied { TiedAt (R.state region.now) (B.seat board.old)
            (B.view board.old) self.old }
        requires collects { (c : Collecting) × (self.old.leading ≡ leads.Collecting c) }
        ensures serves { (passes : Bool) → ServesTurn passes result
            (B.seat board.old) (B.seat board.new) (R.state region.now) (R.state region.now)
            (B.whole board.old) (B.whole board.new) (B.view board.old) (B.view board.new)
            self.old self.new (trail_with (B.trail board.old) (B.at board.old))
            (trail_with (B.trail board.new) (B.at board.new)) }
        ensures did { (refused : Bool) → Did (R.state region.now) (R.state region.now) refused
            (B.whole board.old)
            (B.seat board.old) (at_entry self.old (B.view board.old))
            (at_entry self.new (B.view board.new)) }
        ensures less { (self.old.stopped ≡ false → HasKeptRoom self.old) → StartsFirst self.old
            → Lowers (B.whole board.old) (B.whole board.new) self.old self.new }
    {
        if self.stopped {
            return self.withdraw(alloc, region, board);
        }
        self.serve_round(board);
        Ok(())
    }
}

impl Worker {
    /// Makes a turn: it does all of the first item of the order of work that applies, and answers Idle where none did.
    /// Where there is no memory for the answer to a request that waited, that request is in hand, and the worker winds
    /// down; so it does where there is none for what it has to tell other members.
    pub fn turn<R: Region, B: Board, G: Gate>(
        &mut self,
        alloc: Global,
        region: &mut R,
        board: &mut B,
        gate: &G,
    ) -> Result<Turn, Memory>
        requires holds { HoldsAt (B.seat board.old) (B.view board.old) self.old }
        requires stands { StandsAt (R.state region.old) (B.seat board.old)
            (B.view board.old) self.old }
        requires order { InOrderAt (B.seat board.old) (B.view board.old) self.old }
        ensures seat { B.seat board.new ≡ B.seat board.old }
        ensures moments { StaysLicensed (R.state region.old) (R.state region.new)
            (B.seat board.old) (B.view board.old) }
        ensures outside { WritesPart (R.state region.old) (R.state region.new) (B.seat board.old) }
        ensures holds { HoldsAt (B.seat board.old) (B.view board.new) self.new }
        ensures stands { StandsAt (R.state region.new) (B.seat board.old)
            (B.view board.new) self.new }
        ensures order { InOrderAt (B.seat board.old) (B.view board.new) self.new }
        ensures rule { self.new.stopped ≡ false → HasKeptRoom self.old → HasKeptRoom self.new }
        ensures moves { TurnMoves (B.seat board.old)
            (R.state region.old) (R.state region.new) (B.whole board.old) (B.whole board.new)
            (B.view board.old) (B.view board.new) self.old self.new }
        ensures turned { TurnedTo result (R.state region.old) (R.state region.new)
            (G.may_refuse gate.now) (B.whole board.old) (B.seat board.old) (at_entry self.old (B.view board.old))
            (at_entry self.new (B.view board.new)) }
        ensures memory { OnErr result (self.new.winds_down ≡ true) }
        ensures awake { OnErr result (self.old.winds_down ≡ false) }
        ensures less { (self.old.stopped ≡ false → HasKeptRoom self.old) → StartsFirst self.old
            → Measures result (B.whole board.old) (B.whole board.new) self.old self.new }
        ensures starts { StartsFirst self.new }
        ensures idles { IfIdle result (AtRest (G.may_refuse gate.now) (B.seat board.old)
            (B.whole board.old) (B.whole board.new) (B.view board.old) (B.view board.new)
            self.old self.new) }
        ensures works { OnOk result (self.new.winds_down ≡ self.old.winds_down) }
        ensures just { HasJustRoom self.old → HasJustRoom self.new }
        ensures steps { TurnSteps (G.may_pass gate.now) (R.state region.old) (R.state region.new)
            (B.view board.old) (B.view board.new)
            (trail_with (B.trail board.old) (B.at board.old))
            (trail_with (B.trail board.new) (B.at board.new)) }
    {
        match &self.leading {
            Leading::Nothing(_) => {
                return self.serve_own(alloc, region, board, gate);
            }
            Leading::Collecting(_) => match self.serve_collecting(alloc, &*region, board) {
                Ok(()) => {
                    return Ok(Turn::Moved);
                }
                Err(memory) => {
                    return Err(memory);
                }
            },
            _ => match self.serve_batch(region, board) {
                Ok(()) => {
                    return Ok(Turn::Moved);
                }
                Err(memory) => {
                    return Err(memory);
                }
            },
        }
    }
}
