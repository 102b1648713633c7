// What a turn does for a cleaning under way.
ghost use Rattle.std.specs.Prelude.{◌≡◌, ◌≢◌, ℕ, Bool, true, Option};
ghost use Rattle.group_laws.specs.State.{Group};
ghost use Rattle.group_laws.specs.MemberViews.{View};
ghost use Rattle.batch_leader.specs.TurnSteps.{trail_with};
ghost use Rattle.core_worker.specs.declared.types.Cleaning.TheVariants.{Nothing, Copying, Doomed};
ghost use Rattle.core_worker.specs.Left.{HasOffer, Measures};
ghost use Rattle.core_worker.specs.Mails.{PassesMail};
ghost use Rattle.core_worker.specs.Readying.{PassesSending};
ghost use Rattle.core_worker.specs.declared.worker.Worker.{Worker};
ghost use Rattle.core_worker.specs.Resting.{IfIdle, TriedIf};
ghost use Rattle.core_worker.specs.Supplies.{under_way};
ghost use Rattle.core_worker.specs.Turning.{CleansOn, TiedAt, MayServe, ServesTurn, TurnedTo, Tells, at_entry};
ghost use Rattle.core_worker.specs.Turns.{PassesPost};

use crate::clear_turn::end_cleaning;
use crate::doom_turn::doom_chunk;
use crate::gone_mail::file_gone;
use crate::types::{Cleaning, Turn, Victim};
use crate::worker::Worker;
use fs_model::Memory;
use group_board::Board;
use pm_region::Region;
use std::alloc::Global;
use std::mem;

impl Worker {
    // Dooms the names that vanish with a chunk of which nothing is left to be copied.
    fn doom<R: Region, B: Board>(&mut self, region: &R, board: &mut B, victim: &Victim)
        requires tied { TiedAt (R.state region.now) (B.seat board.old)
            (B.view board.old) self.old }
        requires copied { (first : Bool) × (under_way self.old ≡ Copying victim.now first)
            × (victim.now.entries ≡ 0) }
        ensures { CleansOn (B.seat board.old) (B.seat board.new)
            (R.state region.now) (R.state region.now) (B.whole board.old) (B.whole board.new)
            (B.view board.old) (B.view board.new) self.old self.new
            (trail_with (B.trail board.old) (B.at board.old))
            (trail_with (B.trail board.new) (B.at board.new)) }
    {
        match mem::replace(&mut self.clearing, None) {
            Some(mut clearing) => {
                doom_chunk(
                    region,
                    board,
                    &self.log,
                    &self.standing,
                    &mut clearing,
                    &mut self.own_gone,
                    &self.layout,
                    self.core,
                );
                self.clearing = Some(clearing);
                self.cleaning = Cleaning::Doomed {
                    chunk: victim.chunk,
                };
            }
            None => unreachable!(),
        }
    }

    // Ends the cleaning whose names are doomed: its chunk is free again, and what stood there alone is gone, which waits to
    // be told to the owners of other keys. After a fault the core stops.
    fn end_clean<R: Region, B: Board>(&mut self, region: &mut R, board: &mut B)
        requires tied { TiedAt (R.state region.old) (B.seat board.old)
            (B.view board.old) self.old }
        requires dooms { (j : ℕ) × (under_way self.old ≡ Doomed j) }
        ensures { CleansOn (B.seat board.old) (B.seat board.new)
            (R.state region.old) (R.state region.new) (B.whole board.old) (B.whole board.new)
            (B.view board.old) (B.view board.new) self.old self.new
            (trail_with (B.trail board.old) (B.at board.old))
            (trail_with (B.trail board.new) (B.at board.new)) }
    {
        match mem::replace(&mut self.clearing, None) {
            Some(clearing) => match end_cleaning(
                region,
                board,
                &mut self.log,
                &mut self.allocator,
                &mut self.standing,
                &mut self.index,
                &mut self.places,
                self.core,
                clearing,
                self.own_gone.as_slice(),
            ) {
                Ok(cleared) => {
                    file_gone(
                        &self.layout,
                        self.core,
                        cleared.gone.as_slice(),
                        &mut self.notices,
                    );
                    self.cleaning = Cleaning::Nothing;
                }
                Err(_fault) => {
                    self.stopped = true;
                }
            },
            None => unreachable!(),
        }
    }

    // Begins a cleaning, or tries the lock, as a core that cleans nothing. Without memory for a cleaning it winds down.
    fn serve_begin<R: Region, B: Board>(
        &mut self,
        alloc: Global,
        region: &R,
        board: &mut B,
        posted: bool,
    ) -> Result<Turn, Memory>
        requires may { MayServe (R.state region.now) (B.seat board.old)
            (B.view board.old) self.old }
        requires clean { under_way self.old ≡ Nothing }
        ensures serves { (passes : Bool) → ServesTurn passes result
            (B.seat board.old) (B.seat board.new) (R.state region.now) (R.state region.now)
            (B.whole board.old) (B.whole board.new) (B.view board.old) (B.view board.new)
            self.old self.new (trail_with (B.trail board.old) (B.at board.old))
            (trail_with (B.trail board.new) (B.at board.new)) }
        ensures turned { (refused : Bool) (before : Option Group) (v : View) (w : Worker)
            → PassesPost refused w
            → (tells : Tells posted (B.seat board.old).number w v (B.view board.old))
            → PassesMail (B.seat board.old).place (B.seat board.old).number w tells.0.looked.looks
            → PassesSending (B.seat board.old).place (B.seat board.old).number w self.old
            tells.0.looked.looks
            → TurnedTo result (R.state region.now) (R.state region.now) refused before
            (B.seat board.old) (at_entry w v) (at_entry self.new (B.view board.new)) }
        ensures less { (posted ≡ true → HasOffer (B.whole board.old) (B.seat board.old).number)
            → Measures result (B.whole board.old) (B.whole board.new) self.old self.new }
        ensures tries { IfIdle result (TriedIf posted (B.seat board.old).number
            (B.whole board.old) (B.whole board.new) (B.view board.new)) }
    {
        match self.begin_next(alloc, region) {
            Ok(begun) => {
                if begun {
                    return Ok(Turn::Moved);
                }
                let turn = self.serve_lock(board, posted);
                return Ok(turn);
            }
            Err(memory) => {
                return Err(memory);
            }
        }
    }

    // Goes on with a cleaning under way, begins one, or tries the lock, where an own change was found that nobody had
    // taken.
    pub(crate) fn serve_cleaning<R: Region, B: Board>(
        &mut self,
        alloc: Global,
        region: &mut R,
        board: &mut B,
        posted: bool,
    ) -> Result<Turn, Memory>
        requires may { MayServe (R.state region.old) (B.seat board.old)
            (B.view board.old) self.old }
        ensures serves { (passes : Bool) → ServesTurn passes result
            (B.seat board.old) (B.seat board.new) (R.state region.old) (R.state region.new)
            (B.whole board.old) (B.whole board.new) (B.view board.old) (B.view board.new)
            self.old self.new (trail_with (B.trail board.old) (B.at board.old))
            (trail_with (B.trail board.new) (B.at board.new)) }
        ensures turned { (refused : Bool) (before : Option Group) (v : View) (w : Worker)
            → PassesPost refused w
            → (tells : Tells posted (B.seat board.old).number w v (B.view board.old))
            → PassesMail (B.seat board.old).place (B.seat board.old).number w tells.0.looked.looks
            → PassesSending (B.seat board.old).place (B.seat board.old).number w self.old
            tells.0.looked.looks
            → TurnedTo result (R.state region.old) (R.state region.new) refused before
            (B.seat board.old) (at_entry w v) (at_entry self.new (B.view board.new)) }
        ensures less { (posted ≡ true → HasOffer (B.whole board.old) (B.seat board.old).number)
            → Measures result (B.whole board.old) (B.whole board.new) self.old self.new }
        ensures tries { IfIdle result (TriedIf posted (B.seat board.old).number
            (B.whole board.old) (B.whole board.new) (B.view board.new)) }
    {
        match self.under_way() {
            Cleaning::Nothing => {
                return self.serve_begin(alloc, &*region, board, posted);
            }
            Cleaning::Copying { victim, first } => {
                if victim.entries == 0 {
                    self.doom(&*region, board, &victim);
                    return Ok(Turn::Moved);
                }
                self.copy(region, board, victim, first);
                return Ok(Turn::Moved);
            }
            Cleaning::Doomed { .. } => {
                self.end_clean(region, board);
                return Ok(Turn::Moved);
            }
        }
    }
}
