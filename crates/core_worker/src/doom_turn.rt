// The turn that dooms the names that vanish with a cleaned chunk.
ghost use Rattle.std.specs.Prelude.{◌≡◌, ℕ, ◌≤◌, ◌<◌, ◌∷◌, length, vec_capacity, Option};
ghost use Rattle.pm_region.specs.State.{State};
ghost use Rattle.group_laws.specs.Places.{Place as PlaceOf, IsPlace, core_of};
ghost use Rattle.group_laws.specs.State.{Group};
ghost use Rattle.group_laws.specs.MemberViews.{View};
ghost use Rattle.group_board.specs.Seats.{SeatAt};
ghost use Rattle.group_laws.specs.Runs as runs;
ghost use Rattle.group_board.specs.Told.{Makes};
ghost use Rattle.group_board.specs.Trails.{step_with};
ghost use Rattle.core_worker.specs.declared.worker.Worker.{Worker};
ghost use Rattle.core_worker.specs.DoomsNames.{DoomsIn, HasDoomed, MayDoom};
ghost use Rattle.core_worker.specs.GoneMail.{names_of};
ghost use Rattle.core_worker.specs.Left.{left};
ghost use Rattle.core_worker.specs.LogNames.{AreOwnOf};
ghost use Rattle.core_worker.specs.Order.{InOrder};
ghost use Rattle.core_worker.specs.Ties.{Holds, HoldsAt, StandsAt};
ghost use Rattle.core_worker.specs.Turning.{KeepsTurn};
ghost use Rattle.core_worker.specs.Turns.{InOrderAt, Steps};

use crate::cleaning_parts::doom_names;
use chunk_map::Layout;
use core_log::CoreLog;
use group_board::Board;
use log_cleaner::Clearing;
use log_entry::EntryName;
use log_standing::Standing;
use pm_region::Region;
use store_image::geometry::owner;

// Notes which of the names are of the core's own keys.
fn own_names(layout: &Layout, core: u32, names: &[EntryName], own: &mut Vec<EntryName>)
    requires room { length names.now ≤ vec_capacity own.old }
    ensures own { own.new.items ≡ names_of layout.now core names.now }
    ensures places { vec_capacity own.old ≤ vec_capacity own.new }
{
    let geometry = layout.geometry();
    own.clear();
    for name in names {
        if owner(&geometry, name.key) == core {
            own.push(*name).unwrap();
        }
    }
}

// Dooms the dead names that stand in a cleaned chunk alone, and notes which of them are of own keys.
pub(crate) fn doom_chunk<R: Region, B: Board>(
    region: &R,
    board: &mut B,
    log: &CoreLog,
    standing: &Standing,
    clearing: &mut Clearing,
    own: &mut Vec<EntryName>,
    layout: &Layout,
    core: u32,
)
    requires place { IsPlace (B.seat board.old).place }
    requires layout { layout.now ≡ (B.seat board.old).place.layout }
    requires core { core ≡ core_of (B.seat board.old).place (B.seat board.old).number }
    requires places { clearing.old.room ≤ vec_capacity own.old }
    requires may { MayDoom (R.state region.now) (B.seat board.old) (B.view board.old) log.now
        standing.now clearing.old }
    ensures seat { B.seat board.new ≡ B.seat board.old }
    ensures doomed { HasDoomed (R.state region.now) log.now standing.now clearing.old clearing.new
        (B.view board.old) (B.view board.new) }
    ensures owned { AreOwnOf (B.seat board.old).place (B.seat board.old).number clearing.new.doomed
        own.new.items }
    ensures places { vec_capacity own.old ≤ vec_capacity own.new }
    ensures steps { (B.trail board.new
        ≡ step_with (runs.Kind.Doom clearing.new.doomed) (B.view board.new) ∷ B.trail board.old)
        × (B.at board.new ≡ (R.state region.now).stamp) }
    ensures made { Makes (B.whole board.old) (B.seat board.old).number
        (runs.Kind.Doom clearing.new.doomed) (B.whole board.new) (B.view board.new) }
{
    doom_names(region, board, log, standing, clearing);
    own_names(layout, core, clearing.doomed_of(), own);
}

/// What the doom of a cleaned chunk's names leaves: all that a turn keeps, as a move that answers nothing; and less is
/// left to do.
pub fn every_doom()
    ensures keeps { (seat : SeatAt) (s : State) (before after : Option Group) (v u : View)
        (w x : Worker) → HoldsAt seat v w → StandsAt s seat v w → InOrderAt seat v w
        → DoomsIn s seat.place seat.number v u w x → Steps before after seat.number u
        → KeepsTurn seat s s before after v u w x }
    ensures less { (s : State) (p : PlaceOf) (m : ℕ) (v u : View) (w x : Worker) → Holds p m v w
        → InOrder p m v w → DoomsIn s p m v u w x → left x < left w }
{}
