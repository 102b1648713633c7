// Parts of a turn that receives, and of one that dooms.
ghost use Rattle.std.specs.Prelude.{◌≡◌, ◌<◌, true, false, ◌∷◌, length};
ghost use Rattle.group_laws.specs.declared.group_sizes.TheConstants.{SLOTS};
ghost use Rattle.group_laws.specs.declared.types.Seen.TheVariants as loads;
ghost use Rattle.group_laws.specs.Places.{members, core_of};
ghost use Rattle.group_laws.specs.Runs as runs;
ghost use Rattle.group_board.specs.Told.{Makes};
ghost use Rattle.group_board.specs.Trails.{step_with};
ghost use Rattle.log_cleaner.specs.Vanishing.{MayGo};
ghost use Rattle.core_worker.specs.GoneNames.{KnowsAll};
ghost use Rattle.core_worker.specs.LogNames.{KnowsBy};
ghost use Rattle.core_worker.specs.CleaningParts.{ReceivesOrLooks};
ghost use Rattle.core_worker.specs.DoomsNames.{HasDoomed, MayDoom};

use crate::log_names::hear_notices;
use crate::types::Place;
use core_index::CoreIndex;
use core_log::CoreLog;
use group_board::Board;
use log_cleaner::Clearing;
use log_standing::Standing;
use pm_region::Region;

// ReceivesOrLooks what a member told, where it told something: dead entries of the own log, and gone ones of own keys. The
// index, the places and the names that stand are then what the view has.
pub(crate) fn receive_from<B: Board>(
    index: &mut CoreIndex,
    standing: &mut Standing,
    places: &mut Vec<Place>,
    core: u32,
    board: &mut B,
    from: u32,
) -> bool
    requires member { (B.seat board.old).number < members (B.seat board.old).place }
    requires sender { from < members (B.seat board.old).place }
    requires core { core ≡ core_of (B.seat board.old).place (B.seat board.old).number }
    requires eight { length places.old.items ≡ SLOTS }
    requires knows { KnowsAll (B.seat board.old).place (B.seat board.old).number (B.view board.old)
        places.old.items index.old }
    ensures seat { B.seat board.new ≡ B.seat board.old }
    ensures knows { KnowsAll (B.seat board.old).place (B.seat board.old).number (B.view board.new)
        places.new.items index.new }
    ensures names { KnowsBy (B.seat board.old).number (B.view board.old) standing.old
        → KnowsBy (B.seat board.old).number (B.view board.new) standing.new }
    ensures received { ReceivesOrLooks result (B.seat board.old).number from (B.whole board.old)
        (B.whole board.new) (B.view board.old) (B.view board.new) }
{
    match board.receive(from) {
        None => {
            return false;
        }
        Some(notices) => {
            hear_notices(index, standing, places, core, &notices);
            return true;
        }
    }
}

// Gathers the dead names that stand in a cleaned chunk alone, and dooms them.
pub(crate) fn doom_names<R: Region, B: Board>(
    region: &R,
    board: &mut B,
    log: &CoreLog,
    standing: &Standing,
    clearing: &mut Clearing,
)
    requires { MayDoom (R.state region.now) (B.seat board.old) (B.view board.old) log.now
        standing.now clearing.old }
    ensures seat { B.seat board.new ≡ B.seat board.old }
    ensures doomed { HasDoomed (R.state region.now) log.now standing.now clearing.old clearing.new
        (B.view board.old) (B.view board.new) }
    ensures may { MayGo (B.view board.new) clearing.new.doomed }
    ensures steps { (B.trail board.new
        ≡ step_with (runs.Kind.Doom clearing.new.doomed) (B.view board.new) ∷ B.trail board.old)
        × (B.at board.new ≡ (R.state region.now).stamp) }
    ensures made { Makes (B.whole board.old) (B.seat board.old).number
        (runs.Kind.Doom clearing.new.doomed) (B.whole board.new) (B.view board.new) }
{
    clearing.gather(region, log, standing);
    board.doom(region, clearing.doomed_of());
}
