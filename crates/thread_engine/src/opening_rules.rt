// Where a core's keys are when its group opens.
ghost use Rattle.std.specs.Prelude.{◌≡◌, ℕ, [], false, None};
ghost use Rattle.chunk_map.specs.Layouts.{layout_of};
ghost use Rattle.group_laws.specs.Places.{owner};
ghost use Rattle.group_laws.specs.OpeningImages.{opened};
ghost use Rattle.group_laws.specs.Regions.{key_group, place_at};
ghost use Rattle.group_laws.specs.MemberViews.{view_of};
ghost use Rattle.group_board.specs.Seats.{SeatAt};
ghost use Rattle.engine_laws.specs.KeyLaw.{KeyIs, key_view};
ghost use Rattle.engine_laws.specs.Promises.{IsOrigin};
ghost use Rattle.engine_laws.specs.Stands.{Origin, start_of};
ghost use Rattle.thread_engine.specs.WorkLaws.{KeepsDoubts};

use engine_laws::engine_rules;

/// On a sound region whose words are certain each key is, in its owner's view, where recovery finds it, with nothing
/// answered and nothing under way. And no change is in doubt.
pub fn every_opening()
    ensures keys { (o : Origin) → IsOrigin o → (m k : ℕ)
        → owner (place_at (layout_of o.found) (key_group (layout_of o.found) k)) k ≡ m
        → KeyIs (start_of o k) (key_view (view_of (opened (place_at (layout_of o.found)
        (key_group (layout_of o.found) k)) o.found) m) k) None false [] }
    ensures doubts { (seat : SeatAt) (image : ℕ → ℕ)
        → KeepsDoubts seat (view_of (opened seat.place image) seat.number) }
{
    engine_rules::every_move();
}
