// The laws of a crash inside a run on threads.
ghost use Rattle.std.specs.Prelude.{◌≡◌, ℕ, [], List, Bool};
ghost use Rattle.recover.specs.declared.types.Recovered.{Recovered};
ghost use Rattle.group_board.specs.Seats.{SeatAt};
ghost use Rattle.group_board.specs.Trails.{TrailStep};
ghost use Rattle.licence.specs.Licence.{Licensed};
ghost use Rattle.headline.specs.Headline.{Recovers};
ghost use Rattle.engine_laws.specs.Engine.{Engine};
ghost use Rattle.engine_laws.specs.Promises.{IsOrigin};
ghost use Rattle.engine_laws.specs.Reports.{told_of};
ghost use Rattle.engine_laws.specs.Stands.{Origin, StandsNow, start_of};
ghost use Rattle.thread_engine.specs.WorkStates.{WorkState, IsAtWork, Works};
ghost use Rattle.thread_engine.specs.CoreRuns.{AllRan, LoadsLook, view_after};
ghost use Rattle.thread_engine.specs.Cuts.{Spot, IsAlong, Cut, MayLeaveAt, finished_at};

use crate::{opening_rules, work_rules};
use batch_leader::cut_laws;

/// Wherever a core is in its chain of moves, with some of its steps made: each image of its part is licensed by the
/// view that it has after them.
pub fn every_spot()
    ensures { (seat : SeatAt) (refused : Bool) (a b : WorkState) → IsAtWork seat a
        → a.trail.steps ≡ [] → LoadsLook a.view b.trail.steps → (w : Works seat refused a b)
        → (x : Spot) → IsAlong seat refused x a w.path b w.leads
        → Licensed seat.place seat.number (view_after a.view x.done) (x.piece.cells x.stamp) }
{
    cut_laws::turn_at_a_cut();
}

/// Whatever a crash leaves at a cut of a run on threads is sound, and recovers for each key the cell after its changes
/// that were finished before the cut, or after one more.
pub fn every_cut()
    ensures { (o : Origin) (r : Recovered) (refused : Bool) (e : Engine) → IsOrigin o
        → StandsNow o e → (ran : AllRan o r refused e) → (order : ℕ → List (ℕ × TrailStep))
        → (cut : Cut o r refused e ran.cores order) → (image : ℕ → ℕ) → MayLeaveAt cut image
        → Recovers o.region.frame.bytes (start_of o) e.given (told_of e) (finished_at cut) image }
{
    cut_laws::turn_at_a_cut();
    work_rules::every_chain();
    opening_rules::every_opening();
}
