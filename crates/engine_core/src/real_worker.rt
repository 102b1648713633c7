// The worker of one core, as the engine asks for it.
ghost use Rattle.std.specs.Prelude.{IfOk};
ghost use Rattle.core_worker.specs.Openings.{IsNew};
ghost use Rattle.engine_core.specs.Working.{SeatsFirst};

use crate::worker_calls::CoreWorker;
use chunk_map::Layout;
use core_worker::{Answer, NotAccepted, OpenGate, Turn, Worker};
use fs_model::{Memory, Request};
use group_board::Board;
use pm_region::Region;
use recover::CoreStart;
use std::alloc::Global;

// In a replay nothing holds a worker back.
impl CoreWorker for Worker {
    ghost use Rattle.core_worker.specs.Beginning.{answers_of};
    ghost use Rattle.core_worker.specs.WorkerMoves.{hands_of};
    ghost use Rattle.core_worker.specs.Left as measure;
    ghost use Rattle.core_worker.specs.Status as status;
    ghost use Rattle.engine_core.specs.Working as working;
    ghost use Rattle.core_worker.proofs.Clients.{stands_aside};
    ghost use Rattle.std.specs.Prelude.{not, refl};
    ghost use Rattle.std.proofs.Common.{◌∙◌, ap};
    ghost use Rattle.core_worker.specs.declared.worker.Worker as worker;
    ghost use Rattle.std.proofs.lemmas.Bool.{and_parts, not-true};

    ghost hands = { hands_of };

    ghost answers = { answers_of };

    ghost stands = { working.IsMember };

    ghost fair = { measure.fair };

    ghost room = { working.may_take };

    ghost leads = { working.leads };

    ghost winds = { λ w. w.winds_down };

    ghost begins = { working.BeginsRequest };

    ghost turned = { working.MakesTurn };

    ghost alike = { working.SameButAnswers };

    ghost left = { measure.left };

    ghost under_way = { measure.group_left };

    ghost most = { measure.most };

    fn has_room(&self) -> bool {
        !self.winding_down() && Worker::has_room(self)
    }

    fn leading(&self) -> bool {
        Worker::leading(self)
    }

    fn stopped(&self) -> bool {
        Worker::stopped(self)
    }

    fn next_answer(&mut self) -> Option<Answer> {
        Worker::next_answer(self)
    }

    fn accept<R: Region>(
        &mut self,
        alloc: Global,
        region: &R,
        number: u64,
        request: Request,
    ) -> Result<(), NotAccepted> {
        Worker::accept(self, alloc, region, number, request)
    }

    fn wind_down(&mut self) {
        Worker::wind_down(self);
    }

    fn turn<R: Region, B: Board>(
        &mut self,
        alloc: Global,
        region: &mut R,
        board: &mut B,
    ) -> Result<Turn, Memory> {
        Worker::turn(self, alloc, region, board, &OpenGate)
    }

    ghost apart = { λ p m s t v w aside tied. record {
      holds = tied.holds;
      stands = stands_aside s t p m v w tied.holds tied.stands aside;
      order = tied.order;
      rule = tied.rule;
    } };

    ghost wakes = { λ w e. not-true w.winds_down
        (and_parts (not w.winds_down) (status.has_room w)
        (and_parts (not (working.leads w)) (working.may_take w) e).1).0 };

    ghost same = { λ w. refl };

    ghost same_too = { λ w x y one two. two ∙ ap (λ (z : worker.Worker). record z
        { answers = y.answers }) one };

    ghost beside = { λ a e m n kinds w lawful runs other starts. starts };
}

/// The worker of a core that recovery found so, in the region's layout: it is seated in the first state of a run on
/// what was found.
pub fn open_worker(alloc: Global, start: CoreStart, layout: Layout) -> Result<Worker, Memory>
    ensures new { IfOk result (IsNew start layout) }
    ensures seated { IfOk result (SeatsFirst start layout) }
{
    Worker::open(alloc, start, layout)
}
