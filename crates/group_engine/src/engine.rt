// The engine: what it keeps, and one move of it.
ghost use Rattle.std.specs.Prelude.{◌≡◌, ℕ, ◌<◌, List, length, Some, true, false, OnOk, OnErr};
ghost use Rattle.std.specs.List.{slice_get};
ghost use Rattle.group_laws.specs.MemberViews.{View};
ghost use Rattle.core_worker.specs.declared.types.Turn.TheVariants.{Moved, Idle};
ghost use Rattle.engine_core.specs.Calls.{AllWind, NoneWinds, EachWinds, has_moved};
ghost use Rattle.engine_core.specs.Reports.{IsBlank, HasRoomFor};

use crate::cores::Cores;
use crate::passes;
use chunk_map::Geometry;
use core_worker::Turn;
use engine_core::backlog::append;
use engine_core::engine_step::{collect, step};
use engine_core::run_report::{Report, report_on};
use engine_core::types::Stamped;
use engine_core::worker_calls::CoreWorker;
use fs_model::{Memory, Request};
use fs_text::Line;
use group_board::LocalBoard;
use pm_region::Region;
use std::alloc::Global;
use std::collections::VecDeque;

/// One worker for each core, one board for each group, by core the requests that its worker has not accepted yet, and
/// the answers by number. What their report takes is there from the moment that a request is given, so it can be made
/// where there is no memory any more.
#[derive(Drop)]
pub struct Engine<W> {
    /// That of the region.
    pub layout: Geometry,
    /// By the core's number.
    pub workers: Vec<W>,
    /// By the group's number.
    pub boards: Vec<LocalBoard>,
    /// By the core's number: each request with its own, the next one in front.
    pub backlogs: Vec<VecDeque<(u64, Request)>>,
    /// One for each request that was given. None until its answer is fixed.
    pub answers: Vec<Option<Stamped>>,
    /// Nothing yet, with room for all answers.
    pub report: Report,
    ghost blank: { IsBlank report },
    ghost room: { HasRoomFor (length answers.items) report },
}

// Whether one of the workers has stopped.
fn any_stopped<W: CoreWorker>(workers: &Vec<W>) -> bool
    ensures stopped { result ≡ true → (c : ℕ) × (c < length workers.now.items)
        × ((w : W) → slice_get workers.now.items c ≡ Some w
        → (v : View) → (W.hands v w).stopped ≡ true) }
    ensures going { result ≡ false → (c : ℕ) (w : W) → slice_get workers.now.items c ≡ Some w
        → (v : View) → (W.hands v w).stopped ≡ false }
{
    for core in 0..workers.len() {
        if workers[core].stopped() {
            return true;
        }
    }
    false
}

// Lets each worker wind down.
fn wind_all<W: CoreWorker>(workers: &mut Vec<W>)
    ensures count { length workers.new.items ≡ length workers.old.items }
    ensures each { EachWinds W.hands W.answers W.stands W.fair W.room W.leads W.winds
        (length workers.old.items) workers.old.items workers.new.items }
{
    for core in 0..workers.len() {
        workers[core].wind_down();
    }
}

impl<W: CoreWorker> Cores for Engine<W> {
    ghost use Rattle.engine_laws.specs.Stands.{Origin, Stands};
    ghost use Rattle.group_engine.specs.Shows.{Shows, left_of};
    ghost use Rattle.group_engine.specs.Runs.{MovesOf, ShowsRun};

    type Worker = W;

    ghost shows = { λ s x e. (o : Origin) × Stands o e.engine
        × ShowsRun W.hands W.answers W.stands W.fair W.room W.leads (λ q. q.items) s x.layout
        x.workers.items x.boards.items x.backlogs.items x.answers.items e
        × NoneWinds W.winds x.workers.items };

    ghost moves = { MovesOf W.CoreWorker };

    ghost stays = { λ s x e. (o : Origin) × Stands o e
        × Shows W.hands W.answers W.stands W.fair W.room W.leads (λ q. q.items) s x.layout
        x.workers.items x.boards.items x.backlogs.items x.answers.items e };

    ghost winds = { λ x. AllWind W.winds x.workers.items };

    ghost cores = { λ x. x.layout.cores };

    ghost left = { λ x. left_of W.left W.under_way W.most (λ q. q.items)
        x.workers.items x.boards.items x.backlogs.items };

    fn count(&self) -> u32 {
        self.layout.cores
    }

    fn give(&mut self, request: Request) -> Result<(), Memory> {
        let count = self.answers.len();
        self.report.reserve(count + 1)?;
        self.answers.reserve(1)?;
        let number = count as u64;
        let owner = (request.key() % self.layout.cores as u64) as usize;
        append(&mut self.backlogs[owner], number, request)?;
        self.answers.push(None)?;
        Ok(())
    }

    fn advance<R: Region>(
        &mut self,
        alloc: Global,
        region: &mut R,
        core: u32,
    ) -> Result<Turn, Memory> {
        self.move_core(alloc, region, core)
    }

    fn wind_down(&mut self) {
        wind_all(&mut self.workers);
    }

    fn cease<R: Region>(&mut self, alloc: Global, region: &mut R, core: u32) -> Turn {
        match self.move_core(alloc, region, core) {
            Ok(turn) => turn,
            Err(_) => unreachable!(),
        }
    }

    ghost placed = { λ s x e h. h.2.region };

    ghost awake = { λ s x e h. (h.0, h.1, h.2.shows) };

    ghost turns = { λ e f c b m. m.turn };
}

impl<W: CoreWorker> Engine<W> {
    ghost use Rattle.std.specs.Prelude.{◌≤◌, IfOk};
    ghost use Rattle.engine_laws.specs.Engine as engines;
    ghost use Rattle.engine_laws.specs.Stands.{Origin, Stands};
    ghost use Rattle.group_engine.specs.Passes.{Advances};
    ghost use Rattle.group_engine.specs.Shows.{Shows, left_of};
    ghost use Rattle.group_engine.specs.Runs.{MovesOf, run_state};

    // Moves a core: its worker is handed the next request of its backlog, or makes a turn, and its answers are kept.
    fn move_core<R: Region>(
        &mut self,
        alloc: Global,
        region: &mut R,
        core: u32,
    ) -> Result<Turn, Memory>
        requires core { core < self.old.layout.cores }
        requires stays { (e : engines.Engine) × (o : Origin) × Stands o e
            × Shows W.hands W.answers W.stands W.fair W.room W.leads (λ q. q.items)
            (R.state region.old) self.old.layout self.old.workers.items self.old.boards.items
            self.old.backlogs.items self.old.answers.items e }
        ensures layout { self.new.layout ≡ self.old.layout }
        ensures advances { (w : W) → slice_get self.old.workers.items core ≡ Some w
            → (o : Origin) (e : engines.Engine) → Stands o e
            → Shows W.hands W.answers W.stands W.fair W.room W.leads (λ q. q.items)
            (R.state region.old) self.old.layout self.old.workers.items self.old.boards.items
            self.old.backlogs.items self.old.answers.items e
            → (f : engines.Engine) × (p : Origin) × Stands p f
            × Shows W.hands W.answers W.stands W.fair W.room W.leads (λ q. q.items)
            (R.state region.new) self.new.layout self.new.workers.items self.new.boards.items
            self.new.backlogs.items self.new.answers.items f
            × Advances (R.state region.new) result core e f
            × (W.winds w ≡ false → IfOk result (λ turn. MovesOf W.CoreWorker
            (run_state e self.old.workers.items self.old.answers.items) core (has_moved turn)
            (run_state f self.new.workers.items self.new.answers.items))) }
        ensures goes { NoneWinds W.winds self.old.workers.items
            → OnOk result (NoneWinds W.winds self.new.workers.items) }
        ensures winds { AllWind W.winds self.old.workers.items
            → AllWind W.winds self.new.workers.items }
        ensures sure { OnErr result ((w : W) → slice_get self.old.workers.items core ≡ Some w
            → W.winds w ≡ false) }
        ensures less { IfOk result (λ turn. turn ≡ Moved
            → left_of W.left W.under_way W.most (λ q. q.items) self.new.workers.items
            self.new.boards.items self.new.backlogs.items
            < left_of W.left W.under_way W.most (λ q. q.items) self.old.workers.items
            self.old.boards.items self.old.backlogs.items) }
        ensures idle { IfOk result (λ turn. turn ≡ Idle
            → left_of W.left W.under_way W.most (λ q. q.items) self.new.workers.items
            self.new.boards.items self.new.backlogs.items
            ≤ left_of W.left W.under_way W.most (λ q. q.items) self.old.workers.items
            self.old.boards.items self.old.backlogs.items) }
    {
        let at = core as usize;
        let group = (core / self.layout.group) as usize;
        let member = core % self.layout.group;
        let result = step(
            &mut self.workers[at],
            &mut self.boards[group],
            &mut self.backlogs[at],
            alloc,
            region,
            member,
        );
        collect(&mut self.workers[at], &mut self.answers, region.stamp());
        result
    }
}

impl<W: CoreWorker> Engine<W> {
    ghost use Rattle.chunk_map.specs.Layouts.{layout_of};
    ghost use Rattle.engine_laws.specs.Engine as engines;
    ghost use Rattle.engine_laws.specs.Stands.{Origin, Stands, opening};
    ghost use Rattle.engine_laws.specs.Promises.{IsOrigin, IsDone, Promised, HasStopped};
    ghost use Rattle.engine_laws.specs.Ceasing.{HasCeased};
    ghost use Rattle.pm_region.specs.State.{State};
    ghost use Rattle.engine_laws.specs.Ran.{Ran};
    ghost use Rattle.group_engine.specs.Passes.{NameCores, EndsIn};
    ghost use Rattle.group_engine.specs.Shows.{Shows};
    ghost use Rattle.group_engine.specs.Runs.{RunState, MovesOf, ShowsRun, first_state, with_request};

    /// Whether a core has stopped: then a call of the region failed.
    pub fn has_stopped(&self) -> bool
        ensures stopped { result ≡ true → (s : State) (o : Origin) (e : engines.Engine) → Stands o e
            → Shows W.hands W.answers W.stands W.fair W.room W.leads (λ q. q.items) s
            self.now.layout self.now.workers.items self.now.boards.items
            self.now.backlogs.items self.now.answers.items e
            → HasStopped e }
        ensures going { result ≡ false → (s : State) (o : Origin) (e : engines.Engine) → Stands o e
            → Shows W.hands W.answers W.stands W.fair W.room W.leads (λ q. q.items) s
            self.now.layout self.now.workers.items self.now.boards.items
            self.now.backlogs.items self.now.answers.items e
            → (c : ℕ) → c < e.layout.cores → e.stopped c ≡ false }
    {
        any_stopped(&self.workers)
    }

    /// Handles the lines of an input in order, and then drains. The engine has just been opened. Where a worker finds
    /// no memory, all wind down: they finish what is posted or taken, and then rest.
    pub fn replay<R: Region>(
        &mut self,
        alloc: Global,
        region: &mut R,
        lines: VecDeque<Line>,
    ) -> Result<(), Memory>
        requires lines { NameCores self.old.layout.cores lines.items }
        requires opened { (o : Origin) × IsOrigin o
            × Shows W.hands W.answers W.stands W.fair W.room W.leads (λ q. q.items)
            (R.state region.old) self.old.layout self.old.workers.items self.old.boards.items
            self.old.backlogs.items self.old.answers.items (opening o) }
        ensures failed { OnErr result ((o : Origin) → IsOrigin o
            → Shows W.hands W.answers W.stands W.fair W.room W.leads (λ q. q.items)
            (R.state region.old) self.old.layout self.old.workers.items self.old.boards.items
            self.old.backlogs.items self.old.answers.items (opening o)
            → (f : engines.Engine)
            × Shows W.hands W.answers W.stands W.fair W.room W.leads (λ q. q.items)
            (R.state region.new) self.new.layout self.new.workers.items self.new.boards.items
            self.new.backlogs.items self.new.answers.items f
            × EndsIn (R.state region.new) lines.items (opening o) f × Promised o f
            × HasCeased f) }
        ensures ran { OnOk result ((o : Origin) → IsOrigin o
            → Shows W.hands W.answers W.stands W.fair W.room W.leads (λ q. q.items)
            (R.state region.old) self.old.layout self.old.workers.items self.old.boards.items
            self.old.backlogs.items self.old.answers.items (opening o)
            → (f : RunState W)
            × ShowsRun W.hands W.answers W.stands W.fair W.room W.leads (λ q. q.items)
            (R.state region.new) self.new.layout self.new.workers.items self.new.boards.items
            self.new.backlogs.items self.new.answers.items f
            × Ran (MovesOf W.CoreWorker) with_request (layout_of o.found).cores lines.items
            (first_state o self.old.workers.items) f × IsDone o f.engine) }
    {
        passes::replay(self, alloc, region, lines)
    }
}

impl<W: CoreWorker + Drop> Engine<W> {
    ghost use Rattle.pm_region.specs.State.{State};
    ghost use Rattle.engine_laws.specs.Engine as engines;
    ghost use Rattle.engine_laws.specs.Stands.{Origin, Stands};
    ghost use Rattle.engine_core.specs.Reports.{listed, IsReport, ReportsOn};
    ghost use Rattle.group_engine.specs.Shows.{Shows};

    /// The replies, and the report on them: those of the state that the engine shows. It takes no memory. The workers
    /// come with it, as they stand.
    pub fn into_report(self) -> (Report, Vec<W>)
        ensures kept { IsReport self.answers.items (listed result.0) }
        ensures reports { (s : State) (o : Origin) (e : engines.Engine) → Stands o e
            → Shows W.hands W.answers W.stands W.fair W.room W.leads (λ q. q.items) s self.layout
            self.workers.items self.boards.items self.backlogs.items self.answers.items e
            → ReportsOn s o e (listed result.0) }
    {
        let report = report_on(self.answers, self.report);
        (report, self.workers)
    }
}
