// What the loops of a replay ask of cores.
ghost use Rattle.std.specs.Prelude.{◌≡◌, ℕ, ◌<◌, ◌≤◌, Bool, IfOk, OnOk, OnErr};
ghost use Rattle.pm_region.specs.State.{State};
ghost use Rattle.engine_laws.specs.Engine.{Engine};
ghost use Rattle.engine_laws.specs.Promises.{AnyTurn};
ghost use Rattle.core_worker.specs.declared.types.Turn.TheVariants.{Moved, Idle};
ghost use Rattle.engine_core.specs.Calls.{has_moved};
ghost use Rattle.group_engine.specs.Runs.{RunState, with_request};
ghost use Rattle.group_engine.specs.Passes.{Ends, Leads, Ceases};

use core_worker::Turn;
use fs_model::{Memory, Request};
use pm_region::Region;
use std::alloc::Global;

/// Cores on one region that can be moved one at a time.
pub trait Cores {
    /// What each of them is.
    type Worker;

    // The states of a run that they may stand at, with a region's state, while none of them winds down. It has what no
    // code knows, so it is a relation.
    ghost shows: { State → Self → RunState Self.Worker → Type 0 };

    // A move of one of them, and whether anything moved.
    ghost moves: { RunState Self.Worker → ℕ → Bool → RunState Self.Worker → Type 0 };

    // The engine's states that they may stand at, whether or not some wind down.
    ghost stays: { State → Self → Engine → Type 0 };

    // All of them wind down.
    ghost winds: { Self → Type 0 };

    // How many there are, and what is left to do.
    ghost cores: { Self → ℕ };

    ghost left: { Self → ℕ };

    /// How many there are.
    fn count(&self) -> u32
        ensures { result ≡ cores self.now };

    /// Gives a request to the owner of its key.
    fn give(&mut self, request: Request) -> Result<(), Memory>
        requires { (s : State) × (e : RunState Self.Worker) × shows s self.old e }
        ensures gave { OnOk result ((s : State) (e : RunState Self.Worker) → shows s self.old e
            → shows s self.new (with_request e request)) }
        ensures kept { OnErr result ((s : State) (e : RunState Self.Worker) → shows s self.old e
            → shows s self.new e) }
        ensures cores { cores self.new ≡ cores self.old };

    /// Moves a core, and answers whether anything moved.
    fn advance<R: Region>(
        &mut self,
        alloc: Global,
        region: &mut R,
        core: u32,
    ) -> Result<Turn, Memory>
        requires core { core < cores self.old }
        requires shows { (e : RunState Self.Worker) × shows (R.state region.old) self.old e }
        ensures moved { IfOk result (λ turn. Leads (shows (R.state region.old) self.old)
            (shows (R.state region.new) self.new) (λ e f. moves e core (has_moved turn) f)) }
        ensures failed { OnErr result (Leads (shows (R.state region.old) self.old)
            (stays (R.state region.new) self.new) (λ e f. Ends (R.state region.new) e.engine f)) }
        ensures cores { cores self.new ≡ cores self.old }
        ensures less { IfOk result (λ turn. turn ≡ Moved → left self.new < left self.old) }
        ensures idle { IfOk result (λ turn. turn ≡ Idle → left self.new ≤ left self.old) };

    /// Lets each finish what is posted or taken, and begin nothing more. It needs no memory for this.
    fn wind_down(&mut self)
        ensures winds { winds self.new }
        ensures stays { (s : State) → Leads (stays s self.old) (stays s self.new) (Ends s) }
        ensures cores { cores self.new ≡ cores self.old };

    /// Moves a core while all wind down, and answers whether anything moved. It finds memory for all that it does.
    fn cease<R: Region>(&mut self, alloc: Global, region: &mut R, core: u32) -> Turn
        requires core { core < cores self.old }
        requires winds { winds self.old }
        requires stays { (e : Engine) × stays (R.state region.old) self.old e }
        ensures ceases { Leads (stays (R.state region.old) self.old)
            (stays (R.state region.new) self.new)
            (Ceases (R.state region.new) (has_moved result) core) }
        ensures winds { winds self.new }
        ensures cores { cores self.new ≡ cores self.old }
        ensures less { result ≡ Moved → left self.new < left self.old }
        ensures idle { result ≡ Idle → left self.new ≤ left self.old };

    // A state that is shown with a region's state has it.
    ghost placed: { (s : State) (x : Self) (e : Engine) → stays s x e → e.region ≡ s };

    ghost awake: { (s : State) (x : Self) (e : RunState Self.Worker) → shows s x e
        → stays s x e.engine };

    // A move is one of the engine's states.
    ghost turns: { (e f : RunState Self.Worker) (c : ℕ) (b : Bool) → moves e c b f
        → AnyTurn e.engine c b f.engine };
}
