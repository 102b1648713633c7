// The loops of a replay move any cores: here those of an engine behind a count of the moves that did something.
ghost use Rattle.std.specs.Prelude.{◌≡◌, IfOk, IfSome};
ghost use Rattle.pm_region.specs.State.{IsTelling};
ghost use Rattle.pm_region.specs.Split.{words_in};
ghost use Rattle.recover.specs.Regions.{IsCertain};
ghost use Rattle.region_memory.specs.Steady.{steady_state};
ghost use Rattle.group_engine.specs.Runs.{RunState};
ghost use Rattle.engine_tests.specs.EngineTrials.{IsOpenedOn};

use crate::gate_tests::put;
use crate::worker_tests::attached;
use core_worker::{Turn, Worker};
use fs_model::{Memory, Request};
use group_engine::cores::Cores;
use group_engine::engine::Engine;
use group_engine::passes;
use pm_region::{Region, SplitRegion};
use recover::recover_read;
use region_memory::SteadyRegion;
use std::alloc::Global;
use std::test::Fail;

/// Any cores, and how many of their moves did something.
#[derive(Drop)]
struct CountedCores<C> {
    cores: C,
    moved: u64,
}

/// A count after one move more, which did something or not.
pub fn after(count: u64, did: bool) -> u64 {
    if did { count.saturating_add(1) } else { count }
}

impl<C: Cores> Cores for CountedCores<C> {
    type Worker = C::Worker;

    ghost shows = { λ s x e. C.shows s x.cores e };

    ghost moves = { C.moves };

    ghost stays = { λ s x e. C.stays s x.cores e };

    ghost winds = { λ x. C.winds x.cores };

    ghost cores = { λ x. C.cores x.cores };

    ghost left = { λ x. C.left x.cores };

    fn count(&self) -> u32 {
        self.cores.count()
    }

    fn give(&mut self, request: Request) -> Result<(), Memory> {
        self.cores.give(request)
    }

    fn advance<R: Region>(
        &mut self,
        alloc: Global,
        region: &mut R,
        core: u32,
    ) -> Result<Turn, Memory> {
        let turn = self.cores.advance(alloc, region, core);
        self.moved = after(self.moved, matches!(turn, Ok(Turn::Moved)));
        turn
    }

    fn wind_down(&mut self) {
        self.cores.wind_down();
    }

    fn cease<R: Region>(&mut self, alloc: Global, region: &mut R, core: u32) -> Turn {
        let turn = self.cores.cease(alloc, region, core);
        self.moved = after(self.moved, matches!(turn, Turn::Moved));
        turn
    }

    ghost placed = { λ s x e. C.placed s x.cores e };

    ghost awake = { λ s x e. C.awake s x.cores e };

    ghost turns = { C.turns };
}

/// The engine of a region that was just attached, where it has the length of the tests' region.
fn opened(alloc: Global, region: &SteadyRegion) -> Result<Option<Engine<Worker>>, Fail>
    requires first { (steady_state region.now).frame.first ≡ 0 }
    requires words { (steady_state region.now).frame.words
        ≡ words_in (steady_state region.now).frame.bytes }
    requires certain { IsCertain (steady_state region.now) }
    ensures { IfOk result (λ o. IfSome o (IsOpenedOn (steady_state region.now))) }
{
    if region.bytes() != 135_168 {
        return Ok(None);
    }
    let recovered = recover_read(alloc, region, 135_168)?;
    Ok(Some(Engine::open(alloc, region, recovered)?))
}

/// How many moves did something until a request was answered and nothing was left to do, and how many once another
/// drain was made.
fn counts<C: Cores + Drop, R: Region>(
    alloc: Global,
    cores: C,
    region: &mut R,
    request: Request,
) -> Result<(u64, u64), Memory>
    requires { (e : RunState C.Worker) × C.shows (R.state region.old) cores e }
{
    let mut counted = CountedCores { cores, moved: 0 };
    counted.give(request)?;
    passes::drain(&mut counted, alloc, region)?;
    let moved = counted.moved;
    passes::drain(&mut counted, alloc, region)?;
    Ok((moved, counted.moved))
}

#[test]
fn a_drain_moves_until_nothing_moves(rt: HostRuntime) -> Result<(), Fail> {
    let alloc = rt.alloc();
    let mut region = attached(alloc)?;
    let Some(engine) = opened(alloc, &region)? else {
        assert!(rt; false, "the region has its length");
        return Ok(());
    };
    let request = put(alloc, 5)?;
    let (moved, again) = counts(alloc, engine, &mut region, request)?;
    assert!(rt; moved > 0);
    assert_eq!(rt; again, moved);
    Ok(())
}
