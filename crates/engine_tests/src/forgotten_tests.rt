// A put that a gate holds back while its key is forgotten has the first version from then on.
ghost use Rattle.std.specs.Prelude.{◌≡◌, ◌%◌, OnOk};
ghost use Rattle.region_memory.specs.Steady.{steady_state};
ghost use Rattle.fs_model.specs.Cells.{key_of};
ghost use Rattle.engine_tests.specs.WorkerTrials.{IsSeated};

use crate::gate_tests::{ShutGate, accept, put, seated, turns};
use crate::worker_tests::attached;
use core_worker::{Gate, OpenGate, Worker};
use fs_model::{Key, Memory, Request, Version};
use group_board::{Board, LocalSeat};
use log_entry::EntryName;
use pm_region::Region;
use recover::recover;
use region_memory::SteadyRegion;
use std::alloc::Global;
use std::test::Fail;

// Keys of core 5: one that is deleted, and one that is put again and again.
const DELETED: Key = 29;

const OTHER: Key = 37;

// Behind so many puts one more leads to the cleaning that takes out the last entry of the deleted key.
const PUTS: u32 = 236;

// Has a request answered.
fn serve<B: Board>(
    alloc: Global,
    region: &mut SteadyRegion,
    board: &mut B,
    worker: &mut Worker,
    request: Request,
) -> Result<bool, Memory>
    requires seated { IsSeated (steady_state region.old) (B.seat board.old).place
        (B.seat board.old).number (B.view board.old) worker.old }
    requires own { key_of request % 8 ≡ 5 }
    ensures { OnOk result (IsSeated (steady_state region.new) (B.seat board.new).place
        (B.seat board.new).number (B.view board.new) worker.new) }
{
    if !accept(alloc, &*region, &*board, worker, request) {
        return Ok(false);
    }
    let (_, answer) = turns(alloc, region, board, worker, &OpenGate)?;
    Ok(answer.is_some())
}

// Puts and deletes the one key, and puts the other one.
fn crowd<B: Board>(
    alloc: Global,
    region: &mut SteadyRegion,
    board: &mut B,
    worker: &mut Worker,
) -> Result<bool, Fail>
    requires { IsSeated (steady_state region.old) (B.seat board.old).place
        (B.seat board.old).number (B.view board.old) worker.old }
    ensures { OnOk result (IsSeated (steady_state region.new) (B.seat board.new).place
        (B.seat board.new).number (B.view board.new) worker.new) }
{
    let first = put(alloc, DELETED)?;
    let mut all = serve(alloc, region, board, worker, first)?;
    all &= serve(
        alloc,
        region,
        board,
        worker,
        Request::Delete { key: DELETED },
    )?;
    for _ in 0..PUTS {
        let next = put(alloc, OTHER)?;
        all &= serve(alloc, region, board, worker, next)?;
    }
    Ok(all)
}

// The newest version of the deleted key that stands in the log of core 5, up to the third.
fn newest(alloc: Global, region: &SteadyRegion) -> Result<Option<Version>, Fail> {
    if region.first() != 0 || region.words() != 16_896 {
        return Ok(None);
    }
    let found = recover(alloc, region, 135_168)?;
    let mut starts = found.starts;
    if found.layout.cores() != 8 {
        return Ok(None);
    }
    let standing = starts.swap_remove(5).standing;
    for version in [3, 2, 1] {
        let name = EntryName {
            key: DELETED,
            version,
        };
        if standing.copies(name) > 0 {
            return Ok(Some(version));
        }
    }
    Ok(None)
}

// The version of a put that is accepted before that cleaning, and waits for a gate until nothing else is to be done.
fn version_by<G: Gate>(alloc: Global, gate: &G) -> Result<Option<Version>, Fail> {
    let mut region = attached(alloc)?;
    let Some((mut worker, mut board)) = seated(alloc, &region)? else {
        return Ok(None);
    };
    let mut seat = LocalSeat {
        board: &mut board,
        member: 1,
    };
    if !crowd(alloc, &mut region, &mut seat, &mut worker)? {
        return Ok(None);
    }
    let last = put(alloc, OTHER)?;
    let _ = serve(alloc, &mut region, &mut seat, &mut worker, last)?;
    let late = put(alloc, DELETED)?;
    if !accept(alloc, &region, &seat, &mut worker, late) {
        return Ok(None);
    }
    let _ = turns(alloc, &mut region, &mut seat, &mut worker, gate)?;
    let _ = turns(alloc, &mut region, &mut seat, &mut worker, &OpenGate)?;
    newest(alloc, &region)
}

#[test]
fn a_put_whose_key_is_forgotten(rt: HostRuntime) -> Result<(), Fail> {
    assert_eq!(rt; version_by(rt.alloc(), &OpenGate)?, Some(3));
    assert_eq!(rt; version_by(rt.alloc(), &ShutGate)?, Some(1));
    Ok(())
}
