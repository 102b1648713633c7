// A change that its owner takes back before anybody took it, and one that could not be written. What is expected is
// what the calls say of a slot.
ghost use Rattle.std.specs.Prelude.{◌≡◌, ◌<◌, ◌≤◌, true, false, [], IfOk, IfSome, Option};
ghost use Rattle.region_memory.specs.Mem.{mem_state};
ghost use Rattle.group_laws.specs.Places.{members};
ghost use Rattle.group_board.specs.Journals.{state};
ghost use Rattle.group_tests.specs.BoardTrials.{fresh};
ghost use Rattle.group_tests.specs.LeadTrials.{put_of, IsBlankRegion, IsEmptyLog};
ghost use Rattle.group_board.specs.Conditions.{MayPost, MayLock};
ghost use Rattle.licence.specs.Writes.{Begins};
ghost use Rattle.batch_leader.specs.Leading.{IsBatchOf};
ghost use Rattle.batch_leader.specs.Persisting.{HasRoom};
ghost use Rattle.batch_leader.specs.Rounds.{words_taken};

use crate::leader_tests::{Name, gather, open_log, open_small, put};
use crate::no_region::NoRegion;
use batch_leader::{Batch, BatchBuffer, Released, lead};
use core_log::CoreLog;
use group_board::{Board, Change, LocalBoard, LocalSeat, SlotState};
use pm_region::SplitRegion;
use region_memory::{Faults, FenceNumber, MemRegion};
use std::alloc::Global;
use std::test::Fail;

/// Posts a change, leads, takes it back, finds no other, and gives the lock back.
fn take_back<B: Board>(board: &mut B, change: Change, buffer: BatchBuffer) -> Option<Change>
    requires post { MayPost (B.seat board.old).place (B.seat board.old).number (B.view board.old)
        0 change [] }
    requires lock { MayLock (B.seat board.old).place (B.seat board.old).number (B.view board.old) }
    requires idle { (B.view board.old).flying ≡ [] }
{
    board.post(&NoRegion, 0, change, &[]);
    let Ok(mut leader) = lead(board, buffer) else {
        return None;
    };
    let back = leader.withdraw_own(board);
    match leader.withdraw_own(board) {
        Some(_) => None,
        None => match leader.release(board) {
            Released::Batch(_) => None,
            Released::Nothing(_) => back,
        },
    }
}

/// Fails to write a batch into this fresh chunk of the own part, and gives all of it back.
fn give_up<B: Board>(
    region: &mut MemRegion,
    log: &mut CoreLog,
    board: &mut B,
    batch: Batch,
    chunk: u32,
) -> bool
    requires batch { IsBatchOf (B.seat board.old) (B.view board.old) batch }
    requires begins { Begins (mem_state region.old) (B.seat board.old).place
        (B.seat board.old).number (B.view board.old) log.old }
    requires room { HasRoom (mem_state region.old) log.old
        (words_taken batch.changes.taken.items) (Option.Some chunk) }
    ensures { B.seat board.new ≡ B.seat board.old }
{
    let Err(mut lost) = batch.persist(region, log, board, Some(chunk)) else {
        return false;
    };
    let first = lost.fail_one(board);
    if lost.fail_one(board) {
        return false;
    }
    let _buffer = lost.done();
    first
}

/// Whether the own change in slot 0 came back without a home.
fn is_given_up<B: Board>(board: &mut B) -> bool
    requires { (B.seat board.old).number < members (B.seat board.old).place }
{
    let member = board.member();
    match board.look(member, 0) {
        SlotState::Failed => board.finish(0).home.is_none(),
        _ => false,
    }
}

/// The name of member 1's change that came back, and none where another call answered otherwise.
fn name_of_taken(board: &mut LocalBoard, change: Change, buffer: BatchBuffer) -> Name
    requires board { state board.old.keeper.me.0 ≡ fresh }
    requires change { change ≡ put_of 1 }
{
    let mut seat = LocalSeat { board, member: 1 };
    let change = take_back(&mut seat, change, buffer)?;
    Some((change.entry.key, change.entry.version))
}

/// The same in a group that just opened.
fn name_of_first(rt: &HostRuntime) -> Result<Name, Fail> {
    let mut board = open_small(rt)?;
    let change = put(rt, 1)?;
    let buffer = BatchBuffer::open(rt.alloc())?;
    Ok(name_of_taken(&mut board, change, buffer))
}

#[test]
fn a_change_that_is_taken_back(rt: HostRuntime) -> Result<(), Fail> {
    let name = name_of_first(&rt)?;
    assert_eq!(rt; name, Some((1, 1)));
    Ok(())
}

/// A region of three parts with nothing in them, whose first fence fails.
fn failing_region(alloc: Global) -> Result<MemRegion, Fail>
    ensures { IfOk result (λ r. IsBlankRegion (mem_state r)) }
{
    let first = FenceNumber {
        piece: 0,
        number: 1,
    };
    let plan = Faults {
        opens: Vec::new(alloc),
        fences: vec![in alloc; first]?,
    };
    let mut region = MemRegion::new(alloc, Vec::new(alloc), 100, plan)?;
    region.create(alloc, 6656)?;
    Ok(region)
}

/// Member 1's batch, which can't be written: whether it was given up, and whether its change came back without a home.
/// None where it could not be gathered.
fn lead_in_vain(
    board: &mut LocalBoard,
    region: &mut MemRegion,
    log: &mut CoreLog,
    change: Change,
    buffer: BatchBuffer,
) -> Option<(bool, bool)>
    requires board { state board.old.keeper.me.0 ≡ fresh }
    requires change { change ≡ put_of 1 }
    requires region { IsBlankRegion (mem_state region.old) }
    requires log { IsEmptyLog log.old 1 }
{
    let mut seat = LocalSeat { board, member: 1 };
    let batch = gather(&mut seat, change, buffer)?;
    let lost = give_up(region, log, &mut seat, batch, 2);
    let back = is_given_up(&mut seat);
    Some((lost, back))
}

/// The batch of a group that just opened.
fn lost_batch(rt: &HostRuntime, region: &mut MemRegion) -> Result<Option<(bool, bool)>, Fail>
    requires { IsBlankRegion (mem_state region.old) }
{
    let mut log = open_log(rt.alloc(), 1)?;
    let mut board = open_small(rt)?;
    let change = put(rt, 1)?;
    let buffer = BatchBuffer::open(rt.alloc())?;
    Ok(lead_in_vain(&mut board, region, &mut log, change, buffer))
}

/// The same in a region that fails.
fn lost_in_blank(rt: &HostRuntime) -> Result<Option<(bool, bool)>, Fail> {
    let mut region = failing_region(rt.alloc())?;
    lost_batch(rt, &mut region)
}

#[test]
fn a_batch_that_could_not_be_written(rt: HostRuntime) -> Result<(), Fail> {
    let lost = lost_in_blank(&rt)?;
    assert_eq!(rt; lost, Some((true, true)));
    Ok(())
}
