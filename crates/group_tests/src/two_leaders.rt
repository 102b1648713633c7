// Two leaders of a group at the board of one thread: the second leads and writes before the first wrote. What is
// expected is what the format says of a batch.
ghost use Rattle.std.specs.Prelude.{◌≡◌, ◌<◌, ◌≤◌, true, IfOk, IfSome};
ghost use Rattle.region_memory.specs.Steady.{steady_state};
ghost use Rattle.group_laws.specs.MemberViews.{view_of};
ghost use Rattle.group_laws.specs.Places.{members};
ghost use Rattle.group_board.specs.Journals.{state};
ghost use Rattle.group_tests.specs.BoardTrials.{fresh};
ghost use Rattle.group_tests.specs.LeadTrials.{put_of, small_place, IsBlankRegion, IsEmptyLog, MayGather, Gathered, MayWrite, Wrote, HaveBatches};

use crate::leader_tests::{
    Name, blank_region, gather, name_in, open_log, open_small, put, settle, word, write_back,
};
use batch_leader::{Batch, BatchBuffer};
use core_log::CoreLog;
use group_board::{Change, LocalBoard, LocalSeat};
use pm_region::{Region, SplitRegion};
use region_memory::{Pick, SteadyRegion};
use std::alloc::Global;
use std::test::Fail;

/// A member's batch of one change.
fn gather_at(
    board: &mut LocalBoard,
    member: u32,
    change: Change,
    buffer: BatchBuffer,
) -> Option<Batch>
    requires { MayGather (state board.old.keeper.me.0).place member
        (view_of (state board.old.keeper.me.0) member) change }
    ensures { IfSome result (Gathered (state board.old.keeper.me.0)
        (state board.new.keeper.me.0) member) }
{
    let mut seat = LocalSeat { board, member };
    gather(&mut seat, change, buffer)
}

/// A member writes its batch, and gives back what is in it.
pub(crate) fn write_at(
    region: &mut SteadyRegion,
    log: &mut CoreLog,
    board: &mut LocalBoard,
    member: u32,
    batch: Batch,
) -> bool
    requires { MayWrite (state board.old.keeper.me.0).place member
        (view_of (state board.old.keeper.me.0) member) (steady_state region.old) log.old batch }
    ensures { result ≡ true → Wrote (state board.old.keeper.me.0)
        (state board.new.keeper.me.0) member
        (steady_state region.old) (steady_state region.new) }
{
    let mut seat = LocalSeat { board, member };
    write_back(region, log, &mut seat, batch, 2)
}

/// Core 0 leads and gives the lock back with its batch, and then core 1 does.
fn both_gather(
    board: &mut LocalBoard,
    change: Change,
    buffer: BatchBuffer,
    other: Change,
    another: BatchBuffer,
) -> Option<(Batch, Batch)>
    requires opened { state board.old.keeper.me.0 ≡ fresh }
    requires change { change ≡ put_of 0 }
    requires other { other ≡ put_of 1 }
    ensures { IfSome result (λ b. HaveBatches (state board.new.keeper.me.0) b.0 b.1) }
{
    let first = gather_at(board, 0, change, buffer)?;
    let second = gather_at(board, 1, other, another)?;
    Some((first, second))
}

/// Core 1 writes its batch and gives back what is in it, and then core 0 does.
fn both_write(
    region: &mut SteadyRegion,
    log: &mut CoreLog,
    other: &mut CoreLog,
    board: &mut LocalBoard,
    first: Batch,
    second: Batch,
) -> bool
    requires batches { HaveBatches (state board.old.keeper.me.0) first second }
    requires region { IsBlankRegion (steady_state region.old) }
    requires log { IsEmptyLog log.old 0 }
    requires other { IsEmptyLog other.old 1 }
    ensures { result ≡ true → members (state board.new.keeper.me.0).place ≡ 3 }
{
    if !write_at(region, other, board, 1, second) {
        return false;
    }
    write_at(region, log, board, 0, first)
}

/// A member takes its change back.
fn settle_at(board: &mut LocalBoard, member: u32) -> Option<u32>
    requires { member < members (state board.old.keeper.me.0).place }
    ensures { (state board.new.keeper.me.0).place ≡ (state board.old.keeper.me.0).place }
{
    let mut seat = LocalSeat { board, member };
    settle(&mut seat)
}

const PICKS: [Pick; 4] = [Pick::Oldest, Pick::Newest, Pick::Mixed(1), Pick::Mixed(2)];

/// Whether the log chunk at this word has the batch of one put of the key. None where it is torn.
fn has_batch(image: &SteadyRegion, chunk: u64, key: u64) -> Option<bool>
    requires { chunk ≤ 6000 }
{
    match (word(image, chunk), word(image, chunk + 1)) {
        (0, _) => Some(false),
        (1, 0) => Some(false),
        (1, 8) => {
            if word(image, chunk + 32) == 0x100_0015
                && word(image, chunk + 33) == key
                && word(image, chunk + 34) == 97
            {
                Some(true)
            } else {
                None
            }
        }
        _ => None,
    }
}

/// How many of the two batches an image has, core 1's first. None where it has anything else.
fn batches_in(image: &SteadyRegion) -> Option<u32> {
    match (has_batch(image, 3584, 1)?, has_batch(image, 1536, 0)?) {
        (false, false) => Some(0),
        (true, false) => Some(1),
        (true, true) => Some(2),
        (false, true) => None,
    }
}

/// How many batches an image of this stamp has.
fn batches_at(
    alloc: Global,
    region: &SteadyRegion,
    stamp: u64,
    pick: Pick,
) -> Result<Option<u32>, Fail> {
    let mut image = region.image_at(alloc, stamp, pick)?;
    image.attach(alloc)?;
    Ok(batches_in(&image))
}

/// Whether each image of this stamp has a prefix of the batches, in the order in which they were written: of so many
/// batches, where a number is given.
fn are_prefixes(
    alloc: Global,
    region: &SteadyRegion,
    stamp: u64,
    count: Option<u32>,
) -> Result<bool, Fail> {
    for pick in PICKS {
        let found = batches_at(alloc, region, stamp, pick)?;
        if found.is_none() || count.is_some() && found != count {
            return Ok(false);
        }
    }
    Ok(true)
}

/// Whether the images are of no batch at the first stamp, of both at the last, and of a prefix at each between.
fn are_written_in_order(alloc: Global, region: &SteadyRegion, start: u64) -> Result<bool, Fail> {
    for stamp in start..region.stamp() {
        if !are_prefixes(alloc, region, stamp, None)? {
            return Ok(false);
        }
    }
    let first = are_prefixes(alloc, region, start, Some(0))?;
    let last = are_prefixes(alloc, region, region.stamp(), Some(2))?;
    Ok(first && last)
}

/// A batch of each of the two cores, which gather before either writes.
fn gather_both(rt: &HostRuntime, board: &mut LocalBoard) -> Result<Option<(Batch, Batch)>, Fail>
    requires { state board.old.keeper.me.0 ≡ fresh }
    ensures { IfOk result (λ both. IfSome both
        (λ b. HaveBatches (state board.new.keeper.me.0) b.0 b.1)) }
{
    let buffer = BatchBuffer::open(rt.alloc())?;
    let another = BatchBuffer::open(rt.alloc())?;
    let change = put(rt, 0)?;
    let other = put(rt, 1)?;
    Ok(both_gather(board, change, buffer, other, another))
}

/// Both write, the second first, each into its own log. Gives whether they could.
fn write_both(
    alloc: Global,
    region: &mut SteadyRegion,
    board: &mut LocalBoard,
    first: Batch,
    second: Batch,
) -> Result<bool, Fail>
    requires batches { HaveBatches (state board.old.keeper.me.0) first second }
    requires region { IsBlankRegion (steady_state region.old) }
    ensures { IfOk result (λ is_written. is_written ≡ true
        → members (state board.new.keeper.me.0).place ≡ 3) }
{
    let mut log = open_log(alloc, 0)?;
    let mut other = open_log(alloc, 1)?;
    Ok(both_write(region, &mut log, &mut other, board, first, second))
}

/// What is seen of the two batches: their first names, the homes of the changes that came back, and whether the images
/// show them in their order. Where they could not be written, nothing says of homes and images.
type Seen = (
    (Name, Name),
    Option<(Option<u32>, Option<u32>)>,
    Option<bool>,
);

/// The ways of both batches. None where they could not be gathered.
fn lead_both(
    rt: &HostRuntime,
    region: &mut SteadyRegion,
    board: &mut LocalBoard,
) -> Result<Option<Seen>, Fail>
    requires region { IsBlankRegion (steady_state region.old) }
    requires board { state board.old.keeper.me.0 ≡ fresh }
{
    let start = region.stamp();
    let Some((first, second)) = gather_both(rt, board)? else {
        return Ok(None);
    };
    let names = (name_in(&first, 0), name_in(&second, 0));
    if !write_both(rt.alloc(), region, board, first, second)? {
        return Ok(Some((names, None, None)));
    }
    let homes = (settle_at(board, 0), settle_at(board, 1));
    let in_order = are_written_in_order(rt.alloc(), region, start)?;
    Ok(Some((names, Some(homes), Some(in_order))))
}

/// Both batches in a blank region.
fn seen_of_both(rt: &HostRuntime) -> Result<Option<Seen>, Fail> {
    let mut region = blank_region(rt.alloc())?;
    let mut board = open_small(rt)?;
    lead_both(rt, &mut region, &mut board)
}

#[test]
fn a_second_leader_before_the_first_wrote(rt: HostRuntime) -> Result<(), Fail> {
    let seen = seen_of_both(&rt)?;
    let names = (Some((0, 1)), Some((1, 1)));
    let homes = (Some(0), Some(1));
    assert_eq!(rt; seen, Some((names, Some(homes), Some(true))));
    Ok(())
}
