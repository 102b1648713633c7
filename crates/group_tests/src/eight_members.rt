// A full batch: one leader takes eight changes of each of eight members, at the board of one thread. What is expected
// is what the format says of a batch.
ghost use Rattle.std.specs.Prelude.{◌≡◌, ◌*◌, ◌+◌, ◌/◌, ◌%◌, ◌<◌, ◌≤◌, false, true, [], IfOk, IfSome, OnOk};
ghost use Rattle.region_memory.specs.Steady.{steady_state};
ghost use Rattle.group_laws.specs.Places.{members};
ghost use Rattle.group_laws.specs.MemberViews.{view_of};
ghost use Rattle.group_board.specs.Journals.{state};
ghost use Rattle.group_board.specs.Conditions.{MayPost, MayLock};
ghost use Rattle.group_board.specs.Views.{after_post};
ghost use Rattle.batch_leader.specs.Leading.{IsBatchOf};
ghost use Rattle.group_tests.specs.LeadTrials.{put_of, IsBlank, IsEmptyLogOf, IsUnwritten, FitsFresh, KeepsOthers, LeavesOthers};
ghost use Rattle.group_tests.specs.EightTrials.{eight_words, eight_place, eight_fresh, key_at, IsPosted, HasBatch};

use crate::leader_tests::{Name, empty_room, has_words, name_in, put};
use crate::no_region::NoRegion;
use crate::two_leaders::write_at;
use batch_leader::{Batch, BatchBuffer, Collected, Released, lead};
use chunk_map::Layout;
use core_log::CoreLog;
use group_board::{Board, Change, LocalBoard, LocalSeat, Opening, SlotState};
use pm_region::SplitRegion;
use region_memory::SteadyRegion;
use std::alloc::Global;
use std::test::Fail;

/// Eight cores of one group on an empty region.
struct Eight;

impl Opening for Eight {
    ghost words = { eight_words };

    ghost bytes = { 135168 };

    ghost group = { 0 };
}

fn open_eight(rt: &HostRuntime) -> Result<LocalBoard, Fail>
    ensures { IfOk result (λ b. state b.keeper.me.0 ≡ eight_fresh) }
{
    let board = LocalBoard::open::<Eight>(rt.alloc(), 8)?;
    Ok(board)
}

/// Which change is posted with this number: the key is one of member `number / 8`.
fn key_at(number: u32) -> u64
    requires { number < 64 }
    ensures { result ≡ key_at number }
{
    (8 * (number % 8) + number / 8) as u64
}

/// Posts a change that points to no block.
fn post<B: Board>(board: &mut B, slot: u32, change: Change)
    requires { MayPost (B.seat board.old).place (B.seat board.old).number (B.view board.old)
        slot change [] }
    ensures seat { B.seat board.new ≡ B.seat board.old }
    ensures view { B.view board.new ≡ after_post slot change.entry [] (B.view board.old) }
    ensures others { LeavesOthers (B.whole board.old) (B.whole board.new)
        (B.seat board.old).number }
{
    board.post(&NoRegion, slot, change, &[]);
}

/// A member posts a change.
fn post_at(board: &mut LocalBoard, member: u32, slot: u32, change: Change)
    requires { MayPost (state board.old.keeper.me.0).place member
        (view_of (state board.old.keeper.me.0) member) slot change [] }
    ensures place { (state board.new.keeper.me.0).place ≡ (state board.old.keeper.me.0).place }
    ensures view { view_of (state board.new.keeper.me.0) member
        ≡ after_post slot change.entry [] (view_of (state board.old.keeper.me.0) member) }
    ensures others { KeepsOthers (state board.old.keeper.me.0) (state board.new.keeper.me.0)
        member }
{
    let mut seat = LocalSeat { board, member };
    post(&mut seat, slot, change);
}

/// Each member posts a change in each of its slots.
fn post_all(rt: &HostRuntime, board: &mut LocalBoard) -> Result<(), Fail>
    requires { state board.old.keeper.me.0 ≡ eight_fresh }
    ensures { OnOk result (IsPosted 64 (state board.new.keeper.me.0)) }
{
    for number in 0..64 {
        let change = put(rt, key_at(number))?;
        post_at(board, number / 8, number % 8, change);
    }
    Ok(())
}

/// Leads, takes 64 changes, finds the round over, and gives the lock back.
fn gather_all<B: Board>(board: &mut B, buffer: BatchBuffer) -> Option<Batch>
    requires lock { MayLock (B.seat board.old).place (B.seat board.old).number (B.view board.old) }
    requires idle { (B.view board.old).flying ≡ [] }
    requires whole { (B.view board.old).broken ≡ false }
    requires group { members (B.seat board.old).place ≤ 8 }
    ensures seat { B.seat board.new ≡ B.seat board.old }
    ensures batch { IfSome result (IsBatchOf (B.seat board.old) (B.view board.new)) }
    ensures fits { IfSome result FitsFresh }
    ensures unwritten { IfSome result
        (λ _. IsUnwritten (B.view board.old) → IsUnwritten (B.view board.new)) }
{
    let room = empty_room();
    let Ok(mut leader) = lead(board, buffer) else {
        return None;
    };
    'round: for _ in 0..64 {
        match leader.collect(board, &room) {
            Collected::Took => {}
            Collected::RoundOver => {
                return None;
            }
        }
    }
    match leader.collect(board, &room) {
        Collected::Took => None,
        Collected::RoundOver => match leader.release(board) {
            Released::Batch(batch) => Some(batch),
            Released::Nothing(_) => None,
        },
    }
}

/// Member 0's batch of all that was posted.
fn gather_at(board: &mut LocalBoard, buffer: BatchBuffer) -> Option<Batch>
    requires { IsPosted 64 (state board.old.keeper.me.0) }
    ensures { IfSome result (HasBatch (state board.new.keeper.me.0)) }
{
    let mut seat = LocalSeat { board, member: 0 };
    gather_all(&mut seat, buffer)
}

/// Whether the slot of a member shows that its change is done.
fn is_done_at(board: &mut LocalBoard, member: u32, slot: u32) -> bool
    requires { (member < members (state board.old.keeper.me.0).place) × (slot < 8) }
    ensures { (state board.new.keeper.me.0).place ≡ (state board.old.keeper.me.0).place }
{
    let mut seat = LocalSeat { board, member };
    seat.look(member, slot) == SlotState::Done
}

/// Whether all 64 slots show that their changes are done.
fn all_done(board: &mut LocalBoard) -> bool
    requires { members (state board.old.keeper.me.0).place ≡ 8 }
{
    for number in 0..64 {
        if !is_done_at(board, number / 8, number % 8) {
            return false;
        }
    }
    true
}

/// What is seen of the batch. Where it could not be gathered there are no names, and where it could not be written
/// nothing else is seen either.
#[derive(Clone, Copy)]
struct Seen {
    names: Option<[Name; 4]>,
    is_written: bool,
    is_done: bool,
    has_words: bool,
}

/// The entries whose numbers the test asks for.
fn names_in(batch: &Batch) -> [Name; 4] {
    [
        name_in(batch, 0),
        name_in(batch, 8),
        name_in(batch, 63),
        name_in(batch, 64),
    ]
}

/// Chunk 2 of part 0: a log of 24 lines, 64 entries of three words.
const WORDS: [(u64, u64); 3] = [(1536, 1), (1537, 192), (1568 + 3 * 63 + 1, 63)];

/// Member 0's batch of all that was posted, written into its part.
fn lead_all(
    board: &mut LocalBoard,
    region: &mut SteadyRegion,
    log: &mut CoreLog,
    buffer: BatchBuffer,
) -> Seen
    requires posted { IsPosted 64 (state board.old.keeper.me.0) }
    requires region { IsBlank 16896 (steady_state region.old) }
    requires log { IsEmptyLogOf eight_place.layout log.old 0 }
{
    let mut seen = Seen {
        names: None,
        is_written: false,
        is_done: false,
        has_words: false,
    };
    let Some(batch) = gather_at(board, buffer) else {
        return seen;
    };
    seen.names = Some(names_in(&batch));
    if write_at(region, log, board, 0, batch) {
        seen.is_written = true;
        seen.is_done = all_done(board);
        seen.has_words = has_words(region, &WORDS);
    }
    seen
}

/// The batch of a group that just opened.
fn batch_of_eight(
    rt: &HostRuntime,
    region: &mut SteadyRegion,
    log: &mut CoreLog,
) -> Result<Seen, Fail>
    requires region { IsBlank 16896 (steady_state region.old) }
    requires log { IsEmptyLogOf eight_place.layout log.old 0 }
{
    let mut board = open_eight(rt)?;
    post_all(rt, &mut board)?;
    let buffer = BatchBuffer::open(rt.alloc())?;
    Ok(lead_all(&mut board, region, log, buffer))
}

/// The log of member 0, with no chunk yet.
fn open_log(alloc: Global) -> Result<CoreLog, Fail>
    ensures { IfOk result (λ log. IsEmptyLogOf eight_place.layout log 0) }
{
    let layout = Layout::new(8, 8, 4, 4096)?;
    let log = CoreLog::open(alloc, layout, 0, Vec::new(alloc))?;
    Ok(log)
}

/// A region of eight parts with nothing in them.
fn blank_region(alloc: Global) -> Result<SteadyRegion, Fail>
    ensures { IfOk result (λ r. IsBlank 16896 (steady_state r)) }
{
    let mut region = SteadyRegion::new(alloc, Vec::new(alloc), 100)?;
    region.create(alloc, 16896)?;
    Ok(region)
}

/// The batch in a blank region.
fn seen_of_eight(rt: &HostRuntime) -> Result<Seen, Fail> {
    let mut region = blank_region(rt.alloc())?;
    let mut log = open_log(rt.alloc())?;
    batch_of_eight(rt, &mut region, &mut log)
}

#[test]
fn a_batch_of_64_changes_from_eight_members(rt: HostRuntime) -> Result<(), Fail> {
    let seen = seen_of_eight(&rt)?;
    // own slots first, then member after member
    let names = [Some((0, 1)), Some((1, 1)), Some((63, 1)), None];
    assert_eq!(rt;
        (seen.names, seen.is_written, seen.is_done, seen.has_words),
        (Some(names), true, true, true)
    );
    Ok(())
}
