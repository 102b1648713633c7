// One change's way through a leader's hands, at the board of one thread. What is expected is what the format says of a
// batch.
ghost use Rattle.std.specs.Prelude.{◌≡◌, ◌≢◌, ◌<◌, ◌≤◌, ℕ, true, false, [], IfOk, IfSome, Option};
ghost use Rattle.region_memory.specs.Steady.{steady_state};
ghost use Rattle.licence.specs.Writes.{Begins};
ghost use Rattle.group_laws.specs.Places.{members};
ghost use Rattle.group_board.specs.Journals.{state};
ghost use Rattle.group_board.specs.Conditions.{MayPost, MayLock};
ghost use Rattle.group_tests.specs.BoardTrials.{small_words, fresh};
ghost use Rattle.batch_leader.specs.Leading.{IsBatchOf, IsCertain};
ghost use Rattle.batch_leader.specs.Persisting.{HasRoom, WritesPart};
ghost use Rattle.batch_leader.specs.Rounds.{words_taken};
ghost use Rattle.group_tests.specs.LeadTrials.{put_of, empty_room, IsBlankRegion, IsEmptyLog, IsUnwritten, LeavesOthers, FitsFresh};

use crate::no_region::NoRegion;
use batch_leader::{Batch, BatchBuffer, Collected, Persisted, Released, lead};
use chunk_map::Layout;
use core_log::{CoreLog, Room};
use fs_model::model::Value;
use group_board::{Board, Change, LocalBoard, LocalSeat, Opening, SlotState};
use log_entry::{Body, Entry};
use pm_region::{Region, SplitRegion};
use region_memory::SteadyRegion;
use std::alloc::Global;
use std::test::Fail;

/// Three cores of one group on an empty region.
pub(crate) struct Small;

impl Opening for Small {
    ghost words = { small_words };

    ghost bytes = { 53248 };

    ghost group = { 0 };
}

pub(crate) fn open_small(rt: &HostRuntime) -> Result<LocalBoard, Fail>
    ensures { IfOk result (λ b. state b.keeper.me.0 ≡ fresh) }
{
    let board = LocalBoard::open::<Small>(rt.alloc(), 3)?;
    Ok(board)
}

/// A put of one byte.
pub(crate) fn put(rt: &HostRuntime, key: u64) -> Result<Change, Fail>
    ensures { IfOk result (λ c. c ≡ put_of key) }
{
    let bytes = Vec::from_slice(rt.alloc(), b"a")?;
    Ok(Change {
        entry: Entry {
            key,
            version: 1,
            body: Body::Embedded(Value::of(bytes)),
        },
        home: None,
    })
}

/// The room of an empty part.
pub(crate) fn empty_room() -> Room
    ensures { result ≡ empty_room }
{
    Room {
        open_lines: 0,
        free_chunks: 4,
        pledged_lines: 1,
        payload_lines: 60,
    }
}

/// Posts a change, leads, takes it, goes on to the round's end, and gives the lock back.
pub(crate) fn gather<B: Board>(board: &mut B, change: Change, buffer: BatchBuffer) -> Option<Batch>
    requires post { MayPost (B.seat board.old).place (B.seat board.old).number (B.view board.old)
        0 change [] }
    requires lock { MayLock (B.seat board.old).place (B.seat board.old).number (B.view board.old) }
    requires idle { (B.view board.old).flying ≡ [] }
    requires group { members (B.seat board.old).place ≤ 8 }
    requires put { (k : ℕ) × (change ≡ put_of k) }
    ensures seat { B.seat board.new ≡ B.seat board.old }
    ensures batch { IfSome result (IsBatchOf (B.seat board.old) (B.view board.new)) }
    ensures fits { IfSome result FitsFresh }
    ensures others { IfSome result (λ _. LeavesOthers (B.whole board.old) (B.whole board.new)
        (B.seat board.old).number) }
    ensures unwritten { IfSome result (λ _. IsUnwritten (B.view board.old)
        → IsUnwritten (B.view board.new)) }
{
    let room = empty_room();
    board.post(&NoRegion, 0, change, &[]);
    let Ok(mut leader) = lead(board, buffer) else {
        return None;
    };
    let _first = leader.collect(board, &room);
    match leader.collect(board, &room) {
        Collected::Took => None,
        Collected::RoundOver => match leader.release(board) {
            Released::Batch(batch) => Some(batch),
            Released::Nothing(_) => None,
        },
    }
}

/// Writes a batch into this fresh chunk of the own part, and marks all of it.
pub(crate) fn write_back<B: Board>(
    region: &mut SteadyRegion,
    log: &mut CoreLog,
    board: &mut B,
    batch: Batch,
    chunk: u32,
) -> bool
    requires batch { IsBatchOf (B.seat board.old) (B.view board.old) batch }
    requires begins { Begins (steady_state region.old) (B.seat board.old).place
        (B.seat board.old).number (B.view board.old) log.old }
    requires room { HasRoom (steady_state region.old) log.old
        (words_taken batch.changes.taken.items) (Option.Some chunk) }
    ensures seat { B.seat board.new ≡ B.seat board.old }
    ensures outside { WritesPart (steady_state region.old) (steady_state region.new)
        (B.seat board.old) }
    ensures others { result ≡ true → LeavesOthers (B.whole board.old) (B.whole board.new)
        (B.seat board.old).number }
{
    let Ok(mut done) = batch.persist(region, log, board, Some(chunk)) else {
        return false;
    };
    done.mark_all(board);
    done.is_done()
}

/// Takes the own change back from slot 0, and gives its home.
pub(crate) fn settle<B: Board>(board: &mut B) -> Option<u32>
    requires { (B.seat board.old).number < members (B.seat board.old).place }
    ensures { B.seat board.new ≡ B.seat board.old }
{
    let member = board.member();
    match board.look(member, 0) {
        SlotState::Done => board.finish(0).home,
        _ => None,
    }
}

pub(crate) fn word(region: &SteadyRegion, at: u64) -> u64 {
    if region.first() == 0 && at < region.words() {
        region.load(at)
    } else {
        0
    }
}

/// Whether a region has these words, each by its number.
pub(crate) fn has_words(region: &SteadyRegion, words: &[(u64, u64)]) -> bool {
    for (at, value) in words {
        if word(region, *at) != *value {
            return false;
        }
    }
    true
}

/// The key and the version of an entry, where there is one.
pub(crate) type Name = Option<(u64, u32)>;

/// The key and the version of a batch's entry with this number.
pub(crate) fn name_in(batch: &Batch, at: u64) -> Name {
    batch.name_at(at).map(|name| (name.key, name.version))
}

/// Whether just one change is marked, and all are then.
fn marks_one<B: Board>(done: &mut Persisted, board: &mut B) -> bool
    requires { IsCertain (B.seat board.old) (B.view board.old) done.old.left.taken.items }
    ensures seat { B.seat board.new ≡ B.seat board.old }
    ensures none { done.new.left.taken.items ≡ [] }
{
    let first = done.mark_one(board);
    let second = done.mark_one(board);
    done.mark_all(board);
    first && !second && done.is_done()
}

/// Writes a batch into chunk 2 of the own part. Gives whether just one change is marked, and none where the batch could
/// not be written.
fn write_and_mark<B: Board>(
    region: &mut SteadyRegion,
    log: &mut CoreLog,
    board: &mut B,
    batch: Batch,
) -> Option<bool>
    requires batch { IsBatchOf (B.seat board.old) (B.view board.old) batch }
    requires begins { Begins (steady_state region.old) (B.seat board.old).place
        (B.seat board.old).number (B.view board.old) log.old }
    requires room { HasRoom (steady_state region.old) log.old
        (words_taken batch.changes.taken.items) (Option.Some 2) }
    ensures seat { B.seat board.new ≡ B.seat board.old }
{
    let Ok(mut done) = batch.persist(region, log, board, Some(2)) else {
        return None;
    };
    let marked = marks_one(&mut done, board);
    let _buffer = done.done();
    Some(marked)
}

/// What is seen of a batch of one change: whether it needs a chunk, its first two names, whether just one change is
/// marked, and the home of the change that came back. Where it could not be written, nothing says whether it is marked.
type Seen = (bool, (Name, Name), Option<bool>, Option<u32>);

/// Member 1's batch, from its post to its return. None where it could not be gathered.
fn lead_one(
    board: &mut LocalBoard,
    region: &mut SteadyRegion,
    log: &mut CoreLog,
    change: Change,
    buffer: BatchBuffer,
) -> Option<Seen>
    requires board { state board.old.keeper.me.0 ≡ fresh }
    requires change { change ≡ put_of 1 }
    requires region { IsBlankRegion (steady_state region.old) }
    requires log { IsEmptyLog log.old 1 }
{
    let mut seat = LocalSeat { board, member: 1 };
    let batch = gather(&mut seat, change, buffer)?;
    let needs_chunk = batch.needs_chunk();
    let names = (name_in(&batch, 0), name_in(&batch, 1));
    let marked = write_and_mark(region, log, &mut seat, batch);
    let home = settle(&mut seat);
    Some((needs_chunk, names, marked, home))
}

/// The log of a core, with no chunk yet.
pub(crate) fn open_log(alloc: Global, core: u32) -> Result<CoreLog, Fail>
    requires { core < 3 }
    ensures { IfOk result (λ log. IsEmptyLog log core) }
{
    let layout = Layout::new(3, 3, 4, 4096)?;
    let log = CoreLog::open(alloc, layout, core, Vec::new(alloc))?;
    Ok(log)
}

/// A region of three parts with nothing in them.
pub(crate) fn blank_region(alloc: Global) -> Result<SteadyRegion, Fail>
    ensures { IfOk result (λ r. IsBlankRegion (steady_state r)) }
{
    let mut region = SteadyRegion::new(alloc, Vec::new(alloc), 100)?;
    region.create(alloc, 6656)?;
    Ok(region)
}

/// The batch of a group that just opened.
fn batch_of_one(rt: &HostRuntime, region: &mut SteadyRegion) -> Result<Option<Seen>, Fail>
    requires { IsBlankRegion (steady_state region.old) }
{
    let mut log = open_log(rt.alloc(), 1)?;
    let mut board = open_small(rt)?;
    let change = put(rt, 1)?;
    let buffer = BatchBuffer::open(rt.alloc())?;
    Ok(lead_one(&mut board, region, &mut log, change, buffer))
}

/// What is seen of the batch, and whether the region has its words.
fn seen_of_one(rt: &HostRuntime) -> Result<(Option<Seen>, bool), Fail> {
    let mut region = blank_region(rt.alloc())?;
    let seen = batch_of_one(rt, &mut region)?;
    Ok((seen, has_words(&region, &WORDS)))
}

/// Chunk 2 of part 1: a log of one line, with the entry's first words.
const WORDS: [(u64, u64); 4] = [(3584, 1), (3585, 8), (3616, 0x100_0015), (3617, 1)];

#[test]
fn a_batch_of_one_change(rt: HostRuntime) -> Result<(), Fail> {
    let seen = seen_of_one(&rt)?;
    let wanted = (true, (Some((1, 1)), None), Some(true), Some(1));
    assert_eq!(rt; seen, (Some(wanted), true));
    Ok(())
}
