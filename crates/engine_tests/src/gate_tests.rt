// A put that a gate holds back, and the turns that then write it. The board is opened on what recovery found.
ghost use Rattle.std.specs.Prelude.{◌≡◌, ℕ, List, [], ◌/◌, ◌<◌, ◌%◌, true, false, IfOk, IfSome, OnOk};
ghost use Rattle.pm_region.specs.State.{IsTelling};
ghost use Rattle.region_memory.specs.Steady.{steady_state};
ghost use Rattle.fs_model.specs.Cells.{key_of};
ghost use Rattle.chunk_map.specs.Layouts.{layout_of};
ghost use Rattle.store_image.specs.Soundness as images;
ghost use Rattle.recover.specs.Regions.{IsCertain};
ghost use Rattle.group_laws.specs.OpeningImages.{opened};
ghost use Rattle.group_laws.specs.Places.{owner};
ghost use Rattle.group_board.specs.Journals.{image_of, place_in, state};
ghost use Rattle.engine_tests.specs.WorkerTrials.{IsSeated, IsAtBoard};

use crate::worker_tests::attached;
use core_worker::{Answer, Gate, OpenGate, Point, Turn, Worker};
use fs_model::{Key, Memory, Reply, Request, Value};
use group_board::{Board, LocalBoard, LocalSeat, Opening};
use pm_region::Region;
use recover::recover;
use region_memory::SteadyRegion;
use std::alloc::Global;
use std::marker::{Brand, PhantomData};
use std::process::Abort;
use std::test::Fail;

// No request takes more of them, nor does a cleaning.
const MOST_TURNS: u32 = 50;

/// A gate that refuses all.
pub struct ShutGate;

impl Gate for ShutGate {
    ghost may_refuse = { λ _. true };

    ghost may_pass = { λ _. false };

    fn ready(&self, _core: u32, _point: Point) -> bool {
        false
    }
}

/// The words of a region and its length in bytes, which are known only when the test runs.
trait RegionWords {
    ghost words: { List ℕ };

    ghost bytes: { ℕ };
}

impl RegionWords for Brand {
    ghost words = { [] };

    ghost bytes = { 0 };
}

/// The opening of the second group on them.
struct SecondOn<W> {
    marker: PhantomData<W>,
}

impl<W: RegionWords> Opening for SecondOn<W> {
    ghost words = { W.words };

    ghost bytes = { W.bytes };

    ghost group = { 1 };
}

// The region is passed since what is known of its words must be said of what is passed.
fn open_board<W: RegionWords>(
    alloc: Global,
    _region: &SteadyRegion,
    members: u32,
) -> Result<LocalBoard, Fail>
    requires sound { images.IsSound W.bytes (image_of W.words) }
    requires group { 1
        < (layout_of (image_of W.words)).cores / (layout_of (image_of W.words)).group }
    requires members { (layout_of (image_of W.words)).group ≡ members }
    ensures { IfOk result (λ b.
        state b.keeper.me.0 ≡ opened (place_in 1 W.words) (image_of W.words)) }
{
    let board = LocalBoard::open::<SecondOn<W>>(alloc, members)?;
    Ok(board)
}

/// The worker of core 5 and the board of its group, in which it is member 1.
pub fn seated(alloc: Global, region: &SteadyRegion) -> Result<Option<(Worker, LocalBoard)>, Fail>
    requires first { (steady_state region.now).frame.first ≡ 0 }
    requires tells { IsTelling (steady_state region.now) }
    requires certain { IsCertain (steady_state region.now) }
    ensures { IfOk result (λ o. IfSome o (λ x.
        IsAtBoard (steady_state region.now) (state x.1.keeper.me.0) x.0)) }
{
    if region.words() != 16_896 {
        return Ok(None);
    }
    let found = recover(alloc, region, 135_168)?;
    let layout = found.layout;
    let mut starts = found.starts;
    if layout.cores() != 8 || layout.group() != 4 {
        return Ok(None);
    }
    let start = starts.swap_remove(5);
    let worker = Worker::open(alloc, start, layout)?;
    let board = open_board::<Brand>(alloc, region, 4)?;
    Ok(Some((worker, board)))
}

/// Makes a turn, and gives what it answered.
fn once<B: Board, G: Gate>(
    alloc: Global,
    region: &mut SteadyRegion,
    board: &mut B,
    worker: &mut Worker,
    gate: &G,
) -> Result<(Turn, Option<Answer>), Memory>
    requires { IsSeated (steady_state region.old) (B.seat board.old).place
        (B.seat board.old).number (B.view board.old) worker.old }
    ensures { OnOk result (IsSeated (steady_state region.new) (B.seat board.new).place
        (B.seat board.new).number (B.view board.new) worker.new) }
{
    let turn = worker.turn(alloc, region, board, gate)?;
    let answer = worker.next_answer();
    Ok((turn, answer))
}

/// What a turn answers whose gate refuses, behind the turn that tells another core of a dead name: the first value of
/// key 21 is dead, and stands in that core's log.
fn held_back<B: Board>(
    alloc: Global,
    region: &mut SteadyRegion,
    board: &mut B,
    worker: &mut Worker,
) -> Result<(Turn, Option<Answer>), Memory>
    requires { IsSeated (steady_state region.old) (B.seat board.old).place
        (B.seat board.old).number (B.view board.old) worker.old }
    ensures { OnOk result (IsSeated (steady_state region.new) (B.seat board.new).place
        (B.seat board.new).number (B.view board.new) worker.new) }
{
    match once(alloc, region, board, worker, &ShutGate)? {
        (Turn::Moved, None) => once(alloc, region, board, worker, &ShutGate),
        (_, answer) => Ok((Turn::Moved, answer)),
    }
}

/// Makes turns until one answers or is idle. It gives that answer and the number of turns before.
pub fn turns<B: Board, G: Gate>(
    alloc: Global,
    region: &mut SteadyRegion,
    board: &mut B,
    worker: &mut Worker,
    gate: &G,
) -> Result<(u32, Option<Answer>), Memory>
    requires { IsSeated (steady_state region.old) (B.seat board.old).place
        (B.seat board.old).number (B.view board.old) worker.old }
    ensures { OnOk result (IsSeated (steady_state region.new) (B.seat board.new).place
        (B.seat board.new).number (B.view board.new) worker.new) }
{
    for turn in 0..MOST_TURNS {
        match once(alloc, region, board, worker, gate)? {
            (Turn::Moved, None) => {}
            (_, answer) => {
                return Ok((turn, answer));
            }
        }
    }
    Ok((MOST_TURNS, None))
}

/// A put of three bytes.
pub fn put(alloc: Global, key: Key) -> Result<Request, Fail>
    ensures { IfOk result (λ r. key_of r ≡ key) }
{
    let value = Value::of(Vec::from_slice(alloc, b"abc")?);
    Ok(Request::Put { key, value })
}

/// Accepts a request for one of the core's keys, as request 7. It answers whether it did.
pub fn accept<B: Board>(
    alloc: Global,
    region: &SteadyRegion,
    _board: &B,
    worker: &mut Worker,
    request: Request,
) -> bool
    requires seated { IsSeated (steady_state region.now) (B.seat _board.now).place
        (B.seat _board.now).number (B.view _board.now) worker.old }
    requires own { key_of request % 8 ≡ 5 }
    ensures { IsSeated (steady_state region.now) (B.seat _board.now).place
        (B.seat _board.now).number (B.view _board.now) worker.new }
{
    if !worker.has_room() || worker.leading() || worker.winding_down() {
        return false;
    }
    worker.accept(alloc, region, 7, request).is_ok()
}

/// Has a put accepted, and makes the turns whose gate refuses it: whether it was accepted, what the last of them answered,
/// and whether the put is left without an answer.
fn refused_turn<B: Board>(
    alloc: Global,
    region: &mut SteadyRegion,
    board: &mut B,
    worker: &mut Worker,
) -> Result<(bool, Turn, bool), Fail>
    requires { IsSeated (steady_state region.old) (B.seat board.old).place
        (B.seat board.old).number (B.view board.old) worker.old }
    ensures { OnOk result (IsSeated (steady_state region.new) (B.seat board.new).place
        (B.seat board.new).number (B.view board.new) worker.new) }
{
    let request = put(alloc, 29)?;
    let accepted = accept(alloc, &*region, &*board, worker, request);
    let (turn, answer) = held_back(alloc, region, board, worker)?;
    Ok((accepted, turn, answer.is_none() && worker.pending()))
}

/// Makes the turn that posts the put: what it answered, and whether the put is left without an answer.
fn post_turn<B: Board>(
    alloc: Global,
    region: &mut SteadyRegion,
    board: &mut B,
    worker: &mut Worker,
) -> Result<(Turn, bool), Memory>
    requires { IsSeated (steady_state region.old) (B.seat board.old).place
        (B.seat board.old).number (B.view board.old) worker.old }
    ensures { OnOk result (IsSeated (steady_state region.new) (B.seat board.new).place
        (B.seat board.new).number (B.view board.new) worker.new) }
{
    let (turn, answer) = once(alloc, region, board, worker, &OpenGate)?;
    Ok((turn, answer.is_none()))
}

/// Whether request 7 was stored.
pub fn is_stored(answer: &Option<Answer>) -> bool {
    matches!(
        answer,
        Some(Answer {
            number: 7,
            reply: Reply::Stored,
            ..
        })
    )
}

/// Makes the turns that write the put: how many stand before the one that answers, whether it says that the put was
/// stored, and whether anything is pending then.
fn turns_to_the_answer<B: Board>(
    alloc: Global,
    region: &mut SteadyRegion,
    board: &mut B,
    worker: &mut Worker,
) -> Result<(u32, bool, bool), Memory>
    requires { IsSeated (steady_state region.old) (B.seat board.old).place
        (B.seat board.old).number (B.view board.old) worker.old }
{
    let (before, answer) = turns(alloc, region, board, worker, &OpenGate)?;
    Ok((before, is_stored(&answer), worker.pending()))
}

/// The put is held back, posted once the gate is open, and answered.
fn refused_then_stored<B: Board>(
    test: &impl Abort,
    alloc: Global,
    region: &mut SteadyRegion,
    board: &mut B,
    worker: &mut Worker,
) -> Result<(), Fail>
    requires { IsSeated (steady_state region.old) (B.seat board.old).place
        (B.seat board.old).number (B.view board.old) worker.old }
{
    let refused = refused_turn(alloc, region, board, worker)?;
    assert_eq!(*test; refused, (true, Turn::Idle, true));
    let posted = post_turn(alloc, region, board, worker)?;
    assert_eq!(*test; posted, (Turn::Moved, true));
    // the lock, the take, the unlock, the log and the mark; then the finish answers
    let written = turns_to_the_answer(alloc, region, board, worker)?;
    assert_eq!(*test; written, (5, true, false));
    Ok(())
}

#[test]
fn a_gate_that_refuses(rt: HostRuntime) -> Result<(), Fail> {
    let alloc = rt.alloc();
    let mut region = attached(alloc)?;
    let Some((mut worker, mut board)) = seated(alloc, &region)? else {
        assert!(rt; false, "the worker is seated");
        return Ok(());
    };
    let mut seat = LocalSeat {
        board: &mut board,
        member: 1,
    };
    refused_then_stored(&rt, alloc, &mut region, &mut seat, &mut worker)
}
