// One change's way, the lock and a mailbox, at the board of one thread. The requests and answers are those that the
// calls themselves describe.
ghost use Rattle.std.specs.Prelude.{◌≡◌, ◌≢◌, ◌<◌, ℕ, [], IfOk, IfSome, MatchResult};
ghost use Rattle.group_laws.specs.Places as places;
ghost use Rattle.group_board.specs.Journals.{state};
ghost use Rattle.group_laws.specs.MemberViews.{view_of};
ghost use Rattle.group_board.specs.Conditions.{MayPost, MayLock};
ghost use Rattle.group_tests.specs.BoardTrials.{small_words, fresh, first_put, long_put, Leads, Has};

use crate::no_region::NoRegion;
use fs_model::model::Value;
use group_board::{Board, Busy, Change, LocalBoard, LocalSeat, Names, Notices, Opening, SlotState};
use log_entry::entry::{Body, Entry};
use std::test::Fail;

/// Three cores of one group on an empty region.
struct Small;

impl Opening for Small {
    ghost words = { small_words };

    ghost bytes = { 53248 };

    ghost group = { 0 };
}

fn open_small(rt: &HostRuntime) -> Result<LocalBoard, Fail>
    ensures { IfOk result (λ b. state b.keeper.me.0 ≡ fresh) }
{
    let board = LocalBoard::open::<Small>(rt.alloc(), 3)?;
    Ok(board)
}

/// Posts a change in slot 0, with the bytes behind its pointer, and tries to become the leader.
fn offer<B: Board>(board: &mut B, change: Change, value: &[u8]) -> Result<(), Busy>
    requires post { MayPost (B.seat board.old).place (B.seat board.old).number
        (B.view board.old) 0 change value.now }
    requires lock { MayLock (B.seat board.old).place (B.seat board.old).number (B.view board.old) }
    ensures { IfOk result (λ _. Leads (B.seat board.new).place (B.seat board.new).number
        (B.view board.new)) }
{
    board.post(&NoRegion, 0, change, value);
    board.try_lock()
}

/// Takes what the leader itself offers in slot 0.
fn collect<B: Board>(board: &mut B) -> Option<Change>
    requires { Leads (B.seat board.old).place (B.seat board.old).number (B.view board.old) }
    ensures { IfSome result (λ c. Has (B.seat board.new).place (B.seat board.new).number
        (B.view board.new) c.entry) }
{
    let member = board.member();
    match board.look(member, 0) {
        SlotState::Posted { words: _ } => Some(board.take(member, 0)),
        _ => None,
    }
}

/// Gives the lock and the own change back, as certain.
fn give_back<B: Board>(board: &mut B, change: Change)
    requires { Has (B.seat board.old).place (B.seat board.old).number
        (B.view board.old) change.entry }
    ensures { (B.seat board.new).number < places.members (B.seat board.new).place }
{
    let member = board.member();
    board.unlock();
    board.commit(&NoRegion);
    board.mark(member, 0, change);
}

/// Gives the lock and the own change back, as one that could not be written.
fn give_up<B: Board>(board: &mut B, change: Change)
    requires { Has (B.seat board.old).place (B.seat board.old).number
        (B.view board.old) change.entry }
    ensures { (B.seat board.new).number < places.members (B.seat board.new).place }
{
    let member = board.member();
    board.unlock();
    board.fail(member, 0, change);
}

/// Takes the own change back from slot 0.
fn settle<B: Board>(board: &mut B) -> Option<Change>
    requires { (B.seat board.old).number < places.members (B.seat board.old).place }
{
    let member = board.member();
    match board.look(member, 0) {
        SlotState::Done => Some(board.finish(0)),
        SlotState::Failed => Some(board.finish(0)),
        _ => None,
    }
}

/// Takes the own change back from slot 0 before anybody took it, and cleans nothing.
fn retract<B: Board>(board: &mut B) -> Option<Change>
    requires { Leads (B.seat board.old).place (B.seat board.old).number (B.view board.old) }
{
    let member = board.member();
    match board.look(member, 0) {
        SlotState::Posted { words: _ } => Some(board.withdraw(0)),
        _ => None,
    }
}

/// Lets nothing vanish, and says that it did.
fn clean_nothing<B: Board>(board: &mut B)
    requires { (B.seat board.old).number < places.members (B.seat board.old).place }
{
    board.doom(&NoRegion, &[]);
    board.retire(&NoRegion, &[]);
}

/// A put of one byte under key 1.
fn put(rt: &HostRuntime) -> Result<Change, Fail>
    ensures { IfOk result (λ c. c ≡ first_put) }
{
    let bytes = Vec::from_slice(rt.alloc(), b"a")?;
    Ok(Change {
        entry: Entry {
            key: 1,
            version: 1,
            body: Body::Embedded(Value::of(bytes)),
        },
        home: None,
    })
}

/// A put under key 1 of a value with a block.
fn put_long() -> Change
    ensures { result ≡ long_put }
{
    Change {
        entry: Entry {
            key: 1,
            version: 1,
            body: Body::Pointer(98),
        },
        home: None,
    }
}

/// How far member 1's change came.
#[derive(Clone, Copy, Debug, PartialEq, Eq)]
enum Way {
    LockHeld,
    NotTaken,
    TakenWithHome,
    NotBack,
    Back {
        home: Option<u32>,
        key: u64,
        version: u32,
    },
}

fn way_back(change: Option<Change>) -> Way {
    match change {
        Some(change) => Way::Back {
            home: change.home,
            key: change.entry.key,
            version: change.entry.version,
        },
        None => Way::NotBack,
    }
}

/// It is written.
fn way_when_certain(board: &mut LocalBoard, change: Change) -> Way
    requires board { state board.old.keeper.me.0 ≡ fresh }
    requires change { change ≡ first_put }
{
    let mut seat = LocalSeat { board, member: 1 };
    if offer(&mut seat, change, &[]).is_err() {
        return Way::LockHeld;
    }
    let Some(change) = collect(&mut seat) else {
        return Way::NotTaken;
    };
    let has_home = change.home.is_some();
    give_back(&mut seat, change);
    if has_home {
        return Way::TakenWithHome;
    }
    way_back(settle(&mut seat))
}

/// It could not be written.
fn way_when_lost(board: &mut LocalBoard, change: Change) -> Way
    requires board { state board.old.keeper.me.0 ≡ fresh }
    requires change { change ≡ first_put }
{
    let mut seat = LocalSeat { board, member: 1 };
    if offer(&mut seat, change, &[]).is_err() {
        return Way::LockHeld;
    }
    let Some(change) = collect(&mut seat) else {
        return Way::NotTaken;
    };
    give_up(&mut seat, change);
    way_back(settle(&mut seat))
}

/// It has a block, and is taken back.
fn way_when_retracted(board: &mut LocalBoard) -> Way
    requires { state board.old.keeper.me.0 ≡ fresh }
{
    let value = [7; 256];
    let change = put_long();
    let mut seat = LocalSeat { board, member: 1 };
    if offer(&mut seat, change, &value).is_err() {
        return Way::LockHeld;
    }
    way_back(retract(&mut seat))
}

/// What becomes of a change.
#[derive(Clone, Copy)]
enum End {
    Certain,
    Lost,
    Retracted,
}

fn way_to(rt: &HostRuntime, end: End) -> Result<Way, Fail> {
    let mut board = open_small(rt)?;
    Ok(match end {
        End::Certain => way_when_certain(&mut board, put(rt)?),
        End::Lost => way_when_lost(&mut board, put(rt)?),
        End::Retracted => way_when_retracted(&mut board),
    })
}

#[test]
fn the_way_of_one_change(rt: HostRuntime) -> Result<(), Fail> {
    let way = way_to(&rt, End::Certain)?;
    let back = Way::Back {
        home: Some(1),
        key: 1,
        version: 1,
    };
    assert_eq!(rt; way, back);
    Ok(())
}

/// As it was posted.
const UNWRITTEN: Way = Way::Back {
    home: None,
    key: 1,
    version: 1,
};

#[test]
fn a_change_that_could_not_be_written(rt: HostRuntime) -> Result<(), Fail> {
    let way = way_to(&rt, End::Lost)?;
    assert_eq!(rt; way, UNWRITTEN);
    Ok(())
}

#[test]
fn a_change_that_is_taken_back(rt: HostRuntime) -> Result<(), Fail> {
    let way = way_to(&rt, End::Retracted)?;
    assert_eq!(rt; way, UNWRITTEN);
    Ok(())
}

/// Tries the lock, and gives the holder that it found.
fn lock(board: &mut LocalBoard, member: u32) -> Option<u32>
    requires { MayLock (state board.old.keeper.me.0).place member
        (view_of (state board.old.keeper.me.0) member) }
    ensures { (m : ℕ) → m ≢ member → MayLock (state board.old.keeper.me.0).place m
        (view_of (state board.old.keeper.me.0) m) → MayLock (state board.new.keeper.me.0).place m
        (view_of (state board.new.keeper.me.0) m) }
{
    let mut seat = LocalSeat { board, member };
    match seat.try_lock() {
        Ok(_) => None,
        Err(busy) => Some(busy.holder),
    }
}

/// What two members find, one behind the other.
fn holders(rt: &HostRuntime) -> Result<(Option<u32>, Option<u32>), Fail> {
    let mut board = open_small(rt)?;
    let free = lock(&mut board, 1);
    let held = lock(&mut board, 2);
    Ok((free, held))
}

#[test]
fn the_lock_has_one_holder(rt: HostRuntime) -> Result<(), Fail> {
    let found = holders(&rt)?;
    assert_eq!(rt; found, (None, Some(1)));
    Ok(())
}

/// Notices of nothing.
fn no_notices(rt: &HostRuntime) -> Result<Notices, Fail>
    ensures { IfOk result (λ n. (n.dead.names ≡ []) × (n.gone.names ≡ [])) }
{
    let dead = Names::with_room(rt.alloc(), 0)?;
    let gone = Names::with_room(rt.alloc(), 0)?;
    Ok(Notices { dead, gone })
}

/// Whether a mailbox was full, and the notices came back.
fn is_refused(rt: &HostRuntime, board: &mut LocalBoard, from: u32, to: u32) -> Result<bool, Fail>
    requires members { places.members (state board.old.keeper.me.0).place ≡ 3 }
    requires pair { (from < 3) × (to < 3) × (to ≢ from) }
    ensures { IfOk result (λ _. places.members (state board.new.keeper.me.0).place ≡ 3) }
{
    let notices = no_notices(rt)?;
    let mut seat = LocalSeat {
        board,
        member: from,
    };
    let sent = seat.send(to, notices);
    Ok(sent.is_err())
}

/// Whether a mailbox had something.
fn is_received(board: &mut LocalBoard, from: u32, to: u32) -> bool
    requires members { places.members (state board.old.keeper.me.0).place ≡ 3 }
    requires pair { (from < 3) × (to < 3) }
    ensures { places.members (state board.new.keeper.me.0).place ≡ 3 }
{
    let mut seat = LocalSeat { board, member: to };
    let received = seat.receive(from);
    received.is_some()
}

/// Whether a mailbox is empty until something is sent, then full, and empty again once it was read.
fn holds_one(rt: &HostRuntime, board: &mut LocalBoard, from: u32, to: u32) -> Result<bool, Fail>
    requires members { places.members (state board.old.keeper.me.0).place ≡ 3 }
    requires pair { (from < 3) × (to < 3) × (to ≢ from) }
    ensures { IfOk result (λ _. places.members (state board.new.keeper.me.0).place ≡ 3) }
{
    let unsent = is_received(board, from, to);
    let first = is_refused(rt, board, from, to)?;
    let second = is_refused(rt, board, from, to)?;
    let read = is_received(board, from, to);
    let again = is_received(board, from, to);
    Ok(!unsent && !first && second && read && !again)
}

/// The mailbox from member 0 to member 1 is filled first and read last: whether it was full, whether it had something,
/// and whether each of the other five holds one message.
fn hold_each(rt: &HostRuntime, board: &mut LocalBoard) -> Result<(bool, bool, bool), Fail>
    requires { places.members (state board.old.keeper.me.0).place ≡ 3 }
    ensures { IfOk result (λ _. places.members (state board.new.keeper.me.0).place ≡ 3) }
{
    let there = is_refused(rt, board, 0, 1)?;
    let back = holds_one(rt, board, 1, 0)?;
    let on = holds_one(rt, board, 1, 2)?;
    let home = holds_one(rt, board, 2, 1)?;
    let far = holds_one(rt, board, 0, 2)?;
    let near = holds_one(rt, board, 2, 0)?;
    let read = is_received(board, 0, 1);
    Ok((there, read, back && on && home && far && near))
}

/// The same at a board that just opened, where nothing is cleaned afterwards.
fn hold_on_small(rt: &HostRuntime) -> Result<(bool, bool, bool), Fail> {
    let mut board = open_small(rt)?;
    let held = hold_each(rt, &mut board)?;
    let mut seat = LocalSeat {
        board: &mut board,
        member: 1,
    };
    clean_nothing(&mut seat);
    Ok(held)
}

#[test]
fn a_mailbox_in_each_direction(rt: HostRuntime) -> Result<(), Fail> {
    let held = hold_on_small(&rt)?;
    assert_eq!(rt; held, (false, true, true));
    Ok(())
}
