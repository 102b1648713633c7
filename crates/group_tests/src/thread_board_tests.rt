// Members in threads of their own, at one table. What is expected is the way of a change as the calls describe it, and
// the numbers of the words as the table has them.
ghost use Rattle.std.specs.Prelude.{◌≡◌, ◌≢◌, ℕ, ◌+◌, ◌<◌, ◌≤◌, true, false, [], ◌∷◌, IfOk, IfSome, IfNone, MatchOption, length};
ghost use Rattle.store_image.specs.Facts.{In};
ghost use Rattle.group_laws.specs.Places as places;
ghost use Rattle.group_tests.specs.BoardTrials.{small_words, Leads};
ghost use Rattle.atomic_board.specs.Deeds.{began};
ghost use Rattle.atomic_board.specs.GroupTables.{id_of, origin_of};
ghost use Rattle.atomic_board.specs.MemberSeats.{seat_of, view_at};
ghost use Rattle.group_tests.specs.ThreadTrials.{pair_words, began_on, entry_of, put_of, Rests, Waits, IsStart};

use crate::no_region::NoRegion;
use atomic_board::{GroupTable, SeatToken};
use fs_model::model::Value;
use group_board::{Board, Change, Names, Notices, Opening, SlotState};
use log_entry::entry::{Body, Entry};
use std::alloc::Global;
use std::test::Fail;
use std::thread;
use std::thread::Threads;

/// How many changes each member makes.
const ROUNDS: u32 = 1000;

/// How often a member looks at its slot before it gives a change up. It is never reached.
const MOST_LOADS: u64 = 1_000_000_000;

/// Two cores of one group on an empty region.
struct TwoCores;

impl Opening for TwoCores {
    ghost words = { pair_words };

    ghost bytes = { 36864 };

    ghost group = { 0 };
}

/// Three cores of one group on an empty region.
struct Three;

impl Opening for Three {
    ghost words = { small_words };

    ghost bytes = { 53248 };

    ghost group = { 0 };
}

/// A member's first put, of one byte.
fn put(alloc: Global, key: u64) -> Result<Change, Fail>
    ensures { IfOk result (λ c. c ≡ put_of key 1) }
{
    let bytes = Vec::from_slice(alloc, b"a")?;
    Ok(Change {
        entry: Entry {
            key,
            version: 1,
            body: Body::Embedded(Value::of(bytes)),
        },
        home: None,
    })
}

/// The put after the one that came back.
fn next_of(change: Change, number: u64, version: u32) -> Change
    requires { (change.entry ≡ entry_of number version) × (version ≤ 1000) }
    ensures { result ≡ put_of number (version + 1) }
{
    Change {
        entry: Entry {
            key: number,
            version: version + 1,
            body: change.entry.body,
        },
        home: None,
    }
}

/// As the leader, takes what a member offers, and gives it back as certain.
fn serve<B: Board>(board: &mut B, owner: u32, version: u32)
    requires waits { Waits (B.seat board.old) version true (B.view board.old) }
    requires owner { owner < places.members (B.seat board.old).place }
    ensures seat { B.seat board.new ≡ B.seat board.old }
    ensures waits { Waits (B.seat board.new) version true (B.view board.new) }
{
    match board.look(owner, 0) {
        SlotState::Posted { words: _ } => {
            let change = board.take(owner, 0);
            board.commit(&NoRegion);
            board.mark(owner, 0, change);
        }
        _ => {}
    }
}

/// As the leader, serves each member.
fn serve_all<B: Board>(board: &mut B, version: u32)
    requires { Waits (B.seat board.old) version true (B.view board.old) }
    ensures seat { B.seat board.new ≡ B.seat board.old }
    ensures waits { Waits (B.seat board.new) version true (B.view board.new) }
{
    for owner in 0..board.members() {
        serve(board, owner, version);
    }
}

/// Leads once, where nobody else does.
fn lead<B: Board>(board: &mut B, version: u32)
    requires { Waits (B.seat board.old) version false (B.view board.old) }
    ensures seat { B.seat board.new ≡ B.seat board.old }
    ensures waits { Waits (B.seat board.new) version false (B.view board.new) }
{
    match board.try_lock() {
        Ok(()) => {
            serve_all(board, version);
            board.unlock();
        }
        Err(_) => {}
    }
}

/// Looks at the own slot once. Where the change is back, it is the answer, and where it is still offered, the member
/// tries to lead.
fn turn<B: Board>(board: &mut B, version: u32) -> Option<Change>
    requires { Waits (B.seat board.old) version false (B.view board.old) }
    ensures seat { B.seat board.new ≡ B.seat board.old }
    ensures back { MatchOption result (Waits (B.seat board.new) version false (B.view board.new))
        (λ c. (c.entry ≡ entry_of (B.seat board.old).number version)
        × IfSome c.home (λ h. Rests (B.seat board.new) (version + 1) (B.view board.new))) }
{
    let member = board.member();
    match board.look(member, 0) {
        SlotState::Done => Some(board.finish(0)),
        SlotState::Posted { words: _ } => {
            lead(board, version);
            None
        }
        _ => None,
    }
}

/// Looks at the own slot until the change is back.
fn wait<B: Board>(board: &mut B, version: u32) -> Option<Change>
    requires { Waits (B.seat board.old) version false (B.view board.old) }
    ensures seat { B.seat board.new ≡ B.seat board.old }
    ensures back { IfSome result (λ c. (c.entry ≡ entry_of (B.seat board.old).number version)
        × IfSome c.home (λ h. Rests (B.seat board.new) (version + 1) (B.view board.new))) }
{
    for _ in 0..MOST_LOADS {
        match turn(board, version) {
            Some(change) => return Some(change),
            None => {}
        }
    }
    None
}

/// The way of one change. Gives the next one, and none where this one did not come back as done.
fn round<B: Board>(board: &mut B, change: Change, version: u32) -> Option<Change>
    requires rests { Rests (B.seat board.old) version (B.view board.old) }
    requires change { (change ≡ put_of (B.seat board.old).number version) × (version ≤ 1000) }
    requires few { (B.seat board.old).number < 8 }
    ensures seat { B.seat board.new ≡ B.seat board.old }
    ensures next { IfSome result (λ c. (c ≡ put_of (B.seat board.old).number (version + 1))
        × Rests (B.seat board.new) (version + 1) (B.view board.new)) }
{
    let number = board.member() as u64;
    board.post(&NoRegion, 0, change, &[]);
    let Some(change) = wait(board, version) else {
        return None;
    };
    match change.home {
        Some(_) => Some(next_of(change, number, version)),
        None => None,
    }
}

/// Makes one change after the other, and gives the number of those that came back as done.
fn rounds<B: Board>(board: &mut B, first: Change) -> u32
    requires rests { Rests (B.seat board.old) 1 (B.view board.old) }
    requires first { first ≡ put_of (B.seat board.old).number 1 }
    requires few { (B.seat board.old).number < 8 }
    ensures { B.seat board.new ≡ B.seat board.old }
{
    let mut change = first;
    for done in 0..ROUNDS {
        match round(board, change, done + 1) {
            Some(next) => change = next,
            None => return done,
        }
    }
    ROUNDS
}

/// A member's changes, at its table.
fn work(table: &GroupTable, token: SeatToken, member: u32, first: Change) -> (SeatToken, u32)
    requires group { began (origin_of table.now) ≡ began_on small_words }
    requires token { IsStart small_words (id_of table.now) member token }
    requires first { (member < 3) × (first ≡ put_of member 1) }
    ensures { seat_of result.0.own ≡ seat_of token.own }
{
    let mut seat = table.attend(token);
    let done = rounds(&mut seat, first);
    (seat.leave(), done)
}

/// The changes of two members, in threads of their own.
fn work_two<R: Threads + Sync>(
    rt: &R,
    table: &GroupTable,
    b: SeatToken,
    c: SeatToken,
    second: Change,
    third: Change,
) -> ((SeatToken, u32), (SeatToken, u32))
    requires group { began (origin_of table.now) ≡ began_on small_words }
    requires b { IsStart small_words (id_of table.now) 1 b }
    requires c { IsStart small_words (id_of table.now) 2 c }
    requires puts { (second ≡ put_of 1 1) × (third ≡ put_of 2 1) }
    ensures b { seat_of result.0.0.own ≡ seat_of b.own }
    ensures c { seat_of result.1.0.own ≡ seat_of c.own }
{
    thread::join(
        rt,
        move || work(table, b, 1, second),
        move || work(table, c, 2, third),
    )
}

/// The changes of all three.
fn work_three<R: Threads + Sync>(
    rt: &R,
    table: &GroupTable,
    tokens: (SeatToken, SeatToken, SeatToken),
    puts: (Change, Change, Change),
) -> (SeatToken, SeatToken, SeatToken, (u32, u32, u32))
    requires group { began (origin_of table.now) ≡ began_on small_words }
    requires a { IsStart small_words (id_of table.now) 0 tokens.0 }
    requires b { IsStart small_words (id_of table.now) 1 tokens.1 }
    requires c { IsStart small_words (id_of table.now) 2 tokens.2 }
    requires puts { (puts.0 ≡ put_of 0 1) × (puts.1 ≡ put_of 1 1) × (puts.2 ≡ put_of 2 1) }
    ensures a { seat_of result.0.own ≡ seat_of tokens.0.own }
    ensures b { seat_of result.1.own ≡ seat_of tokens.1.own }
    ensures c { seat_of result.2.own ≡ seat_of tokens.2.own }
{
    let (a, b, c) = tokens;
    let (first, second, third) = puts;
    let ((a, done), ((b, second_done), (c, third_done))) = thread::join(
        rt,
        move || work(table, a, 0, first),
        move || -> ((SeatToken, u32), (SeatToken, u32))
            requires { (began (origin_of table.now) ≡ began_on small_words)
                × IsStart small_words (id_of table.now) 1 b
                × IsStart small_words (id_of table.now) 2 c
                × (second ≡ put_of 1 1) × (third ≡ put_of 2 1) }
            ensures { (seat_of result.0.0.own ≡ seat_of b.own)
                × (seat_of result.1.0.own ≡ seat_of c.own) }
        { work_two(rt, table, b, c, second, third) },
    );
    (a, b, c, (done, second_done, third_done))
}

/// The tokens of a group of three.
fn three_of(mut tokens: Vec<SeatToken>) -> Option<(SeatToken, SeatToken, SeatToken)>
    requires { length tokens.items ≡ 3 }
    ensures { IfSome result (λ t. tokens.items ≡ t.0 ∷ t.1 ∷ t.2 ∷ []) }
{
    let c = tokens.pop()?;
    let b = tokens.pop()?;
    let a = tokens.pop()?;
    Some((a, b, c))
}

/// The tokens of a group of two.
fn two_of(mut tokens: Vec<SeatToken>) -> Option<(SeatToken, SeatToken)>
    requires { length tokens.items ≡ 2 }
    ensures { IfSome result (λ t. tokens.items ≡ t.0 ∷ t.1 ∷ []) }
{
    let b = tokens.pop()?;
    let a = tokens.pop()?;
    Some((a, b))
}

/// The first puts of three members.
fn three_puts(alloc: Global) -> Result<(Change, Change, Change), Fail>
    ensures { IfOk result (λ p. (p.0 ≡ put_of 0 1) × (p.1 ≡ put_of 1 1) × (p.2 ≡ put_of 2 1)) }
{
    let first = put(alloc, 0)?;
    let second = put(alloc, 1)?;
    let third = put(alloc, 2)?;
    Ok((first, second, third))
}

/// What is seen of three members: how many changes of each came back, how many words the table had when it closed, and
/// those of the lock and of each first slot.
type ThreeSeen = ((u32, u32, u32), usize, [Option<u64>; 4]);

/// Three members at a table that just opened. None where it gave fewer tokens.
fn seen_of_three<R: Threads + Sync>(rt: &R, alloc: Global) -> Result<Option<ThreeSeen>, Fail> {
    let mut table = GroupTable::open::<Three>(alloc, 3)?;
    let tokens = table.seats(alloc)?;
    let puts = three_puts(alloc)?;
    let Some(tokens) = three_of(tokens) else {
        return Ok(None);
    };
    let (a, b, c, done) = work_three(rt, &table, tokens, puts);
    let tokens = Vec::from_array(alloc, [a, b, c])?;
    let words = table.close(tokens);
    let found = [
        words.get(0).copied(),
        words.get(4).copied(),
        words.get(12).copied(),
        words.get(20).copied(),
    ];
    Ok(Some((done, words.len(), found)))
}

#[test]
fn three_threads_make_a_thousand_changes_each(rt: HostRuntime) -> Result<(), Fail> {
    let seen = seen_of_three(&rt, rt.alloc())?;
    let done = (ROUNDS, ROUNDS, ROUNDS);
    assert_eq!(rt; seen, Some((done, 37, [Some(0); 4])));
    Ok(())
}

/// Offers a put and tries the lock once. Gives the holder that it found, and none where it got the lock.
fn first_turn<B: Board>(board: &mut B, change: Change) -> Option<u32>
    requires rests { Rests (B.seat board.old) 1 (B.view board.old) }
    requires change { change ≡ put_of (B.seat board.old).number 1 }
    requires few { (B.seat board.old).number < 8 }
    ensures seat { B.seat board.new ≡ B.seat board.old }
    ensures leads { IfNone result
        (Leads (B.seat board.new).place (B.seat board.new).number (B.view board.new)) }
{
    board.post(&NoRegion, 0, change, &[]);
    match board.try_lock() {
        Ok(()) => None,
        Err(busy) => Some(busy.holder),
    }
}

/// As the leader, takes what a member offers.
fn collect<B: Board>(board: &mut B, owner: u32) -> u32
    requires leads { Leads (B.seat board.old).place (B.seat board.old).number (B.view board.old) }
    requires owner { owner < places.members (B.seat board.old).place }
    ensures seat { B.seat board.new ≡ B.seat board.old }
    ensures leads { Leads (B.seat board.new).place (B.seat board.new).number (B.view board.new) }
    ensures few { result ≤ 1 }
{
    match board.look(owner, 0) {
        SlotState::Posted { words: _ } => {
            board.take(owner, 0);
            1
        }
        _ => 0,
    }
}

/// A member's first turn, at its table.
fn begin(
    table: &GroupTable,
    token: SeatToken,
    member: u32,
    change: Change,
) -> (SeatToken, Option<u32>)
    requires group { began (origin_of table.now) ≡ began_on pair_words }
    requires token { IsStart pair_words (id_of table.now) member token }
    requires change { (member < 2) × (change ≡ put_of member 1) }
    ensures seat { seat_of result.0.own ≡ seat_of token.own }
    ensures leads { IfNone result.1
        (Leads (seat_of result.0.own).place (seat_of result.0.own).number (view_at result.0.own)) }
{
    let mut seat = table.attend(token);
    let found = first_turn(&mut seat, change);
    (seat.leave(), found)
}

/// As the leader, takes what both members offer.
fn take_both(table: &GroupTable, token: SeatToken) -> (SeatToken, u32)
    requires leads { Leads (seat_of token.own).place (seat_of token.own).number
        (view_at token.own) }
    requires table { (seat_of token.own).table ≡ id_of table.now }
    requires two { places.members (seat_of token.own).place ≡ 2 }
    ensures { seat_of result.0.own ≡ seat_of token.own }
{
    let mut seat = table.attend(token);
    let first = collect(&mut seat, 0);
    let second = collect(&mut seat, 1);
    (seat.leave(), first + second)
}

/// Both members' turns in threads of their own, and then the leader's. Gives the leader, the holder that the other
/// found and how many changes the leader took.
fn both<R: Threads + Sync>(
    rt: &R,
    table: &GroupTable,
    tokens: (SeatToken, SeatToken),
    puts: (Change, Change),
) -> (SeatToken, SeatToken, Option<(u32, u32, u32)>)
    requires group { began (origin_of table.now) ≡ began_on pair_words }
    requires a { IsStart pair_words (id_of table.now) 0 tokens.0 }
    requires b { IsStart pair_words (id_of table.now) 1 tokens.1 }
    requires puts { (puts.0 ≡ put_of 0 1) × (puts.1 ≡ put_of 1 1) }
    ensures a { seat_of result.0.own ≡ seat_of tokens.0.own }
    ensures b { seat_of result.1.own ≡ seat_of tokens.1.own }
{
    let (a, b) = tokens;
    let (first, second) = puts;
    let ((a, a_found), (b, b_found)) = thread::join(
        rt,
        move || begin(table, a, 0, first),
        move || begin(table, b, 1, second),
    );
    match (a_found, b_found) {
        (None, Some(holder)) => {
            let (a, taken) = take_both(table, a);
            (a, b, Some((0, holder, taken)))
        }
        (Some(holder), None) => {
            let (b, taken) = take_both(table, b);
            (a, b, Some((1, holder, taken)))
        }
        _ => (a, b, None),
    }
}

/// The first puts of two members.
fn two_puts(alloc: Global) -> Result<(Change, Change), Fail>
    ensures { IfOk result (λ p. (p.0 ≡ put_of 0 1) × (p.1 ≡ put_of 1 1)) }
{
    let first = put(alloc, 0)?;
    let second = put(alloc, 1)?;
    Ok((first, second))
}

/// What is seen of two members: the leader, the holder that the other found and how many changes the leader took, how
/// many words the table had when it closed, and those of the lock and of each first slot.
type TwoSeen = (Option<(u32, u32, u32)>, usize, [Option<u64>; 3]);

/// Two members at a table that just opened. None where it gave fewer tokens.
fn seen_of_two<R: Threads + Sync>(rt: &R, alloc: Global) -> Result<Option<TwoSeen>, Fail> {
    let mut table = GroupTable::open::<TwoCores>(alloc, 2)?;
    let tokens = table.seats(alloc)?;
    let puts = two_puts(alloc)?;
    let Some(tokens) = two_of(tokens) else {
        return Ok(None);
    };
    let (a, b, told) = both(rt, &table, tokens, puts);
    let tokens = Vec::from_array(alloc, [a, b])?;
    let words = table.close(tokens);
    let found = [
        words.get(0).copied(),
        words.get(3).copied(),
        words.get(11).copied(),
    ];
    Ok(Some((told, words.len(), found)))
}

#[test]
fn two_threads_post_and_one_takes_both(rt: HostRuntime) -> Result<(), Fail> {
    let Some(seen) = seen_of_two(&rt, rt.alloc())? else {
        assert!(rt; false, "there are two tokens");
        return Ok(());
    };
    match seen.0 {
        Some((leader, holder, taken)) => {
            assert_eq!(rt; (holder, taken, seen.1), (leader, 2, 23));
            assert_eq!(rt; seen.2, [Some(leader as u64 + 1), Some(2), Some(2)]);
        }
        None => assert!(rt; false, "the words are told"),
    }
    Ok(())
}

/// Notices of nothing.
fn no_notices(rt: &HostRuntime) -> Result<Notices, Fail>
    ensures { IfOk result (λ n. (n.dead.names ≡ []) × (n.gone.names ≡ [])) }
{
    let dead = Names::with_room(rt.alloc(), 0)?;
    let gone = Names::with_room(rt.alloc(), 0)?;
    Ok(Notices { dead, gone })
}

/// Whether a mailbox was full, and the notices came back.
fn is_refused<B: Board>(rt: &HostRuntime, board: &mut B, to: u32) -> Result<bool, Fail>
    requires members { places.members (B.seat board.old).place ≡ 3 }
    requires pair { ((B.seat board.old).number < 3) × (to < 3) × (to ≢ (B.seat board.old).number) }
    ensures { B.seat board.new ≡ B.seat board.old }
{
    let notices = no_notices(rt)?;
    let sent = board.send(to, notices);
    Ok(sent.is_err())
}

/// Whether a mailbox had something.
fn is_received<B: Board>(board: &mut B, from: u32) -> bool
    requires members { places.members (B.seat board.old).place ≡ 3 }
    requires pair { ((B.seat board.old).number < 3) × (from < 3) }
    ensures { B.seat board.new ≡ B.seat board.old }
{
    let received = board.receive(from);
    received.is_some()
}

/// Whether the mailbox from one member to another is empty until something is sent, then full, and empty again once it
/// was read.
fn holds_one<A: Board, B: Board>(
    rt: &HostRuntime,
    sender: &mut A,
    receiver: &mut B,
) -> Result<bool, Fail>
    requires members { (places.members (A.seat sender.old).place ≡ 3)
        × (places.members (B.seat receiver.old).place ≡ 3) }
    requires pair { ((A.seat sender.old).number < 3) × ((B.seat receiver.old).number < 3)
        × ((B.seat receiver.old).number ≢ (A.seat sender.old).number) }
    ensures sender { A.seat sender.new ≡ A.seat sender.old }
    ensures receiver { B.seat receiver.new ≡ B.seat receiver.old }
{
    let from = sender.member();
    let to = receiver.member();
    let unsent = is_received(receiver, from);
    let first = is_refused(rt, sender, to)?;
    let second = is_refused(rt, sender, to)?;
    let read = is_received(receiver, from);
    let again = is_received(receiver, from);
    Ok(!unsent && !first && second && read && !again)
}

/// Both mailboxes of two members.
fn hold_both<A: Board, B: Board>(rt: &HostRuntime, a: &mut A, b: &mut B) -> Result<bool, Fail>
    requires members { (places.members (A.seat a.old).place ≡ 3)
        × (places.members (B.seat b.old).place ≡ 3) }
    requires pair { ((A.seat a.old).number < 3) × ((B.seat b.old).number < 3)
        × ((B.seat b.old).number ≢ (A.seat a.old).number) }
    ensures a { A.seat a.new ≡ A.seat a.old }
    ensures b { B.seat b.new ≡ B.seat b.old }
{
    let there = holds_one(rt, a, b)?;
    let back = holds_one(rt, b, a)?;
    Ok(there && back)
}

/// Whether each of the six mailboxes of three members holds one message, while the one from the first to the second is
/// full.
fn hold_all<A: Board, B: Board, C: Board>(
    rt: &HostRuntime,
    a: &mut A,
    b: &mut B,
    c: &mut C,
) -> Result<bool, Fail>
    requires members { (places.members (A.seat a.old).place ≡ 3)
        × (places.members (B.seat b.old).place ≡ 3) × (places.members (C.seat c.old).place ≡ 3) }
    requires numbers { ((A.seat a.old).number ≡ 0) × ((B.seat b.old).number ≡ 1)
        × ((C.seat c.old).number ≡ 2) }
{
    let first = hold_both(rt, a, b)?;
    let refused = is_refused(rt, a, 1)?;
    let second = hold_both(rt, a, c)?;
    let third = hold_both(rt, b, c)?;
    let read = is_received(b, 0);
    Ok(first && !refused && second && third && read)
}

/// What may go to a thread.
fn may_be_sent<T: Send>(_: &T) {}

/// Whether a table gives its tokens once, and whether each mailbox of three members holds one message. None where it
/// gave fewer tokens.
fn hold_at_table(rt: &HostRuntime) -> Result<Option<(bool, bool)>, Fail> {
    let mut table = GroupTable::open::<Three>(rt.alloc(), 3)?;
    let tokens = table.seats(rt.alloc())?;
    let once = table.seats(rt.alloc()).is_err();
    let Some((a, b, c)) = three_of(tokens) else {
        return Ok(None);
    };
    may_be_sent(&a);
    let mut a = table.attend(a);
    let mut b = table.attend(b);
    let mut c = table.attend(c);
    may_be_sent(&a);
    let all = hold_all(rt, &mut a, &mut b, &mut c)?;
    Ok(Some((once, all)))
}

#[test]
fn a_mailbox_in_each_direction(rt: HostRuntime) -> Result<(), Fail> {
    let held = hold_at_table(&rt)?;
    assert_eq!(rt; held, Some((true, true)));
    Ok(())
}
