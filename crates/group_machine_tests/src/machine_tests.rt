use chunk_map::Layout;
use fs_model::Value;
use group_board::{Change, Names, Notices};
use group_machine::{GroupState, Kind, MemberStep, StepsError, all_steps, step};
use log_entry::{Body, Entry, EntryName};
use std::test::Fail;

fn add(steps: &mut Vec<MemberStep>, member: u32, kind: Kind) -> Result<(), Fail> {
    steps.push(MemberStep { member, kind })?;
    Ok(())
}

/// A post of an entry in slot 0, with the bytes behind its pointer.
fn posted_with(key: u64, version: u32, body: Body, value: Value) -> Kind {
    let entry = Entry { key, version, body };
    let change = Change { entry, home: None };
    Kind::Post {
        slot: 0,
        change,
        value,
    }
}

fn posted(rt: &HostRuntime, key: u64, version: u32, body: Body) -> Kind {
    posted_with(key, version, body, Value::of(Vec::new(rt.alloc())))
}

/// The bytes of a value that has a block of two units.
const LONG: [u8; 256] = [7; 256];

/// A put of them, in the second chunk of the part of core 1 of three.
fn put_long(rt: &HostRuntime, version: u32) -> Result<Kind, Fail> {
    let bytes = Vec::from_slice(rt.alloc(), &LONG)?;
    Ok(posted_with(1, version, Body::Pointer(98), Value::of(bytes)))
}

/// A put of one byte.
fn put(rt: &HostRuntime, key: u64, version: u32, byte: u8) -> Result<Kind, Fail> {
    let bytes = Vec::from_slice(rt.alloc(), &[byte])?;
    Ok(posted(rt, key, version, Body::Embedded(Value::of(bytes))))
}

fn names(rt: &HostRuntime, key: u64, version: u32) -> Result<Names, Fail> {
    let mut names = Names::with_room(rt.alloc(), 1)?;
    names.push(EntryName { key, version });
    Ok(names)
}

fn is_value(cell: Option<&Value>, bytes: &[u8]) -> bool {
    match cell {
        Some(value) => value.bytes() == bytes,
        None => false,
    }
}

fn kept(state: &GroupState, member: usize) -> usize {
    match state.views.get(member) {
        Some(view) => view.kept.len(),
        None => 99,
    }
}

fn flying(state: &GroupState, member: usize) -> usize {
    match state.views.get(member) {
        Some(view) => view.flying.len(),
        None => 99,
    }
}

/// Where a list of steps stopped, and the state there.
#[derive(Drop)]
struct Stop {
    at: u64,
    state: GroupState,
}

fn stop_of(error: StepsError) -> Option<Stop> {
    match error {
        StepsError::NotEnabled { at, state } => Some(Stop { at, state }),
        StepsError::Memory => None,
    }
}

fn where_stopped(outcome: Result<GroupState, StepsError>) -> Option<Stop> {
    match outcome {
        Ok(_) => None,
        Err(error) => stop_of(error),
    }
}

/// The leader looks at slot 0 of a member, whose word this is, and takes what it offers.
fn add_take(steps: &mut Vec<MemberStep>, leader: u32, member: u32, word: u64) -> Result<(), Fail> {
    add(steps, leader, Kind::Look { word })?;
    add(steps, leader, Kind::Take { member, slot: 0 })
}

fn add_finish(steps: &mut Vec<MemberStep>, member: u32, word: u64) -> Result<(), Fail> {
    add(steps, member, Kind::Look { word })?;
    add(steps, member, Kind::Finish { slot: 0 })
}

/// Three cores post, and core 0 takes all three changes.
fn add_batch(rt: &HostRuntime, steps: &mut Vec<MemberStep>) -> Result<(), Fail> {
    add(steps, 0, put(rt, 0, 1, b'a')?)?;
    add(steps, 1, put(rt, 1, 1, b'b')?)?;
    add(steps, 2, put(rt, 2, 1, b'c')?)?;
    add(steps, 0, Kind::Lock)?;
    add_take(steps, 0, 0, 4)?;
    add_take(steps, 0, 1, 12)?;
    add_take(steps, 0, 2, 20)?;
    add(steps, 0, Kind::Unlock)
}

#[test]
fn one_batch_for_three_cores(rt: HostRuntime) -> Result<(), Fail> {
    let layout = Layout::new(3, 3, 4, 4096)?;
    let state = GroupState::empty(rt.alloc(), &layout, 0)?;
    let mut steps = Vec::new(rt.alloc());
    add_batch(&rt, &mut steps)?;
    add(&mut steps, 0, Kind::Commit)?;
    add(&mut steps, 0, Kind::Mark { member: 0, slot: 0 })?;
    add(&mut steps, 0, Kind::Mark { member: 1, slot: 0 })?;
    add(&mut steps, 0, Kind::Mark { member: 2, slot: 0 })?;
    add_finish(&mut steps, 0, 4)?;
    add_finish(&mut steps, 1, 12)?;
    add_finish(&mut steps, 2, 20)?;
    match all_steps(rt.alloc(), state, &steps) {
        Ok(state) => {
            assert!(rt; is_value(state.cell(0), b"a"));
            assert!(rt; is_value(state.cell(1), b"b"));
            assert!(rt; is_value(state.cell(2), b"c"));
            assert_eq!(rt; state.last(1), 1);
        }
        Err(_) => assert!(rt; false, "each step may be made"),
    }
    Ok(())
}

#[test]
fn a_mark_before_the_commit(rt: HostRuntime) -> Result<(), Fail> {
    let layout = Layout::new(3, 3, 4, 4096)?;
    let state = GroupState::empty(rt.alloc(), &layout, 0)?;
    let mut steps = Vec::new(rt.alloc());
    add_batch(&rt, &mut steps)?;
    add(&mut steps, 0, Kind::Mark { member: 0, slot: 0 })?;
    add(&mut steps, 0, Kind::Commit)?;
    match where_stopped(all_steps(rt.alloc(), state, &steps)) {
        Some(stop) => {
            assert_eq!(rt; stop.at, 11);
            assert_eq!(rt; flying(&stop.state, 0), 3);
            assert_eq!(rt; kept(&stop.state, 0), 0);
        }
        None => assert!(rt; false, "a step is refused"),
    }
    Ok(())
}

/// The leader takes the change of a member and gives the lock back. The word is that of the member's slot 0.
fn add_lead(steps: &mut Vec<MemberStep>, leader: u32, member: u32, word: u64) -> Result<(), Fail> {
    add(steps, leader, Kind::Lock)?;
    add_take(steps, leader, member, word)?;
    add(steps, leader, Kind::Unlock)
}

/// A change of a member from its post to its finish.
fn add_change(
    steps: &mut Vec<MemberStep>,
    leader: u32,
    member: u32,
    word: u64,
    kind: Kind,
) -> Result<(), Fail> {
    add(steps, member, kind)?;
    add_lead(steps, leader, member, word)?;
    add(steps, leader, Kind::Commit)?;
    add(steps, leader, Kind::Mark { member, slot: 0 })?;
    add_finish(steps, member, word)
}

fn add_clean(
    rt: &HostRuntime,
    steps: &mut Vec<MemberStep>,
    member: u32,
    key: u64,
    version: u32,
) -> Result<(), Fail> {
    let doomed = names(rt, key, version)?;
    add(steps, member, Kind::Doom { names: doomed })?;
    let gone = names(rt, key, version)?;
    add(steps, member, Kind::Retire { names: gone })
}

/// Of one core, key 1 put and deleted.
fn add_put_and_delete(rt: &HostRuntime, steps: &mut Vec<MemberStep>) -> Result<(), Fail> {
    add_change(steps, 0, 0, 2, put(rt, 1, 1, b'x')?)?;
    add_change(steps, 0, 0, 2, posted(rt, 1, 2, Body::Tombstone))
}

#[test]
fn a_tombstone_is_not_dead_yet(rt: HostRuntime) -> Result<(), Fail> {
    let layout = Layout::new(1, 1, 4, 4096)?;
    let state = GroupState::empty(rt.alloc(), &layout, 0)?;
    let mut steps = Vec::new(rt.alloc());
    add_put_and_delete(&rt, &mut steps)?;
    add_clean(&rt, &mut steps, 0, 1, 2)?;
    match where_stopped(all_steps(rt.alloc(), state, &steps)) {
        Some(stop) => {
            assert_eq!(rt; stop.at, 18);
            assert_eq!(rt; stop.state.last(1), 2);
        }
        None => assert!(rt; false, "a step is refused"),
    }
    Ok(())
}

#[test]
fn a_tombstone_goes_last(rt: HostRuntime) -> Result<(), Fail> {
    let layout = Layout::new(1, 1, 4, 4096)?;
    let state = GroupState::empty(rt.alloc(), &layout, 0)?;
    let mut steps = Vec::new(rt.alloc());
    add_put_and_delete(&rt, &mut steps)?;
    add_clean(&rt, &mut steps, 0, 1, 1)?;
    add_clean(&rt, &mut steps, 0, 1, 2)?;
    match all_steps(rt.alloc(), state, &steps) {
        Ok(state) => assert_eq!(rt; state.last(1), 0),
        Err(_) => assert!(rt; false, "each step may be made"),
    }
    Ok(())
}

fn nothing_told(rt: &HostRuntime) -> Result<Notices, Fail> {
    let dead = Names::with_room(rt.alloc(), 0)?;
    let gone = Names::with_room(rt.alloc(), 0)?;
    Ok(Notices { dead, gone })
}

/// One member tells another; the word is that of the mailbox between them.
fn add_send(
    steps: &mut Vec<MemberStep>,
    from: u32,
    to: u32,
    word: u64,
    notices: Notices,
) -> Result<(), Fail> {
    add(steps, from, Kind::Look { word })?;
    add(steps, from, Kind::Send { to, notices })
}

fn add_receive(steps: &mut Vec<MemberStep>, from: u32, to: u32, word: u64) -> Result<(), Fail> {
    add(steps, to, Kind::Look { word })?;
    add(steps, to, Kind::Receive { from })
}

#[test]
fn a_stolen_entry_is_cleaned(rt: HostRuntime) -> Result<(), Fail> {
    let layout = Layout::new(3, 3, 4, 4096)?;
    let state = GroupState::empty(rt.alloc(), &layout, 0)?;
    let mut steps = Vec::new(rt.alloc());
    add_change(&mut steps, 2, 1, 12, put(&rt, 1, 1, b'x')?)?;
    add_change(&mut steps, 2, 1, 12, put(&rt, 1, 2, b'y')?)?;
    let dead = names(&rt, 1, 1)?;
    let gone = Names::with_room(rt.alloc(), 0)?;
    add_send(&mut steps, 1, 2, 33, Notices { dead, gone })?;
    add_receive(&mut steps, 1, 2, 33)?;
    add_clean(&rt, &mut steps, 2, 1, 1)?;
    let dead = Names::with_room(rt.alloc(), 0)?;
    let gone = names(&rt, 1, 1)?;
    add_send(&mut steps, 2, 1, 35, Notices { dead, gone })?;
    add_receive(&mut steps, 2, 1, 35)?;
    match all_steps(rt.alloc(), state, &steps) {
        Ok(state) => {
            assert!(rt; is_value(state.cell(1), b"y"));
            assert_eq!(rt; kept(&state, 2), 1);
        }
        Err(_) => assert!(rt; false, "each step may be made"),
    }
    Ok(())
}

/// Each ordered pair of three members, with the word of its mailbox.
const MAILBOXES: [(u32, u32, u64); 6] = [
    (0, 1, 29),
    (0, 2, 30),
    (1, 0, 31),
    (1, 2, 33),
    (2, 0, 34),
    (2, 1, 35),
];

#[test]
fn a_mailbox_in_each_direction(rt: HostRuntime) -> Result<(), Fail> {
    let layout = Layout::new(3, 3, 4, 4096)?;
    let state = GroupState::empty(rt.alloc(), &layout, 0)?;
    let mut steps = Vec::new(rt.alloc());
    for (from, to, word) in MAILBOXES.iter() {
        add_send(&mut steps, *from, *to, *word, nothing_told(&rt)?)?;
    }
    for (from, to, word) in MAILBOXES.iter() {
        add_receive(&mut steps, *from, *to, *word)?;
    }
    add_receive(&mut steps, 2, 0, 34)?;
    match where_stopped(all_steps(rt.alloc(), state, &steps)) {
        Some(stop) => {
            assert_eq!(rt; stop.at, 25);
            assert_eq!(rt; stop.state.mail.len(), 0);
        }
        None => assert!(rt; false, "a step is refused"),
    }
    Ok(())
}

/// Core 1 of three posts a value with a block, takes it back, and puts it again.
fn add_first_change(rt: &HostRuntime, steps: &mut Vec<MemberStep>) -> Result<(), Fail> {
    add(steps, 1, Kind::Split)?;
    add(steps, 1, Kind::Join)?;
    add(steps, 1, put_long(rt, 1)?)?;
    add(steps, 1, Kind::Lock)?;
    add(steps, 1, Kind::Look { word: 12 })?;
    add(steps, 1, Kind::Withdraw { slot: 0 })?;
    add(steps, 1, Kind::Unlock)?;
    add_change(steps, 1, 1, 12, put_long(rt, 1)?)
}

/// It puts a short value over it, cleans its log, hears of core 2 and tells core 0, and cannot write its third change.
fn add_later_steps(rt: &HostRuntime, steps: &mut Vec<MemberStep>) -> Result<(), Fail> {
    add_change(steps, 1, 1, 12, put(rt, 1, 2, b'y')?)?;
    add_clean(rt, steps, 1, 1, 1)?;
    add_send(steps, 2, 1, 35, nothing_told(rt)?)?;
    add_receive(steps, 2, 1, 35)?;
    add_send(steps, 1, 0, 31, nothing_told(rt)?)?;
    add(steps, 1, put_long(rt, 3)?)?;
    add_lead(steps, 1, 1, 12)?;
    add(steps, 1, Kind::Fail { member: 1, slot: 0 })?;
    add_finish(steps, 1, 12)
}

/// The state after these steps, each made by a call of its own.
fn after_each(rt: &HostRuntime, state: GroupState, steps: &[MemberStep]) -> Option<GroupState> {
    let mut state = state;
    for next in steps {
        match step(rt.alloc(), state, next) {
            Ok(made) => state = made,
            Err(_) => return None,
        }
    }
    Some(state)
}

#[test]
fn each_kind_by_the_second_member(rt: HostRuntime) -> Result<(), Fail> {
    let layout = Layout::new(3, 3, 4, 4096)?;
    let state = GroupState::empty(rt.alloc(), &layout, 0)?;
    let mut steps = Vec::new(rt.alloc());
    add_first_change(&rt, &mut steps)?;
    let Some(state) = after_each(&rt, state, &steps) else {
        assert!(rt; false, "each step may be made");
        return Ok(());
    };
    assert!(rt; is_value(state.cell(1), &LONG));
    let mut steps = Vec::new(rt.alloc());
    add_later_steps(&rt, &mut steps)?;
    let Some(state) = after_each(&rt, state, &steps) else {
        assert!(rt; false, "each step may be made");
        return Ok(());
    };
    assert!(rt; is_value(state.cell(1), b"y"));
    assert_eq!(rt; kept(&state, 1), 1);
    assert_eq!(rt; flying(&state, 1), 1);
    assert_eq!(rt; state.last(1), 2);
    Ok(())
}

#[test]
fn a_change_comes_back(rt: HostRuntime) -> Result<(), Fail> {
    let layout = Layout::new(1, 1, 4, 4096)?;
    let state = GroupState::empty(rt.alloc(), &layout, 0)?;
    let mut steps = Vec::new(rt.alloc());
    add(&mut steps, 0, put(&rt, 1, 1, b'x')?)?;
    add(&mut steps, 0, Kind::Lock)?;
    add(&mut steps, 0, Kind::Look { word: 2 })?;
    add(&mut steps, 0, Kind::Withdraw { slot: 0 })?;
    add(&mut steps, 0, put(&rt, 1, 1, b'y')?)?;
    add_take(&mut steps, 0, 0, 2)?;
    add(&mut steps, 0, Kind::Unlock)?;
    add(&mut steps, 0, Kind::Fail { member: 0, slot: 0 })?;
    add_finish(&mut steps, 0, 2)?;
    add(&mut steps, 0, Kind::Commit)?;
    match where_stopped(all_steps(rt.alloc(), state, &steps)) {
        Some(stop) => {
            assert_eq!(rt; stop.at, 11);
            assert_eq!(rt; stop.state.last(1), 0);
        }
        None => assert!(rt; false, "a step is refused"),
    }
    Ok(())
}

#[test]
fn one_step(rt: HostRuntime) -> Result<(), Fail> {
    let layout = Layout::new(2, 1, 4, 4096)?;
    let state = GroupState::empty(rt.alloc(), &layout, 1)?;
    let first = MemberStep {
        member: 0,
        kind: put(&rt, 3, 1, b'z')?,
    };
    match step(rt.alloc(), state, &first) {
        Ok(state) => assert_eq!(rt; state.last(3), 0),
        Err(_) => assert!(rt; false, "the step may be made"),
    }
    Ok(())
}
