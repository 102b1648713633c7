// Keys through their changes, from the records of a start to the last notice. Each test is a table of calls and
// answers, which one loop plays: the proof of a function costs the square of its length, and each exit of a function
// that owns an index drops it. So one function owns the index that the calls are made on.
ghost use Rattle.std.specs.Prelude.{◌≤◌, OnOk};
ghost use Rattle.std.specs.List.{AllByRecursion};
ghost use Rattle.core_index.specs.Index.{HasNoneAbove};

use core_index::{CoreIndex, Look, Record, Standee};
use fs_model::{Key, Memory, Value};
use log_entry::{Body, Entry, EntryName};
use std::alloc::Global;
use std::test::Fail;

// Adds the record of a key behind the others.
fn add(
    alloc: Global,
    records: &mut Vec<Record>,
    key: Key,
    version: u32,
    body: Body,
    standing: &[Standee],
) -> Result<(), Memory>
    requires others { AllByRecursion HasNoneAbove records.old.items }
    requires below { AllByRecursion (λ s. s.version ≤ version) standing.now }
    ensures { OnOk result (AllByRecursion HasNoneAbove records.new.items) }
{
    let standing = Vec::from_slice(alloc, standing)?;
    records.push(Record {
        key,
        version,
        body,
        standing,
    })?;
    Ok(())
}

// Key 5 is deleted, key 7 has a value and an older entry, key 9 has a block and no number left.
fn add_all(alloc: Global, records: &mut Vec<Record>) -> Result<(), Memory>
    requires { AllByRecursion HasNoneAbove records.old.items }
    ensures { OnOk result (AllByRecursion HasNoneAbove records.new.items) }
{
    let abc = Value::of(Vec::from_slice(alloc, b"abc")?);
    let old = Standee {
        version: 2,
        home: 1,
    };
    let new = Standee {
        version: 3,
        home: 0,
    };
    add(alloc, records, 7, 3, Body::Embedded(abc), &[old, new])?;
    let last = Standee {
        version: 4,
        home: 2,
    };
    add(alloc, records, 5, 4, Body::Tombstone, &[last])?;
    let greatest = Standee {
        version: 1_048_574,
        home: 0,
    };
    add(alloc, records, 9, 1_048_574, Body::Pointer(17), &[greatest])
}

fn of_records(alloc: Global) -> Result<CoreIndex, Memory> {
    let mut records = Vec::new(alloc);
    add_all(alloc, &mut records)?;
    CoreIndex::open(alloc, records)
}

fn enter(
    alloc: Global,
    index: &mut CoreIndex,
    key: Key,
    version: u32,
    body: &Body,
    home: u32,
) -> Result<(), Memory> {
    index.enter(alloc, key, version, body, &[Standee { version, home }])
}

fn enter_value(
    alloc: Global,
    index: &mut CoreIndex,
    key: Key,
    version: u32,
    bytes: &[u8],
    home: u32,
) -> Result<(), Memory> {
    let value = Value::of(Vec::from_slice(alloc, bytes)?);
    enter(alloc, index, key, version, &Body::Embedded(value), home)
}

// Keys 3, 5 and 8 are deleted by an entry that stands alone, for the homes 1, 2 and 1; key 6 has a block. Key 7 has a
// later version than fits beside them.
fn enter_keys(alloc: Global, index: &mut CoreIndex) -> Result<(), Memory> {
    enter(alloc, index, 3, 2, &Body::Tombstone, 1)?;
    enter(alloc, index, 5, 4, &Body::Tombstone, 2)?;
    enter(alloc, index, 6, 1, &Body::Pointer(17), 0)?;
    enter(alloc, index, 7, 70_000, &Body::Tombstone, 3)?;
    enter(alloc, index, 8, 6, &Body::Tombstone, 1)
}

// Keys 9 and 11 have values beside them.
fn enter_values(alloc: Global, index: &mut CoreIndex) -> Result<(), Memory> {
    enter_keys(alloc, index)?;
    enter_value(alloc, index, 9, 5, b"abc", 2)?;
    enter_value(alloc, index, 11, 2, b"de", 0)
}

// What an index has before the first call.
#[derive(Clone, Copy)]
enum Start {
    Records,
    Keys,
    Values,
}

fn entered(alloc: Global, start: Start) -> Result<CoreIndex, Memory> {
    let mut index = CoreIndex::empty(alloc)?;
    match start {
        Start::Values => enter_values(alloc, &mut index)?,
        _ => enter_keys(alloc, &mut index)?,
    }
    Ok(index)
}

fn started(alloc: Global, start: Start) -> Result<CoreIndex, Memory> {
    match start {
        Start::Records => of_records(alloc),
        _ => entered(alloc, start),
    }
}

// One call of the index, or a few of one key. A put has its block and its home, a delete its home, and a live key its
// place among them.
#[derive(Clone, Copy)]
enum Call {
    Look(Key),
    Value(Key),
    Next(Key),
    Put(Key, u64, u32),
    Delete(Key, u32),
    Notice(u32),
    Gone(Key, u32),
    Forget(Key),
    Live(usize),
    Room(Key),
    TwoRooms(Key),
}

// What it answers: of a change, the block of the value before. A value is its length and its bytes as one number.
#[derive(Clone, Copy, Debug, PartialEq, Eq)]
enum CallAnswer {
    Nothing,
    Unknown,
    Deleted,
    Embedded,
    Block(u64),
    Value(usize, u64),
    Version(u32),
    Spent(u32),
    Name(Key, u32),
    Forgotten,
    Room(u64),
    TwoRooms(u64, u64),
}

fn look(index: &CoreIndex, key: Key) -> CallAnswer {
    match index.look(key) {
        Look::Unknown => CallAnswer::Unknown,
        Look::Deleted => CallAnswer::Deleted,
        Look::Embedded(_) => CallAnswer::Embedded,
        Look::Block(pointer) => CallAnswer::Block(pointer),
    }
}

// The first byte is the highest.
fn number_of(bytes: &[u8]) -> u64 {
    let mut number = 0;
    for byte in bytes {
        number = number << 8 | *byte as u64;
    }
    number
}

fn value(index: &CoreIndex, key: Key) -> CallAnswer {
    match index.look(key) {
        Look::Embedded(bytes) => CallAnswer::Value(bytes.len(), number_of(bytes)),
        _ => CallAnswer::Nothing,
    }
}

fn next(index: &CoreIndex, key: Key) -> CallAnswer {
    match index.next_version(key, false) {
        Ok(version) => CallAnswer::Version(version),
        Err(spent) => CallAnswer::Spent(spent.last),
    }
}

// A finished change of a key, as its owner makes it.
fn change(
    alloc: Global,
    index: &mut CoreIndex,
    key: Key,
    body: Body,
    home: u32,
) -> Result<CallAnswer, Memory> {
    match index.next_version(key, false) {
        Ok(version) => {
            index.admit(alloc, key)?;
            let before = index.settle(Entry { key, version, body }, home);
            Ok(block(before))
        }
        Err(spent) => Ok(CallAnswer::Spent(spent.last)),
    }
}

fn block(pointer: Option<u64>) -> CallAnswer {
    match pointer {
        Some(pointer) => CallAnswer::Block(pointer),
        None => CallAnswer::Nothing,
    }
}

fn name(name: Option<EntryName>) -> CallAnswer {
    match name {
        Some(name) => CallAnswer::Name(name.key, name.version),
        None => CallAnswer::Nothing,
    }
}

fn gone(index: &mut CoreIndex, key: Key, version: u32) -> CallAnswer {
    index.gone(EntryName { key, version });
    CallAnswer::Nothing
}

// Forgets the key where that may be.
fn forget(index: &mut CoreIndex, key: Key) -> CallAnswer {
    if index.forgettable(key) {
        index.forget(key);
        CallAnswer::Forgotten
    } else {
        CallAnswer::Nothing
    }
}

fn live(alloc: Global, index: &CoreIndex, place: usize) -> Result<CallAnswer, Memory> {
    let names = index.live(alloc)?;
    Ok(name(names.get(place).copied()))
}

// Room for two changes is made, and given back three times: what is left behind the first time and behind the last.
fn two_rooms(alloc: Global, index: &mut CoreIndex, key: Key) -> Result<CallAnswer, Memory> {
    index.admit(alloc, key)?;
    index.admit(alloc, key)?;
    index.give_back(key);
    let left = index.room(key);
    index.give_back(key);
    index.give_back(key);
    Ok(CallAnswer::TwoRooms(left, index.room(key)))
}

fn make(alloc: Global, index: &mut CoreIndex, call: Call) -> Result<CallAnswer, Memory> {
    match call {
        Call::Look(key) => Ok(look(index, key)),
        Call::Value(key) => Ok(value(index, key)),
        Call::Next(key) => Ok(next(index, key)),
        Call::Put(key, block, home) => change(alloc, index, key, Body::Pointer(block), home),
        Call::Delete(key, home) => change(alloc, index, key, Body::Tombstone, home),
        Call::Notice(home) => Ok(name(index.next_notice(home))),
        Call::Gone(key, version) => Ok(gone(index, key, version)),
        Call::Forget(key) => Ok(forget(index, key)),
        Call::Live(place) => live(alloc, index, place),
        Call::Room(key) => Ok(CallAnswer::Room(index.room(key))),
        Call::TwoRooms(key) => two_rooms(alloc, index, key),
    }
}

// The first call that answers otherwise, by its place, and what it answers.
type Other = Option<(usize, CallAnswer)>;

fn play(
    alloc: Global,
    index: &mut CoreIndex,
    calls: &[(Call, CallAnswer)],
) -> Result<Other, Memory> {
    for (place, (call, expected)) in calls.iter().enumerate() {
        let found = make(alloc, index, *call)?;
        if found != *expected {
            return Ok(Some((place, found)));
        }
    }
    Ok(None)
}

fn first_other(alloc: Global, start: Start, calls: &[(Call, CallAnswer)]) -> Result<Other, Memory> {
    let mut index = started(alloc, start)?;
    play(alloc, &mut index, calls)
}

const AS_THE_RECORDS_SAY: [(Call, CallAnswer); 11] = [
    (Call::Value(7), CallAnswer::Value(3, 0x61_62_63)),
    (Call::Look(7), CallAnswer::Embedded),
    (Call::Look(5), CallAnswer::Deleted),
    (Call::Look(9), CallAnswer::Block(17)),
    (Call::Look(1), CallAnswer::Unknown),
    (Call::Next(7), CallAnswer::Version(4)),
    (Call::Next(1), CallAnswer::Version(1)),
    (Call::Next(9), CallAnswer::Spent(1_048_574)),
    (Call::Live(0), CallAnswer::Name(7, 3)),
    (Call::Live(1), CallAnswer::Name(9, 1_048_574)),
    (Call::Live(2), CallAnswer::Nothing),
];

#[test]
fn as_the_records_say(rt: HostRuntime) -> Result<(), Fail> {
    let other = first_other(rt.alloc(), Start::Records, &AS_THE_RECORDS_SAY)?;
    assert_eq!(rt; other, None);
    Ok(())
}

// Version 3 of key 7 dies by the next change, and the next but one gives back the block of the next. The delete is told
// only when no other entry of its key stands.
const DEATHS: [(Call, CallAnswer); 17] = [
    (Call::Notice(0), CallAnswer::Nothing),
    (Call::Notice(1), CallAnswer::Name(7, 2)),
    (Call::Notice(1), CallAnswer::Nothing),
    (Call::Put(7, 33, 9), CallAnswer::Nothing),
    (Call::Look(7), CallAnswer::Block(33)),
    (Call::Notice(0), CallAnswer::Name(7, 3)),
    (Call::Notice(0), CallAnswer::Nothing),
    (Call::Delete(7, 1), CallAnswer::Block(33)),
    (Call::Look(7), CallAnswer::Deleted),
    (Call::Notice(9), CallAnswer::Name(7, 4)),
    (Call::Notice(1), CallAnswer::Nothing),
    (Call::Gone(7, 2), CallAnswer::Nothing),
    (Call::Gone(7, 4), CallAnswer::Nothing),
    (Call::Notice(1), CallAnswer::Nothing),
    (Call::Gone(7, 3), CallAnswer::Nothing),
    (Call::Notice(1), CallAnswer::Name(7, 5)),
    (Call::Notice(1), CallAnswer::Nothing),
];

#[test]
fn each_death_is_told_once(rt: HostRuntime) -> Result<(), Fail> {
    let other = first_other(rt.alloc(), Start::Records, &DEATHS)?;
    assert_eq!(rt; other, None);
    Ok(())
}

const FORGOTTEN: [(Call, CallAnswer); 12] = [
    (Call::Notice(2), CallAnswer::Name(5, 4)),
    (Call::Forget(5), CallAnswer::Nothing),
    (Call::Gone(5, 4), CallAnswer::Nothing),
    (Call::Forget(1), CallAnswer::Nothing),
    (Call::Forget(5), CallAnswer::Forgotten),
    (Call::Look(5), CallAnswer::Unknown),
    (Call::Put(5, 1, 2), CallAnswer::Nothing),
    (Call::Next(5), CallAnswer::Version(2)),
    (Call::Live(0), CallAnswer::Name(5, 1)),
    (Call::Live(1), CallAnswer::Name(7, 3)),
    (Call::Live(2), CallAnswer::Name(9, 1_048_574)),
    (Call::Live(3), CallAnswer::Nothing),
];

#[test]
fn a_key_is_forgotten(rt: HostRuntime) -> Result<(), Fail> {
    let other = first_other(rt.alloc(), Start::Records, &FORGOTTEN)?;
    assert_eq!(rt; other, None);
    Ok(())
}

const DELETED: [(Call, CallAnswer); 8] = [
    (Call::Look(3), CallAnswer::Deleted),
    (Call::Look(4), CallAnswer::Unknown),
    (Call::Look(6), CallAnswer::Block(17)),
    (Call::Next(8), CallAnswer::Version(7)),
    (Call::Forget(3), CallAnswer::Nothing),
    (Call::Room(3), CallAnswer::Room(0)),
    (Call::Live(0), CallAnswer::Name(6, 1)),
    (Call::Live(1), CallAnswer::Nothing),
];

#[test]
fn deleted_keys_are_known(rt: HostRuntime) -> Result<(), Fail> {
    let other = first_other(rt.alloc(), Start::Keys, &DELETED)?;
    assert_eq!(rt; other, None);
    Ok(())
}

// Key 3 is changed before its home is asked, and waits all the same.
const DELETES_OF_THE_START: [(Call, CallAnswer); 16] = [
    (Call::Notice(9), CallAnswer::Nothing),
    (Call::Notice(2), CallAnswer::Name(5, 4)),
    (Call::Notice(2), CallAnswer::Nothing),
    (Call::Put(3, 1, 1), CallAnswer::Nothing),
    (Call::Notice(1), CallAnswer::Name(3, 2)),
    (Call::Gone(8, 6), CallAnswer::Nothing),
    (Call::Notice(1), CallAnswer::Nothing),
    (Call::Forget(8), CallAnswer::Forgotten),
    (Call::Look(8), CallAnswer::Unknown),
    (Call::Gone(5, 4), CallAnswer::Nothing),
    (Call::Put(5, 2, 2), CallAnswer::Nothing),
    (Call::Notice(2), CallAnswer::Nothing),
    (Call::Live(0), CallAnswer::Name(3, 3)),
    (Call::Live(1), CallAnswer::Name(5, 5)),
    (Call::Live(2), CallAnswer::Name(6, 1)),
    (Call::Live(3), CallAnswer::Nothing),
];

#[test]
fn deletes_of_the_start_are_told_once(rt: HostRuntime) -> Result<(), Fail> {
    let other = first_other(rt.alloc(), Start::Keys, &DELETES_OF_THE_START)?;
    assert_eq!(rt; other, None);
    Ok(())
}

const MOVES: [(Call, CallAnswer); 14] = [
    (Call::Value(9), CallAnswer::Value(3, 0x61_62_63)),
    (Call::Look(9), CallAnswer::Embedded),
    (Call::Next(9), CallAnswer::Version(6)),
    (Call::Put(9, 33, 1), CallAnswer::Nothing),
    (Call::Delete(6, 1), CallAnswer::Block(17)),
    (Call::Gone(11, 2), CallAnswer::Nothing),
    (Call::Value(11), CallAnswer::Value(2, 0x64_65)),
    (Call::Notice(2), CallAnswer::Name(9, 5)),
    (Call::Notice(2), CallAnswer::Name(5, 4)),
    (Call::Notice(2), CallAnswer::Nothing),
    (Call::Notice(0), CallAnswer::Name(6, 1)),
    (Call::Live(0), CallAnswer::Name(9, 6)),
    (Call::Live(1), CallAnswer::Name(11, 2)),
    (Call::Live(2), CallAnswer::Nothing),
];

#[test]
fn keys_with_values_move_when_they_change(rt: HostRuntime) -> Result<(), Fail> {
    let other = first_other(rt.alloc(), Start::Values, &MOVES)?;
    assert_eq!(rt; other, None);
    Ok(())
}

// Of a key that had nothing, nothing is left, and one that had a value has it.
const ROOMS: [(Call, CallAnswer); 6] = [
    (Call::TwoRooms(6), CallAnswer::TwoRooms(1, 0)),
    (Call::TwoRooms(7), CallAnswer::TwoRooms(1, 0)),
    (Call::TwoRooms(6), CallAnswer::TwoRooms(1, 0)),
    (Call::TwoRooms(7), CallAnswer::TwoRooms(1, 0)),
    (Call::Look(6), CallAnswer::Unknown),
    (Call::Value(7), CallAnswer::Value(3, 0x61_62_63)),
];

#[test]
fn room_is_given_back(rt: HostRuntime) -> Result<(), Fail> {
    let other = first_other(rt.alloc(), Start::Records, &ROOMS)?;
    assert_eq!(rt; other, None);
    Ok(())
}
