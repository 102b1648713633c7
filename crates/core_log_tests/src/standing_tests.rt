// Names that stand in a log, and what becomes of them: a table of calls and answers, which one loop plays, so that one
// function owns the names.
use fs_model::{Key, Memory};
use log_entry::EntryName;
use log_standing::Standing;
use std::alloc::Global;
use std::test::Fail;

fn name(key: Key, version: u32) -> EntryName {
    EntryName { key, version }
}

// One call, of a key and a version.
#[derive(Clone, Copy)]
enum Call {
    Kill(Key, u32),
    Copies(Key, u32),
    Wants(Key, u32),
    IsDead(Key, u32),
    DropCopy(Key, u32),
    Reserve(u64),
    Add(Key, u32),
    Room,
}

#[derive(Clone, Copy, Debug, PartialEq, Eq)]
enum Answer {
    Nothing,
    Holds(bool),
    Number(u64),
    NoCopy,
    NoRoom,
}

fn kill(standing: &mut Standing, name: EntryName) -> Answer {
    standing.kill(name);
    Answer::Nothing
}

// Whether it was the last copy.
fn drop_copy(standing: &mut Standing, name: EntryName) -> Answer {
    if standing.copies(name) == 0 {
        return Answer::NoCopy;
    }
    Answer::Holds(standing.drop_copy(name))
}

fn reserve(standing: &mut Standing, more: u64) -> Result<Answer, Memory> {
    standing.reserve(more)?;
    Ok(Answer::Nothing)
}

fn add(standing: &mut Standing, name: EntryName) -> Answer {
    if standing.room() == 0 {
        return Answer::NoRoom;
    }
    standing.add(name);
    Answer::Nothing
}

fn make(standing: &mut Standing, call: Call) -> Result<Answer, Memory> {
    Ok(match call {
        Call::Kill(key, version) => kill(standing, name(key, version)),
        Call::Copies(key, version) => Answer::Number(standing.copies(name(key, version))),
        Call::Wants(key, version) => Answer::Holds(standing.wants(name(key, version))),
        Call::IsDead(key, version) => Answer::Holds(standing.is_dead(name(key, version))),
        Call::DropCopy(key, version) => drop_copy(standing, name(key, version)),
        Call::Reserve(more) => reserve(standing, more)?,
        Call::Add(key, version) => add(standing, name(key, version)),
        Call::Room => Answer::Number(standing.room()),
    })
}

// The first call that answers otherwise, by its place, and what it answers.
type Other = Option<(usize, Answer)>;

fn play(standing: &mut Standing, calls: &[(Call, Answer)]) -> Result<Other, Memory> {
    for (place, (call, expected)) in calls.iter().enumerate() {
        let found = make(standing, *call)?;
        if found != *expected {
            return Ok(Some((place, found)));
        }
    }
    Ok(None)
}

fn first_other(alloc: Global, calls: &[(Call, Answer)]) -> Result<Other, Memory> {
    let names = [name(7, 2), name(9, 1), name(7, 2), name(7, 1)];
    let mut standing = Standing::open(alloc, &names)?;
    play(&mut standing, calls)
}

// Of the versions 1 and 2 of key 7 the second stands twice, and of key 9 version 1.
const COPIES_AND_DEATHS: [(Call, Answer); 19] = [
    (Call::Kill(9, 1), Answer::Nothing),
    (Call::Copies(7, 2), Answer::Number(2)),
    (Call::Copies(7, 1), Answer::Number(1)),
    (Call::Copies(8, 1), Answer::Number(0)),
    (Call::Wants(7, 1), Answer::Holds(true)),
    (Call::Wants(7, 2), Answer::Holds(false)),
    (Call::IsDead(9, 1), Answer::Holds(true)),
    (Call::Wants(9, 1), Answer::Holds(false)),
    (Call::Copies(9, 1), Answer::Number(1)),
    (Call::DropCopy(9, 1), Answer::Holds(true)),
    (Call::Copies(9, 1), Answer::Number(0)),
    (Call::Reserve(2), Answer::Nothing),
    (Call::Add(9, 1), Answer::Nothing),
    (Call::Add(8, 1), Answer::Nothing),
    (Call::Wants(9, 1), Answer::Holds(true)),
    (Call::Wants(8, 1), Answer::Holds(true)),
    (Call::Kill(8, 1), Answer::Nothing),
    (Call::IsDead(8, 1), Answer::Holds(true)),
    (Call::Room, Answer::Number(0)),
];

#[test]
fn names_in_their_copies(rt: HostRuntime) -> Result<(), Fail> {
    let other = first_other(rt.alloc(), &COPIES_AND_DEATHS)?;
    assert_eq!(rt; other, None);
    Ok(())
}
