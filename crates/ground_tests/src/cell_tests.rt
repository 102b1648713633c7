// A cell through requests: a table of what is asked of it, which one loop plays, so that the test itself owns nothing.
use fs_model::{Memory, Reply, Request, Value, cell_after, cell_answer};
use std::alloc::Global;
use std::test::Fail;

/// A request for key 5; the put is of `abc`.
#[derive(Clone, Copy)]
enum Asked {
    Put,
    Get,
    Delete,
}

fn request(alloc: Global, asked: Asked) -> Result<Request, Memory> {
    Ok(match asked {
        Asked::Put => Request::Put {
            key: 5,
            value: Value::of(Vec::from_slice(alloc, b"abc")?),
        },
        Asked::Get => Request::Get { key: 5 },
        Asked::Delete => Request::Delete { key: 5 },
    })
}

/// What is answered, or whether the cell has a value behind the request.
#[derive(Clone, Copy, PartialEq, Eq)]
enum Found {
    Absent,
    Stored,
    Abc,
    Deleted,
    Other,
    HasValue,
    HasNone,
}

fn found_by(reply: &Reply) -> Found {
    match reply {
        Reply::Absent => Found::Absent,
        Reply::Stored => Found::Stored,
        Reply::Deleted => Found::Deleted,
        Reply::Value(value) if value.bytes() == b"abc".as_slice() => Found::Abc,
        _ => Found::Other,
    }
}

fn answer(alloc: Global, cell: &Option<Value>, asked: Asked) -> Result<Found, Memory> {
    let request = request(alloc, asked)?;
    let reply = cell_answer(alloc, cell, &request)?;
    Ok(found_by(&reply))
}

fn after(alloc: Global, cell: Option<Value>, asked: Asked) -> Result<Option<Value>, Memory> {
    let request = request(alloc, asked)?;
    cell_after(alloc, cell, &request)
}

/// One call.
#[derive(Clone, Copy)]
enum Call {
    Answer(Asked),
    After(Asked),
}

fn make(alloc: Global, cell: &mut Option<Value>, call: Call) -> Result<Found, Memory> {
    match call {
        Call::Answer(asked) => answer(alloc, cell, asked),
        Call::After(asked) => {
            *cell = after(alloc, cell.take(), asked)?;
            Ok(if cell.is_some() {
                Found::HasValue
            } else {
                Found::HasNone
            })
        }
    }
}

/// The place of the first call that goes otherwise, from a cell with no value on.
fn first_other(alloc: Global, calls: &[(Call, Found)]) -> Result<Option<usize>, Memory> {
    let mut cell = None;
    for (place, (call, wanted)) in calls.iter().enumerate() {
        if make(alloc, &mut cell, *call)? != *wanted {
            return Ok(Some(place));
        }
    }
    Ok(None)
}

const FOUR_REQUESTS: [(Call, Found); 8] = [
    (Call::Answer(Asked::Get), Found::Absent),
    (Call::Answer(Asked::Delete), Found::Absent),
    (Call::Answer(Asked::Put), Found::Stored),
    (Call::After(Asked::Put), Found::HasValue),
    (Call::Answer(Asked::Get), Found::Abc),
    (Call::After(Asked::Get), Found::HasValue),
    (Call::Answer(Asked::Delete), Found::Deleted),
    (Call::After(Asked::Delete), Found::HasNone),
];

#[test]
fn a_cell_through_four_requests(rt: HostRuntime) -> Result<(), Fail> {
    let other = first_other(rt.alloc(), &FOUR_REQUESTS)?;
    assert_eq!(rt; other, None);
    Ok(())
}
