ghost use Rattle.std.specs.Prelude.{◌^◌, ◌<◌};

use super::*;
use fs_model::{Memory, Request};
use std::alloc::Global;
use std::test::*;

// How many were stored, found, absent and deleted.
#[derive(Clone, Copy)]
struct AnswerCounts {
    stored: u64,
    value: u64,
    absent: u64,
    deleted: u64,
}

// Plays a request on the lengths of the values that there are, by key, and counts its answer.
fn play(lengths: &mut Vec<Option<usize>>, counts: &mut AnswerCounts, request: Request) {
    let Some(length) = lengths.get_mut(request.key() as usize) else {
        return;
    };
    let live = length.is_some();
    let count = match &request {
        Request::Put { key: _, value } => {
            *length = Some(value.bytes().len());
            &mut counts.stored
        }
        Request::Get { .. } if live => &mut counts.value,
        Request::Delete { .. } if live => {
            *length = None;
            &mut counts.deleted
        }
        _ => &mut counts.absent,
    };
    *count = count.wrapping_add(1);
}

// What a load on an empty store leaves: the lengths of the values, by key, and what was answered.
fn played(
    alloc: Global,
    start: u64,
    count: u64,
) -> Result<(Vec<Option<usize>>, AnswerCounts), Memory>
    requires { count < 2 ^ 63 }
{
    let mut lengths = Vec::from_elem(alloc, None, 10_000)?;
    let mut counts = AnswerCounts {
        stored: 0,
        value: 0,
        absent: 0,
        deleted: 0,
    };
    for number in 0..count {
        play(&mut lengths, &mut counts, request_at(alloc, start, number)?);
    }
    Ok((lengths, counts))
}

// How many keys have a value, and the lengths of these values together.
fn live(lengths: &Vec<Option<usize>>) -> (u64, u64) {
    let (mut keys, mut bytes) = (0u64, 0u64);
    for length in lengths {
        if let Some(length) = length {
            keys = keys.wrapping_add(1);
            bytes = bytes.wrapping_add(*length as u64);
        }
    }
    (keys, bytes)
}

#[test]
fn two_hundred_thousand_from_seven(rt: HostRuntime) -> Result<(), Fail> {
    let (lengths, counts) = played(rt.alloc(), 7, 200_000)?;
    assert_eq!(rt; counts.stored, 100_000);
    assert_eq!(rt; counts.value, 47_500);
    assert_eq!(rt; counts.absent, 30_000);
    assert_eq!(rt; counts.deleted, 22_500);
    assert_eq!(rt; live(&lengths), (7_500, 173_099));
    Ok(())
}
