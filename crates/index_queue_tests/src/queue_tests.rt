// 64 requests of three keys, and a long script against a plain queue. One function of each test owns the queue, since
// each exit of an owner carries the drop of what it owns.
use conflict_queue::{ConflictQueue, Held, NoNode};
use fs_model::{Key, Memory, Request};
use std::alloc::Global;
use std::test::Fail;

// The same in one list, in order of arrival.
#[derive(Drop)]
struct PlainQueue {
    held: Vec<Held>,
}

impl PlainQueue {
    fn open(alloc: Global) -> PlainQueue {
        PlainQueue {
            held: Vec::new(alloc),
        }
    }

    // Whether there was a place.
    fn hold(&mut self, number: u64, request: Request) -> Result<bool, Memory> {
        if self.held.len() == 64 {
            return Ok(false);
        }
        self.held.push(Held { number, request })?;
        Ok(true)
    }

    fn release(&mut self, key: Key) -> Option<Held> {
        for i in 0..self.held.len() {
            if self.held[i].request.key() == key {
                return Some(self.held.remove(i));
            }
        }
        None
    }
}

fn number_and_key(held: &Option<Held>) -> Option<(u64, Key)> {
    match held {
        None => None,
        Some(held) => Some((held.number, held.request.key())),
    }
}

// Whether a get of the key is held by each of these numbers.
fn holds(queue: &mut ConflictQueue, from: u64, to: u64, key: Key) -> bool {
    for number in from..to {
        if queue.hold(number, Request::Get { key }).is_err() {
            return false;
        }
    }
    true
}

// Whether requests of the key are released, the first by this number, and each further one by a number so much higher.
fn releases(queue: &mut ConflictQueue, key: Key, first: u64, step: u64, count: u64) -> bool {
    for round in 0..count {
        let number = first.saturating_add(step.saturating_mul(round));
        if number_and_key(&queue.release(key)) != Some((number, key)) {
            return false;
        }
    }
    true
}

// Whether a queue takes 64 requests of keys 1, 2 and 3 in turn.
fn fills(queue: &mut ConflictQueue) -> bool {
    for number in 0..64 {
        if !holds(queue, number, number + 1, number % 3 + 1) {
            return false;
        }
    }
    true
}

// Whether a delete finds no place, and is given back.
fn refuses(queue: &mut ConflictQueue, number: u64, key: Key) -> bool {
    match queue.hold(number, Request::Delete { key }) {
        Err(
            NoNode {
                request: Request::Delete { key: given },
            },
        ) => given == key,
        _ => false,
    }
}

// One call of the queue, or those of the function of this name.
#[derive(Clone, Copy)]
enum Call {
    Fills,
    Holds(u64, u64, Key),
    // A get of the key by this number finds no place.
    IsFull(u64, Key),
    Refuses(u64, Key),
    Releases(Key, u64, u64, u64),
    HasNone(Key),
    Free(u32),
}

// Whether it is as the call says.
fn make(queue: &mut ConflictQueue, call: Call) -> bool {
    match call {
        Call::Fills => fills(queue),
        Call::Holds(from, to, key) => holds(queue, from, to, key),
        Call::IsFull(number, key) => queue.hold(number, Request::Get { key }).is_err(),
        Call::Refuses(number, key) => refuses(queue, number, key),
        Call::Releases(key, first, step, count) => releases(queue, key, first, step, count),
        Call::HasNone(key) => queue.release(key).is_none(),
        Call::Free(count) => queue.free_nodes() == count,
    }
}

fn play(queue: &mut ConflictQueue, calls: &[Call]) -> Option<usize> {
    for (place, call) in calls.iter().enumerate() {
        if !make(queue, *call) {
            return Some(place);
        }
    }
    None
}

// The place of the first call of a new queue that goes otherwise.
fn first_other(alloc: Global, calls: &[Call]) -> Result<Option<usize>, Memory> {
    let mut queue = ConflictQueue::open(alloc)?;
    Ok(play(&mut queue, calls))
}

const THREE_KEYS: [Call; 7] = [
    Call::Fills,
    Call::Free(0),
    Call::Refuses(64, 9),
    Call::Releases(1, 0, 3, 22),
    Call::Releases(2, 1, 3, 21),
    Call::Releases(3, 2, 3, 21),
    Call::Free(64),
];

#[test]
fn three_keys_in_turn(rt: HostRuntime) -> Result<(), Fail> {
    let other = first_other(rt.alloc(), &THREE_KEYS)?;
    assert_eq!(rt; other, None);
    Ok(())
}

// What one key gives back another one takes, behind what waits for that.
const ANOTHER_KEY: [Call; 9] = [
    Call::Fills,
    Call::Releases(2, 1, 3, 21),
    Call::HasNone(2),
    Call::Free(21),
    Call::Holds(100, 121, 1),
    Call::IsFull(121, 2),
    Call::Releases(1, 0, 3, 22),
    Call::Releases(1, 100, 1, 21),
    Call::Free(43),
];

#[test]
fn places_of_another_key(rt: HostRuntime) -> Result<(), Fail> {
    let other = first_other(rt.alloc(), &ANOTHER_KEY)?;
    assert_eq!(rt; other, None);
    Ok(())
}

fn held_alike(
    queue: &mut ConflictQueue,
    plain: &mut PlainQueue,
    number: u64,
    key: Key,
    refused: &mut u64,
) -> Result<bool, Memory> {
    let taken = plain.hold(number, Request::Get { key })?;
    if !taken {
        *refused = refused.saturating_add(1);
    }
    Ok(queue.hold(number, Request::Get { key }).is_ok() == taken)
}

fn released_alike(queue: &mut ConflictQueue, plain: &mut PlainQueue, key: Key) -> bool {
    let first = plain.release(key);
    number_and_key(&queue.release(key)) == number_and_key(&first)
}

fn are_as_long(queue: &ConflictQueue, plain: &PlainQueue) -> bool {
    queue.free_nodes() as usize + plain.held.len() == 64
}

// The first number at which the two differ, and how often there was no place before.
fn play_both(
    queue: &mut ConflictQueue,
    plain: &mut PlainQueue,
) -> Result<(Option<u64>, u64), Memory> {
    let mut state = 1u32;
    let mut refused = 0u64;
    for number in 0..4000 {
        state = ((state as u64 * 1_103_515_245 + 12_345) % 2_147_483_648) as u32;
        let key = (state / 65_536 % 7) as u64;
        let alike = if state / 1_048_576 % 100 < 52 {
            held_alike(queue, plain, number, key, &mut refused)?
        } else {
            released_alike(queue, plain, key)
        };
        if !alike || !are_as_long(queue, plain) {
            return Ok((Some(number), refused));
        }
    }
    Ok((None, refused))
}

fn both_queues(alloc: Global) -> Result<(Option<u64>, u64), Memory> {
    let mut queue = ConflictQueue::open(alloc)?;
    let mut plain = PlainQueue::open(alloc);
    play_both(&mut queue, &mut plain)
}

#[test]
fn as_a_plain_queue_does(rt: HostRuntime) -> Result<(), Fail> {
    let (other, refused) = both_queues(rt.alloc())?;
    assert_eq!(rt; other, None);
    assert!(rt; refused > 0);
    Ok(())
}
