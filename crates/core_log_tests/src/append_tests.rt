// Batches of entries in a region of memory, as words, and the calls that an append makes of its region.
ghost use Rattle.std.specs.Prelude.{◌≡◌, ◌*◌, ◌≤◌, ◌<◌, length, Some, true, false, is_some, IfOk, OnOk};
ghost use Rattle.region_memory.specs.Steady.{steady_state};
ghost use Rattle.core_log.specs.Log.{HoldsEntries, StandsIn, room_of, tail_of};

use crate::silent_region::{OpenChunk, OpenLog, open_chunk_of, opened, word};
use core_log::Placed;
use fs_model::{Key, Memory};
use log_entry::{Body, Entry, WordBuffer, write_entry};
use std::alloc::Global;
use std::test::Fail;

// A batch of tombstones, of two words each.
fn tombstones(alloc: Global, count: u64) -> Result<WordBuffer, Memory>
    requires some { 0 < count }
    requires few { count ≤ 32 }
    ensures entries { IfOk result (λ b. HoldsEntries b.words) }
    ensures long { IfOk result (λ b. length b.words ≡ 2 * count) }
{
    let mut batch = WordBuffer::with_room(alloc, 2 * count)?;
    let entry = Entry {
        key: 5,
        version: 2,
        body: Body::Tombstone,
    };
    for _ in 0..count {
        write_entry(&entry, &mut batch);
    }
    Ok(batch)
}

// Appends a batch of so many tombstones to chunk 1.
fn append(alloc: Global, stage: &mut OpenLog, count: u64) -> Result<Placed, Fail>
    requires some { 0 < count }
    requires few { count ≤ 32 }
    requires stands { StandsIn (record (steady_state stage.old.region.region)
        { told = λ t. false }) stage.old.log }
    requires opened { stage.old.log.opened ≡ Some 1 }
    requires room { room_of stage.old.log ≡ 60 }
    ensures stands { OnOk result (StandsIn (record (steady_state stage.new.region.region)
        { told = λ t. false }) stage.new.log) }
    ensures has { OnOk result (is_some (tail_of stage.new.log.chunks 1) ≡ true) }
{
    let batch = tombstones(alloc, count)?;
    let placed = stage.log.append_batch(&mut stage.region, &batch)?;
    Ok(placed)
}

// The key of an entry, its place, and the place behind it.
type Step = (Key, u64, u64);

// The first entry of chunk 1.
fn first_step(alloc: Global, stage: &OpenLog) -> Result<Option<Step>, Memory>
    requires stands { StandsIn (record (steady_state stage.now.region.region)
        { told = λ t. false }) stage.now.log }
    requires has { is_some (tail_of stage.now.log.chunks 1) ≡ true }
{
    Ok(match stage.log.walk(alloc, &stage.region, 1, 0)? {
        Some(step) => Some((step.entry.key, step.place, step.next)),
        None => None,
    })
}

// What is seen of a log whose first batch is one tombstone.
#[derive(Clone, Copy, Debug, PartialEq, Eq)]
struct Seen {
    before: OpenChunk,
    opened: OpenChunk,
    placed: Placed,
    lines_behind: u64,
    words: [u64; 5],
    first_step: Option<Step>,
}

fn append_one(alloc: Global, stage: &mut OpenLog) -> Result<Seen, Fail>
    requires stands { StandsIn (record (steady_state stage.old.region.region)
        { told = λ t. false }) stage.old.log }
    requires opened { stage.old.log.opened ≡ Some 1 }
    requires room { room_of stage.old.log ≡ 60 }
{
    let opened = open_chunk_of(&stage.log);
    let placed = append(alloc, stage, 1)?;
    let first_step = first_step(alloc, stage)?;
    let region = &stage.region.region;
    Ok(Seen {
        before: stage.before,
        opened,
        placed,
        lines_behind: stage.log.room(),
        words: [
            word(region, 1024),
            word(region, 1025),
            word(region, 1056),
            word(region, 1057),
            word(region, 1058),
        ],
        first_step,
    })
}

fn seen_of_one(alloc: Global) -> Result<Seen, Fail> {
    let mut stage = opened(alloc, 100, 1)?;
    append_one(alloc, &mut stage)
}

// Chunk 1 gets a log of one line, with the entry's two words.
const ONE_BATCH: Seen = Seen {
    before: OpenChunk {
        chunk: None,
        lines: 0,
    },
    opened: OpenChunk {
        chunk: Some(1),
        lines: 60,
    },
    placed: Placed { chunk: 1, place: 0 },
    lines_behind: 59,
    words: [1, 8, 0x22, 5, 0],
    first_step: Some((5, 0, 2)),
};

#[test]
fn one_batch(rt: HostRuntime) -> Result<(), Fail> {
    let seen = seen_of_one(rt.alloc())?;
    assert_eq!(rt; seen, ONE_BATCH);
    Ok(())
}

// How many flushes and fences an append of so many tombstones makes.
fn calls_of(alloc: Global, count: u64) -> Result<(u64, u64), Fail>
    requires some { 0 < count }
    requires few { count ≤ 32 }
{
    let mut stage = opened(alloc, 100, 1)?;
    stage.region.flushes = 0;
    stage.region.fences = 0;
    append(alloc, &mut stage, count)?;
    Ok((stage.region.flushes, stage.region.fences))
}

// A flush for each line of the batch, and one for the tail's; a fence for the batch, and one for the tail. Gives the
// first number of tombstones that makes other calls, and these.
fn first_other(alloc: Global) -> Result<Option<(u64, (u64, u64))>, Fail> {
    for count in 1..33 {
        let lines = (count + 3) / 4;
        let calls = calls_of(alloc, count)?;
        if calls != (lines + 1, 2) {
            return Ok(Some((count, calls)));
        }
    }
    Ok(None)
}

#[test]
fn calls_of_an_append(rt: HostRuntime) -> Result<(), Fail> {
    let other = first_other(rt.alloc())?;
    assert_eq!(rt; other, None);
    Ok(())
}
