// The worked cases of cleaning: log chunk 0 has key 1 in versions 1 to 60, a line each, and log chunk 1 is open and has
// version 61. Expected values are those of the rules of cleaning.
ghost use Rattle.std.specs.Prelude.{◌≡◌, ◌≢◌, ◌≤◌, ◌<◌, Some, true, false, is_some, OnOk, IfOk};
ghost use Rattle.region_memory.specs.Steady.{steady_state};
ghost use Rattle.core_log.specs.Log.{StandsIn, tail_of};

use crate::silent_region::{OpenLog, Silent, opened, word};
use core_log::{CoreLog, Room};
use fs_model::{Memory, Value};
use log_cleaner::{Clearing, Standing, Victim, copy_live, to_copy, victim};
use log_entry::{Body, Entry, EntryName, WordBuffer, entry_words, write_entry};
use pm_region::{Region, SplitRegion};
use region_memory::{Pick, SteadyRegion};
use std::alloc::Global;
use std::test::Fail;

#[derive(Drop)]
struct Stage {
    region: Silent,
    log: CoreLog,
    standing: Standing,
    buffer: WordBuffer,
}

fn check(holds: bool) -> Result<(), Memory>
    ensures { OnOk result (holds ≡ true) }
{
    if holds { Ok(()) } else { Err(Memory) }
}

// Whether the log has the chunk.
fn has_chunk(log: &CoreLog, chunk: u32) -> bool
    ensures { result ≡ is_some (tail_of log.now.chunks chunk) }
{
    for c in log.chunks() {
        if c.chunk == chunk {
            return true;
        }
    }
    false
}

// Chunk 0 is one of the log's, and not the open one.
fn check_chunk(log: &CoreLog) -> Result<(), Memory>
    ensures has { OnOk result (is_some (tail_of log.now.chunks 0) ≡ true) }
    ensures closed { OnOk result (log.now.opened ≢ Some 0) }
{
    check(has_chunk(log, 0))?;
    check(log.opened() != Some(0))
}

fn name(version: u32) -> EntryName {
    EntryName { key: 1, version }
}

// Writes a version of key 1, the value `a`, into an empty buffer.
fn write_version(alloc: Global, buffer: &mut WordBuffer, version: u32) -> Result<(), Fail>
    requires version { (1 ≤ version) × (version < 100) }
    requires room { 2176 ≤ buffer.old.room }
    ensures { OnOk result (2176 ≤ buffer.new.room) }
{
    let mut bytes = Vec::new(alloc);
    bytes.push(97)?;
    let entry = Entry {
        key: 1,
        version,
        body: Body::Embedded(Value::of(bytes)),
    };
    buffer.clear();
    check(entry_words(&entry) <= 34)?;
    write_entry(&entry, buffer);
    Ok(())
}

// Appends what is in the buffer as a batch.
fn append(stage: &mut Stage) -> Result<(), Fail>
    requires stands { StandsIn (record (steady_state stage.old.region.region)
        { told = λ t. false }) stage.old.log }
    requires chunks { stage.old.log.layout.chunks ≡ 4 }
    ensures stands { OnOk result (StandsIn (record (steady_state stage.new.region.region)
        { told = λ t. false }) stage.new.log) }
    ensures chunks { OnOk result (stage.new.log.layout.chunks ≡ 4) }
    ensures buffer { stage.new.buffer ≡ stage.old.buffer }
{
    let lines = (stage.buffer.words().len() as u64 + 7) / 8;
    check(stage.buffer.words().len() > 0)?;
    check(lines <= stage.log.room())?;
    stage.log.append_batch(&mut stage.region, &stage.buffer)?;
    Ok(())
}

// Appends a version of key 1 as a batch of its own: one line. Versions up to `dead` are told dead.
fn add_version(alloc: Global, stage: &mut Stage, version: u32, dead: u32) -> Result<(), Fail>
    requires version { (1 ≤ version) × (version < 100) }
    requires stands { StandsIn (record (steady_state stage.old.region.region)
        { told = λ t. false }) stage.old.log }
    requires chunks { stage.old.log.layout.chunks ≡ 4 }
    requires room { 2176 ≤ stage.old.buffer.room }
    ensures stands { OnOk result (StandsIn (record (steady_state stage.new.region.region)
        { told = λ t. false }) stage.new.log) }
    ensures chunks { OnOk result (stage.new.log.layout.chunks ≡ 4) }
    ensures room { OnOk result (2176 ≤ stage.new.buffer.room) }
{
    write_version(alloc, &mut stage.buffer, version)?;
    append(stage)?;
    stage.standing.reserve(1)?;
    stage.standing.add(name(version));
    if version <= dead {
        stage.standing.kill(name(version));
    }
    Ok(())
}

// A part with an empty log chunk.
fn begun(alloc: Global) -> Result<Stage, Fail>
    ensures stands { IfOk result
        (λ r. StandsIn (record (steady_state r.region.region) { told = λ t. false }) r.log) }
    ensures chunks { IfOk result (λ r. r.log.layout.chunks ≡ 4) }
    ensures room { IfOk result (λ r. 2176 ≤ r.buffer.room) }
{
    let standing = Standing::open(alloc, &[])?;
    let buffer = WordBuffer::with_room(alloc, 2176)?;
    let OpenLog {
        region,
        log,
        before: _,
    } = opened(alloc, 4000, 0)?;
    Ok(Stage {
        region,
        log,
        standing,
        buffer,
    })
}

// Fills the chunk, opens the next one, and appends a version there.
fn fill(alloc: Global, stage: &mut Stage, dead: u32) -> Result<(), Fail>
    requires stands { StandsIn (record (steady_state stage.old.region.region)
        { told = λ t. false }) stage.old.log }
    requires chunks { stage.old.log.layout.chunks ≡ 4 }
    requires room { 2176 ≤ stage.old.buffer.room }
    ensures stands { OnOk result (StandsIn (record (steady_state stage.new.region.region)
        { told = λ t. false }) stage.new.log) }
    ensures chunks { OnOk result (stage.new.log.layout.chunks ≡ 4) }
    ensures room { OnOk result (2176 ≤ stage.new.buffer.room) }
{
    for version in 1..61 {
        add_version(alloc, stage, version, dead)?;
    }
    stage.log.open_chunk(&mut stage.region, 1)?;
    add_version(alloc, stage, 61, dead)
}

const ROOM: Room = Room {
    open_lines: 59,
    free_chunks: 2,
    pledged_lines: 0,
    payload_lines: 60,
};

fn found(alloc: Global, stage: &mut Stage) -> Result<Option<Victim>, Fail>
    requires { StandsIn (record (steady_state stage.old.region.region) { told = λ t. false })
        stage.old.log }
    ensures { stage.new ≡ record stage.old { standing = stage.new.standing } }
{
    let found = victim(
        alloc,
        &stage.region,
        &stage.log,
        &mut stage.standing,
        None,
        &ROOM,
    )?;
    Ok(found)
}

// Copies what lives of chunk 0, and gives how many entries were copied.
fn copied(stage: &mut Stage) -> Result<u64, Fail>
    requires stands { StandsIn (record (steady_state stage.old.region.region)
        { told = λ t. false }) stage.old.log }
    requires chunks { stage.old.log.layout.chunks ≡ 4 }
    requires room { 2176 ≤ stage.old.buffer.room }
    ensures stands { OnOk result (StandsIn (record (steady_state stage.new.region.region)
        { told = λ t. false }) stage.new.log) }
    ensures chunks { OnOk result (stage.new.log.layout.chunks ≡ 4) }
    ensures room { OnOk result (2176 ≤ stage.new.buffer.room) }
{
    check_chunk(&stage.log)?;
    let chosen = to_copy(&stage.region, &stage.log, &stage.standing, 0);
    let copied = copy_live(
        &mut stage.region,
        &mut stage.log,
        &mut stage.standing,
        &chosen,
        &mut stage.buffer,
    )?;
    Ok(copied.unwrap_or(0))
}

// What is to vanish with chunk 0.
fn gathered(alloc: Global, stage: &Stage) -> Result<Clearing, Memory>
    requires stands { StandsIn (record (steady_state stage.now.region.region)
        { told = λ t. false }) stage.now.log }
    requires has { is_some (tail_of stage.now.log.chunks 0) ≡ true }
    ensures { IfOk result (λ c. c.chunk ≡ 0) }
{
    let chosen = to_copy(&stage.region, &stage.log, &stage.standing, 0);
    let mut clearing = Clearing::begin(alloc, &stage.region, &stage.log, &chosen)?;
    clearing.gather(&stage.region, &stage.log, &stage.standing);
    Ok(clearing)
}

// Gives up chunk 0: how many names were doomed, how many are gone, and the last of these.
fn cleared(alloc: Global, stage: &mut Stage) -> Result<(usize, usize, Option<EntryName>), Fail>
    requires { StandsIn (record (steady_state stage.old.region.region)
        { told = λ t. false }) stage.old.log }
{
    check_chunk(&stage.log)?;
    let clearing = gathered(alloc, stage)?;
    let doomed = clearing.doomed_of().len();
    let cleared = clearing.clear(&mut stage.region, &mut stage.log, &mut stage.standing)?;
    Ok((doomed, cleared.gone.len(), cleared.gone.last().copied()))
}

// How often a version stands in the logs of the part. Each entry begins a line.
fn times(region: &SteadyRegion, version: u64) -> u64 {
    let mut found = 0u64;
    for chunk in 0..4u64 {
        let at = 512 + 512 * chunk;
        if word(region, at) == 1 {
            for line in 0..60u64 {
                let here = word(region, at + 32 + 8 * line) / 16 % 1048576 == version;
                if 8 * line < word(region, at + 1) && here {
                    found = found.saturating_add(1);
                }
            }
        }
    }
    found
}

// What a cleaning gives where nothing of chunk 0 lives: what it chooses, how many names were doomed, how many are gone,
// the last of these, the head of the chunk behind it, and in how many copies the versions 60 and 61 stand.
#[derive(Clone, Copy, Debug, PartialEq, Eq)]
struct AllDead {
    chosen: Option<Victim>,
    doomed: usize,
    gone: usize,
    last_gone: Option<EntryName>,
    head: u64,
    copies: (u64, u64),
}

fn all_dead_steps(alloc: Global, stage: &mut Stage) -> Result<AllDead, Fail>
    requires stands { StandsIn (record (steady_state stage.old.region.region)
        { told = λ t. false }) stage.old.log }
    requires chunks { stage.old.log.layout.chunks ≡ 4 }
    requires room { 2176 ≤ stage.old.buffer.room }
{
    fill(alloc, stage, 60)?;
    let chosen = found(alloc, stage)?;
    let (doomed, gone, last_gone) = cleared(alloc, stage)?;
    Ok(AllDead {
        chosen,
        doomed,
        gone,
        last_gone,
        head: word(&stage.region.region, 512),
        copies: (
            stage.standing.copies(name(60)),
            stage.standing.copies(name(61)),
        ),
    })
}

fn seen_of_all_dead(alloc: Global) -> Result<AllDead, Fail> {
    let mut stage = begun(alloc)?;
    all_dead_steps(alloc, &mut stage)
}

const ALL_DEAD: AllDead = AllDead {
    chosen: Some(Victim {
        chunk: 0,
        entries: 0,
        words: 0,
    }),
    doomed: 60,
    gone: 60,
    last_gone: Some(EntryName {
        key: 1,
        version: 60,
    }),
    head: 0,
    copies: (0, 1),
};

#[test]
fn all_dead(rt: HostRuntime) -> Result<(), Fail> {
    let seen = seen_of_all_dead(rt.alloc())?;
    assert_eq!(rt; seen, ALL_DEAD);
    Ok(())
}

const PICKS: [Pick; 6] = [
    Pick::Oldest,
    Pick::Newest,
    Pick::Mixed(0),
    Pick::Mixed(1),
    Pick::Mixed(2),
    Pick::Mixed(3),
];

// In how many images from one stamp to another both versions stand, and how many images there are.
fn images(alloc: Global, region: &SteadyRegion, from: u64, to: u64) -> Result<(u64, u64), Fail> {
    let mut seen = 0u64;
    let mut have = 0u64;
    for stamp in from..to {
        for pick in PICKS {
            let mut image = region.image_at(alloc, stamp, pick)?;
            image.attach(alloc)?;
            seen = seen.saturating_add(1);
            if times(&image, 60) >= 1 && times(&image, 61) == 1 {
                have = have.saturating_add(1);
            }
        }
    }
    Ok((have, seen))
}

// What a cleaning gives where version 60 alone lives in chunk 0.
#[derive(Clone, Copy, Debug, PartialEq, Eq)]
struct OneLives {
    chosen: Option<Victim>,
    copied: u64,
    copied_again: u64,
    doomed: usize,
    gone: usize,
    // How often the versions 60 and 59 stand behind it, and the head of the chunk.
    times_of_60: u64,
    times_of_59: u64,
    head: u64,
    copies_of_60: u64,
    steps: u64,
    images: (u64, u64),
}

// What it changed: how many entries were copied, and copied again, and how many names were doomed and are gone.
type Changes = (u64, u64, usize, usize);

fn copy_and_clear(alloc: Global, stage: &mut Stage) -> Result<Changes, Fail>
    requires stands { StandsIn (record (steady_state stage.old.region.region)
        { told = λ t. false }) stage.old.log }
    requires chunks { stage.old.log.layout.chunks ≡ 4 }
    requires room { 2176 ≤ stage.old.buffer.room }
{
    let first = copied(stage)?;
    let again = copied(stage)?;
    let (doomed, gone, _) = cleared(alloc, stage)?;
    Ok((first, again, doomed, gone))
}

fn one_lives_steps(alloc: Global, stage: &mut Stage) -> Result<OneLives, Fail>
    requires stands { StandsIn (record (steady_state stage.old.region.region)
        { told = λ t. false }) stage.old.log }
    requires chunks { stage.old.log.layout.chunks ≡ 4 }
    requires room { 2176 ≤ stage.old.buffer.room }
{
    fill(alloc, stage, 59)?;
    let chosen = found(alloc, stage)?;
    let begin = stage.region.stamp();
    let (copied, copied_again, doomed, gone) = copy_and_clear(alloc, stage)?;
    let end = stage.region.stamp();
    let region = &stage.region.region;
    Ok(OneLives {
        chosen,
        copied,
        copied_again,
        doomed,
        gone,
        times_of_60: times(region, 60),
        times_of_59: times(region, 59),
        head: word(region, 512),
        copies_of_60: stage.standing.copies(name(60)),
        steps: end.saturating_sub(begin),
        images: images(alloc, region, begin, end.saturating_add(1))?,
    })
}

fn seen_of_one_alive(alloc: Global) -> Result<OneLives, Fail> {
    let mut stage = begun(alloc)?;
    one_lives_steps(alloc, &mut stage)
}

const ONE_LIVES: OneLives = OneLives {
    chosen: Some(Victim {
        chunk: 0,
        entries: 1,
        words: 3,
    }),
    copied: 1,
    copied_again: 0,
    doomed: 59,
    gone: 59,
    times_of_60: 1,
    times_of_59: 0,
    head: 0,
    copies_of_60: 1,
    // the copy of a line makes 13 steps, and the end of the chunk 3: at each of them the living ones stand
    steps: 16,
    images: (102, 102),
};

#[test]
fn one_lives(rt: HostRuntime) -> Result<(), Fail> {
    let seen = seen_of_one_alive(rt.alloc())?;
    assert_eq!(rt; seen, ONE_LIVES);
    Ok(())
}
