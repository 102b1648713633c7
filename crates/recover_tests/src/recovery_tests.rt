// Damaged regions, and what is recovered of sound ones. Expected values are those of the format's rules. What owns a
// region, or what was recovered of one, gives back plain data, which the test compares: each exit of a function drops
// what it owns, and each exit is proved.
ghost use Rattle.std.specs.Prelude.{ℕ, ◌<◌, ◌≤◌, length, slice_index_or};
ghost use Rattle.chunk_map.specs.Layouts.{IsLayout};
ghost use Rattle.recover.specs.declared.types.CoreStart.{CoreStart};

use core_index::Look;
use core_log::LogChunk;
use fs_model::{Key, Memory, Pair};
use log_entry::EntryName;
use pm_region::{Region, SplitRegion};
use recover::{
    CoreStart, Fault, RecoverError, Recovered, first_fault, live_pairs, pairs, recover,
    recover_read,
};
use region_memory::SteadyRegion;
use std::alloc::Global;
use std::test::Fail;

const FORMAT: [(u64, u64); 2] = [(0, 0x3130_5453_5441_4c46), (1, 1)];

/// A region of one core with four chunks of 4,096 bytes.
const ONE_CORE: [(u64, u64); 4] = [(2, 1), (3, 1), (4, 4), (5, 4096)];

fn write(region: &mut SteadyRegion, writes: &[(u64, u64)]) {
    for (at, word) in writes {
        if region.first() == 0 && *at < region.words() {
            region.store(*at, *word);
        }
    }
}

/// A region of so many words: zeros, but for the superblock of one core and these words.
fn region(alloc: Global, words: u64, writes: &[(u64, u64)]) -> Result<SteadyRegion, Fail> {
    let mut region = SteadyRegion::new(alloc, Vec::new(alloc), 64)?;
    if words <= 33554944 {
        region.create(alloc, words)?;
    }
    write(&mut region, &FORMAT);
    write(&mut region, &ONE_CORE);
    write(&mut region, writes);
    Ok(region)
}

/// What is found of a region as one of so many bytes.
fn found(alloc: Global, region: &SteadyRegion, bytes: u64) -> Result<Option<Fault>, Memory> {
    let whole = bytes % 8 == 0;
    if region.first() == 0 && (!whole || region.words() == bytes / 8) {
        let fault = first_fault(alloc, region, bytes)?;
        return Ok(fault);
    }
    Ok(None)
}

/// What is found of a region of so many words, as one of so many bytes.
fn judged(
    alloc: Global,
    words: u64,
    bytes: u64,
    writes: &[(u64, u64)],
    again: &[(u64, u64)],
) -> Result<Option<Fault>, Fail> {
    let mut region = region(alloc, words, writes)?;
    write(&mut region, again);
    let fault = found(alloc, &region, bytes)?;
    Ok(fault)
}

/// The first region of 2,560 words in which another fault is found, by its place, and that fault.
fn other_fault(
    alloc: Global,
    rows: &[(u64, &[(u64, u64)], Option<Fault>)],
) -> Result<Option<(usize, Option<Fault>)>, Fail> {
    for (place, (bytes, writes, expected)) in rows.iter().enumerate() {
        let fault = judged(alloc, 2560, *bytes, writes, &[])?;
        if fault != *expected {
            return Ok(Some((place, fault)));
        }
    }
    Ok(None)
}

fn damaged(part: u32, chunk: u32, rule: u32) -> Option<Fault> {
    Some(Fault::Damaged { part, chunk, rule })
}

fn refused(rule: u32) -> Option<Fault> {
    Some(Fault::NotARegion { rule })
}

#[test]
fn damage(rt: HostRuntime) -> Result<(), Fail> {
    // key 1 version 1 is `a` in chunk 0 and `b` in chunk 1
    let twice = [
        (512, 1),
        (513, 8),
        (544, 0x0100_0015),
        (545, 1),
        (546, 97),
        (1024, 1),
        (1025, 8),
        (1056, 0x0100_0015),
        (1057, 1),
        (1058, 98),
    ];
    // keys 1 and 2 point at one block of 256 bytes
    let shared = [
        (512, 258),
        (544, 256),
        (1024, 1),
        (1025, 8),
        (1056, 0x1100_0011),
        (1057, 1),
        (1058, 0x1100_0011),
        (1059, 2),
    ];
    let rows: [(u64, &[(u64, u64)], Option<Fault>); 9] = [
        (20480, &[], None),
        // the last byte is cut off; another magic word; five chunks
        (20479, &[], refused(1)),
        (20480, &[(0, 1)], refused(2)),
        (20480, &[(4, 5)], refused(3)),
        // a class that 4,096 bytes don't have; a tail of no whole line; a line of zeros
        (20480, &[(1536, 770)], damaged(0, 2, 4)),
        (20480, &[(1024, 1), (1025, 12)], damaged(0, 1, 5)),
        (20480, &[(1024, 1), (1025, 8)], damaged(0, 1, 6)),
        (20480, &twice, damaged(0, 1, 8)),
        (20480, &shared, damaged(0, 1, 11)),
    ];
    assert_eq!(rt; other_fault(rt.alloc(), &rows)?, None);
    Ok(())
}

/// Two cores of one group, with four chunks each.
const TWO_CORES: [(u64, u64); 26] = [
    (2, 2),
    (3, 2),
    // part 0: a block of 256 bytes in chunk 0; in chunk 1 key 2 points at it, and key 1 is `a`
    (512, 258),
    (544, 256),
    (545, 7),
    (1024, 1),
    (1025, 8),
    (1056, 0x1100_0011),
    (1057, 2),
    (1058, 0x0100_0015),
    (1059, 1),
    (1060, 97),
    // part 1: an empty log in chunk 0; in chunk 3 key 1 is deleted, and key 5 is `abc`
    (2560, 1),
    (2561, 0),
    (4096, 1),
    (4097, 8),
    (4128, 0x22),
    (4129, 1),
    (4130, 0x0300_0015),
    (4131, 5),
    (4132, 0x0063_6261),
    // what isn't read: beyond a tail, a payload of blocks, words of a head
    (1064, 3),
    (1023, 9),
    (4100, 5),
    (513, 77),
    (4136, 0x15),
];

/// What is asked of a core's start. A name is a key and a version.
#[derive(Clone, Copy)]
enum Question {
    Core,
    HasChunks(&'static [LogChunk]),
    Opened,
    Look(Key),
    FreeSmallBlocks,
    FreeChunks,
    IsAllocated(u64),
    Stands(Key, u32),
    IsDead(Key, u32),
}

/// What it answers. A name stands in so many copies, and was told dead or not.
#[derive(Clone, Copy, Debug, PartialEq, Eq)]
enum Answer {
    Count(u32),
    Is(bool),
    Chunk(Option<u32>),
    Unknown,
    Deleted,
    Embedded,
    Block(u64),
    Stands(u64, bool),
    NoSuchCore,
}

/// What a key has in a core's index.
fn look_at(start: &CoreStart, key: Key) -> Answer {
    match start.index.look(key) {
        Look::Unknown => Answer::Unknown,
        Look::Deleted => Answer::Deleted,
        Look::Embedded(_) => Answer::Embedded,
        Look::Block(pointer) => Answer::Block(pointer),
    }
}

/// In how many copies a name stands in a core's log, and whether it was told dead.
fn stands_at(start: &CoreStart, name: EntryName) -> Answer {
    Answer::Stands(start.standing.copies(name), start.standing.is_dead(name))
}

/// Small blocks have 512 bytes, and each layout has that class.
fn ask_start(start: &CoreStart, question: Question) -> Answer
    requires { IsLayout start.now.allocator.layout }
{
    match question {
        Question::Core => Answer::Count(start.core),
        Question::HasChunks(chunks) => Answer::Is(start.log.chunks() == chunks),
        Question::Opened => Answer::Chunk(start.log.opened()),
        Question::Look(key) => look_at(start, key),
        Question::FreeSmallBlocks => Answer::Count(start.allocator.free_blocks(1)),
        Question::FreeChunks => Answer::Count(start.allocator.free_chunks()),
        Question::IsAllocated(pointer) => Answer::Is(start.allocator.is_allocated(pointer)),
        Question::Stands(key, version) => stands_at(start, EntryName { key, version }),
        Question::IsDead(key, version) => {
            Answer::Is(start.standing.is_dead(EntryName { key, version }))
        }
    }
}

fn ask(recovered: &Recovered, core: usize, question: Question) -> Answer
    requires { (c : ℕ) (d : CoreStart) → c < length recovered.now.starts.items
        → IsLayout (slice_index_or recovered.now.starts.items c d).allocator.layout }
{
    match recovered.starts.get(core) {
        Some(start) => ask_start(start, question),
        None => Answer::NoSuchCore,
    }
}

/// What is asked of the cores' starts, by the place of the core, and what is expected.
type Rows<'a> = &'a [(usize, Question, Answer)];

/// What is seen of what was recovered.
#[derive(Clone, Copy, Debug, PartialEq, Eq)]
struct Seen {
    cores: u32,
    group: u32,
    starts: usize,
    /// The first question that is answered otherwise, by its place, and what it answers.
    other: Option<(usize, Answer)>,
}

fn other_answer(recovered: &Recovered, rows: Rows<'_>) -> Option<(usize, Answer)>
    requires { (c : ℕ) (d : CoreStart) → c < length recovered.now.starts.items
        → IsLayout (slice_index_or recovered.now.starts.items c d).allocator.layout }
{
    for (place, (core, question, expected)) in rows.iter().enumerate() {
        let found = ask(recovered, *core, *question);
        if found != *expected {
            return Some((place, found));
        }
    }
    None
}

fn seen_in(recovered: &Recovered, rows: Rows<'_>) -> Seen
    requires { (c : ℕ) (d : CoreStart) → c < length recovered.now.starts.items
        → IsLayout (slice_index_or recovered.now.starts.items c d).allocator.layout }
{
    Seen {
        cores: recovered.layout.cores(),
        group: recovered.layout.group(),
        starts: recovered.starts.len(),
        other: other_answer(recovered, rows),
    }
}

/// What is seen of a region of so many words; none where it has others.
fn seen_of(
    alloc: Global,
    region: &SteadyRegion,
    words: u64,
    rows: Rows<'_>,
) -> Result<Option<Seen>, RecoverError>
    requires { words ≤ 33554944 }
{
    if region.first() != 0 || region.words() != words {
        return Ok(None);
    }
    let recovered = recover(alloc, region, 8 * words)?;
    Ok(Some(seen_in(&recovered, rows)))
}

fn seen_in_region(
    alloc: Global,
    words: u64,
    writes: &[(u64, u64)],
    rows: Rows<'_>,
) -> Result<Option<Seen>, Fail>
    requires { words ≤ 33554944 }
{
    let region = region(alloc, words, writes)?;
    let seen = seen_of(alloc, &region, words, rows)?;
    Ok(seen)
}

/// As the rows say, with so many cores in groups of so many.
fn as_expected(cores: u32, group: u32) -> Option<Seen> {
    Some(Seen {
        cores,
        group,
        starts: cores as usize,
        other: None,
    })
}

const LOGS: [(usize, Question, Answer); 6] = [
    (0, Question::Core, Answer::Count(0)),
    (
        0,
        Question::HasChunks(&[LogChunk { chunk: 1, tail: 8 }]),
        Answer::Is(true),
    ),
    (0, Question::Opened, Answer::Chunk(Some(1))),
    (1, Question::Core, Answer::Count(1)),
    (
        1,
        Question::HasChunks(&[
            LogChunk { chunk: 0, tail: 0 },
            LogChunk { chunk: 3, tail: 8 },
        ]),
        Answer::Is(true),
    ),
    (1, Question::Opened, Answer::Chunk(Some(0))),
];

#[test]
fn logs_of_two_cores(rt: HostRuntime) -> Result<(), Fail> {
    let seen = seen_in_region(rt.alloc(), 4608, &TWO_CORES, &LOGS)?;
    assert_eq!(rt; seen, as_expected(2, 2));
    Ok(())
}

const KEYS: [(usize, Question, Answer); 9] = [
    // key 2 is core 0's, in the first of seven blocks; key 1 is deleted, and key 5 has a value
    (0, Question::Look(2), Answer::Block(17)),
    (0, Question::Look(1), Answer::Unknown),
    (1, Question::Look(1), Answer::Deleted),
    (1, Question::Look(5), Answer::Embedded),
    (0, Question::FreeSmallBlocks, Answer::Count(6)),
    (1, Question::FreeSmallBlocks, Answer::Count(0)),
    // key 1's value in part 0 is dead, and core 1, whose key it is, has yet to say so; the delete is needed still
    (0, Question::Stands(1, 1), Answer::Stands(1, false)),
    (1, Question::Stands(1, 1), Answer::Stands(0, false)),
    (1, Question::Stands(1, 2), Answer::Stands(1, false)),
];

#[test]
fn keys_of_two_cores(rt: HostRuntime) -> Result<(), Fail> {
    let seen = seen_in_region(rt.alloc(), 4608, &TWO_CORES, &KEYS)?;
    assert_eq!(rt; seen, as_expected(2, 2));
    Ok(())
}

/// Whether the pair at a place has this key, and a value of this length and begin.
fn is_pair(pairs: &[Pair], place: usize, key: Key, length: usize, begin: &[u8]) -> bool {
    match pairs.get(place) {
        Some(pair) => {
            let bytes = pair.value.bytes();
            pair.key == key && bytes.len() == length && bytes.starts_with(begin)
        }
        None => false,
    }
}

/// How many pairs there are, and whether they are those of the two cores: 256 bytes under key 2, and `abc` under key 5.
fn pairs_seen(pairs: &[Pair]) -> (usize, bool, bool) {
    (
        pairs.len(),
        is_pair(pairs, 0, 2, 256, &[7, 0]),
        is_pair(pairs, 1, 5, 3, b"abc"),
    )
}

fn pairs_of(
    alloc: Global,
    region: &SteadyRegion,
) -> Result<Option<(usize, bool, bool)>, RecoverError> {
    if region.first() != 0 || region.words() != 4608 {
        return Ok(None);
    }
    let recovered = recover(alloc, region, 36864)?;
    let pairs = pairs(alloc, region, &recovered)?;
    Ok(Some(pairs_seen(&pairs)))
}

fn pairs_in_two_cores(alloc: Global) -> Result<Option<(usize, bool, bool)>, Fail> {
    let region = region(alloc, 4608, &TWO_CORES)?;
    let seen = pairs_of(alloc, &region)?;
    Ok(seen)
}

#[test]
fn pairs_of_two_cores(rt: HostRuntime) -> Result<(), Fail> {
    let seen = pairs_in_two_cores(rt.alloc())?;
    assert_eq!(rt; seen, Some((2, true, true)));
    Ok(())
}

fn live_pairs_of(
    alloc: Global,
    region: &SteadyRegion,
) -> Result<Option<(usize, bool, bool)>, RecoverError> {
    if region.first() != 0 || region.words() != 4608 {
        return Ok(None);
    }
    let pairs = live_pairs(alloc, region, 36864)?;
    Ok(Some(pairs_seen(&pairs)))
}

fn live_pairs_in_two_cores(alloc: Global) -> Result<Option<(usize, bool, bool)>, Fail> {
    let region = region(alloc, 4608, &TWO_CORES)?;
    let seen = live_pairs_of(alloc, &region)?;
    Ok(seen)
}

#[test]
fn live_pairs_of_two_cores(rt: HostRuntime) -> Result<(), Fail> {
    let seen = live_pairs_in_two_cores(rt.alloc())?;
    assert_eq!(rt; seen, Some((2, true, true)));
    Ok(())
}

/// Sixteen cores in two groups, with four chunks each: in part 15, chunk 2 is a log in which key 15 is `abc`.
const SIXTEEN_CORES: [(u64, u64); 7] = [
    (2, 16),
    (3, 8),
    (32256, 1),
    (32257, 8),
    (32288, 0x0300_0015),
    (32289, 15),
    (32290, 0x0063_6261),
];

const LAST_OF_SIXTEEN: [(usize, Question, Answer); 6] = [
    (15, Question::Core, Answer::Count(15)),
    (
        15,
        Question::HasChunks(&[LogChunk { chunk: 2, tail: 8 }]),
        Answer::Is(true),
    ),
    (15, Question::Look(15), Answer::Embedded),
    (14, Question::Look(15), Answer::Unknown),
    (15, Question::Stands(15, 1), Answer::Stands(1, false)),
    (14, Question::Stands(15, 1), Answer::Stands(0, false)),
];

#[test]
fn sixteen_cores(rt: HostRuntime) -> Result<(), Fail> {
    let seen = seen_in_region(rt.alloc(), 33280, &SIXTEEN_CORES, &LAST_OF_SIXTEEN)?;
    assert_eq!(rt; seen, as_expected(16, 8));
    Ok(())
}

/// One core: key 1 was put twice, with blocks of 256 bytes.
const TWICE: [(u64, u64); 9] = [
    (512, 258),
    (544, 256),
    (608, 256),
    (1024, 1),
    (1025, 8),
    (1056, 0x1100_0011),
    (1057, 1),
    (1058, 0x1300_0021),
    (1059, 1),
];

const LAST_PUT: [(usize, Question, Answer); 7] = [
    // the last put's block alone is allocated, of the seven of its chunk
    (0, Question::Look(1), Answer::Block(19)),
    (0, Question::FreeSmallBlocks, Answer::Count(6)),
    (0, Question::FreeChunks, Answer::Count(2)),
    (0, Question::IsAllocated(17), Answer::Is(false)),
    (0, Question::IsAllocated(19), Answer::Is(true)),
    // its first put still stands, and is dead
    (0, Question::IsDead(1, 1), Answer::Is(true)),
    (0, Question::IsDead(1, 2), Answer::Is(false)),
];

/// The first two names that core 0 tells itself as dead.
fn notices(recovered: &mut Recovered) -> [Option<EntryName>; 2] {
    match recovered.starts.get_mut(0) {
        Some(start) => [start.index.next_notice(0), start.index.next_notice(0)],
        None => [None, None],
    }
}

/// What is seen of the region, and then its notices.
type SeenWithNotices = (Seen, [Option<EntryName>; 2]);

fn seen_with_notices(
    alloc: Global,
    region: &SteadyRegion,
) -> Result<Option<SeenWithNotices>, RecoverError> {
    if region.first() != 0 || region.words() != 2560 {
        return Ok(None);
    }
    let mut recovered = recover(alloc, region, 20480)?;
    let seen = seen_in(&recovered, &LAST_PUT);
    Ok(Some((seen, notices(&mut recovered))))
}

fn seen_of_two_puts(alloc: Global) -> Result<Option<SeenWithNotices>, Fail> {
    let region = region(alloc, 2560, &TWICE)?;
    let seen = seen_with_notices(alloc, &region)?;
    Ok(seen)
}

#[test]
fn two_puts(rt: HostRuntime) -> Result<(), Fail> {
    let seen = seen_of_two_puts(rt.alloc())?;
    let one_core = Seen {
        cores: 1,
        group: 1,
        starts: 1,
        other: None,
    };
    let first_put = EntryName { key: 1, version: 1 };
    assert_eq!(rt; seen, Some((one_core, [Some(first_put), None])));
    Ok(())
}

/// One core: key 1 is `a` in chunk 1, and twice so in chunk 2; key 5 was deleted, and nothing older of it stands.
const COPIED: [(u64, u64); 15] = [
    (1024, 1),
    (1025, 8),
    (1056, 0x0100_0015),
    (1057, 1),
    (1058, 97),
    (1536, 1),
    (1537, 8),
    (1568, 0x0100_0015),
    (1569, 1),
    (1570, 97),
    (1571, 0x0100_0015),
    (1572, 1),
    (1573, 97),
    (1574, 0x72),
    (1575, 5),
];

const COPIES: [(usize, Question, Answer); 2] = [
    (0, Question::Stands(1, 1), Answer::Stands(2, false)),
    (0, Question::Stands(5, 7), Answer::Stands(1, true)),
];

#[test]
fn copies(rt: HostRuntime) -> Result<(), Fail> {
    let seen = seen_in_region(rt.alloc(), 2560, &COPIED, &COPIES)?;
    assert_eq!(rt; seen, as_expected(1, 1));
    Ok(())
}

fn refusal_of(alloc: Global, region: &SteadyRegion) -> Option<RecoverError> {
    if region.first() != 0 || region.words() != 4608 {
        return None;
    }
    recover(alloc, region, 36864).err()
}

/// Why the region of two cores isn't recovered behind these writes.
fn refusal(alloc: Global, writes: &[(u64, u64)]) -> Result<Option<RecoverError>, Fail> {
    let mut region = region(alloc, 4608, &TWO_CORES)?;
    write(&mut region, writes);
    Ok(refusal_of(alloc, &region))
}

/// The faults of the region of two cores behind some writes each.
fn faults_of_two_cores(alloc: Global) -> Result<[Option<Fault>; 3], Fail> {
    // key 5 isn't owned by a core of part 0's group, which is of one core
    let alone = judged(alloc, 4608, 36864, &TWO_CORES, &[(3, 1), (1059, 5)])?;
    // the block has a length of class 2; a pointer to no block
    let long = judged(alloc, 4608, 36864, &TWO_CORES, &[(544, 505)])?;
    let nowhere = judged(
        alloc,
        4608,
        36864,
        &TWO_CORES,
        &[(544, 505), (1056, 0x1200_0011)],
    )?;
    Ok([alone, long, nowhere])
}

#[test]
fn refusals(rt: HostRuntime) -> Result<(), Fail> {
    let faults = faults_of_two_cores(rt.alloc())?;
    // an entry stands in both parts
    let twice = [
        (4128, 0x0100_0015),
        (4129, 1),
        (4130, 97),
        (4131, 0),
        (4132, 0),
    ];
    let refusal = refusal(rt.alloc(), &twice)?;
    let in_both = RecoverError::Fault(Fault::Damaged {
        part: 1,
        chunk: 3,
        rule: 8,
    });
    assert_eq!(rt;
        (faults, refusal),
        (
            [damaged(0, 1, 7), damaged(0, 1, 10), damaged(0, 1, 9)],
            Some(in_both)
        )
    );
    Ok(())
}

const READ: [(usize, Question, Answer); 3] = [
    (0, Question::Look(2), Answer::Block(17)),
    (1, Question::Look(1), Answer::Deleted),
    (0, Question::Stands(1, 1), Answer::Stands(1, false)),
];

fn read_of(alloc: Global, region: &SteadyRegion) -> Result<Option<Seen>, RecoverError> {
    if region.first() != 0 || region.words() != 4608 {
        return Ok(None);
    }
    let recovered = recover_read(alloc, region, 36864)?;
    Ok(Some(seen_in(&recovered, &READ)))
}

fn read_in_two_cores(alloc: Global) -> Result<Option<Seen>, Fail> {
    let region = region(alloc, 4608, &TWO_CORES)?;
    let seen = read_of(alloc, &region)?;
    Ok(seen)
}

#[test]
fn reading_a_region(rt: HostRuntime) -> Result<(), Fail> {
    let seen = read_in_two_cores(rt.alloc())?;
    assert_eq!(rt; seen, as_expected(2, 2));
    Ok(())
}
