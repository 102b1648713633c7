// One part with four chunks of 4,096 bytes. Expected values are those of the format: a chunk of 16 units has a head of
// one, and 7 blocks of class 1 or 3 of class 2.
ghost use Rattle.std.specs.Prelude.{◌≡◌, ◌≤◌, ◌<◌, ◌+◌, ◌*◌, ◌^◌, ℕ, length, None, true, false, IfOk};
ghost use Rattle.region_memory.specs.Steady.{steady_state};
ghost use Rattle.pm_region.specs.State.{IsTelling, InRange, cell_now};
ghost use Rattle.pm_region.specs.Cell.{certain};
ghost use Rattle.chunk_map.specs.Layouts.{IsLayout, is_class};
ghost use Rattle.lazy_alloc.specs.Sets.{AreSets, chunk_class};
ghost use Rattle.lazy_alloc.specs.Written.{PartLies};
ghost use Rattle.core_block_tests.specs.SmallParts.{small, IsBlank};

use crate::plain_allocator::Plain;
use chunk_map::{Head, Layout};
use fs_model::{Memory, Value};
use lazy_alloc::{Allocator, class_of, value_in};
use pm_region::{Region, SplitRegion};
use region_memory::SteadyRegion;
use std::alloc::Global;
use std::test::Fail;

// The part with no chunk cut.
fn free_part(alloc: Global) -> Result<Allocator, Fail>
    ensures sets { IfOk result (λ a. AreSets a) }
    ensures layout { IfOk result
        (λ a. a.layout ≡ small) }
    ensures part { IfOk result (λ a. a.part ≡ 0) }
    ensures uncut { IfOk result (λ a. (j : ℕ) → chunk_class a j ≡ None) }
{
    let layout = Layout::new(1, 1, 4, 4096)?;
    let heads = [Head::Free; 4];
    Ok(Allocator::rebuild(alloc, layout, 0, &heads, &[])?)
}

fn take(a: &mut Allocator, class: u32, may_cut: bool) -> Option<u64>
    requires low { 1 ≤ class }
    requires high { class ≤ 2 }
    requires sets { AreSets a.old }
    requires layout { a.old.layout ≡ small }
    ensures sets { AreSets a.new }
    ensures layout { a.new.layout ≡ small }
{
    a.take(class, may_cut)
}

fn put_back(a: &mut Allocator, pointer: u64)
    requires sets { AreSets a.old }
    requires layout { a.old.layout ≡ small }
    ensures sets { AreSets a.new }
    ensures layout { a.new.layout ≡ small }
{
    if a.is_allocated(pointer) {
        a.put_back(pointer);
    }
}

// The chunk that the log gets, which comes back at once.
fn lend_chunk(a: &mut Allocator) -> Option<u32>
    requires sets { AreSets a.old }
    requires layout { a.old.layout ≡ small }
    ensures sets { AreSets a.new }
    ensures layout { a.new.layout ≡ small }
{
    let chunk = a.take_chunk()?;
    a.give_chunk(chunk);
    Some(chunk)
}

// One call of an allocator. `Take` may cut a free chunk for a block of its class, and `TakeCut` may not. What is put
// back or looked at is a block by its pointer.
#[derive(Clone, Copy)]
enum Call {
    Take(u32),
    TakeCut(u32),
    PutBack(u64),
    IsAllocated(u64),
    FreeChunks,
    FreeBlocks(u32),
    LendChunk,
}

#[derive(Clone, Copy, PartialEq, Eq)]
enum Answer {
    Nothing,
    NoClass,
    Block(u64),
    Chunk(u32),
    Count(u32),
    Holds(bool),
}

fn block(pointer: Option<u64>) -> Answer {
    match pointer {
        Some(pointer) => Answer::Block(pointer),
        None => Answer::Nothing,
    }
}

fn take_block(a: &mut Allocator, class: u32, may_cut: bool) -> Answer
    requires sets { AreSets a.old }
    requires layout { a.old.layout ≡ small }
    ensures sets { AreSets a.new }
    ensures layout { a.new.layout ≡ small }
{
    match class {
        1 => block(take(a, 1, may_cut)),
        2 => block(take(a, 2, may_cut)),
        _ => Answer::NoClass,
    }
}

fn free_blocks(a: &Allocator, class: u32) -> Answer
    requires { a.now.layout ≡ small }
{
    match class {
        1 => Answer::Count(a.free_blocks(1)),
        2 => Answer::Count(a.free_blocks(2)),
        _ => Answer::NoClass,
    }
}

fn lend(a: &mut Allocator) -> Answer
    requires sets { AreSets a.old }
    requires layout { a.old.layout ≡ small }
    ensures sets { AreSets a.new }
    ensures layout { a.new.layout ≡ small }
{
    match lend_chunk(a) {
        Some(chunk) => Answer::Chunk(chunk),
        None => Answer::Nothing,
    }
}

fn make(a: &mut Allocator, call: Call) -> Answer
    requires sets { AreSets a.old }
    requires layout { a.old.layout ≡ small }
    ensures sets { AreSets a.new }
    ensures layout { a.new.layout ≡ small }
{
    match call {
        Call::Take(class) => take_block(a, class, true),
        Call::TakeCut(class) => take_block(a, class, false),
        Call::PutBack(pointer) => {
            put_back(a, pointer);
            Answer::Nothing
        }
        Call::IsAllocated(pointer) => Answer::Holds(a.is_allocated(pointer)),
        Call::FreeChunks => Answer::Count(a.free_chunks()),
        Call::FreeBlocks(class) => free_blocks(a, class),
        Call::LendChunk => lend(a),
    }
}

// The place of the first call that answers otherwise.
fn first_other(a: &mut Allocator, calls: &[(Call, Answer)]) -> Option<usize>
    requires sets { AreSets a.old }
    requires layout { a.old.layout ≡ small }
{
    for (place, (call, expected)) in calls.iter().enumerate() {
        if make(a, *call) != *expected {
            return Some(place);
        }
    }
    None
}

const LOWEST_BLOCKS: [(Call, Answer); 17] = [
    (Call::Take(1), Answer::Block(17)),
    (Call::Take(1), Answer::Block(19)),
    (Call::Take(1), Answer::Block(21)),
    (Call::Take(1), Answer::Block(23)),
    (Call::Take(1), Answer::Block(25)),
    (Call::Take(1), Answer::Block(27)),
    (Call::Take(1), Answer::Block(29)),
    (Call::Take(1), Answer::Block(33)),
    (Call::FreeChunks, Answer::Count(2)),
    (Call::FreeBlocks(1), Answer::Count(6)),
    (Call::PutBack(21), Answer::Nothing),
    (Call::PutBack(17), Answer::Nothing),
    (Call::FreeBlocks(1), Answer::Count(8)),
    (Call::Take(1), Answer::Block(17)),
    (Call::Take(1), Answer::Block(21)),
    (Call::TakeCut(2), Answer::Nothing),
    (Call::LendChunk, Answer::Chunk(2)),
];

fn other_of_free_part(alloc: Global) -> Result<Option<usize>, Fail> {
    let mut a = free_part(alloc)?;
    Ok(first_other(&mut a, &LOWEST_BLOCKS))
}

#[test]
fn lowest_blocks(rt: HostRuntime) -> Result<(), Fail> {
    let other = other_of_free_part(rt.alloc())?;
    assert_eq!(rt; other, None);
    Ok(())
}

// Whether the two forms give the same block.
fn take_both(a: &mut Allocator, plain: &mut Plain, class: u32, may_cut: bool) -> bool
    requires low { 1 ≤ class }
    requires high { class ≤ 2 }
    requires sets { AreSets a.old }
    requires layout { a.old.layout ≡ small }
    ensures sets { AreSets a.new }
    ensures layout { a.new.layout ≡ small }
{
    take(a, class, may_cut) == plain.take(class, may_cut)
}

// Whether the block with this pointer is allocated in both forms or in none. It is put back.
fn put_back_both(a: &mut Allocator, plain: &mut Plain, pointer: u64) -> bool
    requires sets { AreSets a.old }
    requires layout { a.old.layout ≡ small }
    ensures sets { AreSets a.new }
    ensures layout { a.new.layout ≡ small }
{
    let same = a.is_allocated(pointer) == plain.is_allocated(pointer);
    put_back(a, pointer);
    plain.put_back(pointer);
    same
}

// Whether the two forms lend the same chunk to the log. It comes back.
fn lend_both(a: &mut Allocator, plain: &mut Plain) -> bool
    requires sets { AreSets a.old }
    requires layout { a.old.layout ≡ small }
    ensures sets { AreSets a.new }
    ensures layout { a.new.layout ≡ small }
{
    let lent = plain.take_chunk();
    let Some(chunk) = a.take_chunk() else {
        return lent.is_none();
    };
    let same_count = a.free_chunks() == plain.free_chunks();
    a.give_chunk(chunk);
    plain.give_chunk(chunk);
    same_count && lent == Some(chunk)
}

// One change of both forms, picked by a random number: whether they answer the same.
fn change_both(a: &mut Allocator, plain: &mut Plain, random: u64) -> bool
    requires sets { AreSets a.old }
    requires layout { a.old.layout ≡ small }
    ensures sets { AreSets a.new }
    ensures layout { a.new.layout ≡ small }
{
    match random % 16 {
        0 => take_both(a, plain, 1, true),
        1 => take_both(a, plain, 2, true),
        2 | 3 => take_both(a, plain, 1, false),
        4 | 5 => take_both(a, plain, 2, false),
        6 => lend_both(a, plain),
        7 | 8 => put_back_both(a, plain, random / 16 % 82),
        _ => put_back_both(a, plain, 17 + random / 16 % 32 * 2),
    }
}

// Whether all counts are the same in both forms.
fn same_counts(a: &Allocator, plain: &Plain) -> bool
    requires layout { a.now.layout ≡ small }
{
    a.free_chunks() == plain.free_chunks()
        && a.free_blocks(1) == plain.free_blocks(1)
        && a.free_blocks(2) == plain.free_blocks(2)
}

// One change of both forms: whether they answer the same and count the same behind it.
fn step(a: &mut Allocator, plain: &mut Plain, random: u64) -> bool
    requires sets { AreSets a.old }
    requires layout { a.old.layout ≡ small }
    ensures sets { AreSets a.new }
    ensures layout { a.new.layout ≡ small }
{
    let same_answer = change_both(a, plain, random);
    same_answer && same_counts(a, plain)
}

// The next state of a linear congruential generator, whose upper bits are the random ones.
fn next(state: u64) -> u64 {
    state
        .wrapping_mul(6_364_136_223_846_793_005)
        .wrapping_add(1_442_695_040_888_963_407)
}

// A hundred changes from a state of the generator: the turn that goes otherwise, where one does.
fn other_turn(a: &mut Allocator, plain: &mut Plain, state: &mut u64) -> Option<u64>
    requires sets { AreSets a.old }
    requires layout { a.old.layout ≡ small }
{
    for turn in 0..100 {
        *state = next(*state);
        if !step(a, plain, *state >> 33) {
            return Some(turn);
        }
    }
    None
}

// The same of a free part.
fn other_turn_of_round(alloc: Global, state: &mut u64) -> Result<Option<u64>, Fail> {
    let mut a = free_part(alloc)?;
    let mut plain = Plain::free_part();
    Ok(other_turn(&mut a, &mut plain, state))
}

// The first round and its turn that go otherwise. A part that is cut stays so: each round begins with a free one.
fn first_other_round(alloc: Global) -> Result<Option<(u64, u64)>, Fail> {
    let mut state = 1;
    for round in 0..20 {
        if let Some(turn) = other_turn_of_round(alloc, &mut state)? {
            return Ok(Some((round, turn)));
        }
    }
    Ok(None)
}

#[test]
fn as_the_plain_form(rt: HostRuntime) -> Result<(), Fail> {
    let other = first_other_round(rt.alloc())?;
    assert_eq!(rt; other, None);
    Ok(())
}

// A part with a log, with blocks of both classes, and with a free chunk. Of the blocks that are said to be allocated
// one is named twice, and two are none.
fn known_part(alloc: Global) -> Result<Allocator, Fail>
    ensures sets { IfOk result (λ a. AreSets a) }
    ensures layout { IfOk result (λ a. a.layout ≡ small) }
{
    let layout = Layout::new(1, 1, 4, 4096)?;
    let heads = [
        Head::Log { tail: 8 },
        Head::Data { class: 1 },
        Head::Free,
        Head::Data { class: 2 },
    ];
    Ok(Allocator::rebuild(alloc, layout, 0, &heads, &[37, 33, 33, 65, 66, 17])?)
}

const KNOWN_BLOCKS: [(Call, Answer); 10] = [
    (Call::FreeChunks, Answer::Count(1)),
    (Call::FreeBlocks(1), Answer::Count(5)),
    (Call::FreeBlocks(2), Answer::Count(2)),
    (Call::IsAllocated(33), Answer::Holds(true)),
    (Call::IsAllocated(37), Answer::Holds(true)),
    (Call::IsAllocated(65), Answer::Holds(true)),
    (Call::IsAllocated(66), Answer::Holds(false)),
    (Call::IsAllocated(17), Answer::Holds(false)),
    (Call::TakeCut(1), Answer::Block(35)),
    (Call::TakeCut(2), Answer::Block(69)),
];

fn other_of_known_part(alloc: Global) -> Result<Option<usize>, Fail> {
    let mut a = known_part(alloc)?;
    Ok(first_other(&mut a, &KNOWN_BLOCKS))
}

#[test]
fn known_blocks(rt: HostRuntime) -> Result<(), Fail> {
    let other = other_of_known_part(rt.alloc())?;
    assert_eq!(rt; other, None);
    Ok(())
}

#[test]
fn classes(rt: HostRuntime) {
    let least = [
        class_of(256),
        class_of(504),
        class_of(505),
        class_of(1016),
        class_of(1017),
        class_of(1048568),
    ];
    assert_eq!(rt; least, [1, 1, 2, 2, 3, 12]);
}

// The pointer of a value's block, and whether the value that is read back is the same.
type Stored = (u64, bool);

// Puts a value into a block of a class and reads it back. None where there is no block.
fn store<R: Region>(
    alloc: Global,
    a: &mut Allocator,
    region: &mut R,
    class: u32,
    value: &[u8],
) -> Result<Option<Stored>, Fail>
    requires sets { AreSets a.old }
    requires rules { IsLayout a.old.layout }
    requires class { is_class a.old.layout class ≡ true }
    requires uncut { (j : ℕ) → chunk_class a.old j ≡ None }
    requires long { 256 ≤ length value.now }
    requires fits { length value.now + 8 ≤ 256 * 2 ^ class }
    requires least { 128 * 2 ^ class < length value.now + 8 }
    requires lies { PartLies (R.state region.old).frame a.old }
    requires zero { IsTelling (R.state region.old) → (w : ℕ) → InRange (R.state region.old).frame w
        → cell_now (R.state region.old) w ≡ certain 0 }
{
    let Some(pointer) = a.take(class, true) else {
        return Ok(None);
    };
    a.write_value(region, pointer, value)?;
    let read = a.read_value(alloc, region, pointer)?;
    Ok(Some((pointer, read.bytes() == value)))
}

fn word(region: &SteadyRegion, at: u64) -> u64 {
    if region.first() == 0 && at < region.words() {
        region.load(at)
    } else {
        0
    }
}

// A region of four chunks of 4,096 bytes with nothing in them.
fn blank_region(alloc: Global) -> Result<SteadyRegion, Fail>
    ensures { IfOk result (λ r. IsBlank 2560 (steady_state r)) }
{
    let mut region = SteadyRegion::new(alloc, Vec::new(alloc), 100)?;
    region.create(alloc, 2560)?;
    Ok(region)
}

// So many sevens, but for the first byte and the last one.
fn value_of(alloc: Global, count: usize, first: u8, last: u8) -> Result<Vec<u8>, Memory>
    requires { 0 < count }
    ensures { IfOk result (λ v. length v.items ≡ count) }
{
    let mut value = vec![in alloc; 7; count]?;
    value[0] = first;
    value[count - 1] = last;
    Ok(value)
}

// Stores a value in a free part.
fn store_value(
    alloc: Global,
    region: &mut SteadyRegion,
    value: &[u8],
) -> Result<Option<Stored>, Fail>
    requires blank { IsBlank 2560 (steady_state region.old) }
    requires long { length value.now ≡ 1000 }
{
    let mut a = free_part(alloc)?;
    store(alloc, &mut a, region, 2, value)
}

// Whether a block has the value, where it has one.
fn is_same(held: &Option<Value>, value: &[u8]) -> Option<bool> {
    match held {
        Some(held) => Some(held.bytes() == value),
        None => None,
    }
}

// What a block of class 2 at pointer 17 has of the value, and what one of class 1 there has.
fn held_by_class(
    alloc: Global,
    region: &SteadyRegion,
    value: &[u8],
) -> Result<(Option<bool>, Option<bool>), Memory> {
    if region.first() != 0 || region.words() != 2560 {
        return Ok((None, None));
    }
    let class_2 = value_in(alloc, region, 17, 2)?;
    let class_1 = value_in(alloc, region, 17, 1)?;
    Ok((is_same(&class_2, value), is_same(&class_1, value)))
}

// What is seen of a value's block, with words of its chunk, and what a block of each class there has of the value.
type Seen = (Option<Stored>, [u64; 5], (Option<bool>, Option<bool>));

fn seen_of_value(alloc: Global, region: &mut SteadyRegion) -> Result<Seen, Fail>
    requires { IsBlank 2560 (steady_state region.old) }
{
    let value = value_of(alloc, 1000, 1, 2)?;
    let stored = store_value(alloc, region, &value)?;
    let words = [512, 544, 545, 669, 670].map(|at| word(region, at));
    Ok((stored, words, held_by_class(alloc, region, &value)?))
}

fn seen_in_blank(alloc: Global) -> Result<Seen, Fail> {
    let mut region = blank_region(alloc)?;
    seen_of_value(alloc, &mut region)
}

const A_VALUE: Seen = (
    Some((17, true)),
    [514, 1000, 0x0707_0707_0707_0701, 0x0207_0707_0707_0707, 0],
    (Some(true), None),
);

#[test]
fn a_value(rt: HostRuntime) -> Result<(), Fail> {
    let seen = seen_in_blank(rt.alloc())?;
    assert_eq!(rt; seen, A_VALUE);
    Ok(())
}

// A part of four chunks of 2 MiB, with no chunk cut.
fn long_part(alloc: Global) -> Result<Allocator, Fail>
    ensures sets { IfOk result (λ a. AreSets a) }
    ensures layout { IfOk result
        (λ a. a.layout ≡ record { cores = 1; group = 1; chunks = 4; chunk_bytes = 2097152 }) }
    ensures part { IfOk result (λ a. a.part ≡ 0) }
    ensures uncut { IfOk result (λ a. (j : ℕ) → chunk_class a j ≡ None) }
{
    let layout = Layout::new(1, 1, 4, 2_097_152)?;
    let heads = [Head::Free; 4];
    Ok(Allocator::rebuild(alloc, layout, 0, &heads, &[])?)
}

fn store_long_value(
    alloc: Global,
    region: &mut SteadyRegion,
    value: &[u8],
) -> Result<Option<Stored>, Fail>
    requires blank { IsBlank 1049088 (steady_state region.old) }
    requires long { length value.now ≡ 300000 }
{
    let mut a = long_part(alloc)?;
    store(alloc, &mut a, region, 11, value)
}

// A region of four chunks of 2 MiB, with nothing in them.
fn blank_long_region(alloc: Global) -> Result<SteadyRegion, Fail>
    ensures { IfOk result (λ r. IsBlank 1049088 (steady_state r)) }
{
    let mut region = SteadyRegion::new(alloc, Vec::new(alloc), 100)?;
    region.create(alloc, 1_049_088)?;
    Ok(region)
}

// What is seen of a long value's block, and words of its chunk.
type SeenOfLong = (Option<Stored>, [u64; 4]);

fn seen_of_long_value(alloc: Global) -> Result<SeenOfLong, Fail> {
    let mut region = blank_long_region(alloc)?;
    let value = value_of(alloc, 300_000, 7, 2)?;
    let stored = store_long_value(alloc, &mut region, &value)?;
    let words = [512, 544, 545, 38044].map(|at| word(&region, at));
    Ok((stored, words))
}

// A value of 300,000 bytes takes a block of 512 KiB.
const A_LONG_VALUE: SeenOfLong = (
    Some((17, true)),
    [2818, 300_000, 0x0707_0707_0707_0707, 0x0207_0707_0707_0707],
);

#[test]
fn a_long_value(rt: HostRuntime) -> Result<(), Fail> {
    let seen = seen_of_long_value(rt.alloc())?;
    assert_eq!(rt; seen, A_LONG_VALUE);
    Ok(())
}
