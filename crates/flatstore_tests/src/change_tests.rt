// Why a change is refused, as the report of the top call says it.
use crate::call_tests::{Ended, refuses, row, spent};
use core_room::{Counts, Shortage};
use engine_core::run_report::Refusal;
use flatstore_commands::Status;
use region_memory::SteadyRegion;
use std::alloc::{AllocGlobal, Global};
use std::test::Fail;
use std::thread::Threads;

const SPENT: [Refusal; 2] = [
    Refusal {
        request: 0,
        why: Shortage::Versions { last: 1_048_574 },
    },
    Refusal {
        request: 3,
        why: Shortage::Versions { last: 1_048_575 },
    },
];

// How changes of a key end whose versions are nearly spent, and whether the two puts are refused.
fn spends_the_last(rt: &(impl Threads + AllocGlobal)) -> Result<(Ended, bool), Fail> {
    let alloc = rt.alloc();
    let mut region = SteadyRegion::new(alloc, spent(alloc)?, 5000)?;
    let text = "versions spent\ndeleted\nabsent\nversions spent\n";
    let input = "put 9 r\ndelete 9\nget 9\nput 9 z\n";
    refuses(rt, &mut region, input, text, &SPENT)
}

#[test]
fn a_delete_of_the_last_version(rt: HostRuntime) -> Result<(), Fail> {
    let (ended, refused) = spends_the_last(&rt)?;
    assert_eq!(rt; (ended.said(), refused), ((Status::Done, true), true));
    Ok(())
}

// A line that puts so many bytes.
pub fn put(alloc: Global, key: u64, byte: u8, length: usize) -> Result<String, Fail> {
    let value = String::from_utf8(vec![in alloc; byte; length]?)?;
    Ok(format!(in alloc; "put {key} {value}\n")?)
}

// Puts of 1,000 bytes to keys 1 to 7 and 1, of one byte to key 1, and of 1,000 bytes to key 8, each with turns enough
// to end it.
fn seven(alloc: Global) -> Result<String, Fail> {
    let mut input = String::new(alloc);
    for key in [1u64, 2, 3, 4, 5, 6, 7, 1] {
        input.push_str(put(alloc, key, b'v', 1000)?.as_str())?;
        input.push_str("go 0 50\n")?;
    }
    input.push_str("put 1 a\ngo 0 50\n")?;
    input.push_str(put(alloc, 8, b'v', 1000)?.as_str())?;
    input.push_str("go 0 50\n")?;
    Ok(input)
}

const NO_BLOCK: Shortage = Shortage::Block(Counts {
    free_chunks: 1,
    open_lines: 54,
    pledged_lines: 0,
    need_lines: 1,
    class: 2,
    free_blocks: 0,
});

const SIXTH_AND_SEVENTH: [Refusal; 2] = [
    Refusal {
        request: 6,
        why: NO_BLOCK,
    },
    Refusal {
        request: 7,
        why: NO_BLOCK,
    },
];

// How these puts end, and whether two of them are refused for want of a block.
fn fills_all_blocks(rt: &(impl Threads + AllocGlobal)) -> Result<(Ended, bool), Fail> {
    let input = seven(rt.alloc())?;
    let text = "stored\nstored\nstored\nstored\nstored\nstored\nfull\nfull\nstored\nstored\n";
    row(rt, input.as_str(), text, &SIXTH_AND_SEVENTH)
}

#[test]
fn no_free_block(rt: HostRuntime) -> Result<(), Fail> {
    let (ended, refused) = fills_all_blocks(&rt)?;
    assert_eq!(rt; (ended.said(), refused), ((Status::Done, true), true));
    Ok(())
}

// How the put of a value of so many bytes ends, where this text is wanted, and whether it reports just these refusals.
fn puts_of(
    rt: &(impl Threads + AllocGlobal),
    length: usize,
    text: &str,
    refusals: &[Refusal],
) -> Result<((Status, bool), bool), Fail> {
    let input = put(rt.alloc(), 1, b'v', length)?;
    let (ended, refused) = row(rt, input.as_str(), text, refusals)?;
    Ok((ended.said(), refused))
}

const TOO_LONG: [Refusal; 1] = [Refusal {
    request: 0,
    why: Shortage::Length { length: 1017 },
}];

#[test]
fn the_longest_value(rt: HostRuntime) -> Result<(), Fail> {
    let longest = puts_of(&rt, 1016, "stored\n", &[])?;
    let longer = puts_of(&rt, 1017, "too long\n", &TOO_LONG)?;
    let done = ((Status::Done, true), true);
    assert_eq!(rt; (longest, longer), (done, done));
    Ok(())
}
