ghost use Rattle.std.specs.Prelude.{◌≡◌, ◌*◌, length, vec_len, IfOk};

use fs_model::{Memory, Pair};
use image_yardstick::image_superblock::read_layout;
use image_yardstick::{first_fault, recovered_cells};
use std::alloc::Global;
use std::test::Fail;
use store_image::Fault;

const FORMAT: [(usize, u64); 2] = [(0, 0x3130_5453_5441_4c46), (1, 1)];

/// A region of one core with four chunks of 4,096 bytes.
const ONE_CORE: [(usize, u64); 4] = [(2, 1), (3, 1), (4, 4), (5, 4096)];

fn write(words: &mut [u64], writes: &[(usize, u64)]) {
    for (at, word) in writes {
        if let Some(place) = words.get_mut(*at) {
            *place = *word;
        }
    }
}

/// An image of so many words: zeros, but for the superblock of one core and these words.
fn image(alloc: Global, count: usize, writes: &[(usize, u64)]) -> Result<Vec<u64>, Memory>
    ensures { IfOk result (λ v. vec_len v ≡ count) }
{
    let mut words = vec![in alloc; 0u64; count]?;
    write(&mut words, &FORMAT);
    write(&mut words, &ONE_CORE);
    write(&mut words, writes);
    Ok(words)
}

/// What is found of an image of so many words and bytes, with these words and then those.
fn found_of(
    alloc: Global,
    count: usize,
    bytes: u64,
    writes: &[(usize, u64)],
    again: &[(usize, u64)],
) -> Result<Option<Fault>, Memory>
    requires { bytes ≡ 8 * count }
{
    let mut words = image(alloc, count, writes)?;
    write(&mut words, again);
    first_fault(alloc, &words, bytes)
}

/// What is found of an image of 20,480 bytes.
fn found(alloc: Global, writes: &[(usize, u64)]) -> Result<Option<Fault>, Memory> {
    found_of(alloc, 2560, 20480, writes, &[])
}

fn damaged(part: u32, chunk: u32, rule: u32) -> Option<Fault> {
    Some(Fault::Damaged { part, chunk, rule })
}

#[test]
fn superblocks(rt: HostRuntime) -> Result<(), Fail> {
    let alloc = rt.alloc();
    assert!(rt; found(alloc, &[])?.is_none());
    let refused = |rule| Some(Fault::NotARegion { rule });
    assert!(rt; found_of(alloc, 511, 4088, &[], &[])? == refused(1));
    assert!(rt; found(alloc, &[(1, 3)])? == refused(2));
    assert!(rt; found(alloc, &[(2, 3), (3, 2)])? == refused(3));
    assert!(rt; found_of(alloc, 3072, 24576, &[], &[])? == refused(3));
    Ok(())
}

#[test]
fn chunks(rt: HostRuntime) -> Result<(), Fail> {
    let alloc = rt.alloc();
    let rows: [(&[(usize, u64)], Option<Fault>); 7] = [
        // class 0, and a class that 4,096 bytes don't have
        (&[(1536, 2)], damaged(0, 2, 4)),
        (&[(1536, 770)], damaged(0, 2, 4)),
        (&[(1024, 1), (1025, 12)], damaged(0, 1, 5)),
        (&[(1024, 1), (1025, 488)], damaged(0, 1, 5)),
        // a line of zeros, an entry past the tail, a delete of version 1
        (&[(1024, 1), (1025, 8)], damaged(0, 1, 6)),
        (
            &[(1024, 1), (1025, 8), (1056, 0xff00_0015)],
            damaged(0, 1, 6),
        ),
        (
            &[(512, 1), (513, 8), (544, 0x12), (545, 1)],
            damaged(0, 0, 6),
        ),
    ];
    for (writes, fault) in rows {
        assert!(rt; found(alloc, writes)? == fault);
    }
    Ok(())
}

#[test]
fn parts(rt: HostRuntime) -> Result<(), Fail> {
    let alloc = rt.alloc();
    // two cores of groups of one: key 1 isn't core 0's
    let put = [
        (2, 2),
        (512, 1),
        (513, 8),
        (544, 0x0100_0015),
        (545, 1),
        (546, 97),
    ];
    assert!(rt; found_of(alloc, 4608, 36864, &put, &[])? == damaged(0, 0, 7));
    // one group of two: the entry stands in both parts
    let again = [
        (3, 2),
        (2560, 1),
        (2561, 8),
        (2592, 0x0100_0015),
        (2593, 1),
        (2594, 97),
    ];
    assert!(rt; found_of(alloc, 4608, 36864, &put, &again)? == damaged(1, 0, 8));
    Ok(())
}

#[test]
fn blocks(rt: HostRuntime) -> Result<(), Fail> {
    let alloc = rt.alloc();
    let nowhere = [(512, 1), (513, 8), (544, 0x11), (545, 1)];
    assert!(rt; found(alloc, &nowhere)? == damaged(0, 0, 9));
    let long = [
        (512, 1),
        (513, 8),
        (544, 0x2100_0011),
        (545, 1),
        (1024, 258),
        (1056, 505),
    ];
    assert!(rt; found(alloc, &long)? == damaged(0, 0, 10));
    let shared = [
        (512, 258),
        (544, 256),
        (1024, 1),
        (1025, 8),
        (1056, 0x1100_0011),
        (1057, 1),
        (1058, 0x1100_0011),
        (1059, 2),
    ];
    assert!(rt; found(alloc, &shared)? == damaged(0, 1, 11));
    // an entry that isn't a winner may point anywhere
    let loser = [
        (512, 1),
        (513, 8),
        (544, 0xffff_ffff_ff00_0011),
        (545, 1),
        (546, 0x0100_0025),
        (547, 1),
        (548, 97),
    ];
    assert!(rt; found(alloc, &loser)?.is_none());
    Ok(())
}

/// Whether the cell at a place has this key, and a value of this length and begin.
fn has_cell(pairs: &[Pair], place: usize, key: u64, length: usize, begin: &[u8]) -> bool {
    match pairs.get(place) {
        Some(pair) => {
            let bytes = pair.value.bytes();
            pair.key == key && bytes.len() == length && bytes.starts_with(begin)
        }
        None => false,
    }
}

/// The cells of an image of 20,480 bytes, and none of what has no layout.
fn cells_in(alloc: Global, words: &[u64]) -> Result<Vec<Pair>, Memory>
    requires { length words.now ≡ 2560 }
{
    match read_layout(words, 20480) {
        Ok(_) => recovered_cells(alloc, words),
        Err(_) => Ok(Vec::new(alloc)),
    }
}

/// How many cells are recovered, and whether they are those of the test.
fn seen_of_cells(
    alloc: Global,
    writes: &[(usize, u64)],
) -> Result<(Option<Fault>, usize, bool, bool), Memory> {
    let words = image(alloc, 2560, writes)?;
    let fault = first_fault(alloc, &words, 20480)?;
    let pairs = cells_in(alloc, &words)?;
    let first = has_cell(&pairs, 0, 2, 256, &[7, 0]);
    let second = has_cell(&pairs, 1, 5, 3, b"abc");
    Ok((fault, pairs.len(), first, second))
}

#[test]
fn cells(rt: HostRuntime) -> Result<(), Fail> {
    // key 2 with a block of 256 bytes, key 1 deleted, key 5 with `abc`
    let writes = [
        (512, 258),
        (544, 256),
        (545, 7),
        (1024, 1),
        (1025, 16),
        (1056, 0x1100_0011),
        (1057, 2),
        (1058, 0x0100_0015),
        (1059, 1),
        (1060, 97),
        (1061, 0x22),
        (1062, 1),
        (1064, 0x0300_0015),
        (1065, 5),
        (1066, 0x0063_6261),
    ];
    let seen = seen_of_cells(rt.alloc(), &writes)?;
    assert_eq!(rt; seen, (None, 2, true, true));
    Ok(())
}
