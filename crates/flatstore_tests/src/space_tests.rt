// The worked rows of cleaning, on the top call: a key of which nothing is left begins anew, and what was deleted stays
// deleted.
use crate::call_tests::{PICKS, ends, replay, spent, stamp_of, with};
use crate::row_tests::text_of;
use flatstore_commands::{CommandReport, Status};
use pm_region::Region;
use region_memory::{Pick, SteadyRegion};
use std::alloc::{AllocError, AllocGlobal, Global};
use std::test::Fail;
use std::thread::Threads;

// Some text, a line so many times, and some more.
fn around(
    alloc: Global,
    first: &str,
    line: &str,
    count: u64,
    last: &str,
) -> Result<String, AllocError> {
    let mut text = String::from_str(alloc, first)?;
    for _ in 0..count {
        text.push_str(line)?;
    }
    text.push_str(last)?;
    Ok(text)
}

// How often a text has a part.
fn count_of(text: &[u8], part: &[u8]) -> usize {
    let mut count = 0usize;
    for at in 0..text.len() {
        if let Some(rest) = text.get(at..) {
            if rest.starts_with(part) {
                count = count.saturating_add(1);
            }
        }
    }
    count
}

// Whether a replay on the region gives the replies to two changes of key 9, to so many puts of key 2, and to a put and
// a get of key 9 behind these.
fn is_forgotten(
    rt: &(impl Threads + AllocGlobal),
    region: &mut SteadyRegion,
    count: u64,
) -> Result<bool, Fail> {
    let alloc = rt.alloc();
    let first = "put 9 r\ndelete 9\n";
    let last = "go 0 20000\nput 9 z\nget 9\n";
    let input = around(alloc, first, "put 2 x\n", count, last)?;
    let (_, written) = replay(rt, region, input.as_str())?;
    let first = "versions spent\ndeleted\n";
    let replies = around(alloc, first, "stored\n", count, "stored\nvalue z\n")?;
    Ok(written.as_slice() == replies.as_bytes())
}

// Whether such a replay gives them, where the key has the last version of all when it is deleted; then how many
// entries of the key the log has, and how many of its first version.
fn begun_anew(rt: &(impl Threads + AllocGlobal)) -> Result<(bool, usize, usize), Fail> {
    let alloc = rt.alloc();
    let mut region = SteadyRegion::new(alloc, spent(alloc)?, 5000)?;
    let forgotten = is_forgotten(rt, &mut region, 300)?;
    let log = text_of(rt, "log", &mut region)?;
    Ok((
        forgotten,
        count_of(&log, b" key 9 "),
        count_of(&log, b" key 9 version 1 embedded 1\n"),
    ))
}

#[test]
fn a_forgotten_key_begins_anew(rt: HostRuntime) -> Result<(), Fail> {
    assert_eq!(rt; begun_anew(&rt)?, (true, 1, 1));
    Ok(())
}

// Whether each image of a stamp has no value of key 1, and of key 2 none but `x`.
fn is_deleted(
    rt: &(impl Threads + AllocGlobal),
    region: &SteadyRegion,
    stamp: u64,
) -> Result<bool, Fail> {
    for pick in PICKS {
        let mut image = region.image_at(rt.alloc(), stamp, pick)?;
        let pairs = text_of(rt, "dump", &mut image)?;
        if !pairs.is_empty() && pairs.as_slice() != b"2 x\n".as_slice() {
            return Ok(false);
        }
    }
    Ok(true)
}

// Whether it is so at each stamp from one on.
fn stays_deleted(
    rt: &(impl Threads + AllocGlobal),
    region: &SteadyRegion,
    since: u64,
) -> Result<bool, Fail> {
    for stamp in since..region.stamp() {
        if !is_deleted(rt, region, stamp)? {
            return Ok(false);
        }
    }
    is_deleted(rt, region, region.stamp())
}

// A region with two puts of key 1 in a chunk that is cleaned soon after the key's delete. It has no history.
fn crowded(rt: &(impl Threads + AllocGlobal)) -> Result<SteadyRegion, Fail> {
    let alloc = rt.alloc();
    let mut region = SteadyRegion::new(alloc, with(alloc, &[])?, 5000)?;
    let input = around(alloc, "put 1 a\nput 1 b\n", "put 2 x\n", 114, "")?;
    let _ = replay(rt, &mut region, input.as_str())?;
    Ok(region.image_at(alloc, region.stamp(), Pick::Oldest)?)
}

// Whether a delete of key 1 and puts behind it are answered so on the region, and the stamp by which it is finished.
fn deleted_at(
    rt: &(impl Threads + AllocGlobal),
    region: &mut SteadyRegion,
) -> Result<(bool, Option<u64>), Fail> {
    let alloc = rt.alloc();
    let input = around(alloc, "delete 1\n", "put 2 x\n", 8, "get 1\n")?;
    let (report, written) = replay(rt, region, input.as_str())?;
    let replies = around(alloc, "deleted\n", "stored\n", 8, "absent\n")?;
    Ok((
        written.as_slice() == replies.as_bytes(),
        stamp_of(&report, 0),
    ))
}

// Whether they are answered so, whether the delete is finished, and whether the key stays deleted from then on.
fn deleted_for_good(rt: &(impl Threads + AllocGlobal)) -> Result<(bool, bool, bool), Fail> {
    let mut region = crowded(rt)?;
    let (answered, since) = deleted_at(rt, &mut region)?;
    let stays = stays_deleted(rt, &region, since.unwrap_or(0))?;
    Ok((answered, since.is_some(), stays))
}

#[test]
fn what_was_deleted_stays_deleted(rt: HostRuntime) -> Result<(), Fail> {
    assert_eq!(rt; deleted_for_good(&rt)?, (true, true, true));
    Ok(())
}

// Key 1 is put twice and deleted, and key 2 put so many times, and the replies. Chunks 0 and 1 are full after 120 of
// these puts, and chunk 2 is opened by the next one: then chunk 0 is cleaned.
fn deleted_then_crowded(alloc: Global, count: u64) -> Result<(String, String), AllocError> {
    let first = "put 1 a\nput 1 b\ndelete 1\n";
    let input = around(alloc, first, "put 2 x\n", count, "get 1\n")?;
    let first = "stored\nstored\ndeleted\n";
    let replies = around(alloc, first, "stored\n", count, "absent\n")?;
    Ok((input, replies))
}

// An image since a stamp in which the delete of key 1 stands in two chunks: it was copied, and the chunk that it is to
// leave is a log still.
fn image_with_two(
    rt: &(impl Threads + AllocGlobal),
    region: &SteadyRegion,
    since: u64,
) -> Result<Option<SteadyRegion>, Fail> {
    for stamp in since..region.stamp() {
        let mut image = region.image_at(rt.alloc(), stamp, Pick::Oldest)?;
        let log = text_of(rt, "log", &mut image)?;
        if count_of(&log, b" key 1 version 3 delete\n") == 2 {
            return Ok(Some(image));
        }
    }
    Ok(None)
}

// What a power failure leaves behind the copy of the delete.
fn left_behind_a_copy(rt: &(impl Threads + AllocGlobal)) -> Result<Option<SteadyRegion>, Fail> {
    let alloc = rt.alloc();
    let (input, _) = deleted_then_crowded(alloc, 125)?;
    let mut region = SteadyRegion::new(alloc, with(alloc, &[])?, 5000)?;
    let (report, _) = replay(rt, &mut region, input.as_str())?;
    let near = stamp_of(&report, 120);
    image_with_two(rt, &region, near.unwrap_or(0))
}

// Whether an image has the one pair `2 x`.
fn has_two_alone(
    rt: &(impl Threads + AllocGlobal),
    image: &mut SteadyRegion,
) -> Result<bool, Fail> {
    let pairs = text_of(rt, "dump", image)?;
    Ok(pairs.as_slice() == b"2 x\n".as_slice())
}

// Whether an image answers as a fresh region does, once more.
fn answers_again(
    rt: &(impl Threads + AllocGlobal),
    image: &mut SteadyRegion,
) -> Result<bool, Fail> {
    let (input, replies) = deleted_then_crowded(rt.alloc(), 400)?;
    let (_, written) = replay(rt, image, input.as_str())?;
    Ok(written.as_slice() == replies.as_bytes())
}

// How such an image is opened by a replay of nothing, where nothing is to be written; then whether it has the pair
// alone, and whether it answers again.
fn opened_behind_a_copy(
    rt: &(impl Threads + AllocGlobal),
    image: &mut SteadyRegion,
) -> Result<((Status, bool), bool, bool), Fail> {
    let said = ends(rt, image, "", "")?.said();
    let alone = has_two_alone(rt, image)?;
    Ok((said, alone, answers_again(rt, image)?))
}

// The same of the image that a power failure leaves, where the delete stands in two chunks.
fn power_failed(
    rt: &(impl Threads + AllocGlobal),
) -> Result<Option<((Status, bool), bool, bool)>, Fail> {
    match left_behind_a_copy(rt)? {
        None => Ok(None),
        Some(mut image) => Ok(Some(opened_behind_a_copy(rt, &mut image)?)),
    }
}

#[test]
fn a_power_failure_behind_a_copy(rt: HostRuntime) -> Result<(), Fail> {
    assert_eq!(rt;
        power_failed(&rt)?,
        Some(((Status::Done, true), true, true))
    );
    Ok(())
}
