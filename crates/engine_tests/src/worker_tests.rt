// A worker over what recovery finds, in the second of two groups. Expected values are those of the format's rules.
ghost use Rattle.std.specs.Prelude.{◌≡◌, ℕ, ◌%◌, length, IfOk, IfSome};
ghost use Rattle.pm_region.specs.State.{IsTelling};
ghost use Rattle.pm_region.specs.Split.{words_in};
ghost use Rattle.region_memory.specs.Steady.{steady_state};
ghost use Rattle.recover.specs.Regions.{IsCertain};
ghost use Rattle.engine_tests.specs.WorkerTrials.{MayAccept};

use core_index::CoreIndex;
use core_worker::{Answer, Worker};
use fs_model::{Key, Memory, Reply, Request};
use log_entry::EntryName;
use log_standing::Standing;
use pm_region::{Region, SplitRegion};
use recover::{CoreStart, recover};
use region_memory::{Pick, SteadyRegion};
use std::alloc::Global;
use std::test::Fail;

/// Eight cores in two groups of four, with four chunks of 4,096 bytes each. Keys 5, 13 and 21 are core 5's.
const TWO_GROUPS: [(usize, u64); 25] = [
    (0, 0x3130_5453_5441_4c46),
    (1, 1),
    (2, 8),
    (3, 4),
    (4, 4),
    (5, 4096),
    // part 5: the second value of key 21 and the first one of key 13
    (10752, 1),
    (10753, 8),
    (10784, 0x0100_0025),
    (10785, 21),
    (10786, 98),
    (10787, 0x0100_0015),
    (10788, 13),
    (10789, 99),
    // part 6: the value of key 5, the second one of key 13 and, in a batch of its own, the first one of key 21
    (13312, 1),
    (13313, 16),
    (13344, 0x0300_0015),
    (13345, 5),
    (13346, 0x0063_6261),
    (13347, 0x0100_0025),
    (13348, 13),
    (13349, 100),
    (13352, 0x0100_0015),
    (13353, 21),
    (13354, 97),
];

/// The bytes of these words, and zeros.
fn bytes_of(alloc: Global, writes: &[(usize, u64)]) -> Result<Vec<u8>, Memory> {
    let mut words = vec![in alloc; 0u64; 16_896]?;
    for (at, word) in writes {
        if *at < words.len() {
            words[*at] = *word;
        }
    }
    let mut bytes = Vec::with_capacity(alloc, 135_168)?;
    for word in words {
        for byte in word.to_le_bytes() {
            bytes.push(byte)?;
        }
    }
    Ok(bytes)
}

/// A region with these words, attached.
pub(crate) fn attached(alloc: Global) -> Result<SteadyRegion, Fail>
    ensures first { IfOk result (λ r. (steady_state r).frame.first ≡ 0) }
    ensures words { IfOk result (λ r. (steady_state r).frame.words
        ≡ words_in (steady_state r).frame.bytes) }
    ensures tells { IfOk result (λ r. IsTelling (steady_state r)) }
    ensures certain { IfOk result (λ r. IsCertain (steady_state r)) }
{
    let mut region = SteadyRegion::new(alloc, bytes_of(alloc, &TWO_GROUPS)?, 64)?;
    region.attach(alloc)?;
    let _image = region.image_at(alloc, region.stamp(), Pick::Newest)?;
    Ok(region)
}

/// The worker of a core, by what recovery finds.
fn opened(alloc: Global, region: &SteadyRegion, core: u32) -> Result<Option<Worker>, Fail>
    requires first { (steady_state region.now).frame.first ≡ 0 }
    requires tells { IsTelling (steady_state region.now) }
    requires certain { IsCertain (steady_state region.now) }
    ensures { IfOk result (λ o. IfSome o (MayAccept (steady_state region.now) core)) }
{
    if region.words() != 16_896 {
        return Ok(None);
    }
    let found = recover(alloc, region, 135_168)?;
    let layout = found.layout;
    let mut starts = found.starts;
    if layout.cores() != 8 || core >= 8 {
        return Ok(None);
    }
    let start = starts.swap_remove(core as usize);
    let worker = Worker::open(alloc, start, layout)?;
    Ok(Some(worker))
}

/// Whether it is an answer with this value, or with none where the key has none.
fn shows(answer: &Option<Answer>, value: Option<&[u8]>) -> bool {
    match answer {
        None => false,
        Some(answer) => match (&answer.reply, value) {
            (Reply::Value(found), Some(bytes)) => found.bytes() == bytes,
            (Reply::Absent, None) => true,
            _ => false,
        },
    }
}

/// Whether a get of one of core 5's keys answers this value, or none.
fn get(alloc: Global, region: &SteadyRegion, key: Key, value: Option<&[u8]>) -> Result<bool, Fail>
    requires first { (steady_state region.now).frame.first ≡ 0 }
    requires tells { IsTelling (steady_state region.now) }
    requires certain { IsCertain (steady_state region.now) }
    requires own { key % 8 ≡ 5 }
{
    let Some(mut worker) = opened(alloc, region, 5)? else {
        return Ok(false);
    };
    if worker
        .accept(alloc, region, 7, Request::Get { key })
        .is_err()
    {
        return Ok(false);
    }
    let answer = worker.next_answer();
    Ok(shows(&answer, value))
}

/// The values of core 5's keys: two of them stand in the log of the next core, and one key has none.
fn has_values(alloc: Global, region: &SteadyRegion) -> Result<[bool; 4], Fail>
    requires first { (steady_state region.now).frame.first ≡ 0 }
    requires tells { IsTelling (steady_state region.now) }
    requires certain { IsCertain (steady_state region.now) }
{
    Ok([
        get(alloc, region, 5, Some(b"abc"))?,
        get(alloc, region, 13, Some(b"d"))?,
        get(alloc, region, 21, Some(b"b"))?,
        get(alloc, region, 29, None)?,
    ])
}

/// What core 5 gives back that is stopped as soon as it is opened.
fn stopped(alloc: Global, region: &SteadyRegion) -> Result<Option<CoreStart>, Fail>
    requires first { (steady_state region.now).frame.first ≡ 0 }
    requires tells { IsTelling (steady_state region.now) }
    requires certain { IsCertain (steady_state region.now) }
{
    let Some(worker) = opened(alloc, region, 5)? else {
        return Ok(None);
    };
    if worker.pending() || worker.leading() {
        return Ok(None);
    }
    Ok(Some(worker.stop()))
}

/// What waits for core 5, and then for the next one, at two times.
fn notices(index: &mut CoreIndex) -> [Option<EntryName>; 3] {
    [
        index.next_notice(5),
        index.next_notice(6),
        index.next_notice(6),
    ]
}

#[test]
fn the_second_group(rt: HostRuntime) -> Result<(), Fail> {
    let alloc = rt.alloc();
    let region = attached(alloc)?;
    assert_eq!(rt; has_values(alloc, &region)?, [true; 4]);
    let Some(mut start) = stopped(alloc, &region)? else {
        assert!(rt; false, "core 5 opens, and is idle");
        return Ok(());
    };
    // of the two old entries the one in the own log was told
    let told = EntryName {
        key: 21,
        version: 1,
    };
    assert_eq!(rt; notices(&mut start.index), [None, Some(told), None]);
    Ok(())
}

/// In how many copies the newest value of key 21 stands, and the old one of key 13, and which of them is dead.
fn copies(standing: &Standing) -> [(u64, bool); 2] {
    let newest = EntryName {
        key: 21,
        version: 2,
    };
    let old = EntryName {
        key: 13,
        version: 1,
    };
    [
        (standing.copies(newest), standing.is_dead(newest)),
        (standing.copies(old), standing.is_dead(old)),
    ]
}

#[test]
fn what_stands_in_the_log(rt: HostRuntime) -> Result<(), Fail> {
    let alloc = rt.alloc();
    let region = attached(alloc)?;
    let Some(start) = stopped(alloc, &region)? else {
        assert!(rt; false, "core 5 opens, and is idle");
        return Ok(());
    };
    assert_eq!(rt; copies(&start.standing), [(1, false), (1, true)]);
    assert_eq!(rt; start.standing.settled(), None);
    Ok(())
}
