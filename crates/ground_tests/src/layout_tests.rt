// Layouts by the numbers, and a superblock and heads in a region of memory.
use chunk_map::*;
use pm_region::{Region, RegionFault, SplitRegion};
use region_memory::SteadyRegion;
use std::alloc::Global;
use std::test::Fail;

#[test]
fn layouts(rt: HostRuntime) -> Result<(), Fail> {
    for (cores, group, chunks, bytes, rule) in [
        (0, 1, 4, 4096, 1),
        (17, 1, 4, 4096, 1),
        (4, 3, 4, 4096, 2),
        (16, 16, 4, 4096, 2),
        (1, 1, 3, 4096, 3),
        (1, 1, 65, 4096, 3),
        (1, 1, 4, 6144, 4),
        (1, 1, 4, 8388608, 4),
        (16, 8, 64, 524288, 5),
    ] {
        let layout = Layout::new(cores, group, chunks, bytes);
        assert_eq!(rt; layout.err(), Some(BadLayout { rule }));
    }
    let layout = Layout::new(2, 2, 6, 8192)?;
    assert_eq!(rt; layout.total_bytes(), 102400);
    assert_eq!(rt; layout.payload_lines(), 124);
    assert_eq!(rt; layout.part_first(1), 6656);
    assert_eq!(rt; layout.chunk_first(1, 2), 8704);
    Ok(())
}

fn word(region: &SteadyRegion, at: u64) -> u64 {
    if region.first() == 0 && at < region.words() {
        region.load(at)
    } else {
        0
    }
}

fn format(region: &mut SteadyRegion, layout: &Layout) -> Option<Result<(), RegionFault>> {
    if region.first() == 0 && region.words() >= 8 {
        Some(write_superblock(region, layout))
    } else {
        None
    }
}

fn turn(region: &mut SteadyRegion, at: u64, head: Head) -> Option<Result<(), RegionFault>> {
    if region.first() == 0 && region.words() == 2560 && at <= 2528 && at % 8 == 0 {
        Some(set_head(region, at, head))
    } else {
        None
    }
}

fn head(region: &SteadyRegion, layout: &Layout, at: u64) -> Option<Result<Head, BadHead>> {
    if region.first() == 0 && region.words() == 2560 && at <= 2528 && at % 8 == 0 {
        Some(read_head(region, layout, at))
    } else {
        None
    }
}

fn found(region: &SteadyRegion) -> Option<Result<u64, NotARegion>> {
    if region.first() == 0 && region.words() == 2560 {
        Some(read_superblock(region, 20480).map(|l| l.total_bytes()))
    } else {
        None
    }
}

// The head that is read behind one that was written.
fn turned(
    region: &mut SteadyRegion,
    layout: &Layout,
    at: u64,
    new: Head,
) -> Option<Result<Head, BadHead>> {
    match turn(region, at, new)? {
        Ok(()) => head(region, layout, at),
        Err(_) => None,
    }
}

fn empty_region(alloc: Global) -> Result<SteadyRegion, Fail> {
    let mut region = SteadyRegion::new(alloc, Vec::new(alloc), 100)?;
    region.create(alloc, 2560)?;
    Ok(region)
}

/// What is found of a region's superblock before and behind its writing, what the writing answers, and words of it.
type Superblock = (
    Option<Result<u64, NotARegion>>,
    Option<Result<(), RegionFault>>,
    [u64; 3],
    Option<Result<u64, NotARegion>>,
);

fn superblock_of(alloc: Global, layout: &Layout) -> Result<Superblock, Fail> {
    let mut region = empty_region(alloc)?;
    let before = found(&region);
    let written = format(&mut region, layout);
    let words = [word(&region, 0), word(&region, 1), word(&region, 5)];
    Ok((before, written, words, found(&region)))
}

#[test]
fn a_superblock(rt: HostRuntime) -> Result<(), Fail> {
    let layout = Layout::new(1, 1, 4, 4096)?;
    let (before, written, words, behind) = superblock_of(rt.alloc(), &layout)?;
    assert_eq!(rt; before, Some(Err(NotARegion { rule: 2 })));
    assert_eq!(rt; written, Some(Ok(())));
    assert_eq!(rt; words[0].to_le_bytes(), *b"FLATST01");
    assert_eq!(rt; (words[1], words[2]), (1, 4096));
    assert_eq!(rt; behind, Some(Ok(20480)));
    Ok(())
}

/// What is read behind a bad head, behind one of blocks, with that one's word, and where none was written.
type Heads = (
    Option<Result<Head, BadHead>>,
    Option<Result<Head, BadHead>>,
    u64,
    Option<Result<Head, BadHead>>,
);

fn heads_of(alloc: Global, layout: &Layout) -> Result<Heads, Fail> {
    let mut region = empty_region(alloc)?;
    let past = turned(&mut region, layout, 512, Head::Log { tail: 488 });
    let blocks = turned(&mut region, layout, 1024, Head::Data { class: 1 });
    Ok((
        past,
        blocks,
        word(&region, 1024),
        head(&region, layout, 1536),
    ))
}

#[test]
fn heads(rt: HostRuntime) -> Result<(), Fail> {
    let layout = Layout::new(1, 1, 4, 4096)?;
    let (past, blocks, word, free) = heads_of(rt.alloc(), &layout)?;
    assert!(rt; matches!(past, Some(Err(BadHead { rule: 5 }))));
    assert!(rt; matches!(blocks, Some(Ok(Head::Data { class: 1 }))));
    assert_eq!(rt; word, 258);
    assert!(rt; matches!(free, Some(Ok(Head::Free))));
    Ok(())
}
