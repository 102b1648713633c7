// Found entries in the order of their names.
ghost use Rattle.std.specs.Prelude.{◌≡◌, IfOk};
ghost use Rattle.pm_region.specs.State.{IsTelling};
ghost use Rattle.pm_region.specs.Words.{lasts};
ghost use Rattle.store_image.specs.Soundness.{contradicts};
ghost use Rattle.recover.specs.Regions.{Covers};
ghost use Rattle.recover.specs.FoundEntries.{placed_at, Stands, AreFound, AreInOrder, AreByName, RiseByWord, WordsKeep};
ghost use Rattle.recover.specs.FirstClash.{lower, IsFirst};

use crate::found_entries::Found;
use crate::reading::read_placed;
use chunk_map::Layout;
use fs_model::Memory;
use pm_region::Region;
use std::alloc::Global;
use store_image::contradictions::contradicts;

/// The entries by rising key, and those of a key by rising version. Entries of one key and version keep their order,
/// that of their words. They are sorted in place: a stable sort would take as much memory again.
pub fn by_name(found: Vec<Found>) -> Vec<Found>
    ensures order { AreInOrder result.items }
    ensures names { RiseByWord found.items → AreByName found.items result.items }
    ensures words { WordsKeep result.items }
{
    let mut sorted = found;
    sorted.sort_unstable_by_key(|x| (x.key, x.version, x.at));
    sorted
}

/// Whether an entry contradicts another, by what stands in the region. Their bodies are read only where they have one
/// name.
fn is_contradiction<R: Region>(
    alloc: Global,
    region: &R,
    layout: &Layout,
    x: &Found,
    y: &Found,
) -> Result<bool, Memory>
    requires covers { Covers (R.state region.now).frame layout.now }
    ensures { IfOk result (λ b. IsTelling (R.state region.now)
        → Stands layout.now (lasts (R.state region.now)) x.now
        → Stands layout.now (lasts (R.state region.now)) y.now
        → b ≡ contradicts (placed_at layout.now (lasts (R.state region.now)) x.now)
        (placed_at layout.now (lasts (R.state region.now)) y.now)) }
{
    if x.key != y.key || x.version != y.version {
        return Ok(false);
    }
    let mut words = Vec::new(alloc);
    let Some(one) = read_placed(alloc, region, layout, x, &mut words)? else {
        return Ok(true);
    };
    let Some(other) = read_placed(alloc, region, layout, y, &mut words)? else {
        return Ok(true);
    };
    Ok(contradicts(&one, &other))
}

/// The lower of two words, where there is a first one.
fn lower(first: Option<u32>, at: u32) -> u32
    ensures { result ≡ lower first at }
{
    match first {
        Some(first) if first < at => first,
        _ => at,
    }
}

/// The word of the first entry, by the order of their words, that contradicts one in front of it; none where entries of
/// one key and version have one body and stand in one part. Only neighbours are compared.
pub fn first_clash<R: Region>(
    alloc: Global,
    region: &R,
    layout: &Layout,
    sorted: &[Found],
) -> Result<Option<u32>, Memory>
    requires covers { Covers (R.state region.now).frame layout.now }
    requires order { AreInOrder sorted.now }
    requires words { WordsKeep sorted.now }
    ensures { IfOk result (λ first. IsTelling (R.state region.now)
        → AreFound layout.now (lasts (R.state region.now)) sorted.now
        → IsFirst layout.now (lasts (R.state region.now)) sorted.now first) }
{
    let mut first = None;
    for i in 1..sorted.len() {
        if is_contradiction(alloc, region, layout, &sorted[i], &sorted[i - 1])? {
            first = Some(lower(first, sorted[i].at));
        }
    }
    Ok(first)
}
