// The live pairs of a region, without what its cores begin with.
ghost use Rattle.std.specs.Prelude.{◌≡◌, ◌/◌, ◌<◌, ◌++◌, ◌∷◌, [], IfOk, OnOk, IsOkUnless};
ghost use Rattle.pm_region.specs.declared.region_sizes.TheConstants.{WORD_BYTES};
ghost use Rattle.pm_region.specs.State.{IsTelling};
ghost use Rattle.pm_region.specs.Words.{lasts};
ghost use Rattle.chunk_map.specs.Checked.{IsLength};
ghost use Rattle.store_image.specs.Parts.{value_in_block};
ghost use Rattle.store_image.specs.Winners.{cell_by};
ghost use Rattle.recover.specs.Regions.{Covers};
ghost use Rattle.recover.specs.FoundEntries.{placed_at, entries_at, Stands, AreFound, AreInOrder};
ghost use Rattle.recover.specs.Live.{pairs_by, HasLeft, Lists, ListsLive};

use crate::found_entries::Found;
use crate::judge_winners::{agreed_entries, judge_winner};
use crate::key_runs::key_run;
use crate::look_ahead::look_ahead;
use crate::reading::{gone_fault, read_at};
use crate::region_blocks::value_in_block;
use crate::types::RecoverError;
use chunk_map::{Layout, read_superblock};
use fs_model::{Memory, Pair, Value};
use log_entry::Body;
use pm_region::Region;
use std::alloc::Global;
use std::collections::BTreeSet;
use store_image::geometry::owner;
use store_image::live_pair::push_pair;

/// The value that an entry leaves, where it leaves one. A value in a block of the part is read from the region.
fn value_left<R: Region>(
    alloc: Global,
    region: &R,
    layout: &Layout,
    part: u32,
    body: Body,
) -> Result<Option<Value>, Memory>
    requires covers { Covers (R.state region.now).frame layout.now }
    requires part { part < layout.now.cores }
    ensures { IfOk result (λ v. IsTelling (R.state region.now)
        → v ≡ cell_by (value_in_block layout.now (lasts (R.state region.now)) part) body) }
{
    match body {
        Body::Pointer(pointer) => {
            let value = value_in_block(alloc, region, layout, part, pointer)?;
            Ok(value)
        }
        Body::Embedded(value) => Ok(Some(value)),
        Body::Tombstone => Ok(None),
    }
}

/// Appends the pair of a winner, where it leaves a value. A winner that stands there no more is answered as damage.
/// `words` is scratch.
fn push_left<R: Region>(
    alloc: Global,
    region: &R,
    layout: &Layout,
    pairs: &mut Vec<Pair>,
    winner: &Found,
    words: &mut Vec<u64>,
) -> Result<(), RecoverError>
    requires covers { Covers (R.state region.now).frame layout.now }
    ensures appends { OnOk result (IsTelling (R.state region.now)
        → Stands layout.now (lasts (R.state region.now)) winner.now
        → pairs.new.items ≡ pairs.old.items ++ pairs_by layout.now (lasts (R.state region.now))
        (placed_at layout.now (lasts (R.state region.now)) winner.now ∷ [])) }
    ensures stands { IsTelling (R.state region.now)
        → Stands layout.now (lasts (R.state region.now)) winner.now
        → IsOkUnless result RecoverError.Memory }
{
    let Some(body) = read_at(alloc, region, layout, winner, words)? else {
        return Err(gone_fault(layout, winner).into());
    };
    let part = owner(&layout.geometry(), winner.key);
    let value = value_left(alloc, region, layout, part, body)?;
    push_pair(pairs, winner.key, value)?;
    Ok(())
}

/// The pairs of the winners that leave a value, by rising key, or the first one of rules 9 to 11 that a winner breaks.
/// One that stands there no more is answered as damage.
fn pairs_left<R: Region>(
    alloc: Global,
    region: &R,
    layout: &Layout,
    sorted: &[Found],
) -> Result<Vec<Pair>, RecoverError>
    requires covers { Covers (R.state region.now).frame layout.now }
    requires order { AreInOrder sorted.now }
    ensures { IsTelling (R.state region.now)
        → AreFound layout.now (lasts (R.state region.now)) sorted.now
        → HasLeft layout.now (lasts (R.state region.now))
        (entries_at layout.now (lasts (R.state region.now)) sorted.now) result }
{
    let mut pairs = Vec::new(alloc);
    let mut words = Vec::new(alloc);
    let mut taken = BTreeSet::new(alloc);
    let mut at = 0;
    let mut looked = 0;
    while at < sorted.len() {
        looked = look_ahead(region, layout, sorted, at, looked)?;
        let run = key_run(sorted, at);
        let winner = &sorted[run.winner];
        judge_winner(alloc, region, layout, &mut taken, winner)?;
        push_left(alloc, region, layout, &mut pairs, winner, &mut words)?;
        at = run.end;
    }
    Ok(pairs)
}

/// The live pairs of a region of this layout, or the first broken one of rules 4 to 11.
fn judged_pairs<R: Region>(
    alloc: Global,
    region: &R,
    layout: &Layout,
) -> Result<Vec<Pair>, RecoverError>
    requires covers { Covers (R.state region.now).frame layout.now }
    ensures { IsTelling (R.state region.now)
        → Lists layout.now (lasts (R.state region.now)) result }
{
    let found = agreed_entries(alloc, region, layout)?;
    pairs_left(alloc, region, layout, &found)
}

/// The live pairs of a region of so many bytes by rising key, or the first broken rule: what `recover` and then
/// `pairs` give, while neither logs nor allocators nor indexes are made. It writes nothing.
pub fn live_pairs<R: Region>(
    alloc: Global,
    region: &R,
    bytes: u64,
) -> Result<Vec<Pair>, RecoverError>
    requires first { (R.state region.now).frame.first ≡ 0 }
    requires words { IsLength bytes → (R.state region.now).frame.words ≡ bytes / WORD_BYTES }
    ensures { IsTelling (R.state region.now) → ListsLive bytes (lasts (R.state region.now)) result }
{
    let layout = read_superblock(region, bytes)?;
    judged_pairs(alloc, region, &layout)
}
