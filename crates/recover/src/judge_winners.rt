// The rules on the blocks of winners.
ghost use Rattle.std.specs.Prelude.{◌≡◌, ℕ, ◌++◌, ◌∷◌, [], List, IfOk, OnOk};
ghost use Rattle.std.specs.Ordering.{nat_cmp};
ghost use Rattle.std.specs.BTreeSet.{contains};
ghost use Rattle.pm_region.specs.State.{IsTelling};
ghost use Rattle.pm_region.specs.Words.{lasts};
ghost use Rattle.chunk_map.specs.Layouts.{owner};
ghost use Rattle.store_image.specs.declared.types.PlacedEntry.{PlacedEntry};
ghost use Rattle.store_image.specs.Parts.{all_entries, block_class};
ghost use Rattle.store_image.specs.Soundness.{damaged, damage};
ghost use Rattle.recover.specs.Regions.{Covers};
ghost use Rattle.recover.specs.Winning.{winners_of};
ghost use Rattle.recover.specs.FoundEntries.{body_at, core_at, chunk_there, placed_at, entries_at, Stands, AreFound, AreInOrder};
ghost use Rattle.core_index.specs.Records.{pointer_of};
ghost use Rattle.recover.specs.Causes.{AnswersFault};
ghost use Rattle.recover.specs.Gathering.{AreAgreed, Agrees, Judges};
ghost use Rattle.recover.specs.Judging.{rule_beside, fault_beside, winners_fault, HasPointers};

use crate::found_entries::{Found, chunk_of, core_of};
use crate::gather_region::gather;
use crate::key_runs::key_run;
use crate::reading::pointer_at;
use crate::region_blocks::block_class;
use crate::sorting::{by_name, first_clash};
use crate::types::RecoverError;
use chunk_map::Layout;
use chunk_map::layout_sizes::UNIT_WORDS;
use pm_region::Region;
use std::alloc::Global;
use std::collections::BTreeSet;
use store_image::Fault;
use store_image::geometry::{has_class, owner};

/// The first rule of 9 to 11 that a key's winner breaks by its pointer. The set has the pointers of the
/// winners of smaller keys.
///
/// 9. A winner's pointer is the start of a block in a data chunk of the owner's part.
/// 10. That block's length word is a length whose class is the chunk's.
/// 11. No two winners have the same pointer.
fn pointer_rule<R: Region>(
    region: &R,
    layout: &Layout,
    taken: &BTreeSet<u64>,
    key: u64,
    pointer: u64,
) -> Option<u32>
    requires covers { Covers (R.state region.now).frame layout.now }
    ensures { (before : List PlacedEntry) → HasPointers taken.now before
        → IsTelling (R.state region.now)
        → result ≡ rule_beside (lasts (R.state region.now)) before pointer
        (block_class layout.now (lasts (R.state region.now)) (owner layout.now key) pointer) }
{
    match block_class(region, layout, owner(&layout.geometry(), key), pointer) {
        None => Some(9),
        Some(class) => {
            if !has_class(region.load(UNIT_WORDS * pointer), class) {
                Some(10)
            } else if taken.contains(&pointer) {
                Some(11)
            } else {
                None
            }
        }
    }
}

/// Judges a winner with this pointer, if it has one, by rules 9 to 11. One that breaks none leaves its pointer in the set.
fn judge_pointer<R: Region>(
    region: &R,
    layout: &Layout,
    taken: &mut BTreeSet<u64>,
    winner: &Found,
    pointer: Option<u64>,
) -> Result<(), RecoverError>
    requires covers { Covers (R.state region.now).frame layout.now }
    ensures fault { (before : List PlacedEntry) → HasPointers taken.old before
        → IsTelling (R.state region.now)
        → pointer ≡ pointer_of (body_at (lasts (R.state region.now)) winner.now.at)
        → AnswersFault (fault_beside layout.now (lasts (R.state region.now)) before
        (placed_at layout.now (lasts (R.state region.now)) winner.now)) result }
    ensures taken { OnOk result ((before : List PlacedEntry) (x : PlacedEntry)
        → HasPointers taken.old before → pointer ≡ pointer_of x.entry.body
        → HasPointers taken.new (before ++ x ∷ [])) }
{
    if let Some(pointer) = pointer {
        if let Some(rule) = pointer_rule(region, layout, taken, winner.key, pointer) {
            return Err(RecoverError::Fault(Fault::Damaged {
                part: core_of(layout, winner.at),
                chunk: chunk_of(layout, winner.at),
                rule,
            }));
        }
        taken.insert(pointer)?;
    }
    Ok(())
}

/// Judges a winner by rules 9 to 11. Its value is not read.
pub fn judge_winner<R: Region>(
    alloc: Global,
    region: &R,
    layout: &Layout,
    taken: &mut BTreeSet<u64>,
    winner: &Found,
) -> Result<(), RecoverError>
    requires covers { Covers (R.state region.now).frame layout.now }
    ensures fault { (before : List PlacedEntry) → HasPointers taken.old before
        → IsTelling (R.state region.now)
        → Stands layout.now (lasts (R.state region.now)) winner.now
        → AnswersFault (fault_beside layout.now (lasts (R.state region.now)) before
        (placed_at layout.now (lasts (R.state region.now)) winner.now)) result }
    ensures taken { OnOk result ((before : List PlacedEntry) → HasPointers taken.old before
        → IsTelling (R.state region.now)
        → Stands layout.now (lasts (R.state region.now)) winner.now
        → HasPointers taken.new (before
        ++ placed_at layout.now (lasts (R.state region.now)) winner.now ∷ [])) }
{
    let pointer = pointer_at(alloc, region, layout, winner)?;
    judge_pointer(region, layout, taken, winner, pointer)
}

/// Judges the winners by rules 9 to 11, by rising key, up to the first that breaks one.
fn judge_winners<R: Region>(
    alloc: Global,
    region: &R,
    layout: &Layout,
    sorted: &[Found],
) -> Result<(), RecoverError>
    requires covers { Covers (R.state region.now).frame layout.now }
    requires order { AreInOrder sorted.now }
    ensures { IsTelling (R.state region.now)
        → AreFound layout.now (lasts (R.state region.now)) sorted.now
        → AnswersFault (winners_fault layout.now (lasts (R.state region.now)) []
        (winners_of (entries_at layout.now (lasts (R.state region.now)) sorted.now))) result }
{
    let mut taken = BTreeSet::new(alloc);
    let mut at = 0;
    while at < sorted.len() {
        let run = key_run(sorted, at);
        judge_winner(alloc, region, layout, &mut taken, &sorted[run.winner])?;
        at = run.end;
    }
    Ok(())
}

/// The fault of an entry that contradicts one in front of it, by its first word.
fn clash_fault(layout: &Layout, at: u32) -> Fault
    ensures { result ≡ damaged (core_at layout.now at) (chunk_there layout.now at) 8 }
{
    Fault::Damaged {
        part: core_of(layout, at),
        chunk: chunk_of(layout, at),
        rule: 8,
    }
}

/// All entries of a region in the order of their names, as they are found, or the first broken one of rules 4 to 8.
/// Of rule 8 the place is that of the first entry that contradicts an earlier one.
pub fn agreed_entries<R: Region>(
    alloc: Global,
    region: &R,
    layout: &Layout,
) -> Result<Vec<Found>, RecoverError>
    requires covers { Covers (R.state region.now).frame layout.now }
    ensures told { IsTelling (R.state region.now)
        → Agrees layout.now (lasts (R.state region.now)) result }
    ensures order { IfOk result (λ found. AreInOrder found.items) }
{
    let found = gather(alloc, region, layout)?;
    let sorted = by_name(found);
    match first_clash(alloc, region, layout, &sorted)? {
        Some(at) => Err(clash_fault(layout, at).into()),
        None => Ok(sorted),
    }
}

/// Judges a region whose entries break none of rules 4 to 8: the first one of rules 4 to 11 that it breaks.
fn judge<R: Region>(
    alloc: Global,
    region: &R,
    layout: &Layout,
    sorted: &[Found],
) -> Result<(), RecoverError>
    requires covers { Covers (R.state region.now).frame layout.now }
    requires order { AreInOrder sorted.now }
    ensures { IsTelling (R.state region.now)
        → AreAgreed layout.now (lasts (R.state region.now))
        (entries_at layout.now (lasts (R.state region.now)) sorted.now)
        → AreFound layout.now (lasts (R.state region.now)) sorted.now
        → AnswersFault (damage layout.now (lasts (R.state region.now))) result }
{
    judge_winners(alloc, region, layout, sorted)
}

/// All entries of a region in the order of their names, as they are found, or the first broken one of rules 4 to 11.
pub fn sound_entries<R: Region>(
    alloc: Global,
    region: &R,
    layout: &Layout,
) -> Result<Vec<Found>, RecoverError>
    requires covers { Covers (R.state region.now).frame layout.now }
    ensures told { IsTelling (R.state region.now)
        → Judges layout.now (lasts (R.state region.now)) result }
    ensures order { IfOk result (λ found. AreInOrder found.items) }
{
    let found = agreed_entries(alloc, region, layout)?;
    judge(alloc, region, layout, &found)?;
    Ok(found)
}
