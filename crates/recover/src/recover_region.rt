// Recovery of a region.
ghost use Rattle.std.specs.Prelude.{◌≡◌, ◌↔◌, ◌/◌, None, IfOk, length};
ghost use Rattle.pm_region.specs.declared.region_sizes.TheConstants.{WORD_BYTES};
ghost use Rattle.pm_region.specs.State.{IsTelling};
ghost use Rattle.pm_region.specs.Words.{lasts};
ghost use Rattle.chunk_map.specs.Layouts.{total_bytes};
ghost use Rattle.chunk_map.specs.Checked.{IsLength};
ghost use Rattle.store_image.specs.Soundness.{damage, first_fault};
ghost use Rattle.store_image.specs.Facts.{KeepsRules, IsStore};
ghost use Rattle.recover.specs.Regions.{Covers, IsCertain};
ghost use Rattle.recover.specs.Causes.{AnswersFault};
ghost use Rattle.recover.specs.Shares.{AreSpelledShares};
ghost use Rattle.recover.specs.Dividing.{Divides};
ghost use Rattle.recover.specs.Recovering.{IsMade, Restores, Recovers, AllStand};

use crate::core_names::core_names;
use crate::judge_winners::{agreed_entries, sound_entries};
use crate::shares::{Share, shares};
use crate::starts::starts;
use crate::types::{RecoverError, Recovered};
use chunk_map::{Layout, read_superblock};
use fs_model::Memory;
use log_standing::LogNames;
use pm_region::Region;
use std::alloc::Global;
use store_image::Fault;

/// Judges a region of so many bytes by all rules of soundness.
fn judged<R: Region>(alloc: Global, region: &R, bytes: u64) -> Result<(), RecoverError>
    requires first { (R.state region.now).frame.first ≡ 0 }
    requires words { IsLength bytes → (R.state region.now).frame.words ≡ bytes / WORD_BYTES }
    ensures { IsTelling (R.state region.now)
        → AnswersFault (first_fault bytes (lasts (R.state region.now))) result }
{
    let layout = read_superblock(region, bytes)?;
    sound_entries(alloc, region, &layout)?;
    Ok(())
}

/// The first rule of soundness that a region of so many bytes breaks, or none where it is sound.
///
/// Rules 1 to 3, on the superblock, are tested first. Then 4 to 7 by part and chunk, then 8 over all entries
/// by part, chunk and place, then 9 to 11 by rising key.
pub fn first_fault<R: Region>(
    alloc: Global,
    region: &R,
    bytes: u64,
) -> Result<Option<Fault>, Memory>
    requires first { (R.state region.now).frame.first ≡ 0 }
    requires words { IsLength bytes → (R.state region.now).frame.words ≡ bytes / WORD_BYTES }
    ensures first { IfOk result (λ f. IsTelling (R.state region.now)
        → f ≡ first_fault bytes (lasts (R.state region.now))) }
    ensures sound { IfOk result (λ f. IsTelling (R.state region.now) → (f ≡ None)
        ↔ IsStore bytes (lasts (R.state region.now))) }
{
    match judged(alloc, region, bytes) {
        Ok(()) => Ok(None),
        Err(RecoverError::Fault(fault)) => Ok(Some(fault)),
        Err(RecoverError::Memory) => Err(Memory),
    }
}

/// What the entries of a region give the cores, in their order.
#[derive(Drop)]
struct Division {
    /// What is known of the keys.
    shares: Vec<Share>,
    /// The names of the logs' entries.
    names: Vec<LogNames>,
}

/// What each core gets of the entries of a region, or the first broken one of rules 4 to 11.
fn judged_entries<R: Region>(
    alloc: Global,
    region: &R,
    layout: &Layout,
) -> Result<Division, RecoverError>
    requires covers { Covers (R.state region.now).frame layout.now }
    ensures shares { IfOk result (λ division. length division.shares.items ≡ layout.now.cores) }
    ensures names { IfOk result (λ division. length division.names.items ≡ layout.now.cores) }
    ensures spelled { IfOk result (λ division. AreSpelledShares layout.now division.shares.items) }
    ensures told { IsTelling (R.state region.now)
        → Divides layout.now (lasts (R.state region.now)) result }
{
    let sorted = agreed_entries(alloc, region, layout)?;
    let shares = shares(alloc, region, layout, &sorted)?;
    let names = core_names(alloc, layout, sorted)?;
    Ok(Division { shares, names })
}

/// What a region of this layout recovers, or the first broken one of rules 4 to 11.
fn recovered<R: Region>(
    alloc: Global,
    region: &R,
    layout: Layout,
) -> Result<Recovered, RecoverError>
    requires covers { Covers (R.state region.now).frame layout }
    ensures made { IfOk result (IsMade (total_bytes layout)) }
    ensures told { IsTelling (R.state region.now)
        → (damage layout (lasts (R.state region.now)) ≡ None
        → KeepsRules layout (lasts (R.state region.now)))
        → Restores layout (lasts (R.state region.now)) result }
{
    let division = judged_entries(alloc, region, &layout)?;
    let starts = starts(alloc, region, &layout, division.shares, division.names)?;
    Ok(Recovered { layout, starts })
}

/// What the cores of a region of so many bytes begin with, or the first broken rule: their logs, their
/// allocators and their indexes. It writes nothing.
pub fn recover<R: Region>(alloc: Global, region: &R, bytes: u64) -> Result<Recovered, RecoverError>
    requires first { (R.state region.now).frame.first ≡ 0 }
    requires words { IsLength bytes → (R.state region.now).frame.words ≡ bytes / WORD_BYTES }
    // Whatever the region tells.
    ensures made { IfOk result (IsMade bytes) }
    ensures told { IsTelling (R.state region.now) → Recovers bytes
        (lasts (R.state region.now)) result }
    // Where each word is certain, each log stands in the region.
    ensures stands { IsCertain (R.state region.now) → IfOk result (AllStand (R.state region.now)) }
{
    let layout = read_superblock(region, bytes)?;
    recovered(alloc, region, layout)
}
