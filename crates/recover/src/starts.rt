// What each core begins with.
ghost use Rattle.std.specs.Prelude.{◌≡◌, ◌≢◌, ℕ, ◌<◌, None, List, length, slice_index_or, IfOk};
ghost use Rattle.pm_region.specs.State.{IsTelling};
ghost use Rattle.pm_region.specs.Words.{lasts};
ghost use Rattle.store_image.specs.Parts.{all_entries};
ghost use Rattle.store_image.specs.Facts.{KeepsRules};
ghost use Rattle.core_log.specs.Log.{LogState, IsOwn};
ghost use Rattle.core_index.specs.Records.{is_dead_in};
ghost use Rattle.core_index.specs.Index.{known_at};
ghost use Rattle.log_standing.specs.NameCounts.{floor_at};
ghost use Rattle.log_standing.specs.Notes.{Noted, AreOfLog};
ghost use Rattle.recover.specs.Regions.{Covers};
ghost use Rattle.recover.specs.OwnDead.{TellsOwn};
ghost use Rattle.recover.specs.Starts.{IsSpelledIndex, HasCopiesOf};
ghost use Rattle.recover.specs.declared.types.CoreStart.{CoreStart};
ghost use Rattle.recover.specs.Shares.{IsShare, AreSpelledShares, AreShares};
ghost use Rattle.recover.specs.LogNames.{AreNamesOf, AreNames};
ghost use Rattle.recover.specs.Logs.{IsStart};
ghost use Rattle.recover.specs.Heads.{Starts, AllStart};

use crate::logs::{heads, log_chunks};
use crate::shares::Share;
use crate::types::{CoreStart, RecoverError};
use chunk_map::Layout;
use core_index::CoreIndex;
use core_log::CoreLog;
use lazy_alloc::Allocator;
use log_entry::EntryName;
use log_standing::{LogNames, Standing};
use pm_region::Region;
use std::alloc::Global;
use std::mem::replace;

/// What stands in the log of a core with this index, by the names of its entries: those that are dead by the index were
/// told dead.
fn own_standing(alloc: Global, names: LogNames, index: &CoreIndex) -> Standing
    ensures told { TellsOwn result index.now }
    ensures settled { result.settled ≡ None }
    ensures floors { (j : ℕ) → floor_at result j ≡ None }
    ensures counts { (image : ℕ → ℕ) (log : LogState) → IsOwn log → AreOfLog image log names
        → HasCopiesOf image log result }
{
    let dead = |name: EntryName|
        ensures { result ≡ is_dead_in (known_at index.entry.now name.key) name.version }
    { index.is_dead(name) };
    names.standing(alloc, dead)
}

/// The start of one core. The heads of its part are read again: one that is none now is answered as damage.
fn start<R: Region>(
    alloc: Global,
    region: &R,
    layout: &Layout,
    core: u32,
    share: Share,
    names: LogNames,
) -> Result<CoreStart, RecoverError>
    requires covers { Covers (R.state region.now).frame layout.now }
    requires core { core < layout.now.cores }
    requires index { IsSpelledIndex share.index }
    ensures made { IfOk result (IsStart layout.now core) }
    ensures told { IsTelling (R.state region.now)
        → KeepsRules layout.now (lasts (R.state region.now))
        → IsShare layout.now (all_entries layout.now (lasts (R.state region.now))) core share
        → AreNamesOf layout.now (lasts (R.state region.now)) core names
        → Starts layout.now (lasts (R.state region.now)) core result }
{
    let heads = heads(alloc, region, layout, core)?;
    let chunks = log_chunks(alloc, layout, &heads)?;
    let log = CoreLog::open(alloc, *layout, core, chunks)?;
    let allocator = Allocator::rebuild(alloc, *layout, core, &heads, &share.pointers)?;
    let standing = own_standing(alloc, names, &share.index);
    Ok(CoreStart {
        core,
        log,
        allocator,
        index: share.index,
        standing,
    })
}

/// Takes a core's names out of the list.
fn take_names(alloc: Global, names: &mut Vec<LogNames>, core: u32) -> LogNames
    requires { core < length names.old.items }
    ensures taken { (d : List Noted) → result ≡ slice_index_or names.old.items core d }
    ensures others { (c : ℕ) (d : List Noted) → c ≢ core
        → slice_index_or names.new.items c d ≡ slice_index_or names.old.items c d }
    ensures count { length names.new.items ≡ length names.old.items }
{
    replace(&mut names[core as usize], LogNames::none(alloc))
}

/// The starts of all cores, in order.
pub fn starts<R: Region>(
    alloc: Global,
    region: &R,
    layout: &Layout,
    shares: Vec<Share>,
    names: Vec<LogNames>,
) -> Result<Vec<CoreStart>, RecoverError>
    requires covers { Covers (R.state region.now).frame layout.now }
    requires count { length shares.items ≡ layout.now.cores }
    requires names { length names.items ≡ layout.now.cores }
    requires shares { AreSpelledShares layout.now shares.items }
    ensures count { IfOk result (λ starts. length starts.items ≡ layout.now.cores) }
    ensures made { IfOk result (λ starts. (c : ℕ) (d : CoreStart)
        → c < layout.now.cores → IsStart layout.now c (slice_index_or starts.items c d)) }
    ensures told { IsTelling (R.state region.now)
        → KeepsRules layout.now (lasts (R.state region.now))
        → AreShares layout.now (all_entries layout.now (lasts (R.state region.now))) shares.items
        → AreNames layout.now (lasts (R.state region.now)) names.items
        → AllStart layout.now (lasts (R.state region.now)) result }
{
    let mut starts = Vec::with_capacity(alloc, shares.len())?;
    let mut left = names;
    let mut core = 0;
    for share in shares {
        let own = take_names(alloc, &mut left, core);
        let start = start(alloc, region, layout, core, share, own)?;
        starts.push(start)?;
        core += 1;
    }
    Ok(starts)
}
