// The live keys of a region, and the queries over them.
ghost use Rattle.std.specs.Prelude.{◌≡◌, ℕ, List, length, min, IfOk};
ghost use Rattle.std.specs.List.{count_by};
ghost use Rattle.fs_model.specs.declared.model.Pair.{Pair};
ghost use Rattle.pm_region.specs.State.{IsTelling};
ghost use Rattle.pm_region.specs.Words.{lasts};
ghost use Rattle.store_image.specs.Listing.{ListsCells};
ghost use Rattle.recover.specs.Recovering.{cells_found};
ghost use Rattle.range_scan.specs.Ranges.{is_within, kept, keys_of, ranged};
ghost use Rattle.range_scan.specs.LiveKeys.{AreLiveKeys};
ghost use Rattle.range_scan.specs.Starts.{AreStartsOf, AreStartsIn, HasLivePairs};
ghost use Rattle.range_scan.specs.Pages.{shown};

use crate::keys_of_cores::live_keys;
use crate::page::Page;
use crate::page_values::pairs_at;
use crate::ranging::keys_within;
use fs_model::{Key, Memory};
use pm_region::Region;
use recover::CoreStart;
use std::alloc::Global;
use std::marker::Model;

/// The live keys of a region by rising key, which contracts see as a list. It takes eight bytes for each.
#[derive(Drop)]
pub struct Directory {
    keys: Vec<Key>,
}

/// The lesser one of a limit and a count.
fn at_most(limit: u64, count: usize) -> usize
    ensures { result ≡ min count limit }
{
    if limit < count as u64 {
        limit as usize
    } else {
        count
    }
}

impl Model for Directory {
    ghost use Rattle.std.specs.Prelude.{List, ℕ};
    ghost use Rattle.store_image.specs.Listing.{IsRising};

    ghost Value = { List ℕ };

    ghost view = { λ d. d.keys.items };

    ghost invariant = { λ d. IsRising d.keys.items };
}

impl Directory {
    /// The directory of what recovery gives: the live keys of the cores, which each index lists by rising key, are
    /// merged. It takes time by the number of keys times the logarithm of the number of cores.
    pub fn build(alloc: Global, starts: &[CoreStart]) -> Result<Directory, Memory>
        ensures live { IfOk result (λ d. AreLiveKeys starts.now d) }
        // They are the keys of the pairs that the region's words recover.
        ensures pairs { IfOk result (λ d. (image : ℕ → ℕ) → AreStartsOf image starts.now
            → HasLivePairs (cells_found image) d) }
    {
        let keys = live_keys(alloc, starts)?;
        Ok(Directory { keys })
    }

    /// How many live keys are from `lo` to `hi`: none where `lo` is above `hi`. It takes time by the logarithm of the
    /// number of keys.
    pub fn count(&self, lo: Key, hi: Key) -> u64
        ensures keys { result ≡ count_by (is_within lo hi) self.now }
        ensures pairs { (pairs : List Pair) → self.now ≡ keys_of pairs
            → result ≡ length (kept pairs lo hi) }
    {
        keys_within(&self.keys, lo, hi).len() as u64
    }

    /// The live pairs with a key from `lo` to `hi` by rising key, at most `limit` of them, and the next such key. The
    /// starts are those that the directory was built of, and the region stands as recovery found it. Only the values of
    /// these pairs are read.
    pub fn page<R: Region>(
        &self,
        alloc: Global,
        region: &R,
        starts: &[CoreStart],
        lo: Key,
        hi: Key,
        limit: u64,
    ) -> Result<Page, Memory>
        requires keys { AreLiveKeys starts.now self.now }
        requires starts { AreStartsIn (R.state region.now) starts.now }
        ensures { IfOk result (λ page. IsTelling (R.state region.now) → (pairs : List Pair)
            → ListsCells (cells_found (lasts (R.state region.now))) pairs
            → shown page ≡ ranged pairs lo hi limit) }
    {
        let within = keys_within(&self.keys, lo, hi);
        let count = at_most(limit, within.len());
        let (given, rest) = within.split_at(count);
        let pairs = pairs_at(alloc, region, starts, given)?;
        Ok(Page {
            pairs,
            more: rest.first().copied(),
        })
    }
}
