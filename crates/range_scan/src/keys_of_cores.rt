// The live keys of all cores.
ghost use Rattle.std.specs.Prelude.{◌≡◌, IfOk, map};
ghost use Rattle.range_scan.specs.LiveKeys.{AreLiveKeys, AreLiveIn};

use crate::key_union::merged;
use core_index::CoreIndex;
use fs_model::{Key, Memory};
use log_entry::EntryName;
use recover::CoreStart;
use std::alloc::Global;

/// The keys of some names, in their order.
fn keys_of(alloc: Global, names: &[EntryName]) -> Result<Vec<Key>, Memory>
    ensures { IfOk result (λ keys. keys.items ≡ map (λ n. n.key) names.now) }
{
    let keys = names.iter().map(|name| name.key).collect(alloc)?;
    Ok(keys)
}

/// The live keys of one core, by rising key.
fn keys_in(alloc: Global, index: &CoreIndex) -> Result<Vec<Key>, Memory>
    ensures { IfOk result (λ keys. AreLiveIn index.now keys.items) }
{
    let names = index.live(alloc)?;
    let keys = keys_of(alloc, &names)?;
    Ok(keys)
}

/// The live keys of some cores, by rising key: the lists of two halves are merged.
pub fn live_keys(alloc: Global, starts: &[CoreStart]) -> Result<Vec<Key>, Memory>
    ensures { IfOk result (λ keys. AreLiveKeys starts.now keys.items) }
{
    if starts.len() > 1 {
        let (front, back) = starts.split_at(starts.len() / 2);
        let left = live_keys(alloc, front)?;
        let right = live_keys(alloc, back)?;
        return merged(alloc, &left, &right);
    }
    match starts.first() {
        None => Ok(Vec::new(alloc)),
        Some(start) => keys_in(alloc, &start.index),
    }
}
