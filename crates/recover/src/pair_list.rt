// The live pairs of a recovered region.
ghost use Rattle.std.specs.Prelude.{◌≡◌, ℕ, ◌<◌, true, Some, length, slice_index_or, IfOk};
ghost use Rattle.std.specs.Ordering.{nat_cmp};
ghost use Rattle.std.specs.BTreeSet.{contains};
ghost use Rattle.pm_region.specs.State.{IsTelling};
ghost use Rattle.pm_region.specs.Words.{lasts};
ghost use Rattle.chunk_map.specs.Layouts.{owner, total_bytes};
ghost use Rattle.store_image.specs.Parts.{value_in_block};
ghost use Rattle.store_image.specs.Winners.{recovered};
ghost use Rattle.store_image.specs.Listing.{ListsCells};
ghost use Rattle.core_index.specs.Records.{live_version};
ghost use Rattle.core_index.specs.Index.{known_at};
ghost use Rattle.recover.specs.declared.types.CoreStart.{CoreStart};
ghost use Rattle.recover.specs.Regions.{Covers};
ghost use Rattle.recover.specs.Listing.{cell_known};
ghost use Rattle.recover.specs.Recovering.{IsOf, IsFound, cells_found};

use crate::region_blocks::value_in_block;
use crate::types::{CoreStart, Recovered};
use chunk_map::Layout;
use core_index::{CoreIndex, Look};
use fs_model::{Key, Memory, Pair, Value};
use pm_region::Region;
use std::alloc::Global;
use std::collections::BTreeSet;
use store_image::geometry::owner;
use store_image::live_pair::push_pair;

/// Puts a core's live keys in.
fn add_live(alloc: Global, index: &CoreIndex, keys: &mut BTreeSet<Key>) -> Result<(), Memory>
    ensures kept { IfOk result (λ _. (k : ℕ) → contains nat_cmp keys.old k ≡ true
        → contains nat_cmp keys.new k ≡ true) }
    ensures live { IfOk result (λ _. (k v : ℕ) → live_version (known_at index.now k) ≡ Some v
        → contains nat_cmp keys.new k ≡ true) }
{
    let names = index.live(alloc)?;
    for name in &names {
        keys.insert(name.key)?;
    }
    Ok(())
}

/// The live keys of all cores.
fn live_keys(alloc: Global, starts: &[CoreStart]) -> Result<BTreeSet<Key>, Memory>
    ensures { IfOk result (λ keys. (c k v : ℕ) (d : CoreStart) → c < length starts.now
        → live_version (known_at (slice_index_or starts.now c d).index k) ≡ Some v
        → contains nat_cmp keys k ≡ true) }
{
    let mut keys = BTreeSet::new(alloc);
    for start in starts {
        add_live(alloc, &start.index, &mut keys)?;
    }
    Ok(keys)
}

/// The value that a key has by the index of its core, where it has one. A value in a block is read from the
/// region.
fn known_cell<R: Region>(
    alloc: Global,
    region: &R,
    layout: &Layout,
    index: &CoreIndex,
    key: Key,
) -> Result<Option<Value>, Memory>
    requires covers { Covers (R.state region.now).frame layout.now }
    ensures { IfOk result (λ v. IsTelling (R.state region.now)
        → v ≡ cell_known (value_in_block layout.now (lasts (R.state region.now))
        (owner layout.now key)) (known_at index.now key)) }
{
    match index.look(key) {
        Look::Block(pointer) => {
            let part = owner(&layout.geometry(), key);
            let value = value_in_block(alloc, region, layout, part, pointer)?;
            Ok(value)
        }
        Look::Embedded(bytes) => Ok(Some(Value::of(Vec::from_slice(alloc, bytes)?))),
        Look::Deleted | Look::Unknown => Ok(None),
    }
}

/// The value that a key has by what was recovered, where it has one.
fn cell<R: Region>(
    alloc: Global,
    region: &R,
    found: &Recovered,
    key: Key,
) -> Result<Option<Value>, Memory>
    requires covers { Covers (R.state region.now).frame found.now.layout }
    ensures { IfOk result (λ v. IsTelling (R.state region.now)
        → IsOf found.now.layout (lasts (R.state region.now)) found.now
        → v ≡ recovered found.now.layout (lasts (R.state region.now)) key) }
{
    let owner = owner(&found.layout.geometry(), key);
    match found.starts.get(owner as usize) {
        None => Ok(None),
        Some(start) => {
            let value = known_cell(alloc, region, &found.layout, &start.index, key)?;
            Ok(value)
        }
    }
}

/// The live pairs by rising key. The region must stand as `recover` found it.
pub fn pairs<R: Region>(
    alloc: Global,
    region: &R,
    recovered: &Recovered,
) -> Result<Vec<Pair>, Memory>
    requires covers { Covers (R.state region.now).frame recovered.now.layout }
    requires found { IsTelling (R.state region.now)
        → IsFound (total_bytes recovered.now.layout) (lasts (R.state region.now)) recovered.now }
    ensures { IfOk result (λ pairs. IsTelling (R.state region.now)
        → ListsCells (cells_found (lasts (R.state region.now))) pairs.items) }
{
    let keys = live_keys(alloc, &recovered.starts)?;
    let mut pairs = Vec::new(alloc);
    for key in keys {
        let value = cell(alloc, region, recovered, key)?;
        push_pair(&mut pairs, key, value)?;
    }
    Ok(pairs)
}
