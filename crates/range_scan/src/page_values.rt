// The values of live keys.
ghost use Rattle.std.specs.Prelude.{◌≡◌, ℕ, [], Some, IfOk};
ghost use Rattle.std.specs.List.{flat_map};
ghost use Rattle.pm_region.specs.State.{IsTelling};
ghost use Rattle.pm_region.specs.Words.{lasts};
ghost use Rattle.store_image.specs.Listing.{with_pair};
ghost use Rattle.store_image.specs.Parts.{block_bytes};
ghost use Rattle.core_index.specs.Records.{block_of};
ghost use Rattle.core_index.specs.Index.{known_at};
ghost use Rattle.lazy_alloc.specs.Written.{PartLies};
ghost use Rattle.recover.specs.Listing.{cell_known};
ghost use Rattle.recover.specs.Recovering.{cells_found};
ghost use Rattle.range_scan.specs.Starts.{AreStartsIn, HasBlock};

use core_index::Look;
use fs_model::{Key, Memory, Pair, Value};
use pm_region::Region;
use recover::CoreStart;
use std::alloc::Global;
use store_image::live_pair::push_pair;

/// The value that a key has by the start of its core, where it has one. A value in a block is read from the region.
fn value_by<R: Region>(
    alloc: Global,
    region: &R,
    start: &CoreStart,
    key: Key,
) -> Result<Option<Value>, Memory>
    requires lies { PartLies (R.state region.now).frame start.now.allocator }
    requires block { IsTelling (R.state region.now) → (p : ℕ)
        → block_of (known_at start.now.index key) ≡ Some p
        → HasBlock (lasts (R.state region.now)) start.now.allocator p }
    ensures { IfOk result (λ v. IsTelling (R.state region.now)
        → v ≡ cell_known (λ p. Some (block_bytes (lasts (R.state region.now)) p))
        (known_at start.now.index key)) }
{
    match start.index.look(key) {
        Look::Block(pointer) => {
            let value = start.allocator.read_value(alloc, region, pointer)?;
            Ok(Some(value))
        }
        Look::Embedded(bytes) => Ok(Some(Value::of(Vec::from_slice(alloc, bytes)?))),
        Look::Deleted | Look::Unknown => Ok(None),
    }
}

/// The value that a key has, where it has one. The core of a key is the key modulo the number of cores.
fn value_of<R: Region>(
    alloc: Global,
    region: &R,
    starts: &[CoreStart],
    key: Key,
) -> Result<Option<Value>, Memory>
    requires { AreStartsIn (R.state region.now) starts.now }
    ensures { IfOk result (λ v. IsTelling (R.state region.now)
        → v ≡ cells_found (lasts (R.state region.now)) key) }
{
    let core = key % starts.len() as u64;
    let value = value_by(alloc, region, &starts[core as usize], key)?;
    Ok(value)
}

/// The pairs of those of the keys that are live, in their order.
pub fn pairs_at<R: Region>(
    alloc: Global,
    region: &R,
    starts: &[CoreStart],
    keys: &[Key],
) -> Result<Vec<Pair>, Memory>
    requires { AreStartsIn (R.state region.now) starts.now }
    ensures { IfOk result (λ pairs. IsTelling (R.state region.now) → pairs.items
        ≡ flat_map (λ k. with_pair k (cells_found (lasts (R.state region.now)) k) []) keys.now) }
{
    let mut pairs = Vec::new(alloc);
    for key in keys {
        let value = value_of(alloc, region, starts, *key)?;
        push_pair(&mut pairs, *key, value)?;
    }
    Ok(pairs)
}
