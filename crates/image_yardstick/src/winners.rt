// The winner of a key, and the keys of entries.
ghost use Rattle.std.specs.Prelude.{◌≡◌, ℕ, ◌+◌, ◌<◌, ◌≤◌, ◌==◌, length, IfOk, drop};
ghost use Rattle.std.specs.Option.{option_copied};
ghost use Rattle.store_image.specs.Winners.{better, winner_in, with_key, keys_of};

use fs_model::Memory;
use std::alloc::Global;
use store_image::PlacedEntry;

fn better<'a>(x: &'a PlacedEntry, best: Option<&'a PlacedEntry>) -> &'a PlacedEntry
    ensures { result.now ≡ better x.now (option_copied best.entry) }
{
    match best {
        None => x,
        Some(y) => {
            if x.entry.version < y.entry.version {
                y
            } else {
                x
            }
        }
    }
}

/// The key's entry of greatest version, where it first stands.
pub fn winner_in(key: u64, entries: &[PlacedEntry]) -> Option<&PlacedEntry>
    ensures { option_copied result ≡ winner_in key entries.now }
{
    let mut best: Option<&PlacedEntry> = None;
    let mut i = entries.len();
    while i > 0 {
        i -= 1;
        let x = &entries[i];
        if x.entry.key == key {
            best = Some(better(x, best));
        }
    }
    best
}

fn with_key(key: u64, keys: &mut Vec<u64>) -> Result<(), Memory>
    ensures { IfOk result (λ _. keys.new.items ≡ with_key key keys.old.items) }
{
    let mut i = 0;
    while i < keys.len() && keys[i] < key {
        i += 1;
    }
    if i < keys.len() && keys[i] == key {
        return Ok(());
    }
    keys.insert(i, key)?;
    Ok(())
}

/// The keys of entries, rising.
pub fn keys_of(alloc: Global, entries: &[PlacedEntry]) -> Result<Vec<u64>, Memory>
    ensures { IfOk result (λ v. v.items ≡ keys_of entries.now) }
{
    let mut keys = Vec::new(alloc);
    let mut i = entries.len();
    while i > 0 {
        i -= 1;
        with_key(entries[i].entry.key, &mut keys)?;
    }
    Ok(keys)
}
