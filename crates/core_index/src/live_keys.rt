// The keys that have a value.
ghost use Rattle.std.specs.Prelude.{◌≡◌, ◌++◌, ℕ, ◌↔◌, Some, IfOk, OnOk, map};
ghost use Rattle.std.specs.List.{Contains};
ghost use Rattle.std.specs.List.Sorted.{IsPermutation, IsStrictlyIncreasing, IsStrictlySortedBy};
ghost use Rattle.std.specs.Map.{keys_of};
ghost use Rattle.std.specs.Ordering.{nat_cmp};
ghost use Rattle.core_index.specs.Index.{known_at, live_name, live_names};
ghost use Rattle.core_index.specs.Listing.{start_names, version_left};
ghost use Rattle.core_index.specs.Lives.{live_key, KeysRise};
ghost use Rattle.core_index.specs.Noted.{name_with};
ghost use Rattle.core_index.specs.Records.{live_version};
ghost use Rattle.core_index.specs.Starts.{started};

use crate::live_list::{LiveList, key_of, version_of};
use crate::slot_map::{SlotMap, has};
use crate::start_keys::StartKeys;
use crate::types::{LiveFate, LiveKey};
use fs_model::{Key, Memory, Version};
use log_entry::EntryName;
use std::alloc::Global;

// The version of a live key that the map has no place for.
fn version_left(slots: &SlotMap, live: &LiveKey) -> Option<Version>
    ensures { result ≡ version_left slots.now.entries live.now }
{
    if has(slots, key_of(live)) {
        return None;
    }
    match live.fate {
        LiveFate::Moved => None,
        _ => Some(version_of(live)),
    }
}

// Adds the name of such a key.
fn add_left(names: &mut Vec<EntryName>, slots: &SlotMap, live: &LiveKey) -> Result<(), Memory>
    ensures { OnOk result (names.new.items ≡ names.old.items
        ++ live_name (live_key live.now) (version_left slots.now.entries live.now)) }
{
    if let Some(version) = version_left(slots, live) {
        names.push(EntryName {
            key: key_of(live),
            version,
        })?;
    }
    Ok(())
}

// Adds those of the start that the map has no place for.
fn add_started(names: &mut Vec<EntryName>, slots: &SlotMap, items: &[LiveKey]) -> Result<(), Memory>
    ensures { OnOk result (names.new.items
        ≡ names.old.items ++ start_names slots.now.entries items.now) }
{
    for live in items {
        add_left(names, slots, live)?;
    }
    Ok(())
}

// All live keys, those of the map first.
fn live_unsorted(alloc: Global, slots: &SlotMap, live: &LiveList) -> Result<Vec<EntryName>, Memory>
    ensures names { IfOk result (λ names. IsPermutation (live_names slots.now.entries
        ++ start_names slots.now.entries live.now.items) names.items) }
    ensures ordered { IfOk result (λ _. IsStrictlySortedBy nat_cmp (keys_of slots.now.entries)) }
    ensures rising { IfOk result (λ _. KeysRise live.now.items) }
{
    let mut names = slots.live_names(alloc)?;
    add_started(&mut names, slots, live.items())?;
    Ok(names)
}

/// The live keys with their versions, by rising key.
pub fn live_in(alloc: Global, slots: &SlotMap, start: &StartKeys) -> Result<Vec<EntryName>, Memory>
    ensures rising { IfOk result (λ names. IsStrictlyIncreasing (map (λ n. n.key) names.items)) }
    ensures each { IfOk result (λ names. (k v : ℕ) → Contains names.items (name_with k v)
        ↔ (live_version (known_at (slots.now.entries ++ started start.now) k) ≡ Some v)) }
{
    let mut names = live_unsorted(alloc, slots, &start.lone.live)?;
    names.sort_unstable_by_key(|n| n.key);
    Ok(names)
}
