// Two rising lists of keys are merged.
ghost use Rattle.std.specs.Prelude.{◌≡◌, ◌≤◌, IfOk};
ghost use Rattle.std.specs.List.{AllByRecursion};
ghost use Rattle.store_image.specs.Listing.{IsRising};
ghost use Rattle.range_scan.specs.Keys.{IsUnion, IsFirst, IsBehind};

use fs_model::{Key, Memory};
use std::alloc::Global;

/// The lesser one of the first keys of two lists.
fn first_of(front: &[Key], back: &[Key]) -> Option<Key>
    requires front { IsRising front.now }
    requires back { IsRising back.now }
    ensures { IsFirst front.now back.now result }
{
    match (front.first(), back.first()) {
        (Some(x), Some(y)) => Some(if *x <= *y { *x } else { *y }),
        (Some(x), None) => Some(*x),
        (None, Some(y)) => Some(*y),
        (None, None) => None,
    }
}

/// What stands behind a key, where the list begins with it, and else all.
fn behind(keys: &[Key], key: Key) -> &[Key]
    requires rising { IsRising keys.now }
    requires low { AllByRecursion (λ x. key ≤ x) keys.now }
    ensures { IsBehind keys.now key result.now }
{
    match keys.first() {
        None => keys,
        Some(first) => { if *first == key { &keys[1..] } else { keys } }
    }
}

/// The keys of both lists by rising key. A key that stands in both comes once.
pub fn merged(alloc: Global, left: &[Key], right: &[Key]) -> Result<Vec<Key>, Memory>
    requires left { IsRising left.now }
    requires right { IsRising right.now }
    ensures { IfOk result (λ keys. IsUnion left.now right.now keys.items) }
{
    let mut keys = Vec::new(alloc);
    let mut front = left;
    let mut back = right;
    while let Some(key) = first_of(front, back) {
        keys.push(key)?;
        front = behind(front, key);
        back = behind(back, key);
    }
    Ok(keys)
}
