// The two rules on a member's own keys: a key of which nothing stands is forgotten, and a dead entry in the
// own log needs no mail.
ghost use Rattle.std.specs.Prelude.{◌≡◌, ◌⊎◌, ℕ, ◌<◌, IfOk, OnOk, IsTrue, ◌↔◌, Some, None, true};
ghost use Rattle.std.specs.Ordering.{nat_cmp};
ghost use Rattle.std.specs.BTreeMap.{get};
ghost use Rattle.store_image.specs.Facts.{In};
ghost use Rattle.group_laws.specs.Places.{owner};
ghost use Rattle.group_laws.specs.Updates.{has};
ghost use Rattle.group_laws.specs.Tidying.{Tidied};
ghost use Rattle.group_machine.specs.Shows.{group_of, place_of, pair_cmp, last_in};
ghost use Rattle.group_machine.specs.Deaths.{IsDeadIn, IsSpentIn, MustTell};

use crate::member_places::owner_of;
use crate::state::{GroupState, MemberView};
use fs_model::Memory;
use fs_model::model::{Key, Version};
use log_entry::entry::EntryName;
use std::alloc::Global;
use std::collections::BTreeMap;

/// Whether an entry's name is no other entry's of that key.
fn is_apart(name: &(Key, Version), key: Key, version: Version) -> bool
    ensures { IsTrue result ↔ (name.now.0 ≡ key → name.now.1 ≡ version) }
{
    name.0 != key || name.1 == version
}

/// Whether no other entry of a key stands than the one of this version.
pub fn stands_alone(present: &BTreeMap<(Key, Version), u32>, key: Key, version: Version) -> bool
    ensures { IsTrue result ↔ ((u h : ℕ) → get pair_cmp present.now (key, u) ≡ Some h
        → u ≡ version) }
{
    for (name, _) in present {
        if !is_apart(name, key, version) {
            return false;
        }
    }
    true
}

/// Whether no entry of a key stands.
fn stands_nowhere(present: &BTreeMap<(Key, Version), u32>, key: Key) -> bool
    ensures { IsTrue result ↔ ((u h : ℕ) → get pair_cmp present.now (key, u) ≡ Some h → ⊥) }
{
    for (name, _) in present {
        if name.0 == key {
            return false;
        }
    }
    true
}

/// Whether an entry that stands is dead as the owner's view has it: a later change is finished, or it is the
/// tombstone of a deleted key and no other entry of the key stands.
pub fn is_dead(view: &MemberView, key: Key, version: Version) -> bool
    ensures { IsTrue result ↔ IsDeadIn view.now key version }
{
    let last = view.last.get(&key).copied().unwrap_or(0);
    if version < last {
        return true;
    }
    version == last && !view.cell.contains_key(&key) && stands_alone(&view.present, key, version)
}

/// Whether a key is deleted, nothing of it stands in a log, and no change of it is under way.
fn is_spent(view: &MemberView, key: Key) -> bool
    ensures { IsTrue result ↔ IsSpentIn view.now key }
{
    !view.cell.contains_key(&key)
        && !view.pending.contains_key(&key)
        && stands_nowhere(&view.present, key)
}

/// Adds a key to a list where it is spent.
fn add_spent(keys: &mut Vec<Key>, view: &MemberView, key: Key) -> Result<(), Memory>
    ensures { OnOk result ((k : ℕ) → In k keys.new.items ↔ (In k keys.old.items
        ⊎ ((k ≡ key) × IsSpentIn view.now k))) }
{
    if is_spent(view, key) {
        keys.push(key)?;
    }
    Ok(())
}

/// The keys with a last version of which nothing is left.
fn spent_keys(alloc: Global, view: &MemberView) -> Result<Vec<Key>, Memory>
    ensures only { IfOk result (λ keys. (k : ℕ) → In k keys.items → IsSpentIn view.now k) }
    ensures all { IfOk result (λ keys. (k v : ℕ) → get nat_cmp view.now.last k ≡ Some v
        → IsSpentIn view.now k → In k keys.items) }
{
    let mut keys = Vec::new(alloc);
    for (key, _) in &view.last {
        add_spent(&mut keys, view, *key)?;
    }
    Ok(keys)
}

/// Adds a name to a list where the member must tell it to itself.
fn add_untold(
    names: &mut Vec<EntryName>,
    state: &GroupState,
    member: u32,
    view: &MemberView,
    name: EntryName,
    home: u32,
) -> Result<(), Memory>
    ensures { OnOk result ((k n : ℕ) → (has names.new.items k n ≡ true)
        ↔ ((has names.old.items k n ≡ true)
        ⊎ ((k ≡ name.key) × (n ≡ name.version) × (owner (place_of state.now) k ≡ member)
        × (home ≡ member) × IsDeadIn view.now k n))) }
{
    if home == member
        && owner_of(&state.layout, state.group, name.key) == member
        && is_dead(view, name.key, name.version)
    {
        names.push(name)?;
    }
    Ok(())
}

/// The names of dead entries of own keys in the own log.
fn names_to_tell(
    alloc: Global,
    state: &GroupState,
    member: u32,
    view: &MemberView,
) -> Result<Vec<EntryName>, Memory>
    ensures { IfOk result (λ names. (k n : ℕ) → (has names.items k n ≡ true)
        ↔ MustTell (place_of state.now) member view.now k n) }
{
    let mut names = Vec::new(alloc);
    for (name, home) in &view.present {
        let (key, version) = *name;
        let name = EntryName { key, version };
        add_untold(&mut names, state, member, view, name, *home)?;
    }
    Ok(names)
}

/// Takes the last versions of these keys out.
fn forget(last: &mut BTreeMap<Key, Version>, keys: &[Key])
    ensures gone { (k : ℕ) → In k keys.now → get nat_cmp last.new k ≡ None }
    ensures kept { (k : ℕ) → (In k keys.now → ⊥) → get nat_cmp last.new k ≡ get nat_cmp last.old k }
{
    for key in keys {
        last.remove(key);
    }
}

/// Applies both rules to the member's own keys.
pub fn tidy(alloc: Global, state: &mut GroupState, member: u32) -> Result<(), Memory>
    requires { member < state.old.layout.group }
    ensures { OnOk result (Tidied (group_of state.old) member (group_of state.new)) }
{
    let view = &state.views[member as usize];
    let spent = spent_keys(alloc, view)?;
    let names = names_to_tell(alloc, state, member, view)?;
    let view = &mut state.views[member as usize];
    forget(&mut view.last, &spent);
    view.told.extend_from_slice(&names)?;
    view.dead.extend_from_slice(&names)?;
    Ok(())
}
