// Lists of names as sets.
ghost use Rattle.std.specs.Prelude.{◌≡◌, ◌⊎◌, ℕ, IfOk, OnOk, IsTrue, ◌↔◌, ◌&&◌, not, true, false, None, cond, [], ◌∷◌, ◌++◌};
ghost use Rattle.std.specs.BTreeMap.{get};
ghost use Rattle.group_laws.specs.Updates.{has, without};
ghost use Rattle.group_machine.specs.Shows.{pair_cmp};

use crate::copies::copy_entry;
use fs_model::Memory;
use fs_model::model::{Key, Version};
use log_entry::entry::{Entry, EntryName};
use std::alloc::Global;
use std::collections::BTreeMap;

fn is_name(one: &EntryName, key: Key, version: Version) -> bool
    ensures { IsTrue result ↔ ((one.now.key ≡ key) × (one.now.version ≡ version)) }
{
    one.key == key && one.version == version
}

/// Whether a list has the name of this key and version.
pub fn has_name(list: &[EntryName], key: Key, version: Version) -> bool
    ensures { result ≡ has list.now key version }
{
    for name in list {
        if is_name(name, key, version) {
            return true;
        }
    }
    false
}

/// Whether a list has all these names.
pub fn has_all(list: &[EntryName], names: &[EntryName]) -> bool
    ensures { IsTrue result ↔ ((k n : ℕ) → has names.now k n ≡ true → has list.now k n ≡ true) }
{
    for name in names {
        if !has_name(list, name.key, name.version) {
            return false;
        }
    }
    true
}

/// Adds a name to a list unless it is one of these.
fn add_other(list: &mut Vec<EntryName>, name: EntryName, out: &[EntryName]) -> Result<(), Memory>
    ensures { OnOk result ((k n : ℕ) → (has list.new.items k n ≡ true)
        ↔ ((has list.old.items k n ≡ true)
        ⊎ ((k ≡ name.key) × (n ≡ name.version) × (has out.now k n ≡ false)))) }
{
    if !has_name(out, name.key, name.version) {
        list.push(name)?;
    }
    Ok(())
}

/// The names of a list but these.
pub fn names_but(
    alloc: Global,
    list: &[EntryName],
    out: &[EntryName],
) -> Result<Vec<EntryName>, Memory>
    ensures { IfOk result (λ left. (k n : ℕ)
        → has left.items k n ≡ (has list.now k n && not (has out.now k n))) }
{
    let mut left = Vec::new(alloc);
    for name in list {
        add_other(&mut left, *name, out)?;
    }
    Ok(left)
}

/// Adds an entry to a list unless its name is one of these.
fn add_entry(
    alloc: Global,
    list: &mut Vec<Entry>,
    entry: &Entry,
    out: &[EntryName],
) -> Result<(), Memory>
    ensures { OnOk result (list.new.items ≡ list.old.items ++ without out.now (entry.now ∷ [])) }
{
    if !has_name(out, entry.key, entry.version) {
        let entry = copy_entry(alloc, entry)?;
        list.push(entry)?;
    }
    Ok(())
}

/// The entries of a list but those of these names.
pub fn entries_but(alloc: Global, list: &[Entry], out: &[EntryName]) -> Result<Vec<Entry>, Memory>
    ensures { IfOk result (λ left. left.items ≡ without out.now list.now) }
{
    let mut left = Vec::new(alloc);
    for entry in list {
        add_entry(alloc, &mut left, entry, out)?;
    }
    Ok(left)
}

/// Takes these names out of a map.
pub fn take_out(present: &mut BTreeMap<(Key, Version), u32>, names: &[EntryName])
    ensures { (k n : ℕ) → get pair_cmp present.new (k, n) ≡ cond (has names.now k n) None
        (get pair_cmp present.old (k, n)) }
{
    for name in names {
        present.remove(&(name.key, name.version));
    }
}
