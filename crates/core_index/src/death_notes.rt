// Dead entries on their way to be told.
ghost use Rattle.std.specs.Prelude.{◌≡◌, true, false, ℕ, ◌+◌, ◌≤◌, Some, IfSome, IfNone};
ghost use Rattle.log_entry.specs.declared.entry.EntryName.{EntryName};
ghost use Rattle.core_index.specs.Records.{Awaits};
ghost use Rattle.core_index.specs.Slots.{count_dead, standee_with};
ghost use Rattle.core_index.specs.Noted.{Noted, name_with};
ghost use Rattle.core_index.specs.Tombs.{tomb_home, tomb_version, key_of, name_of};
ghost use Rattle.core_index.specs.Starts.{IsAhead};
ghost use Rattle.core_index.specs.Index.{IsIndex, Tells, ToldAt, all_places, all_mortal, all_untold, known_at};

use crate::compact::tell_in;
use crate::death_notices::DeathNotices;
use crate::slot_map::SlotMap;
use crate::start_keys::StartKeys;
use crate::tombstones::{home_of, name_of};
use crate::types::{Standee, Tombstone};
use fs_model::Key;
use log_entry::EntryName;

/// Notes an entry that died, where one did.
pub fn note_dead(notices: &mut DeathNotices, key: Key, dead: Option<Standee>)
    requires { count_dead dead ≤ notices.old.spare }
    ensures added { (v h : ℕ) → dead ≡ Some (standee_with v h)
        → Noted notices.new h (name_with key v) }
    ensures kept { (h : ℕ) (n : EntryName) → Noted notices.old h n → Noted notices.new h n }
    ensures spare { notices.new.spare + count_dead dead ≡ notices.old.spare }
{
    if let Some(standee) = dead {
        let name = EntryName {
            key,
            version: standee.version,
        };
        notices.push(standee.home, name);
    }
}

/// Tells a home of a dead entry. A name that is noted and does not wait any more is passed over.
pub fn next_dead(
    slots: &mut SlotMap,
    start: &mut StartKeys,
    notices: &mut DeathNotices,
    home: u32,
) -> Option<EntryName>
    requires { IsIndex slots.old.entries start.old notices.old }
    ensures index { IsIndex slots.new.entries start.new notices.new }
    ensures told { IfSome result (λ name. Tells (all_places slots.old.entries start.old)
        (all_places slots.new.entries start.new) home name) }
    ensures fewer { IfSome result (λ _. all_untold (all_places slots.new.entries start.new) + 1
        ≡ all_untold (all_places slots.old.entries start.old)) }
    ensures none { IfNone result ((name : EntryName) → ¬ Awaits
        (known_at (all_places slots.old.entries start.old) name.key) home name.version) }
    ensures unchanged { IfNone result (all_places slots.new.entries start.new
        ≡ all_places slots.old.entries start.old) }
{
    while let Some(name) = notices.take(home) {
        if tell_in(slots, start, name, home) {
            return Some(name);
        }
    }
    next_deleted(slots, start, notices, home)
}

// The same where no name is noted for the home: of the keys that were deleted before the start.
fn next_deleted(
    slots: &mut SlotMap,
    start: &mut StartKeys,
    notices: &DeathNotices,
    home: u32,
) -> Option<EntryName>
    requires index { IsIndex slots.old.entries start.old notices.now }
    requires none { (name : EntryName) → ¬ Noted notices.now home name }
    ensures index { IsIndex slots.new.entries start.new notices.now }
    ensures told { IfSome result (λ name. Tells (all_places slots.old.entries start.old)
        (all_places slots.new.entries start.new) home name) }
    ensures fewer { IfSome result (λ _. all_untold (all_places slots.new.entries start.new) + 1
        ≡ all_untold (all_places slots.old.entries start.old)) }
    ensures none { IfNone result ((name : EntryName) → ¬ Awaits
        (known_at (all_places slots.old.entries start.old) name.key) home name.version) }
    ensures unchanged { IfNone result (all_places slots.new.entries start.new
        ≡ all_places slots.old.entries start.old) }
{
    while let Some(tombstone) = start.pass(home) {
        if tell_passed(slots, start, &tombstone, home) {
            return Some(name_of(&tombstone));
        }
    }
    None
}

// Tells a home of such a key's entry, where it waits to be told to this home.
fn tell_passed(slots: &mut SlotMap, start: &mut StartKeys, tombstone: &Tombstone, home: u32) -> bool
    ensures told { result ≡ true → ToldAt (all_places slots.old.entries start.old)
        (all_places slots.new.entries start.new) home (name_of tombstone.now) }
    ensures mortal { result ≡ true → all_mortal slots.new.entries ≤ all_mortal slots.old.entries }
    ensures ahead { (h : ℕ) (n : EntryName) → IsAhead start.old h n → IsAhead start.new h n }
    ensures none { result ≡ false → tomb_home tombstone.now ≡ home → ¬ Awaits
        (known_at (all_places slots.old.entries start.old) (key_of tombstone.now)) home
        (tomb_version tombstone.now) }
    ensures unchanged { result ≡ false → slots.new.entries ≡ slots.old.entries }
    ensures unchanged_left { result ≡ false → start.new ≡ start.old }
{
    if home_of(tombstone) != home {
        return false;
    }
    tell_in(slots, start, name_of(tombstone), home)
}
