// Offering a change.
ghost use Rattle.std.specs.Prelude.{◌≡◌, ◌≢◌, ℕ, ◌+◌, ◌<◌, ◌≤◌, IfOk, OnOk, IsTrue, ◌↔◌, length, Some, None};
ghost use Rattle.std.specs.List.{AllByRecursion};
ghost use Rattle.std.specs.Ordering.{nat_cmp};
ghost use Rattle.std.specs.BTreeMap.{get};
ghost use Rattle.log_entry.specs.declared.entry.Entry.{Entry};
ghost use Rattle.log_entry.specs.declared.entry.Body.TheVariants.{Pointer, Tombstone};
ghost use Rattle.log_entry.specs.Spelling.{HasSpelling};
ghost use Rattle.group_laws.specs.declared.types.Block.{Block};
ghost use Rattle.group_laws.specs.declared.types.Slot.TheVariants.{Empty};
ghost use Rattle.group_laws.specs.Places.{owner, units, LiesIn, Apart, GetsBlock};
ghost use Rattle.group_laws.specs.Steps.{IsSlot, IsClear, CanPost, with_block};
ghost use Rattle.group_laws.specs.Runs.Kind.{Post};
ghost use Rattle.group_machine.specs.Shows.{group_of, last_in};
ghost use Rattle.group_machine.specs.Makes.{Makes};

use crate::copies::copy_entry;
use crate::member_places::{is_apart, lies_in, owner_of, units_of};
use crate::state::{GroupState, MemberView};
use crate::tables::has_member;
use chunk_map::layout_sizes::{LONGEST_VALUE, SHORTEST_IN_BLOCK};
use fs_model::Memory;
use fs_model::model::Value;
use group_laws::group_sizes::SLOTS;
use group_laws::types::{Block, Pending, Slot};
use log_entry::entry::{Body, Entry};
use log_entry::{LAST_DELETE_VERSION, LAST_PUT_VERSION, LONGEST_EMBEDDED};
use std::alloc::Global;
use std::collections::BTreeMap;

/// Whether a put may have this version.
fn is_put_version(version: u32) -> bool
    ensures { IsTrue result ↔ ((1 ≤ version) × (version ≤ LAST_PUT_VERSION)) }
{
    version >= 1 && version <= LAST_PUT_VERSION
}

/// Whether the bytes of a value stand in its entry.
fn is_short(bytes: &[u8]) -> bool
    ensures { IsTrue result ↔ ((length bytes.now ≤ LONGEST_EMBEDDED)
        × AllByRecursion (λ b. b < 256) bytes.now) }
{
    bytes.len() as u64 <= LONGEST_EMBEDDED
}

/// Whether the words of a log can spell an entry.
fn has_spelling(entry: &Entry) -> bool
    ensures { IsTrue result ↔ HasSpelling entry.now }
{
    // A read, so that the key is known to be a word.
    let _key = entry.key;
    match &entry.body {
        Body::Pointer(pointer) => is_put_version(entry.version) && *pointer < 1 << 40,
        Body::Embedded(value) => is_put_version(entry.version) && is_short(value.bytes()),
        Body::Tombstone => entry.version >= 2 && entry.version <= LAST_DELETE_VERSION,
    }
}

/// Whether a slot is empty.
fn is_empty(state: &GroupState, member: u32, slot: u32) -> bool
    ensures { IsTrue result ↔ ((group_of state.now).slot member slot ≡ Empty) }
{
    match state.slots.get(&(member, slot)) {
        None => true,
        Some(Slot::Empty) => true,
        Some(_) => false,
    }
}

/// Whether the key has no change under way, and the entry's version is its next one.
fn is_next(view: &MemberView, entry: &Entry) -> bool
    ensures { IsTrue result ↔ ((get nat_cmp view.now.pending entry.now.key ≡ None)
        × (entry.now.version ≡ last_in view.now entry.now.key + 1)) }
{
    let last = view.last.get(&entry.key).copied().unwrap_or(0);
    !view.pending.contains_key(&entry.key) && entry.version >= 1 && last == entry.version - 1
}

/// Whether a delete has something to delete.
fn is_useful(view: &MemberView, entry: &Entry) -> bool
    ensures { IsTrue result ↔ (entry.now.body ≡ Tombstone → get nat_cmp view.now.cell entry.now.key
        ≢ None) }
{
    match entry.body {
        Body::Tombstone => view.cell.contains_key(&entry.key),
        _ => true,
    }
}

/// Whether no block covers one of these units.
fn is_clear(blocks: &BTreeMap<u64, Block>, first: u64, count: u64) -> bool
    ensures { IsTrue result ↔ ((q : ℕ) (b : Block) → get nat_cmp blocks.now q ≡ Some b
        → Apart first count q (units (length b.bytes))) }
{
    for (pointer, block) in blocks {
        if !is_apart(first, count, *pointer, units_of(block.bytes.bytes().len())) {
            return false;
        }
    }
    true
}

/// Whether a block at a pointer, for a value of this length, lies in the own part and covers no other.
fn is_free_for(state: &GroupState, member: u32, pointer: u64, value: &Value) -> bool
    requires { member < state.now.layout.group }
    ensures { IsTrue result ↔ (GetsBlock (length value.now)
        × IsClear (group_of state.now) member pointer value.now) }
{
    let length = value.bytes().len();
    if (length as u64) < SHORTEST_IN_BLOCK || length as u64 > LONGEST_VALUE {
        return false;
    }
    let count = units_of(length);
    if !lies_in(&state.layout, state.group, member, pointer, count) {
        return false;
    }
    is_clear(&state.views[member as usize].blocks, pointer, count)
}

/// Whether the block that an entry points to, where it does, may be had for the value.
fn has_free_block(state: &GroupState, member: u32, entry: &Entry, value: &Value) -> bool
    requires { member < state.now.layout.group }
    ensures { IsTrue result ↔ ((p : ℕ) → entry.now.body ≡ Pointer p → GetsBlock (length value.now)
        × IsClear (group_of state.now) member p value.now) }
{
    match entry.body {
        Body::Pointer(pointer) => is_free_for(state, member, pointer, value),
        _ => true,
    }
}

/// Whether a member may offer this entry in this slot.
fn may_post(state: &GroupState, member: u32, slot: u32, entry: &Entry, value: &Value) -> bool
    ensures { IsTrue result ↔ CanPost (group_of state.now) member slot entry.now value.now }
{
    if !has_member(state, member) || slot >= SLOTS || !is_empty(state, member, slot) {
        return false;
    }
    if !has_spelling(entry) || owner_of(&state.layout, state.group, entry.key) != member {
        return false;
    }
    let view = &state.views[member as usize];
    if view.broken || !is_next(view, entry) || !is_useful(view, entry) {
        return false;
    }
    has_free_block(state, member, entry, value)
}

/// Adds the block that an entry points to, where it does.
fn add_block(blocks: &mut BTreeMap<u64, Block>, entry: &Entry, bytes: Value) -> Result<(), Memory>
    ensures { OnOk result ((q : ℕ) → get nat_cmp blocks.new q ≡ with_block entry.now.key bytes
        entry.now.body (get nat_cmp blocks.old) q) }
{
    match entry.body {
        Body::Pointer(pointer) => {
            let key = entry.key;
            blocks.insert(pointer, Block { key, bytes })?;
            Ok(())
        }
        _ => Ok(()),
    }
}

/// Offers an entry of an own key in an own slot. `value` is what its block holds, where it points to one.
pub fn post(
    alloc: Global,
    state: &mut GroupState,
    member: u32,
    slot: u32,
    entry: &Entry,
    value: &Value,
) -> Result<bool, Memory>
    ensures { IfOk result (λ made. Makes made state.old member (Post slot entry.now value.now)
        state.new) }
{
    if !may_post(state, member, slot, entry, value) {
        return Ok(false);
    }
    let offered = copy_entry(alloc, entry)?;
    let waiting = copy_entry(alloc, entry)?;
    let posted = copy_entry(alloc, entry)?;
    let bytes = value.copy(alloc)?;
    state.slots.insert((member, slot), Slot::Posted(offered))?;
    let view = &mut state.views[member as usize];
    let pending = Pending {
        entry: waiting,
        slot: Some(slot),
    };
    view.pending.insert(entry.key, pending)?;
    add_block(&mut view.blocks, entry, bytes)?;
    view.posted.push(posted)?;
    view.looked.clear();
    Ok(true)
}
