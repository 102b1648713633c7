// Finishing a change: its owner takes it back from the slot, done or failed.
ghost use Rattle.std.specs.Prelude.{◌≡◌, ◌⊎◌, ℕ, ◌<◌, IfOk, OnOk, IsTrue, ◌↔◌, Option, Some, None, true, ◌&&◌, not};
ghost use Rattle.std.specs.Ordering.{nat_cmp};
ghost use Rattle.std.specs.BTreeMap.{get};
ghost use Rattle.store_image.specs.Facts.{In};
ghost use Rattle.log_entry.specs.declared.entry.Entry.{Entry};
ghost use Rattle.group_laws.specs.declared.types.Block.{Block};
ghost use Rattle.group_laws.specs.declared.types.Slot.TheVariants.{Done, Failed};
ghost use Rattle.group_laws.specs.declared.types.SlotWord.TheVariants as words;
ghost use Rattle.group_laws.specs.Places.{owner};
ghost use Rattle.group_laws.specs.Updates.{put};
ghost use Rattle.group_laws.specs.Steps.{CanFinish, CanGiveUp, finishes, gives_up, is_of, points_at, only_own};
ghost use Rattle.group_laws.specs.Runs.Kind.{Finish};
ghost use Rattle.group_machine.specs.Shows.{group_of, place_of};
ghost use Rattle.group_machine.specs.Makes.{Makes};
ghost use Rattle.group_machine.specs.Finds.{done_in, failed_in, left_in};

use crate::copies::copy_entry;
use crate::member_places::owner_of;
use crate::state::GroupState;
use crate::tables::{has_slot, saw};
use crate::tidy_rules::tidy;
use fs_model::Memory;
use fs_model::model::{Key, Value};
use group_laws::types::{Block, Pending, Seen, Slot, SlotWord};
use log_entry::entry::{Body, Entry};
use std::alloc::Global;
use std::collections::BTreeMap;

/// The entry of a slot that is Done, and its home.
fn done_at(
    alloc: Global,
    state: &GroupState,
    member: u32,
    slot: u32,
) -> Result<Option<(Entry, u32)>, Memory>
    ensures { IfOk result (λ e. e ≡ done_in ((group_of state.now).slot member slot)) }
{
    match state.slots.get(&(member, slot)) {
        Some(Slot::Done(entry, home)) => {
            let entry = copy_entry(alloc, entry)?;
            Ok(Some((entry, *home)))
        }
        _ => Ok(None),
    }
}

/// The entry of a slot that is Failed.
fn failed_at(
    alloc: Global,
    state: &GroupState,
    member: u32,
    slot: u32,
) -> Result<Option<Entry>, Memory>
    ensures { IfOk result (λ e. e ≡ failed_in ((group_of state.now).slot member slot)) }
{
    match state.slots.get(&(member, slot)) {
        Some(Slot::Failed(entry)) => {
            let entry = copy_entry(alloc, entry)?;
            Ok(Some(entry))
        }
        _ => Ok(None),
    }
}

/// Whether the member may take back its own entry, of whose slot it saw this word.
fn may_take_back(state: &GroupState, member: u32, slot: u32, entry: &Entry, word: SlotWord) -> bool
    ensures done { (home : ℕ) → word ≡ words.Done home → (group_of state.now).slot member slot
        ≡ Done entry.now home → IsTrue result ↔ CanFinish (group_of state.now) member slot entry.now
        home }
    ensures failed { word ≡ words.Failed → (group_of state.now).slot member slot ≡ Failed entry.now
        → IsTrue result ↔ CanGiveUp (group_of state.now) member slot entry.now }
{
    if !has_slot(state, member, slot) || owner_of(&state.layout, state.group, entry.key) != member {
        return false;
    }
    saw(
        &state.views[member as usize].looked,
        Seen::Slot(member, slot, word),
    )
}

/// The value that a body leaves, by these blocks. None for a tombstone.
fn left_by(
    alloc: Global,
    blocks: &BTreeMap<u64, Block>,
    body: &Body,
) -> Result<Option<Value>, Memory>
    ensures { IfOk result (λ left. left ≡ left_in (get nat_cmp blocks.now) body.now) }
{
    match body {
        Body::Pointer(pointer) => match blocks.get(pointer) {
            Some(block) => {
                let bytes = block.bytes.copy(alloc)?;
                Ok(Some(bytes))
            }
            None => Ok(None),
        },
        Body::Embedded(value) => {
            let value = value.copy(alloc)?;
            Ok(Some(value))
        }
        Body::Tombstone => Ok(None),
    }
}

/// Sets the cell of a key.
fn set_cell(cell: &mut BTreeMap<Key, Value>, key: Key, left: Option<Value>) -> Result<(), Memory>
    ensures { OnOk result ((k : ℕ) → get nat_cmp cell.new k ≡ put (get nat_cmp cell.old) key left
        k) }
{
    if let Some(value) = left {
        cell.insert(key, value)?;
        return Ok(());
    }
    cell.remove(&key);
    Ok(())
}

/// Whether a block is of the key and another one than the body points to.
fn is_replaced(block: &Block, pointer: u64, key: Key, body: &Body) -> bool
    ensures { result ≡ (is_of key (Some block.now) && not (points_at body.now pointer)) }
{
    if block.key != key {
        return false;
    }
    match body {
        Body::Pointer(own) => *own != pointer,
        _ => true,
    }
}

/// Adds a pointer to a list where its block is replaced.
fn add_replaced(
    pointers: &mut Vec<u64>,
    block: &Block,
    pointer: u64,
    key: Key,
    body: &Body,
) -> Result<(), Memory>
    ensures { OnOk result ((q : ℕ) → In q pointers.new.items ↔ (In q pointers.old.items
        ⊎ ((q ≡ pointer) × ((is_of key (Some block.now) && not (points_at body.now q)) ≡ true)))) }
{
    if is_replaced(block, pointer, key, body) {
        pointers.push(pointer)?;
    }
    Ok(())
}

/// The pointers of the key's blocks but the one that the body points to.
fn replaced(
    alloc: Global,
    blocks: &BTreeMap<u64, Block>,
    key: Key,
    body: &Body,
) -> Result<Vec<u64>, Memory>
    ensures only { IfOk result (λ ps. (q : ℕ) → In q ps.items
        → (is_of key (get nat_cmp blocks.now q) && not (points_at body.now q)) ≡ true) }
    ensures all { IfOk result (λ ps. (q : ℕ) (b : Block) → get nat_cmp blocks.now q ≡ Some b
        → (is_of key (Some b) && not (points_at body.now q)) ≡ true → In q ps.items) }
{
    let mut pointers = Vec::new(alloc);
    for (pointer, block) in blocks {
        add_replaced(&mut pointers, block, *pointer, key, body)?;
    }
    Ok(pointers)
}

/// Takes the blocks at these pointers out.
fn drop_blocks(blocks: &mut BTreeMap<u64, Block>, pointers: &[u64])
    ensures gone { (q : ℕ) → In q pointers.now → get nat_cmp blocks.new q ≡ None }
    ensures kept { (q : ℕ) → (In q pointers.now → ⊥) → get nat_cmp blocks.new q
        ≡ get nat_cmp blocks.old q }
{
    for pointer in pointers {
        blocks.remove(pointer);
    }
}

/// Takes the key's blocks out but the one that the body points to.
fn drop_replaced(
    alloc: Global,
    blocks: &mut BTreeMap<u64, Block>,
    key: Key,
    body: &Body,
) -> Result<(), Memory>
    ensures { OnOk result ((q : ℕ) → get nat_cmp blocks.new q ≡ only_own key body.now
        (get nat_cmp blocks.old) q) }
{
    let pointers = replaced(alloc, blocks, key, body)?;
    drop_blocks(blocks, &pointers);
    Ok(())
}

/// Records a change as finished: its version, its cell, its home, its block in place of the old one.
fn settle(
    alloc: Global,
    state: &mut GroupState,
    member: u32,
    slot: u32,
    entry: &Entry,
    home: u32,
) -> Result<(), Memory>
    requires member { member < state.old.layout.group }
    requires own { owner (place_of state.old) entry.now.key ≡ member }
    ensures { OnOk result (group_of state.new ≡ finishes (group_of state.old) member slot entry.now
        home) }
{
    state.slots.insert((member, slot), Slot::Empty)?;
    let view = &mut state.views[member as usize];
    let left = left_by(alloc, &view.blocks, &entry.body)?;
    set_cell(&mut view.cell, entry.key, left)?;
    drop_replaced(alloc, &mut view.blocks, entry.key, &entry.body)?;
    view.last.insert(entry.key, entry.version)?;
    view.present.insert((entry.key, entry.version), home)?;
    view.pending.remove(&entry.key);
    view.looked.clear();
    Ok(())
}

/// Records a change as in doubt, and that its owner writes no more.
fn doubt(state: &mut GroupState, member: u32, slot: u32, entry: Entry) -> Result<(), Memory>
    requires member { member < state.old.layout.group }
    requires own { owner (place_of state.old) entry.key ≡ member }
    ensures { OnOk result (group_of state.new ≡ gives_up (group_of state.old) member slot entry) }
{
    state.slots.insert((member, slot), Slot::Empty)?;
    let view = &mut state.views[member as usize];
    let key = entry.key;
    view.pending.insert(key, Pending { entry, slot: None })?;
    view.broken = true;
    view.looked.clear();
    Ok(())
}

/// Finishes a change that is done, where the member saw its slot so.
fn finish_done(
    alloc: Global,
    state: &mut GroupState,
    member: u32,
    slot: u32,
    entry: &Entry,
    home: u32,
) -> Result<bool, Memory>
    requires { (group_of state.old).slot member slot ≡ Done entry.now home }
    ensures { IfOk result (λ made. Makes made state.old member (Finish slot) state.new) }
{
    if !may_take_back(state, member, slot, entry, SlotWord::Done(home)) {
        return Ok(false);
    }
    settle(alloc, state, member, slot, entry, home)?;
    tidy(alloc, state, member)?;
    Ok(true)
}

/// Finishes a change that failed, where the member saw its slot so.
fn finish_failed(
    alloc: Global,
    state: &mut GroupState,
    member: u32,
    slot: u32,
    entry: Entry,
) -> Result<bool, Memory>
    requires { (group_of state.old).slot member slot ≡ Failed entry }
    ensures { IfOk result (λ made. Makes made state.old member (Finish slot) state.new) }
{
    if !may_take_back(state, member, slot, &entry, SlotWord::Failed) {
        return Ok(false);
    }
    doubt(state, member, slot, entry)?;
    tidy(alloc, state, member)?;
    Ok(true)
}

/// Takes back a change of an own slot that the member saw Done or Failed.
pub fn finish(alloc: Global, state: &mut GroupState, member: u32, slot: u32) -> Result<bool, Memory>
    ensures { IfOk result (λ made. Makes made state.old member (Finish slot) state.new) }
{
    if let Some((entry, home)) = done_at(alloc, state, member, slot)? {
        return finish_done(alloc, state, member, slot, &entry, home);
    }
    if let Some(entry) = failed_at(alloc, state, member, slot)? {
        return finish_failed(alloc, state, member, slot, entry);
    }
    Ok(false)
}
