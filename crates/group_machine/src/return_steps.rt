// Giving changes back: a leader marks them done or failed, an owner withdraws its own.
ghost use Rattle.std.specs.Prelude.{◌≡◌, ℕ, IfOk, OnOk, IsTrue, ◌↔◌, Option, Some, None, cond, true};
ghost use Rattle.std.specs.Ordering.{nat_cmp};
ghost use Rattle.std.specs.BTreeMap.{get};
ghost use Rattle.store_image.specs.Facts.{In};
ghost use Rattle.log_entry.specs.declared.entry.Entry.{Entry};
ghost use Rattle.group_laws.specs.declared.types.Slot.TheVariants.{Posted};
ghost use Rattle.group_laws.specs.Steps.{CanWithdraw, points_at};
ghost use Rattle.group_laws.specs.Runs.Kind.{Mark, Fail, Withdraw};
ghost use Rattle.group_machine.specs.Shows.{group_of};
ghost use Rattle.group_machine.specs.Makes.{Makes};

use crate::copies::copy_entry;
use crate::member_places::owner_of;
use crate::state::GroupState;
use crate::tables::{has_member, has_slot, posted_at, saw};
use fs_model::Memory;
use group_board::words_in;
use group_laws::types::{Block, Seen, Slot, SlotWord};
use log_entry::entry::{Body, Entry};
use std::alloc::Global;
use std::collections::BTreeMap;

/// Whether two bodies are the same.
fn is_same_body(one: &Body, other: &Body) -> bool
    ensures { IsTrue result ↔ (one.now ≡ other.now) }
{
    match one {
        Body::Pointer(pointer) => match other {
            Body::Pointer(second) => pointer == second,
            _ => false,
        },
        Body::Embedded(value) => match other {
            Body::Embedded(second) => value.bytes() == second.bytes(),
            _ => false,
        },
        Body::Tombstone => match other {
            Body::Tombstone => true,
            _ => false,
        },
    }
}

/// Whether two entries are the same.
fn is_same_entry(one: &Entry, other: &Entry) -> bool
    ensures { IsTrue result ↔ (one.now ≡ other.now) }
{
    one.key == other.key && one.version == other.version && is_same_body(&one.body, &other.body)
}

/// Whether an entry stands in a list.
fn contains(entries: &[Entry], entry: &Entry) -> bool
    ensures { IsTrue result ↔ In entry.now entries.now }
{
    for other in entries {
        if is_same_entry(entry, other) {
            return true;
        }
    }
    false
}

/// The entry that a member took from a slot and did not give back.
fn taken_at(
    alloc: Global,
    state: &GroupState,
    member: u32,
    owner: u32,
    slot: u32,
) -> Result<Option<Entry>, Memory>
    ensures { IfOk result (λ e. e ≡ (group_of state.now).taken member owner slot) }
{
    let Some(view) = state.views.get(member as usize) else {
        return Ok(None);
    };
    match view.taken.get(&(owner, slot)) {
        Some(entry) => {
            let entry = copy_entry(alloc, entry)?;
            Ok(Some(entry))
        }
        None => Ok(None),
    }
}

/// Gives a change back that is certain in the own log.
pub fn mark(
    alloc: Global,
    state: &mut GroupState,
    member: u32,
    owner: u32,
    slot: u32,
) -> Result<bool, Memory>
    ensures { IfOk result (λ made. Makes made state.old member (Mark owner slot) state.new) }
{
    if !has_member(state, member) || !has_slot(state, owner, slot) {
        return Ok(false);
    }
    let Some(entry) = taken_at(alloc, state, member, owner, slot)? else {
        return Ok(false);
    };
    if !contains(&state.views[member as usize].kept, &entry) {
        return Ok(false);
    }
    state
        .slots
        .insert((owner, slot), Slot::Done(entry, member))?;
    let view = &mut state.views[member as usize];
    view.taken.remove(&(owner, slot));
    view.looked.clear();
    Ok(true)
}

/// Gives a change back that could not be written.
pub fn fail(
    alloc: Global,
    state: &mut GroupState,
    member: u32,
    owner: u32,
    slot: u32,
) -> Result<bool, Memory>
    ensures { IfOk result (λ made. Makes made state.old member (Fail owner slot) state.new) }
{
    if !has_member(state, member) || !has_slot(state, owner, slot) {
        return Ok(false);
    }
    let Some(entry) = taken_at(alloc, state, member, owner, slot)? else {
        return Ok(false);
    };
    if !contains(&state.views[member as usize].flying, &entry) {
        return Ok(false);
    }
    state.slots.insert((owner, slot), Slot::Failed(entry))?;
    let view = &mut state.views[member as usize];
    view.taken.remove(&(owner, slot));
    view.broken = true;
    view.looked.clear();
    Ok(true)
}

/// Whether the member may take back the entry that is posted in a slot of its own.
fn may_withdraw(state: &GroupState, member: u32, slot: u32, entry: &Entry) -> bool
    ensures { (group_of state.now).slot member slot ≡ Posted entry.now
        → IsTrue result ↔ CanWithdraw (group_of state.now) member slot entry.now }
{
    if !has_slot(state, member, slot) || owner_of(&state.layout, state.group, entry.key) != member {
        return false;
    }
    let view = &state.views[member as usize];
    let posted = SlotWord::Posted(words_in(entry));
    view.holds && saw(&view.looked, Seen::Slot(member, slot, posted))
}

/// Takes the block out that a body points to, where it does.
fn drop_block(blocks: &mut BTreeMap<u64, Block>, body: &Body)
    ensures { (q : ℕ) → get nat_cmp blocks.new q ≡ cond (points_at body.now q) None
        (get nat_cmp blocks.old q) }
{
    if let Body::Pointer(pointer) = body {
        blocks.remove(pointer);
    }
}

/// Takes back a posted change of an own slot.
pub fn withdraw(
    alloc: Global,
    state: &mut GroupState,
    member: u32,
    slot: u32,
) -> Result<bool, Memory>
    ensures { IfOk result (λ made. Makes made state.old member (Withdraw slot) state.new) }
{
    let Some(entry) = posted_at(alloc, state, member, slot)? else {
        return Ok(false);
    };
    if !may_withdraw(state, member, slot, &entry) {
        return Ok(false);
    }
    state.slots.insert((member, slot), Slot::Empty)?;
    let view = &mut state.views[member as usize];
    view.pending.remove(&entry.key);
    drop_block(&mut view.blocks, &entry.body);
    view.looked.clear();
    Ok(true)
}
