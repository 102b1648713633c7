// The steps of a leader: taking the lock, taking what others posted, making it certain, giving the lock back.
ghost use Rattle.std.specs.Prelude.{◌≡◌, ℕ, IfOk, IsTrue, ◌↔◌, Some, None, true, false};
ghost use Rattle.group_laws.specs.declared.types.Slot.TheVariants.{Posted};
ghost use Rattle.group_laws.specs.State.{Group};
ghost use Rattle.group_laws.specs.Steps.{CanLock, CanTake, CanUnlock, CanCommit};
ghost use Rattle.group_laws.specs.Runs.Kind.{Lock, Look, LookMail, Take, Unlock, Commit};
ghost use Rattle.group_machine.specs.Shows.{group_of};
ghost use Rattle.group_machine.specs.Makes.{Makes};

use crate::copies::copy_entry;
use crate::state::GroupState;
use crate::tables::{has_member, mail_at, posted_at, saw, word_at};
use fs_model::Memory;
use group_board::words_in;
use group_laws::group_sizes::SLOTS;
use group_laws::types::{Seen, Slot, SlotWord};
use log_entry::entry::Entry;
use std::alloc::Global;

fn may_unlock(state: &GroupState, member: u32) -> bool
    ensures { IsTrue result ↔ CanUnlock (group_of state.now) member }
{
    has_member(state, member) && state.views[member as usize].holds
}

/// Gives the lock back.
pub fn unlock(state: &mut GroupState, member: u32) -> bool
    ensures { Makes result state.old member Unlock state.new }
{
    if !may_unlock(state, member) {
        return false;
    }
    let view = &mut state.views[member as usize];
    view.holds = false;
    view.looked.clear();
    state.holder = None;
    true
}

fn may_commit(state: &GroupState, member: u32) -> bool
    ensures { IsTrue result ↔ CanCommit (group_of state.now) member }
{
    has_member(state, member) && !state.views[member as usize].broken
}

/// Makes certain what the member took.
pub fn commit(state: &mut GroupState, member: u32) -> Result<bool, Memory>
    ensures { IfOk result (λ made. Makes made state.old member Commit state.new) }
{
    if !may_commit(state, member) {
        return Ok(false);
    }
    let view = &mut state.views[member as usize];
    view.kept.append(&mut view.flying)?;
    view.looked.clear();
    Ok(true)
}

fn may_lock(state: &GroupState, member: u32) -> bool
    ensures { IsTrue result ↔ CanLock (group_of state.now) member }
{
    if !has_member(state, member) {
        return false;
    }
    let view = &state.views[member as usize];
    !view.holds && view.taken.is_empty()
}

/// Makes the member the leader, or lets it know who is.
pub fn lock(state: &mut GroupState, member: u32) -> Result<bool, Memory>
    ensures { IfOk result (λ made. Makes made state.old member Lock state.new) }
{
    if !may_lock(state, member) {
        return Ok(false);
    }
    if let Some(holder) = state.holder {
        let view = &mut state.views[member as usize];
        view.looked.push(Seen::Holder(holder))?;
        return Ok(true);
    }
    let view = &mut state.views[member as usize];
    view.holds = true;
    view.looked.clear();
    state.holder = Some(member);
    Ok(true)
}

/// Loads the word of a slot.
pub fn look_at_slot(
    state: &mut GroupState,
    member: u32,
    owner: u32,
    slot: u32,
) -> Result<bool, Memory>
    ensures { IfOk result (λ made. Makes made state.old member (Look owner slot) state.new) }
{
    if !has_member(state, member) || !has_member(state, owner) || slot >= SLOTS {
        return Ok(false);
    }
    let word = word_at(state, owner, slot);
    let view = &mut state.views[member as usize];
    view.looked.push(Seen::Slot(owner, slot, word))?;
    Ok(true)
}

/// Loads the word of a mailbox.
pub fn look_at_mail(state: &mut GroupState, member: u32, from: u32, to: u32) -> Result<bool, Memory>
    ensures { IfOk result (λ made. Makes made state.old member (LookMail from to) state.new) }
{
    if !has_member(state, member) || !has_member(state, from) || !has_member(state, to) {
        return Ok(false);
    }
    let full = mail_at(state, from, to);
    let view = &mut state.views[member as usize];
    view.looked.push(Seen::Mail(from, to, full))?;
    Ok(true)
}

/// Whether the member may take the entry that is posted in a slot.
fn may_take_from(state: &GroupState, member: u32, owner: u32, slot: u32, entry: &Entry) -> bool
    ensures { (group_of state.now).slot owner slot ≡ Posted entry.now
        → IsTrue result ↔ CanTake (group_of state.now) member owner slot entry.now }
{
    if !has_member(state, member) || !has_member(state, owner) || slot >= SLOTS {
        return false;
    }
    let view = &state.views[member as usize];
    let posted = SlotWord::Posted(words_in(entry));
    view.holds && !view.broken && saw(&view.looked, Seen::Slot(owner, slot, posted))
}

/// Takes the change of a slot that the leader saw Posted.
pub fn take(
    alloc: Global,
    state: &mut GroupState,
    member: u32,
    owner: u32,
    slot: u32,
) -> Result<bool, Memory>
    ensures { IfOk result (λ made. Makes made state.old member (Take owner slot) state.new) }
{
    let Some(entry) = posted_at(alloc, state, owner, slot)? else {
        return Ok(false);
    };
    if !may_take_from(state, member, owner, slot, &entry) {
        return Ok(false);
    }
    let flying = copy_entry(alloc, &entry)?;
    let took = copy_entry(alloc, &entry)?;
    state.slots.insert((owner, slot), Slot::Taken)?;
    let view = &mut state.views[member as usize];
    view.flying.push(flying)?;
    view.took.push(took)?;
    view.taken.insert((owner, slot), entry)?;
    view.looked.clear();
    Ok(true)
}
