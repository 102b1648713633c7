// Reading the shared words of a group.
ghost use Rattle.std.specs.Prelude.{◌≡◌, ◌↔◌, ◌<◌, IsTrue, IfOk, Some, None};
ghost use Rattle.store_image.specs.Facts.{In};
ghost use Rattle.group_laws.specs.State.{word_shown, is_full};
ghost use Rattle.group_laws.specs.Steps.{IsSlot};
ghost use Rattle.group_machine.specs.Shows.{group_of};
ghost use Rattle.group_machine.specs.Finds.{posted_in};

use crate::copies::copy_entry;
use crate::state::GroupState;
use fs_model::Memory;
use group_board::word_of;
use group_laws::group_sizes::SLOTS;
use group_laws::types::{Seen, Slot, SlotWord};
use log_entry::entry::Entry;
use std::alloc::Global;

/// Whether the group has this member.
pub fn has_member(state: &GroupState, member: u32) -> bool
    ensures { IsTrue result ↔ (member < state.now.layout.group) }
{
    (member as usize) < state.views.len()
}

/// Whether the group has this slot.
pub fn has_slot(state: &GroupState, member: u32, slot: u32) -> bool
    ensures { IsTrue result ↔ IsSlot (group_of state.now) member slot }
{
    has_member(state, member) && slot < SLOTS
}

/// Whether two loads found the same.
fn is_same(one: &Seen, other: &Seen) -> bool
    ensures { IsTrue result ↔ (one.now ≡ other.now) }
{
    one == other
}

/// Whether one of the loads found this.
pub fn saw(looked: &[Seen], what: Seen) -> bool
    ensures { IsTrue result ↔ In what looked.now }
{
    for seen in looked {
        if is_same(seen, &what) {
            return true;
        }
    }
    false
}

/// What the word of a slot of the group tells.
pub fn word_at(state: &GroupState, member: u32, slot: u32) -> SlotWord
    ensures { result ≡ word_shown ((group_of state.now).slot member slot) }
{
    match state.slots.get(&(member, slot)) {
        Some(slot) => word_of(slot),
        None => SlotWord::Empty,
    }
}

/// Whether a mailbox is full.
pub fn mail_at(state: &GroupState, from: u32, to: u32) -> bool
    ensures { result ≡ is_full ((group_of state.now).mail from to) }
{
    state.mail.contains_key(&(from, to))
}

/// The entry of a slot that is Posted.
pub fn posted_at(
    alloc: Global,
    state: &GroupState,
    member: u32,
    slot: u32,
) -> Result<Option<Entry>, Memory>
    ensures { IfOk result (λ e. e ≡ posted_in ((group_of state.now).slot member slot)) }
{
    match state.slots.get(&(member, slot)) {
        Some(Slot::Posted(entry)) => {
            let entry = copy_entry(alloc, entry)?;
            Ok(Some(entry))
        }
        _ => Ok(None),
    }
}
