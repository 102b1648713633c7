// One step, and lists of steps.
ghost use Rattle.std.specs.Prelude.{◌≡◌, ◌<◌, ◌≤◌, IfOk, IsTrue, ◌↔◌, None};
ghost use Rattle.group_laws.specs.Invariant.{Lawful};
ghost use Rattle.group_machine.specs.Shows.{group_of};
ghost use Rattle.group_machine.specs.Makes.{Makes};
ghost use Rattle.group_machine.specs.Steps.{MakesStep, IsOutcome, IsRun};
ghost use Rattle.group_machine.specs.Words.{IsWordOf};
ghost use Rattle.group_machine.specs.declared.kinds.Kind.TheVariants as kinds;

use crate::cleaning::{doom, receive, retire, send};
use crate::finishing::finish;
use crate::kinds::{Kind, MemberStep, StepError, StepsError};
use crate::leader_steps::{commit, lock, look_at_mail, look_at_slot, take, unlock};
use crate::post_step::post;
use crate::return_steps::{fail, mark, withdraw};
use crate::state::GroupState;
use crate::tables::has_member;
use fs_model::Memory;
use fs_model::model::Value;
use group_board::Change;
use group_laws::group_sizes::{LOCK_WORDS, SLOTS};
use std::alloc::Global;

/// A word of a group's table that guards something.
#[derive(Clone, Copy)]
pub enum Word {
    /// Of a slot: its member and number.
    Slot(u32, u32),
    /// Of a mailbox: its sender and receiver.
    Mail(u32, u32),
}

/// The slot or mailbox that the word with this number guards, in a table of so many members.
fn word_numbered(members: u32, word: u64) -> Option<Word>
    ensures { IsWordOf members word result }
{
    let n = members as u64;
    let slots = SLOTS as u64;
    let first_slot = LOCK_WORDS as u64 + n;
    if word < first_slot {
        return None;
    }
    let slot = word - first_slot;
    if slot < slots * n {
        return Some(Word::Slot((slot / slots) as u32, (slot % slots) as u32));
    }
    let mail = slot - slots * n;
    if mail < n * n {
        return Some(Word::Mail((mail / n) as u32, (mail % n) as u32));
    }
    None
}

/// Loads the word with this number.
fn look(state: &mut GroupState, member: u32, word: u64) -> Result<bool, Memory>
    ensures { IfOk result
        (λ made. MakesStep made state.old (record { member = member; kind = kinds.Look word })
        state.new) }
{
    match word_numbered(state.layout.group(), word) {
        Some(Word::Slot(owner, slot)) => look_at_slot(state, member, owner, slot),
        Some(Word::Mail(from, to)) => look_at_mail(state, member, from, to),
        None => Ok(false),
    }
}

/// Offers a change, which has no home yet.
fn post_change(
    alloc: Global,
    state: &mut GroupState,
    member: u32,
    slot: u32,
    change: &Change,
    value: &Value,
) -> Result<bool, Memory>
    ensures { IfOk result
        (λ made. MakesStep made state.old
        (record { member = member; kind = kinds.Post slot change.now value.now }) state.new) }
{
    if change.home.is_some() {
        return Ok(false);
    }
    post(alloc, state, member, slot, &change.entry, value)
}

/// Makes a step where it is enabled, and says whether it was. Where it was not, the state is as it was.
fn make(alloc: Global, state: &mut GroupState, step: &MemberStep) -> Result<bool, Memory>
    ensures { IfOk result (λ made. MakesStep made state.old step.now state.new) }
{
    let member = step.member;
    match &step.kind {
        Kind::Split => Ok(has_member(state, member)),
        Kind::Join => Ok(has_member(state, member)),
        Kind::Post {
            slot,
            change,
            value,
        } => post_change(alloc, state, member, *slot, change, value),
        Kind::Lock => lock(state, member),
        Kind::Look { word } => look(state, member, *word),
        Kind::Take {
            member: owner,
            slot,
        } => take(alloc, state, member, *owner, *slot),
        Kind::Unlock => Ok(unlock(state, member)),
        Kind::Commit => commit(state, member),
        Kind::Mark {
            member: owner,
            slot,
        } => mark(alloc, state, member, *owner, *slot),
        Kind::Finish { slot } => finish(alloc, state, member, *slot),
        Kind::Fail {
            member: owner,
            slot,
        } => fail(alloc, state, member, *owner, *slot),
        Kind::Withdraw { slot } => withdraw(alloc, state, member, *slot),
        Kind::Doom { names } => doom(state, member, names.names()),
        Kind::Retire { names } => retire(alloc, state, member, names.names()),
        Kind::Send { to, notices } => send(alloc, state, member, *to, notices),
        Kind::Receive { from } => receive(alloc, state, member, *from),
    }
}

/// Makes one step. Where its condition does not hold, the state comes back as it was.
pub fn step(alloc: Global, state: GroupState, step: &MemberStep) -> Result<GroupState, StepError>
    ensures { IsOutcome state step.now result }
{
    let mut state = state;
    if make(alloc, &mut state, step)? {
        Ok(state)
    } else {
        Err(StepError::NotEnabled { state })
    }
}

/// Makes all steps in order, up to the first whose condition does not hold. In the state that comes back the
/// invariant holds: whatever a crash leaves of it recovers each key's cell or the one that its posted change
/// leaves, and no block serves two values. Each cell is what the finished changes of its key left, in order, and each
/// of these left what its key's last post offered.
pub fn all_steps(
    alloc: Global,
    state: GroupState,
    steps: &[MemberStep],
) -> Result<GroupState, StepsError>
    requires { Lawful (group_of state) }
    ensures { IsRun state steps.now result }
{
    let mut state = state;
    for (i, step) in steps.iter().enumerate() {
        match make(alloc, &mut state, step) {
            Ok(true) => {}
            Ok(false) => {
                let at = i as u64;
                return Err(StepsError::NotEnabled { at, state });
            }
            Err(Memory) => return Err(StepsError::Memory),
        }
    }
    Ok(state)
}
