// The steps of cleaning: dooming and retiring entries of the own log, telling and hearing of them.
ghost use Rattle.std.specs.Prelude.{◌≡◌, ◌⊎◌, ℕ, ◌<◌, IfOk, OnOk, IsTrue, ◌↔◌, ◌&&◌, not, eqb, true, false, Some, None, Option, option_map};
ghost use Rattle.std.specs.BTreeMap.{get};
ghost use Rattle.log_entry.specs.declared.entry.EntryName.{EntryName};
ghost use Rattle.group_laws.specs.Places.{owner};
ghost use Rattle.group_laws.specs.Updates.{has};
ghost use Rattle.group_laws.specs.Steps.{CanDoom, CanRetire, CanSend, CanReceive, retires, receives};
ghost use Rattle.group_laws.specs.Invariant.{IsDead};
ghost use Rattle.group_laws.specs.Runs.Kind.{Doom, Retire, Send, Receive};
ghost use Rattle.group_board.specs.Mailing.{notices_of};
ghost use Rattle.group_machine.specs.Shows.{group_of, place_of, pair_cmp};
ghost use Rattle.group_machine.specs.Makes.{Makes};
ghost use Rattle.group_machine.specs.Deaths.{IsDeadIn, MayTell};

use crate::member_places::owner_of;
use crate::sets::{entries_but, has_all, has_name, names_but, take_out};
use crate::state::{GroupState, MemberView};
use crate::tables::{has_member, saw};
use crate::tidy_rules::{is_dead, tidy};
use fs_model::Memory;
use group_board::Notices;
use group_laws::types::Seen;
use log_entry::entry::EntryName;
use std::alloc::Global;

fn may_doom(state: &GroupState, member: u32, names: &[EntryName]) -> bool
    ensures { IsTrue result ↔ CanDoom (group_of state.now) member names.now }
{
    has_member(state, member) && has_all(&state.views[member as usize].dead, names)
}

/// Lets these dead entries of the own log vanish from now on.
pub fn doom(state: &mut GroupState, member: u32, names: &[EntryName]) -> Result<bool, Memory>
    ensures { IfOk result (λ made. Makes made state.old member (Doom names.now) state.new) }
{
    if !may_doom(state, member, names) {
        return Ok(false);
    }
    let view = &mut state.views[member as usize];
    view.doomed.extend_from_slice(names)?;
    view.looked.clear();
    Ok(true)
}

fn may_retire(state: &GroupState, member: u32, names: &[EntryName]) -> bool
    ensures { IsTrue result ↔ CanRetire (group_of state.now) member names.now }
{
    has_member(state, member) && has_all(&state.views[member as usize].doomed, names)
}

/// Adds a name to a list where the member does not own its key.
fn add_foreign(
    list: &mut Vec<EntryName>,
    state: &GroupState,
    member: u32,
    name: EntryName,
) -> Result<(), Memory>
    ensures { OnOk result ((k n : ℕ) → (has list.new.items k n ≡ true)
        ↔ ((has list.old.items k n ≡ true)
        ⊎ ((k ≡ name.key) × (n ≡ name.version)
        × (eqb (owner (place_of state.now) k) member ≡ false)))) }
{
    if owner_of(&state.layout, state.group, name.key) != member {
        list.push(name)?;
    }
    Ok(())
}

/// The names whose keys the member does not own.
fn foreign(
    alloc: Global,
    state: &GroupState,
    member: u32,
    names: &[EntryName],
) -> Result<Vec<EntryName>, Memory>
    ensures { IfOk result (λ list. (k n : ℕ)
        → has list.items k n ≡ (has names.now k n
        && not (eqb (owner (place_of state.now) k) member))) }
{
    let mut list = Vec::new(alloc);
    for name in names {
        add_foreign(&mut list, state, member, *name)?;
    }
    Ok(list)
}

/// Takes these entries out of the own log, and what is known of own ones.
fn drop_retired(
    alloc: Global,
    state: &mut GroupState,
    member: u32,
    names: &[EntryName],
) -> Result<(), Memory>
    requires { member < state.old.layout.group }
    ensures { OnOk result (group_of state.new ≡ retires (group_of state.old) member names.now) }
{
    let away = foreign(alloc, state, member, names)?;
    let view = &mut state.views[member as usize];
    view.kept = entries_but(alloc, &view.kept, names)?;
    view.dead = names_but(alloc, &view.dead, names)?;
    view.doomed = names_but(alloc, &view.doomed, names)?;
    view.told = names_but(alloc, &view.told, names)?;
    take_out(&mut view.present, names);
    view.leaving.extend_from_slice(&away)?;
    view.looked.clear();
    Ok(())
}

/// Records that these doomed entries have vanished.
pub fn retire(
    alloc: Global,
    state: &mut GroupState,
    member: u32,
    names: &[EntryName],
) -> Result<bool, Memory>
    ensures { IfOk result (λ made. Makes made state.old member (Retire names.now) state.new) }
{
    if !may_retire(state, member, names) {
        return Ok(false);
    }
    drop_retired(alloc, state, member, names)?;
    tidy(alloc, state, member)?;
    Ok(true)
}

/// Whether the member may tell another that this entry in its log is dead.
fn may_tell(state: &GroupState, member: u32, view: &MemberView, name: &EntryName, to: u32) -> bool
    ensures { IsTrue result ↔ MayTell (place_of state.now) member view.now to name.now.key
        name.now.version }
{
    if owner_of(&state.layout, state.group, name.key) != member
        || has_name(&view.told, name.key, name.version)
    {
        return false;
    }
    match view.present.get(&(name.key, name.version)) {
        Some(home) => *home == to && is_dead(view, name.key, name.version),
        None => false,
    }
}

/// Whether the member may tell another that these entries in its log are dead.
fn may_tell_all(
    state: &GroupState,
    member: u32,
    view: &MemberView,
    names: &[EntryName],
    to: u32,
) -> bool
    ensures { IsTrue result ↔ ((k n : ℕ) → has names.now k n ≡ true
        → MayTell (place_of state.now) member view.now to k n) }
{
    for name in names {
        if !may_tell(state, member, view, name, to) {
            return false;
        }
    }
    true
}

/// Whether an entry left the own log and is of the other member's keys.
fn may_report(state: &GroupState, view: &MemberView, name: &EntryName, to: u32) -> bool
    ensures { IsTrue result ↔ ((has view.now.leaving.items name.now.key name.now.version ≡ true)
        × (owner (place_of state.now) name.now.key ≡ to)) }
{
    has_name(&view.leaving, name.key, name.version)
        && owner_of(&state.layout, state.group, name.key) == to
}

/// Whether these entries left the own log and are of the other member's keys.
fn may_report_all(state: &GroupState, view: &MemberView, names: &[EntryName], to: u32) -> bool
    ensures { IsTrue result ↔ ((k n : ℕ) → has names.now k n ≡ true
        → (has view.now.leaving.items k n ≡ true) × (owner (place_of state.now) k ≡ to)) }
{
    for name in names {
        if !may_report(state, view, name, to) {
            return false;
        }
    }
    true
}

fn may_send(state: &GroupState, member: u32, to: u32, notices: &Notices) -> bool
    ensures { IsTrue result ↔ CanSend (group_of state.now) member to (notices_of notices.now) }
{
    if !has_member(state, member) || !has_member(state, to) || to == member {
        return false;
    }
    let view = &state.views[member as usize];
    if !saw(&view.looked, Seen::Mail(member, to, false)) {
        return false;
    }
    if !may_tell_all(state, member, view, notices.dead.names(), to) {
        return false;
    }
    may_report_all(state, view, notices.gone.names(), to)
}

/// Puts notices into the mailbox to another member, which the member saw empty.
pub fn send(
    alloc: Global,
    state: &mut GroupState,
    member: u32,
    to: u32,
    notices: &Notices,
) -> Result<bool, Memory>
    ensures { IfOk result (λ made. Makes made state.old member (Send to (notices_of notices.now))
        state.new) }
{
    if !may_send(state, member, to, notices) {
        return Ok(false);
    }
    let sent = notices.copy(alloc)?;
    let mailed = notices.copy(alloc)?;
    state.mail.insert((member, to), sent)?;
    let view = &mut state.views[member as usize];
    view.told.extend_from_slice(notices.dead.names())?;
    view.leaving = names_but(alloc, &view.leaving, notices.gone.names())?;
    view.mailed.insert(to, mailed)?;
    view.looked.clear();
    Ok(true)
}

/// The notices in a mailbox that is full.
fn notices_at(
    alloc: Global,
    state: &GroupState,
    from: u32,
    to: u32,
) -> Result<Option<Notices>, Memory>
    ensures { IfOk result (λ n. option_map notices_of n ≡ (group_of state.now).mail from to) }
{
    match state.mail.get(&(from, to)) {
        Some(notices) => {
            let notices = notices.copy(alloc)?;
            Ok(Some(notices))
        }
        None => Ok(None),
    }
}

/// Whether the member may empty a mailbox to it that has these notices.
fn may_receive(state: &GroupState, member: u32, from: u32, notices: &Notices) -> bool
    ensures { (group_of state.now).mail from member ≡ Some (notices_of notices.now)
        → IsTrue result ↔ CanReceive (group_of state.now) member from (notices_of notices.now) }
{
    if !has_member(state, member) || !has_member(state, from) {
        return false;
    }
    saw(
        &state.views[member as usize].looked,
        Seen::Mail(from, member, true),
    )
}

/// Empties a mailbox and records what it said.
fn hear(
    alloc: Global,
    state: &mut GroupState,
    member: u32,
    from: u32,
    notices: &Notices,
) -> Result<(), Memory>
    requires { member < state.old.layout.group }
    ensures { OnOk result (group_of state.new ≡ receives (group_of state.old) member from
        (notices_of notices.now)) }
{
    state.mail.remove(&(from, member));
    let view = &mut state.views[member as usize];
    view.dead.extend_from_slice(notices.dead.names())?;
    view.told = names_but(alloc, &view.told, notices.gone.names())?;
    take_out(&mut view.present, notices.gone.names());
    view.looked.clear();
    Ok(())
}

/// Takes the notices of a mailbox that the member saw full.
pub fn receive(
    alloc: Global,
    state: &mut GroupState,
    member: u32,
    from: u32,
) -> Result<bool, Memory>
    ensures { IfOk result (λ made. Makes made state.old member (Receive from) state.new) }
{
    let Some(notices) = notices_at(alloc, state, from, member)? else {
        return Ok(false);
    };
    if !may_receive(state, member, from, &notices) {
        return Ok(false);
    }
    hear(alloc, state, member, from, &notices)?;
    tidy(alloc, state, member)?;
    Ok(true)
}
