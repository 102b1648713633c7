// Dead names of own keys are taken from the index for the member where they stand, and sent to it.
ghost use Rattle.std.specs.Prelude.{◌≡◌, ℕ, ◌+◌, ◌<◌, ◌≤◌, ◌^◌, ◌++◌, true, false, length, List, IfOk, OnOk, OnErr, is_some};
ghost use Rattle.log_entry.specs.declared.entry.EntryName.{EntryName};
ghost use Rattle.core_index.specs.Index.{known_at};
ghost use Rattle.core_index.specs.Slots as slots;
ghost use Rattle.group_board.specs.Mailing.{notices_of};
ghost use Rattle.group_laws.specs.Places as groups;
ghost use Rattle.group_laws.specs.MemberViews.{View};
ghost use Rattle.group_board.specs.Conditions.{MaySend};
ghost use Rattle.core_worker.specs.KeyTies.{KnowsKey};
ghost use Rattle.core_worker.specs.Outbox.{mailing, AreToSend, HasSpare, TellsNothing};
ghost use Rattle.core_worker.specs.Mails.{MailSteps};
ghost use Rattle.core_worker.specs.Sending.{NoneAwaits, SendsNotices, TakesNames};

use core_index::CoreIndex;
use fs_model::Memory;
use group_board::{Board, MailFull, Names, Notices};
use std::alloc::Global;
use std::mem;

/// What a core keeps of its keys while names wait to be sent goes on as they are taken, and all that were taken may be
/// sent.
pub fn every_taking()
    ensures knows { (p : groups.Place) (to : ℕ) (v : View) (others old new : List EntryName)
        (es ix : List (ℕ × slots.Place)) → TakesNames (groups.core_of p to) es ix old new
        → ((k : ℕ) → KnowsKey p (mailing (old ++ others) v) k (known_at es k))
        → (k : ℕ) → KnowsKey p (mailing (new ++ others) v) k (known_at ix k) }
    ensures waits { (p : groups.Place) (m to : ℕ) (v : View) (others old new : List EntryName)
        (es ix : List (ℕ × slots.Place)) → TakesNames (groups.core_of p to) es ix old new
        → ((k : ℕ) → KnowsKey p (mailing (old ++ others) v) k (known_at es k))
        → ((k : ℕ) → is_some (known_at es k) ≡ true → groups.owner p k ≡ m)
        → AreToSend p m to v old → AreToSend p m to v new }
{}

// A list that is full gets room for as many more as it had, and no more than these.
const MOST_MORE: u64 = 1_048_576;

// The same names, with room for so many more.
pub(crate) fn roomier(alloc: Global, names: &Names, more: u64) -> Result<Names, Memory>
    ensures names { IfOk result (λ n. n.names ≡ names.now.names) }
    ensures room { IfOk result (λ n. n.room ≡ length names.now.names + more) }
{
    let old = names.names();
    let Some(room) = (old.len() as u64).checked_add(more) else {
        return Err(Memory);
    };
    let mut new = Names::with_room(alloc, room)?;
    for name in old {
        new.push(*name);
    }
    Ok(new)
}

// Takes names until the list has so many, and says whether none is left to take.
fn take_names(index: &mut CoreIndex, home: u32, names: &mut Names, room: u64) -> bool
    requires { room ≤ names.old.room }
    ensures takes { TakesNames home index.old index.new names.old.names names.new.names }
    ensures none { result ≡ true → NoneAwaits home index.new }
    ensures spare { result ≡ true → length names.new.names < names.new.room }
    ensures full { result ≡ false → room ≤ length names.new.names }
{
    while (names.names().len() as u64) < room {
        let Some(name) = index.next_notice(home) else {
            return true;
        };
        names.push(name);
    }
    false
}

/// Takes all dead names that await to be told to a home out of the index, behind those of a list. Where there is no
/// memory for the next one it stays in the index.
pub(crate) fn take_notices(
    alloc: Global,
    index: &mut CoreIndex,
    names: &mut Names,
    home: u32,
) -> Result<(), Memory>
    requires spare { length names.old.names < names.old.room }
    ensures takes { TakesNames home index.old index.new names.old.names names.new.names }
    ensures none { OnOk result (NoneAwaits home index.new) }
    ensures spare { OnOk result (length names.new.names < names.new.room) }
{
    let mut room = names.names().len() as u64 + 1;
    while !take_names(index, home, names, room) {
        let more = room.min(MOST_MORE);
        *names = roomier(alloc, names, more)?;
        room = names.names().len() as u64 + more;
    }
    Ok(())
}

// Notices without a name, with room for one dead name, and for so many gone ones.
fn empty_notices(alloc: Global, places: u64) -> Result<Notices, Memory>
    ensures none { IfOk result TellsNothing }
    ensures spare { IfOk result HasSpare }
    ensures places { IfOk result (λ n. n.gone.room ≡ places) }
{
    let dead = Names::with_room(alloc, 1)?;
    let gone = Names::with_room(alloc, places)?;
    Ok(Notices { dead, gone })
}

/// Sends what waits for another member, where its mailbox is empty, and says whether it was. Where there is no memory
/// for what will wait next, with places for so many gone names, the mailbox is not looked at.
pub(crate) fn send_waiting<B: Board>(
    alloc: Global,
    board: &mut B,
    waiting: &mut Notices,
    to: u32,
    places: u64,
) -> Result<bool, Memory>
    requires may { MaySend (B.seat board.old).place (B.seat board.old).number (B.view board.old)
        to (notices_of waiting.old) }
    ensures seat { B.seat board.new ≡ B.seat board.old }
    ensures sends { IfOk result (λ sent. SendsNotices sent (B.seat board.old).number to waiting.old
        waiting.new (B.whole board.old) (B.whole board.new) (B.view board.old)
        (B.view board.new)) }
    ensures spare { HasSpare waiting.old → HasSpare waiting.new }
    ensures places { IfOk result (λ sent. sent ≡ true → waiting.new.gone.room ≡ places) }
    ensures steps { IfOk result (λ sent. MailSteps sent (B.view board.old) (B.view board.new)
        (B.trail board.old) (B.trail board.new)) }
    ensures err { OnErr result ((board.new ≡ board.old) × (waiting.new ≡ waiting.old)) }
{
    let empty = empty_notices(alloc, places)?;
    let all = mem::replace(waiting, empty);
    match board.send(to, all) {
        Ok(()) => {
            return Ok(true);
        }
        Err(MailFull { notices }) => {
            *waiting = notices;
            return Ok(false);
        }
    }
}
