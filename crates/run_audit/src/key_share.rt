// The requests of a share of the keys.
ghost use Rattle.std.specs.Prelude.{◌≡◌, ◌↔◌, ℕ, ◌<◌, ◌%◌, ◌==◌, IsTrue, IfOk, OnOk, true, false, nat_eq};
ghost use Rattle.std.specs.List.{zip};
ghost use Rattle.fs_model.specs.Cells.{key_of};
ghost use Rattle.fs_model.specs.Lawful.{MayReply};
ghost use Rattle.run_audit.specs.FirstFault.{cells_in};
ghost use Rattle.run_audit.specs.Shares.{shown, started, state_at, entry_at, state_after, Enters, Moves, is_of, IsFaultAmong};

use crate::key_state::KeyState;
use crate::verdict::StartCell;
use fs_model::{Key, Memory, Reply, Request};
use std::alloc::Global;
use std::collections::HashMap;

/// How the keys of a share stand.
type Table<'a> = HashMap<Key, KeyState<'a>>;

/// The keys of one of so many shares.
#[derive(Clone, Copy)]
pub struct KeyShare {
    /// Which one, counted from 0.
    pub number: u32,
    /// How many there are.
    pub count: u32,
}

impl KeyShare {
    /// Whether a key is one of the share.
    fn has(self, key: Key) -> bool
        requires { 0 < self.count }
        ensures { result ≡ is_of self.count self.number key }
    {
        key % u64::from(self.count) == u64::from(self.number)
    }
}

// How the key stands.
fn standing<'a>(table: &Table<'a>, key: Key) -> KeyState<'a>
    ensures { shown result ≡ state_at table.now key }
{
    match table.get(&key) {
        Some(standing) => *standing,
        None => KeyState::fresh(),
    }
}

// Puts down how a key stands at the start, where no cell before this one has the key.
fn enter<'a>(table: &mut Table<'a>, cell: &'a StartCell) -> Result<(), Memory>
    ensures { OnOk result (Enters table.old table.new cell.now) }
{
    if table.get(&cell.key).is_none() {
        let _ = table.insert(cell.key, KeyState::with_value(cell.value.bytes()))?;
    }
    Ok(())
}

// How the keys of the share stand at the start.
fn start_table<'a>(
    alloc: Global,
    start: &'a [StartCell],
    share: KeyShare,
) -> Result<Table<'a>, Memory>
    requires { 0 < share.count }
    ensures { IfOk result (λ table. (k : ℕ) → is_of share.count share.number k ≡ true
        → state_at table k ≡ (cells_in start.now k, false)) }
{
    let mut table = HashMap::new(alloc);
    for cell in start {
        if share.has(cell.key) {
            enter(&mut table, cell)?;
        }
    }
    Ok(table)
}

// Whether a request may be answered so as its key stands. Where it may, the key stands on as it leaves it.
fn judge<'a>(table: &mut Table<'a>, request: &'a Request, reply: &Reply) -> Result<bool, Memory>
    ensures exact { IfOk result (λ b. IsTrue b ↔ (let s = state_at table.old (key_of request.now) in
        MayReply request.now s.0 s.1 reply.now)) }
    ensures moves { IfOk result (λ b. b ≡ true → Moves (state_at table.old) (state_at table.new)
        (key_of request.now)
        (state_after request.now reply.now (state_at table.old (key_of request.now)))) }
{
    let key = request.key();
    let standing = standing(table, key);
    if !standing.may_reply(request, reply) {
        return Ok(false);
    }
    let _ = table.insert(key, standing.after(request, reply))?;
    Ok(true)
}

/// The number of the first request with which the replies to the share's keys aren't lawful, or none. What one of the
/// two lists lacks isn't looked at.
pub fn first_fault(
    alloc: Global,
    start: &[StartCell],
    trace: &[Request],
    replies: &[Reply],
    share: KeyShare,
) -> Result<Option<u64>, Memory>
    requires { 0 < share.count }
    ensures { IfOk result (IsFaultAmong (cells_in start.now) (is_of share.count share.number)
        (zip trace.now replies.now)) }
{
    let mut table = start_table(alloc, start, share)?;
    for number in 0..trace.len().min(replies.len()) {
        let request = &trace[number];
        if share.has(request.key()) && !judge(&mut table, request, &replies[number])? {
            return Ok(Some(number as u64));
        }
    }
    Ok(None)
}
