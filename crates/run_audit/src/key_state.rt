// How a key stands, and what it may answer.
ghost use Rattle.std.specs.Prelude.{◌≡◌, ℕ, ◌↔◌, ◌||◌, IsTrue, false, Option, None, Some, option_copied};
ghost use Rattle.fs_model.specs.Cells.{answer_to, is_change};
ghost use Rattle.fs_model.specs.Lawful.{MayReply, is_put, is_refusal, is_stopped, may_refuse};
ghost use Rattle.run_audit.specs.Shares.{shown, started, state_after};

use fs_model::{Reply, Request};

/// The value of a key, or none, and whether the store has stopped serving the key.
#[derive(Clone, Copy)]
pub struct KeyState<'a> {
    /// Where it was put, or where the start has it.
    pub value: Option<&'a [u8]>,
    /// Whether a reply was `Stopped`.
    pub stopped: bool,
}

// Whether the request changes the key.
fn is_change(request: &Request, value: Option<&[u8]>) -> bool
    ensures { result ≡ is_change request.now (option_copied value.entry) }
{
    match request {
        Request::Put { .. } => true,
        Request::Get { .. } => false,
        Request::Delete { .. } => value.is_some(),
    }
}

fn is_put(request: &Request) -> bool
    ensures { result ≡ is_put request.now }
{
    match request {
        Request::Put { .. } => true,
        Request::Get { .. } | Request::Delete { .. } => false,
    }
}

// Whether the reply is a refusal that the request may get.
fn may_refuse(request: &Request, value: Option<&[u8]>, reply: &Reply) -> bool
    ensures { result ≡ may_refuse request.now (option_copied value.entry) reply.now }
{
    match reply {
        Reply::Stored | Reply::Value(_) | Reply::Absent | Reply::Deleted => false,
        Reply::Full => is_change(request, value),
        Reply::VersionsSpent | Reply::TooLong => is_put(request),
        Reply::Stopped => true,
    }
}

// Whether the reply is the cell's answer to a get.
fn shows(value: Option<&[u8]>, reply: &Reply) -> bool
    ensures { (k : ℕ) → IsTrue result
        ↔ (reply.now ≡ answer_to (Request.Get k) (option_copied value.entry)) }
{
    match (value, reply) {
        (None, Reply::Absent) => true,
        (Some(bytes), Reply::Value(shown)) => bytes == shown.bytes(),
        _ => false,
    }
}

// Whether the reply is the cell's answer to a delete.
fn deletes(value: Option<&[u8]>, reply: &Reply) -> bool
    ensures { (k : ℕ) → IsTrue result
        ↔ (reply.now ≡ answer_to (Request.Delete k) (option_copied value.entry)) }
{
    match reply {
        Reply::Absent => value.is_none(),
        Reply::Deleted => value.is_some(),
        _ => false,
    }
}

// Whether the reply is the cell's answer.
fn is_answer(request: &Request, value: Option<&[u8]>, reply: &Reply) -> bool
    ensures { IsTrue result ↔ (reply.now ≡ answer_to request.now (option_copied value.entry)) }
{
    match request {
        Request::Put { .. } => matches!(reply, Reply::Stored),
        Request::Get { .. } => shows(value, reply),
        Request::Delete { .. } => deletes(value, reply),
    }
}

fn is_stopped(reply: &Reply) -> bool
    ensures { result ≡ is_stopped reply.now }
{
    match reply {
        Reply::Stopped => true,
        Reply::Stored | Reply::Value(_) | Reply::Absent | Reply::Deleted => false,
        Reply::Full | Reply::VersionsSpent | Reply::TooLong => false,
    }
}

fn is_refusal(reply: &Reply) -> bool
    ensures { result ≡ is_refusal reply.now }
{
    match reply {
        Reply::Stored | Reply::Value(_) | Reply::Absent | Reply::Deleted => false,
        Reply::Full | Reply::VersionsSpent | Reply::TooLong | Reply::Stopped => true,
    }
}

impl<'a> KeyState<'a> {
    /// That of a key without a value.
    pub fn fresh() -> KeyState<'a>
        ensures { shown result ≡ (None, false) }
    {
        KeyState {
            value: None,
            stopped: false,
        }
    }

    /// That of a key with this value at the start.
    pub fn with_value(value: &'a [u8]) -> KeyState<'a>
        ensures { shown result ≡ started value.now }
    {
        KeyState {
            value: Some(value),
            stopped: false,
        }
    }

    /// Whether a request of the key may be answered so.
    pub fn may_reply(self, request: &Request, reply: &Reply) -> bool
        ensures { IsTrue result
            ↔ MayReply request.now (shown self.entry).0 (shown self.entry).1 reply.now }
    {
        if self.stopped {
            return is_stopped(reply);
        }
        is_answer(request, self.value, reply) || may_refuse(request, self.value, reply)
    }

    /// How the key stands after a request that was answered so.
    pub fn after(self, request: &'a Request, reply: &Reply) -> KeyState<'a>
        ensures { shown result ≡ state_after request.now reply.now (shown self.entry) }
    {
        let stopped = self.stopped || is_stopped(reply);
        if is_refusal(reply) {
            return KeyState {
                value: self.value,
                stopped,
            };
        }
        match request {
            Request::Put { value, .. } => KeyState {
                value: Some(value.bytes()),
                stopped,
            },
            Request::Get { .. } => KeyState {
                value: self.value,
                stopped,
            },
            Request::Delete { .. } => KeyState {
                value: None,
                stopped,
            },
        }
    }
}
