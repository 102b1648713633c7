// What a cell answers, and how a request leaves it.
ghost use Rattle.std.specs.Prelude.{◌≡◌, IfOk};
ghost use Rattle.fs_model.specs.Cells.{answer_to, cell_after};

use crate::memory::Memory;
use crate::model::{Reply, Request, Value};
use std::alloc::Global;

/// The reply to a request whose key has this cell, where nothing is refused. `cell` is the key's value, or none.
pub fn cell_answer(alloc: Global, cell: &Option<Value>, request: &Request) -> Result<Reply, Memory>
    ensures { IfOk result (λ reply. reply ≡ answer_to request.now cell.now) }
{
    match request {
        Request::Put { .. } => Ok(Reply::Stored),
        Request::Get { .. } => match cell {
            None => Ok(Reply::Absent),
            Some(value) => Ok(Reply::Value(value.copy(alloc)?)),
        },
        Request::Delete { .. } => match cell {
            None => Ok(Reply::Absent),
            Some(_) => Ok(Reply::Deleted),
        },
    }
}

/// The cell that a request leaves of `cell`, where nothing is refused.
pub fn cell_after(
    alloc: Global,
    cell: Option<Value>,
    request: &Request,
) -> Result<Option<Value>, Memory>
    ensures { IfOk result (λ left. left ≡ cell_after request.now cell) }
{
    match request {
        Request::Put { value, .. } => Ok(Some(value.copy(alloc)?)),
        Request::Get { .. } => Ok(cell),
        Request::Delete { .. } => Ok(None),
    }
}
