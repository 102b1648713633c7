// The generator of a load.
ghost use Rattle.std.specs.Prelude.{◌≡◌, ◌+◌, ◌^◌, ◌<◌, ◌≤◌, IfOk};
ghost use Rattle.load_requests.specs.Generated.{operation_of, value_of, value_length, request_of};

use fs_model::{Key, Memory, Request, Value};
use std::alloc::Global;

/// How many first numbers differ: one is taken modulo this.
pub const STARTS: u64 = 1_000_000;

/// How many keys a load has, from 0 on.
pub const KEYS: u64 = 10_000;

/// What a request of a load does.
#[derive(Clone, Copy, Debug, PartialEq, Eq)]
pub enum Operation {
    /// It stores a value.
    Put,
    /// It shows the value.
    Get,
    /// It takes the value away.
    Delete,
}

/// By the sum of key and round, modulo 8.
const OPERATIONS: [Operation; 8] = [
    Operation::Put,
    Operation::Put,
    Operation::Get,
    Operation::Put,
    Operation::Get,
    Operation::Delete,
    Operation::Get,
    Operation::Put,
];

fn operation_at(key: Key, round: u64) -> Operation
    requires { key + round < 2 ^ 64 }
    ensures { result ≡ operation_of key round }
{
    OPERATIONS[((key + round) % 8) as usize]
}

// How long a put's value is, in bytes.
fn length_for(key: Key) -> usize
    ensures { result ≡ value_length key }
{
    if key % 64 == 0 {
        return 300;
    }
    (key % 32) as usize + 1
}

fn value(alloc: Global, key: Key, turn: u64) -> Result<Value, Memory>
    ensures { IfOk result (λ v. v ≡ value_of key turn) }
{
    let byte = (turn % 26) as u8 + 97;
    Ok(Value::of(Vec::from_elem(alloc, byte, length_for(key))?))
}

/// The request with this number in a load that begins at `start`. Two starts that are the same modulo `STARTS` make the
/// same requests.
pub fn request_at(alloc: Global, start: u64, number: u64) -> Result<Request, Memory>
    requires { number < 2 ^ 63 }
    ensures { IfOk result (λ r. r ≡ request_of start number) }
{
    let turn = start % STARTS + number;
    let key = turn % KEYS;
    match operation_at(key, turn / KEYS) {
        Operation::Put => Ok(Request::Put {
            key,
            value: value(alloc, key, turn)?,
        }),
        Operation::Get => Ok(Request::Get { key }),
        Operation::Delete => Ok(Request::Delete { key }),
    }
}
