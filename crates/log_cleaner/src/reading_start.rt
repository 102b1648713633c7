// Where the reading of a chunk begins.
ghost use Rattle.std.specs.Prelude.{◌≡◌, ◌⊎◌, ℕ, ◌≤◌, true, is_some, Some};
ghost use Rattle.core_log.specs.Log.{tail_of, tail_in};
ghost use Rattle.log_standing.specs.declared.types.Settled.{Settled};
ghost use Rattle.log_cleaner.specs.Copying.{begins};

use core_log::CoreLog;
use log_standing::Standing;

/// The tail of a chunk, where the log has it.
pub fn tail_of(log: &CoreLog, chunk: u32) -> Option<u64>
    ensures { result ≡ tail_of log.now.chunks chunk }
{
    for c in log.chunks() {
        if c.chunk == chunk {
            return Some(c.tail);
        }
    }
    None
}

/// The first place of a chunk from which on an entry may still be to be copied.
pub fn begin_at(log: &CoreLog, standing: &Standing, chunk: u32) -> u64
    ensures within { result ≤ tail_in log.now chunk }
    ensures begins { (result ≡ 0) ⊎ (standing.now.settled ≡ Some (begins chunk result)) }
{
    let tail = tail_of(log, chunk).unwrap_or(0);
    match standing.settled() {
        Some(settled) => {
            if settled.chunk == chunk && settled.place <= tail {
                settled.place
            } else {
                0
            }
        }
        None => 0,
    }
}
