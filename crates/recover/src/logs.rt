// The heads of a part, and its log.
ghost use Rattle.std.specs.Prelude.{◌≡◌, ℕ, ◌<◌, ◌++◌, length, slice_get, IfOk};
ghost use Rattle.std.specs.List.{AllByRecursion};
ghost use Rattle.pm_region.specs.State.{IsTelling};
ghost use Rattle.pm_region.specs.Words.{lasts};
ghost use Rattle.chunk_map.specs.Checked.{FitsHead};
ghost use Rattle.core_log.specs.Log.{tail_of, IsChunkOf};
ghost use Rattle.core_log.specs.Fresh.{HasEachOnce};
ghost use Rattle.recover.specs.Regions.{Covers};
ghost use Rattle.recover.specs.Logs.{tail_behind, with_log};
ghost use Rattle.recover.specs.Heads.{HasHeads, tail_there};

use crate::types::RecoverError;
use chunk_map::{Head, Layout, read_head};
use core_log::LogChunk;
use fs_model::Memory;
use pm_region::Region;
use std::alloc::Global;
use store_image::Fault;

/// The heads of a part's chunks, in their order, or the first that is none.
pub fn heads<R: Region>(
    alloc: Global,
    region: &R,
    layout: &Layout,
    part: u32,
) -> Result<Vec<Head>, RecoverError>
    requires covers { Covers (R.state region.now).frame layout.now }
    requires part { part < layout.now.cores }
    ensures count { IfOk result (λ heads. length heads.items ≡ layout.now.chunks) }
    ensures fits { IfOk result (λ heads. AllByRecursion (FitsHead layout.now) heads.items) }
    ensures told { IsTelling (R.state region.now)
        → HasHeads layout.now (lasts (R.state region.now)) part result }
{
    let mut heads = Vec::with_capacity(alloc, layout.chunks() as usize)?;
    for chunk in 0..layout.chunks() {
        match read_head(region, layout, layout.chunk_first(part, chunk)) {
            Ok(head) => heads.push(head)?,
            Err(bad) => {
                return Err(RecoverError::Fault(Fault::Damaged {
                    part,
                    chunk,
                    rule: bad.rule,
                }));
            }
        }
    }
    Ok(heads)
}

/// The tail of a log.
fn tail_in(head: &Head) -> Option<u64>
    ensures { result ≡ tail_behind (Ok head.now) }
{
    match head {
        Head::Log { tail } => Some(*tail),
        _ => None,
    }
}

/// Appends a chunk, where it has a tail.
fn push_log(logs: &mut Vec<LogChunk>, chunk: u32, tail: Option<u64>) -> Result<(), Memory>
    ensures { IfOk result (λ _. logs.new.items ≡ logs.old.items ++ with_log chunk tail) }
{
    if let Some(tail) = tail {
        logs.push(LogChunk { chunk, tail })?;
    }
    Ok(())
}

/// The Log chunks of a part with their tails, by rising number.
pub fn log_chunks(alloc: Global, layout: &Layout, heads: &[Head]) -> Result<Vec<LogChunk>, Memory>
    requires count { length heads.now ≡ layout.now.chunks }
    requires fits { AllByRecursion (FitsHead layout.now) heads.now }
    ensures each { IfOk result (λ logs. AllByRecursion (IsChunkOf layout.now) logs.items) }
    ensures once { IfOk result (λ logs. HasEachOnce logs.items) }
    ensures tails { IfOk result (λ logs. (j : ℕ) → tail_of logs.items j
        ≡ tail_there (slice_get heads.now j)) }
{
    let mut logs = Vec::new(alloc);
    for chunk in 0..layout.chunks() {
        let tail = tail_in(&heads[chunk as usize]);
        push_log(&mut logs, chunk, tail)?;
    }
    Ok(logs)
}
