// An audit, shared out among threads.
ghost use Rattle.std.specs.Prelude.{◌≡◌, ℕ, ◌<◌, ◌≤◌, List, Option, IfOk, true, length, slice_index};
ghost use Rattle.std.specs.List.{zip};
ghost use Rattle.fs_model.specs.declared.model.Request.{Request};
ghost use Rattle.fs_model.specs.declared.model.Reply.{Reply};
ghost use Rattle.run_audit.specs.FirstFault.{cells_in, Judges};
ghost use Rattle.run_audit.specs.Shares.{is_of, is_before, earlier, AreOfShares, IsFaultAmong};

use crate::key_share::{KeyShare, first_fault};
use crate::verdict::{StartCell, Verdict};
use fs_model::{Memory, Reply, Request};
use std::alloc::Global;
use std::thread;
use std::thread::Threads;

// The earlier of two faults.
fn earlier(one: Option<u64>, other: Option<u64>) -> Option<u64>
    ensures { result ≡ earlier one other }
{
    match (one, other) {
        (None, fault) | (fault, None) => fault,
        (Some(a), Some(b)) => Some(a.min(b)),
    }
}

// The earliest of the faults of all shares.
fn earliest(faults: &[Result<Option<u64>, Memory>]) -> Result<Option<u64>, Memory>
    ensures { (start : ℕ → Option (List ℕ)) (workers : ℕ) (xs : List (Request × Reply))
        → AreOfShares start workers xs faults.now
        → IfOk result (IsFaultAmong start (is_before workers (length faults.now)) xs) }
{
    let mut least = None;
    for fault in faults {
        least = earlier(least, (*fault)?);
    }
    Ok(least)
}

// The numbers of so many shares.
fn numbers(alloc: Global, count: u32) -> Result<Vec<u32>, Memory>
    ensures len { IfOk result (λ v. length v.items ≡ count) }
    ensures each { IfOk result (λ v. (i : ℕ) → i < count → slice_index v.items i ≡ i) }
{
    let mut numbers = Vec::new(alloc);
    for number in 0..count {
        numbers.push(number)?;
    }
    Ok(numbers)
}

// What each share says.
fn faults_of_shares<R: Threads + Sync>(
    rt: &R,
    alloc: Global,
    start: &[StartCell],
    trace: &[Request],
    replies: &[Reply],
    workers: u32,
) -> Result<Vec<Result<Option<u64>, Memory>>, Memory>
    requires { 0 < workers }
    ensures count { IfOk result (λ v. length v.items ≡ workers) }
    ensures each { IfOk result (λ v. AreOfShares (cells_in start.now) workers
        (zip trace.now replies.now) v.items) }
{
    let faults = thread::map_vec(
        rt,
        numbers(alloc, workers)?,
        &|number: u32| -> Result<Option<u64>, Memory>
            requires { 0 < workers }
            ensures { IfOk result (IsFaultAmong (cells_in start.entry.now) (is_of workers number)
                (zip trace.entry.now replies.entry.now)) }
        {
            let share = KeyShare {
                number,
                count: workers,
            };
            first_fault(alloc, start, trace, replies, share)
        },
    )?;
    Ok(faults)
}

// The number of the first request with which the replies aren't lawful, of those that both lists have, or none.
fn first_fault_of_all<R: Threads + Sync>(
    rt: &R,
    alloc: Global,
    start: &[StartCell],
    trace: &[Request],
    replies: &[Reply],
    workers: u32,
) -> Result<Option<u64>, Memory>
    requires { 0 < workers }
    ensures { IfOk result (IsFaultAmong (cells_in start.now) (λ k. true)
        (zip trace.now replies.now)) }
{
    let faults = faults_of_shares(rt, alloc, start, trace, replies, workers)?;
    earliest(&faults)
}

/// Whether the replies are those of one cell for each key, from the cells of the start on. The requests are divided by
/// key into so many shares, from 1 to 16, each checked by itself, in a thread of its own where one can be had.
pub fn audit<R: Threads + Sync>(
    rt: &R,
    alloc: Global,
    start: &[StartCell],
    trace: &[Request],
    replies: &[Reply],
    workers: u32,
) -> Result<Verdict, Memory>
    requires some { 1 ≤ workers }
    requires few { workers ≤ 16 }
    ensures { IfOk result (Judges (cells_in start.now) trace.now replies.now) }
{
    if let Some(request) = first_fault_of_all(rt, alloc, start, trace, replies, workers)? {
        return Ok(Verdict::Unlawful { request });
    }
    if trace.len() == replies.len() {
        return Ok(Verdict::Lawful);
    }
    let request = trace.len().min(replies.len()) as u64;
    Ok(Verdict::Unlawful { request })
}
