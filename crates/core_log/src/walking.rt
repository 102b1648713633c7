// A log is read by places.
ghost use Rattle.std.specs.Prelude.{◌≡◌, ◌≢◌, ◌⊎◌, ℕ, ◌+◌, ◌-◌, ◌*◌, ◌/◌, ◌%◌, ◌^◌, ◌≤◌, ◌<◌, length, option_map, Option, IfOk, IfSome};
ghost use Rattle.pm_region.specs.State.{State, Frame, IsTelling, cell_now, WordsLie};
ghost use Rattle.pm_region.specs.Words.{lasts};
ghost use Rattle.log_entry.specs.Words.{words_from};
ghost use Rattle.log_entry.specs.Batches.{scan_of};
ghost use Rattle.core_log.specs.Log.{Spelled};
ghost use Rattle.core_log.specs.Walking.{IsBetween, next_entry, step_at, peek_at};

use crate::types::{Peek, WalkStep};
use chunk_map::words::load_words;
use fs_model::Memory;
use log_entry::{EntryName, LONGEST_ENTRY, Read, read_entry, size_of, version_of};
use pm_region::Region;
use std::alloc::Global;

// The first place that has no zero word, from a place on; the tail where there is none.
fn skip_zeros<R: Region>(region: &R, first: u64, place: u64, tail: u64) -> u64
    requires lies { WordsLie (R.state region.now).frame first tail }
    requires place { place ≤ tail }
    ensures from { place ≤ result }
    ensures end { result ≤ tail }
    ensures zeros { IsTelling (R.state region.now) → (k : ℕ) → place ≤ k → k < result
        → lasts (R.state region.now) (first + k) ≡ 0 }
    ensures some { IsTelling (R.state region.now) → result < tail
        → lasts (R.state region.now) (first + result) ≢ 0 }
{
    for i in place..tail {
        if region.load(first + i) != 0 {
            return i;
        }
    }
    tail
}

/// The next entry at or after a place of a payload, without its body. The payload begins at word `first`.
pub fn peek_from<R: Region>(region: &R, first: u64, place: u64, tail: u64) -> Option<Peek>
    requires lies { WordsLie (R.state region.now).frame first tail }
    requires place { place ≤ tail }
    requires spelled { IsTelling (R.state region.now)
        → Spelled (words_from (lasts (R.state region.now)) first tail) }
    requires between { IsTelling (R.state region.now)
        → IsBetween place (scan_of (words_from (lasts (R.state region.now)) first tail)).entries }
    ensures told { IsTelling (R.state region.now)
        → result ≡ option_map (peek_at first)
        (next_entry place (scan_of (words_from (lasts (R.state region.now)) first tail)).entries) }
    ensures next { IsTelling (R.state region.now)
        → IfSome result (λ p. IsBetween p.next
        (scan_of (words_from (lasts (R.state region.now)) first tail)).entries) }
    ensures within { IfSome result (λ p. (place ≤ p.place)
        × ((p.place < p.next) × (p.next ≤ tail))) }
    ensures at { IfSome result (λ p. p.at ≡ first + p.place) }
    ensures size { IfSome result (λ p. p.next ≤ p.place + LONGEST_ENTRY) }
{
    let at = skip_zeros(region, first, place, tail);
    if at >= tail {
        return None;
    }
    let word = region.load(first + at);
    let size = size_of(word);
    if size > tail - at {
        return None;
    }
    let name = EntryName {
        key: region.load(first + at + 1),
        version: version_of(word),
    };
    Some(Peek {
        name,
        place: at,
        next: at + size,
        at: first + at,
    })
}

/// The same with the body.
pub fn walk_from<R: Region>(
    alloc: Global,
    region: &R,
    first: u64,
    place: u64,
    tail: u64,
) -> Result<Option<WalkStep>, Memory>
    requires lies { WordsLie (R.state region.now).frame first tail }
    requires place { place ≤ tail }
    requires spelled { IsTelling (R.state region.now)
        → Spelled (words_from (lasts (R.state region.now)) first tail) }
    requires between { IsTelling (R.state region.now)
        → IsBetween place (scan_of (words_from (lasts (R.state region.now)) first tail)).entries }
    ensures told { IfOk result (λ step. IsTelling (R.state region.now)
        → step ≡ option_map step_at
        (next_entry place (scan_of (words_from (lasts (R.state region.now)) first tail)).entries)) }
    ensures next { IfOk result (λ step. IsTelling (R.state region.now)
        → IfSome step (λ s. IsBetween s.next
        (scan_of (words_from (lasts (R.state region.now)) first tail)).entries)) }
    ensures within { IfOk result (λ step. IfSome step (λ s. (place ≤ s.place)
        × ((s.place < s.next) × (s.next ≤ tail)))) }
{
    let Some(found) = peek_from(region, first, place, tail) else {
        return Ok(None);
    };
    let words = load_words(alloc, region, found.at, found.next - found.place)?;
    match read_entry(alloc, &words, 0)? {
        Read::Entry { entry, length: _ } => Ok(Some(WalkStep {
            entry,
            place: found.place,
            next: found.next,
        })),
        _ => Ok(None),
    }
}
