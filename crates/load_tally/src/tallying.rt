// A tally that grows.
ghost use Rattle.std.specs.Prelude.{◌≡◌, ◌+◌, ◌^◌, ◌<◌, List, [], ◌∷◌, ◌++◌};
ghost use Rattle.fs_model.specs.declared.model.Reply as replies_of;
ghost use Rattle.load_tally.specs.Tallied.{IsWithin, tally_of, bytes_of};

use fs_model::{Pair, Reply};
use fs_text::LoadTally;

/// The tally of no requests, on a region without a live pair.
pub fn nothing() -> LoadTally
    ensures none { result ≡ tally_of [] [] }
    ensures within { IsWithin result }
{
    LoadTally {
        requests: 0,
        stored: 0,
        value: 0,
        absent: 0,
        deleted: 0,
        refused: 0,
        live: 0,
        bytes: 0,
    }
}

/// Counts the next reply, behind those that were counted.
pub fn add_reply(tally: &mut LoadTally, reply: &Reply)
    requires within { IsWithin tally.old }
    requires room { tally.old.requests + 1 < 2 ^ 64 }
    ensures counts { (rs : List replies_of.Reply) → tally.old ≡ tally_of rs []
        → tally.new ≡ tally_of (rs ++ reply.now ∷ []) [] }
    ensures within { IsWithin tally.new }
    ensures requests { tally.new.requests ≡ tally.old.requests + 1 }
{
    tally.requests += 1;
    match reply {
        Reply::Stored => tally.stored += 1,
        Reply::Value(_) => tally.value += 1,
        Reply::Absent => tally.absent += 1,
        Reply::Deleted => tally.deleted += 1,
        Reply::Full | Reply::VersionsSpent | Reply::TooLong | Reply::Stopped => tally.refused += 1,
    }
}

// How long their values are together.
fn bytes_together(pairs: &[Pair]) -> u64
    ensures { result ≡ bytes_of pairs.now }
{
    let mut bytes: u64 = 0;
    for pair in pairs {
        bytes = bytes.saturating_add(pair.value.bytes().len() as u64);
    }
    bytes
}

/// Counts the live pairs that the region has behind the replies that were counted. The bytes of their values stand still
/// at the type's end.
pub fn add_pairs(tally: &mut LoadTally, pairs: &[Pair])
    ensures { (rs : List replies_of.Reply) → tally.old ≡ tally_of rs []
        → tally.new ≡ tally_of rs pairs.now }
{
    tally.live = pairs.len() as u64;
    tally.bytes = bytes_together(pairs);
}
