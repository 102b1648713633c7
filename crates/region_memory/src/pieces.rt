// How a history takes its pieces back.
ghost use Rattle.std.specs.Prelude.{◌≡◌, ℕ, ◌+◌, ◌-◌, ◌^◌, ◌≤◌, ◌<◌, true, length, slice_index_or};
ghost use Rattle.region_memory.specs.Moves.{IsUpToDate};
ghost use Rattle.region_memory.specs.Join.{Fits, HasTaken};

use crate::history::History;
use crate::memory_piece::MemoryPiece;

/// Takes the pieces back. It answers whether the history knows all of them.
pub fn take_back<P>(history: &mut History, pieces: &[MemoryPiece<P>], before: bool) -> bool
    requires closed { history.old.journal.since ≡ 2 ^ 64 - 1 }
    requires fits { Fits (λ p. p.history) history.old pieces.now }
    requires up_to_date { before ≡ true → IsUpToDate history.old }
    ensures { HasTaken (λ p. p.history) history.old history.new pieces.now
        (length pieces.now) before result }
{
    let mut complete = before;
    for piece in pieces {
        complete = history.absorb(&piece.history) && complete;
    }
    complete
}

/// The latest stamp of the pieces, and of what they were taken from.
pub fn latest_stamp<P>(pieces: &[MemoryPiece<P>], from: u64) -> u64
    ensures low { from ≤ result }
    ensures pieces { (i : ℕ) (p : _) → i < length pieces.now
        → (slice_index_or pieces.now i p).history.journal.stamp ≤ result }
    ensures least { (n : ℕ) → from ≤ n → ((i : ℕ) (p : _) → i < length pieces.now
        → (slice_index_or pieces.now i p).history.journal.stamp ≤ n) → result ≤ n }
{
    let mut latest = from;
    for piece in pieces {
        latest = latest.max(piece.history.journal.stamp);
    }
    latest
}
