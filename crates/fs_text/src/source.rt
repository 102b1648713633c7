// Where an input comes from.
ghost use Rattle.std.specs.Prelude.{◌≡◌, ℕ, ◌<◌, ◌≤◌, List, [], Bool, false, Option, length, take, IfOk, OnErr};
ghost use Rattle.fs_model.specs.Counts.{Rose};
ghost use Rattle.fs_text.specs.Streams.{Gives, IsAtEnd, is_end};

use thiserror::Error;

/// A read that failed.
#[derive(Clone, Copy, Debug, PartialEq, Eq, Error)]
#[error("the source failed")]
pub struct SourceFault;

/// Bytes that come one piece after the other, and then end.
pub trait Source {
    /// The bytes still to come, where the source tells them. A real stream doesn't.
    ghost coming: { Self → Option (List ℕ) };

    /// Whether a read has answered that it is at its end. Nothing is read behind that.
    ghost ended: { Self → Bool };

    /// How many reads have failed.
    ghost fault_count: { Self → ℕ };

    /// Puts the next bytes at the front of `buf`, and answers how many. It answers 0 at the end, and where `buf` has
    /// no room. A read that fails takes nothing away from what is still to come.
    fn read(&mut self, buf: &mut [u8]) -> Result<usize, SourceFault>
        requires open { ended self.old ≡ false }
        ensures within { IfOk result (λ n. n ≤ length buf.new) }
        ensures gives { IfOk result (λ n. Gives (coming self.old) (coming self.new)
            (take n buf.new)) }
        ensures end { IfOk result (λ n. n ≡ 0 → 0 < length buf.old → IsAtEnd (coming self.new)) }
        ensures told { IfOk result (λ n. ended self.new ≡ is_end n (length buf.old)) }
        ensures open { OnErr result (ended self.new ≡ false) }
        ensures err { OnErr result (Gives (coming self.old) (coming self.new) []) }
        ensures cause { OnErr result (Rose (fault_count self.old) (fault_count self.new)) }
        ensures count { fault_count self.old ≤ fault_count self.new };

    /// How many reads have failed. The count stands still at the type's end.
    fn faults(&self) -> u64
        ensures { result ≡ fault_count self.now };
}
