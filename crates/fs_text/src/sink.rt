// Where an output goes.
ghost use Rattle.std.specs.Prelude.{◌≡◌, ℕ, ◌<◌, ◌≤◌, List, [], Option, Bool, true, false, length, take, IfOk, OnOk, OnErr};
ghost use Rattle.fs_model.specs.Counts.{Rose};
ghost use Rattle.fs_text.specs.Streams.{Takes};

use thiserror::Error;

/// A write or a flush that failed.
#[derive(Clone, Copy, Debug, PartialEq, Eq, Error)]
#[error("the sink failed")]
pub struct SinkFault;

/// What takes bytes, one piece after the other.
pub trait Sink {
    /// The bytes taken so far, where the sink tells them. A real stream doesn't.
    ghost taken: { Self → Option (List ℕ) };

    /// Whether nothing was written since the last flush.
    ghost flushed: { Self → Bool };

    /// How many writes and flushes have failed.
    ghost fault_count: { Self → ℕ };

    /// Takes bytes from the front of a piece, and answers how many: at least one, where there is one. A write that
    /// fails takes none.
    fn write(&mut self, bytes: &[u8]) -> Result<usize, SinkFault>
        ensures within { IfOk result (λ n. n ≤ length bytes.now) }
        ensures some { IfOk result (λ n. 0 < length bytes.now → 0 < n) }
        ensures takes { IfOk result (λ n. Takes (taken self.old) (taken self.new)
            (take n bytes.now)) }
        ensures err { OnErr result (Takes (taken self.old) (taken self.new) []) }
        ensures unflushed { flushed self.new ≡ false }
        ensures cause { OnErr result (Rose (fault_count self.old) (fault_count self.new)) }
        ensures count { fault_count self.old ≤ fault_count self.new };

    /// Sends what was taken on its way. A flush that fails takes nothing back.
    fn flush(&mut self) -> Result<(), SinkFault>
        ensures taken { Takes (taken self.old) (taken self.new) [] }
        ensures ok { OnOk result (flushed self.new ≡ true) }
        ensures cause { OnErr result (Rose (fault_count self.old) (fault_count self.new)) }
        ensures count { fault_count self.old ≤ fault_count self.new };

    /// How many writes and flushes have failed. The count stands still at the type's end.
    fn faults(&self) -> u64
        ensures { result ≡ fault_count self.now };
}
