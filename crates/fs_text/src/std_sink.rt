// A writer of std as a sink.
ghost use Rattle.std.specs.Prelude.{◌≡◌, ◌<◌, ◌≤◌, [], true, false, length, take, None, IfOk, OnOk, OnErr, IfSome, IfNone};
ghost use Rattle.std.specs.Io.KnownBytes.{Appends};
ghost use Rattle.fs_model.specs.Counts.{Rose};
ghost use Rattle.fs_text.specs.Streams.{Takes};

use crate::sink::{Sink, SinkFault};
use std::io::{ErrorKind, Write};

/// A writer of std. It tells nothing of what it took, but for the clauses of `write` and `flush`: what the writer holds
/// grows by the bytes that were answered as taken, where the writer tells.
#[derive(Drop)]
pub struct StdSink<T: Write + Drop> {
    writer: T,
    flushed: bool,
    faults: u64,
}

impl<T: Write + Drop> StdSink<T> {
    /// A sink that writes to this writer. A call that a signal interrupts is tried again, and a write that takes
    /// nothing of a piece that isn't empty is a fault.
    pub fn over(writer: T) -> StdSink<T>
        ensures { result.faults ≡ 0 }
    {
        StdSink {
            writer,
            flushed: true,
            faults: 0,
        }
    }

    // Counts a fault.
    fn fail(&mut self) -> SinkFault
        ensures writer { self.new.writer ≡ self.old.writer }
        ensures flushed { self.new.flushed ≡ self.old.flushed }
        ensures cause { Rose self.old.faults self.new.faults }
        ensures count { self.old.faults ≤ self.new.faults }
    {
        self.faults = self.faults.saturating_add(1);
        SinkFault
    }
}

impl<T: Write + Drop> Sink for StdSink<T> {
    ghost taken = { λ s. None };

    ghost flushed = { λ s. s.flushed };

    ghost fault_count = { λ s. s.faults };

    fn write(&mut self, bytes: &[u8]) -> Result<usize, SinkFault>
        // What is asked of every sink.
        ensures within { IfOk result (λ n. n ≤ length bytes.now) }
        ensures some { IfOk result (λ n. 0 < length bytes.now → 0 < n) }
        ensures takes { IfOk result (λ n. Takes None None (take n bytes.now)) }
        ensures err { OnErr result (Takes None None []) }
        ensures unflushed { self.new.flushed ≡ false }
        ensures cause { OnErr result (Rose self.old.faults self.new.faults) }
        ensures count { self.old.faults ≤ self.new.faults }
        // What the writer took is what was answered, and nothing where it failed.
        ensures taken { IfOk result (λ n. Appends (T.contents self.old.writer)
            (T.contents self.new.writer) (take n bytes.now)) }
        ensures untaken { OnErr result
            (Appends (T.contents self.old.writer) (T.contents self.new.writer) []) }
    {
        self.flushed = false;
        match write_retrying(&mut self.writer, bytes) {
            None => Err(self.fail()),
            Some(0) if !bytes.is_empty() => Err(self.fail()),
            Some(count) => Ok(count),
        }
    }

    fn flush(&mut self) -> Result<(), SinkFault> {
        if !flush_retrying(&mut self.writer) {
            return Err(self.fail());
        }
        self.flushed = true;
        Ok(())
    }

    fn faults(&self) -> u64 {
        self.faults
    }
}

// Writes once, and again where a signal interrupts it. None where it failed.
fn write_retrying<T: Write>(writer: &mut T, bytes: &[u8]) -> Option<usize>
    ensures within { IfSome result (λ n. n ≤ length bytes.now) }
    ensures taken { IfSome result (λ n. Appends (T.contents writer.old) (T.contents writer.new)
        (take n bytes.now)) }
    ensures failed { IfNone result (Appends (T.contents writer.old) (T.contents writer.new) []) }
{
    for _ in 0..u64::MAX {
        match writer.write(bytes) {
            Ok(count) => return Some(count),
            Err(error) if error.kind() == ErrorKind::Interrupted => {}
            Err(_) => break,
        }
    }
    None
}

// Flushes once, and again where a signal interrupts it, and says whether that went well.
fn flush_retrying<T: Write>(writer: &mut T) -> bool {
    for _ in 0..u64::MAX {
        match writer.flush() {
            Ok(()) => return true,
            Err(error) if error.kind() == ErrorKind::Interrupted => {}
            Err(_) => break,
        }
    }
    false
}
