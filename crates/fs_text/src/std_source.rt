// A reader of std as a source.
ghost use Rattle.std.specs.Prelude.{◌≡◌, ◌<◌, ◌≤◌, [], false, length, take, IfSome, IfNone};
ghost use Rattle.fs_text.specs.Streams.{Gives, IsAtEnd};

use crate::source::{Source, SourceFault};
use std::io::{ErrorKind, Read};

/// A reader of std. It tells what is to come where the reader does.
#[derive(Drop)]
pub struct StdSource<T: Read + Drop> {
    reader: T,
    faults: u64,
    ended: bool,
}

impl<T: Read + Drop> StdSource<T> {
    /// A source that reads from this reader. A read that a signal interrupts is tried again.
    pub fn over(reader: T) -> StdSource<T>
        ensures reader { result.reader ≡ reader }
        ensures faults { result.faults ≡ 0 }
        ensures open { result.ended ≡ false }
    {
        StdSource {
            reader,
            faults: 0,
            ended: false,
        }
    }
}

impl<T: Read + Drop> Source for StdSource<T> {
    ghost coming = { λ s. T.remaining s.reader };

    ghost ended = { λ s. s.ended };

    ghost fault_count = { λ s. s.faults };

    fn read(&mut self, buf: &mut [u8]) -> Result<usize, SourceFault> {
        match read_retrying(&mut self.reader, buf) {
            Some(count) => {
                self.ended = count == 0 && !buf.is_empty();
                Ok(count)
            }
            None => {
                self.faults = self.faults.saturating_add(1);
                Err(SourceFault)
            }
        }
    }

    fn faults(&self) -> u64 {
        self.faults
    }
}

// Reads once, and again where a signal interrupts it. None where it failed.
fn read_retrying<T: Read>(reader: &mut T, buf: &mut [u8]) -> Option<usize>
    ensures within { IfSome result (λ n. n ≤ length buf.new) }
    ensures gives { IfSome result (λ n. Gives (T.remaining reader.old) (T.remaining reader.new)
        (take n buf.new)) }
    ensures end { IfSome result (λ n. n ≡ 0 → 0 < length buf.old
        → IsAtEnd (T.remaining reader.new)) }
    ensures failed { IfNone result (Gives (T.remaining reader.old) (T.remaining reader.new) []) }
{
    for _ in 0..u64::MAX {
        match reader.read(buf) {
            Ok(count) => return Some(count),
            Err(error) if error.kind() == ErrorKind::Interrupted => {}
            Err(_) => break,
        }
    }
    None
}
