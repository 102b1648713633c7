// A source in memory whose reads fail by a list.
ghost use Rattle.std.specs.Prelude.{◌≡◌, ◌<◌, false, Some};

use crate::feed::Feed;
use crate::source::{Source, SourceFault};

/// A source in memory. Its reads are numbered from 1, and those of the list fail.
#[derive(Drop)]
pub struct MemSource {
    feed: Feed,
    fails: Vec<u64>,
    calls: u64,
    faults: u64,
    ended: bool,
}

impl MemSource {
    ghost use Rattle.fs_text.specs.MemorySources.{mem_coming, mem_ended, mem_source_faults};

    /// A source that gives these bytes, at most `most` a call. The reads with the numbers in `fails` fail.
    pub fn new(bytes: Vec<u8>, most: u64, fails: Vec<u64>) -> MemSource
        requires { 0 < most }
        ensures coming { mem_coming result ≡ Some bytes.items }
        ensures faults { mem_source_faults result ≡ 0 }
        ensures open { mem_ended result ≡ false }
    {
        MemSource {
            feed: Feed::new(bytes, most),
            fails,
            calls: 0,
            faults: 0,
            ended: false,
        }
    }
}

impl Source for MemSource {
    ghost use Rattle.fs_text.specs.MemorySources.{mem_coming, mem_ended, mem_source_faults};

    ghost coming = { mem_coming };

    ghost ended = { mem_ended };

    ghost fault_count = { mem_source_faults };

    fn read(&mut self, buf: &mut [u8]) -> Result<usize, SourceFault> {
        self.calls = self.calls.saturating_add(1);
        if self.fails.contains(&self.calls) {
            self.faults = self.faults.saturating_add(1);
            return Err(SourceFault);
        }
        let count = self.feed.give(buf);
        self.ended = count == 0 && !buf.is_empty();
        Ok(count)
    }

    fn faults(&self) -> u64 {
        self.faults
    }
}
