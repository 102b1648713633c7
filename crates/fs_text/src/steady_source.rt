// A source in memory that never fails.
ghost use Rattle.std.specs.Prelude.{◌≡◌, ◌<◌, false, Some};

use crate::feed::Feed;
use crate::source::{Source, SourceFault};

/// A source in memory that never fails.
#[derive(Drop)]
pub struct SteadySource {
    feed: Feed,
    ended: bool,
}

impl SteadySource {
    ghost use Rattle.fs_text.specs.MemorySources.{steady_coming, steady_ended};

    /// A source that gives these bytes, at most `most` a call.
    pub fn new(bytes: Vec<u8>, most: u64) -> SteadySource
        requires { 0 < most }
        ensures coming { steady_coming result ≡ Some bytes.items }
        ensures open { steady_ended result ≡ false }
    {
        SteadySource {
            feed: Feed::new(bytes, most),
            ended: false,
        }
    }
}

impl Source for SteadySource {
    ghost use Rattle.fs_text.specs.MemorySources.{steady_coming, steady_ended};

    ghost coming = { steady_coming };

    ghost ended = { steady_ended };

    ghost fault_count = { λ s. 0 };

    fn read(&mut self, buf: &mut [u8]) -> Result<usize, SourceFault> {
        let count = self.feed.give(buf);
        self.ended = count == 0 && !buf.is_empty();
        Ok(count)
    }

    fn faults(&self) -> u64 {
        0
    }
}
