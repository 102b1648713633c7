// Bytes in memory that are handed out in pieces.
ghost use Rattle.std.specs.Prelude.{◌≡◌, ℕ, ◌<◌, ◌≤◌, List, [], ◌++◌, length, take, drop};

use std::marker::Model;

/// The bytes that are still to be handed out, at most so many a call.
#[derive(Drop)]
pub struct Feed {
    bytes: Vec<u8>,
    at: usize,
    most: u64,
}

impl Model for Feed {
    ghost Value = { List ℕ };

    ghost view = { λ f. drop f.at f.bytes.items };

    ghost invariant = { λ f. (f.at ≤ length f.bytes.items) × (0 < f.most) };
}

impl Feed {
    /// These bytes, in reads of at most so many.
    pub fn new(bytes: Vec<u8>, most: u64) -> Feed
        requires { 0 < most }
        ensures { result ≡ bytes.items }
    {
        Feed { bytes, at: 0, most }
    }

    /// Moves the next bytes to the front of `buf`, and answers how many.
    pub fn give(&mut self, buf: &mut [u8]) -> usize
        ensures within { result ≤ length buf.new }
        ensures gives { self.old ≡ take result buf.new ++ self.new }
        ensures end { result ≡ 0 → 0 < length buf.old → self.new ≡ [] }
    {
        let left = self.bytes.len() - self.at;
        let count = (buf.len().min(left) as u64).min(self.most) as usize;
        let end = self.at + count;
        buf[..count].copy_from_slice(&self.bytes[self.at..end]);
        self.at = end;
        count
    }
}
