// A sink in memory that never fails.
ghost use Rattle.std.specs.Prelude.{◌≡◌, ◌<◌, [], Some, IfOk, option_copied};

use crate::byte_store::Store;
use crate::sink::{Sink, SinkFault};
use fs_model::Memory;
use std::alloc::Global;

/// A sink in memory that never fails.
#[derive(Drop)]
pub struct SteadySink {
    store: Store,
    flushed: bool,
}

impl SteadySink {
    ghost use Rattle.fs_text.specs.MemorySinks.{steady_taken, steady_room};

    /// A sink that keeps the first `room` bytes, and takes at most `most` a call.
    pub fn new(alloc: Global, room: u64, most: u64) -> Result<SteadySink, Memory>
        requires { 0 < most }
        ensures taken { IfOk result (λ s. steady_taken s ≡ Some []) }
        ensures room { IfOk result (λ s. steady_room s ≡ room) }
    {
        let store = Store::new(alloc, room, most)?;
        Ok(SteadySink {
            store,
            flushed: true,
        })
    }

    /// The bytes taken. None where more came than there was room for.
    pub fn text(&self) -> Option<&[u8]>
        ensures { option_copied result ≡ steady_taken self.now }
    {
        self.store.text()
    }
}

impl Sink for SteadySink {
    ghost use Rattle.fs_text.specs.MemorySinks.{steady_taken, steady_flushed};

    ghost taken = { steady_taken };

    ghost flushed = { steady_flushed };

    ghost fault_count = { λ s. 0 };

    fn write(&mut self, bytes: &[u8]) -> Result<usize, SinkFault> {
        self.flushed = false;
        Ok(self.store.take(bytes))
    }

    fn flush(&mut self) -> Result<(), SinkFault> {
        self.flushed = true;
        Ok(())
    }

    fn faults(&self) -> u64 {
        0
    }
}
