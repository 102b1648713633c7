// A sink in memory whose calls fail by a list.
ghost use Rattle.std.specs.Prelude.{◌≡◌, ◌+◌, ◌^◌, ◌-◌, ◌<◌, ◌≤◌, [], Some, IfOk, OnErr, option_copied};
ghost use Rattle.fs_model.specs.Counts.{Rose};

use crate::byte_store::Store;
use crate::sink::{Sink, SinkFault};
use fs_model::Memory;
use std::alloc::Global;

/// A sink in memory. Its writes and flushes are numbered together from 1, and those of the list fail.
#[derive(Drop)]
pub struct MemSink {
    store: Store,
    flushed: bool,
    fails: Vec<u64>,
    calls: u64,
    faults: u64,
}

impl MemSink {
    ghost use Rattle.fs_text.specs.MemorySinks.{mem_taken, mem_room, mem_sink_faults};

    /// A sink that keeps the first `room` bytes, and takes at most `most` a call. The writes and flushes with the
    /// numbers in `fails` fail.
    pub fn new(alloc: Global, room: u64, most: u64, fails: Vec<u64>) -> Result<MemSink, Memory>
        requires { 0 < most }
        ensures taken { IfOk result (λ s. mem_taken s ≡ Some []) }
        ensures room { IfOk result (λ s. mem_room s ≡ room) }
        ensures faults { IfOk result (λ s. mem_sink_faults s ≡ 0) }
    {
        let store = Store::new(alloc, room, most)?;
        Ok(MemSink {
            store,
            flushed: true,
            fails,
            calls: 0,
            faults: 0,
        })
    }

    /// The bytes taken. None where more came than there was room for.
    pub fn text(&self) -> Option<&[u8]>
        ensures { option_copied result ≡ mem_taken self.now }
    {
        self.store.text()
    }

    // Counts a call, and fails where its number is in the list.
    fn count_call(&mut self) -> Result<(), SinkFault>
        ensures store { self.new.store ≡ self.old.store }
        ensures flushed { self.new.flushed ≡ self.old.flushed }
        ensures cause { OnErr result (Rose self.old.faults self.new.faults) }
        ensures count { self.old.faults ≤ self.new.faults }
    {
        self.calls = self.calls.saturating_add(1);
        if self.fails.contains(&self.calls) {
            self.faults = self.faults.saturating_add(1);
            return Err(SinkFault);
        }
        Ok(())
    }
}

impl Sink for MemSink {
    ghost use Rattle.fs_text.specs.MemorySinks.{mem_taken, mem_flushed, mem_sink_faults};

    ghost taken = { mem_taken };

    ghost flushed = { mem_flushed };

    ghost fault_count = { mem_sink_faults };

    fn write(&mut self, bytes: &[u8]) -> Result<usize, SinkFault> {
        self.flushed = false;
        self.count_call()?;
        Ok(self.store.take(bytes))
    }

    fn flush(&mut self) -> Result<(), SinkFault> {
        self.count_call()?;
        self.flushed = true;
        Ok(())
    }

    fn faults(&self) -> u64 {
        self.faults
    }
}
