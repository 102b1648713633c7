// Text on its way to a sink.
ghost use Rattle.std.specs.Prelude.{◌≡◌, ◌+◌, ◌≤◌, [], ◌++◌, true, length, IfOk, OnOk, OnErr, IsErrOf};
ghost use Rattle.fs_model.specs.Counts.{Rose};
ghost use Rattle.fs_text.specs.Streams.{Takes, TakesUpTo, TakesPrefix};

use crate::sink::{Sink, SinkFault};
use std::alloc::{AllocError, Global};
use std::marker::Model;

/// The bytes that a sink is given at a time, but for longer values.
const PIECE: usize = 8_192;

// Sends all of a piece.
fn send_all<O: Sink>(sink: &mut O, bytes: &[u8]) -> Result<(), SinkFault>
    ensures ok { OnOk result (Takes (O.taken sink.old) (O.taken sink.new) bytes.now) }
    ensures err { OnErr result (TakesPrefix (O.taken sink.old) (O.taken sink.new) bytes.now) }
    ensures cause { OnErr result (Rose (O.fault_count sink.old) (O.fault_count sink.new)) }
    ensures count { O.fault_count sink.old ≤ O.fault_count sink.new }
{
    let mut rest = bytes;
    while !rest.is_empty() {
        let count = sink.write(rest)?;
        rest = &rest[count..];
    }
    Ok(())
}

/// Text that waits to be sent, so that a sink isn't called for each line. Contracts see its bytes.
#[derive(Drop)]
pub struct PendingText {
    bytes: Vec<u8>,
}

impl Model for PendingText {
    ghost use Rattle.std.specs.Prelude.{ℕ, ◌≤◌, List, length, vec_capacity};

    ghost Value = { List ℕ };

    ghost view = { λ p. p.bytes.items };

    ghost invariant = { λ p. (length p.bytes.items ≤ 8192) × (8192 ≤ vec_capacity p.bytes) };
}

impl PendingText {
    /// None yet, with room for a piece.
    pub fn new(alloc: Global) -> Result<PendingText, AllocError>
        ensures { IfOk result (λ p. p ≡ []) }
    {
        let bytes = Vec::with_capacity(alloc, PIECE)?;
        Ok(PendingText { bytes })
    }

    // Sends what waits.
    fn send<O: Sink>(&mut self, sink: &mut O) -> Result<(), SinkFault>
        ensures sent { OnOk result (self.new ≡ []) }
        ensures ok { OnOk result (Takes (O.taken sink.old) (O.taken sink.new) self.old) }
        ensures err { OnErr result (TakesPrefix (O.taken sink.old) (O.taken sink.new) self.old) }
        ensures cause { OnErr result (Rose (O.fault_count sink.old) (O.fault_count sink.new)) }
        ensures count { O.fault_count sink.old ≤ O.fault_count sink.new }
    {
        send_all(sink, &self.bytes)?;
        self.bytes.clear();
        Ok(())
    }

    // Keeps bytes for which there is room.
    fn keep(&mut self, bytes: &[u8])
        requires { length self.old + length bytes.now ≤ 8192 }
        ensures { self.new ≡ self.old ++ bytes.now }
    {
        match self.bytes.extend_from_slice(bytes) {
            Ok(()) => {}
            Err(_) => unreachable!(),
        }
    }

    // Whether there is room for these bytes.
    fn has_room(&self, bytes: &[u8]) -> bool
        ensures { result ≡ true → length self.now + length bytes.now ≤ 8192 }
    {
        bytes.len() <= PIECE - self.bytes.len()
    }

    /// Puts bytes behind what waits, and sends what there is no room for.
    pub fn put<O: Sink>(&mut self, sink: &mut O, bytes: &[u8]) -> Result<(), SinkFault>
        ensures ok { OnOk result (TakesUpTo (O.taken sink.old) (O.taken sink.new)
            (self.old ++ bytes.now) self.new) }
        ensures err { OnErr result (TakesPrefix (O.taken sink.old) (O.taken sink.new)
            (self.old ++ bytes.now)) }
        ensures cause { OnErr result (Rose (O.fault_count sink.old) (O.fault_count sink.new)) }
        ensures count { O.fault_count sink.old ≤ O.fault_count sink.new }
    {
        if self.has_room(bytes) {
            self.keep(bytes);
            return Ok(());
        }
        self.send(sink)?;
        if !self.has_room(bytes) {
            return send_all(sink, bytes);
        }
        self.keep(bytes);
        Ok(())
    }

    /// Sends what waits, and flushes the sink.
    pub fn finish<O: Sink>(&mut self, sink: &mut O) -> Result<(), SinkFault>
        ensures ok { OnOk result (Takes (O.taken sink.old) (O.taken sink.new) self.old) }
        ensures flushed { OnOk result (O.flushed sink.new ≡ true) }
        ensures err { OnErr result (TakesPrefix (O.taken sink.old) (O.taken sink.new) self.old) }
        ensures cause { OnErr result (Rose (O.fault_count sink.old) (O.fault_count sink.new)) }
        ensures count { O.fault_count sink.old ≤ O.fault_count sink.new }
    {
        self.send(sink)?;
        sink.flush()
    }
}
