// The text of a verdict.
ghost use Rattle.std.specs.Prelude.{◌≡◌, ◌≤◌, true, string_bytes, IfOk, OnOk, OnErr, IsErrOf};
ghost use Rattle.fs_model.specs.Counts.{Rose};
ghost use Rattle.fs_text.specs.Streams.{Takes, TakesPrefix};
ghost use Rattle.run_audit.specs.VerdictText.{verdict_text};

use crate::verdict::Verdict;
use fs_text::{OutError, Sink, SinkFault};
use std::alloc::{AllocError, Global};

// The verdict's line, with its newline.
fn text_of(alloc: Global, verdict: Verdict) -> Result<String, AllocError>
    ensures { IfOk result (λ text. string_bytes text ≡ verdict_text verdict) }
{
    match verdict {
        Verdict::Lawful => format!(in alloc; "lawful\n"),
        Verdict::Unlawful { request } => format!(in alloc; "unlawful {request}\n"),
    }
}

// Sends all bytes.
fn send_all<O: Sink>(sink: &mut O, bytes: &[u8]) -> Result<(), SinkFault>
    ensures ok { OnOk result (Takes (O.taken sink.old) (O.taken sink.new) bytes.now) }
    ensures err { OnErr result (TakesPrefix (O.taken sink.old) (O.taken sink.new) bytes.now) }
    ensures cause { OnErr result (Rose (O.fault_count sink.old) (O.fault_count sink.new)) }
    ensures count { O.fault_count sink.old ≤ O.fault_count sink.new }
{
    let mut rest = bytes;
    while !rest.is_empty() {
        let count = sink.write(rest)?;
        rest = &rest[count..];
    }
    Ok(())
}

// Sends all bytes, and flushes the sink.
fn send_out<O: Sink>(sink: &mut O, bytes: &[u8]) -> Result<(), SinkFault>
    ensures ok { OnOk result (Takes (O.taken sink.old) (O.taken sink.new) bytes.now) }
    ensures flushed { OnOk result (O.flushed sink.new ≡ true) }
    ensures err { OnErr result (TakesPrefix (O.taken sink.old) (O.taken sink.new) bytes.now) }
    ensures cause { OnErr result (Rose (O.fault_count sink.old) (O.fault_count sink.new)) }
    ensures count { O.fault_count sink.old ≤ O.fault_count sink.new }
{
    send_all(sink, bytes)?;
    sink.flush()
}

/// Writes the line of a verdict, `lawful` or `unlawful` with the request's number, and flushes the sink.
pub fn write_verdict<O: Sink>(alloc: Global, sink: &mut O, verdict: Verdict) -> Result<(), OutError>
    ensures ok { OnOk result (Takes (O.taken sink.old) (O.taken sink.new) (verdict_text verdict)) }
    ensures flushed { OnOk result (O.flushed sink.new ≡ true) }
    ensures err { OnErr result (TakesPrefix (O.taken sink.old) (O.taken sink.new)
        (verdict_text verdict)) }
    ensures cause { IsErrOf result OutError.SinkFault
        → Rose (O.fault_count sink.old) (O.fault_count sink.new) }
    ensures count { O.fault_count sink.old ≤ O.fault_count sink.new }
{
    let text = text_of(alloc, verdict)?;
    send_out(sink, text.as_bytes())?;
    Ok(())
}
