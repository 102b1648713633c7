// The texts of answers.
ghost use Rattle.std.specs.Prelude.{◌≡◌, ◌≤◌, true, string_bytes, IfOk, OnOk, OnErr, IsErrOf};
ghost use Rattle.fs_model.specs.Counts.{Rose};
ghost use Rattle.fs_text.specs.Output.{ended};
ghost use Rattle.fs_text.specs.Streams.{Takes, TakesPrefix};
ghost use Rattle.query_text.specs.Answers.{last_line, page_text, count_text};

use fs_model::{Key, Pair};
use fs_text::pending_text::PendingText;
use fs_text::{OutError, Sink, write_pairs};
use std::alloc::{AllocError, Global};

// Writes a text, and flushes the sink.
fn write_text<O: Sink>(alloc: Global, sink: &mut O, text: &[u8]) -> Result<(), OutError>
    ensures ok { OnOk result (Takes (O.taken sink.old) (O.taken sink.new) text.now) }
    ensures flushed { OnOk result (O.flushed sink.new ≡ true) }
    ensures err { OnErr result (TakesPrefix (O.taken sink.old) (O.taken sink.new) text.now) }
    ensures cause { IsErrOf result OutError.SinkFault
        → Rose (O.fault_count sink.old) (O.fault_count sink.new) }
    ensures count { O.fault_count sink.old ≤ O.fault_count sink.new }
{
    let mut pending = PendingText::new(alloc)?;
    pending.put(sink, text)?;
    pending.finish(sink)?;
    Ok(())
}

// The line behind the pairs of a page.
fn last_line(alloc: Global, more: Option<Key>) -> Result<String, AllocError>
    ensures { IfOk result (λ text. string_bytes text ≡ ended (last_line more)) }
{
    match more {
        Some(key) => format!(in alloc; "more {key}\n"),
        None => String::from_str(alloc, "end\n"),
    }
}

/// Writes a line for each pair of a page, and a line with the next key, or `end` where there is none, and flushes the
/// sink.
pub fn write_page<O: Sink>(
    alloc: Global,
    sink: &mut O,
    pairs: &[Pair],
    more: Option<Key>,
) -> Result<(), OutError>
    ensures ok { OnOk result (Takes (O.taken sink.old) (O.taken sink.new)
        (page_text pairs.now more)) }
    ensures flushed { OnOk result (O.flushed sink.new ≡ true) }
    ensures err { OnErr result (TakesPrefix (O.taken sink.old) (O.taken sink.new)
        (page_text pairs.now more)) }
    ensures cause { IsErrOf result OutError.SinkFault
        → Rose (O.fault_count sink.old) (O.fault_count sink.new) }
    ensures count { O.fault_count sink.old ≤ O.fault_count sink.new }
{
    let last = last_line(alloc, more)?;
    write_pairs(alloc, sink, pairs)?;
    write_text(alloc, sink, last.as_bytes())
}

/// Writes a line with a number, and flushes the sink.
pub fn write_count<O: Sink>(alloc: Global, sink: &mut O, count: u64) -> Result<(), OutError>
    ensures ok { OnOk result (Takes (O.taken sink.old) (O.taken sink.new) (count_text count)) }
    ensures flushed { OnOk result (O.flushed sink.new ≡ true) }
    ensures err { OnErr result (TakesPrefix (O.taken sink.old) (O.taken sink.new)
        (count_text count)) }
    ensures cause { IsErrOf result OutError.SinkFault
        → Rose (O.fault_count sink.old) (O.fault_count sink.new) }
    ensures count { O.fault_count sink.old ≤ O.fault_count sink.new }
{
    let text = format!(in alloc; "{count}\n")?;
    write_text(alloc, sink, text.as_bytes())
}
