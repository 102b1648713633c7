// The text of a window's answers.
ghost use Rattle.std.specs.Prelude.{◌≡◌, ◌≤◌, ◌++◌, map, true, OnOk, OnErr, IsErrOf};
ghost use Rattle.fs_model.specs.Counts.{Rose};
ghost use Rattle.fs_text.specs.Output.{ended, reply_line, replies_text};
ghost use Rattle.fs_text.specs.Streams.{Takes, TakesUpTo, TakesPrefix};
ghost use Rattle.engine_core.specs.Reports.{reply_in};

use engine_core::types::Stamped;
use fs_model::Reply;
use fs_text::pending_text::PendingText;
use fs_text::{OutError, Sink, SinkFault};
use std::alloc::Global;

// The line of an answer in two parts, of which the second is a value or empty.
fn parts_of(answer: &Option<Stamped>) -> (&str, &[u8])
    ensures { result.0.now ++ result.1.now ≡ reply_line (reply_in answer.now) }
{
    match answer {
        None => ("stopped", b""),
        Some(answer) => match &answer.reply {
            Reply::Stored => ("stored", b""),
            Reply::Value(value) => ("value ", value.bytes()),
            Reply::Absent => ("absent", b""),
            Reply::Deleted => ("deleted", b""),
            Reply::Full => ("full", b""),
            Reply::VersionsSpent => ("versions spent", b""),
            Reply::TooLong => ("too long", b""),
            Reply::Stopped => ("stopped", b""),
        },
    }
}

// Puts the line of an answer, and its newline.
fn put_answer<O: Sink>(
    pending: &mut PendingText,
    sink: &mut O,
    answer: &Option<Stamped>,
) -> Result<(), SinkFault>
    ensures ok { OnOk result (TakesUpTo (O.taken sink.old) (O.taken sink.new)
        (pending.old ++ ended (reply_line (reply_in answer.now))) pending.new) }
    ensures err { OnErr result (TakesPrefix (O.taken sink.old) (O.taken sink.new)
        (pending.old ++ ended (reply_line (reply_in answer.now)))) }
    ensures cause { OnErr result (Rose (O.fault_count sink.old) (O.fault_count sink.new)) }
    ensures count { O.fault_count sink.old ≤ O.fault_count sink.new }
{
    let (word, value) = parts_of(answer);
    pending.put(sink, word.as_bytes())?;
    pending.put(sink, value)?;
    pending.put(sink, b"\n")
}

/// Writes the line of each answer in order, and flushes the sink once.
pub fn write_answers<O: Sink>(
    alloc: Global,
    sink: &mut O,
    answers: &[Option<Stamped>],
) -> Result<(), OutError>
    ensures ok { OnOk result (Takes (O.taken sink.old) (O.taken sink.new)
        (replies_text (map reply_in answers.now))) }
    ensures flushed { OnOk result (O.flushed sink.new ≡ true) }
    ensures err { OnErr result (TakesPrefix (O.taken sink.old) (O.taken sink.new)
        (replies_text (map reply_in answers.now))) }
    ensures cause { IsErrOf result OutError.SinkFault
        → Rose (O.fault_count sink.old) (O.fault_count sink.new) }
    ensures count { O.fault_count sink.old ≤ O.fault_count sink.new }
{
    let mut pending = PendingText::new(alloc)?;
    for answer in answers {
        put_answer(&mut pending, sink, answer)?;
    }
    pending.finish(sink)?;
    Ok(())
}
