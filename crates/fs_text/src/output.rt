// The texts of replies, pairs, entries and tallies.
ghost use Rattle.std.specs.Prelude.{◌≡◌, ℕ, ◌≤◌, List, ◌++◌, true, string_bytes, IfOk, OnOk, OnErr, IsErrOf};
ghost use Rattle.fs_model.specs.Counts.{Rose};
ghost use Rattle.fs_text.specs.Output.{ended, lines_text, reply_line, replies_text, pair_line, pairs_text, body_text, place_text, entry_line, entries_text, count_line, tally_text};
ghost use Rattle.fs_text.specs.Streams.{Takes, TakesUpTo, TakesPrefix};

use crate::line::LoadTally;
use crate::pending_text::PendingText;
use crate::sink::{Sink, SinkFault};
use fs_model::{Pair, Reply};
use log_entry::entry::Body;
use std::alloc::{AllocError, Global};
use store_image::types::PlacedEntry;
use thiserror::Error;

/// Why a text went out in part. What went out is a prefix of it, perhaps all of it.
#[derive(Clone, Copy, Debug, PartialEq, Eq, Error)]
pub enum OutError {
    /// The sink failed.
    #[error("the sink failed")]
    SinkFault,
    /// No memory.
    #[error("out of memory")]
    Memory,
}

impl From<SinkFault> for OutError {
    ghost use Rattle.fs_text.specs.declared.output.OutError.TheVariants as errors;

    ghost from_gives = { λ _ e. e ≡ errors.SinkFault };

    fn from(_: SinkFault) -> OutError {
        OutError::SinkFault
    }
}

impl From<AllocError> for OutError {
    ghost use Rattle.fs_text.specs.declared.output.OutError.TheVariants as errors;

    ghost from_gives = { λ _ e. e ≡ errors.Memory };

    fn from(_: AllocError) -> OutError {
        OutError::Memory
    }
}

// What has a line of its own in a text.
trait TextLine {
    // The line without its newline.
    ghost line: { Self → List ℕ };

    // Puts the front of the line behind what stands in `front`, and answers the rest of the line.
    fn render<'a>(&'a self, front: &mut String) -> Result<&'a [u8], AllocError>
        ensures { IfOk result (λ rest. string_bytes front.new ++ rest.now ≡ string_bytes front.old
            ++ line self.now) };
}

// Puts a line, made of two parts, and its newline.
fn put_line<O: Sink>(
    pending: &mut PendingText,
    sink: &mut O,
    front: &[u8],
    rest: &[u8],
) -> Result<(), SinkFault>
    ensures ok { OnOk result (TakesUpTo (O.taken sink.old) (O.taken sink.new)
        (pending.old ++ ended (front.now ++ rest.now)) pending.new) }
    ensures err { OnErr result (TakesPrefix (O.taken sink.old) (O.taken sink.new)
        (pending.old ++ ended (front.now ++ rest.now))) }
    ensures cause { OnErr result (Rose (O.fault_count sink.old) (O.fault_count sink.new)) }
    ensures count { O.fault_count sink.old ≤ O.fault_count sink.new }
{
    pending.put(sink, front)?;
    pending.put(sink, rest)?;
    pending.put(sink, b"\n")
}

// Writes the line of each item in order, and flushes once.
fn write_each<T: TextLine, O: Sink>(
    alloc: Global,
    sink: &mut O,
    items: &[T],
) -> Result<(), OutError>
    ensures ok { OnOk result (Takes (O.taken sink.old) (O.taken sink.new)
        (lines_text T.line items.now)) }
    ensures flushed { OnOk result (O.flushed sink.new ≡ true) }
    ensures err { OnErr result (TakesPrefix (O.taken sink.old) (O.taken sink.new)
        (lines_text T.line items.now)) }
    ensures cause { IsErrOf result OutError.SinkFault
        → Rose (O.fault_count sink.old) (O.fault_count sink.new) }
    ensures count { O.fault_count sink.old ≤ O.fault_count sink.new }
{
    let mut pending = PendingText::new(alloc)?;
    let mut front = String::new(alloc);
    for item in items {
        front.clear();
        let rest = item.render(&mut front)?;
        put_line(&mut pending, sink, front.as_bytes(), rest)?;
    }
    pending.finish(sink)?;
    Ok(())
}

// The line of a reply in two parts, of which the second is a value or empty.
fn reply_parts(reply: &Reply) -> (&str, &[u8])
    ensures { result.0.now ++ result.1.now ≡ reply_line reply.now }
{
    match reply {
        Reply::Stored => ("stored", b""),
        Reply::Value(value) => ("value ", value.bytes()),
        Reply::Absent => ("absent", b""),
        Reply::Deleted => ("deleted", b""),
        Reply::Full => ("full", b""),
        Reply::VersionsSpent => ("versions spent", b""),
        Reply::TooLong => ("too long", b""),
        Reply::Stopped => ("stopped", b""),
    }
}

impl TextLine for Reply {
    ghost line = { reply_line };

    fn render<'a>(&'a self, front: &mut String) -> Result<&'a [u8], AllocError> {
        let (word, value) = reply_parts(self);
        front.push_str(word)?;
        Ok(value)
    }
}

impl TextLine for Pair {
    ghost line = { pair_line };

    fn render<'a>(&'a self, front: &mut String) -> Result<&'a [u8], AllocError> {
        write!(front, "{} ", self.key)?;
        Ok(self.value.bytes())
    }
}

// Puts what an entry's line says of its place, key and version.
fn put_place(placed: &PlacedEntry, front: &mut String) -> Result<(), AllocError>
    ensures { OnOk result (string_bytes front.new ≡ string_bytes front.old
        ++ place_text placed.now) }
{
    let entry = &placed.entry;
    write!(
        front,
        "core {} chunk {} place {}",
        placed.core, placed.chunk, placed.place
    )?;
    write!(front, " key {} version {}", entry.key, entry.version)
}

// Puts what an entry's line says of its body.
fn put_body(body: &Body, front: &mut String) -> Result<(), AllocError>
    ensures { OnOk result (string_bytes front.new ≡ string_bytes front.old ++ body_text body.now) }
{
    match body {
        Body::Pointer(pointer) => write!(front, " block {}", *pointer),
        Body::Embedded(value) => write!(front, " embedded {}", value.bytes().len()),
        Body::Tombstone => front.push_str(" delete"),
    }
}

impl TextLine for PlacedEntry {
    ghost line = { entry_line };

    fn render<'a>(&'a self, front: &mut String) -> Result<&'a [u8], AllocError> {
        put_place(self, front)?;
        put_body(&self.entry.body, front)?;
        Ok(b"")
    }
}

// A line of a tally.
#[derive(Clone, Copy)]
struct TallyLine {
    name: &'static str,
    number: u64,
}

impl TextLine for TallyLine {
    ghost line = { λ c. count_line c.name.now c.number };

    fn render<'a>(&'a self, front: &mut String) -> Result<&'a [u8], AllocError> {
        write!(front, "{} {}", self.name, self.number)?;
        Ok(b"")
    }
}

/// Writes a line for each reply, and flushes the sink.
pub fn write_replies<O: Sink>(
    alloc: Global,
    sink: &mut O,
    replies: &[Reply],
) -> Result<(), OutError>
    ensures ok { OnOk result (Takes (O.taken sink.old) (O.taken sink.new)
        (replies_text replies.now)) }
    ensures flushed { OnOk result (O.flushed sink.new ≡ true) }
    ensures err { OnErr result (TakesPrefix (O.taken sink.old) (O.taken sink.new)
        (replies_text replies.now)) }
    ensures cause { IsErrOf result OutError.SinkFault
        → Rose (O.fault_count sink.old) (O.fault_count sink.new) }
    ensures count { O.fault_count sink.old ≤ O.fault_count sink.new }
{
    write_each(alloc, sink, replies)
}

/// Writes a line for each pair, with its decimal key, a space and its value, and flushes the sink.
pub fn write_pairs<O: Sink>(alloc: Global, sink: &mut O, pairs: &[Pair]) -> Result<(), OutError>
    ensures ok { OnOk result (Takes (O.taken sink.old) (O.taken sink.new) (pairs_text pairs.now)) }
    ensures flushed { OnOk result (O.flushed sink.new ≡ true) }
    ensures err { OnErr result (TakesPrefix (O.taken sink.old) (O.taken sink.new)
        (pairs_text pairs.now)) }
    ensures cause { IsErrOf result OutError.SinkFault
        → Rose (O.fault_count sink.old) (O.fault_count sink.new) }
    ensures count { O.fault_count sink.old ≤ O.fault_count sink.new }
{
    write_each(alloc, sink, pairs)
}

/// Writes a line for each entry, with its place, key, version and body, and flushes the sink.
pub fn write_entries<O: Sink>(
    alloc: Global,
    sink: &mut O,
    entries: &[PlacedEntry],
) -> Result<(), OutError>
    ensures ok { OnOk result (Takes (O.taken sink.old) (O.taken sink.new)
        (entries_text entries.now)) }
    ensures flushed { OnOk result (O.flushed sink.new ≡ true) }
    ensures err { OnErr result (TakesPrefix (O.taken sink.old) (O.taken sink.new)
        (entries_text entries.now)) }
    ensures cause { IsErrOf result OutError.SinkFault
        → Rose (O.fault_count sink.old) (O.fault_count sink.new) }
    ensures count { O.fault_count sink.old ≤ O.fault_count sink.new }
{
    write_each(alloc, sink, entries)
}

/// Writes the eight lines of a tally, and flushes the sink.
pub fn write_tally<O: Sink>(alloc: Global, sink: &mut O, tally: &LoadTally) -> Result<(), OutError>
    ensures ok { OnOk result (Takes (O.taken sink.old) (O.taken sink.new) (tally_text tally.now)) }
    ensures flushed { OnOk result (O.flushed sink.new ≡ true) }
    ensures err { OnErr result (TakesPrefix (O.taken sink.old) (O.taken sink.new)
        (tally_text tally.now)) }
    ensures cause { IsErrOf result OutError.SinkFault
        → Rose (O.fault_count sink.old) (O.fault_count sink.new) }
    ensures count { O.fault_count sink.old ≤ O.fault_count sink.new }
{
    let counts = [
        TallyLine {
            name: "requests",
            number: tally.requests,
        },
        TallyLine {
            name: "stored",
            number: tally.stored,
        },
        TallyLine {
            name: "value",
            number: tally.value,
        },
        TallyLine {
            name: "absent",
            number: tally.absent,
        },
        TallyLine {
            name: "deleted",
            number: tally.deleted,
        },
        TallyLine {
            name: "refused",
            number: tally.refused,
        },
        TallyLine {
            name: "live",
            number: tally.live,
        },
        TallyLine {
            name: "bytes",
            number: tally.bytes,
        },
    ];
    write_each(alloc, sink, &counts)
}
