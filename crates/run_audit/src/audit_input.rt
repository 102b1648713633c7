// The input of an audit.
ghost use Rattle.std.specs.Prelude.{◌≡◌, ℕ, ◌+◌, ◌≤◌, List, Ok, OnOk, IfOk, IfSome, IsErrOf, true, false, length};
ghost use Rattle.std.specs.List.{filter_map};
ghost use Rattle.fs_model.specs.Counts.{Rose};
ghost use Rattle.fs_model.specs.declared.model.Reply.{Reply};
ghost use Rattle.fs_text.specs.declared.line.Line.{Line};
ghost use Rattle.fs_text.specs.declared.input_limits.TheConstants.{MOST_READ};
ghost use Rattle.fs_text.specs.Input.{lines_of, request_in};
ghost use Rattle.fs_text.specs.Reading.{Answers, is_said};
ghost use Rattle.fs_text.specs.Streams.{IsAtEnd, IsReadOut};
ghost use Rattle.run_audit.specs.Parting.{IsWritten, items_of, listed};
ghost use Rattle.run_audit.specs.Replies.{audit_input_of, from_replies, replies_behind};

use crate::parted_line::first_line;
use crate::parting::{Parts, part_at_replies};
use crate::reply_lines::read_replies;
use fs_model::{Memory, Reply, Request};
use fs_text::input_limits::{MOST_INPUT_BYTES, MOST_READ};
use fs_text::{Input, InputError, Line, Source, parse_input, read_all};
use std::alloc::Global;

/// What the input of an audit has.
#[derive(Debug, Drop)]
pub struct AuditInput {
    /// The requests in order.
    pub trace: Vec<Request>,
    /// The replies to be judged, in order. They may be more or fewer.
    pub replies: Vec<Reply>,
}

// The request of a line, where it has one.
fn request_of(line: Line) -> Option<Request>
    ensures { result ≡ request_in line }
{
    match line {
        Line::Ask(request) => Some(request),
        Line::Go { .. } => None,
    }
}

// The requests of the lines.
fn requests_in(alloc: Global, input: Input) -> Result<Vec<Request>, Memory>
    ensures { IfOk result (λ v. v.items ≡ filter_map request_in input) }
{
    let requests = input
        .into_lines()
        .into_iter()
        .filter_map(request_of)
        .collect(alloc)?;
    Ok(requests)
}

// The replies of the part behind the trace, which begins with the line `replies`.
fn replies_of(alloc: Global, parts: &Parts<'_>) -> Result<Vec<Reply>, InputError>
    requires size { length parts.now.trace.now + length parts.now.rest.now ≤ MOST_READ }
    requires lines { parts.now.lines ≡ length (lines_of parts.now.trace.now) }
    ensures exact { Answers (items_of result) (replies_behind (lines_of parts.now.trace.now)
        (lines_of parts.now.rest.now)) }
    ensures no_fault { IsErrOf result InputError.SourceFault → ⊥ }
{
    let line = parts.lines + 1;
    if parts.rest.is_empty() {
        return Err(InputError::BadInput { line, rule: 31 });
    }
    let first = first_line(parts.rest);
    let bytes = parts.trace.len() as u64 + first.size();
    if bytes > MOST_INPUT_BYTES {
        return Err(InputError::BadInput { line, rule: 1 });
    }
    read_replies(alloc, first.rest, line + 1, bytes)
}

/// The trace and the replies of an input, or the first line that breaks a rule.
pub fn parse_audit(alloc: Global, bytes: &[u8], cores: u32) -> Result<AuditInput, InputError>
    requires { length bytes.now ≤ MOST_READ }
    ensures exact { Answers (listed result) (audit_input_of cores bytes.now) }
    ensures no_fault { IsErrOf result InputError.SourceFault → ⊥ }
{
    let parts = part_at_replies(bytes);
    let input = parse_input(alloc, parts.trace, cores)?;
    let replies = replies_of(alloc, &parts)?;
    match requests_in(alloc, input) {
        Ok(trace) => Ok(AuditInput { trace, replies }),
        Err(Memory) => Err(InputError::Memory),
    }
}

/// Reads a source to its end, and gives the trace and the replies that it has, or the first line that breaks a rule.
/// Lines are counted from 1. A source of more bytes than an input may have is read up to one byte past them.
pub fn read_audit<S: Source>(
    alloc: Global,
    source: &mut S,
    cores: u32,
) -> Result<AuditInput, InputError>
    requires open { S.ended source.old ≡ false }
    ensures exact { IfSome (S.coming source.old)
        (λ bytes. Answers (listed result) (audit_input_of cores bytes)) }
    ensures some { (bytes : List ℕ) × Answers (listed result) (audit_input_of cores bytes) }
    // What is read of replies that were written are these replies.
    ensures inverse { IfSome (S.coming source.old) (λ bytes. (lines : List Line)
        (rs : List Reply) → IsWritten cores bytes lines rs
        → Answers (listed result) (Ok (filter_map request_in lines, rs))) }
    ensures end { OnOk result (IsAtEnd (S.coming source.new)) }
    ensures whole { is_said (listed result) ≡ true
        → IsReadOut (S.coming source.old) (S.coming source.new) }
    ensures cause { IsErrOf result InputError.SourceFault
        → Rose (S.fault_count source.old) (S.fault_count source.new) }
    ensures count { S.fault_count source.old ≤ S.fault_count source.new }
{
    let bytes = read_all(alloc, source, MOST_READ)?;
    parse_audit(alloc, &bytes, cores)
}
