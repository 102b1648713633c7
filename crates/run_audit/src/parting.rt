// An input of an audit, parted between its trace and its replies.
ghost use Rattle.std.specs.Prelude.{◌≡◌, ◌-◌, ◌≤◌, length, take};
ghost use Rattle.run_audit.specs.Parting.{IsPartedAtReplies};

use crate::parted_line::first_line;

/// A text, parted before its first line `replies`.
#[derive(Clone, Copy)]
pub struct Parts<'a> {
    /// The lines before it: those of the trace.
    pub trace: &'a [u8],
    /// How many they are.
    pub lines: u64,
    /// That line and what follows. Nothing, where there is none.
    pub rest: &'a [u8],
}

// The parts of a text of which this is the rest, behind so many lines.
fn parts_before<'a>(bytes: &'a [u8], rest: &'a [u8], lines: u64) -> Parts<'a>
    requires { length rest.now ≤ length bytes.now }
    ensures trace { result.trace.now ≡ take (length bytes.entry.now - length rest.entry.now)
        bytes.entry.now }
    ensures rest { result.rest.now ≡ rest.entry.now }
    ensures lines { result.lines ≡ lines }
{
    Parts {
        trace: &bytes[..bytes.len() - rest.len()],
        lines,
        rest,
    }
}

/// Parts a text before its first line `replies`.
pub fn part_at_replies(bytes: &[u8]) -> Parts<'_>
    ensures { IsPartedAtReplies bytes.now result }
{
    let mut lines = 0u64;
    let mut rest = bytes;
    while !rest.is_empty() {
        let first = first_line(rest);
        if first.text == b"replies".as_slice() {
            return parts_before(bytes, rest, lines);
        }
        lines += 1;
        rest = first.rest;
    }
    parts_before(bytes, rest, lines)
}
