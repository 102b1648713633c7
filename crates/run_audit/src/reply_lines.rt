// The texts of replies, read.
ghost use Rattle.std.specs.Prelude.{◌≡◌, ◌+◌, ◌<◌, ◌^◌, List, IfOk, Ok, IsErrOf, length};
ghost use Rattle.fs_model.specs.declared.model.Reply.{Reply};
ghost use Rattle.fs_text.specs.Input.{lines_of};
ghost use Rattle.fs_text.specs.Output.{replies_text};
ghost use Rattle.fs_text.specs.Reading.{Answers, numbered};
ghost use Rattle.run_audit.specs.Parting.{AreWritable, items_of};
ghost use Rattle.run_audit.specs.Replies.{reply_of, value_of, reply_at, replies_from, IsTextOf};

use crate::parted_line::first_line;
use fs_model::{Memory, Reply, Value};
use fs_text::InputError;
use fs_text::input_limits::{LONGEST_LINE, MOST_INPUT_BYTES};
use std::alloc::Global;

/// The most lines of replies.
pub const MOST_REPLIES: u64 = 1_000_000;

// The reply with a value whose text this is.
fn value_of(alloc: Global, text: &[u8]) -> Result<Option<Reply>, Memory>
    ensures { IfOk result (λ reply. reply ≡ value_of text.now) }
{
    match text.strip_prefix(b"value ".as_slice()) {
        None => Ok(None),
        Some(bytes) => Ok(Some(Reply::Value(Value::of(Vec::from_slice(alloc, bytes)?)))),
    }
}

// The reply whose text this is, by the texts there are.
fn reply_of(alloc: Global, text: &[u8]) -> Result<Option<Reply>, Memory>
    ensures { IfOk result (λ reply. reply ≡ reply_of text.now) }
{
    if text == b"stored".as_slice() {
        return Ok(Some(Reply::Stored));
    }
    if text == b"absent".as_slice() {
        return Ok(Some(Reply::Absent));
    }
    if text == b"deleted".as_slice() {
        return Ok(Some(Reply::Deleted));
    }
    if text == b"full".as_slice() {
        return Ok(Some(Reply::Full));
    }
    if text == b"versions spent".as_slice() {
        return Ok(Some(Reply::VersionsSpent));
    }
    if text == b"too long".as_slice() {
        return Ok(Some(Reply::TooLong));
    }
    if text == b"stopped".as_slice() {
        return Ok(Some(Reply::Stopped));
    }
    value_of(alloc, text)
}

/// The reply whose text this is, or none where it is that of no reply. The reading is the inverse of the writing.
pub fn read_reply(alloc: Global, text: &[u8]) -> Result<Option<Reply>, Memory>
    ensures exact { IfOk result (λ reply. reply ≡ reply_of text.now) }
    ensures inverse { IfOk result (λ reply. IsTextOf reply text.now) }
{
    reply_of(alloc, text)
}

/// Where a line stands.
#[derive(Clone, Copy)]
pub struct LinePlace {
    /// Its number in the input, from 1 on.
    pub number: u64,
    /// The bytes of the input up to and with it.
    pub bytes: u64,
    /// The replies up to and with it.
    pub replies: u64,
}

// The line breaks a rule.
fn broken(place: LinePlace, rule: u32) -> InputError
    ensures { result ≡ InputError.BadInput place.number rule }
{
    InputError::BadInput {
        line: place.number,
        rule,
    }
}

// The reply of a line, or the first rule that it breaks. The text has no newline.
fn reply_there(alloc: Global, place: LinePlace, text: &[u8]) -> Result<Reply, InputError>
    ensures exact { Answers result (numbered place.number
        (reply_at place.bytes place.replies text.now)) }
    ensures no_fault { IsErrOf result InputError.SourceFault → ⊥ }
{
    if place.bytes > MOST_INPUT_BYTES {
        return Err(broken(place, 1));
    }
    if text.len() > LONGEST_LINE {
        return Err(broken(place, 2));
    }
    if place.replies > MOST_REPLIES {
        return Err(broken(place, 33));
    }
    match read_reply(alloc, text) {
        Ok(Some(reply)) => Ok(reply),
        Ok(None) => Err(broken(place, 32)),
        Err(Memory) => Err(InputError::Memory),
    }
}

// The replies of the lines of a text, which stands behind so many bytes and begins with the line of this number.
fn replies_of_lines(
    alloc: Global,
    text: &[u8],
    number: u64,
    bytes: u64,
) -> Result<Vec<Reply>, InputError>
    requires few { number + length text.now < 2 ^ 62 }
    requires small { bytes + length text.now < 2 ^ 62 }
    ensures exact { Answers (items_of result) (replies_from number bytes 0 (lines_of text.now)) }
    ensures no_fault { IsErrOf result InputError.SourceFault → ⊥ }
{
    let mut replies = Vec::new(alloc);
    let mut place = LinePlace {
        number,
        bytes,
        replies: 0,
    };
    let mut rest = text;
    while !rest.is_empty() {
        let first = first_line(rest);
        place.bytes += first.size();
        place.replies += 1;
        replies.push(reply_there(alloc, place, first.text)?)?;
        place.number += 1;
        rest = first.rest;
    }
    Ok(replies)
}

/// The replies of a text, which stands behind so many bytes of an input and begins with the line of this number. The
/// reading is the inverse of the writing.
pub fn read_replies(
    alloc: Global,
    text: &[u8],
    number: u64,
    bytes: u64,
) -> Result<Vec<Reply>, InputError>
    requires few { number + length text.now < 2 ^ 62 }
    requires small { bytes + length text.now < 2 ^ 62 }
    ensures exact { Answers (items_of result) (replies_from number bytes 0 (lines_of text.now)) }
    ensures inverse { (rs : List Reply) → AreWritable bytes rs → text.now ≡ replies_text rs
        → Answers (items_of result) (Ok rs) }
    ensures no_fault { IsErrOf result InputError.SourceFault → ⊥ }
{
    replies_of_lines(alloc, text, number, bytes)
}
