// One line of an input, judged by the rules.
ghost use Rattle.std.specs.Prelude.{◌≡◌, ℕ, ◌+◌, ◌<◌, ◌≤◌, List, length, option_copied};
ghost use Rattle.fs_text.specs.Input.{lone_key, lone_field, put_line, number_of, within, core_at, go_core, go_line, line_by, cut, line_at};
ghost use Rattle.fs_text.specs.Reading.{Says};

use crate::fields::{core_at, cut, key_at, turns_at};
use crate::input_limits::{LONGEST_LINE, MOST_LINE_TURNS};
use crate::line::Line;
use crate::totals::Totals;
use fs_model::{Memory, Request, Value};
use std::alloc::{AllocError, Global};

/// Why a line gives nothing.
#[derive(Clone, Copy)]
pub enum LineError {
    /// The first rule that it breaks.
    Broken { rule: u32 },
    /// No memory for its value.
    Memory,
}

impl From<AllocError> for LineError {
    ghost use Rattle.fs_text.specs.declared.parsing.LineError.TheVariants.{Memory};

    ghost from_gives = { λ _ e. e ≡ Memory };

    fn from(_: AllocError) -> LineError {
        LineError::Memory
    }
}

// The error of a line that breaks a rule.
fn broken(rule: u32) -> LineError
    ensures { result ≡ LineError.Broken rule }
{
    LineError::Broken { rule }
}

// The key, where it is all that follows the first word.
fn lone_key(rest: Option<&[u8]>) -> Result<u64, u32>
    ensures { result ≡ lone_key (lone_field (option_copied rest.entry)) }
{
    let Some(fields) = rest else {
        return Err(4);
    };
    match cut(fields) {
        (key, None) => key_at(key),
        (_, Some(_)) => Err(4),
    }
}

// What follows the word `put`.
fn put_line(alloc: Global, rest: Option<&[u8]>) -> Result<Line, LineError>
    ensures { Says result (put_line (option_copied rest.entry)) }
{
    let Some(fields) = rest else {
        return Err(LineError::Broken { rule: 4 });
    };
    let (key, Some(value)) = cut(fields) else {
        return Err(LineError::Broken { rule: 4 });
    };
    let key = key_at(key).map_err(broken)?;
    let value = Value::of(Vec::from_slice(alloc, value)?);
    Ok(Line::Ask(Request::Put { key, value }))
}

// The core and the turns, with rule 6 before rule 7.
fn go_turns(cores: u32, core: &[u8], turns: &[u8]) -> Result<Line, u32>
    ensures { result ≡ go_core (core_at cores core.now)
        (within 1 MOST_LINE_TURNS 7 (number_of turns.now)) }
{
    let core = core_at(cores, core)?;
    let turns = turns_at(turns)?;
    Ok(Line::Go { core, turns })
}

// What follows the word `go`.
fn go_line(cores: u32, rest: Option<&[u8]>) -> Result<Line, u32>
    ensures { result ≡ go_line cores (option_copied rest.entry) }
{
    let Some(fields) = rest else {
        return Err(4);
    };
    let (core, more) = cut(fields);
    let Some(more) = more else {
        let core = core_at(cores, core)?;
        return Ok(Line::Go { core, turns: 1 });
    };
    match cut(more) {
        (turns, None) => go_turns(cores, core, turns),
        (_, Some(_)) => Err(4),
    }
}

// A line of at most so many bytes, by its first word.
fn line_of(alloc: Global, cores: u32, text: &[u8]) -> Result<Line, LineError>
    ensures { Says result (line_by cores (cut text.now)) }
{
    let (word, rest) = cut(text);
    if word == b"put".as_slice() {
        return put_line(alloc, rest);
    }
    if word == b"get".as_slice() {
        let key = lone_key(rest).map_err(broken)?;
        return Ok(Line::Ask(Request::Get { key }));
    }
    if word == b"delete".as_slice() {
        let key = lone_key(rest).map_err(broken)?;
        return Ok(Line::Ask(Request::Delete { key }));
    }
    if word == b"go".as_slice() {
        return go_line(cores, rest).map_err(broken);
    }
    Err(broken(3))
}

/// A line and what stands before the next one, or the first rule that it breaks. The text has no newline, and `ended`
/// says whether one follows it.
pub fn judge(
    alloc: Global,
    cores: u32,
    before: &Totals,
    text: &[u8],
    ended: bool,
) -> Result<(Line, Totals), LineError>
    ensures { Says result (line_at cores before.now (text.now, ended)) }
{
    let size = text.len() as u64 + u64::from(ended);
    if !before.has_room(size) {
        return Err(broken(1));
    }
    if text.len() > LONGEST_LINE {
        return Err(broken(2));
    }
    let line = line_of(alloc, cores, text)?;
    let totals = before.with_line(size, &line).map_err(broken)?;
    Ok((line, totals))
}
