// One line of queries, judged by the rules.
ghost use Rattle.std.specs.Prelude.{◌≡◌, ℕ, ◌+◌, ◌<◌, ◌≤◌, length, option_copied, IfOk};
ghost use Rattle.fs_text.specs.Input.{cut, number_of};
ghost use Rattle.query_text.specs.Queries.{bound_at, limit_at, count_by, range_by, count_line, range_line, query_by, query_at};

use crate::query::{MOST_PAIRS, MOST_QUERIES, Query};
use fs_text::fields::{cut, number_of};
use fs_text::input_limits::{LONGEST_LINE, MOST_INPUT_BYTES};

// A bound of a range, or rule 23.
fn bound_at(bytes: &[u8]) -> Result<u64, u32>
    ensures { result ≡ bound_at bytes.now }
{
    number_of(bytes).ok_or(23)
}

// The limit of a range, or rule 24.
fn limit_at(bytes: &[u8]) -> Result<u64, u32>
    ensures { result ≡ limit_at bytes.now }
{
    match number_of(bytes) {
        Some(limit) if 1 <= limit && limit <= MOST_PAIRS => Ok(limit),
        _ => Err(24),
    }
}

// The bounds in their order, which is that of the rules on them.
fn count_by(lo: &[u8], hi: &[u8]) -> Result<Query, u32>
    ensures { result ≡ count_by (bound_at lo.now) (bound_at hi.now) }
{
    let lo = bound_at(lo)?;
    let hi = bound_at(hi)?;
    Ok(Query::Count { lo, hi })
}

fn range_by(lo: &[u8], hi: &[u8], limit: &[u8]) -> Result<Query, u32>
    ensures { result ≡ range_by (bound_at lo.now) (bound_at hi.now) (limit_at limit.now) }
{
    let lo = bound_at(lo)?;
    let hi = bound_at(hi)?;
    let limit = limit_at(limit)?;
    Ok(Query::Range { lo, hi, limit })
}

// What follows the word `count`.
fn count_line(rest: Option<&[u8]>) -> Result<Query, u32>
    ensures { result ≡ count_line (option_copied rest.entry) }
{
    let Some(fields) = rest else {
        return Err(22);
    };
    let (lo, Some(more)) = cut(fields) else {
        return Err(22);
    };
    match cut(more) {
        (hi, None) => count_by(lo, hi),
        (_, Some(_)) => Err(22),
    }
}

// What follows the word `range`.
fn range_line(rest: Option<&[u8]>) -> Result<Query, u32>
    ensures { result ≡ range_line (option_copied rest.entry) }
{
    let Some(fields) = rest else {
        return Err(22);
    };
    let (lo, Some(more)) = cut(fields) else {
        return Err(22);
    };
    let (hi, Some(last)) = cut(more) else {
        return Err(22);
    };
    match cut(last) {
        (limit, None) => range_by(lo, hi, limit),
        (_, Some(_)) => Err(22),
    }
}

// A line of at most so many bytes, by its first word.
fn query_by(text: &[u8]) -> Result<Query, u32>
    ensures { result ≡ query_by (cut text.now) }
{
    let (word, rest) = cut(text);
    if word == b"range".as_slice() {
        return range_line(rest);
    }
    if word == b"count".as_slice() {
        return count_line(rest);
    }
    Err(21)
}

/// The query of a line with this number, counted from 1, and how many bytes stand up to and with the line, or the first
/// rule that it breaks. So many stand before it. The text has no newline, and `ended` says whether one follows it.
pub fn judge(number: u64, before: u64, text: &[u8], ended: bool) -> Result<(Query, u64), u32>
    requires { before ≤ MOST_INPUT_BYTES }
    ensures exact { result ≡ query_at number before (text.now, ended) }
    ensures within { IfOk result (λ x. x.1 ≤ MOST_INPUT_BYTES) }
{
    let size = text.len() as u64 + u64::from(ended);
    if size > MOST_INPUT_BYTES - before {
        return Err(1);
    }
    if text.len() > LONGEST_LINE {
        return Err(2);
    }
    let query = query_by(text)?;
    if number > MOST_QUERIES {
        return Err(25);
    }
    Ok((query, before + size))
}
