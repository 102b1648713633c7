// A whole input of queries.
ghost use Rattle.std.specs.Prelude.{◌≡◌, ℕ, ◌≤◌, List, true, false, IfOk, IfSome, IsErrOf};
ghost use Rattle.fs_model.specs.Counts.{Rose};
ghost use Rattle.fs_text.specs.Reading.{Answers, is_said, numbered};
ghost use Rattle.fs_text.specs.Streams.{IsReadOut};
ghost use Rattle.query_text.specs.Queries.{query_at, queries_of};

use crate::query::Query;
use crate::query_lines::judge;
use fs_text::fields::{FirstLine, first_line};
use fs_text::input_limits::{MOST_INPUT_BYTES, MOST_READ};
use fs_text::{InputError, Source, read_all};
use std::alloc::Global;
use std::marker::Model;

/// The queries of an input in order, which contracts see as a list.
#[derive(Debug, Drop)]
pub struct Queries {
    queries: Vec<Query>,
}

impl Model for Queries {
    ghost use Rattle.std.specs.Prelude.{List};
    ghost use Rattle.query_text.specs.declared.query.Query.{Query};

    ghost Value = { List Query };

    ghost view = { λ a. a.queries.items };
}

impl Queries {
    /// These queries. It takes no memory.
    pub fn of(queries: Vec<Query>) -> Queries
        ensures { result ≡ queries.items }
    {
        Queries { queries }
    }

    /// The queries in order.
    pub fn queries(&self) -> &[Query]
        ensures { result.now ≡ self.now }
    {
        self.queries.as_slice()
    }
}

// The query of the line with this number, and the bytes up to and with the line.
fn query_numbered(
    number: u64,
    before: u64,
    first: &FirstLine<'_>,
) -> Result<(Query, u64), InputError>
    requires { before ≤ MOST_INPUT_BYTES }
    ensures exact { Answers result (numbered number (query_at number before
        (first.now.text.now, first.now.ended))) }
    ensures within { IfOk result (λ x. x.1 ≤ MOST_INPUT_BYTES) }
    ensures no_fault { IsErrOf result InputError.SourceFault → ⊥ }
{
    match judge(number, before, first.text, first.ended) {
        Ok(read) => Ok(read),
        Err(rule) => Err(InputError::BadInput { line: number, rule }),
    }
}

/// The queries of an input, or the first line that breaks a rule.
pub fn parse_queries(alloc: Global, bytes: &[u8]) -> Result<Queries, InputError>
    ensures exact { Answers result (queries_of bytes.now) }
    ensures no_fault { IsErrOf result InputError.SourceFault → ⊥ }
{
    let mut queries = Vec::new(alloc);
    let mut before = 0u64;
    let mut number = 1u64;
    let mut rest = bytes;
    while !rest.is_empty() {
        let first = first_line(rest);
        let (query, next) = query_numbered(number, before, &first)?;
        queries.push(query)?;
        before = next;
        number += 1;
        rest = first.rest;
    }
    Ok(Queries::of(queries))
}

/// Reads a source to its end, and gives its queries, or the first line that breaks a rule. A source of more bytes than
/// an input may have is read up to one byte past them.
pub fn read_queries<S: Source>(alloc: Global, source: &mut S) -> Result<Queries, InputError>
    requires open { S.ended source.old ≡ false }
    ensures exact { IfSome (S.coming source.old) (λ bytes. Answers result (queries_of bytes)) }
    ensures some { (bytes : List ℕ) × Answers result (queries_of bytes) }
    ensures whole { is_said result ≡ true → IsReadOut (S.coming source.old) (S.coming source.new) }
    ensures cause { IsErrOf result InputError.SourceFault
        → Rose (S.fault_count source.old) (S.fault_count source.new) }
    ensures count { S.fault_count source.old ≤ S.fault_count source.new }
{
    let bytes = read_all(alloc, source, MOST_READ)?;
    parse_queries(alloc, &bytes)
}
