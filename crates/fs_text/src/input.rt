// A whole input.
ghost use Rattle.std.specs.Prelude.{◌≡◌, ℕ, ◌≤◌, List, true, false, OnOk, IfOk, IfSome, IsErrOf, Ok};
ghost use Rattle.fs_model.specs.Counts.{Rose};
ghost use Rattle.fs_text.specs.Bounds.{IsWithin};
ghost use Rattle.fs_text.specs.Input.{line_at, input_of};
ghost use Rattle.fs_text.specs.Reading.{Answers, is_said, numbered};
ghost use Rattle.fs_text.specs.Streams.{IsAtEnd, IsReadOut};

use crate::fields::{FirstLine, first_line};
use crate::input_limits::MOST_READ;
use crate::line::Line;
use crate::parsing::{LineError, judge};
use crate::read_source::{ReadError, read_all};
use crate::source::Source;
use crate::totals::Totals;
use std::alloc::{AllocFailed, Global};
use std::marker::Model;
use thiserror::Error;

/// The lines of an input in order, which contracts see as a list.
#[derive(Debug, Drop)]
pub struct Input {
    lines: Vec<Line>,
}

impl Model for Input {
    ghost use Rattle.std.specs.Prelude.{List};
    ghost use Rattle.fs_text.specs.declared.line.Line.{Line};

    ghost Value = { List Line };

    ghost view = { λ a. a.lines.items };
}

impl Input {
    /// The input of these lines. It takes no memory.
    pub fn of(lines: Vec<Line>) -> Input
        ensures { result ≡ lines.items }
    {
        Input { lines }
    }

    /// The lines in order.
    pub fn lines(&self) -> &[Line]
        ensures { result.now ≡ self.now }
    {
        self.lines.as_slice()
    }

    /// Gives the lines back. It takes no memory.
    pub fn into_lines(self) -> Vec<Line>
        ensures { result.items ≡ self }
    {
        self.lines
    }
}

/// Why an input gives no lines.
#[derive(Clone, Copy, Debug, PartialEq, Eq, Error)]
pub enum InputError {
    /// This line, counted from 1, is the first that breaks a rule, and this is the first rule that it breaks.
    #[error("line {line}: rule {rule}")]
    BadInput { line: u64, rule: u32 },
    /// The source failed.
    #[error("the source failed")]
    SourceFault,
    /// No memory.
    #[error("out of memory")]
    Memory,
}

impl<T: Drop> From<AllocFailed<T>> for InputError {
    ghost use Rattle.fs_text.specs.declared.input.InputError.TheVariants.{Memory};

    ghost from_gives = { λ _ e. e ≡ Memory };

    fn from(_: AllocFailed<T>) -> InputError {
        InputError::Memory
    }
}

impl From<ReadError> for InputError {
    ghost use Rattle.fs_text.specs.Reading.{as_input_error};

    ghost from_gives = { λ e r. r ≡ as_input_error e };

    fn from(error: ReadError) -> InputError {
        match error {
            ReadError::SourceFault => InputError::SourceFault,
            ReadError::Memory => InputError::Memory,
        }
    }
}

// The line with this number, and what stands before the next one.
fn line_numbered(
    alloc: Global,
    cores: u32,
    number: u64,
    before: &Totals,
    first: &FirstLine<'_>,
) -> Result<(Line, Totals), InputError>
    ensures exact { Answers result (numbered number (line_at cores before.now
        (first.now.text.now, first.now.ended))) }
    ensures no_fault { IsErrOf result InputError.SourceFault → ⊥ }
{
    match judge(alloc, cores, before, first.text, first.ended) {
        Ok(read) => Ok(read),
        Err(LineError::Broken { rule }) => Err(InputError::BadInput { line: number, rule }),
        Err(LineError::Memory) => Err(InputError::Memory),
    }
}

/// The lines of an input, or the first one that breaks a rule.
pub fn parse_input(alloc: Global, bytes: &[u8], cores: u32) -> Result<Input, InputError>
    ensures exact { Answers result (input_of cores bytes.now) }
    ensures no_fault { IsErrOf result InputError.SourceFault → ⊥ }
{
    let mut lines = Vec::new(alloc);
    let mut totals = Totals::none();
    let mut number = 1u64;
    let mut rest = bytes;
    while !rest.is_empty() {
        let first = first_line(rest);
        let (line, next) = line_numbered(alloc, cores, number, &totals, &first)?;
        lines.push(line)?;
        totals = next;
        number += 1;
        rest = first.rest;
    }
    Ok(Input::of(lines))
}

/// Reads a source to its end, and gives its lines, or the first one that breaks a rule. A source of more bytes than an
/// input may have is read up to one byte past them.
pub fn read_input<S: Source>(alloc: Global, source: &mut S, cores: u32) -> Result<Input, InputError>
    requires open { S.ended source.old ≡ false }
    ensures exact { IfSome (S.coming source.old) (λ bytes. Answers result (input_of cores bytes)) }
    ensures some { (bytes : List ℕ) × Answers result (input_of cores bytes) }
    ensures within { IfOk result (λ input. IsWithin cores input) }
    ensures end { OnOk result (IsAtEnd (S.coming source.new)) }
    ensures whole { is_said result ≡ true → IsReadOut (S.coming source.old) (S.coming source.new) }
    ensures cause { IsErrOf result InputError.SourceFault
        → Rose (S.fault_count source.old) (S.fault_count source.new) }
    ensures count { S.fault_count source.old ≤ S.fault_count source.new }
{
    let bytes = read_all(alloc, source, MOST_READ)?;
    parse_input(alloc, &bytes, cores)
}
