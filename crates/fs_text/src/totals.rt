// What the rules count over an input.
ghost use Rattle.std.specs.Prelude.{◌≡◌, ◌≤◌, ◌+◌, nat_le};
ghost use Rattle.fs_text.specs.Input.{with_line, counted, map_ok};

use crate::input_limits::{MOST_INPUT_BYTES, MOST_REQUESTS, MOST_TURNS};
use crate::line::Line;
use std::marker::Model;

/// What stands before a line: bytes, newlines counted, requests, and turns.
#[derive(Drop)]
pub struct Totals {
    bytes: u64,
    requests: u64,
    turns: u64,
}

impl Model for Totals {
    ghost use Rattle.std.specs.Prelude.{◌≤◌};
    ghost use Rattle.fs_text.specs.Input.{Before};
    ghost use Rattle.fs_text.specs.declared.input_limits.TheConstants.{MOST_INPUT_BYTES, MOST_REQUESTS, MOST_TURNS};

    ghost Value = { Before };

    ghost view = { λ t. record { bytes = t.bytes; requests = t.requests; turns = t.turns } };

    ghost invariant = { λ t. (t.bytes ≤ MOST_INPUT_BYTES) × (t.requests ≤ MOST_REQUESTS)
        × (t.turns ≤ MOST_TURNS) };
}

impl Totals {
    /// What stands before the first line.
    pub fn none() -> Totals
        ensures { result ≡ record { bytes = 0; requests = 0; turns = 0 } }
    {
        Totals {
            bytes: 0,
            requests: 0,
            turns: 0,
        }
    }

    /// Whether so many more bytes are within rule 1.
    pub fn has_room(&self, size: u64) -> bool
        ensures { result ≡ nat_le (self.now.bytes + size) MOST_INPUT_BYTES }
    {
        size <= MOST_INPUT_BYTES - self.bytes
    }

    /// With a line of so many bytes, or rule 8 or 9.
    pub fn with_line(&self, size: u64, line: &Line) -> Result<Totals, u32>
        requires { self.now.bytes + size ≤ MOST_INPUT_BYTES }
        ensures { counted (with_line self.now size line.now) line.now
            ≡ map_ok (λ totals. (line.now, totals)) result }
    {
        let mut totals = Totals {
            bytes: self.bytes + size,
            requests: self.requests,
            turns: self.turns,
        };
        match line {
            Line::Ask(_) => {
                if self.requests == MOST_REQUESTS {
                    return Err(8);
                }
                totals.requests += 1;
            }
            Line::Go { turns, .. } => {
                if MOST_TURNS - self.turns < *turns as u64 {
                    return Err(9);
                }
                totals.turns += *turns as u64;
            }
        }
        Ok(totals)
    }
}
