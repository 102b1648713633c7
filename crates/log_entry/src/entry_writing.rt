// Spelling an entry in words.
ghost use Rattle.std.specs.Prelude.{◌≡◌, ℕ, ◌+◌, ◌-◌, ◌*◌, ◌/◌, ◌^◌, ◌<◌, ◌≤◌, ◌++◌, length, take, drop, slice_index};
ghost use Rattle.std.specs.Int.{w64, from_le_bytes};
ghost use Rattle.log_entry.specs.Words.{words_for, packed};
ghost use Rattle.log_entry.specs.Grammar.{IsNoPrefix};
ghost use Rattle.log_entry.specs.Spelling.{first_word, words_of, HasSpelling};

use crate::entry::{Body, Entry};
use crate::entry_limits::{
    DELETE_OPERATION, EMBEDDED_FORM, FORM_UNIT, HIGH_UNIT, LAST_DELETE_VERSION, LONGEST_EMBEDDED,
    LONGEST_ENTRY, LONGEST_ENTRY_LINES, PLAIN_FORM, POINTER_RANGE, PUT_OPERATION, SHORTEST_ENTRY,
    VERSION_UNIT,
};
use crate::packing::{word_at, words_for};
use crate::word_buffer::WordBuffer;
use pm_region::{LINE_WORDS, WORD_BYTES};

fn first_word(op: u64, form: u64, version: u32, high: u64) -> u64
    requires op { op ≤ DELETE_OPERATION }
    requires form { form ≤ EMBEDDED_FORM }
    requires version { version ≤ LAST_DELETE_VERSION }
    requires high { high < POINTER_RANGE }
    ensures { result ≡ first_word op form version high }
{
    op + FORM_UNIT * form + VERSION_UNIT * version as u64 + HIGH_UNIT * high
}

/// How many words the entry's spelling has: from 2 to 34.
pub fn entry_words(entry: &Entry) -> u64
    requires { HasSpelling entry.now }
    ensures words { result ≡ length (words_of entry.now) }
    ensures low { SHORTEST_ENTRY ≤ result }
    ensures high { result ≤ LONGEST_ENTRY }
{
    match &entry.body {
        Body::Embedded(value) => SHORTEST_ENTRY + words_for(value.bytes().len() as u64),
        Body::Pointer(_) => SHORTEST_ENTRY,
        Body::Tombstone => SHORTEST_ENTRY,
    }
}

/// How many lines of 8 words the entry's spelling takes, rounded up: from 1 to 5.
pub fn entry_lines(entry: &Entry) -> u64
    requires { HasSpelling entry.now }
    ensures lines { result ≡ (length (words_of entry.now) + (LINE_WORDS - 1)) / LINE_WORDS }
    ensures low { 1 ≤ result }
    ensures high { result ≤ LONGEST_ENTRY_LINES }
{
    entry_words(entry).div_ceil(LINE_WORDS)
}

/// Appends the words of some bytes.
fn write_bytes(bytes: &[u8], buf: &mut WordBuffer)
    requires short { length bytes.now ≤ LONGEST_EMBEDDED }
    requires room { length buf.old.words + words_for (length bytes.now) ≤ buf.old.room }
    ensures words { buf.new.words ≡ buf.old.words ++ packed bytes.now }
    ensures room { buf.new.room ≡ buf.old.room }
{
    let count = words_for(bytes.len() as u64) as usize;
    for i in 0..count {
        buf.push(word_at(bytes, WORD_BYTES as usize * i));
    }
}

/// Appends the entry's spelling. It takes no memory: the buffer must have the room.
pub fn write_entry(entry: &Entry, buf: &mut WordBuffer)
    requires spelling { HasSpelling entry.now }
    requires room { length buf.old.words + length (words_of entry.now) ≤ buf.old.room }
    ensures words { buf.new.words ≡ buf.old.words ++ words_of entry.now }
    ensures room { buf.new.room ≡ buf.old.room }
    ensures whole { IsNoPrefix entry.now }
{
    match &entry.body {
        Body::Pointer(pointer) => {
            buf.push(first_word(PUT_OPERATION, PLAIN_FORM, entry.version, *pointer));
            buf.push(entry.key);
        }
        Body::Embedded(value) => {
            let length = value.bytes().len() as u64;
            buf.push(first_word(PUT_OPERATION, EMBEDDED_FORM, entry.version, length));
            buf.push(entry.key);
            write_bytes(value.bytes(), buf);
        }
        Body::Tombstone => {
            buf.push(first_word(DELETE_OPERATION, PLAIN_FORM, entry.version, 0));
            buf.push(entry.key);
        }
    }
}
