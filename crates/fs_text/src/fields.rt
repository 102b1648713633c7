// The fields of a line: words, and decimal numbers.
ghost use Rattle.std.specs.Prelude.{◌≡◌, ℕ, true, ◌+◌, ◌*◌, ◌-◌, ◌^◌, ◌<◌, ◌≤◌, ◌∷◌, length, Option, IfSome, IfNone, Some, None, option_copied};
ghost use Rattle.fs_text.specs.Input.{cut, lines_of, starts_well, is_digit, number_of, within, key_at, core_at};
ghost use Rattle.fs_text.specs.Reading.{fitting};

use crate::input_limits::MOST_LINE_TURNS;
use memchr::memchr;

/// The first line of a text, without its newline.
#[derive(Clone, Copy)]
pub struct FirstLine<'a> {
    /// Its bytes.
    pub text: &'a [u8],
    /// Whether it has a newline.
    pub ended: bool,
    /// What follows it.
    pub rest: &'a [u8],
}

/// Parts a text that isn't empty after its first line.
pub fn first_line(bytes: &[u8]) -> FirstLine<'_>
    requires { 0 < length bytes.now }
    ensures lines { lines_of bytes.now ≡ (result.text.now, result.ended)
        ∷ lines_of result.rest.now }
    ensures shorter { length result.rest.now < length bytes.now }
{
    match memchr(b'\n', bytes) {
        Some(end) => FirstLine {
            text: &bytes[..end],
            ended: true,
            rest: &bytes[end + 1..],
        },
        None => FirstLine {
            text: bytes,
            ended: false,
            rest: &bytes[bytes.len()..],
        },
    }
}

/// The bytes before the first space, and those after it where there is one.
pub fn cut(bytes: &[u8]) -> (&[u8], Option<&[u8]>)
    ensures { (result.0.now, option_copied result.1) ≡ cut bytes.now }
{
    match memchr(b' ', bytes) {
        Some(end) => (&bytes[..end], Some(&bytes[end + 1..])),
        None => (bytes, None),
    }
}

// Whether the digits may be a number: there are some, and no 0 stands before more.
fn starts_well(digits: &[u8]) -> bool
    ensures { result ≡ starts_well digits.now }
{
    match digits {
        [] => false,
        [_] => true,
        [first, ..] => *first != b'0',
    }
}

// The number behind one more digit, where it fits.
fn with_digit(number: u64, digit: u8) -> Option<u64>
    requires { is_digit digit ≡ true }
    ensures { result ≡ fitting (Some (10 * number + (digit - 48))) }
{
    number.checked_mul(10)?.checked_add((digit - b'0') as u64)
}

/// The number that the bytes spell in digits, without a sign and without a leading zero, where it fits 64 bits.
pub fn number_of(bytes: &[u8]) -> Option<u64>
    ensures { result ≡ fitting (number_of bytes.now) }
{
    if !starts_well(bytes) {
        return None;
    }
    let mut number = 0u64;
    for digit in bytes {
        if !digit.is_ascii_digit() {
            return None;
        }
        number = with_digit(number, *digit)?;
    }
    Some(number)
}

// The number, where it is spelled so and is from low to high. Else the rule that it breaks.
fn within(low: u64, high: u64, rule: u32, bytes: &[u8]) -> Result<u64, u32>
    ensures { result ≡ within low high rule (number_of bytes.now) }
{
    match number_of(bytes) {
        Some(number) if low <= number && number <= high => Ok(number),
        _ => Err(rule),
    }
}

/// A key, or rule 5.
pub fn key_at(bytes: &[u8]) -> Result<u64, u32>
    ensures { result ≡ key_at bytes.now }
{
    within(0, u64::MAX, 5, bytes)
}

/// A core of so many, or rule 6.
pub fn core_at(cores: u32, bytes: &[u8]) -> Result<u32, u32>
    ensures { result ≡ core_at cores bytes.now }
{
    match within(0, cores.saturating_sub(1) as u64, 6, bytes) {
        Ok(core) => Ok(core as u32),
        Err(rule) => Err(rule),
    }
}

/// A number of turns, or rule 7.
pub fn turns_at(bytes: &[u8]) -> Result<u32, u32>
    ensures { result ≡ within 1 MOST_LINE_TURNS 7 (number_of bytes.now) }
{
    match within(1, MOST_LINE_TURNS, 7, bytes) {
        Ok(turns) => Ok(turns as u32),
        Err(rule) => Err(rule),
    }
}
