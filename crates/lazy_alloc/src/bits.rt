// Sets of numbers as bits: as many in one word as it has bits, and more in a list of words.
ghost use Rattle.std.specs.Prelude.{◌≡◌, ℕ, ◌+◌, ◌*◌, ◌/◌, ◌%◌, ◌<◌, ◌≤◌, ◌==◌, ◌||◌, ◌&&◌, not, length, true, false, IfSome, MatchOption, count_by};
ghost use Rattle.chunk_map.specs.Layouts.{numbers};
ghost use Rattle.lazy_alloc.specs.Bits.{has, has_bit};

/// How many numbers a set of one word may have.
pub const WORD_BITS: u64 = 64;

/// Whether the number is in the set.
pub fn has(word: u64, at: u32) -> bool
    requires { at < WORD_BITS }
    ensures { result ≡ has word at }
{
    word >> at & 1 == 1
}

/// The set with the number in it.
pub fn with(word: u64, at: u32) -> u64
    requires { at < WORD_BITS }
    ensures { (i : ℕ) → has result i ≡ (i == at || has word i) }
{
    word | 1 << at
}

/// The same where `on` holds, and the word itself where it doesn't.
pub fn with_if(word: u64, at: u32, on: bool) -> u64
    requires { at < WORD_BITS }
    ensures { (i : ℕ) → has result i ≡ ((i == at && on) || has word i) }
{
    if on { with(word, at) } else { word }
}

/// The set without the number.
pub fn without(word: u64, at: u32) -> u64
    requires { at < WORD_BITS }
    ensures { (i : ℕ) → has result i ≡ (has word i && not (i == at)) }
{
    word & !(1 << at)
}

/// How many numbers are in the set.
pub fn count(word: u64) -> u32
    ensures { result ≡ count_by (has word) (numbers 0 WORD_BITS) }
{
    word.count_ones()
}

/// The lowest bit that is set.
pub fn lowest(word: u64) -> Option<u32>
    ensures small { IfSome result (λ j. j < WORD_BITS) }
    ensures lowest { MatchOption result ((i : ℕ) → has word i ≡ false) (λ j. (has word j ≡ true)
        × ((i : ℕ) → i < j → has word i ≡ false)) }
{
    if word == 0 {
        None
    } else {
        Some(word.trailing_zeros())
    }
}

// The lowest bit that is not set.
fn lowest_unset(word: u64) -> Option<u32>
    ensures small { IfSome result (λ j. j < WORD_BITS) }
    ensures lowest { MatchOption result ((i : ℕ) → i < WORD_BITS → has word i ≡ true)
        (λ j. (has word j ≡ false) × ((i : ℕ) → i < j → has word i ≡ true)) }
{
    if word == u64::MAX {
        None
    } else {
        Some(word.trailing_ones())
    }
}

/// Whether a bit of the list is set.
pub fn is_set(words: &[u64], at: u64) -> bool
    requires { at < WORD_BITS * length words.now }
    ensures { result ≡ has_bit words.now at }
{
    has(words[(at / WORD_BITS) as usize], (at % WORD_BITS) as u32)
}

/// Sets a bit of the list.
pub fn set(words: &mut Vec<u64>, at: u64)
    requires { at < WORD_BITS * length words.old.items }
    ensures long { length words.new.items ≡ length words.old.items }
    ensures each { (i : ℕ) → has_bit words.new.items i ≡ (i == at || has_bit words.old.items i) }
{
    let word = (at / WORD_BITS) as usize;
    words[word] = with(words[word], (at % WORD_BITS) as u32);
}

/// Clears a bit of the list.
pub fn clear(words: &mut Vec<u64>, at: u64)
    requires { at < WORD_BITS * length words.old.items }
    ensures long { length words.new.items ≡ length words.old.items }
    ensures each { (i : ℕ) → has_bit words.new.items i
        ≡ (has_bit words.old.items i && not (i == at)) }
{
    let word = (at / WORD_BITS) as usize;
    words[word] = without(words[word], (at % WORD_BITS) as u32);
}

/// Of so many bits from a word on, the lowest that is not set, counted from that word's first bit.
pub fn first_unset(words: &[u64], from: u64, count: u64) -> Option<u64>
    requires { WORD_BITS * from + count ≤ WORD_BITS * length words.now }
    ensures { MatchOption result ((i : ℕ) → i < count
        → has_bit words.now (WORD_BITS * from + i) ≡ true)
        (λ b. (b < count) × ((has_bit words.now (WORD_BITS * from + b) ≡ false)
        × ((i : ℕ) → i < b → has_bit words.now (WORD_BITS * from + i) ≡ true))) }
{
    for i in 0..count.div_ceil(WORD_BITS) {
        if let Some(bit) = lowest_unset(words[(from + i) as usize]) {
            let found = WORD_BITS * i + bit as u64;
            return if found < count { Some(found) } else { None };
        }
    }
    None
}
