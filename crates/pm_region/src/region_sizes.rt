// The sizes of words, lines and regions.

/// How many bytes a word has.
pub const WORD_BYTES: u64 = 8;
/// How many words a line has.
pub const LINE_WORDS: u64 = 8;
/// How many bytes a line has.
pub const LINE_BYTES: u64 = 64;
/// How many bytes the greatest region has: 268,435,456 for its parts, and 4,096 before them. A longer one has no words.
pub const MOST_BYTES: u64 = 268_439_552;
/// How many words the greatest region has.
pub const MOST_WORDS: u64 = 33_554_944;
