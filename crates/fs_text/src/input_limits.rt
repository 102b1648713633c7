// What the rules leave of an input.

/// The most bytes of an input.
pub const MOST_INPUT_BYTES: u64 = 67_108_864;
/// How many bytes are read at most: one more than an input may have.
pub const MOST_READ: usize = 67_108_865;
/// The most requests of an input.
pub const MOST_REQUESTS: u64 = 1_000_000;
/// The most turns of an input.
pub const MOST_TURNS: u64 = 16_777_216;
/// The most turns of one line.
pub const MOST_LINE_TURNS: u64 = 1_000_000;
/// The most bytes of a line without its newline.
pub const LONGEST_LINE: usize = 1_048_640;
