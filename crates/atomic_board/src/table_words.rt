// The words of a group's table: where the lock stands, and which number says what.

/// The lock's place among the words.
pub const LOCK: usize = 0;
/// What the lock has while nobody holds it. Else it has the holder's number and one.
pub const FREE_LOCK: u64 = 0;
/// What the word of an Empty slot has.
pub const EMPTY_WORD: u64 = 0;
/// What the word of a Taken slot has.
pub const TAKEN_WORD: u64 = 2;
/// What the word of a Failed slot has.
pub const FAILED_WORD: u64 = 4;
/// What the word of a Done slot has, beside the number of the entry's home.
pub const DONE_WORD: u64 = 8;
/// What the word of a Posted slot has, beside the number of the entry's words.
pub const POSTED_WORD: u64 = 16;
/// What the word of a mailbox has while nothing lies there.
pub const EMPTY_MAILBOX: u64 = 0;
/// What the word of a mailbox has while notices lie there.
pub const FULL_MAILBOX: u64 = 1;
/// How many slots a group has at most: 8 of each of 8 members.
pub const MOST_SLOTS: usize = 64;
