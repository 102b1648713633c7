// The sizes of a group.

/// How many slots a member has. They are numbered from 0 in each member's pool.
pub const SLOTS: u32 = 8;
/// How many words the lock has: it stands first among the words of a group.
pub const LOCK_WORDS: u32 = 1;
