// Where the fields of an entry's first word begin, and the bounds of entries and batches.

/// The operation of a put.
pub const PUT_OPERATION: u64 = 1;
/// The operation of a delete.
pub const DELETE_OPERATION: u64 = 2;
/// The form of a put with a block, and of a delete.
pub const PLAIN_FORM: u64 = 0;
/// The form of a put whose value stands beside its key.
pub const EMBEDDED_FORM: u64 = 1;
/// The least version of a put: that of a key's first change.
pub const FIRST_PUT_VERSION: u32 = 1;
/// The least version of a delete: a put of its key stands before it.
pub const FIRST_DELETE_VERSION: u32 = 2;
/// The greatest version of a put. One delete more may follow it.
pub const LAST_PUT_VERSION: u32 = 1_048_574;
/// The greatest version of a delete, and of any entry.
pub const LAST_DELETE_VERSION: u32 = 1_048_575;
/// How many bytes the longest value has that stands beside its key.
pub const LONGEST_EMBEDDED: u64 = 255;
/// How many words the shortest entry has: the first word and the key.
pub const SHORTEST_ENTRY: u64 = 2;
/// How many words the longest entry has: the first word, the key, and 255 bytes.
pub const LONGEST_ENTRY: u64 = 34;
/// How many lines of 8 words the longest entry takes.
pub const LONGEST_ENTRY_LINES: u64 = 5;
/// How many entries a batch has at most.
pub const MOST_ENTRIES: u32 = 64;
/// How many words the longest batch has: 64 entries of 34 words.
pub const MOST_BATCH_WORDS: u64 = 2_176;
/// The operation has the lowest 2 bits of the first word.
pub const OPERATION_RANGE: u64 = 4;
/// The form begins at bit 2 of the first word.
pub const FORM_UNIT: u64 = 4;
/// The form has 2 bits.
pub const FORM_RANGE: u64 = 4;
/// The version begins at bit 4 of the first word.
pub const VERSION_UNIT: u64 = 16;
/// The version has 20 bits.
pub const VERSION_RANGE: u64 = 1_048_576;
/// The pointer, or the length, begins at bit 24 of the first word.
pub const HIGH_UNIT: u64 = 16_777_216;
/// The pointer has 40 bits.
pub const POINTER_RANGE: u64 = 1_099_511_627_776;
/// The length of an embedded value has 8 bits.
pub const LENGTH_RANGE: u64 = 256;
