// The bounds of a layout, and the sizes of what lies in a region.

/// The magic word: the bytes `FLATST01`, the first in the lowest byte.
pub const MAGIC: u64 = 0x3130_5453_5441_4c46;
/// The format that is written and read.
pub const FORMAT: u64 = 1;
/// How many bytes the superblock has. Part 0 begins behind it.
pub const SUPERBLOCK_BYTES: u64 = 4_096;
/// How many words the superblock has.
pub const SUPERBLOCK_WORDS: u64 = 512;
/// How many words the head of a chunk has.
pub const HEAD_WORDS: u64 = 32;
/// How many lines of 8 words the head of a chunk has.
pub const HEAD_LINES: u64 = 4;
/// How many bytes a unit has: a pointer counts units from the region's start.
pub const UNIT_BYTES: u64 = 256;
/// How many units the superblock has: the number of the first unit of part 0.
pub const FIRST_UNIT: u64 = 16;
/// How many words a unit has.
pub const UNIT_WORDS: u64 = 32;
/// How many lines of 8 words a unit has.
pub const UNIT_LINES: u64 = 4;
/// The kind word of a Free chunk.
pub const FREE_KIND: u64 = 0;
/// The kind word of a chunk of a log.
pub const LOG_KIND: u64 = 1;
/// The kind word of a Data chunk, but for its class.
pub const DATA_KIND: u64 = 2;
/// The kind word of a Data chunk has its class times this beside `DATA_KIND`.
pub const CLASS_FACTOR: u64 = 256;
/// The greatest class of blocks: class `c` has blocks of `2 ^ c` units.
pub const GREATEST_CLASS: u32 = 12;
/// A chunk has the bytes of so many blocks of the greatest class of its layout, or more.
pub const LEAST_BLOCKS: u64 = 4;
/// How many bytes the shortest value has that gets a block. A shorter one stands beside its key.
pub const SHORTEST_IN_BLOCK: u64 = 256;
/// How many bytes the longest value has: a quarter of the greatest chunk, but for one word.
pub const LONGEST_VALUE: u64 = 1_048_568;
/// The most cores of a layout.
pub const MOST_CORES: u64 = 16;
/// The most cores of a group.
pub const MOST_GROUP: u64 = 8;
/// The fewest chunks of a core.
pub const LEAST_CHUNKS: u64 = 4;
/// The most chunks of a core.
pub const MOST_CHUNKS: u64 = 64;
/// How many bytes the least chunk has.
pub const LEAST_CHUNK: u64 = 4_096;
/// How many bytes the greatest chunk has. Between them stand the powers of two.
pub const GREATEST_CHUNK: u64 = 4_194_304;
/// How many bytes all parts have together at most.
pub const MOST_PART_BYTES: u64 = 268_435_456;
