// Why a change finds no place.
use fs_model::Version;

/// The numbers by which a change was refused for want of room, of its core at that moment.
#[derive(Clone, Copy, Debug, PartialEq, Eq)]
pub struct Counts {
    /// Free chunks of the core's part.
    pub free_chunks: u32,
    /// Free lines of the open log chunk.
    pub open_lines: u64,
    /// Lines that were promised to changes under way.
    pub pledged_lines: u64,
    /// Lines that the change's entry needs.
    pub need_lines: u64,
    /// The class of the block that the value needs, or 0 where it needs none.
    pub class: u32,
    /// Free blocks of that class, or 0.
    pub free_blocks: u32,
}

/// Why a request was refused.
#[derive(Clone, Copy, Debug, PartialEq, Eq)]
pub enum Shortage {
    /// The log has no room for the entry.
    Room(Counts),
    /// No block is free for the value, and none may be cut.
    Block(Counts),
    /// The key's last version is the greatest that a put may follow.
    Versions { last: Version },
    /// The value has so many bytes, more than a block can hold.
    Length { length: u64 },
}
