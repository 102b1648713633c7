//! How much a page has.

/// Bytes of a page.
pub const PAGE: usize = 32_768;

/// Words of a page.
pub const PAGE_WORDS: u64 = 4_096;
