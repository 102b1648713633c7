//! The yardstick: a plain and slow program that reads a whole image and says its first broken rule, its
//! entries and the cells that it recovers. It does what the definitions of `store_image` say, one by one.
//! Nothing that serves a store stands on it: tests and readers of images measure with it.
#![tactic(auto)]

pub mod chunks;
pub mod entry_rules;
pub mod faults;
pub mod gather_image;
pub mod image_blocks;
pub mod image_cells;
pub mod image_heads;
pub mod image_places;
pub mod image_superblock;
pub mod winners;

pub use faults::first_fault;
pub use image_cells::recovered_cells;
pub use image_superblock::layout_at;
