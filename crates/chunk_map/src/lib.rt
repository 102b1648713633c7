//! The map of a region: its layout, its superblock and the heads of its chunks.
#![tactic(auto)]

pub mod heads;
pub mod layout_sizes;
pub mod layouts;
pub mod read_heads;
pub mod setting;
pub mod superblock;
pub mod words;

pub use heads::{BadHead, Head};
pub use layouts::{BadLayout, Geometry, Layout};
pub use read_heads::{read_head, read_superblock};
pub use setting::set_head;
pub use superblock::{NotARegion, write_superblock};
