//! A region in a file: its words in memory, its flushed lines written and synced by a fence, and the pieces that it
//! is split into. All calls of the system on the file are in `device` and `system`.
#![tactic(auto)]

mod byte_room;
mod calls;
mod device;
mod file;
mod file_bytes;
mod file_open;
mod file_piece;
mod file_pieces;
mod file_words;
mod line_runs;
mod line_set;
mod own_pages;
mod page_size;
mod pages;
mod read_pages;
mod shared_bytes;
mod system;

pub use file::FileRegion;
pub use file_piece::FilePiece;
