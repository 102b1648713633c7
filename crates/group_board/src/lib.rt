//! The board of a group: what the members of a group of cores call to hand changes to each other, and a board
//! that serves one thread and tells the state of the whole group.
#![tactic(auto)]

mod board;
mod board_journal;
mod change;
mod local_board;
mod local_seat;
mod names;
mod notes;
mod opening;
mod slot_words;
mod slots;

pub use board::{Board, Busy, MailFull, SlotState};
pub use change::Change;
pub use local_board::LocalBoard;
pub use local_seat::LocalSeat;
pub use names::{Names, Notices};
pub use opening::Opening;
pub use slot_words::{word_of, words_in};
