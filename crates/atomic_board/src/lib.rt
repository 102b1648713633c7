//! The board of a group over threads: the lock, the slots and the mailboxes are words of one table, each changed by
//! single atomic steps, and each member of the group makes its steps through a seat of its own.
#![tactic(auto)]

mod group_table;
mod mailing;
mod member_seat;
mod origins;
mod parcel;
mod rule;
mod seat_board;
mod seat_data;
mod seat_leading;
mod seat_returns;
mod slot_order;
mod table;
pub mod table_laws;
mod table_words;
mod token;

pub use group_table::GroupTable;
pub use parcel::Parcel;
pub use seat_data::{Deed, Holding, MailHold, Origin, SeatData};
pub use token::{CoreSeat, SeatToken};
