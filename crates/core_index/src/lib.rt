//! The keys of one core: last version, value, and the entries that stand in a log.
#![tactic(auto)]

mod compact;
mod dead_entries;
mod death_notes;
mod death_notices;
mod entering;
mod entries;
mod entry_list;
mod index;
mod key_slot;
mod live_keys;
mod live_list;
mod lone_keys;
mod pairs;
mod short_names;
mod slot_map;
mod start_keys;
mod tombstone_list;
mod tombstones;
mod types;

pub use index::CoreIndex;
pub use types::{Look, Record, Spent, Standee};
