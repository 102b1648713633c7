//! Recovery: what the words of a region say after a crash. One walk over the logs finds the first broken rule
//! of soundness, or what each core begins with: its log, its allocator, in which exactly the blocks of live
//! values are allocated, the index of its keys, and what stands in its log. It writes nothing.
//!
//! The plain and slow program of `image_yardstick` says the same of a list of words; its definitions are the
//! yardstick here. This one reads the region word by word, chunk by chunk, in time linear in the words up to
//! the logs' tails. It keeps of each entry its name and its first word, 16 bytes, and sorts these once by name; the
//! place of the first contradiction comes out of one walk over them. Another walk judges each key's winner and reads
//! it: since winners by name stand anywhere in the region, the first words of many are loaded side by side. The heads
//! of the chunks, two words each, are read a second time for the logs and the allocators. The names that stand in each log
//! come out of the sorted list, which is taken off from its end on while they are noted.
#![tactic(auto)]

mod core_names;
mod found_entries;
mod gather_region;
mod judge_winners;
mod key_runs;
mod key_standees;
mod live;
mod logged_entries;
mod logs;
mod look_ahead;
mod pair_list;
mod reading;
mod recover_region;
mod recover_snapshot;
mod region_blocks;
mod shares;
mod sorting;
mod starts;
mod types;

pub use live::live_pairs;
pub use logged_entries::log_entries;
pub use pair_list::pairs;
pub use recover_region::{first_fault, recover};
pub use recover_snapshot::recover_read;
pub use store_image::Fault;
pub use types::{CoreStart, RecoverError, Recovered};
