//! One core: it accepts requests for its keys, and works them off in turns.
//!
//! The calls of [`Worker`] stand in these files, in the order in which a core comes to them.
//!
//! | When | File | Calls |
//! |---|---|---|
//! | it is opened on what recovery found | `open_worker` | `open` |
//! | it is handed a request: which is held for its key, or begun | `accepting` | `accept` |
//! | a request is begun: what is done for it | `planning`, `begin_request` | `plan`, `begin` |
//! | what room there is for it | `worker_room` | `supply`, `supply_for` |
//! | a turn of a core that has the lock: it takes a posted change, or, as a stopped core, an own one back | `turn_items`, `lead_items`, `stopped_items` | `serve_collecting`, `go_round`, `withdraw` |
//! | a turn of a core with a batch: it writes it, or gives back a change of it | `turn_items`, `lead_items`, `batch_names` | `serve_batch`, `write_batch`, `mark_next`, `fail_next`, `renew_names` |
//! | any other turn: an own change that came back is finished | `search_places`, `finish_item` | `find_back`, `take_back` |
//! | and what waited for its key is begun | `begin_waiting` | `serve` |
//! | else a staged change is posted, or, by a stopped core, answered | `choose_item`, `post_item`, `stopped_items` | `choose`, `post_staged`, `post_block`, `drop_staged` |
//! | else, by a core that neither stopped nor winds down, a mailbox is emptied | `mail_items` | `receive_first` |
//! | else, by such a core, what waits for another member is sent | `send_turn`, `send_items` | `send_first`, `send_to`, `send_ready` |
//! | else a cleaning goes on: copies, then names that are doomed, then its end | `clean_items`, `copy_items` | `serve_cleaning`, `copy`, `doom`, `end_clean` |
//! | else one begins | `begin_items` | `begin_next` |
//! | else the lock is tried, where an own change is posted; and else the turn is idle | `turn_items`, `lead_items` | `serve_lock`, `try_lead` |
//! | at any time it tells of itself | `status`, `posted_places` | `has_room`, `pending`, `leading`, `next_answer`, `wind_down`, `has_posted` |
//! | it is stopped, and gives its parts back | `stop_worker` | `stop` |
//!
//! The other files have what these calls do to one part of a worker at a time.
#![tactic(auto)]

mod accepting;
mod batch_names;
mod begin_cleaning;
mod begin_items;
mod begin_request;
mod begin_waiting;
mod choose_item;
mod clean_items;
mod cleaning_ends;
mod cleaning_parts;
mod clear_turn;
mod clears_left;
mod copy_buffer;
mod copy_items;
mod copy_turn;
mod doom_turn;
mod finish_item;
mod gate;
mod giving_up;
mod gone_mail;
mod gone_names;
mod hearing;
mod lead_items;
mod log_names;
mod mail_items;
mod open_worker;
mod outbox;
mod planning;
mod post_item;
mod posted_places;
mod search_places;
mod send_items;
mod send_turn;
mod sending;
mod status;
mod stop_worker;
mod stopped_items;
mod turn_items;
mod types;
mod worker;
mod worker_room;

pub use core_room::{Counts, Shortage};
pub use gate::{Gate, OpenGate, Point};
pub use types::{Answer, Cleaning, Leading, NotAccepted, Place, Turn, Victim};
pub use worker::Worker;
