//! What the program does, as one call on a region, an input and an output: the top call, with all that is promised of
//! it, for each form of the command line.
#![tactic(auto)]

mod alone;
mod arguments;
mod auditing;
mod command;
mod finishes;
mod formatting;
mod load_size;
mod loading;
mod parser;
mod playing;
mod replay;
mod report;
mod run_threads;
mod scan_ranges;
mod showing;
mod top;
mod workers;

pub use alone::flatstore_alone;
pub use arguments::command_line;
pub use command::region_path;
pub use finishes::Finishes;
pub use load_size::MOST_LOAD_REQUESTS;
pub use report::{CommandReport, Status};
pub use top::flatstore;
