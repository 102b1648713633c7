// The words of the command line.
ghost use Rattle.std.specs.Prelude.{◌≡◌, IfOk, option_map, is_some, string_bytes};
ghost use Rattle.clap.specs.Words.{found_of, rows_of, subcommand_rows_of};
ghost use Rattle.flatstore_commands.specs.Commands.{form_of, form_in, form_named, layout_in, load_in, needs_threads, number_in, words_of, workers_in};
ghost use Rattle.flatstore_commands.specs.Asked.{asked, path_of, threaded, way_of};

use crate::load_size::LoadSize;
use crate::parser::program;
use crate::workers::Workers;
use chunk_map::Layout;
use clap::ArgMatches;
use clap::error::ErrorKind;
use fs_model::Memory;
use std::alloc::Global;

/// What the words ask for. The path is that of the region, and may be empty.
#[derive(Drop)]
pub enum Command<'a> {
    /// An empty region of this layout, in place of whatever is there.
    Format { path: &'a str, layout: Layout },
    /// Answers to the requests of the input, in order.
    Replay { path: &'a str },
    /// The same answers, with one worker for each core, each in a thread of its own.
    Run { path: &'a str },
    /// The live pairs, by rising key.
    Dump { path: &'a str },
    /// The entries of the logs, by core, chunk and place.
    Log { path: &'a str },
    /// Answers to the queries of the input, in order.
    Scan { path: &'a str },
    /// A verdict on the replies of the input, by so many workers.
    Audit { path: &'a str, workers: Workers },
    /// A tally of the answers to so many requests that are made.
    Load { path: &'a str, size: LoadSize },
}

fn number_in(matches: &ArgMatches, name: &str) -> Option<u64>
    ensures { result ≡ number_in name.now (rows_of (found_of matches.now)) }
{
    matches.get_one::<u64>(name)
}

fn layout_in(matches: &ArgMatches) -> Option<Layout>
    ensures { result ≡ layout_in (rows_of (found_of matches.now)) }
{
    let cores = number_in(matches, "cores")?;
    let group = number_in(matches, "group")?;
    let chunks = number_in(matches, "chunks")?;
    let chunk_bytes = number_in(matches, "chunk-bytes")?;
    Layout::of_numbers(cores, group, chunks, chunk_bytes)
}

fn workers_in(matches: &ArgMatches) -> Option<Workers>
    ensures { option_map (λ w. w.count) result ≡ workers_in (rows_of (found_of matches.now)) }
{
    let count = number_in(matches, "workers")?;
    Workers::of(count)
}

fn load_in(matches: &ArgMatches) -> Option<LoadSize>
    ensures { option_map (λ l. (l.start, l.count)) result
        ≡ load_in (rows_of (found_of matches.now)) }
{
    let start = number_in(matches, "start")?;
    let count = number_in(matches, "count")?;
    LoadSize::of(start, count)
}

/// The command of a subcommand's name, its matches and its path.
fn command_named<'a>(name: &str, matches: &ArgMatches, path: &'a str) -> Option<Command<'a>>
    ensures { option_map asked result ≡ form_named name.now
        (rows_of (found_of matches.now)) path.entry.now }
{
    if name == "format" {
        let layout = layout_in(matches)?;
        return Some(Command::Format { path, layout });
    }
    if name == "replay" {
        return Some(Command::Replay { path });
    }
    if name == "run" {
        return Some(Command::Run { path });
    }
    if name == "dump" {
        return Some(Command::Dump { path });
    }
    if name == "log" {
        return Some(Command::Log { path });
    }
    if name == "scan" {
        return Some(Command::Scan { path });
    }
    if name == "audit" {
        let workers = workers_in(matches)?;
        return Some(Command::Audit { path, workers });
    }
    if name == "load" {
        let size = load_in(matches)?;
        return Some(Command::Load { path, size });
    }
    None
}

fn command_in<'a>(matches: &ArgMatches<'a>) -> Option<Command<'a>>
    ensures { option_map asked result ≡ form_in (subcommand_rows_of matches.now) }
{
    let (name, own) = matches.subcommand()?;
    let path = own.get_str("region")?;
    command_named(name, own, path)
}

/// What the words of a command line ask for, the program's name first, or `None` where they are no form of the
/// program: where `clap` refuses them, or where the numbers for a new region break a rule of its layout.
pub fn parse_command<'a>(alloc: Global, words: &'a [String]) -> Result<Option<Command<'a>>, Memory>
    ensures { IfOk result (λ c. option_map asked c ≡ form_of (words_of words.entry.now)) }
{
    let program = program(alloc)?;
    match program.try_get_matches_from(words) {
        Ok(matches) => Ok(command_in(&matches)),
        Err(error) => {
            if error.kind() == ErrorKind::OutOfMemory {
                Err(Memory)
            } else {
                Ok(None)
            }
        }
    }
}

impl<'a> Command<'a> {
    ghost use Rattle.flatstore_commands.specs.Asked.{path_of};

    /// The path of the region.
    pub fn path(&self) -> &'a str
        ensures { result.now ≡ path_of (asked self.now) }
    {
        match self {
            Command::Format { path, .. } => path,
            Command::Replay { path } => path,
            Command::Run { path } => path,
            Command::Dump { path } => path,
            Command::Log { path } => path,
            Command::Scan { path } => path,
            Command::Audit { path, .. } => path,
            Command::Load { path, .. } => path,
        }
    }
}

/// The path of the region, or `None` exactly where the words are no form.
pub fn region_path(alloc: Global, words: &Vec<String>) -> Result<Option<String>, Memory>
    ensures { IfOk result (λ path. option_map string_bytes path
        ≡ option_map path_of (form_of (words_of words.now.items))) }
{
    match parse_command(alloc, words.as_slice()) {
        Err(error) => Err(error),
        Ok(None) => Ok(None),
        Ok(Some(command)) => Ok(Some(String::from_str(alloc, command.path())?)),
    }
}

/// What the words ask for that is done in threads, or `None` where they ask for nothing of the kind.
#[derive(Clone, Copy)]
pub enum Threaded {
    /// A run of the cores.
    Run,
    /// An audit by so many workers.
    Audit { workers: Workers },
    /// A run of so many requests that are made.
    Load { size: LoadSize },
}

/// What the words ask for that needs threads.
pub fn asked_of_threads(alloc: Global, words: &Vec<String>) -> Result<Option<Threaded>, Memory>
    ensures asked { IfOk result (λ t. option_map way_of t
        ≡ threaded (form_of (words_of words.now.items))) }
    ensures alone { IfOk result (λ t. is_some t
        ≡ needs_threads (form_of (words_of words.now.items))) }
{
    match parse_command(alloc, words.as_slice()) {
        Err(error) => Err(error),
        Ok(Some(Command::Run { .. })) => Ok(Some(Threaded::Run)),
        Ok(Some(Command::Audit { workers, .. })) => Ok(Some(Threaded::Audit { workers })),
        Ok(Some(Command::Load { size, .. })) => Ok(Some(Threaded::Load { size })),
        Ok(_) => Ok(None),
    }
}
