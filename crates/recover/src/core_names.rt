// The names of each core's log, out of the sorted list of all entries.
ghost use Rattle.std.specs.Prelude.{◌≡◌, ◌≢◌, ℕ, ◌<◌, ◌++◌, ◌∷◌, [], List, length, slice_index_or, IfOk};
ghost use Rattle.chunk_map.specs.Layouts.{IsLayout};
ghost use Rattle.log_standing.specs.Notes.{Noted, noted_as};
ghost use Rattle.recover.specs.declared.found_entries.Found.{Found as Entry};
ghost use Rattle.recover.specs.FoundEntries.{chunk_there};
ghost use Rattle.recover.specs.LogNames.{AllFoundIn};

use crate::found_entries::{Found, chunk_of, core_of};
use chunk_map::Layout;
use fs_model::Memory;
use log_entry::EntryName;
use log_standing::LogNames;
use std::alloc::Global;

/// The room of so many entries that were taken off a list is given back at once. It is 1 MiB.
const GIVEN_BACK_AT_ONCE: usize = 65536;

/// A count of none for each core.
fn no_counts(alloc: Global, layout: &Layout) -> Result<Vec<usize>, Memory>
    ensures { IfOk result (λ counts. length counts.items ≡ layout.now.cores) }
{
    let mut counts = Vec::with_capacity(alloc, layout.cores() as usize)?;
    for _ in 0..layout.cores() {
        counts.push(0)?;
    }
    Ok(counts)
}

/// Counts one more entry for a core, where there is that core.
fn count_one(counts: &mut Vec<usize>, core: u32)
    ensures { length counts.new.items ≡ length counts.old.items }
{
    let at = core as usize;
    if at < counts.len() {
        counts[at] = counts[at].saturating_add(1);
    }
}

/// How many of the entries begin in each core's part. The contract doesn't say so, since only room is made by it.
fn count_entries(alloc: Global, layout: &Layout, found: &[Found]) -> Result<Vec<usize>, Memory>
    ensures { IfOk result (λ counts. length counts.items ≡ layout.now.cores) }
{
    let mut counts = no_counts(alloc, layout)?;
    if counts.len() == 1 {
        counts[0] = found.len();
        return Ok(counts);
    }
    for entry in found {
        count_one(&mut counts, core_of(layout, entry.at));
    }
    Ok(counts)
}

/// No names for each core, with room for so many entries.
fn no_names(alloc: Global, counts: &[usize]) -> Result<Vec<LogNames>, Memory>
    ensures count { IfOk result (λ names. length names.items ≡ length counts.now) }
    ensures empty { IfOk result (λ names. (c : ℕ) (d : List Noted) → c < length counts.now
        → slice_index_or names.items c d ≡ []) }
{
    let mut names = Vec::with_capacity(alloc, counts.len())?;
    for count in counts {
        names.push(LogNames::with_room(alloc, *count)?)?;
    }
    Ok(names)
}

/// Notes the name of an entry for a core, with its chunk.
fn note_for(
    layout: &Layout,
    names: &mut Vec<LogNames>,
    core: u32,
    found: &Found,
) -> Result<(), Memory>
    requires layout { IsLayout layout.now }
    requires core { core < length names.old.items }
    ensures count { length names.new.items ≡ length names.old.items }
    ensures noted { IfOk result (λ _. (d : List Noted) → slice_index_or names.new.items core d
        ≡ slice_index_or names.old.items core d
        ++ noted_as (record { key = found.now.key; version = found.now.version })
        (chunk_there layout.now found.now.at) ∷ []) }
    ensures others { (c : ℕ) (d : List Noted) → c ≢ core
        → slice_index_or names.new.items c d ≡ slice_index_or names.old.items c d }
{
    let name = EntryName {
        key: found.key,
        version: found.version,
    };
    names[core as usize].note(name, chunk_of(layout, found.at))
}

/// Notes the name of an entry for the core in whose part it begins.
fn note_found(layout: &Layout, names: &mut Vec<LogNames>, found: &Found) -> Result<(), Memory>
    requires layout { IsLayout layout.now }
    requires count { length names.old.items ≡ layout.now.cores }
    ensures count { length names.new.items ≡ layout.now.cores }
    ensures noted { IfOk result (λ _. (fs : List Entry) → AllFoundIn layout.now fs names.old.items
        → AllFoundIn layout.now (found.now ∷ fs) names.new.items) }
{
    let core = core_of(layout, found.at);
    if core >= layout.cores() {
        return Ok(());
    }
    note_for(layout, names, core, found)
}

/// Gives back the room of entries that were taken off, now and then.
fn give_back(left: &mut Vec<Found>)
    ensures { left.new.items ≡ left.old.items }
{
    if left.len() % GIVEN_BACK_AT_ONCE == 0 {
        left.shrink_to_fit();
    }
}

/// The names of each core's log. The entries are taken off the list from its end on, and its room is given back
/// meanwhile, so list and names together take a MiB more than the list did, and no more. Where the list is sorted, each
/// core's names come in falling order.
pub fn core_names(
    alloc: Global,
    layout: &Layout,
    sorted: Vec<Found>,
) -> Result<Vec<LogNames>, Memory>
    requires { IsLayout layout.now }
    ensures count { IfOk result (λ names. length names.items ≡ layout.now.cores) }
    ensures names { IfOk result (λ names. AllFoundIn layout.now sorted.items names.items) }
{
    let counts = count_entries(alloc, layout, &sorted)?;
    let mut names = no_names(alloc, &counts)?;
    let mut left = sorted;
    while let Some(last) = left.pop() {
        note_found(layout, &mut names, &last)?;
        give_back(&mut left);
    }
    Ok(names)
}
