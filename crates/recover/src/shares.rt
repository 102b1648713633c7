// What each core gets of the entries of all logs.
ghost use Rattle.std.specs.Prelude.{◌≡◌, ℕ, ◌<◌, ◌≤◌, ◌++◌, length, map, slice_index_or, IfOk, OnOk, IsOkUnless};
ghost use Rattle.std.specs.Option.{option_to_list};
ghost use Rattle.std.specs.List.{AllByRecursion};
ghost use Rattle.pm_region.specs.State.{IsTelling};
ghost use Rattle.pm_region.specs.Words.{lasts};
ghost use Rattle.log_entry.specs.Spelling.{HasSpelling};
ghost use Rattle.chunk_map.specs.Layouts.{IsLayout};
ghost use Rattle.core_index.specs.Records.{pointer_of, opened_with};
ghost use Rattle.core_index.specs.Index.{EntersAs};
ghost use Rattle.recover.specs.Regions.{Covers};
ghost use Rattle.recover.specs.FoundEntries.{AreInOrder, AreFound, Stands, body_at, entries_at};
ghost use Rattle.recover.specs.Standing.{standee_at};
ghost use Rattle.recover.specs.Shares.{AreSpelledShares, AreEmpty, Gives, GivesShares};

use crate::found_entries::Found;
use crate::judge_winners::judge_winner;
use crate::key_runs::key_run;
use crate::key_standees::list_standees;
use crate::look_ahead::look_ahead;
use crate::reading::{gone_fault, read_in};
use crate::types::RecoverError;
use chunk_map::Layout;
use core_index::{CoreIndex, Standee};
use fs_model::Memory;
use log_entry::Body;
use pm_region::Region;
use std::alloc::Global;
use std::collections::BTreeSet;
use std::mem::replace;
use store_image::geometry::owner;

/// What one core gets.
#[derive(Drop)]
pub struct Share {
    /// The pointers of the winners of its keys.
    pub pointers: Vec<u64>,
    /// What is known of its keys.
    pub index: CoreIndex,
}

/// Lists that serve all keys, so that no key takes memory anew for them.
#[derive(Drop)]
struct Scratch {
    /// The words of a winner.
    words: Vec<u64>,
    /// Room for the bytes of its value.
    room: Vec<u8>,
    /// The entries of its key that stand.
    standing: Vec<Standee>,
}

/// Enters what is known of a winner's key, and appends its pointer where it has one.
fn enter(
    alloc: Global,
    share: &mut Share,
    winner: &Found,
    body: &Body,
    standing: &[Standee],
) -> Result<(), Memory>
    requires below { AllByRecursion (λ s. s.version ≤ winner.now.version) standing.now }
    ensures index { OnOk result (EntersAs share.old.index share.new.index winner.now.key
        (opened_with winner.now.version body.now standing.now)) }
    ensures pointers { OnOk result (share.new.pointers.items ≡ share.old.pointers.items
        ++ option_to_list (pointer_of body.now)) }
{
    if let Body::Pointer(pointer) = body {
        share.pointers.push(*pointer)?;
    }
    share
        .index
        .enter(alloc, winner.key, winner.version, body, standing)
}

/// Gives a winner to the core that owns its key.
fn give(
    alloc: Global,
    layout: &Layout,
    shares: &mut Vec<Share>,
    winner: &Found,
    body: &Body,
    standing: &[Standee],
) -> Result<(), Memory>
    requires layout { IsLayout layout.now }
    requires count { length shares.old.items ≡ layout.now.cores }
    requires below { AllByRecursion (λ s. s.version ≤ winner.now.version) standing.now }
    ensures count { length shares.new.items ≡ layout.now.cores }
    ensures gives { OnOk result (Gives layout.now shares.old.items shares.new.items winner.now
        body.now standing.now) }
{
    let owner = owner(&layout.geometry(), winner.key) as usize;
    enter(alloc, &mut shares[owner], winner, body, standing)
}

/// The room that the bytes of a value had, where there is one.
fn room_of(alloc: Global, body: Body) -> Vec<u8> {
    match body {
        Body::Embedded(value) => value.into_bytes(),
        _ => Vec::new(alloc),
    }
}

/// Gives the winner of some entries of one key to the core that owns the key, with all of them. A winner that stands
/// there no more is answered as damage.
fn give_key<R: Region>(
    alloc: Global,
    region: &R,
    layout: &Layout,
    shares: &mut Vec<Share>,
    winner: &Found,
    run: &[Found],
    scratch: &mut Scratch,
) -> Result<(), RecoverError>
    requires covers { Covers (R.state region.now).frame layout.now }
    requires count { length shares.old.items ≡ layout.now.cores }
    requires below { AllByRecursion (λ f. f.version ≤ winner.now.version) run.now }
    ensures count { length shares.new.items ≡ layout.now.cores }
    ensures spelled { OnOk result (AreSpelledShares layout.now shares.old.items
        → AreSpelledShares layout.now shares.new.items) }
    ensures gives { OnOk result (IsTelling (R.state region.now)
        → Stands layout.now (lasts (R.state region.now)) winner.now
        → Gives layout.now shares.old.items shares.new.items winner.now
        (body_at (lasts (R.state region.now)) winner.now.at)
        (map (standee_at layout.now) run.now)) }
    ensures stands { IsTelling (R.state region.now)
        → Stands layout.now (lasts (R.state region.now)) winner.now
        → IsOkUnless result RecoverError.Memory }
{
    let room = replace(&mut scratch.room, Vec::new(alloc));
    let Some(body) = read_in(region, layout, winner, &mut scratch.words, room)? else {
        return Err(gone_fault(layout, winner).into());
    };
    list_standees(layout, run, &mut scratch.standing)?;
    give(alloc, layout, shares, winner, &body, &scratch.standing)?;
    scratch.room = room_of(alloc, body);
    Ok(())
}

/// A share for each core, with nothing in it.
fn no_shares(alloc: Global, layout: &Layout) -> Result<Vec<Share>, Memory>
    ensures count { IfOk result (λ shares. length shares.items ≡ layout.now.cores) }
    ensures empty { IfOk result (λ shares. AreEmpty shares.items) }
{
    let mut shares = Vec::with_capacity(alloc, layout.cores() as usize)?;
    for _ in 0..layout.cores() {
        shares.push(Share {
            pointers: Vec::new(alloc),
            index: CoreIndex::empty(alloc)?,
        })?;
    }
    Ok(shares)
}

/// What the cores get, in their order, of entries by their names, or the first one of rules 9 to 11 that a winner breaks.
/// Each key's winner is judged and read at one time, so that its words are fetched from memory once.
pub fn shares<R: Region>(
    alloc: Global,
    region: &R,
    layout: &Layout,
    sorted: &[Found],
) -> Result<Vec<Share>, RecoverError>
    requires covers { Covers (R.state region.now).frame layout.now }
    requires order { AreInOrder sorted.now }
    ensures count { IfOk result (λ shares. length shares.items ≡ layout.now.cores) }
    ensures spelled { IfOk result (λ shares. AreSpelledShares layout.now shares.items) }
    ensures told { IsTelling (R.state region.now)
        → AreFound layout.now (lasts (R.state region.now)) sorted.now
        → GivesShares layout.now (lasts (R.state region.now))
        (entries_at layout.now (lasts (R.state region.now)) sorted.now) result }
{
    let mut shares = no_shares(alloc, layout)?;
    let mut scratch = Scratch {
        words: Vec::new(alloc),
        room: Vec::new(alloc),
        standing: Vec::new(alloc),
    };
    let mut taken = BTreeSet::new(alloc);
    let mut at = 0;
    let mut looked = 0;
    while at < sorted.len() {
        looked = look_ahead(region, layout, sorted, at, looked)?;
        let run = key_run(sorted, at);
        let winner = &sorted[run.winner];
        judge_winner(alloc, region, layout, &mut taken, winner)?;
        let entries = &sorted[at..run.end];
        give_key(
            alloc,
            region,
            layout,
            &mut shares,
            winner,
            entries,
            &mut scratch,
        )?;
        at = run.end;
    }
    Ok(shares)
}
