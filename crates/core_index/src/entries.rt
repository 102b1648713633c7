// The entries of one key that stand in a log, by rising version, in place or in a list.
ghost use Rattle.std.specs.Prelude.{◌≡◌, ℕ, ◌+◌, ◌-◌, ◌<◌, ◌≤◌, ◌++◌, ◌∷◌, [], Some, false, IfOk, OnOk, OnErr, length};
ghost use Rattle.std.specs.List.{AllByRecursion};
ghost use Rattle.core_index.specs.Records.{list_of, standing_at, standing_with, stands_alone, with_told, others, by_version};
ghost use Rattle.core_index.specs.Marks.{kept};
ghost use Rattle.core_index.specs.Pairs.{in_pair, top_by, top_of, IsRising, Rise};
ghost use Rattle.core_index.specs.Helds.{entry_in, pair_in, IsFew, Holds};

use crate::entry_list::EntryList;
use crate::types::{Held, IN_PLACE, Marked, Pair, Presence, Standee, StandingEntry};
use fs_model::{Memory, Version};
use std::alloc::Global;
use std::marker::Model;

/// The entries of a key that stand in a log, by rising version, and room for so many more. Only `of` and `reserve` take
/// memory.
#[derive(Drop)]
pub struct Entries {
    held: Held,
}

impl Model for Entries {
    ghost use Rattle.core_index.specs.Marks.{Marks};
    ghost use Rattle.core_index.specs.Helds.{items_in, room_in, top_in, IsHeld};

    ghost Value = { Marks };

    ghost view = { λ a. record { items = items_in a.held; room = room_in a.held; top = top_in a.held } };

    ghost invariant = { λ a. IsHeld a.held };
}

fn entry_in(presence: Presence, name: Standee) -> Option<StandingEntry>
    ensures { result ≡ entry_in presence name }
{
    let told = match presence {
        Presence::Free => return None,
        Presence::Untold => false,
        Presence::Told => true,
    };
    Some(StandingEntry {
        version: name.version,
        home: name.home,
        told,
    })
}

fn pair_in(first: Presence, second: Presence, first_name: Standee, second_name: Standee) -> Pair
    ensures { result ≡ pair_in first second first_name second_name }
{
    Pair {
        first: entry_in(first, first_name),
        second: entry_in(second, second_name),
    }
}

// A place with this, in its two parts.
fn parted(entry: Option<StandingEntry>) -> (Presence, Standee)
    ensures { entry_in result.0 result.1 ≡ entry }
{
    match entry {
        None => (
            Presence::Free,
            Standee {
                version: 0,
                home: 0,
            },
        ),
        Some(entry) => {
            let presence = if entry.told {
                Presence::Told
            } else {
                Presence::Untold
            };
            (
                presence,
                Standee {
                    version: entry.version,
                    home: entry.home,
                },
            )
        }
    }
}

fn few(pair: Pair, room: u32) -> Held
    requires { IsFew pair room }
    ensures { Holds result (in_pair pair) room (top_of pair) }
{
    let (first, first_name) = parted(pair.first);
    let (second, second_name) = parted(pair.second);
    Held::Few {
        first,
        second,
        room,
        first_name,
        second_name,
    }
}

// Entries in place, with so much room: in a list where there is no place for it.
fn with_room(alloc: Global, pair: Pair, room: u32) -> Result<Held, Memory>
    requires { IsRising pair }
    ensures { IfOk result (λ held. Holds held (in_pair pair) room (top_of pair)) }
{
    if room <= IN_PLACE && pair.len() <= IN_PLACE - room {
        return Ok(few(pair, room));
    }
    let list = EntryList::of_pair(alloc, pair, room)?;
    Ok(Held::Many {
        room,
        list: Box::new(alloc, list)?,
    })
}

impl Entries {
    /// One entry at most, and room for one more.
    pub fn of_one(only: Option<StandingEntry>) -> Entries
        ensures items { result.items ≡ list_of only }
        ensures room { result.room ≡ 1 }
        ensures top { (v : ℕ) → AllByRecursion (λ s. s.version ≤ v) (list_of only) → result.top ≤ v }
    {
        let pair = Pair {
            first: only,
            second: None,
        };
        Entries { held: few(pair, 1) }
    }

    /// An entry, a later one at most, and room for one more.
    pub fn of_two(
        alloc: Global,
        older: StandingEntry,
        only: Option<StandingEntry>,
    ) -> Result<Entries, Memory>
        requires { Rise (Some older) only }
        ensures items { IfOk result (λ entries. entries.items ≡ older ∷ list_of only) }
        ensures room { IfOk result (λ entries. entries.room ≡ 1) }
        ensures top { IfOk result (λ entries. entries.top ≡ top_by (Some older) only) }
    {
        let pair = Pair {
            first: Some(older),
            second: only,
        };
        Ok(Entries {
            held: with_room(alloc, pair, 1)?,
        })
    }

    /// The entries of a start, of which none is above `top`, and no room.
    pub fn of(alloc: Global, standees: &[Standee], top: Version) -> Result<Entries, Memory>
        requires { AllByRecursion (λ s. s.version ≤ top) standees.now }
        ensures items { IfOk result (λ entries. entries.items ≡ by_version standees.now) }
        ensures room { IfOk result (λ entries. entries.room ≡ 0) }
        ensures top { IfOk result (λ entries. entries.top ≤ top) }
    {
        if let Some(pair) = Pair::of(standees) {
            return Ok(Entries { held: few(pair, 0) });
        }
        let list = EntryList::of(alloc, standees, top)?;
        Ok(Entries {
            held: Held::Many {
                room: 0,
                list: Box::new(alloc, list)?,
            },
        })
    }

    /// Makes room for one more.
    pub fn reserve(&mut self, alloc: Global) -> Result<(), Memory>
        ensures ok { OnOk result (self.new.room ≡ self.old.room + 1) }
        ensures err { OnErr result (self.new.room ≡ self.old.room) }
        ensures items { self.new.items ≡ self.old.items }
        ensures top { self.new.top ≡ self.old.top }
    {
        match &mut self.held {
            Held::Few {
                first,
                second,
                room,
                first_name,
                second_name,
            } => {
                let pair = pair_in(*first, *second, *first_name, *second_name);
                let more = room.checked_add(1).ok_or(Memory)?;
                self.held = with_room(alloc, pair, more)?;
                Ok(())
            }
            Held::Many { room, list } => {
                let more = room.checked_add(1).ok_or(Memory)?;
                list.reserve(u64::from(more))?;
                *room = more;
                Ok(())
            }
        }
    }

    /// Gives back the room for one.
    pub fn give_back(&mut self)
        requires { 0 < self.old.room }
        ensures items { self.new.items ≡ self.old.items }
        ensures top { self.new.top ≡ self.old.top }
        ensures room { self.new.room ≡ self.old.room - 1 }
    {
        match &mut self.held {
            Held::Few { room, .. } => *room -= 1,
            Held::Many { room, .. } => *room -= 1,
        }
    }

    /// For how many more there is room.
    pub fn room(&self) -> u32
        ensures { result ≡ self.now.room }
    {
        match &self.held {
            Held::Few { room, .. } => *room,
            Held::Many { room, .. } => *room,
        }
    }

    /// How many stand.
    pub fn len(&self) -> u64
        ensures { result ≡ length self.now.items }
    {
        match &self.held {
            Held::Few {
                first,
                second,
                first_name,
                second_name,
                ..
            } => u64::from(pair_in(*first, *second, *first_name, *second_name).len()),
            Held::Many { list, .. } => list.len(),
        }
    }

    /// The entry of a version, where it stands.
    pub fn find(&self, version: Version) -> Option<StandingEntry>
        ensures { result ≡ standing_at self.now.items version }
    {
        match &self.held {
            Held::Few {
                first,
                second,
                first_name,
                second_name,
                ..
            } => pair_in(*first, *second, *first_name, *second_name).find(version),
            Held::Many { list, .. } => list.find(version),
        }
    }

    /// Whether no other version stands.
    pub fn stands_alone(&self, version: Version) -> bool
        ensures { result ≡ stands_alone self.now.items version }
    {
        match &self.held {
            Held::Few {
                first,
                second,
                first_name,
                second_name,
                ..
            } => pair_in(*first, *second, *first_name, *second_name).stands_alone(version),
            Held::Many { list, .. } => list.stands_alone(version),
        }
    }

    /// Adds an entry of a later version, for which there is room.
    pub fn push(&mut self, version: Version, home: u32)
        requires later { self.old.top < version }
        requires room { 0 < self.old.room }
        ensures items { self.new.items ≡ self.old.items ++ standing_with version home false ∷ [] }
        ensures top { self.new.top ≡ version }
        ensures room { self.new.room ≡ self.old.room - 1 }
    {
        match &mut self.held {
            Held::Few {
                first,
                second,
                room,
                first_name,
                second_name,
            } => {
                let pair = pair_in(*first, *second, *first_name, *second_name);
                let less = *room - 1;
                self.held = few(pair.with(version, home), less);
            }
            Held::Many { room, list } => {
                list.push(version, home);
                *room -= 1;
            }
        }
    }

    /// Notes that the death of a version was told.
    pub fn tell(&mut self, version: Version)
        ensures items { self.new.items ≡ with_told self.old.items version }
        ensures top { self.new.top ≡ self.old.top }
        ensures room { self.new.room ≡ self.old.room }
    {
        match &mut self.held {
            Held::Few {
                first,
                second,
                room,
                first_name,
                second_name,
            } => {
                let pair = pair_in(*first, *second, *first_name, *second_name);
                let room = *room;
                self.held = few(pair.told(version), room);
            }
            Held::Many { list, .. } => list.tell(version),
        }
    }

    /// Takes a version out.
    pub fn take_out(&mut self, version: Version)
        ensures items { self.new.items ≡ others version self.old.items }
        ensures top { self.new.top ≤ self.old.top }
        ensures room { self.new.room ≡ self.old.room }
    {
        match &mut self.held {
            Held::Few {
                first,
                second,
                room,
                first_name,
                second_name,
            } => {
                let pair = pair_in(*first, *second, *first_name, *second_name);
                let room = *room;
                self.held = few(pair.without(version), room);
            }
            Held::Many { list, .. } => list.take_out(version),
        }
    }

    /// Takes all out.
    pub fn clear(&mut self)
        ensures items { self.new.items ≡ [] }
        ensures top { self.new.top ≡ 0 }
        ensures room { self.new.room ≡ self.old.room }
    {
        match &mut self.held {
            Held::Few { room, .. } => {
                let room = *room;
                self.held = few(Pair::empty(), room);
            }
            Held::Many { list, .. } => list.clear(),
        }
    }

    /// The entries in place, and the places of the list.
    pub fn parts(&self) -> (Pair, &[Marked])
        ensures { self.now.items ≡ in_pair result.0 ++ kept result.1.now }
    {
        match &self.held {
            Held::Few {
                first,
                second,
                first_name,
                second_name,
                ..
            } => (pair_in(*first, *second, *first_name, *second_name), &[]),
            Held::Many { list, .. } => (Pair::empty(), list.marks()),
        }
    }
}
