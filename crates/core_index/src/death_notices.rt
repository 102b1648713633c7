// The names of dead entries that their homes are still to be told.
ghost use Rattle.std.specs.Prelude.{◌≡◌, ◌≢◌, ◌⊎◌, ℕ, ◌+◌, ◌<◌, ◌≤◌, length, slice_index_or, slice_set, vec_len, OnOk, OnErr, IfOk, IfSome, IfNone, Option, Some, None};
ghost use Rattle.std.specs.List.{AllByRecursion};
ghost use Rattle.log_entry.specs.declared.entry.EntryName.{EntryName};
ghost use Rattle.core_index.specs.Noted.{Noted, node_with, bare, chain_of, is_for, IsFor, LacksHome, AreChains, Grows};

use fs_model::Memory;
use log_entry::EntryName;
use std::alloc::Global;
use std::marker::Model;

// As many chains as a group has members, so that each member of a group has one of its own.
const CHAINS: u32 = 8;

// The chain of the places that are free, behind the others.
const FREE: usize = 8;

// The greatest number of places, so that four bytes tell one.
const MOST: usize = 4_294_967_295;

/// A place for a name, linked to the next one of its chain. The name is for `home`; a free place has none.
#[derive(Clone, Copy)]
pub struct NoticeNode {
    /// What it says in a free place means nothing.
    pub name: EntryName,
    /// The number of a core in the region.
    pub home: Option<u32>,
    /// The number of a place; none at the chain's end.
    pub next: Option<u32>,
}

/// Names for homes, in places that are linked in chains by home. `used` counts the places with a name, and there is
/// room for `spare` more names. Only `open` and `reserve` take memory.
#[derive(Drop)]
pub struct DeathNotices {
    nodes: Vec<NoticeNode>,
    heads: Vec<Option<u32>>,
    used: u64,
    spare: u64,
}

impl Model for DeathNotices {
    ghost use Rattle.core_index.specs.Noted.{Book, IsBook};

    ghost Value = { Book };

    ghost view = { λ a. record { nodes = a.nodes.items; used = a.used; spare = a.spare } };

    ghost invariant = { λ a. IsBook a.nodes.items a.heads.items a.used a.spare };
}

// The chain of a home's names, or that of the free places.
fn chain_of(home: Option<u32>) -> usize
    ensures { result ≡ chain_of home }
{
    match home {
        None => FREE,
        Some(home) => (home % CHAINS) as usize,
    }
}

fn is_for(node: &NoticeNode, home: u32) -> bool
    ensures { result ≡ is_for home node.now.home }
{
    match node.home {
        None => false,
        Some(other) => other == home,
    }
}

// A place with a name for this home. The first of its chain has one, where no two homes share a chain.
fn place_for(nodes: &[NoticeNode], first: u32, home: u32) -> Option<usize>
    requires { first < length nodes.now }
    ensures found { IfSome result (IsFor nodes.now home) }
    ensures none { IfNone result (LacksHome home nodes.now) }
{
    let first = first as usize;
    if is_for(&nodes[first], home) {
        return Some(first);
    }
    any_for(nodes, home)
}

fn any_for(nodes: &[NoticeNode], home: u32) -> Option<usize>
    ensures found { IfSome result (IsFor nodes.now home) }
    ensures none { IfNone result (LacksHome home nodes.now) }
{
    for (i, node) in nodes.iter().enumerate() {
        if is_for(node, home) {
            return Some(i);
        }
    }
    None
}

// Gives the first place of a chain another name and home, and makes it the first one of the chain of that home.
fn move_first(
    nodes: &mut Vec<NoticeNode>,
    heads: &mut Vec<Option<u32>>,
    from: usize,
    first: u32,
    name: EntryName,
    home: Option<u32>,
)
    requires chains { AreChains nodes.old.items heads.old.items }
    requires from { from < 9 }
    requires other { chain_of home ≢ from }
    requires first { (d : Option ℕ) → slice_index_or heads.old.items from d ≡ Some first }
    ensures chains { AreChains nodes.new.items heads.new.items }
    ensures nodes { (d : Option ℕ) → nodes.new.items
        ≡ slice_set nodes.old.items first (node_with name home
        (slice_index_or heads.old.items (chain_of home) d)) }
{
    let to = chain_of(home);
    let next = nodes[first as usize].next;
    nodes[first as usize] = NoticeNode {
        name,
        home,
        next: heads[to],
    };
    heads[from] = next;
    heads[to] = Some(first);
}

// Writes the name of the first place of a chain over that of another place of it.
fn write_over(nodes: &mut Vec<NoticeNode>, place: usize, first: u32) -> EntryName
    requires place { place < vec_len nodes.old }
    requires first { first < vec_len nodes.old }
    ensures name { result ≡ (slice_index_or nodes.old.items place bare).name }
    ensures nodes { nodes.new.items ≡ slice_set nodes.old.items place
        (node_with (slice_index_or nodes.old.items first bare).name
        (slice_index_or nodes.old.items first bare).home
        (slice_index_or nodes.old.items place bare).next) }
{
    let NoticeNode { name, home, .. } = nodes[first as usize];
    let over = nodes[place];
    nodes[place] = NoticeNode {
        name,
        home,
        next: over.next,
    };
    over.name
}

// Adds a free place.
fn grow(nodes: &mut Vec<NoticeNode>, heads: &mut Vec<Option<u32>>) -> Result<(), Memory>
    requires { AreChains nodes.old.items heads.old.items }
    ensures chains { AreChains nodes.new.items heads.new.items }
    ensures grows { Grows nodes.old.items nodes.new.items }
    ensures ok { OnOk result (length nodes.new.items ≡ length nodes.old.items + 1) }
    ensures err { OnErr result (nodes.new.items ≡ nodes.old.items) }
{
    if nodes.len() >= MOST {
        return Err(Memory);
    }
    let at = nodes.len() as u32;
    nodes.push(NoticeNode {
        name: EntryName { key: 0, version: 0 },
        home: None,
        next: heads[FREE],
    })?;
    heads[FREE] = Some(at);
    Ok(())
}

// Adds so many free places.
fn grow_by(
    nodes: &mut Vec<NoticeNode>,
    heads: &mut Vec<Option<u32>>,
    more: u64,
) -> Result<(), Memory>
    requires { AreChains nodes.old.items heads.old.items }
    ensures chains { AreChains nodes.new.items heads.new.items }
    ensures grows { Grows nodes.old.items nodes.new.items }
    ensures ok { OnOk result (length nodes.new.items ≡ length nodes.old.items + more) }
{
    for _ in 0..more {
        grow(nodes, heads)?;
    }
    Ok(())
}

fn no_heads(alloc: Global) -> Result<Vec<Option<u32>>, Memory>
    ensures { IfOk result (λ heads. (length heads.items ≡ 9)
        × AllByRecursion (λ h. h ≡ None) heads.items) }
{
    let mut heads = Vec::with_capacity(alloc, FREE + 1)?;
    for _ in 0..FREE + 1 {
        heads.push(None)?;
    }
    Ok(heads)
}

impl DeathNotices {
    /// No names, and no room.
    pub fn open(alloc: Global) -> Result<DeathNotices, Memory>
        ensures { IfOk result (λ notices. notices.spare ≡ 0) }
    {
        Ok(DeathNotices {
            nodes: Vec::new(alloc),
            heads: no_heads(alloc)?,
            used: 0,
            spare: 0,
        })
    }

    /// Makes room for so many more names. Places that are free already are used first.
    pub fn reserve(&mut self, more: u64) -> Result<(), Memory>
        ensures kept { (h : ℕ) (n : EntryName) → Noted self.old h n → Noted self.new h n }
        ensures ok { OnOk result (self.new.spare ≡ self.old.spare + more) }
        ensures err { OnErr result (self.new.spare ≡ self.old.spare) }
    {
        let spare = self.spare.checked_add(more).ok_or(Memory)?;
        let free = self.nodes.len() as u64 - self.used;
        grow_by(&mut self.nodes, &mut self.heads, spare.saturating_sub(free))?;
        self.spare = spare;
        Ok(())
    }

    /// Gives back the room for so many names.
    pub fn give_back(&mut self, less: u64)
        requires { less ≤ self.old.spare }
        ensures kept { (h : ℕ) (n : EntryName) → Noted self.old h n → Noted self.new h n }
        ensures spare { self.new.spare + less ≡ self.old.spare }
    {
        self.spare -= less;
    }

    /// Notes a name for a home.
    pub fn push(&mut self, home: u32, name: EntryName)
        requires { 0 < self.old.spare }
        ensures added { Noted self.new home name }
        ensures kept { (h : ℕ) (n : EntryName) → Noted self.old h n → Noted self.new h n }
        ensures spare { self.new.spare + 1 ≡ self.old.spare }
    {
        let first = self.heads[FREE].unwrap();
        move_first(
            &mut self.nodes,
            &mut self.heads,
            FREE,
            first,
            name,
            Some(home),
        );
        self.used += 1;
        self.spare -= 1;
    }

    /// Takes out a name that is noted for a home; none exactly where none is.
    pub fn take(&mut self, home: u32) -> Option<EntryName>
        ensures none { IfNone result ((name : EntryName) → ¬ Noted self.old home name) }
        ensures unchanged { IfNone result (self.new ≡ self.old) }
        ensures others { IfSome result (λ name. (h : ℕ) (n : EntryName) → Noted self.old h n
            → ((h ≡ home) × (n ≡ name)) ⊎ Noted self.new h n) }
        ensures less { IfSome result (λ name. self.old.used ≡ self.new.used + 1) }
        ensures spare { self.new.spare ≡ self.old.spare }
    {
        let chain = chain_of(Some(home));
        let Some(first) = self.heads[chain] else {
            return None;
        };
        let Some(place) = place_for(&self.nodes, first, home) else {
            return None;
        };
        let name = write_over(&mut self.nodes, place, first);
        move_first(&mut self.nodes, &mut self.heads, chain, first, name, None);
        self.used -= 1;
        Some(name)
    }
}
