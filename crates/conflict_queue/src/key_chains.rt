// The table of the keys' chains.
ghost use Rattle.std.specs.Prelude.{◌≡◌, ◌<◌, ◌≤◌, length, slice_index_or, vec_len, vec_capacity, None};
ghost use Rattle.conflict_queue.specs.Chains.{IsTable, all_held, held_at, none, IsPlace, Extends, Shortens};

use crate::nodes::{Node, exchange, link};
use crate::types::Held;
use fs_model::Key;

/// The chain of a key with waiting requests: the numbers of its first and its last place.
#[derive(Clone, Copy)]
pub struct Chain {
    /// The key that its requests wait for.
    pub key: Key,
    /// That of the request that has waited longest.
    pub first: u32,
    /// The same as `first` where one waits.
    pub last: u32,
}

/// Where the key's chain stands in the table; its length where the key has none.
pub fn place_of(chains: &[Chain], key: Key) -> usize
    ensures { IsPlace chains.now key result }
{
    for (i, chain) in chains.iter().enumerate() {
        if chain.key == key {
            return i;
        }
    }
    chains.len()
}

/// Makes a free place the last of its key's chain.
pub fn add_last(nodes: &mut Vec<Node>, chains: &mut Vec<Chain>, node: u32, held: Held)
    requires table { IsTable nodes.old.items chains.old.items }
    requires node { node < vec_len nodes.old }
    requires free { held_at nodes.old.items node ≡ None }
    requires room { vec_len chains.old < vec_capacity chains.old }
    requires below { length (all_held nodes.old.items chains.old.items) < length nodes.old.items }
    ensures extends { Extends nodes.old.items chains.old.items nodes.new.items chains.new.items node
        held }
    ensures capacity { vec_capacity chains.old ≤ vec_capacity chains.new }
{
    let key = held.request.key();
    let place = place_of(chains, key);
    let new = Node {
        held: Some(held),
        next: None,
    };
    if place < chains.len() {
        link(nodes, chains[place].last, node);
        chains[place].last = node;
    } else {
        let chain = Chain {
            key,
            first: node,
            last: node,
        };
        chains.push(chain).unwrap();
    }
    let _ = exchange(nodes, node, new);
}

/// Takes what the first place of a chain holds, and puts that place before the free ones.
pub fn take_first(
    nodes: &mut Vec<Node>,
    chains: &mut Vec<Chain>,
    place: usize,
    free: Option<u32>,
) -> Held
    requires table { IsTable nodes.old.items chains.old.items }
    requires place { place < vec_len chains.old }
    ensures shortens { Shortens nodes.old.items chains.old.items nodes.new.items chains.new.items
        free (slice_index_or chains.old.items place none) result }
    ensures capacity { vec_capacity chains.old ≤ vec_capacity chains.new }
{
    let first = chains[place].first;
    let node = Node {
        held: None,
        next: free,
    };
    let old = exchange(nodes, first, node);
    match old.next {
        Some(next) => chains[place].first = next,
        None => {
            let _ = chains.remove(place);
        }
    }
    old.held.unwrap()
}
