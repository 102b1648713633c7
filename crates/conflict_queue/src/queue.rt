// The queue: places, the table of the keys' chains, and the chain of free places.
ghost use Rattle.std.specs.Prelude.{◌≡◌, ◌+◌, ◌<◌, ◌≤◌, [], length, OnOk, OnErr, IfOk, IfErr, IfSome, IfNone};
ghost use Rattle.conflict_queue.specs.Waiting.{waiting, held_with, AddsLast, TakesFirst};

use crate::key_chains::{Chain, add_last, place_of, take_first};
use crate::nodes::{NODES, Node, free_nodes};
use crate::types::{Held, NoNode};
use fs_model::{Key, Memory, Request};
use std::alloc::Global;
use std::marker::Model;

/// The requests that wait, at most 64 together, first come first out for each key. Its places are linked by
/// their numbers: those of a key in one chain, and the free ones in another.
#[derive(Drop)]
pub struct ConflictQueue {
    nodes: Vec<Node>,
    chains: Vec<Chain>,
    free: Option<u32>,
    free_nodes: u32,
}

impl Model for ConflictQueue {
    ghost use Rattle.std.specs.Prelude.{List};
    ghost use Rattle.conflict_queue.specs.declared.types.Held.{Held};
    ghost use Rattle.conflict_queue.specs.Chains.{all_held};

    ghost Value = { List Held };

    ghost use Rattle.std.specs.Vec.{vec_capacity};
    ghost use Rattle.conflict_queue.specs.Queue.{IsQueue};

    ghost view = { λ a. all_held a.nodes.items a.chains.items };

    ghost invariant = { λ a. IsQueue a.nodes.items a.chains.items a.free a.free_nodes
        (vec_capacity a.chains) };
}

impl ConflictQueue {
    /// A queue where nothing waits. No later call takes memory.
    pub fn open(alloc: Global) -> Result<ConflictQueue, Memory>
        ensures { IfOk result (λ queue. queue ≡ []) }
    {
        let nodes = free_nodes(alloc)?;
        let chains = Vec::with_capacity(alloc, NODES as usize)?;
        Ok(ConflictQueue {
            nodes,
            chains,
            free: Some(NODES - 1),
            free_nodes: NODES,
        })
    }

    /// How many more requests can wait.
    pub fn free_nodes(&self) -> u32
        ensures { result + length self.now ≡ NODES }
    {
        self.free_nodes
    }

    /// Lets a request wait behind those of its key. `number` is the owner's, and comes back with it. Where
    /// all 64 places are in use the request comes back.
    pub fn hold(&mut self, number: u64, request: Request) -> Result<(), NoNode>
        ensures added { OnOk result (AddsLast self.old self.new (held_with number request)) }
        ensures had_room { OnOk result (length self.old < NODES) }
        ensures full { OnErr result (length self.old ≡ NODES) }
        ensures given_back { IfErr result (λ refused. refused.request ≡ request) }
        ensures unchanged { OnErr result (self.new ≡ self.old) }
    {
        let Some(node) = self.free else {
            return Err(NoNode { request });
        };
        self.free = self.nodes[node as usize].next;
        self.free_nodes -= 1;
        let held = Held { number, request };
        add_last(&mut self.nodes, &mut self.chains, node, held);
        Ok(())
    }

    /// Takes out the first waiting request of a key; none exactly where none waits.
    pub fn release(&mut self, key: Key) -> Option<Held>
        ensures taken { IfSome result (λ held. TakesFirst self.old self.new key held) }
        ensures absent { IfNone result (waiting self.old key ≡ []) }
        ensures unchanged { IfNone result (self.new ≡ self.old) }
    {
        let place = place_of(&self.chains, key);
        if place == self.chains.len() {
            return None;
        }
        let first = self.chains[place].first;
        let held = take_first(&mut self.nodes, &mut self.chains, place, self.free);
        self.free = Some(first);
        self.free_nodes += 1;
        Some(held)
    }
}
