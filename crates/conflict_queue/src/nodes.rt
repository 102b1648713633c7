// The places, which are linked by their numbers.
ghost use Rattle.std.specs.Prelude.{◌≡◌, ◌-◌, ◌<◌, length, slice_index_or, vec_len, vec_capacity, slice_set, IfOk, Some, None};
ghost use Rattle.conflict_queue.specs.Chains.{AllFree, bare, node_with};

use crate::types::Held;
use fs_model::Memory;
use std::alloc::Global;
use std::mem::replace;

/// How many requests can wait.
pub const NODES: u32 = 64;

/// A place. `next` is the number of the next place of its chain, or none at the chain's end. A free place
/// holds nothing.
#[derive(Drop)]
pub struct Node {
    /// The request that waits here.
    pub held: Option<Held>,
    /// Below 64.
    pub next: Option<u32>,
}

/// Free places, each linked to the one before.
pub fn free_nodes(alloc: Global) -> Result<Vec<Node>, Memory>
    ensures length { IfOk result (λ nodes. length nodes.items ≡ NODES) }
    ensures free { IfOk result (λ nodes. AllFree nodes.items (Some (NODES - 1))) }
{
    let mut nodes = Vec::with_capacity(alloc, NODES as usize)?;
    let mut next = None;
    for i in 0..NODES {
        nodes.push(Node { held: None, next })?;
        next = Some(i);
    }
    Ok(nodes)
}

/// Puts another node in a place, and gives the one that was there.
pub fn exchange(nodes: &mut Vec<Node>, at: u32, node: Node) -> Node
    requires { at < vec_len nodes.old }
    ensures was { result ≡ slice_index_or nodes.old.items at result }
    ensures items { nodes.new.items ≡ slice_set nodes.old.items at node }
{
    replace(&mut nodes[at as usize], node)
}

/// Links a place to another.
pub fn link(nodes: &mut Vec<Node>, at: u32, next: u32)
    requires { at < vec_len nodes.old }
    ensures items { nodes.new.items ≡ slice_set nodes.old.items at
        (node_with (slice_index_or nodes.old.items at bare).held (Some next)) }
{
    nodes[at as usize].next = Some(next);
}
