// The slots that a seat has out, of which it can reach the one that it took last.
ghost use Rattle.std.specs.Prelude.{◌≡◌, ℕ, List, ◌∷◌, ◌<◌, true};
ghost use Rattle.std.specs.VecDeque.{deque_len, deque_capacity};
ghost use Rattle.atomic_board.specs.SlotsOut.{has, numbers, distinct, all_empty};

use crate::rule::CoreView;
use std::collections::VecDeque;

/// Turns the seat until the slot is the one that it took last.
pub fn bring(seat: &mut CoreView, held: &mut VecDeque<usize>, slot: usize)
    requires { (numbers seat.old.me.1 ≡ held.old.items) × (has slot held.old.items ≡ true) }
    ensures seat { (seat.new.table_id ≡ seat.old.table_id) × (seat.new.id ≡ seat.old.id)
        × (seat.new.me.0 ≡ seat.old.me.0) }
    ensures numbers { numbers seat.new.me.1 ≡ held.new.items }
    ensures empty { all_empty seat.new.me.1 ≡ all_empty seat.old.me.1 }
    ensures first { (others : List ℕ) × (held.new.items ≡ slot ∷ others) }
    ensures room { deque_capacity held.new ≡ deque_capacity held.old }
    ensures same { (k : ℕ) → has k held.new.items ≡ has k held.old.items }
    ensures distinct { distinct held.new.items ≡ distinct held.old.items }
{
    while held[0] != slot {
        held.rotate_left(1);
        seat.turn();
    }
}
