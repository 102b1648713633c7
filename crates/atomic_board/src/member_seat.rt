// A member's seat at the table: the seat of the base crate, with the slots that it has out.
ghost use Rattle.std.specs.Prelude.{◌≡◌, ◌+◌, ◌*◌, ◌<◌, ◌≤◌, true};
ghost use Rattle.std.specs.VecDeque.{deque_len, deque_capacity};
ghost use Rattle.chunk_map.specs.declared.layout_sizes.TheConstants.{MOST_GROUP};
ghost use Rattle.atomic_board.specs.declared.table_words.TheConstants.{MOST_SLOTS};
ghost use Rattle.atomic_board.specs.TableWords.{word_count};
ghost use Rattle.atomic_board.specs.Deeds.{place_of, size};
ghost use Rattle.atomic_board.specs.StepTells.{view_in, is_own, is_settled, is_handless, number_in, origin_in};
ghost use Rattle.atomic_board.specs.SlotsOut.{numbers, all_empty, distinct, Holds};

use crate::parcel::Parcel;
use crate::rule::{CoreView, OriginSeat, Ruled};
use crate::seat_data::SeatData;
use atomic_table::Shared;
use std::collections::VecDeque;

/// What all threads share: the words and the slots, under the rule.
pub type Common = Shared<Option<Parcel>, SeatData, OriginSeat, Ruled>;

/// The seat by which one member makes its steps.
#[derive(Drop)]
pub struct MemberSeat {
    pub(crate) seat: CoreView,
    pub(crate) member: u32,
    pub(crate) members: u32,
    /// The slots that the seat has out, in the order in which it reaches them.
    pub(crate) held: VecDeque<usize>,
    ghost few: { (member < members) × (members ≤ MOST_GROUP) },
    ghost wide: { seat.table_id.words ≡ word_count members },
    ghost own: { (is_own seat.me.0 ≡ true) × (number_in seat.me.0 ≡ member)
        × (size (origin_in seat.me.0) ≡ members) × (is_settled seat.me.0 ≡ true)
        × (is_handless seat.me.0 ≡ true) },
    ghost order: { (numbers seat.me.1 ≡ held.items) × (all_empty seat.me.1 ≡ true) },
    ghost room: { (distinct held.items ≡ true) × (MOST_SLOTS ≤ deque_capacity held) },
    ghost holds: { Holds (place_of (origin_in seat.me.0)) member members
        (view_in seat.me.0).pending (view_in seat.me.0).taken held.items },
}
