// The table of a group.
ghost use Rattle.std.specs.Prelude.{◌≡◌, ◌<◌, ◌≤◌, [], vec_capacity};
ghost use Rattle.chunk_map.specs.declared.layout_sizes.TheConstants.{MOST_GROUP};
ghost use Rattle.atomic_board.specs.declared.seat_data.SeatData.TheVariants.{Store};
ghost use Rattle.atomic_board.specs.TableWords.{word_count};
ghost use Rattle.atomic_board.specs.Deeds.{size};
ghost use Rattle.atomic_board.specs.Identities.{TableId-set, SeatData-set};

use crate::parcel::Parcel;
use crate::rule::{OriginSeat, Ruled};
use crate::seat_data::SeatData;
use atomic_table::{Perch, Table};
use std::alloc::Global;

/// The board of a group. Threads share it, and each makes the steps of a member through that member's seat.
#[derive(Drop)]
pub struct GroupTable {
    pub(crate) table: Table<Option<Parcel>, SeatData, OriginSeat, Ruled, Global>,
    /// Where the first seat rests until the members' seats are split from it.
    pub(crate) rest: Perch<Option<Parcel>, SeatData>,
    pub(crate) members: u32,
    /// Room for the words that `close` gives.
    pub(crate) report: Vec<u64>,
    ghost few: { (0 < members) × (members ≤ MOST_GROUP) },
    ghost room: { (report.items ≡ []) × (word_count members ≤ vec_capacity report) },
    ghost wide: { table.shared.table_id.words ≡ word_count members },
    ghost sized: { size table.shared.key.me.0 ≡ members },
    ghost rest_here: { rest.table_id ≡ table.shared.table_id } by { TableId-set _ _ },
    ghost store: { rest.view ≡ Store 0 table.shared.key.me.0 [] } by { SeatData-set _ _ },
}
