// What a group opens on, which no code holds.
ghost use Rattle.std.specs.Prelude.{◌≡◌, IfOk, []};

use crate::rule::OriginSeat;
use crate::seat_data::Origin;
use atomic_table::{Play, Table, TableRule};
use fs_model::Memory;
use group_board::Opening;
use std::alloc::Global;
use std::marker::PhantomData;

/// The rule of a table that asks nothing.
pub struct AsksNothing;

impl TableRule<u8, Origin, ()> for AsksNothing {
    ghost holds = { λ _ _. Unit {0} };

    ghost first = { λ _. record { group = 0; words = [] } };
}

/// The load by which the seat gets what a group opens on as its view.
pub struct Opens<O> {
    marker: PhantomData<O>,
}

impl<O: Opening> Play<u8, Origin> for Opens<O> {
    ghost then = { λ st m r n. n ≡ (record { group = O.group; words = O.words }, m.1) };
}

/// A seat whose view is what the group opens on. Its table has one word and asks nothing.
pub fn origin_seat<O: Opening>(alloc: Global) -> Result<OriginSeat, Memory>
    ensures { IfOk result (λ p. p.me.0 ≡ record { group = O.group; words = O.words }) }
{
    let (free, mut plan) = Table::<u8, Origin, (), AsksNothing, Global>::of_words(
        alloc,
        &[0],
        &(),
    )?;
    free.shared.load::<Opens<O>>(&mut plan, 0);
    Ok(plan)
}
