// The rule of the table, and what its steps tell.
ghost use Rattle.std.specs.Prelude.{ℕ, List, []};
ghost use Rattle.log_entry.specs.declared.entry.EntryName.{EntryName};
ghost use Rattle.atomic_board.specs.declared.seat_data.Deed.TheVariants.{Mark, Fail};
ghost use Rattle.atomic_board.specs.declared.seat_data.Origin.{Origin as OriginData};
ghost use Rattle.atomic_board.specs.ShownState.{ShowsLawful};
ghost use Rattle.atomic_board.specs.declared.seat_data.SeatData.TheVariants.{Store};
ghost use Rattle.atomic_board.specs.StepTells.{no_origin, tells_commit, tells_unlock, tells_lock, tells_look, tells_settle, tells_return, tells_take, tells_post, tells_give, tells_finish, tells_withdraw, tells_doom, tells_retire, tells_try_send, tells_send, tells_try_receive, tells_receive};

use crate::parcel::Parcel;
use crate::seat_data::{Origin, SeatData};
use atomic_table::{Play, Seat, TableRule};
use std::marker::{Brand, PhantomData};

/// A seat of a group's table: the first one, or a member's.
pub type CoreView = Seat<Option<Parcel>, SeatData>;

/// The seat of a table that asks nothing. Its view is what the group opens on, and it is the key of the group's table.
pub type OriginSeat = Seat<u8, Origin>;

/// The rule of a group's table: it shows a lawful state that the machine's steps lead to.
pub struct Ruled;

impl TableRule<Option<Parcel>, SeatData, OriginSeat> for Ruled {
    ghost holds = { λ plan. ShowsLawful plan.me.0 };

    ghost first = { λ plan. Store 0 plan.me.0 [] };
}

/// The stamp at which a region stands. The proof of the call picks it.
pub trait RegionStamp {
    ghost at: { ℕ };
}

impl RegionStamp for Brand {
    ghost at = { 0 };
}

/// The step up of the own word's count by which what was in flight is certain.
pub struct Commits<W> {
    marker: PhantomData<W>,
}

impl<W: RegionStamp> Play<Option<Parcel>, SeatData> for Commits<W> {
    ghost then = { tells_commit W.at };
}

/// The store that frees the lock.
pub struct Unlocks;

impl Play<Option<Parcel>, SeatData> for Unlocks {
    ghost then = { tells_unlock };
}

/// The compare-exchange at the lock, which was free or had a holder.
pub struct Locks;

impl Play<Option<Parcel>, SeatData> for Locks {
    ghost then = { tells_lock };
}

/// A load of a pool word.
pub struct Looks;

impl Play<Option<Parcel>, SeatData> for Looks {
    ghost then = { tells_look };
}

/// The load by which a seat takes all its slots out, each Empty.
pub struct Settles;

impl Play<Option<Parcel>, SeatData> for Settles {
    ghost then = { tells_settle };
}

/// What a group opened on. The proof of the call picks it.
pub trait OpenedOn {
    ghost origin: { OriginData };
}

impl OpenedOn for Brand {
    ghost origin = { no_origin };
}

/// A load by which a seat gives all its slots back. It tells what the table's group opened on.
pub struct Returns<W> {
    marker: PhantomData<W>,
}

impl<W: OpenedOn> Play<Option<Parcel>, SeatData> for Returns<W> {
    ghost then = { tells_return W.origin };
}

/// The store of Taken at a pool word that was Posted. The change is in hand then.
pub struct Takes;

impl Play<Option<Parcel>, SeatData> for Takes {
    ghost then = { tells_take };
}

/// The bytes behind a posted entry's pointer. The proof of the call picks them.
pub trait PostedValue {
    ghost value: { List ℕ };

    // The stamp at which the region stands.
    ghost at: { ℕ };
}

impl PostedValue for Brand {
    ghost value = { [] };

    ghost at = { 0 };
}

/// The store of Posted at an own pool word, with the change in its slot.
pub struct Posts<W> {
    marker: PhantomData<W>,
}

impl<W: PostedValue> Play<Option<Parcel>, SeatData> for Posts<W> {
    ghost then = { tells_post W.value W.at };
}

/// The store of Done at a Taken pool word, with the change back in its slot.
pub struct Marks;

impl Play<Option<Parcel>, SeatData> for Marks {
    ghost then = { tells_give Mark };
}

/// The store of Failed at a Taken pool word, with the change back in its slot.
pub struct Fails;

impl Play<Option<Parcel>, SeatData> for Fails {
    ghost then = { tells_give Fail };
}

/// The store of Empty at an own pool word that was Done or Failed. The change is out then.
pub struct Finishes;

impl Play<Option<Parcel>, SeatData> for Finishes {
    ghost then = { tells_finish };
}

/// The store of Empty at an own pool word that was Posted, by the lock's holder.
pub struct Withdraws;

impl Play<Option<Parcel>, SeatData> for Withdraws {
    ghost then = { tells_withdraw };
}

/// The names of a step of cleaning. The proof of the call picks them.
pub trait Named {
    ghost names: { List EntryName };

    // The stamp at which the region stands.
    ghost at: { ℕ };
}

impl Named for Brand {
    ghost names = { [] };

    ghost at = { 0 };
}

/// The step up of the own word's count from which on these names may vanish.
pub struct Dooms<W> {
    marker: PhantomData<W>,
}

impl<W: Named> Play<Option<Parcel>, SeatData> for Dooms<W> {
    ghost then = { tells_doom W.names W.at };
}

/// The step up of the own word's count by which these names have vanished.
pub struct Retires<W> {
    marker: PhantomData<W>,
}

impl<W: Named> Play<Option<Parcel>, SeatData> for Retires<W> {
    ghost then = { tells_retire W.names W.at };
}

/// A load of the word of a mailbox from this member. Where it is empty, its slot is in hand then.
pub struct TrySends;

impl Play<Option<Parcel>, SeatData> for TrySends {
    ghost then = { tells_try_send };
}

/// The store of full there, with the notices in the slot.
pub struct Sends;

impl Play<Option<Parcel>, SeatData> for Sends {
    ghost then = { tells_send };
}

/// A load of the word of a mailbox to this member. Where it is full, the notices are in hand then.
pub struct TryReceives;

impl Play<Option<Parcel>, SeatData> for TryReceives {
    ghost then = { tells_try_receive };
}

/// The store of empty there, with the slot back.
pub struct Receives;

impl Play<Option<Parcel>, SeatData> for Receives {
    ghost then = { tells_receive };
}
