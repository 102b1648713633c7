// A member's seat between its times at the table, and at it.
ghost use Rattle.std.specs.Prelude.{◌≡◌, ◌+◌, true, length, IfSome, is_some};
ghost use Rattle.std.proofs.Props.{props};
ghost use Rattle.atomic_board.specs.StepTells.{is_store};
ghost use Rattle.atomic_board.specs.Identities.{TableId-set, if_some_prop};

use crate::member_seat::{Common, MemberSeat};
use crate::rule::CoreView;

/// A member's seat without its table. It can go to a thread and come back.
#[derive(Drop)]
pub struct SeatToken {
    pub(crate) own: MemberSeat,
    /// The seat that all members' seats were split from. It rides in the last member's token, since a seat can't lie in
    /// a table that threads share.
    pub(crate) spare: Option<CoreView>,
    ghost rides: { own.member + 1 ≡ own.members → is_some spare ≡ true },
    ghost here: { IfSome spare (λ s. s.table_id ≡ own.seat.table_id) } by { if_some_prop _ _
        (λ s. TableId-set _ _) },
    ghost store: { IfSome spare (λ s. (length s.me.1 ≡ 0)
        × (is_store s.me.0 ≡ true)) } by { Prim.hlevel props },
}

/// A member's seat at its table, by which it makes the calls of `Board`.
#[derive(Drop)]
pub struct CoreSeat<'a> {
    pub(crate) shared: &'a Common,
    pub(crate) own: MemberSeat,
    /// As in the token.
    pub(crate) spare: Option<CoreView>,
    ghost of_table: { own.seat.table_id ≡ shared.now.table_id } by { TableId-set _ _ },
    ghost rides: { own.member + 1 ≡ own.members → is_some spare ≡ true },
    ghost here: { IfSome spare (λ s. s.table_id ≡ own.seat.table_id) } by { if_some_prop _ _
        (λ s. TableId-set _ _) },
    ghost store: { IfSome spare (λ s. (length s.me.1 ≡ 0)
        × (is_store s.me.0 ≡ true)) } by { Prim.hlevel props },
}

impl<'a> CoreSeat<'a> {
    /// Gives the token back. No step is made.
    pub fn leave(self) -> SeatToken
        ensures { result.own ≡ self.entry.own }
    {
        let CoreSeat {
            shared: _,
            own,
            spare,
        } = self;
        SeatToken { own, spare }
    }
}
