// The board that threads share: it is opened, its seats are handed out, and it is closed.
ghost use Rattle.std.specs.Prelude.{◌≡◌, ℕ, ◌+◌, ◌/◌, ◌<◌, ◌≤◌, true, length, [], IfOk, vec_capacity};
ghost use Rattle.std.specs.VecDeque.{deque_len, deque_capacity};
ghost use Rattle.std.specs.Mem.Slots.{slots_items, slots_len, IsFull};
ghost use Rattle.chunk_map.specs.Layouts.{layout_of};
ghost use Rattle.store_image.specs.Soundness as images;
ghost use Rattle.group_laws.specs.OpeningImages.{opened};
ghost use Rattle.group_laws.specs.MemberViews.{view_of};
ghost use Rattle.group_board.specs.Journals.{image_of, place_in};
ghost use Rattle.atomic_table.specs.Table.{Allows, step};
ghost use mathlib.Core.Option.{none};
ghost use Rattle.atomic_board.specs.declared.seat_data.SeatData.TheVariants.{Store, Spent};
ghost use Rattle.atomic_board.specs.TableWords.{word_count};
ghost use Rattle.atomic_board.specs.Deeds.{began, size, place_of};
ghost use Rattle.atomic_board.specs.ShownState.{ShowsLawful};
ghost use Rattle.atomic_board.specs.StepTells.{origin_in, is_store, left, right, joined, tells_return};
ghost use Rattle.atomic_board.specs.MemberSeats.{origin_at, view_at, done_at, seat_of};
ghost use Rattle.atomic_board.specs.Tokens.{AreTokens, AreFresh, AreIdle, AreEmptyHands, HasFrom, Ended};
ghost use Rattle.atomic_board.specs.GroupTables.{id_of, origin_of, group_place};

use crate::group_table::GroupTable;
use crate::member_seat::{Common, MemberSeat};
use crate::origins::origin_seat;
use crate::parcel::Parcel;
use crate::rule::{CoreView, OpenedOn, Returns, Settles};
use crate::seat_data::SeatData;
use crate::seat_leading::pool_place_of;
use crate::table_words::MOST_SLOTS;
use crate::token::{CoreSeat, SeatToken};
use atomic_table::{Closed, Join, Perch, Split, Table};
use chunk_map::layout_sizes::MOST_GROUP;
use fs_model::Memory;
use group_board::Opening;
use group_laws::group_sizes::{LOCK_WORDS, SLOTS};
use std::alloc::Global;
use std::collections::VecDeque;
use std::marker::Brand;

/// How a member's seat is split from the store.
pub struct SplitsOff;

impl Split<SeatData> for SplitsOff {
    ghost left = { left };

    ghost right = { right };
}

/// How a member's seat is joined with the store.
pub struct JoinsBack;

impl Join<SeatData> for JoinsBack {
    ghost both = { joined };

    ghost spent = { Spent };
}

/// Splits the next member's seat from the store, and takes that member's slots out.
fn split_next(
    shared: &Common,
    spare: &mut CoreView,
    member: u32,
    members: u32,
    mut held: VecDeque<usize>,
) -> MemberSeat
    requires table { (spare.old.table_id ≡ shared.now.table_id)
        × (shared.now.table_id.words ≡ word_count members) × (size shared.now.key.me.0 ≡ members) }
    requires member { (member < members) × (members ≤ MOST_GROUP) }
    requires spare { spare.old.me ≡ (Store member shared.now.key.me.0 [], []) }
    requires held { (held.items ≡ []) × (MOST_SLOTS ≤ deque_capacity held) }
    ensures spare { (spare.new.table_id ≡ spare.old.table_id)
        × (spare.new.me ≡ (Store (member + 1) shared.now.key.me.0 [], [])) }
    ensures token { (result.seat.table_id ≡ shared.now.table_id) × (result.member ≡ member)
        × (result.members ≡ members) × (origin_at result ≡ shared.now.key.me.0) }
    ensures view { view_at result ≡ view_of (began shared.now.key.me.0) member }
    ensures idle { done_at result ≡ [] }
{
    let mut seat = shared.split_seat::<SplitsOff>(spare);
    shared.load::<Settles>(&mut seat, LOCK_WORDS as usize + member as usize);
    for slot in 0..SLOTS {
        held.push_front_reserved(pool_place_of(member, slot));
    }
    MemberSeat {
        seat,
        member,
        members,
        held,
    }
}

/// Splits a seat for each member from the first one, which then rides in the last member's token.
fn split_all(
    shared: &Common,
    mut first: CoreView,
    members: u32,
    mut hands: Vec<VecDeque<usize>>,
    mut tokens: Vec<SeatToken>,
) -> Vec<SeatToken>
    requires table { (first.table_id ≡ shared.now.table_id)
        × (shared.now.table_id.words ≡ word_count members) × (size shared.now.key.me.0 ≡ members) }
    requires members { (0 < members) × (members ≤ MOST_GROUP) }
    requires first { first.me ≡ (Store 0 shared.now.key.me.0 [], []) }
    requires hands { (length hands.items ≡ members) × AreEmptyHands hands.items }
    requires room { (tokens.items ≡ []) × (members ≤ vec_capacity tokens) }
    ensures count { length result.items ≡ members }
    ensures tokens { AreTokens shared.now.table_id (place_of shared.now.key.me.0) result.items }
    ensures fresh { AreFresh shared.now.key.me.0 result.items }
    ensures idle { AreIdle result.items }
{
    for member in 0..members - 1 {
        let Some(held) = hands.pop() else {
            unreachable!()
        };
        let own = split_next(shared, &mut first, member, members, held);
        tokens.push_reserved(SeatToken { own, spare: None });
    }
    let Some(held) = hands.pop() else {
        unreachable!()
    };
    let own = split_next(shared, &mut first, members - 1, members, held);
    tokens.push_reserved(SeatToken {
        own,
        spare: Some(first),
    });
    tokens
}

/// Room for the slots that a seat has out, for each member.
fn empty_hands(alloc: Global, members: u32) -> Result<Vec<VecDeque<usize>>, Memory>
    ensures { IfOk result (λ hs. (length hs.items ≡ members) × AreEmptyHands hs.items) }
{
    let mut hands = Vec::with_capacity(alloc, members as usize)?;
    for _ in 0..members {
        hands.push_reserved(VecDeque::with_capacity(alloc, MOST_SLOTS)?);
    }
    Ok(hands)
}

// The load by which a seat gives its slots back. The proof of the call picks what the table's group opened on.
fn gives_back<W: OpenedOn>(shared: &Common, seat: &mut CoreView, word: usize)
    requires { (seat.old.table_id ≡ shared.now.table_id) × (word < shared.now.table_id.words)
        × Allows (ShowsLawful shared.now.key.me.0) shared.now.table_id.slots seat.old.id
        seat.old.me word (λ n. n)
        (tells_return W.origin (step shared.now.table_id.slots word 0 0 none) seat.old.me) }
    ensures { (seat.new.table_id ≡ seat.old.table_id) × (seat.new.me ≡ (seat.old.me.0, []))
        × (origin_in seat.old.me.0 ≡ W.origin) }
{
    shared.load::<Returns<W>>(seat, word);
}

/// Gives a member's slots back, by one load, and joins its seat with the spare one.
fn join_one(shared: &Common, spare: &mut CoreView, own: MemberSeat)
    requires table { (spare.old.table_id ≡ shared.now.table_id)
        × (own.seat.table_id ≡ shared.now.table_id) }
    requires spare { (length spare.old.me.1 ≡ 0) × (is_store spare.old.me.0 ≡ true) }
    ensures spare { (spare.new.table_id ≡ spare.old.table_id)
        × (spare.new.me ≡ (joined spare.old.me.0 own.seat.me.0, [])) }
    ensures origin { origin_at own ≡ shared.now.key.me.0 }
{
    let MemberSeat {
        mut seat,
        member,
        members: _,
        held: _,
    } = own;
    gives_back::<Brand>(shared, &mut seat, LOCK_WORDS as usize + member as usize);
    shared.join_seat::<JoinsBack>(spare, seat);
}

/// The last member's seat, and the spare one that rides in its token.
fn apart(token: SeatToken) -> (MemberSeat, CoreView)
    requires { token.own.member + 1 ≡ token.own.members }
    ensures own { result.0 ≡ token.own }
    ensures spare { (result.1.table_id ≡ token.own.seat.table_id) × (length result.1.me.1 ≡ 0)
        × (is_store result.1.me.0 ≡ true) }
{
    let SeatToken { own, spare } = token;
    let Some(spare) = spare else { unreachable!() };
    (own, spare)
}

/// Joins the members' seats with the spare one, and gives that.
fn join_all(shared: &Common, mut tokens: Vec<SeatToken>) -> CoreView
    requires count { (0 < length tokens.items) × (length tokens.items ≡ size shared.now.key.me.0) }
    requires tokens { AreTokens shared.now.table_id (place_of shared.now.key.me.0) tokens.items }
    ensures table { result.table_id ≡ shared.now.table_id }
    ensures has { HasFrom shared.now.key.me.0 tokens.items 0 result.me.0 }
{
    let Some(last) = tokens.pop() else {
        unreachable!()
    };
    let (own, mut spare) = apart(last);
    join_one(shared, &mut spare, own);
    while let Some(token) = tokens.pop() {
        let SeatToken { own, spare: _ } = token;
        join_one(shared, &mut spare, own);
    }
    spare
}

/// The words of a table that no thread shares any more. What lies in its slots is dropped.
fn words_of(mut closed: Closed<Option<Parcel>, Global>, mut report: Vec<u64>) -> Vec<u64>
    requires full { IsFull closed.words × IsFull closed.slots }
    requires room { (report.items ≡ []) × (slots_len closed.words ≤ vec_capacity report) }
    ensures { result.items ≡ slots_items closed.words }
{
    let count = closed.words.len();
    for i in 0..count {
        report.push_reserved(closed.word(i));
    }
    let mut i = 0;
    while i < closed.slot_count() {
        drop(closed.take(i));
        i += 1;
    }
    closed.free();
    report
}

impl GroupTable {
    /// Opens the board of a group on what the words of a sound image say: nobody has the lock, no slot offers a
    /// change, and no mailbox is full.
    pub fn open<O: Opening>(alloc: Global, members: u32) -> Result<GroupTable, Memory>
        requires sound { images.IsSound O.bytes (image_of O.words) }
        requires group { O.group < (layout_of (image_of O.words)).cores /
            (layout_of (image_of O.words)).group }
        requires members { (layout_of (image_of O.words)).group ≡ members }
        ensures members { IfOk result (λ t. t.members ≡ members) }
        ensures opened { IfOk result
            (λ t. began (origin_of t) ≡ opened (place_in O.group O.words) (image_of O.words)) }
    {
        let plan = origin_seat::<O>(alloc)?;
        let count = members as usize;
        let first_mail_word = LOCK_WORDS as usize + (1 + SLOTS as usize) * count;
        let word_count = first_mail_word + count * count;
        let home_count = (SLOTS as usize + MOST_GROUP as usize) * count;
        let words = vec![in alloc; 0; word_count]?;
        let (table, spare) = Table::vacant(alloc, &words, home_count, &plan)?;
        let report = Vec::with_capacity(alloc, word_count)?;
        let rest = Perch::new(&spare, 0);
        if rest.give(spare, 0, 2).is_err() {
            return Err(Memory);
        }
        Ok(GroupTable {
            table,
            rest,
            members,
            report,
        })
    }

    /// A token for each member, by rising number. All memory is taken before the first seat is split, so the table is
    /// as it was where there is none. A table whose seats were handed out answers Memory too.
    pub fn seats(&mut self, alloc: Global) -> Result<Vec<SeatToken>, Memory>
        ensures same { self.new ≡ self.old }
        ensures count { IfOk result (λ ts. length ts.items ≡ self.old.members) }
        ensures tokens { IfOk result
            (λ ts. AreTokens (id_of self.old) (group_place self.old) ts.items) }
        ensures fresh { IfOk result (λ ts. AreFresh (origin_of self.old) ts.items) }
        ensures idle { IfOk result (λ ts. AreIdle ts.items) }
    {
        let members = self.members;
        let hands = empty_hands(alloc, members)?;
        let tokens = Vec::with_capacity(alloc, members as usize)?;
        let (_, Some(first)) = self.rest.take(0) else {
            return Err(Memory);
        };
        Ok(split_all(&self.table.shared, first, members, hands, tokens))
    }

    /// Joins a token of this table with it. No step is made.
    pub fn attend(&self, token: SeatToken) -> CoreSeat<'_>
        requires { (seat_of token.own).table ≡ id_of self.now }
        ensures { result.own ≡ token.own }
    {
        let SeatToken { own, spare } = token;
        CoreSeat {
            shared: &self.table.shared,
            own,
            spare,
        }
    }

    /// Joins the seats, whose tokens stand by rising member, and gives the table's words.
    pub fn close(self, tokens: Vec<SeatToken>) -> Vec<u64>
        requires count { length tokens.items ≡ self.members }
        requires tokens { AreTokens (id_of self) (group_place self) tokens.items }
        ensures { Ended (origin_of self) tokens.items result.items }
    {
        let GroupTable {
            table,
            rest: _,
            members: _,
            report,
        } = self;
        let seat = join_all(&table.shared, tokens);
        words_of(table.close_with(seat), report)
    }
}
