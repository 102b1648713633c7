// A board that serves one thread: the lock, the slots and the mailboxes as plain data, and the journal of all steps.
ghost use Rattle.std.specs.Prelude.{◌≡◌, ◌≢◌, ℕ, ◌∷◌, ◌+◌, ◌*◌, ◌/◌, ◌<◌, ◌≤◌, length, Option, None, Some, IfErr, IfOk, IfSome, is_err, true, false, option_map, get_or, MatchOption, MatchResult};
ghost use Rattle.log_entry.specs.Spelling.{words_of, HasSpelling};
ghost use Rattle.chunk_map.specs.declared.layout_sizes.TheConstants.{MOST_GROUP};
ghost use Rattle.chunk_map.specs.Layouts.{layout_of};
ghost use Rattle.store_image.specs.Facts.{In};
ghost use Rattle.store_image.specs.Soundness as images;
ghost use Rattle.group_laws.specs.Places as places;
ghost use Rattle.group_laws.specs.State.{word_shown, is_full};
ghost use Rattle.group_laws.specs.Steps.{finds, sends, receives, CanSend, CanReceive};
ghost use Rattle.group_laws.specs.Tidying.{Tidied};
ghost use Rattle.group_laws.specs.Invariant.{Lawful};
ghost use Rattle.group_laws.specs.Runs.{IsStep};
ghost use Rattle.group_laws.specs.Runs as runs;
ghost use Rattle.group_laws.specs.OpeningImages.{opened};
ghost use Rattle.group_laws.specs.declared.types.Slot.TheVariants as slot_states;
ghost use Rattle.group_laws.specs.declared.types.SlotWord.{SlotWord};
ghost use Rattle.group_laws.specs.declared.types.SlotWord.TheVariants as words;
ghost use Rattle.group_laws.specs.declared.types.Seen.TheVariants as loads;
ghost use Rattle.group_board.specs.Mailing.{notices_of};
ghost use Rattle.group_board.specs.Trails.{step_with};
ghost use Rattle.group_board.specs.declared.slots.TheConstants.{ROW_LENGTH};
ghost use Rattle.group_board.specs.Journals.{image_of, place_in, state, trail_in, at_in};
ghost use Rattle.group_board.specs.Kept.{IsKept, TableId-set};
ghost use Rattle.group_laws.specs.MemberViews.{view_of};
ghost use Rattle.group_board.specs.Views.{after_post, after_lock, after_find, after_take, after_unlock, after_commit, after_mark, after_fail, after_finish, after_give_up, after_withdraw, after_doom, after_retire, after_send, after_receive, TidiedIn};
ghost use Rattle.group_board.specs.Conditions.{MayPost, MayLock, MayLook, MayTake, MayUnlock, MayCommit, MayMark, MayFail, MayFinish, MayWithdraw, MayDoom, MayRetire, MaySend, MayReceive};
ghost use Rattle.group_board.specs.Assurances.{IsHome, IsHeard, IsUnlogged};
ghost use Rattle.group_board.specs.Told.{AreSteps, Leads, state_of, stood_as};

use crate::board::{Busy, MailFull, SlotState};
use crate::board_journal::BoardJournal;
use crate::change::Change;
use crate::names::Notices;
use crate::notes::{Asks, Begins, Keeper, note};
use crate::opening::Opening;
use crate::slot_words::word_of;
use crate::slots::{ROW_LENGTH, answer_at, given_back, offered, place_of};
use atomic_table::Table;
use chunk_map::layout_sizes::MOST_GROUP;
use fs_model::Memory;
use group_laws::types::Slot;
use log_entry::entry::EntryName;
use pm_region::Region;
use std::alloc::Global;
use std::marker::Brand;
use std::mem;

/// The board of a group over one thread. Its members' seats are `LocalSeat`s.
#[derive(Drop)]
pub struct LocalBoard {
    pub(crate) member_count: u32,
    /// Who has the lock.
    pub(crate) holder: Option<u32>,
    /// In rows, one for each owner.
    pub(crate) slots: Vec<Slot>,
    /// In rows, one for each sender.
    pub(crate) mail: Vec<Option<Notices>>,
    pub(crate) table: Table<u8, BoardJournal, (), Asks, Global>,
    /// The seat whose view is the journal.
    pub(crate) keeper: Keeper,
    ghost sized: { (table.shared.table_id.words ≡ 1) × (member_count ≤ MOST_GROUP)
        × (length slots.items ≡ ROW_LENGTH * member_count)
        × (length mail.items ≡ ROW_LENGTH * member_count)
        × (places.members (state keeper.me.0).place ≡ member_count) },
    ghost here: { keeper.table_id ≡ table.shared.table_id } by { TableId-set _ _ },
    ghost kept: { ∥ IsKept member_count holder slots.items mail.items keeper.me.0 ∥₁ },
}

/// Empty slots, a row for each member.
fn empty_slots(alloc: Global, members: u32) -> Result<Vec<Slot>, Memory>
    requires { members ≤ MOST_GROUP }
    ensures { IfOk result (λ slots. (length slots.items ≡ ROW_LENGTH * members)
        × ((i : ℕ) → get_or slots.items i slot_states.Empty ≡ slot_states.Empty)) }
{
    let mut slots = Vec::new(alloc);
    for _ in 0..ROW_LENGTH * members {
        slots.push(Slot::Empty)?;
    }
    Ok(slots)
}

/// Empty mailboxes, a row for each member.
fn empty_mail(alloc: Global, members: u32) -> Result<Vec<Option<Notices>>, Memory>
    requires { members ≤ MOST_GROUP }
    ensures { IfOk result (λ mail. (length mail.items ≡ ROW_LENGTH * members)
        × ((i : ℕ) → option_map notices_of (get_or mail.items i None) ≡ None)) }
{
    let mut mail = Vec::new(alloc);
    for _ in 0..ROW_LENGTH * members {
        mail.push(None)?;
    }
    Ok(mail)
}

impl LocalBoard {
    /// Opens the board of a group on what the words of a sound image say: nobody has the lock, no slot offers a
    /// change, and no mailbox is full.
    pub fn open<O: Opening>(alloc: Global, members: u32) -> Result<LocalBoard, Memory>
        requires sound { images.IsSound O.bytes (image_of O.words) }
        requires group { O.group < (layout_of (image_of O.words)).cores /
            (layout_of (image_of O.words)).group }
        requires members { (layout_of (image_of O.words)).group ≡ members }
        ensures members { IfOk result (λ b. places.members (state b.keeper.me.0).place ≡ members) }
        ensures opened { IfOk result (λ b. state b.keeper.me.0
            ≡ opened (place_in O.group O.words) (image_of O.words)) }
        ensures lawful { IfOk result (λ b. Lawful (state b.keeper.me.0)) }
    {
        let (table, mut keeper) = Table::<u8, BoardJournal, (), Asks, Global>::of_words(
            alloc,
            &[0],
            &(),
        )?;
        table.shared.load::<Begins<O>>(&mut keeper, 0);
        let slots = empty_slots(alloc, members)?;
        let mail = empty_mail(alloc, members)?;
        Ok(LocalBoard {
            member_count: members,
            holder: None,
            slots,
            mail,
            table,
            keeper,
        })
    }

    pub(crate) fn post<R: Region>(
        &mut self,
        member: u32,
        region: &R,
        slot: u32,
        change: Change,
        value: &[u8],
    )
        requires { MayPost (state self.old.keeper.me.0).place member
            (view_of (state self.old.keeper.me.0) member) slot change value.now }
        ensures table { self.new.table.shared.table_id ≡ self.old.table.shared.table_id }
        ensures step { Leads self.old.keeper.me.0 member
            (runs.Kind.Post slot change.entry value.now) self.new.keeper.me.0 }
        ensures at { at_in member self.new.keeper.me.0 ≡ (R.state region.now).stamp }
        ensures made { trail_in member self.new.keeper.me.0
            ≡ step_with (runs.Kind.Post slot change.entry value.now)
            (view_of (state self.new.keeper.me.0) member)
            ∷ trail_in member self.old.keeper.me.0 }
        ensures view { view_of (state self.new.keeper.me.0) member
            ≡ after_post slot change.entry value.now (view_of (state self.old.keeper.me.0) member) }
    {
        let place = place_of(member, slot);
        let table = &self.table;
        note::<Brand, _>(
            &table.shared,
            &mut self.keeper,
            &(member, slot, &change.entry, value, region),
        );
        self.slots[place] = Slot::Posted(change.entry);
    }

    pub(crate) fn try_lock(&mut self, member: u32) -> Result<(), Busy>
        requires { MayLock (state self.old.keeper.me.0).place member
            (view_of (state self.old.keeper.me.0) member) }
        ensures table { self.new.table.shared.table_id ≡ self.old.table.shared.table_id }
        ensures step { Leads self.old.keeper.me.0 member runs.Kind.Lock self.new.keeper.me.0 }
        ensures other { IfErr result (λ busy. busy.holder ≢ member) }
        ensures holder { IfErr result (λ busy. busy.holder
            < places.members (state self.old.keeper.me.0).place) }
        ensures found { MatchResult result (λ _. (state self.old.keeper.me.0).holder ≡ None)
            (λ busy. (state self.old.keeper.me.0).holder ≡ Some busy.holder) }
        ensures made { trail_in member self.new.keeper.me.0
            ≡ step_with runs.Kind.Lock
            (view_of (state self.new.keeper.me.0) member)
            ∷ trail_in member self.old.keeper.me.0 }
        ensures view { MatchResult result (λ _. view_of (state self.new.keeper.me.0) member
            ≡ after_lock (view_of (state self.old.keeper.me.0) member))
            (λ busy. view_of (state self.new.keeper.me.0) member
            ≡ after_find (loads.Holder busy.holder) (view_of (state self.old.keeper.me.0) member)) }
    {
        let found = self.holder;
        let table = &self.table;
        note::<Brand, _>(&table.shared, &mut self.keeper, &(member, found));
        match found {
            Some(holder) => Err(Busy { holder }),
            None => {
                self.holder = Some(member);
                Ok(())
            }
        }
    }

    pub(crate) fn look(&mut self, member: u32, owner: u32, slot: u32) -> SlotState
        requires { MayLook (state self.old.keeper.me.0).place member owner slot }
        ensures table { self.new.table.shared.table_id ≡ self.old.table.shared.table_id }
        ensures stood { state_of (word_shown ((state self.old.keeper.me.0).slot owner slot))
            ≡ result }
        ensures step { Leads self.old.keeper.me.0 member
            (runs.Kind.Look owner slot) self.new.keeper.me.0 }
        ensures made { trail_in member self.new.keeper.me.0
            ≡ step_with (runs.Kind.Look owner slot)
            (view_of (state self.new.keeper.me.0) member)
            ∷ trail_in member self.old.keeper.me.0 }
        ensures view { (word : SlotWord) × (state_of word ≡ result)
            × (view_of (state self.new.keeper.me.0) member
            ≡ after_find (loads.Slot owner slot word)
            (view_of (state self.old.keeper.me.0) member)) }
    {
        let place = place_of(owner, slot);
        let word = word_of(&self.slots[place]);
        let table = &self.table;
        note::<Brand, _>(
            &table.shared,
            &mut self.keeper,
            &(member, owner, slot, word),
        );
        answer_at(word)
    }

    pub(crate) fn take(&mut self, member: u32, owner: u32, slot: u32) -> Change
        requires { MayTake (state self.old.keeper.me.0).place member
            (view_of (state self.old.keeper.me.0) member) owner slot }
        ensures table { self.new.table.shared.table_id ≡ self.old.table.shared.table_id }
        ensures change { result.home ≡ None }
        ensures spelled { HasSpelling result.entry }
        ensures words { (n : ℕ) → In (loads.Slot owner slot (words.Posted n))
            ((state self.old.keeper.me.0).looked member) → length (words_of result.entry) ≡ n }
        ensures unlogged { IsUnlogged member owner slot
            (view_of (state self.old.keeper.me.0) member) result.entry }
        ensures stood { (state self.old.keeper.me.0).slot owner slot
            ≡ slot_states.Posted result.entry }
        ensures step { Leads self.old.keeper.me.0 member
            (runs.Kind.Take owner slot) self.new.keeper.me.0 }
        ensures made { trail_in member self.new.keeper.me.0
            ≡ step_with (runs.Kind.Take owner slot)
            (view_of (state self.new.keeper.me.0) member)
            ∷ trail_in member self.old.keeper.me.0 }
        ensures view { view_of (state self.new.keeper.me.0) member
            ≡ after_take owner slot result.entry (view_of (state self.old.keeper.me.0) member) }
    {
        let place = place_of(owner, slot);
        let stood = mem::replace(&mut self.slots[place], Slot::Taken);
        let change = offered(stood);
        let table = &self.table;
        note::<Brand, _>(
            &table.shared,
            &mut self.keeper,
            &(member, owner, slot, &change.entry),
        );
        change
    }

    pub(crate) fn unlock(&mut self, member: u32)
        requires { MayUnlock (state self.old.keeper.me.0).place member
            (view_of (state self.old.keeper.me.0) member) }
        ensures table { self.new.table.shared.table_id ≡ self.old.table.shared.table_id }
        ensures step { Leads self.old.keeper.me.0 member runs.Kind.Unlock self.new.keeper.me.0 }
        ensures made { trail_in member self.new.keeper.me.0
            ≡ step_with runs.Kind.Unlock
            (view_of (state self.new.keeper.me.0) member)
            ∷ trail_in member self.old.keeper.me.0 }
        ensures view { view_of (state self.new.keeper.me.0) member
            ≡ after_unlock (view_of (state self.old.keeper.me.0) member) }
    {
        let table = &self.table;
        note::<Brand, _>(&table.shared, &mut self.keeper, &member);
        self.holder = None;
    }

    pub(crate) fn commit<R: Region>(&mut self, member: u32, region: &R)
        requires { MayCommit (state self.old.keeper.me.0).place member
            (view_of (state self.old.keeper.me.0) member) }
        ensures table { self.new.table.shared.table_id ≡ self.old.table.shared.table_id }
        ensures step { Leads self.old.keeper.me.0 member runs.Kind.Commit self.new.keeper.me.0 }
        ensures at { at_in member self.new.keeper.me.0 ≡ (R.state region.now).stamp }
        ensures made { trail_in member self.new.keeper.me.0
            ≡ step_with runs.Kind.Commit
            (view_of (state self.new.keeper.me.0) member)
            ∷ trail_in member self.old.keeper.me.0 }
        ensures view { view_of (state self.new.keeper.me.0) member
            ≡ after_commit (view_of (state self.old.keeper.me.0) member) }
    {
        let table = &self.table;
        note::<Brand, _>(&table.shared, &mut self.keeper, &(member, region));
    }

    pub(crate) fn mark(&mut self, member: u32, owner: u32, slot: u32, change: Change)
        requires { MayMark (state self.old.keeper.me.0).place member
            (view_of (state self.old.keeper.me.0) member) owner slot change.entry }
        ensures table { self.new.table.shared.table_id ≡ self.old.table.shared.table_id }
        ensures step { Leads self.old.keeper.me.0 member
            (runs.Kind.Mark owner slot) self.new.keeper.me.0 }
        ensures made { trail_in member self.new.keeper.me.0
            ≡ step_with (runs.Kind.Mark owner slot)
            (view_of (state self.new.keeper.me.0) member)
            ∷ trail_in member self.old.keeper.me.0 }
        ensures view { view_of (state self.new.keeper.me.0) member
            ≡ after_mark owner slot (view_of (state self.old.keeper.me.0) member) }
    {
        let place = place_of(owner, slot);
        let table = &self.table;
        note::<Brand, _>(
            &table.shared,
            &mut self.keeper,
            &(member, owner, slot, &change.entry),
        );
        self.slots[place] = Slot::Done(change.entry, member);
    }

    pub(crate) fn fail(&mut self, member: u32, owner: u32, slot: u32, change: Change)
        requires { MayFail (state self.old.keeper.me.0).place member
            (view_of (state self.old.keeper.me.0) member) owner slot change.entry }
        ensures table { self.new.table.shared.table_id ≡ self.old.table.shared.table_id }
        ensures step { Leads self.old.keeper.me.0 member
            (runs.Kind.Fail owner slot) self.new.keeper.me.0 }
        ensures made { trail_in member self.new.keeper.me.0
            ≡ step_with (runs.Kind.Fail owner slot)
            (view_of (state self.new.keeper.me.0) member)
            ∷ trail_in member self.old.keeper.me.0 }
        ensures view { view_of (state self.new.keeper.me.0) member
            ≡ after_fail owner slot (view_of (state self.old.keeper.me.0) member) }
    {
        let place = place_of(owner, slot);
        let table = &self.table;
        note::<Brand, _>(
            &table.shared,
            &mut self.keeper,
            &(member, owner, slot, &change.entry),
        );
        self.slots[place] = Slot::Failed(change.entry);
    }

    pub(crate) fn finish(&mut self, member: u32, slot: u32) -> Change
        requires { MayFinish (state self.old.keeper.me.0).place member
            (view_of (state self.old.keeper.me.0) member) slot }
        ensures table { self.new.table.shared.table_id ≡ self.old.table.shared.table_id }
        ensures seen { MatchOption result.home (In (loads.Slot member slot words.Failed)
            ((state self.old.keeper.me.0).looked member))
            (λ home. In (loads.Slot member slot (words.Done home))
            ((state self.old.keeper.me.0).looked member)) }
        ensures home { IfSome result.home (IsHome (state self.old.keeper.me.0).place member
            (view_of (state self.old.keeper.me.0) member) result.entry) }
        ensures pending { (view_of (state self.old.keeper.me.0) member).pending result.entry.key
            ≡ Some (record { entry = result.entry; slot = Some slot }) }
        ensures stood { (state self.old.keeper.me.0).slot member slot
            ≡ stood_as result.entry result.home }
        ensures step { Leads self.old.keeper.me.0 member
            (runs.Kind.Finish slot) self.new.keeper.me.0 }
        ensures made { trail_in member self.new.keeper.me.0
            ≡ step_with (runs.Kind.Finish slot)
            (view_of (state self.new.keeper.me.0) member)
            ∷ trail_in member self.old.keeper.me.0 }
        ensures view { MatchOption result.home (TidiedIn (state self.old.keeper.me.0).place member
            (after_give_up result.entry (view_of (state self.old.keeper.me.0) member))
            (view_of (state self.new.keeper.me.0) member))
            (λ home. TidiedIn (state self.old.keeper.me.0).place member
            (after_finish result.entry home (view_of (state self.old.keeper.me.0) member))
            (view_of (state self.new.keeper.me.0) member)) }
    {
        let place = place_of(member, slot);
        let stood = mem::replace(&mut self.slots[place], Slot::Empty);
        let change = given_back(stood);
        let table = &self.table;
        note::<Brand, _>(&table.shared, &mut self.keeper, &(member, slot, &change));
        change
    }

    pub(crate) fn withdraw(&mut self, member: u32, slot: u32) -> Change
        requires { MayWithdraw (state self.old.keeper.me.0).place member
            (view_of (state self.old.keeper.me.0) member) slot }
        ensures table { self.new.table.shared.table_id ≡ self.old.table.shared.table_id }
        ensures change { result.home ≡ None }
        ensures pending { (view_of (state self.old.keeper.me.0) member).pending result.entry.key
            ≡ Some (record { entry = result.entry; slot = Some slot }) }
        ensures stood { (state self.old.keeper.me.0).slot member slot
            ≡ slot_states.Posted result.entry }
        ensures step { Leads self.old.keeper.me.0 member
            (runs.Kind.Withdraw slot) self.new.keeper.me.0 }
        ensures made { trail_in member self.new.keeper.me.0
            ≡ step_with (runs.Kind.Withdraw slot)
            (view_of (state self.new.keeper.me.0) member)
            ∷ trail_in member self.old.keeper.me.0 }
        ensures view { view_of (state self.new.keeper.me.0) member
            ≡ after_withdraw result.entry (view_of (state self.old.keeper.me.0) member) }
    {
        let place = place_of(member, slot);
        let posted = mem::replace(&mut self.slots[place], Slot::Empty);
        let change = offered(posted);
        let table = &self.table;
        note::<Brand, _>(
            &table.shared,
            &mut self.keeper,
            &(member, slot, &change.entry),
        );
        change
    }

    pub(crate) fn doom<R: Region>(&mut self, member: u32, region: &R, names: &[EntryName])
        requires { MayDoom (state self.old.keeper.me.0).place member
            (view_of (state self.old.keeper.me.0) member) names.now }
        ensures table { self.new.table.shared.table_id ≡ self.old.table.shared.table_id }
        ensures step { Leads self.old.keeper.me.0 member
            (runs.Kind.Doom names.now) self.new.keeper.me.0 }
        ensures at { at_in member self.new.keeper.me.0 ≡ (R.state region.now).stamp }
        ensures made { trail_in member self.new.keeper.me.0
            ≡ step_with (runs.Kind.Doom names.now)
            (view_of (state self.new.keeper.me.0) member)
            ∷ trail_in member self.old.keeper.me.0 }
        ensures view { view_of (state self.new.keeper.me.0) member
            ≡ after_doom names.now (view_of (state self.old.keeper.me.0) member) }
    {
        let table = &self.table;
        note::<Brand, _>(&table.shared, &mut self.keeper, &(member, names, region));
    }

    pub(crate) fn retire<R: Region>(&mut self, member: u32, region: &R, names: &[EntryName])
        requires { MayRetire (state self.old.keeper.me.0).place member
            (view_of (state self.old.keeper.me.0) member) names.now }
        ensures table { self.new.table.shared.table_id ≡ self.old.table.shared.table_id }
        ensures step { Leads self.old.keeper.me.0 member
            (runs.Kind.Retire names.now) self.new.keeper.me.0 }
        ensures at { at_in member self.new.keeper.me.0 ≡ (R.state region.now).stamp }
        ensures made { trail_in member self.new.keeper.me.0
            ≡ step_with (runs.Kind.Retire names.now)
            (view_of (state self.new.keeper.me.0) member)
            ∷ trail_in member self.old.keeper.me.0 }
        ensures view { TidiedIn (state self.old.keeper.me.0).place member
            (after_retire (state self.old.keeper.me.0).place member names.now
            (view_of (state self.old.keeper.me.0) member))
            (view_of (state self.new.keeper.me.0) member) }
    {
        let table = &self.table;
        note::<Brand, _>(&table.shared, &mut self.keeper, &(member, names, region));
    }

    /// Loads the word of a mailbox, and says whether it is full.
    fn look_at_mail(&mut self, member: u32, from: u32, to: u32) -> bool
        requires { (member < places.members (state self.old.keeper.me.0).place)
            × (from < places.members (state self.old.keeper.me.0).place)
            × (to < places.members (state self.old.keeper.me.0).place) }
        ensures table { self.new.table.shared.table_id ≡ self.old.table.shared.table_id }
        ensures found { result ≡ is_full ((state self.old.keeper.me.0).mail from to) }
        ensures made { trail_in member self.new.keeper.me.0
            ≡ step_with (runs.Kind.LookMail from to)
            (view_of (state self.new.keeper.me.0) member)
            ∷ trail_in member self.old.keeper.me.0 }
        ensures state { state self.new.keeper.me.0
            ≡ finds (state self.old.keeper.me.0) member (loads.Mail from to result) }
    {
        let place = place_of(from, to);
        let full = self.mail[place].is_some();
        let table = &self.table;
        note::<Brand, _>(&table.shared, &mut self.keeper, &(member, from, to, full));
        full
    }

    /// Puts notices into an empty mailbox.
    fn put_mail(&mut self, member: u32, to: u32, notices: Notices)
        requires { CanSend (state self.old.keeper.me.0) member to (notices_of notices) }
        ensures table { self.new.table.shared.table_id ≡ self.old.table.shared.table_id }
        ensures made { trail_in member self.new.keeper.me.0
            ≡ step_with (runs.Kind.Send to (notices_of notices))
            (view_of (state self.new.keeper.me.0) member)
            ∷ trail_in member self.old.keeper.me.0 }
        ensures state { state self.new.keeper.me.0
            ≡ sends (state self.old.keeper.me.0) member to (notices_of notices) }
    {
        let place = place_of(member, to);
        let table = &self.table;
        note::<Brand, _>(&table.shared, &mut self.keeper, &(member, to, &notices));
        self.mail[place] = Some(notices);
    }

    /// Takes the notices out of a full mailbox.
    fn take_mail(&mut self, member: u32, from: u32) -> Notices
        requires members { (member < places.members (state self.old.keeper.me.0).place)
            × (from < places.members (state self.old.keeper.me.0).place) }
        requires seen { In (loads.Mail from member true)
            ((state self.old.keeper.me.0).looked member) }
        ensures table { self.new.table.shared.table_id ≡ self.old.table.shared.table_id }
        ensures stood { (state self.old.keeper.me.0).mail from member ≡ Some (notices_of result) }
        ensures heard { IsHeard (state self.old.keeper.me.0).place member from
            (view_of (state self.old.keeper.me.0) member) (notices_of result) }
        ensures made { trail_in member self.new.keeper.me.0
            ≡ step_with (runs.Kind.Receive from)
            (view_of (state self.new.keeper.me.0) member)
            ∷ trail_in member self.old.keeper.me.0 }
        ensures state { Tidied (receives (state self.old.keeper.me.0) member from
            (notices_of result)) member (state self.new.keeper.me.0) }
    {
        let place = place_of(from, member);
        let stood = mem::replace(&mut self.mail[place], None);
        let notices = stood.unwrap();
        let table = &self.table;
        note::<Brand, _>(&table.shared, &mut self.keeper, &(member, from, &notices));
        notices
    }

    pub(crate) fn send(&mut self, member: u32, to: u32, notices: Notices) -> Result<(), MailFull>
        requires { MaySend (state self.old.keeper.me.0).place member
            (view_of (state self.old.keeper.me.0) member) to (notices_of notices) }
        ensures table { self.new.table.shared.table_id ≡ self.old.table.shared.table_id }
        ensures place { (state self.new.keeper.me.0).place ≡ (state self.old.keeper.me.0).place }
        ensures back { IfErr result (λ full. full.notices ≡ notices) }
        ensures found { is_full ((state self.old.keeper.me.0).mail member to) ≡ is_err result }
        ensures lawful { Lawful (state self.old.keeper.me.0) → Lawful (state self.new.keeper.me.0) }
        ensures step { MatchResult result (λ _. AreSteps (state self.old.keeper.me.0) member
            (runs.Kind.LookMail member to) (runs.Kind.Send to (notices_of notices))
            (state self.new.keeper.me.0)) (λ full. IsStep (state self.old.keeper.me.0) member
            (runs.Kind.LookMail member to) (state self.new.keeper.me.0)) }
        ensures made { MatchResult result (λ _. trail_in member self.new.keeper.me.0
            ≡ step_with (runs.Kind.Send to (notices_of notices))
            (view_of (state self.new.keeper.me.0) member)
            ∷ step_with (runs.Kind.LookMail member to) (after_find (loads.Mail member to false)
            (view_of (state self.old.keeper.me.0) member))
            ∷ trail_in member self.old.keeper.me.0) (λ full. trail_in member self.new.keeper.me.0
            ≡ step_with (runs.Kind.LookMail member to)
            (view_of (state self.new.keeper.me.0) member)
            ∷ trail_in member self.old.keeper.me.0) }
        ensures view { MatchResult result (λ _. view_of (state self.new.keeper.me.0) member
            ≡ after_send to (notices_of notices) (view_of (state self.old.keeper.me.0) member))
            (λ full. view_of (state self.new.keeper.me.0) member
            ≡ after_find (loads.Mail member to true)
            (view_of (state self.old.keeper.me.0) member)) }
    {
        if self.look_at_mail(member, member, to) {
            return Err(MailFull { notices });
        }
        self.put_mail(member, to, notices);
        Ok(())
    }

    pub(crate) fn receive(&mut self, member: u32, from: u32) -> Option<Notices>
        requires { MayReceive (state self.old.keeper.me.0).place member from }
        ensures table { self.new.table.shared.table_id ≡ self.old.table.shared.table_id }
        ensures place { (state self.new.keeper.me.0).place ≡ (state self.old.keeper.me.0).place }
        ensures stood { (state self.old.keeper.me.0).mail from member
            ≡ option_map notices_of result }
        ensures heard { IfSome result (λ notices. IsHeard
            (state self.old.keeper.me.0).place member from
            (view_of (state self.old.keeper.me.0) member) (notices_of notices)) }
        ensures lawful { Lawful (state self.old.keeper.me.0) → Lawful (state self.new.keeper.me.0) }
        ensures step { MatchOption result (IsStep (state self.old.keeper.me.0) member
            (runs.Kind.LookMail from member) (state self.new.keeper.me.0))
            (λ notices. AreSteps (state self.old.keeper.me.0) member
            (runs.Kind.LookMail from member) (runs.Kind.Receive from)
            (state self.new.keeper.me.0)) }
        ensures made { MatchOption result (trail_in member self.new.keeper.me.0
            ≡ step_with (runs.Kind.LookMail from member)
            (view_of (state self.new.keeper.me.0) member)
            ∷ trail_in member self.old.keeper.me.0)
            (λ notices. trail_in member self.new.keeper.me.0
            ≡ step_with (runs.Kind.Receive from) (view_of (state self.new.keeper.me.0) member)
            ∷ step_with (runs.Kind.LookMail from member) (after_find (loads.Mail from member true)
            (view_of (state self.old.keeper.me.0) member))
            ∷ trail_in member self.old.keeper.me.0) }
        ensures view { MatchOption result (view_of (state self.new.keeper.me.0) member
            ≡ after_find (loads.Mail from member false)
            (view_of (state self.old.keeper.me.0) member))
            (λ notices. TidiedIn (state self.old.keeper.me.0).place member
            (after_receive (state self.old.keeper.me.0).place member (notices_of notices)
            (view_of (state self.old.keeper.me.0) member))
            (view_of (state self.new.keeper.me.0) member)) }
    {
        if self.look_at_mail(member, from, member) {
            Some(self.take_mail(member, from))
        } else {
            None
        }
    }
}
