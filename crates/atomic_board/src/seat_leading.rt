// The calls by which a member offers a change and by which it leads.
ghost use Rattle.std.specs.Prelude.{◌≡◌, ◌∷◌, ◌≢◌, ℕ, ◌+◌, ◌*◌, ◌%◌, ◌^◌, ◌<◌, ◌≤◌, length, None, Some, Option, MatchResult, IfErr};
ghost use Rattle.std.specs.VecDeque.{deque_len, deque_capacity};
ghost use Rattle.log_entry.specs.Spelling.{words_of, HasSpelling};
ghost use Rattle.store_image.specs.Facts.{In};
ghost use Rattle.group_laws.specs.declared.types.SlotWord.{SlotWord};
ghost use Rattle.group_laws.specs.declared.types.SlotWord.TheVariants as words;
ghost use Rattle.group_laws.specs.declared.types.Seen.TheVariants as loads;
ghost use Rattle.group_laws.specs.Runs as runs;
ghost use Rattle.pm_region.specs.State.{State};
ghost use Rattle.group_board.specs.Trails.{step_with};
ghost use Rattle.group_board.specs.Views.{after_post, after_lock, after_find, after_take, after_unlock, after_commit};
ghost use Rattle.group_board.specs.Assurances.{IsUnlogged};
ghost use Rattle.group_board.specs.Conditions.{MayPost, MayLock, MayLook, MayTake, MayUnlock, MayCommit};
ghost use Rattle.group_board.specs.Told.{state_of};
ghost use mathlib.Core.Option.{none};
ghost use Rattle.atomic_table.specs.Table.{Allows, step};
ghost use Rattle.group_board.specs.declared.change.Change.{Change as ChangeData};
ghost use Rattle.atomic_board.specs.declared.parcel.Parcel.TheVariants as parcels;
ghost use Rattle.atomic_board.specs.TableWords.{pool_word, pool_place, word_number, IsClearWord};
ghost use Rattle.atomic_board.specs.Deeds.{committed_at, size};
ghost use Rattle.atomic_board.specs.ShownState.{ShowsLawful};
ghost use Rattle.atomic_board.specs.StepTells.{tells_commit, tells_post};
ghost use Rattle.atomic_board.specs.MemberSeats.{done_at, trail_at, origin_at, place_at, view_at, Stays};

use crate::member_seat::{Common, MemberSeat};
use crate::parcel::Parcel;
use crate::rule::{
    Commits, CoreView, Locks, Looks, PostedValue, Posts, RegionStamp, Takes, Unlocks,
};
use crate::slot_order::bring;
use crate::table_words::{
    DONE_WORD, EMPTY_WORD, FAILED_WORD, FREE_LOCK, LOCK, POSTED_WORD, TAKEN_WORD,
};
use chunk_map::layout_sizes::MOST_GROUP;
use group_board::{Busy, Change, SlotState};
use group_laws::group_sizes::{LOCK_WORDS, SLOTS};
use log_entry::entry_words;
use pm_region::Region;
use std::marker::Brand;

/// The number of the word of a member's slot, counted from the table's first.
pub fn pool_word_of(members: u32, member: u32, slot: u32) -> usize
    requires { (members ≤ MOST_GROUP) × (member < members) × (slot < SLOTS) }
    ensures { result ≡ pool_word members member slot }
{
    (LOCK_WORDS + members + SLOTS * member + slot) as usize
}

/// The number of that slot, counted from the table's first.
pub fn pool_place_of(member: u32, slot: u32) -> usize
    requires { (member < MOST_GROUP) × (slot < SLOTS) }
    ensures { result ≡ pool_place member slot }
{
    (SLOTS * member + slot) as usize
}

/// The change that lies there.
pub(crate) fn unpacked(parcel: Option<Parcel>) -> Change
    requires { (c : ChangeData) × (parcel ≡ Some (parcels.Change c)) }
    ensures { parcel ≡ Some (parcels.Change result) }
{
    let Some(Parcel::Change(change)) = parcel else {
        unreachable!()
    };
    change
}

// The store that posts. The proof of the call picks the bytes behind the entry's pointer, and the stamp at which the
// region stands.
fn offer<W: PostedValue, R: Region>(
    shared: &Common,
    seat: &mut CoreView,
    word: usize,
    new: u64,
    _value: &[u8],
    _region: &R,
)
    requires { (seat.old.table_id ≡ shared.now.table_id) × (word < shared.now.table_id.words)
        × Allows (ShowsLawful shared.now.key.me.0) shared.now.table_id.slots seat.old.id
        seat.old.me word (λ _. new)
        (λ _. tells_post W.value W.at (step shared.now.table_id.slots word new 0 none) seat.old.me new) }
    ensures { (seat.new.table_id ≡ seat.old.table_id) × (seat.new.id ≡ seat.old.id)
        × tells_post W.value W.at (step shared.now.table_id.slots word new 0 none) seat.old.me new
        seat.new.me }
{
    shared.store::<Posts<W>>(seat, word, new);
}

// The step of a commit. The proof of the call picks the stamp at which the region stands.
fn commits<W: RegionStamp, R: Region>(
    shared: &Common,
    seat: &mut CoreView,
    word: usize,
    _region: &R,
)
    requires { (seat.old.table_id ≡ shared.now.table_id) × (word < shared.now.table_id.words)
        × Allows (ShowsLawful shared.now.key.me.0) shared.now.table_id.slots seat.old.id
        seat.old.me word (λ n. (n + 1) % 2 ^ 64)
        (tells_commit W.at (step shared.now.table_id.slots word 1 0 none) seat.old.me) }
    ensures { (seat.new.table_id ≡ seat.old.table_id) × (r : ℕ)
        × tells_commit W.at (step shared.now.table_id.slots word 1 0 none) seat.old.me r
        seat.new.me }
{
    shared.fetch_add::<Commits<W>>(seat, word, 1);
}

// Each is the call of `Board` with that name.
impl MemberSeat {
    pub(crate) fn commit<R: Region>(&mut self, shared: &Common, region: &R)
        requires table { self.old.seat.table_id ≡ shared.now.table_id }
        requires may { MayCommit (place_at self.old) self.old.member (view_at self.old) }
        ensures made { trail_at self.new
            ≡ step_with runs.Kind.Commit (view_at self.new) ∷ trail_at self.old }
        ensures at { committed_at (done_at self.new) ≡ (R.state region.now).stamp }
        ensures same { Stays self.old self.new }
        ensures view { view_at self.new ≡ after_commit (view_at self.old) }
    {
        commits::<Brand, _>(
            shared,
            &mut self.seat,
            LOCK_WORDS as usize + self.member as usize,
            region,
        );
    }

    pub(crate) fn unlock(&mut self, shared: &Common)
        requires table { self.old.seat.table_id ≡ shared.now.table_id }
        requires may { MayUnlock (place_at self.old) self.old.member (view_at self.old) }
        ensures made { trail_at self.new
            ≡ step_with runs.Kind.Unlock (view_at self.new) ∷ trail_at self.old }
        ensures same { Stays self.old self.new }
        ensures view { view_at self.new ≡ after_unlock (view_at self.old) }
    {
        shared.store::<Unlocks>(&mut self.seat, LOCK, FREE_LOCK);
    }

    pub(crate) fn try_lock(&mut self, shared: &Common) -> Result<(), Busy>
        requires table { self.old.seat.table_id ≡ shared.now.table_id }
        requires may { MayLock (place_at self.old) self.old.member (view_at self.old) }
        ensures made { trail_at self.new
            ≡ step_with runs.Kind.Lock (view_at self.new) ∷ trail_at self.old }
        ensures same { Stays self.old self.new }
        ensures view { MatchResult result (λ _. view_at self.new ≡ after_lock (view_at self.old))
            (λ busy. view_at self.new ≡ after_find (loads.Holder busy.holder) (view_at self.old)) }
        ensures other { IfErr result (λ busy. busy.holder ≢ self.old.member) }
        ensures holder { IfErr result (λ busy. busy.holder < size (origin_at self.old)) }
    {
        let mine = self.member as u64 + 1;
        let found = shared.compare_exchange::<Locks>(&mut self.seat, LOCK, FREE_LOCK, mine);
        if found == FREE_LOCK {
            Ok(())
        } else {
            Err(Busy {
                holder: (found - 1) as u32,
            })
        }
    }

    pub(crate) fn look(&mut self, shared: &Common, member: u32, slot: u32) -> SlotState
        requires table { self.old.seat.table_id ≡ shared.now.table_id }
        requires may { MayLook (place_at self.old) self.old.member member slot }
        ensures made { trail_at self.new
            ≡ step_with (runs.Kind.Look member slot) (view_at self.new) ∷ trail_at self.old }
        ensures same { Stays self.old self.new }
        ensures view { (word : SlotWord) × (state_of word ≡ result)
            × (view_at self.new ≡ after_find (loads.Slot member slot word) (view_at self.old)) }
    {
        let pool_word = pool_word_of(self.members, member, slot);
        let found = shared.load::<Looks>(&mut self.seat, pool_word);
        state_at(found)
    }

    pub(crate) fn take(&mut self, shared: &Common, member: u32, slot: u32) -> Change
        requires table { self.old.seat.table_id ≡ shared.now.table_id }
        requires may { MayTake (place_at self.old) self.old.member (view_at self.old) member slot }
        ensures made { trail_at self.new
            ≡ step_with (runs.Kind.Take member slot) (view_at self.new) ∷ trail_at self.old }
        ensures same { Stays self.old self.new }
        ensures change { result.home ≡ Option.None }
        ensures spelled { HasSpelling result.entry }
        ensures words { (n : ℕ) → In (loads.Slot member slot (words.Posted n))
            (view_at self.old).looked → length (words_of result.entry) ≡ n }
        ensures unlogged { IsUnlogged self.old.member member slot (view_at self.old) result.entry }
        ensures view { view_at self.new ≡ after_take member slot result.entry (view_at self.old) }
    {
        let pool_word = pool_word_of(self.members, member, slot);
        let place = pool_place_of(member, slot);
        shared.store::<Takes>(&mut self.seat, pool_word, TAKEN_WORD);
        let parcel = shared.exchange(&mut self.seat, place, None);
        self.held.push_front_reserved(place);
        unpacked(parcel)
    }

    pub(crate) fn post<R: Region>(
        &mut self,
        shared: &Common,
        region: &R,
        slot: u32,
        change: Change,
        value: &[u8],
    )
        requires table { self.old.seat.table_id ≡ shared.now.table_id }
        requires may { MayPost (place_at self.old) self.old.member
            (view_at self.old) slot change value.now }
        ensures at { committed_at (done_at self.new) ≡ (R.state region.now).stamp }
        ensures made { trail_at self.new
            ≡ step_with (runs.Kind.Post slot change.entry value.now) (view_at self.new) ∷ trail_at self.old }
        ensures same { Stays self.old self.new }
        ensures view { view_at self.new ≡ after_post slot change.entry value.now
            (view_at self.old) }
    {
        let pool_word = pool_word_of(self.members, self.member, slot);
        let place = pool_place_of(self.member, slot);
        let words = POSTED_WORD + entry_words(&change.entry);
        bring(&mut self.seat, &mut self.held, place);
        let _ = shared.exchange(&mut self.seat, place, Some(Parcel::Change(change)));
        offer::<Brand, _>(shared, &mut self.seat, pool_word, words, value, region);
        let _ = self.held.pop_front();
    }
}

/// What the number in a pool word says.
pub fn state_at(found: u64) -> SlotState
    ensures { (w : SlotWord) → found ≡ word_number w → IsClearWord w → state_of w ≡ result }
{
    match found {
        EMPTY_WORD => SlotState::Empty,
        TAKEN_WORD => SlotState::Taken,
        FAILED_WORD => SlotState::Failed,
        DONE_WORD..POSTED_WORD => SlotState::Done,
        _ if found >= POSTED_WORD => SlotState::Posted {
            words: found - POSTED_WORD,
        },
        _ => SlotState::Empty,
    }
}
