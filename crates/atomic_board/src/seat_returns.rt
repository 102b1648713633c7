// The calls that give changes back and take them back, and those of cleaning on the own log.
ghost use Rattle.std.specs.Prelude.{◌≡◌, ◌∷◌, ℕ, ◌+◌, ◌%◌, ◌^◌, ◌<◌, true, None, Some, Option, MatchOption, IfSome};
ghost use Rattle.log_entry.specs.declared.entry.EntryName.{EntryName};
ghost use Rattle.pm_region.specs.State.{State};
ghost use Rattle.store_image.specs.Facts.{In};
ghost use Rattle.group_laws.specs.declared.types.SlotWord.TheVariants as words;
ghost use Rattle.group_laws.specs.declared.types.Seen.TheVariants as loads;
ghost use Rattle.group_laws.specs.Runs as runs;
ghost use Rattle.group_board.specs.Trails.{step_with};
ghost use Rattle.group_board.specs.Views.{after_mark, after_fail, after_finish, after_give_up, after_withdraw, after_doom, after_retire, TidiedIn};
ghost use Rattle.group_board.specs.Conditions.{MayMark, MayFail, MayFinish, MayWithdraw, MayDoom, MayRetire};
ghost use Rattle.group_board.specs.Assurances.{IsHome};
ghost use mathlib.Core.Option.{none};
ghost use Rattle.atomic_table.specs.Table.{Allows, step};
ghost use Rattle.atomic_board.specs.ShownState.{ShowsLawful};
ghost use Rattle.atomic_board.specs.StepTells.{tells_doom, tells_retire};
ghost use Rattle.atomic_board.specs.Deeds.{committed_at};
ghost use Rattle.atomic_board.specs.MemberSeats.{done_at, trail_at, place_at, view_at, Stays};

use crate::member_seat::{Common, MemberSeat};
use crate::parcel::Parcel;
use crate::rule::{CoreView, Dooms, Fails, Finishes, Marks, Named, Retires, Withdraws};
use crate::seat_leading::{pool_place_of, pool_word_of, unpacked};
use crate::slot_order::bring;
use crate::table_words::{DONE_WORD, EMPTY_WORD, FAILED_WORD};
use group_board::Change;
use group_laws::group_sizes::LOCK_WORDS;
use log_entry::entry::EntryName;
use pm_region::Region;
use std::marker::Brand;

// The steps of cleaning. The proof of the call picks the names, and the stamp at which the region stands.
fn dooms<W: Named, R: Region>(
    shared: &Common,
    seat: &mut CoreView,
    word: usize,
    _names: &[EntryName],
    _region: &R,
)
    requires { (seat.old.table_id ≡ shared.now.table_id) × (word < shared.now.table_id.words)
        × Allows (ShowsLawful shared.now.key.me.0) shared.now.table_id.slots seat.old.id
        seat.old.me word (λ n. (n + 1) % 2 ^ 64)
        (tells_doom W.names W.at (step shared.now.table_id.slots word 1 0 none) seat.old.me) }
    ensures { (seat.new.table_id ≡ seat.old.table_id) × (r : ℕ)
        × tells_doom W.names W.at (step shared.now.table_id.slots word 1 0 none) seat.old.me r
        seat.new.me }
{
    shared.fetch_add::<Dooms<W>>(seat, word, 1);
}

fn retires<W: Named, R: Region>(
    shared: &Common,
    seat: &mut CoreView,
    word: usize,
    _names: &[EntryName],
    _region: &R,
)
    requires { (seat.old.table_id ≡ shared.now.table_id) × (word < shared.now.table_id.words)
        × Allows (ShowsLawful shared.now.key.me.0) shared.now.table_id.slots seat.old.id
        seat.old.me word (λ n. (n + 1) % 2 ^ 64)
        (tells_retire W.names W.at (step shared.now.table_id.slots word 1 0 none) seat.old.me) }
    ensures { (seat.new.table_id ≡ seat.old.table_id) × (r : ℕ)
        × tells_retire W.names W.at (step shared.now.table_id.slots word 1 0 none) seat.old.me r
        seat.new.me }
{
    shared.fetch_add::<Retires<W>>(seat, word, 1);
}

// Each is the call of `Board` with that name.
impl MemberSeat {
    pub(crate) fn mark(&mut self, shared: &Common, member: u32, slot: u32, change: Change)
        requires table { self.old.seat.table_id ≡ shared.now.table_id }
        requires may { MayMark (place_at self.old) self.old.member
            (view_at self.old) member slot change.entry }
        ensures made { trail_at self.new
            ≡ step_with (runs.Kind.Mark member slot) (view_at self.new) ∷ trail_at self.old }
        ensures same { Stays self.old self.new }
        ensures view { view_at self.new ≡ after_mark member slot (view_at self.old) }
    {
        let pool_word = pool_word_of(self.members, member, slot);
        let place = pool_place_of(member, slot);
        let word = DONE_WORD + self.member as u64;
        let done = Change {
            entry: change.entry,
            home: Some(self.member),
        };
        bring(&mut self.seat, &mut self.held, place);
        let _ = shared.exchange(&mut self.seat, place, Some(Parcel::Change(done)));
        shared.store::<Marks>(&mut self.seat, pool_word, word);
        let _ = self.held.pop_front();
    }

    pub(crate) fn fail(&mut self, shared: &Common, member: u32, slot: u32, change: Change)
        requires table { self.old.seat.table_id ≡ shared.now.table_id }
        requires may { MayFail (place_at self.old) self.old.member
            (view_at self.old) member slot change.entry }
        ensures made { trail_at self.new
            ≡ step_with (runs.Kind.Fail member slot) (view_at self.new) ∷ trail_at self.old }
        ensures same { Stays self.old self.new }
        ensures view { view_at self.new ≡ after_fail member slot (view_at self.old) }
    {
        let pool_word = pool_word_of(self.members, member, slot);
        let place = pool_place_of(member, slot);
        let failed = Change {
            entry: change.entry,
            home: None,
        };
        bring(&mut self.seat, &mut self.held, place);
        let _ = shared.exchange(&mut self.seat, place, Some(Parcel::Change(failed)));
        shared.store::<Fails>(&mut self.seat, pool_word, FAILED_WORD);
        let _ = self.held.pop_front();
    }

    pub(crate) fn finish(&mut self, shared: &Common, slot: u32) -> Change
        requires table { self.old.seat.table_id ≡ shared.now.table_id }
        requires may { MayFinish (place_at self.old) self.old.member (view_at self.old) slot }
        ensures made { trail_at self.new
            ≡ step_with (runs.Kind.Finish slot) (view_at self.new) ∷ trail_at self.old }
        ensures same { Stays self.old self.new }
        ensures seen { MatchOption result.home
            (In (loads.Slot self.old.member slot words.Failed) (view_at self.old).looked)
            (λ home. In (loads.Slot self.old.member slot (words.Done home))
            (view_at self.old).looked) }
        ensures home { IfSome result.home
            (IsHome (place_at self.old) self.old.member (view_at self.old) result.entry) }
        ensures pending { (view_at self.old).pending result.entry.key ≡ Option.Some
            (record { entry = result.entry; slot = Option.Some slot }) }
        ensures view { MatchOption result.home
            (TidiedIn (place_at self.old) self.old.member
            (after_give_up result.entry (view_at self.old)) (view_at self.new))
            (λ home. TidiedIn (place_at self.old) self.old.member
            (after_finish result.entry home (view_at self.old)) (view_at self.new)) }
    {
        let pool_word = pool_word_of(self.members, self.member, slot);
        let place = pool_place_of(self.member, slot);
        shared.store::<Finishes>(&mut self.seat, pool_word, EMPTY_WORD);
        let parcel = shared.exchange(&mut self.seat, place, None);
        self.held.push_front_reserved(place);
        unpacked(parcel)
    }

    pub(crate) fn withdraw(&mut self, shared: &Common, slot: u32) -> Change
        requires table { self.old.seat.table_id ≡ shared.now.table_id }
        requires may { MayWithdraw (place_at self.old) self.old.member (view_at self.old) slot }
        ensures made { trail_at self.new
            ≡ step_with (runs.Kind.Withdraw slot) (view_at self.new) ∷ trail_at self.old }
        ensures same { Stays self.old self.new }
        ensures change { result.home ≡ Option.None }
        ensures pending { (view_at self.old).pending result.entry.key ≡ Option.Some
            (record { entry = result.entry; slot = Option.Some slot }) }
        ensures view { view_at self.new ≡ after_withdraw result.entry (view_at self.old) }
    {
        let pool_word = pool_word_of(self.members, self.member, slot);
        let place = pool_place_of(self.member, slot);
        shared.store::<Withdraws>(&mut self.seat, pool_word, EMPTY_WORD);
        let parcel = shared.exchange(&mut self.seat, place, None);
        self.held.push_front_reserved(place);
        unpacked(parcel)
    }

    pub(crate) fn doom<R: Region>(&mut self, shared: &Common, region: &R, names: &[EntryName])
        requires table { self.old.seat.table_id ≡ shared.now.table_id }
        requires may { MayDoom (place_at self.old) self.old.member (view_at self.old) names.now }
        ensures at { committed_at (done_at self.new) ≡ (R.state region.now).stamp }
        ensures made { trail_at self.new
            ≡ step_with (runs.Kind.Doom names.now) (view_at self.new) ∷ trail_at self.old }
        ensures same { Stays self.old self.new }
        ensures view { view_at self.new ≡ after_doom names.now (view_at self.old) }
    {
        dooms::<Brand, _>(
            shared,
            &mut self.seat,
            LOCK_WORDS as usize + self.member as usize,
            names,
            region,
        );
    }

    pub(crate) fn retire<R: Region>(&mut self, shared: &Common, region: &R, names: &[EntryName])
        requires table { self.old.seat.table_id ≡ shared.now.table_id }
        requires may { MayRetire (place_at self.old) self.old.member (view_at self.old) names.now }
        ensures at { committed_at (done_at self.new) ≡ (R.state region.now).stamp }
        ensures made { trail_at self.new
            ≡ step_with (runs.Kind.Retire names.now) (view_at self.new) ∷ trail_at self.old }
        ensures same { Stays self.old self.new }
        ensures view { TidiedIn (place_at self.old) self.old.member
            (after_retire (place_at self.old) self.old.member names.now (view_at self.old))
            (view_at self.new) }
    {
        retires::<Brand, _>(
            shared,
            &mut self.seat,
            LOCK_WORDS as usize + self.member as usize,
            names,
            region,
        );
    }
}
