// The calls at mailboxes.
ghost use Rattle.std.specs.Prelude.{◌≡◌, ◌∷◌, ℕ, ◌+◌, ◌*◌, ◌<◌, ◌≤◌, true, false, None, Some, Option, MatchOption, MatchResult, IfErr, IfSome};
ghost use Rattle.group_laws.specs.declared.types.Seen.TheVariants as loads;
ghost use Rattle.group_board.specs.declared.names.Notices.{Notices as NoticesData};
ghost use Rattle.group_board.specs.Mailing.{notices_of};
ghost use Rattle.group_laws.specs.Runs as runs;
ghost use Rattle.group_board.specs.Trails.{step_with};
ghost use Rattle.group_board.specs.Views.{after_find, after_send, after_receive, TidiedIn};
ghost use Rattle.group_board.specs.Conditions.{MaySend, MayReceive};
ghost use Rattle.group_board.specs.Assurances.{IsHeard};
ghost use Rattle.atomic_board.specs.declared.parcel.Parcel.TheVariants as parcels;
ghost use Rattle.atomic_board.specs.TableWords.{mail_word, mail_place};
ghost use Rattle.atomic_board.specs.MemberSeats.{trail_at, place_at, view_at, Stays};

use crate::member_seat::{Common, MemberSeat};
use crate::parcel::Parcel;
use crate::rule::{Receives, Sends, TryReceives, TrySends};
use crate::table_words::{EMPTY_MAILBOX, FULL_MAILBOX};
use chunk_map::layout_sizes::MOST_GROUP;
use group_board::{MailFull, Notices};
use group_laws::group_sizes::{LOCK_WORDS, SLOTS};

/// The number of the word of the mailbox from one member to another, counted from the table's first.
pub fn mail_word_of(members: u32, from: u32, to: u32) -> usize
    requires { (members ≤ MOST_GROUP) × (from < members) × (to < members) }
    ensures { result ≡ mail_word members from to }
{
    LOCK_WORDS as usize
        + (1 + SLOTS as usize) * members as usize
        + (members as usize * from as usize + to as usize)
}

/// The number of that mailbox's slot, counted from the table's first. They stand behind the slots of the pools, eight
/// for each member, whatever the size of the group.
pub fn mail_place_of(members: u32, from: u32, to: u32) -> usize
    requires { (members ≤ MOST_GROUP) × (from < members) × (to < members) }
    ensures { result ≡ mail_place members from to }
{
    SLOTS as usize * members as usize + (MOST_GROUP as usize * from as usize + to as usize)
}

/// The notices that lie there.
fn opened(parcel: Option<Parcel>) -> Notices
    requires { (n : NoticesData) × (parcel ≡ Some (parcels.Notices n)) }
    ensures { parcel ≡ Some (parcels.Notices result) }
{
    let Some(Parcel::Notices(notices)) = parcel else {
        unreachable!()
    };
    notices
}

// Each is the call of `Board` with that name.
impl MemberSeat {
    pub(crate) fn send(
        &mut self,
        shared: &Common,
        to: u32,
        notices: Notices,
    ) -> Result<(), MailFull>
        requires table { self.old.seat.table_id ≡ shared.now.table_id }
        requires may { MaySend (place_at self.old) self.old.member (view_at self.old) to
            (notices_of notices) }
        ensures made { MatchResult result
            (λ _. trail_at self.new
            ≡ step_with (runs.Kind.Send to (notices_of notices)) (view_at self.new)
            ∷ step_with (runs.Kind.LookMail self.old.member to)
            (after_find (loads.Mail self.old.member to false) (view_at self.old))
            ∷ trail_at self.old)
            (λ full. trail_at self.new ≡ step_with (runs.Kind.LookMail self.old.member to)
            (view_at self.new) ∷ trail_at self.old) }
        ensures same { Stays self.old self.new }
        ensures back { IfErr result (λ full. full.notices ≡ notices) }
        ensures view { MatchResult result
            (λ _. view_at self.new ≡ after_send to (notices_of notices) (view_at self.old))
            (λ full. view_at self.new ≡ after_find (loads.Mail self.old.member to true)
            (view_at self.old)) }
    {
        let word = mail_word_of(self.members, self.member, to);
        let place = mail_place_of(self.members, self.member, to);
        let found = shared.load::<TrySends>(&mut self.seat, word);
        if found != EMPTY_MAILBOX {
            return Err(MailFull { notices });
        }
        let _ = shared.exchange(&mut self.seat, place, Some(Parcel::Notices(notices)));
        shared.store::<Sends>(&mut self.seat, word, FULL_MAILBOX);
        Ok(())
    }

    pub(crate) fn receive(&mut self, shared: &Common, from: u32) -> Option<Notices>
        requires table { self.old.seat.table_id ≡ shared.now.table_id }
        requires may { MayReceive (place_at self.old) self.old.member from }
        ensures made { MatchOption result
            (trail_at self.new ≡ step_with (runs.Kind.LookMail from self.old.member)
            (view_at self.new) ∷ trail_at self.old)
            (λ notices. trail_at self.new ≡ step_with (runs.Kind.Receive from) (view_at self.new)
            ∷ step_with (runs.Kind.LookMail from self.old.member)
            (after_find (loads.Mail from self.old.member true) (view_at self.old))
            ∷ trail_at self.old) }
        ensures same { Stays self.old self.new }
        ensures heard { IfSome result
            (λ notices. IsHeard (place_at self.old) self.old.member from (view_at self.old)
            (notices_of notices)) }
        ensures view { MatchOption result
            (view_at self.new ≡ after_find (loads.Mail from self.old.member false)
            (view_at self.old))
            (λ notices. TidiedIn (place_at self.old) self.old.member
            (after_receive (place_at self.old) self.old.member (notices_of notices)
            (view_at self.old)) (view_at self.new)) }
    {
        let word = mail_word_of(self.members, from, self.member);
        let place = mail_place_of(self.members, from, self.member);
        let found = shared.load::<TryReceives>(&mut self.seat, word);
        if found == EMPTY_MAILBOX {
            return None;
        }
        let parcel = shared.exchange(&mut self.seat, place, None);
        shared.store::<Receives>(&mut self.seat, word, EMPTY_MAILBOX);
        Some(opened(parcel))
    }
}
