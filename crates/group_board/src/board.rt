// The calls of a member of a group.
ghost use Rattle.std.specs.Prelude.{◌≡◌, ◌≢◌, ℕ, ◌∷◌, ◌<◌, Option, List, length, IfErr, IfSome, is_err, true, false, MatchOption, MatchResult};
ghost use Rattle.log_entry.specs.Spelling.{words_of, HasSpelling};
ghost use Rattle.store_image.specs.Facts.{In};
ghost use Rattle.group_laws.specs.Places as places;
ghost use Rattle.group_laws.specs.State.{Group, word_shown, is_full};
ghost use Rattle.group_laws.specs.MemberViews.{View, view_of};
ghost use Rattle.group_laws.specs.Invariant.{Lawful};
ghost use Rattle.group_laws.specs.Runs as runs;
ghost use Rattle.pm_region.specs.State.{State};
ghost use Rattle.group_laws.specs.declared.types.Slot.TheVariants as slots;
ghost use Rattle.group_laws.specs.declared.types.SlotWord.{SlotWord};
ghost use Rattle.group_laws.specs.declared.types.SlotWord.TheVariants as words;
ghost use Rattle.group_laws.specs.declared.types.Seen.TheVariants as loads;
ghost use Rattle.group_laws.specs.declared.types.Pending.{Pending};
ghost use Rattle.group_board.specs.Mailing.{notices_of};
ghost use Rattle.group_board.specs.Seats.{SeatAt};
ghost use Rattle.group_board.specs.Views.{after_post, after_lock, after_find, after_take, after_unlock, after_commit, after_mark, after_fail, after_finish, after_give_up, after_withdraw, after_doom, after_retire, after_send, after_receive, TidiedIn};
ghost use Rattle.group_board.specs.Conditions.{MayPost, MayLock, MayLook, MayTake, MayUnlock, MayCommit, MayMark, MayFail, MayFinish, MayWithdraw, MayDoom, MayRetire, MaySend, MayReceive};
ghost use Rattle.group_board.specs.Assurances.{IsHome, IsHeard, IsUnlogged};
ghost use Rattle.group_board.specs.Trails.{TrailStep, step_with};
ghost use Rattle.group_board.specs.Told.{Makes, MakesBoth, Stood, Held, state_of, stood_as};

use crate::change::Change;
use crate::names::Notices;
use log_entry::entry::EntryName;
use pm_region::Region;

/// What a look finds in a slot.
#[derive(Clone, Copy, Debug, PartialEq, Eq)]
pub enum SlotState {
    /// Its owner may post there.
    Empty,
    /// With the number of words of the entry that is offered.
    Posted { words: u64 },
    /// A leader has the change.
    Taken,
    /// The change is certain in some member's log, and its owner may finish it.
    Done,
    /// The change could not be written, and its owner takes it back.
    Failed,
}

/// Another member has the lock.
#[derive(Clone, Copy, Debug, PartialEq, Eq)]
pub struct Busy {
    /// Who has it, by its number in the group.
    pub holder: u32,
}

/// The mailbox still has what was sent before. The notices come back.
#[derive(Drop)]
pub struct MailFull {
    /// Those that were to be sent now.
    pub notices: Notices,
}

/// A member's seat at the board of its group. Slots are numbered from 0 to 7, members from 0 to below their
/// number. Each call makes the steps that its last clause names, and whoever makes them knows its own view.
pub trait Board {
    // Where the seat is; no call moves it.
    ghost seat: { Self → SeatAt };

    // What the member has.
    ghost view: { Self → View };

    // The steps that the seat's member made, the newest first, each with the view after it.
    ghost trail: { Self → List TrailStep };

    // The stamp at which the region stood that the newest post, commit, doom or retirement was handed.
    ghost at: { Self → ℕ };

    // The state of the group, where the board tells it.
    ghost whole: { Self → Option Group };

    /// The number of this member.
    fn member(&self) -> u32
        ensures { result ≡ (seat self.now).number };

    /// How many members there are.
    fn members(&self) -> u32
        ensures { result ≡ places.members (seat self.now).place };

    /// Offers a change in an own slot. `value` is the bytes behind the entry's pointer, and empty for an entry
    /// without one. Contracts alone read it, and where the region stands.
    fn post<R: Region>(&mut self, region: &R, slot: u32, change: Change, value: &[u8])
        requires { MayPost (seat self.old).place (seat self.old).number (view self.old)
            slot change value.now }
        ensures seat { seat self.new ≡ seat self.old }
        ensures view { view self.new ≡ after_post slot change.entry value.now (view self.old) }
        ensures at { at self.new ≡ (R.state region.now).stamp }
        ensures made { trail self.new
            ≡ step_with (runs.Kind.Post slot change.entry value.now) (view self.new) ∷ trail self.old }
        ensures whole { Makes (whole self.old) (seat self.old).number
            (runs.Kind.Post slot change.entry value.now) (whole self.new) (view self.new) };

    /// Tries to become the leader. It answers Busy only where it found that another member is, with that member.
    fn try_lock(&mut self) -> Result<(), Busy>
        requires { MayLock (seat self.old).place (seat self.old).number (view self.old) }
        ensures seat { seat self.new ≡ seat self.old }
        ensures view { MatchResult result
            (λ _. view self.new ≡ after_lock (view self.old))
            (λ busy. view self.new ≡ after_find (loads.Holder busy.holder) (view self.old)) }
        ensures other { IfErr result (λ busy. busy.holder ≢ (seat self.old).number) }
        ensures holder { IfErr result (λ busy. busy.holder < places.members (seat self.old).place) }
        ensures found { IfSome (whole self.old) (λ w. MatchResult result
            (λ _. w.holder ≡ Option.None) (λ busy. w.holder ≡ Option.Some busy.holder)) }
        ensures made { trail self.new ≡ step_with runs.Kind.Lock (view self.new) ∷ trail self.old }
        ensures whole { Makes (whole self.old) (seat self.old).number
            runs.Kind.Lock (whole self.new) (view self.new) };

    /// Loads the word of a slot.
    fn look(&mut self, member: u32, slot: u32) -> SlotState
        requires { MayLook (seat self.old).place (seat self.old).number member slot }
        ensures seat { seat self.new ≡ seat self.old }
        ensures view { (word : SlotWord) × (state_of word ≡ result)
            × (view self.new ≡ after_find (loads.Slot member slot word) (view self.old)) }
        ensures stood { IfSome (whole self.old) (λ w. state_of (word_shown (w.slot member slot))
            ≡ result) }
        ensures made { trail self.new
            ≡ step_with (runs.Kind.Look member slot) (view self.new) ∷ trail self.old }
        ensures whole { Makes (whole self.old) (seat self.old).number
            (runs.Kind.Look member slot) (whole self.new) (view self.new) };

    /// As the leader, takes the change of a slot that a look found Posted. Its entry has a spelling, of as many
    /// words as the look found, and a name that no entry of the own log has, certain or in flight; out of an own slot
    /// it is the change pending there.
    fn take(&mut self, member: u32, slot: u32) -> Change
        requires { MayTake (seat self.old).place (seat self.old).number
            (view self.old) member slot }
        ensures seat { seat self.new ≡ seat self.old }
        ensures change { result.home ≡ Option.None }
        ensures spelled { HasSpelling result.entry }
        ensures words { (n : ℕ) → In (loads.Slot member slot (words.Posted n))
            (view self.old).looked
            → length (words_of result.entry) ≡ n }
        ensures unlogged { IsUnlogged (seat self.old).number member slot (view self.old)
            result.entry }
        ensures view { view self.new ≡ after_take member slot result.entry (view self.old) }
        ensures stood { Stood (whole self.old) member slot (slots.Posted result.entry) }
        ensures made { trail self.new
            ≡ step_with (runs.Kind.Take member slot) (view self.new) ∷ trail self.old }
        ensures whole { Makes (whole self.old) (seat self.old).number
            (runs.Kind.Take member slot) (whole self.new) (view self.new) };

    /// Gives the lock back.
    fn unlock(&mut self)
        requires { MayUnlock (seat self.old).place (seat self.old).number (view self.old) }
        ensures seat { seat self.new ≡ seat self.old }
        ensures view { view self.new ≡ after_unlock (view self.old) }
        ensures made { trail self.new
            ≡ step_with runs.Kind.Unlock (view self.new) ∷ trail self.old }
        ensures whole { Makes (whole self.old) (seat self.old).number
            runs.Kind.Unlock (whole self.new) (view self.new) };

    /// What was taken is certain in the own log from now on.
    fn commit<R: Region>(&mut self, region: &R)
        requires { MayCommit (seat self.old).place (seat self.old).number (view self.old) }
        ensures seat { seat self.new ≡ seat self.old }
        ensures view { view self.new ≡ after_commit (view self.old) }
        ensures at { at self.new ≡ (R.state region.now).stamp }
        ensures made { trail self.new
            ≡ step_with runs.Kind.Commit (view self.new) ∷ trail self.old }
        ensures whole { Makes (whole self.old) (seat self.old).number
            runs.Kind.Commit (whole self.new) (view self.new) };

    /// Gives a change back that is certain in the own log. Its home is this member.
    fn mark(&mut self, member: u32, slot: u32, change: Change)
        requires { MayMark (seat self.old).place (seat self.old).number (view self.old)
            member slot change.entry }
        ensures seat { seat self.new ≡ seat self.old }
        ensures view { view self.new ≡ after_mark member slot (view self.old) }
        ensures made { trail self.new
            ≡ step_with (runs.Kind.Mark member slot) (view self.new) ∷ trail self.old }
        ensures whole { Makes (whole self.old) (seat self.old).number
            (runs.Kind.Mark member slot) (whole self.new) (view self.new) };

    /// Gives a change back that could not be written.
    fn fail(&mut self, member: u32, slot: u32, change: Change)
        requires { MayFail (seat self.old).place (seat self.old).number (view self.old)
            member slot change.entry }
        ensures seat { seat self.new ≡ seat self.old }
        ensures view { view self.new ≡ after_fail member slot (view self.old) }
        ensures made { trail self.new
            ≡ step_with (runs.Kind.Fail member slot) (view self.new) ∷ trail self.old }
        ensures whole { Makes (whole self.old) (seat self.old).number
            (runs.Kind.Fail member slot) (whole self.new) (view self.new) };

    /// Takes the change of an own slot back that a look found Done or Failed. It has its home where it was Done. The
    /// home is a member; where it is the caller, the entry is certain in the own log.
    fn finish(&mut self, slot: u32) -> Change
        requires { MayFinish (seat self.old).place (seat self.old).number (view self.old) slot }
        ensures seat { seat self.new ≡ seat self.old }
        ensures seen { MatchOption result.home
            (In (loads.Slot (seat self.old).number slot words.Failed) (view self.old).looked)
            (λ home. In (loads.Slot (seat self.old).number slot (words.Done home))
            (view self.old).looked) }
        ensures home { IfSome result.home
            (IsHome (seat self.old).place (seat self.old).number (view self.old) result.entry) }
        ensures pending { (view self.old).pending result.entry.key
            ≡ Option.Some (record { entry = result.entry; slot = Option.Some slot }) }
        ensures view { MatchOption result.home
            (TidiedIn (seat self.old).place (seat self.old).number
            (after_give_up result.entry (view self.old)) (view self.new))
            (λ home. TidiedIn (seat self.old).place (seat self.old).number
            (after_finish result.entry home (view self.old)) (view self.new)) }
        ensures stood { Stood (whole self.old) (seat self.old).number slot
            (stood_as result.entry result.home) }
        ensures made { trail self.new
            ≡ step_with (runs.Kind.Finish slot) (view self.new) ∷ trail self.old }
        ensures whole { Makes (whole self.old) (seat self.old).number
            (runs.Kind.Finish slot) (whole self.new) (view self.new) };

    /// As the leader, takes an own change back that a look found Posted.
    fn withdraw(&mut self, slot: u32) -> Change
        requires { MayWithdraw (seat self.old).place (seat self.old).number (view self.old) slot }
        ensures seat { seat self.new ≡ seat self.old }
        ensures change { result.home ≡ Option.None }
        ensures pending { (view self.old).pending result.entry.key
            ≡ Option.Some (record { entry = result.entry; slot = Option.Some slot }) }
        ensures view { view self.new ≡ after_withdraw result.entry (view self.old) }
        ensures stood { Stood (whole self.old) (seat self.old).number slot
            (slots.Posted result.entry) }
        ensures made { trail self.new
            ≡ step_with (runs.Kind.Withdraw slot) (view self.new) ∷ trail self.old }
        ensures whole { Makes (whole self.old) (seat self.old).number
            (runs.Kind.Withdraw slot) (whole self.new) (view self.new) };

    /// Lets entries of the own log that were told dead vanish from now on.
    fn doom<R: Region>(&mut self, region: &R, names: &[EntryName])
        requires { MayDoom (seat self.old).place (seat self.old).number (view self.old) names.now }
        ensures seat { seat self.new ≡ seat self.old }
        ensures view { view self.new ≡ after_doom names.now (view self.old) }
        ensures at { at self.new ≡ (R.state region.now).stamp }
        ensures made { trail self.new
            ≡ step_with (runs.Kind.Doom names.now) (view self.new) ∷ trail self.old }
        ensures whole { Makes (whole self.old) (seat self.old).number
            (runs.Kind.Doom names.now) (whole self.new) (view self.new) };

    /// Records that doomed entries of the own log have vanished.
    fn retire<R: Region>(&mut self, region: &R, names: &[EntryName])
        requires { MayRetire (seat self.old).place (seat self.old).number
            (view self.old) names.now }
        ensures seat { seat self.new ≡ seat self.old }
        ensures view { TidiedIn (seat self.old).place (seat self.old).number
            (after_retire (seat self.old).place (seat self.old).number names.now (view self.old))
            (view self.new) }
        ensures at { at self.new ≡ (R.state region.now).stamp }
        ensures made { trail self.new
            ≡ step_with (runs.Kind.Retire names.now) (view self.new) ∷ trail self.old }
        ensures whole { Makes (whole self.old) (seat self.old).number
            (runs.Kind.Retire names.now) (whole self.new) (view self.new) };

    /// Tells another member of dead and of vanished entries. Exactly where the mailbox to it was full, the notices
    /// come back.
    fn send(&mut self, to: u32, notices: Notices) -> Result<(), MailFull>
        requires { MaySend (seat self.old).place (seat self.old).number (view self.old)
            to (notices_of notices) }
        ensures seat { seat self.new ≡ seat self.old }
        ensures back { IfErr result (λ full. full.notices ≡ notices) }
        ensures found { IfSome (whole self.old)
            (λ w. is_full (w.mail (seat self.old).number to) ≡ is_err result) }
        ensures view { MatchResult result
            (λ _. view self.new ≡ after_send to (notices_of notices) (view self.old))
            (λ full. view self.new
            ≡ after_find (loads.Mail (seat self.old).number to true) (view self.old)) }
        ensures made { MatchResult result
            (λ _. trail self.new
            ≡ step_with (runs.Kind.Send to (notices_of notices)) (view self.new)
            ∷ step_with (runs.Kind.LookMail (seat self.old).number to)
            (after_find (loads.Mail (seat self.old).number to false) (view self.old))
            ∷ trail self.old)
            (λ full. trail self.new ≡ step_with (runs.Kind.LookMail (seat self.old).number to)
            (view self.new) ∷ trail self.old) }
        ensures whole { MatchResult result
            (λ _. MakesBoth (whole self.old) (seat self.old).number
            (runs.Kind.LookMail (seat self.old).number to) (runs.Kind.Send to (notices_of notices))
            (whole self.new) (view self.new))
            (λ full. Makes (whole self.old) (seat self.old).number
            (runs.Kind.LookMail (seat self.old).number to) (whole self.new) (view self.new)) };

    /// Takes what another member told, and None exactly where its mailbox was empty. Of each name that is told dead
    /// the entry is in the own log; each gone one is an own key's, was told dead, and stood at the sender.
    fn receive(&mut self, from: u32) -> Option<Notices>
        requires { MayReceive (seat self.old).place (seat self.old).number from }
        ensures seat { seat self.new ≡ seat self.old }
        ensures heard { IfSome result (λ notices. IsHeard (seat self.old).place
            (seat self.old).number
            from (view self.old) (notices_of notices)) }
        ensures view { MatchOption result
            (view self.new ≡ after_find (loads.Mail from (seat self.old).number false)
            (view self.old))
            (λ notices. TidiedIn (seat self.old).place (seat self.old).number
            (after_receive (seat self.old).place (seat self.old).number
            (notices_of notices) (view self.old)) (view self.new)) }
        ensures stood { Held (whole self.old) from (seat self.old).number result }
        ensures made { MatchOption result
            (trail self.new ≡ step_with (runs.Kind.LookMail from (seat self.old).number)
            (view self.new) ∷ trail self.old)
            (λ notices. trail self.new ≡ step_with (runs.Kind.Receive from) (view self.new)
            ∷ step_with (runs.Kind.LookMail from (seat self.old).number)
            (after_find (loads.Mail from (seat self.old).number true) (view self.old))
            ∷ trail self.old) }
        ensures whole { MatchOption result
            (Makes (whole self.old) (seat self.old).number
            (runs.Kind.LookMail from (seat self.old).number) (whole self.new) (view self.new))
            (λ notices. MakesBoth (whole self.old) (seat self.old).number
            (runs.Kind.LookMail from (seat self.old).number) (runs.Kind.Receive from)
            (whole self.new) (view self.new)) };

    // Where the state is told, place and view are what it has of this member, and it is lawful.
    ghost agrees: { (s : Self) → IfSome (whole s)
        (λ w. ((seat s).place ≡ w.place) × (view s ≡ view_of w (seat s).number)) };

    ghost lawful: { (s : Self) → IfSome (whole s) (λ w. ∥ Lawful w ∥₁) };
}
