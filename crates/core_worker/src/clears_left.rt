// What is left to do of cleaning falls with each of its turns.
ghost use Rattle.std.specs.Prelude.{◌≡◌, ℕ, ◌+◌, ◌*◌, ◌≤◌, ◌<◌, Bool, true, false, List, length};
ghost use Rattle.log_standing.specs.NameCounts.{StandingState};
ghost use Rattle.log_cleaner.specs.declared.types.Victim.{Victim};
ghost use Rattle.core_index.specs.Index.{all_untold};
ghost use Rattle.core_index.specs.Slots as slots;
ghost use Rattle.group_board.specs.declared.names.Notices.{Notices as ToSend};
ghost use Rattle.group_laws.specs.State.{Notices};
ghost use Rattle.core_worker.specs.declared.types.Cleaning.{Cleaning};
ghost use Rattle.core_worker.specs.declared.types.Cleaning.TheVariants.{Nothing, Copying, Doomed};
ghost use Rattle.core_worker.specs.CleaningLeft.{cleaning_most, most_words, name_left, own_left, notices_left, box_left, clears_left};

/// The turns of a cleaning lower what is left to do; a commit, a finished change and an accepted request raise it, by no
/// more than so much.
pub fn every_lowering()
    ensures begins { (st : StandingState) (es : List (ℕ × slots.Place))
        (out : List ToSend) (v : Victim) → v.entries ≤ most_words
        → clears_left false (Copying v true) st es out < clears_left true Nothing st es out }
    ensures copies { (a b first : Bool) (st now : StandingState)
        (es : List (ℕ × slots.Place)) (out : List ToSend) (v left : Victim) (n : ℕ)
        → 0 < n → left.entries + n ≡ v.entries → length now.entries ≡ length st.entries
        → clears_left a (Copying left b) now es out
        < clears_left a (Copying v first) st es out }
    ensures dooms { (a first : Bool) (st : StandingState)
        (es : List (ℕ × slots.Place)) (out : List ToSend) (v : Victim) (j : ℕ)
        → clears_left a (Doomed j) st es out < clears_left a (Copying v first) st es out }
    ensures clears { (a : Bool) (st now : StandingState)
        (es ix : List (ℕ × slots.Place)) (out after : List ToSend) (j gone : ℕ)
        → length now.entries + gone ≤ length st.entries → all_untold ix ≤ all_untold es
        → box_left after ≤ box_left out + gone
        → clears_left a Nothing now ix after < clears_left a (Doomed j) st es out }
    ensures takes { (a : Bool) (c : Cleaning) (st : StandingState)
        (es ix : List (ℕ × slots.Place)) (out after : List ToSend)
        → all_untold ix + 1 ≡ all_untold es → box_left after ≡ box_left out + 1
        → clears_left a c st ix after < clears_left a c st es out }
    ensures sends { (a : Bool) (c : Cleaning) (st : StandingState)
        (es : List (ℕ × slots.Place)) (out after : List ToSend) (n : Notices) (mail mail' : ℕ)
        → 0 < notices_left n → box_left after + notices_left n ≡ box_left out
        → mail' ≡ mail + (1 + notices_left n)
        → clears_left a c st es after + mail' < clears_left a c st es out + mail }
    ensures receives { (a : Bool) (c : Cleaning) (st now : StandingState)
        (es ix : List (ℕ × slots.Place)) (out : List ToSend) (n : Notices) (mail mail' : ℕ)
        → length now.entries ≡ length st.entries
        → all_untold ix ≤ all_untold es → mail' + (1 + notices_left n) ≡ mail
        → clears_left a c now ix out + mail' < clears_left a c st es out + mail }
    ensures commits { (a : Bool) (c : Cleaning) (st now : StandingState)
        (es : List (ℕ × slots.Place)) (out : List ToSend) (n : ℕ)
        → length now.entries ≤ length st.entries + n
        → clears_left a c now es out ≤ clears_left a c st es out + name_left * n }
    ensures finishes { (a : Bool) (c : Cleaning) (st : StandingState)
        (es ix : List (ℕ × slots.Place)) (out : List ToSend)
        → all_untold ix ≤ all_untold es + 1
        → clears_left a c st ix out ≤ clears_left a c st es out + own_left }
    ensures accepts { (a : Bool) (c : Cleaning) (st : StandingState)
        (es : List (ℕ × slots.Place)) (out : List ToSend)
        → clears_left true c st es out ≤ clears_left a c st es out + cleaning_most }
{}
