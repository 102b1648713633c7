// Dead names of own keys that stand in other members' logs, while they wait to be sent.
ghost use Rattle.std.specs.Prelude.{◌≡◌, ◌≢◌, ℕ, ◌<◌, true, List, ◌∷◌, Option};
ghost use Rattle.log_entry.specs.declared.entry.EntryName.{EntryName};
ghost use Rattle.core_index.specs.Index.{known_at, Tells};
ghost use Rattle.core_index.specs.Records.{KeyRecord};
ghost use Rattle.core_index.specs.Slots as slots;
ghost use Rattle.group_laws.specs.Places as groups;
ghost use Rattle.group_laws.specs.State as laws;
ghost use Rattle.group_laws.specs.Updates.{has};
ghost use Rattle.group_laws.specs.MemberViews.{View};
ghost use Rattle.group_board.specs.Conditions.{MaySend};
ghost use Rattle.group_board.specs.Views.{after_send};
ghost use Rattle.core_worker.specs.KeyTies.{KnowsKey};
ghost use Rattle.core_worker.specs.Outbox.{mailing, AreToSend, Parts};

/// What a core keeps of its keys while names wait to be sent: a name more is taken, and some are sent.
pub fn every_mail()
    ensures notes { (p : groups.Place) (to : ℕ) (v : View) (all : List EntryName)
        (es ix : List (ℕ × slots.Place)) (name : EntryName)
        → Tells es ix (groups.core_of p to) name
        → (k : ℕ) → KnowsKey p (mailing all v) k (known_at es k)
        → KnowsKey p (mailing (name ∷ all) v) k (known_at ix k) }
    ensures waits { (p : groups.Place) (m to : ℕ) (v : View) (all ns : List EntryName)
        (es ix : List (ℕ × slots.Place)) (name : EntryName)
        → Tells es ix (groups.core_of p to) name
        → KnowsKey p (mailing all v) name.key (known_at es name.key)
        → groups.owner p name.key ≡ m → AreToSend p m to v ns → AreToSend p m to v (name ∷ ns) }
    ensures may { (p : groups.Place) (m to : ℕ) (v : View) (n : laws.Notices)
        → m < groups.members p → to < groups.members p → to ≢ m → AreToSend p m to v n.dead
        → ((k i : ℕ) → has n.gone k i ≡ true → (v.leaving k i ≡ true) × (groups.owner p k ≡ to))
        → MaySend p m v to n }
    ensures sends { (p : groups.Place) (to : ℕ) (v : View) (n : laws.Notices)
        (all rest : List EntryName) → Parts all n.dead rest → (k : ℕ) (o : Option KeyRecord)
        → KnowsKey p (mailing all v) k o → KnowsKey p (mailing rest (after_send to n v)) k o }
    ensures others { (p : groups.Place) (m to other : ℕ) (v : View) (n : laws.Notices)
        (ns : List EntryName) → to ≢ other → AreToSend p m to v n.dead
        → AreToSend p m other v ns → AreToSend p m other (after_send to n v) ns }
{}
