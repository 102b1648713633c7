// The laws of a cleaning: that images stay licensed, what stays between two turns, and what a caller that keeps numbers
// may rely on. A caller hands on what the calls say.
ghost use Rattle.std.specs.Prelude.{◌≡◌, ◌≢◌, ℕ, ◌≤◌, List, [], length, true, false, is_some, option_map};
ghost use Rattle.pm_region.specs.State.{State, IsTelling, cell_now, During};
ghost use Rattle.pm_region.specs.Words.{KeepsOutside};
ghost use Rattle.log_entry.specs.declared.entry.Entry.{Entry};
ghost use Rattle.log_entry.specs.declared.entry.EntryName.{EntryName};
ghost use Rattle.core_log.specs.Log.{LogState, IsOwn, tail_of, open_number};
ghost use Rattle.core_log.specs.Retiring.{RetiredChunk};
ghost use Rattle.core_log.specs.Walking.{entries_in, words_in};
ghost use Rattle.group_laws.specs.Places.{Place};
ghost use Rattle.group_laws.specs.MemberViews.{View};
ghost use Rattle.licence.specs.Licence.{Licensed, part_at, part_end};
ghost use Rattle.licence.specs.ViewChanges.{Forgets};
ghost use Rattle.licence.specs.Writes.{Begins};
ghost use Rattle.log_standing.specs.NameCounts.{StandingState, copies_at, count_of, killed, tally_without, Changes, LowersFloors};
ghost use Rattle.log_standing.specs.ChunkCounts.{IsStandingOf};
ghost use Rattle.log_cleaner.specs.declared.types.Victim.{Victim};
ghost use Rattle.log_cleaner.specs.Tallied.{KeepsTally};
ghost use Rattle.log_cleaner.specs.Additions.{is_among, Lacks, AddsEach, AppendsNew, with_open, OpensNew};
ghost use Rattle.log_cleaner.specs.Clearing.{ClearingState, IsGathered};
ghost use Rattle.log_cleaner.specs.Copying.{left_to_copy, tally_of, to_copy, IsEachOnce, IsUpToDate};
ghost use Rattle.log_cleaner.specs.CopyBatch.{IsLess, IsCopyBatch, Bounds, lowered_by};
ghost use Rattle.log_cleaner.specs.ImagesBeside.{MakesCopies, GivesUp, Vanish};
ghost use Rattle.log_cleaner.specs.Vanishing.{MayGo, NoneElse};

/// While copies are made, each image is licensed by the view, which stays; also where the call ends in a fault.
pub fn every_copying()
    ensures throughout { (s t : State) (p : Place) (m : ℕ) (v : View) (log : LogState)
        (es : List Entry)
        → Begins s p m v log → MakesCopies s t log es → During s t (Licensed p m v) }
    ensures exit { (s t : State) (p : Place) (m : ℕ) (v : View) (log : LogState) (es : List Entry)
        → Begins s p m v log → MakesCopies s t log es → IsTelling t → Licensed p m v (cell_now t) }
    ensures outside { (s t : State) (p : Place) (m : ℕ) (v : View) (log : LogState)
        (es : List Entry)
        → Begins s p m v log → MakesCopies s t log es
        → During s t (KeepsOutside (cell_now s) (part_at p m) (part_end p m)) }
{}

/// While a chunk is made Free, each image is licensed by the view, which dooms the names that vanish; also where the
/// call ends in a fault. Once it is Free, each image is licensed by the view that has forgotten them, where no chunk
/// of the part besides the log's has an entry; and that stays so.
pub fn every_clearing()
    ensures throughout { (s t : State) (p : Place) (m : ℕ) (v : View) (log : LogState) (chunk : ℕ)
        (names : List EntryName)
        → Begins s p m v log → MayGo v names → GivesUp s t log chunk names
        → During s t (Licensed p m v) }
    ensures after { (s t : State) (p : Place) (m : ℕ) (v u : View) (log new : LogState) (chunk : ℕ)
        (names : List EntryName)
        → Begins s p m v log → MayGo v names → NoneElse s log → GivesUp s t log chunk names
        → RetiredChunk t log new chunk → (IsTelling t → Vanish s t log new names)
        → Forgets names v u
        → IsTelling t → Licensed p m u (cell_now t) }
    ensures none { (s t : State) (p : Place) (m : ℕ) (v : View) (log new : LogState) (chunk : ℕ)
        (names : List EntryName)
        → Begins s p m v log → NoneElse s log → GivesUp s t log chunk names
        → RetiredChunk t log new chunk → NoneElse t new }
    ensures outside { (s t : State) (p : Place) (m : ℕ) (v : View) (log : LogState) (chunk : ℕ)
        (names : List EntryName)
        → Begins s p m v log → is_some (tail_of log.chunks chunk) ≡ true
        → GivesUp s t log chunk names
        → During s t (KeepsOutside (cell_now s) (part_at p m) (part_end p m)) }
{}

/// What stays when a lead appends entries to the open chunk and their names are added: the names that stand are the
/// log's, each other chunk has its entries, and of a chunk that lacks the names just as much is left to be copied, and
/// what was gathered of it stays so. A chunk of the log lacks each name that didn't stand in the log.
pub fn every_lead()
    ensures standing { (s t : State) (log after : LogState) (old new : StandingState)
        (es : List Entry)
        → AppendsNew s t log after old es → AddsEach old new es
        → IsTelling t → IsUpToDate s log old → IsUpToDate t after new }
    ensures chunk { (s t : State) (log after : LogState) (old new : StandingState) (es : List Entry)
        (chunk : ℕ)
        → AppendsNew s t log after old es → AddsEach old new es → IsTelling t
        → chunk ≢ open_number log → is_some (tail_of log.chunks chunk) ≡ true
        → entries_in t after chunk ≡ entries_in s log chunk }
    ensures left { (old new : StandingState) (es : List Entry) (xs : List (ℕ × Entry))
        → AddsEach old new es → Lacks xs es → left_to_copy new xs ≡ left_to_copy old xs }
    ensures gathered { (old new : StandingState) (es : List Entry) (xs : List (ℕ × Entry))
        (c : ClearingState)
        → AddsEach old new es → Lacks xs es → IsGathered old xs c → IsGathered new xs c }
    ensures lacks { (s : State) (log : LogState) (st : StandingState) (es : List Entry) (chunk : ℕ)
        → IsStandingOf s log st → ((k v : ℕ) → is_among es k v ≡ true → count_of st k v ≡ 0)
        → is_some (tail_of log.chunks chunk) ≡ true → Lacks (entries_in s log chunk) es }
{}

/// What stays when a chunk is opened, before its batch is appended: the names that stand are the log's, and each other
/// chunk has its entries. The new one is empty.
pub fn every_opening()
    ensures standing { (s t : State) (log : LogState) (st : StandingState) (chunk : ℕ)
        → OpensNew s t log st chunk → IsTelling t
        → IsUpToDate s log st → IsUpToDate t (with_open log chunk) st }
    ensures chunk { (s t : State) (log : LogState) (st : StandingState) (chunk other : ℕ)
        → OpensNew s t log st chunk → IsTelling t → is_some (tail_of log.chunks other) ≡ true
        → entries_in t (with_open log chunk) other ≡ entries_in s log other }
    ensures empty { (s t : State) (log : LogState) (st : StandingState) (chunk : ℕ)
        → OpensNew s t log st chunk → IsTelling t → words_in t (with_open log chunk) chunk ≡ [] }
    ensures own { (s t : State) (log : LogState) (st : StandingState) (chunk : ℕ)
        → OpensNew s t log st chunk → IsOwn (with_open log chunk) }
{}

/// What stays when a name is told dead: the names that stand are the log's; and where nothing of a chunk is left to be
/// copied, what was gathered of it.
pub fn every_kill()
    ensures standing { (s : State) (log : LogState) (old new : StandingState) (k v : ℕ)
        → Changes old new k v (option_map killed (copies_at old k v)) → new.settled ≡ old.settled
        → IsUpToDate s log old → IsUpToDate s log new }
    ensures gathered { (old new : StandingState) (k v : ℕ) (xs : List (ℕ × Entry))
        (c : ClearingState)
        → Changes old new k v (option_map killed (copies_at old k v))
        → left_to_copy old xs ≡ [] → IsGathered old xs c → IsGathered new xs c }
    ensures tally { (old new : StandingState) (k v : ℕ)
        → Changes old new k v (option_map killed (copies_at old k v))
        → new.tally ≡ tally_without old k v → LowersFloors old new k v
        → KeepsTally old new }
{}

/// Numbers that a caller keeps of what is left of a chunk need no further reading. They begin as `to_copy` has them,
/// and a batch lowers them by its entries and its words. So they are never less than what is left; none only where
/// none is left; and just what is left, where no two entries that were left had one name. Names told dead may make what
/// is left less than the numbers, until the chunk is counted anew.
pub fn every_tally()
    ensures begins { (s : State) (log : LogState) (st : StandingState) (chunk : ℕ) (kept : Victim)
        → kept ≡ to_copy s log st chunk → Bounds kept st (entries_in s log chunk) }
    ensures within { (s : State) (log : LogState) (old new : StandingState) (chunk n : ℕ)
        (ws : List ℕ)
        (kept : Victim)
        → IsCopyBatch s log old chunk n ws → IsLess old new (entries_in s log chunk)
        → Bounds kept old (entries_in s log chunk) → (n ≤ kept.entries) × (length ws ≤ kept.words) }
    ensures lowered { (s : State) (log : LogState) (old new : StandingState) (chunk n : ℕ)
        (ws : List ℕ)
        (kept : Victim)
        → IsCopyBatch s log old chunk n ws → IsLess old new (entries_in s log chunk)
        → Bounds kept old (entries_in s log chunk)
        → Bounds (lowered_by kept n (length ws)) new (entries_in s log chunk) }
    ensures just { (s : State) (log : LogState) (old new : StandingState) (chunk n : ℕ)
        (ws : List ℕ)
        (kept : Victim)
        → IsCopyBatch s log old chunk n ws → IsLess old new (entries_in s log chunk)
        → IsEachOnce (left_to_copy old (entries_in s log chunk))
        → kept ≡ tally_of chunk (left_to_copy old (entries_in s log chunk))
        → lowered_by kept n (length ws) ≡ tally_of chunk
        (left_to_copy new (entries_in s log chunk)) }
    ensures none { (kept : Victim) (st : StandingState) (xs : List (ℕ × Entry))
        → Bounds kept st xs → kept.entries ≡ 0 → left_to_copy st xs ≡ [] }
    ensures killed { (old new : StandingState) (k v : ℕ) (kept : Victim) (xs : List (ℕ × Entry))
        → Changes old new k v (option_map killed (copies_at old k v)) → Bounds kept old xs
        → Bounds kept new xs }
{}
