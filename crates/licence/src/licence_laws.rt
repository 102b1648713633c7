// The laws of licences. Each write is told in the words of the call's clauses, so a caller hands these on.
ghost use Rattle.std.specs.Prelude.{◌≡◌, ◌⊎◌, ℕ, ◌≤◌, ◌<◌, List, [], length, true};
ghost use Rattle.pm_region.specs.Cell.{Cell};
ghost use Rattle.pm_region.specs.State.{State, IsTelling, cell_now, During};
ghost use Rattle.pm_region.specs.Words.{KeepsOutside, Narrows};
ghost use Rattle.log_entry.specs.declared.entry.Entry.{Entry};
ghost use Rattle.log_entry.specs.declared.entry.EntryName.{EntryName};
ghost use Rattle.store_image.specs.Facts.{In};
ghost use Rattle.chunk_map.specs.Layouts.{has_class};
ghost use Rattle.core_log.specs.Chunk.{padded};
ghost use Rattle.core_log.specs.Log.{LogState};
ghost use Rattle.core_log.specs.Entries.{AppendedBatch};
ghost use Rattle.lazy_alloc.specs.Sets.{Sets};
ghost use Rattle.lazy_alloc.specs.Written.{WroteValue};
ghost use Rattle.group_laws.specs.declared.types.Block.{Block};
ghost use Rattle.group_laws.specs.Places.{Place, IsPlace};
ghost use Rattle.group_laws.specs.State.{Group};
ghost use Rattle.group_laws.specs.MemberViews.{View, view_of};
ghost use Rattle.group_laws.specs.Images.{IsLicensedBy, SamePart};
ghost use Rattle.group_laws.specs.Runs.{Kind, IsStep};
ghost use Rattle.log_entry.specs.declared.entry.Body.TheVariants.{Pointer};
ghost use Rattle.licence.specs.Licence.{Licensed, IsLogOf, grounded, part_at, part_end};
ghost use Rattle.licence.specs.ViewChanges.{AllowsAll, Commits, TakesEntry, Forgets, GainsBlock, IsQuiet, HaveVanished};
ghost use Rattle.licence.specs.Writes.{Begins, IsSpelled, Appends, Opens, Frees, MaySpare, IsUnused, WritesBlock};

/// While what is in flight is appended as one batch, each image is licensed by the view at the beginning, also
/// where the call ends in a fault. Once it is appended, each image is licensed by the view after the commit.
pub fn every_batch()
    ensures throughout { (s t : State) (p : Place) (m : ℕ) (v : View) (log : LogState) (ws : List ℕ)
        → Begins s p m v log → IsSpelled log v.flying ws → Appends s t log ws
        → During s t (Licensed p m v) }
    ensures after { (s t : State) (p : Place) (m : ℕ) (v u : View) (log after : LogState)
        (ws : List ℕ)
        → Begins s p m v log → IsSpelled log v.flying ws → Appends s t log ws
        → AppendedBatch s t log after (padded ws) → Commits v u
        → IsTelling t → Licensed p m u (cell_now t) }
    ensures outside { (s t : State) (p : Place) (m : ℕ) (v : View) (log : LogState) (ws : List ℕ)
        → Begins s p m v log → IsSpelled log v.flying ws → Appends s t log ws
        → During s t (KeepsOutside (cell_now s) (part_at p m) (part_end p m)) }
{}

/// The same of copies of entries that are certain: the view stays.
pub fn every_copy()
    ensures throughout { (s t : State) (p : Place) (m : ℕ) (v : View) (log : LogState)
        (es : List Entry) (ws : List ℕ)
        → Begins s p m v log → IsSpelled log es ws → Appends s t log ws
        → ((e : Entry) → In e es → In e v.kept) → During s t (Licensed p m v) }
    ensures outside { (s t : State) (p : Place) (m : ℕ) (v : View) (log : LogState)
        (es : List Entry) (ws : List ℕ)
        → Begins s p m v log → IsSpelled log es ws → Appends s t log ws
        → During s t (KeepsOutside (cell_now s) (part_at p m) (part_end p m)) }
{}

/// While a chunk is opened, each image stays licensed.
pub fn every_opened_chunk()
    ensures throughout { (s t : State) (p : Place) (m : ℕ) (v : View) (log : LogState) (chunk : ℕ)
        → Begins s p m v log → Opens s t log chunk → During s t (Licensed p m v) }
    ensures outside { (s t : State) (p : Place) (m : ℕ) (v : View) (log : LogState) (chunk : ℕ)
        → Begins s p m v log → Opens s t log chunk
        → During s t (KeepsOutside (cell_now s) (part_at p m) (part_end p m)) }
{}

/// While a chunk is made Free, of which each entry may vanish or has another copy, each image stays licensed. Once
/// names stand nowhere, the view may forget them.
pub fn every_freed_chunk()
    ensures throughout { (s t : State) (p : Place) (m : ℕ) (v : View) (log : LogState) (chunk : ℕ)
        → Begins s p m v log → MaySpare s v log chunk → Frees s t log chunk
        → During s t (Licensed p m v) }
    ensures outside { (s t : State) (p : Place) (m : ℕ) (v : View) (log : LogState) (chunk : ℕ)
        → Begins s p m v log → Frees s t log chunk
        → During s t (KeepsOutside (cell_now s) (part_at p m) (part_end p m)) }
    ensures after { (s : State) (p : Place) (m : ℕ) (v u : View) (log : LogState)
        (names : List EntryName)
        → IsLogOf p m log → HaveVanished s log names → Forgets names v u → IsTelling s
        → Licensed p m v (cell_now s) → Licensed p m u (cell_now s) }
{}

/// While a value is written to a block that the view has no value in, each image stays licensed, also where the call
/// ends in a fault. Once it is written, the view may have the block.
pub fn every_block()
    ensures throughout { (s t : State) (p : Place) (m : ℕ) (v : View) (a : Sets) (at class : ℕ)
        → IsUnused s p m v a at class → WritesBlock s t a at class → During s t (Licensed p m v) }
    ensures outside { (s t : State) (p : Place) (m : ℕ) (v : View) (a : Sets) (at class : ℕ)
        → IsUnused s p m v a at class → WritesBlock s t a at class
        → During s t (KeepsOutside (cell_now s) (part_at p m) (part_end p m)) }
    ensures after { (s t : State) (p : Place) (m : ℕ) (v u : View) (a after : Sets) (at class : ℕ)
        (b : Block)
        → IsUnused s p m v a at class → WritesBlock s t a at class
        → has_class (length b.bytes) class ≡ true → WroteValue t a after at class b.bytes
        → GainsBlock at b v u → IsTelling t → Licensed p m u (cell_now t) }
{}

/// A step of another kind needs no write: what licensed by the view before licenses by the view after. What is in
/// flight is in no image until it is appended, so a take leaves the licence of what is certain alone.
pub fn every_view()
    ensures step { (w : Group) (m : ℕ) (kind : Kind) (u : Group)
        → IsStep w m kind u → IsQuiet (view_of w m) kind → AllowsAll (view_of w m) (view_of u m) }
    ensures keeps { (p : Place) (m : ℕ) (v u : View) (cells : ℕ → Cell)
        → AllowsAll v u → Licensed p m v cells → Licensed p m u cells }
    ensures takes { (p : Place) (m : ℕ) (v u : View) (e : Entry) (cells : ℕ → Cell)
        → TakesEntry e v u → Licensed p m (grounded v) cells → Licensed p m (grounded u) cells }
    ensures flies { (p : Place) (m : ℕ) (v : View) (cells : ℕ → Cell)
        → Licensed p m (grounded v) cells → Licensed p m v cells }
    ensures lands { (p : Place) (m : ℕ) (v : View) (cells : ℕ → Cell)
        → v.flying ≡ [] → Licensed p m v cells → Licensed p m (grounded v) cells }
{}

/// The steps that do say something new, in the words in which the laws above ask for them.
pub fn every_change()
    ensures take { (w : Group) (m a slot : ℕ) (u : Group) → IsStep w m (Kind.Take a slot) u
        → (e : Entry) × TakesEntry e (view_of w m) (view_of u m) }
    ensures commit { (w : Group) (m : ℕ) (u : Group) → IsStep w m Kind.Commit u
        → Commits (view_of w m) (view_of u m) }
    ensures retire { (w : Group) (m : ℕ) (names : List EntryName) (u : Group)
        → IsStep w m (Kind.Retire names) u → Forgets names (view_of w m) (view_of u m) }
    ensures post { (w : Group) (m slot : ℕ) (e : Entry) (value : List ℕ) (u : Group) (at : ℕ)
        → IsStep w m (Kind.Post slot e value) u → e.body ≡ Pointer at
        → GainsBlock at (record { key = e.key; bytes = value }) (view_of w m) (view_of u m) }
{}

/// Words outside the part don't matter: neither those of an image, nor what is written there. And where a crash may
/// leave no more than before, a licence stays.
pub fn every_part()
    ensures image { (p : Place) (m : ℕ) (v : View) (i j : ℕ → ℕ)
        → IsPlace p → SamePart p m i j → IsLicensedBy p m v j → IsLicensedBy p m v i }
    ensures narrows { (p : Place) (m : ℕ) (v : View) (old : ℕ → Cell) (new : ℕ → Cell)
        → ((w : ℕ) → part_at p m ≤ w → w < part_end p m → Narrows (old w) (new w))
        → Licensed p m v old → Licensed p m v new }
    ensures elsewhere { (s t : State) (p : Place) (m : ℕ) (v : View) (from end : ℕ)
        → (IsTelling s → Licensed p m v (cell_now s))
        → (end ≤ part_at p m) ⊎ (part_end p m ≤ from)
        → During s t (KeepsOutside (cell_now s) from end) → During s t (Licensed p m v) }
{}
