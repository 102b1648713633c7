// The laws of an engine over several cores and groups.
ghost use Rattle.std.specs.Prelude.{◌≡◌, ◌≢◌, ℕ, ◌<◌, ◌/◌, ◌++◌, List, map, Bool, true, false, Option, None};
ghost use Rattle.std.specs.List.{AllByRecursion};
ghost use Rattle.fs_model.specs.declared.model.Request.{Request};
ghost use Rattle.fs_model.specs.declared.model.Reply.{Reply};
ghost use Rattle.fs_text.specs.declared.line.Line.{Line};
ghost use Rattle.pm_region.specs.declared.region_sizes.TheConstants.{WORD_BYTES};
ghost use Rattle.pm_region.specs.Cell.{Cell};
ghost use Rattle.pm_region.specs.State.{State, Frame, MayLeave, Faulted};
ghost use Rattle.chunk_map.specs.Layouts.{layout_of, superblock_rule};
ghost use Rattle.group_laws.specs.declared.types.Seen.{Seen};
ghost use Rattle.group_laws.specs.State.{Group};
ghost use Rattle.group_laws.specs.MemberViews.{View};
ghost use Rattle.group_laws.specs.Runs.{Kind, Runs};
ghost use Rattle.engine_laws.specs.Parts.{Groups, HasSuperblock, AllLicensed, ShowsGroups};
ghost use Rattle.engine_laws.specs.WorkerMoves.{Placed, Hands, Fixed, replied, AnswersKey, HoldsKey};
ghost use Rattle.engine_laws.specs.Beginning.{BeginsKey};
ghost use Rattle.engine_laws.specs.Engine.{Engine};
ghost use Rattle.engine_laws.specs.Moves.{Moves};
ghost use Rattle.engine_laws.specs.Causes.{Causes};
ghost use Rattle.engine_laws.specs.Stands.{Origin, Stands, StandsNow, given_to, opening};
ghost use Rattle.engine_laws.specs.Promises.{IsOrigin, HasStopped, Promised, IsDone, AnyMove, AnyTurn};
ghost use Rattle.engine_laws.specs.Ran.{Ran, asked_in};
ghost use Rattle.engine_laws.specs.Ceasing.{IsResting, Halts, AllRest, HasCeased};
ghost use Rattle.engine_laws.specs.Workers.{Sits, IsLoad};
ghost use Rattle.engine_laws.specs.Advance.{Calls, moved_to};
ghost use Rattle.engine_laws.specs.KeyLaw.{KeyView, Holds, Does, KeyIs};

/// Where each group is lawful and each part is licensed, whatever a crash leaves of the whole region is sound. It
/// recovers for each key its owner's cell, or the one that its pending change leaves.
pub fn every_region()
    ensures { (bytes : ℕ) (found : ℕ → ℕ) (f : Frame) (w : ℕ → Group) (cells : ℕ → Cell)
        (image : ℕ → ℕ) → superblock_rule bytes found ≡ None → f.first ≡ 0 → f.words
        ≡ bytes / WORD_BYTES → Groups (layout_of found) w → HasSuperblock found cells
        → AllLicensed (layout_of found) w cells → MayLeave f cells image
        → ShowsGroups bytes (layout_of found) w image }
{}

/// On a sound region whose words are certain the first state stands. A request that is given, and a move of any core,
/// lead from a state that stands to one that stands.
pub fn every_move()
    ensures opens { (o : Origin) → IsOrigin o → Stands o (opening o) }
    ensures given { (o : Origin) (e : Engine) (q : Request) → Stands o e → Stands o (given_to e q) }
    ensures moved { (o : Origin) (e f : Engine) (c : ℕ) (accepted : List (ℕ × Request))
        (fixed : List Fixed) → Stands o e → Moves e f c accepted fixed → Stands o f }
{}

/// A call of a worker, as its contract says it: what stands does so afterwards, this worker sits in the new state, and
/// so does every other one that sat in the old one.
pub fn every_call()
    ensures stands { (o : Origin) (e : Engine) (c : ℕ) (t : State) (b : Group) (v u : View)
        (w x : Hands) (takes : Bool) (accepted rest : List (ℕ × Request))
        (fixed : List Fixed)
        → Stands o e → Calls e c t b v u w x accepted rest fixed
        → Stands o (moved_to e c t b x takes rest fixed) }
    ensures sits { (o : Origin) (e : Engine) (c : ℕ) (t : State) (b : Group) (v u : View)
        (w x : Hands) (takes : Bool) (accepted rest : List (ℕ × Request))
        (fixed : List Fixed)
        → Stands o e → Calls e c t b v u w x accepted rest fixed
        → Sits (moved_to e c t b x takes rest fixed) c u x }
    ensures others { (o : Origin) (e : Engine) (c : ℕ) (t : State) (b : Group) (v u : View)
        (w x : Hands) (takes : Bool) (accepted rest : List (ℕ × Request))
        (fixed : List Fixed)
        → Stands o e → Calls e c t b v u w x accepted rest fixed
        → (d : ℕ) (v' : View) (w' : Hands) → d ≢ c → Sits e d v' w'
        → Sits (moved_to e c t b x takes rest fixed) d v' w' }
{}

/// What a call does for a key, and then begins the requests that waited for it, is done for the key by the one call.
pub fn every_beginning()
    ensures answers { (v u : View) (w y x : Hands) (k : ℕ) (accepted : List (ℕ × Request))
        (first more : List Fixed) → AnswersKey v u w y k accepted first
        → BeginsKey u y x k more → (w.stopped ≡ true → y.stopped ≡ true)
        → AnswersKey v u w x k accepted (first ++ more) }
    ensures holds { (u : View) (y x : Hands) (k : ℕ) (more : List Fixed)
        → BeginsKey u y x k more → HoldsKey u y k → HoldsKey u x k }
{}

/// Loads alone, after which the member isn't the leader, change nothing but what it loaded.
pub fn every_load()
    ensures { (m : ℕ) (w u : Group) (steps : List Kind) → AllByRecursion IsLoad steps
        → Runs w (map (λ kind. (m, kind)) steps) u → u.holds m ≡ false
        → (xs : ℕ → List Seen) × (u ≡ record w { looked = xs }) }
{}

/// A state that stands promises lawful replies, crashes that recover a prefix of each key's changes, and at the end
/// all of them.
pub fn every_state()
    ensures { (o : Origin) (e : Engine) → Stands o e → Promised o e }
{}

/// The same of one moment, however the region came there, where it is known why requests were refused and cores
/// stopped.
pub fn every_moment()
    ensures { (o : Origin) (e : Engine) → StandsNow o e → Causes o e
        → (HasStopped e → Faulted o.region e.region) → Promised o e }
{}

/// Whatever the lines and the moves: the promises hold, and the requests of the lines were given.
pub fn every_replay()
    ensures promised { (o : Origin) (cores : ℕ) (lines : List Line) (e : Engine)
        → IsOrigin o → Ran AnyMove given_to cores lines (opening o) e → Promised o e }
    ensures given { (o : Origin) (cores : ℕ) (lines : List Line) (e : Engine)
        → Ran AnyMove given_to cores lines (opening o) e → e.given ≡ asked_in lines }
{}

/// Where a turn answers that nothing moved only when its core is idle, the last pass leaves every request answered,
/// every slot empty and nothing waiting.
pub fn every_drain()
    ensures { (o : Origin) (lines : List Line) (e : Engine) → IsOrigin o
        → Ran AnyTurn given_to (layout_of o.found).cores lines (opening o) e → IsDone o e }
{}

/// A core that rests does so while a turn of another one makes loads alone; where each does, all that was posted or
/// taken is finished. Whether a core accepts the next request is no part of what stands.
pub fn every_rest()
    ensures stays { (e f : Engine) (c d : ℕ) → Halts e f c → IsResting e d → IsResting f d }
    ensures ceased { (o : Origin) (e : Engine) → Stands o e → AllRest e → HasCeased e }
    ensures takes { (o : Origin) (e : Engine) (t : ℕ → Bool) → Stands o e
        → Stands o (record e { takes = t }) }
{}

/// Of one key by itself: what a call does for it keeps where the key is.
pub fn every_key()
    ensures { (start : Option (List ℕ)) (v u : KeyView) (place place' : Option Placed)
        (stopped stopped' : Bool) (xs : List (Request × Reply)) (fixed : List Fixed)
        → KeyIs start v place stopped xs → Does v u place place' stopped stopped' fixed
        → Holds u place' stopped'
        → KeyIs start u place' stopped' (xs ++ map replied fixed) }
{}
