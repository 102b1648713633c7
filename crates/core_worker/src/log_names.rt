// The names of a core's own log: which are told dead, and what it makes of notices.
ghost use Rattle.std.specs.Prelude.{◌≡◌, ℕ, ◌+◌, ◌<◌, ◌≤◌, List, Option, Some, length};
ghost use Rattle.std.specs.List.{flat_map, AllByRecursion};
ghost use Rattle.pm_region.specs.State.{State, IsTelling, During, cell_now};
ghost use Rattle.pm_region.specs.Words.{KeepsOutside};
ghost use Rattle.chunk_map.specs.Layouts.{chunk_words};
ghost use Rattle.log_entry.specs.Spelling.{words_of};
ghost use Rattle.log_entry.specs.Batches.{IsBatch};
ghost use Rattle.core_log.specs.Chunk.{padded};
ghost use Rattle.core_log.specs.Entries.{AppendedBatch};
ghost use Rattle.core_log.specs.Log.{LogState, StandsIn, open_first};
ghost use Rattle.log_standing.specs.NameCounts.{count_of, StandingState};
ghost use Rattle.log_standing.specs.ChunkCounts.{IsStandingOf};
ghost use Rattle.group_board.specs.Assurances.{LacksName, IsHeard};
ghost use Rattle.batch_leader.specs.Leading.{AreNamedApart};
ghost use Rattle.batch_leader.specs.Persisting.{opened_for};
ghost use Rattle.core_worker.specs.StandingTies.{IsNamedIn, AddsNames};
ghost use Rattle.core_worker.specs.Counted.{MayOpen};
ghost use Rattle.log_entry.specs.declared.entry.Entry.{Entry};
ghost use Rattle.log_entry.specs.declared.entry.EntryName.{EntryName};
ghost use Rattle.group_laws.specs.declared.group_sizes.TheConstants.{SLOTS};
ghost use Rattle.group_laws.specs.State as laws;
ghost use Rattle.group_laws.specs.Places as groups;
ghost use Rattle.group_laws.specs.MemberViews.{View};
ghost use Rattle.group_board.specs.Mailing.{notices_of};
ghost use Rattle.group_board.specs.Views.{after_receive, after_retire, TidiedIn};
ghost use Rattle.core_index.specs.Index.{all_untold};
ghost use Rattle.core_index.specs.Slots as slots;
ghost use Rattle.log_cleaner.specs.Clearing.{ClearingState};
ghost use Rattle.core_worker.specs.declared.types.Place.{Place as WorkerPlace};
ghost use Rattle.core_worker.specs.GoneNames.{KnowsAll};
ghost use Rattle.core_worker.specs.LogNames.{KnowsBy, KillsNames, HearsNotices, LosesChunk, AreOwnOf};

use crate::gone_names::lose_names;
use crate::hearing::hear_own;
use crate::types::Place;
use core_index::CoreIndex;
use group_board::Notices;
use log_entry::EntryName;
use log_standing::Standing;

// Tells names of the own log dead.
fn kill_names(standing: &mut Standing, names: &[EntryName])
    ensures { KillsNames names.now standing.old standing.new }
{
    for name in names {
        standing.kill(*name);
    }
}

// Takes in what another member told: which entries of the own log are dead, and which of the own keys are gone.
pub(crate) fn hear_notices(
    index: &mut CoreIndex,
    standing: &mut Standing,
    places: &mut Vec<Place>,
    core: u32,
    notices: &Notices,
)
    requires eight { length places.old.items ≡ SLOTS }
    ensures hears { HearsNotices core (notices_of notices.now) places.old.items places.new.items
        index.old index.new standing.old standing.new }
    ensures count { length standing.new.entries ≡ length standing.old.entries }
    ensures untold { all_untold index.new ≤ all_untold index.old }
{
    kill_names(standing, notices.dead.names());
    lose_names(index, places, notices.gone.names());
    hear_own(index, standing, core);
}

/// What a core keeps of its keys and of its log's names where it is told of dead and gone entries, and where a chunk of
/// its log is given up.
pub fn every_hearing()
    ensures receives { (p : groups.Place) (m from : ℕ) (n : laws.Notices) (v u : View)
        (ps qs : List WorkerPlace) (es ix : List (ℕ × slots.Place)) (old new : StandingState)
        → KnowsAll p m v ps es → KnowsBy m v old → IsHeard p m from v n
        → TidiedIn p m (after_receive p m n v) u
        → HearsNotices (groups.core_of p m) n ps qs es ix old new
        → KnowsAll p m u qs ix × KnowsBy m u new }
    ensures retires { (p : groups.Place) (m : ℕ) (chunk : List (ℕ × Entry)) (c : ClearingState)
        (own : List EntryName) (v u : View)
        (ps qs : List WorkerPlace) (es ix : List (ℕ × slots.Place)) (old new : StandingState)
        → KnowsAll p m v ps es → KnowsBy m v old → AreOwnOf p m c.doomed own
        → TidiedIn p m (after_retire p m c.doomed v) u
        → LosesChunk (groups.core_of p m) chunk c own ps qs es ix old new
        → KnowsAll p m u qs ix × KnowsBy m u new }
{}

/// Where a batch of entries whose names no certain entry has, each once, is appended to the open chunk or to a fresh
/// one, and its names are added, the names that stand are the log's again.
pub fn every_batch()
    ensures { (s t : State) (log after : LogState) (fresh : Option ℕ) (es kept : List Entry)
        (old new : StandingState) → StandsIn s log → MayOpen log fresh → IsBatch es
        → AppendedBatch s t (opened_for log fresh) after (padded (flat_map words_of es))
        → During s t (KeepsOutside (cell_now s) (open_first (opened_for log fresh))
        (open_first (opened_for log fresh) + chunk_words log.layout))
        → IsStandingOf s log old → ((k n : ℕ) → 0 < count_of old k n → IsNamedIn kept k n)
        → AllByRecursion (LacksName kept) es → AreNamedApart es → AddsNames old new es
        → IsTelling s → IsTelling t → IsStandingOf t after new }
{}
