// Writing a batch into the own log.
ghost use Rattle.std.specs.Prelude.{◌≡◌, ◌∷◌, ◌≢◌, ℕ, ◌≤◌, ◌<◌, false, [], Option, OnOk, OnErr, MatchResult};
ghost use Rattle.pm_region.specs.State.{Faulted};
ghost use Rattle.core_log.specs.Chunk.{padded};
ghost use Rattle.core_log.specs.Entries.{AppendedBatch};
ghost use Rattle.group_laws.specs.Runs as runs;
ghost use Rattle.group_board.specs.Views.{after_commit};
ghost use Rattle.group_board.specs.Told.{Makes};
ghost use Rattle.group_board.specs.Trails.{step_with};
ghost use Rattle.licence.specs.Licence.{IsLogOf};
ghost use Rattle.licence.specs.Writes.{Begins};
ghost use Rattle.batch_leader.specs.Leading.{IsBatchOf, IsCertain, IsLost};
ghost use Rattle.batch_leader.specs.Persisting.{HasRoom, opened_for, StaysLicensed, IsLicensedNow, WritesPart, WritesOpenChunk};
ghost use Rattle.batch_leader.specs.Rounds.{words_taken};
ghost use Rattle.batch_leader.specs.TakenChanges.{name_in, spelled};

use crate::returning::Returning;
use crate::states::{Batch, FailedBatch, Persisted};
use core_log::CoreLog;
use group_board::Board;
use log_entry::EntryName;
use pm_region::Region;

impl Batch {
    /// Whether it was collected for a fresh chunk.
    pub fn needs_chunk(&self) -> bool
        ensures { result ≡ self.now.fresh }
    {
        self.fresh
    }

    /// The name of its entry with this number, counted from 0, and none exactly past the last one.
    pub fn name_at(&self, at: u64) -> Option<EntryName>
        ensures { result ≡ name_in self.now.changes.taken.items at }
    {
        self.changes.name_at(at)
    }

    // The changes of a batch that could not be written.
    fn lost(self) -> FailedBatch
        ensures { result.left.taken.items ≡ self.changes.taken.items }
    {
        let Batch {
            changes,
            fresh: _,
            own_lines: _,
        } = self;
        FailedBatch {
            left: Returning::all(changes),
        }
    }

    // The changes of a batch that was written.
    fn certain(self) -> Persisted
        ensures { result.left.taken.items ≡ self.changes.taken.items }
    {
        let Batch {
            changes,
            fresh: _,
            own_lines: _,
        } = self;
        Persisted {
            left: Returning::all(changes),
        }
    }

    // Appends the entries to the open chunk, and commits.
    fn append<R: Region, B: Board>(
        self,
        region: &mut R,
        log: &mut CoreLog,
        board: &mut B,
    ) -> Result<Persisted, FailedBatch>
        requires batch { IsBatchOf (B.seat board.old) (B.view board.old) self }
        requires begins { Begins (R.state region.old) (B.seat board.old).place
            (B.seat board.old).number
            (B.view board.old) log.old }
        requires room { HasRoom (R.state region.old) log.old
            (words_taken self.changes.taken.items) Option.None }
        ensures seat { B.seat board.new ≡ B.seat board.old }
        ensures moments { StaysLicensed (R.state region.old) (R.state region.new)
            (B.seat board.old) (B.view board.old) }
        ensures exit { IsLicensedNow (R.state region.new) (B.seat board.old) (B.view board.new) }
        ensures outside { WritesPart (R.state region.old) (R.state region.new) (B.seat board.old) }
        ensures chunk { WritesOpenChunk (R.state region.old) (R.state region.new) log.old }
        ensures log { IsLogOf (B.seat board.old).place (B.seat board.old).number log.new }
        ensures wrote { OnOk result (AppendedBatch (R.state region.old) (R.state region.new)
            log.old log.new (padded (spelled self.changes.taken.items))) }
        ensures view { MatchResult result
            (λ _. B.view board.new ≡ after_commit (B.view board.old))
            (λ _. B.view board.new ≡ B.view board.old) }
        ensures gives { MatchResult result
            (λ done. (done.left.taken.items ≡ self.changes.taken.items)
            × IsCertain (B.seat board.old) (B.view board.new) done.left.taken.items)
            (λ lost. (lost.left.taken.items ≡ self.changes.taken.items)
            × IsLost (B.seat board.old) (B.view board.new) lost.left.taken.items) }
        ensures made { MatchResult result
            (λ _. Makes (B.whole board.old) (B.seat board.old).number
            runs.Kind.Commit (B.whole board.new) (B.view board.new))
            (λ _. B.whole board.new ≡ B.whole board.old) }
        ensures steps { MatchResult result
            (λ _. (B.trail board.new
            ≡ step_with runs.Kind.Commit (B.view board.new) ∷ B.trail board.old)
            × (B.at board.new ≡ (R.state region.new).stamp))
            (λ _. B.trail board.new ≡ B.trail board.old) }
        ensures cause { OnErr result (Faulted (R.state region.old) (R.state region.new)) }
    {
        match log.append_batch(region, &self.changes.words) {
            Ok(_) => {
                board.commit(&*region);
                Ok(self.certain())
            }
            Err(_) => Err(self.lost()),
        }
    }

    /// Writes the taken entries into the own log, in order and as one batch, and commits. `fresh` is the number in its
    /// part of the Free chunk that is opened for the batch, where it goes into one. At every moment each image of the
    /// part is licensed by the view at entry, in which the entries are in flight; at the end by the view as it is
    /// then. It fails only where a call of the region did, and then the view is as before.
    pub fn persist<R: Region, B: Board>(
        self,
        region: &mut R,
        log: &mut CoreLog,
        board: &mut B,
        fresh: Option<u32>,
    ) -> Result<Persisted, FailedBatch>
        requires batch { IsBatchOf (B.seat board.old) (B.view board.old) self }
        requires begins { Begins (R.state region.old) (B.seat board.old).place
            (B.seat board.old).number
            (B.view board.old) log.old }
        requires room { HasRoom (R.state region.old) log.old
            (words_taken self.changes.taken.items) fresh }
        ensures seat { B.seat board.new ≡ B.seat board.old }
        ensures moments { StaysLicensed (R.state region.old) (R.state region.new)
            (B.seat board.old) (B.view board.old) }
        ensures exit { IsLicensedNow (R.state region.new) (B.seat board.old) (B.view board.new) }
        ensures outside { WritesPart (R.state region.old) (R.state region.new) (B.seat board.old) }
        // Only the chunk that the batch is for is written.
        ensures chunk { WritesOpenChunk (R.state region.old) (R.state region.new)
            (opened_for log.old fresh) }
        ensures log { IsLogOf (B.seat board.old).place (B.seat board.old).number log.new }
        // The log has the words of these entries more, and no others.
        ensures wrote { OnOk result (AppendedBatch (R.state region.old) (R.state region.new)
            (opened_for log.old fresh) log.new (padded (spelled self.changes.taken.items))) }
        ensures view { MatchResult result
            (λ _. B.view board.new ≡ after_commit (B.view board.old))
            (λ _. B.view board.new ≡ B.view board.old) }
        // All changes are to be given back.
        ensures gives { MatchResult result
            (λ done. (done.left.taken.items ≡ self.changes.taken.items)
            × IsCertain (B.seat board.old) (B.view board.new) done.left.taken.items)
            (λ lost. (lost.left.taken.items ≡ self.changes.taken.items)
            × IsLost (B.seat board.old) (B.view board.new) lost.left.taken.items) }
        ensures made { MatchResult result
            (λ _. Makes (B.whole board.old) (B.seat board.old).number
            runs.Kind.Commit (B.whole board.new) (B.view board.new))
            (λ _. B.whole board.new ≡ B.whole board.old) }
        ensures steps { MatchResult result
            (λ _. (B.trail board.new
            ≡ step_with runs.Kind.Commit (B.view board.new) ∷ B.trail board.old)
            × (B.at board.new ≡ (R.state region.new).stamp))
            (λ _. B.trail board.new ≡ B.trail board.old) }
        ensures cause { OnErr result (Faulted (R.state region.old) (R.state region.new)) }
    {
        match fresh {
            None => self.append(region, log, board),
            Some(chunk) => match log.open_chunk(region, chunk) {
                Ok(()) => self.append(region, log, board),
                Err(_) => Err(self.lost()),
            },
        }
    }
}
