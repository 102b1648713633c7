// A piece of a region in memory.
ghost use Rattle.std.specs.Prelude.{◌≡◌, ◌↔◌, ℕ, ◌+◌, ◌≤◌, ◌<◌, OnOk, OnErr, IsErr};
ghost use Rattle.pm_region.specs.Cell.{fence_range, unchanged, store_at, flush_line};
ghost use Rattle.pm_region.specs.State.{Goes, Faulted, InRange, LineInRange};
ghost use Rattle.region_memory.specs.Plans.{NextFails, one_more};

use crate::fault_plan::FaultPlan;
use crate::history::History;
use pm_region::{ReadRegion, Region, RegionFault};

/// A piece of a region in memory, whose fences fail by a plan.
#[derive(Drop)]
pub struct MemoryPiece<P> {
    pub(crate) history: History,
    pub(crate) counts: P,
}

impl<P: FaultPlan> Region for MemoryPiece<P> {
    ghost use Rattle.region_memory.specs.MemoryRegions.{piece_state, piece_plan};

    ghost state = { piece_state P.counts };

    fn first(&self) -> u64 {
        self.history.first
    }

    fn words(&self) -> u64 {
        self.history.len()
    }

    fn load(&self, at: u64) -> u64 {
        self.history.load(at)
    }

    fn store(&mut self, at: u64, value: u64)
        requires { InRange (piece_state P.counts self.old).frame at }
        ensures goes { Goes (piece_state P.counts self.old) (piece_state P.counts self.new)
            (store_at at value) }
        ensures plan { piece_plan P.plan self.new ≡ piece_plan P.plan self.old }
    {
        self.history.store(at, value);
    }

    fn flush(&mut self, line: u64)
        requires { LineInRange (piece_state P.counts self.old).frame line }
        ensures goes { Goes (piece_state P.counts self.old) (piece_state P.counts self.new)
            (flush_line line) }
        ensures plan { piece_plan P.plan self.new ≡ piece_plan P.plan self.old }
    {
        self.history.flush(line);
    }

    fn fence(&mut self) -> Result<(), RegionFault>
        ensures ok { OnOk result (Goes (piece_state P.counts self.old)
            (piece_state P.counts self.new)
            (fence_range (piece_state P.counts self.old).frame.first
            (piece_state P.counts self.old).frame.words)) }
        ensures err { OnErr result
            (Goes (piece_state P.counts self.old) (piece_state P.counts self.new)
            unchanged) }
        ensures cause { OnErr result
            (Faulted (piece_state P.counts self.old) (piece_state P.counts self.new)) }
        // It fails exactly where the plan has its number.
        ensures plan { IsErr result ↔ NextFails (piece_plan P.plan self.old) }
        ensures count { piece_plan P.plan self.new ≡ one_more (piece_plan P.plan self.old) }
    {
        if let Err(e) = self.counts.fence() {
            self.history.stand();
            return Err(e);
        }
        let first = self.history.first;
        let words = self.history.len();
        self.history.fence(first, words);
        Ok(())
    }

    fn stamp(&self) -> u64 {
        self.history.journal.stamp
    }

    fn faults(&self) -> u64 {
        self.counts.faults()
    }
}

impl<P: FaultPlan> ReadRegion for MemoryPiece<P> {
    ghost use Rattle.region_memory.specs.Reads.{word_in, history_tells};

    ghost word = { λ p. word_in p.history };

    ghost tells = { λ p w telling. history_tells _ _ p.history w telling };

    fn word(&self, at: u64) -> u64 {
        self.history.word(at)
    }
}
