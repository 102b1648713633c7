// A region in memory.
ghost use Rattle.std.specs.Prelude.{◌≡◌, ◌↔◌, ℕ, ◌+◌, ◌-◌, ◌*◌, ◌^◌, ◌≤◌, ◌<◌, List, [], true, false, length, slice_index, slice_index_or, IfOk, OnOk, OnErr, IsErrOf, IsErr};
ghost use Rattle.pm_region.specs.Cell.{fence_range, unchanged, store_at, flush_line};
ghost use Rattle.pm_region.specs.State.{State, IsTold, Goes, Faulted, InRange, LineInRange};
ghost use Rattle.pm_region.specs.Split.{words_in, AreCuts};
ghost use Rattle.region_memory.specs.Join.{AreParts};
ghost use Rattle.region_memory.specs.Plans.{NextFails, fenced_once, opened, begun, nothing_fails};
ghost use Rattle.region_memory.specs.MemoryRegions.{ArePlanned};

use crate::crash_image::{ImageError, Pick};
use crate::fault_plan::FaultPlan;
use crate::history::History;
use crate::memory_piece::MemoryPiece;
use crate::volume::Volume;
use pm_region::{
    AttachError, MOST_WORDS, ReadRegion, Region, RegionFault, SplitRegion, WORD_BYTES,
};
use std::alloc::{AllocError, Global};

/// A region in memory whose attaches, creates, splits, revalidations and fences fail by the plan `P`, if it names any.
/// It keeps its whole history, and tells each moment since the last attach, create or join up to the stamp that it was
/// given room for.
#[derive(Drop)]
pub struct MemoryRegion<P> {
    pub(crate) volume: Volume,
    pub(crate) counts: P,
}

impl<P: FaultPlan> MemoryRegion<P> {
    ghost use Rattle.region_memory.specs.MemoryRegions.{state_of, found_of, steps_of, plan_of};
    ghost use Rattle.region_memory.specs.Telling.{TellsUpTo};
    ghost use Rattle.region_memory.specs.Image.{picked};

    /// A region, not attached yet and without a plan, whose attach finds one of the images that a crash at this stamp
    /// may have left.
    pub fn image_at(
        &self,
        alloc: Global,
        stamp: u64,
        pick: Pick,
    ) -> Result<MemoryRegion<P>, ImageError>
        ensures tells { TellsUpTo (steps_of self.now) (state_of P.counts self.now) }
        ensures not_told { IsErrOf result ImageError.NotTold
            → IsTold (state_of P.counts self.now) stamp
            → ⊥ }
        ensures told { OnOk result (IsTold (state_of P.counts self.now) stamp) }
        ensures image { IfOk result
            (λ r. (w : ℕ) → w < words_in (state_of P.counts self.now).frame.bytes
            → found_of r w ≡ picked pick w ((state_of P.counts self.now).cells stamp w)) }
        ensures closed { IfOk result (λ r. (state_of P.counts r).frame.words ≡ 0) }
        ensures bytes { IfOk result (λ r. (state_of P.counts r).frame.bytes
            ≡ (state_of P.counts self.now).frame.bytes) }
        ensures steps { IfOk result (λ r. steps_of r ≡ steps_of self.now) }
        ensures plan { IfOk result (λ r. plan_of P.plan r ≡ nothing_fails) }
    {
        match self.volume.image(alloc, stamp, pick) {
            Ok(volume) => Ok(MemoryRegion {
                volume,
                counts: P::nothing(alloc),
            }),
            Err(e) => Err(e),
        }
    }
}

impl<P: FaultPlan> Region for MemoryRegion<P> {
    ghost use Rattle.region_memory.specs.MemoryRegions.{state_of, plan_of};

    ghost state = { state_of P.counts };

    fn first(&self) -> u64 {
        0
    }

    fn words(&self) -> u64 {
        self.volume.words()
    }

    fn load(&self, at: u64) -> u64 {
        self.volume.load(at)
    }

    fn store(&mut self, at: u64, value: u64)
        requires { InRange (state_of P.counts self.old).frame at }
        ensures goes { Goes (state_of P.counts self.old) (state_of P.counts self.new)
            (store_at at value) }
        ensures plan { plan_of P.plan self.new ≡ plan_of P.plan self.old }
    {
        self.volume.store(at, value);
    }

    fn flush(&mut self, line: u64)
        requires { LineInRange (state_of P.counts self.old).frame line }
        ensures goes { Goes (state_of P.counts self.old) (state_of P.counts self.new)
            (flush_line line) }
        ensures plan { plan_of P.plan self.new ≡ plan_of P.plan self.old }
    {
        self.volume.flush(line);
    }

    fn fence(&mut self) -> Result<(), RegionFault>
        ensures ok { OnOk result (Goes (state_of P.counts self.old) (state_of P.counts self.new)
            (fence_range (state_of P.counts self.old).frame.first
            (state_of P.counts self.old).frame.words)) }
        ensures err { OnErr result
            (Goes (state_of P.counts self.old) (state_of P.counts self.new) unchanged) }
        ensures cause { OnErr result
            (Faulted (state_of P.counts self.old) (state_of P.counts self.new)) }
        // It fails exactly where the plan has its number.
        ensures plan { IsErr result ↔ NextFails (plan_of P.plan self.old).fences }
        ensures count { plan_of P.plan self.new ≡ fenced_once (plan_of P.plan self.old) }
    {
        if let Err(e) = self.counts.fence() {
            self.volume.stand();
            return Err(e);
        }
        self.volume.fence();
        Ok(())
    }

    fn stamp(&self) -> u64 {
        self.volume.stamp()
    }

    fn faults(&self) -> u64 {
        self.counts.faults()
    }
}

impl<P: FaultPlan> ReadRegion for MemoryRegion<P> {
    ghost use Rattle.region_memory.specs.Reads.{word_in, history_tells};

    ghost word = { λ r. word_in r.volume.history };

    ghost tells = { λ r w telling. history_tells _ _ r.volume.history w telling };

    fn word(&self, at: u64) -> u64 {
        self.volume.word(at)
    }
}

impl<P: FaultPlan + Send> SplitRegion for MemoryRegion<P> {
    ghost use Rattle.region_memory.specs.MemoryRegions.{state_of, found_of, steps_of, plan_of, piece_state, HaveTheirPlans};
    ghost use Rattle.pm_region.specs.Cell.{MayBe};
    ghost use Rattle.pm_region.specs.State.{IsTelling, cell_now, Faulted};
    ghost use Rattle.pm_region.specs.Split.{Attached, Stays, Refuses, IsPiece, Parted, CameFrom, TakesPiece, Joined, IsOpenedOnceMore, IsNotOpened, IsRevalidated, IsOutOfPlace, IsNotRevalidated, ComesNext};

    type Piece = MemoryPiece<P>;

    ghost found = { found_of };

    fn bytes(&self) -> u64 {
        self.volume.bytes
    }

    fn attach(&mut self, alloc: Global) -> Result<(), AttachError>
        ensures ok { OnOk result (Attached (state_of P.counts self.old) (state_of P.counts self.new)
            (state_of P.counts self.new).frame.bytes (found_of self.old)) }
        ensures bytes { OnOk result (IsTelling (state_of P.counts self.new)
            → (state_of P.counts self.new).frame.bytes ≡ (state_of P.counts self.old).frame.bytes) }
        ensures err { OnErr result
            (Stays (state_of P.counts self.old) (state_of P.counts self.new)) }
        ensures cause { Refuses (state_of P.counts self.old) (state_of P.counts self.new) result }
        ensures finds { (w : ℕ) → IsTelling (state_of P.counts self.old)
            → InRange (state_of P.counts self.old).frame w
            → MayBe (cell_now (state_of P.counts self.old) w)
            (found_of self.old w) }
        ensures words { OnOk result ((w : ℕ) → InRange (state_of P.counts self.new).frame w
            → found_of self.old w < 2 ^ 64) }
        // It answers a fault exactly where the plan has its number.
        ensures plan { IsErrOf result AttachError.RegionFault
            ↔ NextFails (plan_of P.plan self.old).opens }
        ensures begun { OnOk result (plan_of P.plan self.new ≡ begun (plan_of P.plan self.old)) }
        ensures refused { OnErr result
            (plan_of P.plan self.new ≡ opened (plan_of P.plan self.old)) }
        ensures opens { IsOpenedOnceMore (state_of P.counts self.old) (state_of P.counts self.new) }
        ensures validations { IsNotRevalidated (state_of P.counts self.old)
            (state_of P.counts self.new) }
        ensures steps { steps_of self.new ≡ steps_of self.old }
    {
        self.volume.opens = self.volume.opens.saturating_add(1);
        self.counts.open()?;
        self.volume.attach(alloc)?;
        self.counts.begin();
        Ok(())
    }

    fn create(&mut self, alloc: Global, words: u64) -> Result<(), AttachError>
        requires { words ≤ MOST_WORDS }
        ensures ok { OnOk result (Attached (state_of P.counts self.old) (state_of P.counts self.new)
            (WORD_BYTES * words) (λ w. 0)) }
        ensures none { OnErr result ((state_of P.counts self.new).frame.words ≡ 0) }
        ensures cause { Refuses (state_of P.counts self.old) (state_of P.counts self.new) result }
        // It answers a fault exactly where the plan has its number.
        ensures plan { IsErrOf result AttachError.RegionFault
            ↔ NextFails (plan_of P.plan self.old).opens }
        ensures begun { OnOk result (plan_of P.plan self.new ≡ begun (plan_of P.plan self.old)) }
        ensures refused { OnErr result
            (plan_of P.plan self.new ≡ opened (plan_of P.plan self.old)) }
        ensures opens { IsOpenedOnceMore (state_of P.counts self.old) (state_of P.counts self.new) }
        ensures validations { IsNotRevalidated (state_of P.counts self.old)
            (state_of P.counts self.new) }
        ensures steps { steps_of self.new ≡ steps_of self.old }
    {
        self.volume.opens = self.volume.opens.saturating_add(1);
        self.volume.attached = false;
        self.counts.open()?;
        self.volume.create(alloc, words)?;
        self.counts.begin(); // a region that is created has made no fence
        Ok(())
    }

    fn revalidate(&mut self) -> Result<(), RegionFault>
        ensures ok { OnOk result (IsRevalidated (state_of P.counts self.old)
            (state_of P.counts self.new)) }
        ensures err { OnErr result
            (IsOutOfPlace (state_of P.counts self.old) (state_of P.counts self.new)) }
        // It fails exactly where the plan has its number.
        ensures plan { IsErr result ↔ NextFails (plan_of P.plan self.old).opens }
        ensures counts { plan_of P.plan self.new ≡ opened (plan_of P.plan self.old) }
        ensures steps { steps_of self.new ≡ steps_of self.old }
    {
        self.counts.revalidate()?;
        self.volume.validations = self.volume.validations.saturating_add(1);
        Ok(())
    }

    fn split(&mut self, alloc: Global, cuts: &[u64]) -> Result<Vec<MemoryPiece<P>>, AttachError>
        requires whole { (state_of P.counts self.old).frame.parted ≡ false }
        requires cuts { AreCuts (state_of P.counts self.old).frame.words cuts.now }
        ensures count { IfOk result (λ pieces. length pieces.items ≡ length cuts.now - 1) }
        ensures pieces { IfOk result (λ pieces. (i : ℕ) (p : _) → i < length pieces.items
            → IsPiece (state_of P.counts self.old) cuts.now i
            (piece_state P.counts (slice_index_or pieces.items i p))) }
        ensures ok { OnOk result (Parted (state_of P.counts self.old)
            (state_of P.counts self.new) cuts.now) }
        ensures err { OnErr result
            (Stays (state_of P.counts self.old) (state_of P.counts self.new)) }
        ensures cause { Refuses (state_of P.counts self.old) (state_of P.counts self.new) result }
        // It answers a fault exactly where the plan has its number.
        ensures plan { IsErrOf result AttachError.RegionFault
            ↔ NextFails (plan_of P.plan self.old).opens }
        ensures counts { plan_of P.plan self.new ≡ opened (plan_of P.plan self.old) }
        ensures handed { IfOk result
            (λ pieces. HaveTheirPlans P.plan (plan_of P.plan self.old) pieces.items) }
        ensures opens { IsNotOpened (state_of P.counts self.old) (state_of P.counts self.new) }
        ensures validations { IsNotRevalidated (state_of P.counts self.old)
            (state_of P.counts self.new) }
        ensures steps { steps_of self.new ≡ steps_of self.old }
    {
        self.counts.open()?;
        let kept = cuts.to_vec(alloc)?;
        let volume = &self.volume;
        let counts = &self.counts;
        let pieces = pieces_between(alloc, &volume.history, cuts, counts)?;
        self.volume.part(pieces.len() as u64, kept)?;
        Ok(pieces)
    }

    fn join(&mut self, pieces: Vec<MemoryPiece<P>>)
        requires parted { (state_of P.counts self.old).frame.parted ≡ true }
        requires count { length pieces.items ≡ length (state_of P.counts self.old).frame.cuts - 1 }
        requires pieces { (i : ℕ) (p : _) → i < length pieces.items
            → CameFrom (state_of P.counts self.old) i
            (piece_state P.counts (slice_index_or pieces.items i p)) }
        ensures whole { Joined (state_of P.counts self.old) (state_of P.counts self.new) }
        ensures pieces { (i : ℕ) (p : _) → i < length pieces.items
            → TakesPiece (state_of P.counts self.new)
            (piece_state P.counts (slice_index_or pieces.items i p)) }
        ensures next { ComesNext (piece_state P.counts) (state_of P.counts self.old)
            (state_of P.counts self.new)
            pieces.items }
        ensures opens { IsNotOpened (state_of P.counts self.old) (state_of P.counts self.new) }
        ensures validations { IsNotRevalidated (state_of P.counts self.old)
            (state_of P.counts self.new) }
        ensures plan { plan_of P.plan self.new ≡ plan_of P.plan self.old }
        ensures steps { steps_of self.new ≡ steps_of self.old }
    {
        take_counts(&mut self.counts, &pieces);
        self.volume.join(&pieces);
    }
}

// Takes the counts of the pieces.
fn take_counts<P: FaultPlan>(counts: &mut P, pieces: &[MemoryPiece<P>])
    ensures low { (P.counts counts.old).faults ≤ (P.counts counts.new).faults }
    ensures pieces { (i : ℕ) (p : _) → i < length pieces.now
        → (P.counts (slice_index_or pieces.now i p).counts).faults ≤ (P.counts counts.new).faults }
    ensures refusals { (P.counts counts.new).refusals ≡ (P.counts counts.old).refusals }
    ensures plan { P.plan counts.new ≡ P.plan counts.old }
{
    for piece in pieces {
        counts.take(&piece.counts);
    }
}

// The parts between the cuts, each with the fences that are to fail in it.
fn pieces_between<P: FaultPlan>(
    alloc: Global,
    history: &History,
    cuts: &[u64],
    counts: &P,
) -> Result<Vec<MemoryPiece<P>>, AllocError>
    requires zero { history.now.first ≡ 0 }
    requires cuts { AreCuts (length history.now.words.items) cuts.now }
    ensures parts { IfOk result (λ pieces. AreParts (λ p. p.history) history.now cuts.now
        pieces.items (length cuts.now - 1)) }
    ensures plan { IfOk result (λ pieces. ArePlanned P.counts P.plan counts.now pieces.items
        (length cuts.now - 1)) }
{
    let mut pieces = Vec::new(alloc);
    for i in 0..cuts.len().saturating_sub(1) {
        let history = history.part(alloc, cuts[i], cuts[i + 1])?;
        let counts = counts.piece(alloc, i as u64 + 1)?;
        pieces.push(MemoryPiece { history, counts })?;
    }
    Ok(pieces)
}
