// Which calls of a region in memory are to fail.
ghost use Rattle.std.specs.Prelude.{◌≡◌, ℕ, [], IfOk};
ghost use Rattle.region_memory.specs.Plans.{numbers_in, calls_to_fail, no_faults};

use crate::fault_plan::FaultPlan;
use pm_region::{AttachError, RegionFault};
use std::alloc::{AllocError, Global};

/// A fence of the whole region, which is piece 0, or of the piece `i` of a split, which is piece `i + 1`. Fences are
/// counted from 1: those of the whole region since its last attach or create, those of a piece since the split.
#[derive(Clone, Copy, Debug, PartialEq, Eq)]
pub struct FenceNumber {
    /// 0, or `i + 1`.
    pub piece: u32,
    /// From 1 on.
    pub number: u64,
}

/// What is to fail: of the calls of attach, create, split and revalidate together those with these numbers, counted
/// from 1, and these fences.
#[derive(Debug, Drop)]
pub struct Faults {
    /// In any order.
    pub opens: Vec<u64>,
    /// In any order.
    pub fences: Vec<FenceNumber>,
}

/// The calls of a region or a piece that are to fail by a plan, with the counts by which it names them.
#[derive(Drop)]
pub struct PlannedFaults {
    faults: u64,
    refusals: u64,
    opens: u64,
    fences: u64,
    plan: Faults,
    // the numbers of its own fences that are to fail
    fails: Vec<u64>,
}

impl PlannedFaults {
    ghost use Rattle.region_memory.specs.Mem.{planned_counts, planned_calls, planned};

    /// This plan, of a region that has made no call.
    pub fn new(alloc: Global, plan: Faults) -> Result<PlannedFaults, AllocError>
        ensures plan { IfOk result (λ p. planned_calls p ≡ planned plan) }
        ensures counts { IfOk result (λ p. planned_counts p ≡ no_faults) }
    {
        let fails = fences_of(alloc, &plan.fences, 0)?;
        Ok(PlannedFaults::begin_with(plan, fails, 0))
    }

    // It has made no call, and its own fences with these numbers are to fail.
    fn begin_with(plan: Faults, fails: Vec<u64>, faults: u64) -> PlannedFaults
        ensures opens { (planned_calls result).opens ≡ calls_to_fail plan.opens.items }
        ensures fences { (planned_calls result).fences ≡ calls_to_fail fails.items }
        ensures in_pieces { (planned_calls result).in_pieces ≡ plan.fences.items }
        ensures counts { planned_counts result ≡ record no_faults { faults = faults } }
    {
        PlannedFaults {
            faults,
            refusals: 0,
            opens: 0,
            fences: 0,
            plan,
            fails,
        }
    }
}

impl FaultPlan for PlannedFaults {
    ghost use Rattle.region_memory.specs.Mem.{planned_counts, planned_calls};

    ghost counts = { planned_counts };

    ghost plan = { planned_calls };

    fn faults(&self) -> u64 {
        self.faults
    }

    fn open(&mut self) -> Result<(), AttachError> {
        self.opens = self.opens.saturating_add(1);
        if self.plan.opens.contains(&self.opens) {
            self.refusals = self.refusals.saturating_add(1);
            self.faults = self.faults.saturating_add(1);
            return Err(AttachError::RegionFault);
        }
        Ok(())
    }

    fn revalidate(&mut self) -> Result<(), RegionFault> {
        self.opens = self.opens.saturating_add(1);
        if self.plan.opens.contains(&self.opens) {
            self.faults = self.faults.saturating_add(1);
            return Err(RegionFault);
        }
        Ok(())
    }

    fn fence(&mut self) -> Result<(), RegionFault> {
        self.fences = self.fences.saturating_add(1);
        if self.fails.contains(&self.fences) {
            self.faults = self.faults.saturating_add(1);
            return Err(RegionFault);
        }
        Ok(())
    }

    fn begin(&mut self) {
        self.fences = 0;
    }

    fn piece(&self, alloc: Global, number: u64) -> Result<PlannedFaults, AllocError> {
        let fails = fences_of(alloc, &self.plan.fences, number)?;
        Ok(PlannedFaults::begin_with(no_plan(alloc), fails, self.faults))
    }

    fn take(&mut self, piece: &PlannedFaults) {
        self.faults = self.faults.max(piece.faults);
    }

    fn nothing(alloc: Global) -> PlannedFaults {
        PlannedFaults::begin_with(no_plan(alloc), Vec::new(alloc), 0)
    }
}

fn no_plan(alloc: Global) -> Faults
    ensures { (result.opens.items ≡ []) × (result.fences.items ≡ []) }
{
    Faults {
        opens: Vec::new(alloc),
        fences: Vec::new(alloc),
    }
}

/// The numbers of the fences of one piece.
pub fn fences_of(alloc: Global, fences: &[FenceNumber], piece: u64) -> Result<Vec<u64>, AllocError>
    ensures { IfOk result (λ numbers. numbers.items ≡ numbers_in piece fences.now) }
{
    let mut numbers = Vec::new(alloc);
    for fence in fences {
        if u64::from(fence.piece) == piece {
            numbers.push(fence.number)?;
        }
    }
    Ok(numbers)
}
