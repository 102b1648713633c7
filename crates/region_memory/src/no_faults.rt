// No call of a region in memory fails.
use crate::fault_plan::FaultPlan;
use pm_region::{AttachError, RegionFault};
use std::alloc::{AllocError, Global};

/// No call of a region or of a piece is to fail, so that it only counts them.
#[derive(Drop)]
pub struct NoFaults {
    opens: u64,
    fences: u64,
}

impl FaultPlan for NoFaults {
    ghost use Rattle.region_memory.specs.Plans.{no_faults};
    ghost use Rattle.region_memory.specs.Steady.{steady_calls};

    ghost counts = { λ p. no_faults };

    ghost plan = { steady_calls };

    fn faults(&self) -> u64 {
        0
    }

    fn open(&mut self) -> Result<(), AttachError> {
        self.opens = self.opens.saturating_add(1);
        Ok(())
    }

    fn revalidate(&mut self) -> Result<(), RegionFault> {
        self.opens = self.opens.saturating_add(1);
        Ok(())
    }

    fn fence(&mut self) -> Result<(), RegionFault> {
        self.fences = self.fences.saturating_add(1);
        Ok(())
    }

    fn begin(&mut self) {
        self.fences = 0;
    }

    fn piece(&self, alloc: Global, _number: u64) -> Result<NoFaults, AllocError> {
        Ok(NoFaults::nothing(alloc))
    }

    fn take(&mut self, _piece: &NoFaults) {}

    fn nothing(_alloc: Global) -> NoFaults {
        NoFaults {
            opens: 0,
            fences: 0,
        }
    }
}
