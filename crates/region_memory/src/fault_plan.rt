// Which calls of a region in memory fail, and how many have.
ghost use Rattle.std.specs.Prelude.{◌≡◌, ◌↔◌, ℕ, ◌+◌, ◌≤◌, Err, IfOk, OnOk, OnErr, IsErr};
ghost use Rattle.pm_region.specs.State.{Rose};
ghost use Rattle.region_memory.specs.Plans.{FaultCounts, Plan, NextFails, opened, fenced_once, restarted, fences_in, nothing_fails, no_faults};

use pm_region::{AttachError, RegionFault};
use std::alloc::{AllocError, Global};

/// The calls of a region or of a piece that are to fail, and how many were made and failed.
pub trait FaultPlan: Drop {
    /// How many have failed.
    ghost counts: { Self → FaultCounts };

    /// How many were made, and which are to fail.
    ghost plan: { Self → Plan };

    /// How many calls have failed.
    fn faults(&self) -> u64
        ensures { result ≡ (counts self.now).faults };

    /// Counts an attach, create or split, which fails by the plan.
    fn open(&mut self) -> Result<(), AttachError>
        ensures fault { OnErr result ((result ≡ Err AttachError.RegionFault)
            × Rose (counts self.old).faults (counts self.new).faults
            × Rose (counts self.old).refusals (counts self.new).refusals) }
        ensures later { ((counts self.old).faults ≤ (counts self.new).faults)
            × ((counts self.old).refusals ≤ (counts self.new).refusals) }
        ensures ok { OnOk result (counts self.new ≡ counts self.old) }
        ensures plan { IsErr result ↔ NextFails (plan self.old).opens }
        ensures counted { plan self.new ≡ opened (plan self.old) };

    /// Counts a revalidation, which fails by the plan. One that failed is no refused call.
    fn revalidate(&mut self) -> Result<(), RegionFault>
        ensures fault { OnErr result (Rose (counts self.old).faults (counts self.new).faults) }
        ensures ok { OnOk result (counts self.new ≡ counts self.old) }
        ensures refusals { (counts self.new).refusals ≡ (counts self.old).refusals }
        ensures plan { IsErr result ↔ NextFails (plan self.old).opens }
        ensures counted { plan self.new ≡ opened (plan self.old) };

    /// Counts a fence, which fails by the plan.
    fn fence(&mut self) -> Result<(), RegionFault>
        ensures fault { OnErr result (Rose (counts self.old).faults (counts self.new).faults) }
        ensures later { (counts self.old).faults ≤ (counts self.new).faults }
        ensures ok { OnOk result (counts self.new ≡ counts self.old) }
        ensures refusals { (counts self.new).refusals ≡ (counts self.old).refusals }
        ensures plan { IsErr result ↔ NextFails (plan self.old).fences }
        ensures counted { plan self.new ≡ fenced_once (plan self.old) };

    /// From here on its fences are counted anew.
    fn begin(&mut self)
        ensures plan { plan self.new ≡ restarted (plan self.old) }
        ensures counts { counts self.new ≡ counts self.old };

    /// The plan of a piece of a split, by its number, from 1 on.
    fn piece(&self, alloc: Global, number: u64) -> Result<Self, AllocError>
        ensures plan { IfOk result (λ p. (plan p).fences ≡ fences_in (plan self.now) number) }
        ensures faults { IfOk result (λ p. (counts p).faults ≡ (counts self.now).faults) };

    /// Takes the count of a piece that is joined.
    fn take(&mut self, piece: &Self)
        ensures own { (counts self.old).faults ≤ (counts self.new).faults }
        ensures piece { (counts piece.now).faults ≤ (counts self.new).faults }
        ensures refusals { (counts self.new).refusals ≡ (counts self.old).refusals }
        ensures plan { plan self.new ≡ plan self.old };

    /// No call was made, and none is to fail.
    fn nothing(alloc: Global) -> Self
        ensures plan { plan result ≡ nothing_fails }
        ensures counts { counts result ≡ no_faults };
}
