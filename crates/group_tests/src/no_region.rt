// A region of one line that keeps nothing, for tests of boards that write nothing.
ghost use Rattle.group_tests.specs.NoRegions.{no_state};

use pm_region::{Region, RegionFault};

/// It tells nothing, and stays as it is.
pub(crate) struct NoRegion;

impl Region for NoRegion {
    ghost state = { λ _. no_state };

    fn first(&self) -> u64 {
        0
    }

    fn words(&self) -> u64 {
        8
    }

    fn load(&self, _at: u64) -> u64 {
        0
    }

    fn store(&mut self, _at: u64, _value: u64) {}

    fn flush(&mut self, _line: u64) {}

    fn fence(&mut self) -> Result<(), RegionFault> {
        Ok(())
    }

    fn stamp(&self) -> u64 {
        u64::MAX
    }

    fn faults(&self) -> u64 {
        0
    }
}
