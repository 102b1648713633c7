// What is read of a region at one moment.
ghost use Rattle.std.specs.Prelude.{◌≡◌, ℕ};
ghost use Rattle.pm_region.specs.Cell.{Cell};
ghost use Rattle.pm_region.specs.State.{Goes};
ghost use Rattle.pm_region.specs.Snapshots.{snapshot_state, IsSnapshot};

use crate::read_region::ReadRegion;
use crate::region::{Region, RegionFault};

/// The words of a region as they are at one moment, each certain, so that what is proved of a region that tells holds
/// for a region that tells nothing. It takes no memory. A store isn't kept, and it ends the telling, as flush and fence
/// do: none of them touches the region behind. Its moments are its own, and begin at 0.
#[derive(Drop)]
pub struct Snapshot<'a, R: ReadRegion> {
    region: &'a R,
    stamp: u64,
}

impl<'a, R: ReadRegion> Snapshot<'a, R> {
    /// What the region has now.
    pub fn of(region: &'a R) -> Snapshot<'a, R>
        ensures { IsSnapshot (R.state region.now) (R.word region.now) (snapshot_state
            (R.state result.region.now) (R.word result.region.now) result.stamp) }
    {
        Snapshot { region, stamp: 0 }
    }

    // One moment more, which it doesn't tell: so it is what any call leaves.
    fn pass(&mut self)
        ensures { (change : ℕ → Cell → Cell) → Goes
            (snapshot_state (R.state self.old.region.now) (R.word self.old.region.now)
            self.old.stamp)
            (snapshot_state (R.state self.new.region.now) (R.word self.new.region.now)
            self.new.stamp)
            change }
    {
        self.stamp = self.stamp.saturating_add(1);
    }
}

impl<'a, R: ReadRegion> Region for Snapshot<'a, R> {
    ghost state = { λ s. snapshot_state (R.state s.region.now) (R.word s.region.now) s.stamp };

    fn first(&self) -> u64 {
        self.region.first()
    }

    fn words(&self) -> u64 {
        self.region.words()
    }

    fn load(&self, at: u64) -> u64 {
        self.region.word(at)
    }

    fn store(&mut self, _at: u64, _value: u64) {
        self.pass();
    }

    fn flush(&mut self, _line: u64) {
        self.pass();
    }

    fn fence(&mut self) -> Result<(), RegionFault> {
        self.pass();
        Ok(())
    }

    fn stamp(&self) -> u64 {
        self.stamp
    }

    fn faults(&self) -> u64 {
        self.region.faults()
    }
}
