// A region whose words are its own matter, whether it tells its contents or not.
ghost use Rattle.std.specs.Prelude.{◌≡◌, ℕ};
ghost use Rattle.pm_region.specs.State.{InRange, IsTelling};
ghost use Rattle.pm_region.specs.Words.{lasts};

use crate::region::Region;

/// A region that has a word at each address. Where it tells its contents, the word is the last value of its cell; a
/// region that tells nothing, as one in a file, still has its words.
pub trait ReadRegion: Region {
    /// The word at each address. What one beyond the range has no call reads.
    ghost word: { Self → ℕ → ℕ };

    /// The word at an address, as it was stored last.
    fn word(&self, at: u64) -> u64
        requires { InRange (Self.state self.now).frame at }
        ensures { result ≡ word self.now at };

    // Where it tells, what a load gives is that word.
    ghost tells: { (s : Self) (w : ℕ) → IsTelling (Self.state s)
        → lasts (Self.state s) w ≡ word s w };
}
