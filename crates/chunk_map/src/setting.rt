// The head of a chunk is set.
ghost use Rattle.std.specs.Prelude.{◌≡◌, ◌⊎◌, ℕ, ◌+◌, ◌*◌, ◌/◌, ◌%◌, ◌^◌, ◌≤◌, ◌<◌, Result, OnOk, OnErr};
ghost use Rattle.pm_region.specs.Cell.{Cell, MayBe};
ghost use Rattle.pm_region.specs.State.{State, Frame, During, IsTelling, cell_now, Faulted};
ghost use Rattle.pm_region.specs.Words.{KeepsOutside, EachIn, Surely, Sets};
ghost use Rattle.chunk_map.specs.declared.layouts.Geometry.{Geometry};
ghost use Rattle.chunk_map.specs.Checked.{FitsHead};
ghost use Rattle.chunk_map.specs.Setting.{HeadLies, HasKind, HasTail, HeadTurns, SurelyHead, HasHead, HasEitherHead};

use crate::heads::Head;
use crate::layout_sizes::{CLASS_FACTOR, DATA_KIND, FREE_KIND, LOG_KIND};
use crate::words::set_word;
use pm_region::{LINE_WORDS, Region, RegionFault};

// Makes the kind word certain, and stores no other word.
fn set_kind<R: Region>(region: &mut R, at: u64, kind: u64) -> Result<(), RegionFault>
    requires { HeadLies (R.state region.old).frame at }
    ensures moments { During (R.state region.old) (R.state region.new)
        (EachIn at (at + 2) (HasKind (cell_now (R.state region.old)) at kind)) }
    ensures outside { During (R.state region.old) (R.state region.new)
        (KeepsOutside (cell_now (R.state region.old)) at (at + LINE_WORDS)) }
    ensures ok { OnOk result (IsTelling (R.state region.new)
        → Surely (cell_now (R.state region.new) at) kind) }
    ensures cause { OnErr result (Faulted (R.state region.old) (R.state region.new)) }
{
    set_word(region, at, kind)
}

// Makes the tail word certain and then the kind word.
fn set_log<R: Region>(region: &mut R, at: u64, tail: u64) -> Result<(), RegionFault>
    requires { HeadLies (R.state region.old).frame at }
    ensures moments { During (R.state region.old) (R.state region.new)
        (EachIn at (at + 2) (HasTail (cell_now (R.state region.old)) at tail)) }
    ensures outside { During (R.state region.old) (R.state region.new)
        (KeepsOutside (cell_now (R.state region.old)) at (at + LINE_WORDS)) }
    ensures ok { OnOk result (IsTelling (R.state region.new)
        → Surely (cell_now (R.state region.new) at) LOG_KIND
        × Surely (cell_now (R.state region.new) (at + 1)) tail) }
    ensures cause { OnErr result (Faulted (R.state region.old) (R.state region.new)) }
{
    set_word(region, at + 1, tail)?;
    set_word(region, at, LOG_KIND)
}

/// Makes the head of a chunk certain. The address is a word number of the region. A Log's tail word is
/// certain before its kind word is stored, by two fences; else the kind word alone is stored, by one.
pub fn set_head<R: Region>(region: &mut R, at: u64, head: Head) -> Result<(), RegionFault>
    requires { HeadLies (R.state region.old).frame at }
    // At each moment the head is the old one or the new one.
    ensures moments { During (R.state region.old) (R.state region.new)
        (EachIn at (at + 2) (HeadTurns (cell_now (R.state region.old)) at head)) }
    // The same of heads as they are read: where the head was one for sure, it is that one or the new one.
    ensures heads { (l : Geometry) (before : Result Head ℕ) → FitsHead l head
        → (IsTelling (R.state region.old) → EachIn at (at + 2) (HasHead l at before)
        (cell_now (R.state region.old)))
        → During (R.state region.old) (R.state region.new)
        (EachIn at (at + 2) (HasEitherHead l at before head)) }
    // No word outside the head's first line is stored or flushed.
    ensures outside { During (R.state region.old) (R.state region.new)
        (KeepsOutside (cell_now (R.state region.old)) at (at + LINE_WORDS)) }
    ensures ok { OnOk result (IsTelling (R.state region.new)
        → SurelyHead (cell_now (R.state region.new)) at head) }
    ensures cause { OnErr result (Faulted (R.state region.old) (R.state region.new)) }
{
    match head {
        Head::Free => set_kind(region, at, FREE_KIND),
        Head::Log { tail } => set_log(region, at, tail),
        Head::Data { class } => set_kind(region, at, DATA_KIND + CLASS_FACTOR * class as u64),
    }
}
