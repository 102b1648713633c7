// What the program does in its own thread: all of it but a run on threads.
ghost use Rattle.std.specs.Prelude.{◌≡◌, ◌⊎◌, ℕ, ◌≤◌, List, Some, None, true, false, OnOk, OnErr, IfOk};
ghost use Rattle.pm_region.specs.Split.{Attached};
ghost use Rattle.chunk_map.specs.declared.layouts.Geometry.{Geometry};
ghost use Rattle.flatstore_commands.specs.Ends.{AnswersNothing, CountsFaults, ReportsNothing, sink_use, source_use};
ghost use Rattle.flatstore_commands.specs.Commands.{alone_form_of, words_of};
ghost use Rattle.flatstore_commands.specs.Commands.Form.{Format, Replay, Dump, Log, Scan};
ghost use Rattle.flatstore_commands.specs.Dumps.{Dumps};
ghost use Rattle.flatstore_commands.specs.Formats.{Formats};
ghost use Rattle.flatstore_commands.specs.Logs.{Logs};
ghost use Rattle.flatstore_commands.specs.Attaching.{AttachesToRun};
ghost use Rattle.flatstore_commands.specs.Ordering.{is_of_region, is_quiet};
ghost use Rattle.flatstore_commands.specs.Promise.{IsInput, Replays};
ghost use Rattle.flatstore_commands.specs.Scans.{Scans};
ghost use Rattle.flatstore_commands.specs.declared.report.Status.TheVariants as statuses;

use crate::command::{Command, parse_command};
use crate::formatting::format_region;
use crate::playing::replay_region;
use crate::report::{CommandReport, Status};
use crate::scan_ranges::scan_region;
use crate::showing::{Showing, show_region};
use fs_text::{Sink, Source};
use pm_region::{ReadRegion, SplitRegion};
use std::alloc::Global;
use std::thread::Threads;

/// Does what the words of a command line ask, in the thread that calls it, and returns: the words of `run`, `audit`
/// and `load` count as no form. The first word is the program's name. For `format` the region is created and its superblock
/// written. For `replay` the region is attached, the input is read, its lines are run in order, each core's moves by
/// its `go` lines, and the replies are written once all are answered. For `dump` the region is attached, and its live
/// pairs are written, and for `log` the entries of its logs. For `scan` the region is attached, the input is read, and
/// its queries are answered in order, each answer written before the next is computed.
pub fn flatstore_alone<T: Threads, S: Source, O: Sink, R: SplitRegion + ReadRegion>(
    _rt: &T,
    alloc: Global,
    words: &Vec<String>,
    source: &mut S,
    sink: &mut O,
    region: &mut R,
) -> CommandReport
    requires open { S.ended source.old ≡ false }
    // The words alone decide on Usage, but for want of memory.
    ensures usage { result.status ≡ statuses.Usage
        → alone_form_of (words_of words.now.items) ≡ None }
    ensures no_form { alone_form_of (words_of words.now.items) ≡ None
        → (result.status ≡ statuses.Usage) ⊎ (result.status ≡ statuses.Memory) }

    // A region that is made is the empty one, and until then it is refused.
    ensures format { (path : List ℕ) (l : Geometry)
        → alone_form_of (words_of words.now.items) ≡ Some (Format path l)
        → Formats (R.state region.old) (R.state region.new) l result × ReportsNothing result
        × (source.new ≡ source.old) × (sink.new ≡ sink.old) }

    // What is dumped are the cells that the words recover which the region reads.
    ensures dump { (path : List ℕ) → alone_form_of (words_of words.now.items) ≡ Some (Dump path)
        → Dumps (R.state region.old) (R.state region.new) (R.found region.old) (R.word region.new)
        (sink_use O.taken O.flushed O.fault_count sink.old sink.new) result
        × ReportsNothing result × (source.new ≡ source.old) }

    // What is logged are the entries that these words spell.
    ensures log { (path : List ℕ) → alone_form_of (words_of words.now.items) ≡ Some (Log path)
        → Logs (R.state region.old) (R.state region.new) (R.found region.old) (R.word region.new)
        (sink_use O.taken O.flushed O.fault_count sink.old sink.new) result
        × ReportsNothing result × (source.new ≡ source.old) }

    // What is answered are the queries of the input, over the pairs of the cells that the words read recover.
    ensures scan { (path : List ℕ) → alone_form_of (words_of words.now.items) ≡ Some (Scan path)
        → Scans (R.state region.old) (R.state region.new) (R.found region.old) (R.word region.new)
        (source_use S.coming S.fault_count source.old source.new)
        (sink_use O.taken O.flushed O.fault_count sink.old sink.new) result
        × ReportsNothing result }

    // The headline.
    ensures attaches { (path : List ℕ) → alone_form_of (words_of words.now.items)
        ≡ Some (Replay path)
        → AttachesToRun (R.state region.old) (R.state region.new) (R.found region.old) result }
    ensures replay { (path : List ℕ) → alone_form_of (words_of words.now.items) ≡ Some (Replay path)
        → result.attached ≡ true
        → (input : List ℕ) × (cores : ℕ) × IsInput (S.coming source.old) input
        × Replays (R.state region.old) (R.state region.new) (R.found region.old)
        (source_use S.coming S.fault_count source.old source.new) cores input
        (sink_use O.taken O.flushed O.fault_count sink.old sink.new) result }

    // A fault comes only where its count rose.
    ensures faults { CountsFaults (R.state region.old) (R.state region.new)
        (source_use S.coming S.fault_count source.old source.new)
        (sink_use O.taken O.flushed O.fault_count sink.old sink.new) result.status }

    // Nothing is written where the run didn't come to its end, or the region was out of its place behind it.
    ensures incomplete { result.complete ≡ false → sink.new ≡ sink.old }
    ensures out_of_place { result.began ≡ true → result.in_place ≡ false → sink.new ≡ sink.old }
    ensures unattached { result.attached ≡ false → result.complete ≡ false }

    // A call that began no run reports none.
    ensures unbegun { result.began ≡ false → AnswersNothing result }
    ensures unattached_unbegun { result.attached ≡ false → result.began ≡ false }

    // Nothing is read before the region's rules are tested.
    ensures unread { is_of_region result.status ≡ true → source.new ≡ source.old }
    ensures unattached_unread { result.attached ≡ false → source.new ≡ source.old }

    // Nothing is lost or changed by a refusal.
    ensures sink_untouched { is_quiet result.status ≡ true → sink.new ≡ sink.old }
    ensures quiet_unbegun { is_quiet result.status ≡ true → result.began ≡ false }
    ensures no_form_untouched { alone_form_of (words_of words.now.items) ≡ None
        → (region.new ≡ region.old) × (source.new ≡ source.old) × (sink.new ≡ sink.old)
        × (result.attached ≡ false) }
    ensures region_untouched { is_quiet result.status ≡ true → result.attached ≡ true
        → Attached (R.state region.old) (R.state region.new) (R.state region.new).frame.bytes
        (R.found region.old) }
{
    let command = match parse_command(alloc, words.as_slice()) {
        Err(_) => return CommandReport::of(alloc, Status::Memory, false),
        Ok(None) => return CommandReport::of(alloc, Status::Usage, false),
        Ok(Some(command)) => command,
    };
    match command {
        Command::Format { layout, .. } => format_region(alloc, region, layout),
        Command::Replay { .. } => replay_region(alloc, source, sink, region),
        Command::Run { .. } | Command::Audit { .. } | Command::Load { .. } => {
            CommandReport::of(alloc, Status::Usage, false)
        }
        Command::Dump { .. } => show_region(alloc, sink, region, Showing::Pairs),
        Command::Log { .. } => show_region(alloc, sink, region, Showing::Entries),
        Command::Scan { .. } => scan_region(alloc, source, sink, region),
    }
}
