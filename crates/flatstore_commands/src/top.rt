// The top call: what the program does with its region, its input and its output.
ghost use Rattle.std.specs.Prelude.{◌≡◌, ◌⊎◌, ℕ, ◌≤◌, List, Some, None, true, false, OnOk, OnErr, IfOk};
ghost use Rattle.pm_region.specs.Split.{Attached};
ghost use Rattle.chunk_map.specs.declared.layouts.Geometry.{Geometry};
ghost use Rattle.flatstore_commands.specs.Ends.{AnswersNothing, CountsFaults, ReportsNothing, sink_use, source_use};
ghost use Rattle.flatstore_commands.specs.Commands.{form_of, is_load, is_run, words_of};
ghost use Rattle.flatstore_commands.specs.Commands.Form.{Format, Replay, Run, Dump, Log, Scan, Audit, Load};
ghost use Rattle.flatstore_commands.specs.Audits.{Audits};
ghost use Rattle.flatstore_commands.specs.Dumps.{Dumps};
ghost use Rattle.flatstore_commands.specs.Formats.{Formats};
ghost use Rattle.flatstore_commands.specs.Loads.{AttachesToLoad, LoadsOnThreads};
ghost use Rattle.flatstore_commands.specs.Logs.{Logs};
ghost use Rattle.flatstore_commands.specs.Attaching.{AttachesToRun, AttachesToSplit};
ghost use Rattle.flatstore_commands.specs.Ordering.{is_of_region, is_quiet};
ghost use Rattle.flatstore_commands.specs.Promise.{IsInput, Replays};
ghost use Rattle.flatstore_commands.specs.Scans.{Scans};
ghost use Rattle.flatstore_commands.specs.ThreadRuns.{RunsOnThreads};
ghost use Rattle.flatstore_commands.specs.declared.report.Status.TheVariants as statuses;

use crate::alone::flatstore_alone;
use crate::auditing::audit_region;
use crate::command::{Threaded, asked_of_threads};
use crate::loading::load_region;
use crate::report::{CommandReport, Status};
use crate::run_threads::run_region;
use core_worker::Gate;
use fs_model::Memory;
use fs_text::{Sink, Source};
use pm_region::{ReadRegion, SplitRegion};
use std::alloc::Global;
use std::sync::Wait;
use std::thread::Threads;
use std::time::Clock;
use thread_engine::watch::Watch;

/// Does what the words of a command line ask. The first word is the program's name. For `run` the region is attached,
/// the input is read, and each core of the region has a worker in a thread of its own, which answers the requests of
/// its keys, and asks the gate before it posts; behind each window of requests their replies are written in the order of
/// the requests, and the watch is told how many are answered. It may then wait for its threads. For `audit` the region is attached, the input is read, and its
/// requests are judged by shares in threads of their own. For `load` the requests are made and run as those of `run` are,
/// and the tally of their replies is written behind the run. Every other form is done in the thread that calls it
/// (`flatstore_alone`).
#[tactic(auto, using(crate::proofs::Forms::run_way, crate::proofs::Forms::audit_way, crate::proofs::Forms::no_way))]
pub fn flatstore<
    T: Threads + Wait + Clock + Sync,
    S: Source,
    O: Sink,
    R: SplitRegion + ReadRegion,
    G: Gate + Sync,
    W: Watch,
>(
    rt: &T,
    alloc: Global,
    words: &Vec<String>,
    source: &mut S,
    sink: &mut O,
    region: &mut R,
    gate: &G,
    watch: &mut W,
) -> CommandReport
    requires open { S.ended source.old ≡ false }
    // The words alone decide on Usage, but for want of memory.
    ensures usage { result.status ≡ statuses.Usage → form_of (words_of words.now.items) ≡ None }
    ensures no_form { form_of (words_of words.now.items) ≡ None → (result.status ≡ statuses.Usage)
        ⊎ (result.status ≡ statuses.Memory) }

    // A region that is made is the empty one, and until then it is refused.
    ensures format { (path : List ℕ) (l : Geometry)
        → form_of (words_of words.now.items) ≡ Some (Format path l)
        → Formats (R.state region.old) (R.state region.new) l result × ReportsNothing result
        × (source.new ≡ source.old) × (sink.new ≡ sink.old) }

    // What is dumped are the cells that the words recover which the region reads.
    ensures dump { (path : List ℕ) → form_of (words_of words.now.items) ≡ Some (Dump path)
        → Dumps (R.state region.old) (R.state region.new) (R.found region.old) (R.word region.new)
        (sink_use O.taken O.flushed O.fault_count sink.old sink.new) result
        × ReportsNothing result × (source.new ≡ source.old) }

    // What is logged are the entries that these words spell.
    ensures log { (path : List ℕ) → form_of (words_of words.now.items) ≡ Some (Log path)
        → Logs (R.state region.old) (R.state region.new) (R.found region.old) (R.word region.new)
        (sink_use O.taken O.flushed O.fault_count sink.old sink.new) result
        × ReportsNothing result × (source.new ≡ source.old) }

    // What is answered are the queries of the input, over the pairs of the cells that the words read recover.
    ensures scan { (path : List ℕ) → form_of (words_of words.now.items) ≡ Some (Scan path)
        → Scans (R.state region.old) (R.state region.new) (R.found region.old) (R.word region.new)
        (source_use S.coming S.fault_count source.old source.new)
        (sink_use O.taken O.flushed O.fault_count sink.old sink.new) result
        × ReportsNothing result }

    // The headline.
    ensures attaches { (path : List ℕ) → form_of (words_of words.now.items) ≡ Some (Replay path)
        → AttachesToRun (R.state region.old) (R.state region.new) (R.found region.old) result }
    ensures replay { (path : List ℕ) → form_of (words_of words.now.items) ≡ Some (Replay path)
        → result.attached ≡ true
        → (input : List ℕ) × (cores : ℕ) × IsInput (S.coming source.old) input
        × Replays (R.state region.old) (R.state region.new) (R.found region.old)
        (source_use S.coming S.fault_count source.old source.new) cores input
        (sink_use O.taken O.flushed O.fault_count sink.old sink.new) result }

    // The same of a run on threads, whatever the gate.
    ensures attaches_run { (path : List ℕ) → form_of (words_of words.now.items) ≡ Some (Run path)
        → AttachesToSplit (R.state region.old) (R.state region.new) (R.found region.old) result }
    ensures run { (path : List ℕ) → form_of (words_of words.now.items) ≡ Some (Run path)
        → result.attached ≡ true
        → (input : List ℕ) × (cores : ℕ) × IsInput (S.coming source.old) input
        × RunsOnThreads (R.state region.old) (R.state region.new) (R.found region.old)
        (source_use S.coming S.fault_count source.old source.new)
        (G.may_refuse gate.now) cores input
        (sink_use O.taken O.flushed O.fault_count sink.old sink.new) result }

    // The same of a load, whose requests are made, and whose replies are counted.
    ensures attaches_load { (path : List ℕ) (start count : ℕ)
        → form_of (words_of words.now.items) ≡ Some (Load path start count)
        → AttachesToLoad (R.state region.old) (R.state region.new) (R.found region.old) result }
    ensures load { (path : List ℕ) (start count : ℕ)
        → form_of (words_of words.now.items) ≡ Some (Load path start count)
        → (result.attached ≡ true
        → LoadsOnThreads (R.state region.old) (R.state region.new) (R.found region.old)
        (R.word region.new) (G.may_refuse gate.now) start count
        (sink_use O.taken O.flushed O.fault_count sink.old sink.new) result)
        × (source.new ≡ source.old) }

    // The verdict is that on the replies of the input, from the cells that the words read recover.
    ensures audit { (path : List ℕ) (workers : ℕ)
        → form_of (words_of words.now.items) ≡ Some (Audit path workers)
        → Audits (R.state region.old) (R.state region.new) (R.found region.old) (R.word region.new)
        (source_use S.coming S.fault_count source.old source.new)
        (sink_use O.taken O.flushed O.fault_count sink.old sink.new) result
        × ReportsNothing result }

    // A fault comes only where its count rose.
    ensures faults { CountsFaults (R.state region.old) (R.state region.new)
        (source_use S.coming S.fault_count source.old source.new)
        (sink_use O.taken O.flushed O.fault_count sink.old sink.new) result.status }

    // Nothing is written where the work didn't come to its end, or the region was out of its place behind it. Only `run`
    // writes as it goes: nothing where no core worked, since it did not begin, or the region could not be split.
    ensures incomplete { is_run (form_of (words_of words.now.items)) ≡ false
        → result.complete ≡ false → sink.new ≡ sink.old }
    ensures out_of_place { is_run (form_of (words_of words.now.items)) ≡ false
        → result.began ≡ true → result.in_place ≡ false → sink.new ≡ sink.old }
    ensures run_unbegun { is_run (form_of (words_of words.now.items)) ≡ true
        → result.began ≡ false → sink.new ≡ sink.old }
    ensures run_unsplit { is_run (form_of (words_of words.now.items)) ≡ true
        → result.status ≡ statuses.RegionFault → result.complete ≡ false → sink.new ≡ sink.old }
    ensures unattached { result.attached ≡ false → result.complete ≡ false }

    // A call that began no run reports none.
    ensures unbegun { result.began ≡ false → AnswersNothing result }
    ensures unattached_unbegun { result.attached ≡ false → result.began ≡ false }

    // Nothing is read before the region's rules are tested.
    ensures unread { is_of_region result.status ≡ true → source.new ≡ source.old }
    ensures unattached_unread { result.attached ≡ false → source.new ≡ source.old }

    // Nothing is lost or changed by a refusal. A load alone may find behind its run that its region breaks a rule.
    ensures sink_untouched { is_quiet result.status ≡ true → sink.new ≡ sink.old }
    ensures no_form_untouched { form_of (words_of words.now.items) ≡ None
        → (region.new ≡ region.old) × (source.new ≡ source.old) × (sink.new ≡ sink.old)
        × (result.attached ≡ false) }
    ensures quiet_unbegun { is_load (form_of (words_of words.now.items)) ≡ false
        → is_quiet result.status ≡ true → result.began ≡ false }
    ensures region_untouched { is_quiet result.status ≡ true → result.began ≡ false
        → result.attached ≡ true
        → Attached (R.state region.old) (R.state region.new) (R.state region.new).frame.bytes
        (R.found region.old) }
{
    match asked_of_threads(alloc, words) {
        Err(Memory) => CommandReport::of(alloc, Status::Memory, false),
        Ok(Some(Threaded::Run)) => run_region(rt, alloc, source, sink, region, gate, watch),
        Ok(Some(Threaded::Audit { workers })) => {
            audit_region(rt, alloc, source, sink, region, workers)
        }
        Ok(Some(Threaded::Load { size })) => load_region(
            rt, alloc, sink, region, size, gate, watch,
        ),
        Ok(None) => flatstore_alone(rt, alloc, words, source, sink, region),
    }
}
