// A replay: the input is read, and its lines are run by the engine.
ghost use Rattle.std.specs.Prelude.{◌≡◌, ◌⊎◌, ℕ, ◌≤◌, List, Some, None, true, false, OnErr, IfOk, IfErr};
ghost use Rattle.pm_region.specs.Cell.{certain};
ghost use Rattle.pm_region.specs.Words.{lasts};
ghost use Rattle.pm_region.specs.Split.{words_in};
ghost use Rattle.engine_core.specs.RunStarts.{StandsAsFound};
ghost use Rattle.fs_text.specs.Bounds.{IsWithin};
ghost use Rattle.flatstore_commands.specs.Attaching.{Asks};
ghost use Rattle.flatstore_commands.specs.Finished.{finishes_of};
ghost use Rattle.flatstore_commands.specs.Ends.{sink_use, source_use};
ghost use Rattle.flatstore_commands.specs.Reads.{IsRead, IsUnread, unread_as};
ghost use Rattle.flatstore_commands.specs.Played.{StandsWhole, IsReady, Played, IsUnserved, IsRefused, HasWrittenReplies, HasAnswered, is_ended, ended_as};
ghost use Rattle.flatstore_commands.specs.Ordering.{is_of_region};

use crate::finishes::Finishes;
use crate::report::{CommandReport, Status};
use core_worker::Worker;
use engine_core::run_outcome::{End, Outcome};
use engine_core::run_report::Refusal;
use fs_text::{Input, InputError, OutError, Sink, Source, read_input, write_replies};
use group_engine::replaying;
use pm_region::{ReadRegion, RegionFault, SplitRegion};
use recover::{RecoverError, Recovered, recover_read};
use std::alloc::Global;
use std::mem::forget;

/// The status for an input that was not read.
pub fn unread(error: InputError) -> Status
    ensures { result ≡ unread_as error }
{
    match error {
        InputError::BadInput { line, rule } => Status::BadInput { line, rule },
        InputError::SourceFault => Status::SourceFault,
        InputError::Memory => Status::Memory,
    }
}

/// Reads the input to its end, and gives its lines, to a region of so many cores.
fn read<S: Source>(alloc: Global, source: &mut S, cores: u32) -> Result<Input, Status>
    requires open { S.ended source.old ≡ false }
    ensures ok { IfOk result (IsRead (source_use S.coming S.fault_count source.old source.new)
        cores) }
    ensures within { IfOk result (λ input. IsWithin cores input) }
    ensures err { IfErr result (IsUnread (source_use S.coming S.fault_count source.old source.new)
        cores) }
{
    match read_input(alloc, source, cores) {
        Ok(input) => Ok(input),
        Err(error) => Err(unread(error)),
    }
}

/// What the words of an attached region say, where it is sound.
pub fn recovered<R: SplitRegion + ReadRegion>(
    alloc: Global,
    region: &R,
) -> Result<Recovered, Status>
    requires whole { StandsWhole (R.state region.now) }
    ensures ok { IfOk result (StandsAsFound (R.state region.now) (R.word region.now)) }
    ensures err { IfErr result (IsUnserved (R.state region.now)) }
{
    match recover_read(alloc, region, region.bytes()) {
        Err(RecoverError::Fault(fault)) => Err(Status::of_fault(fault)),
        Err(RecoverError::Memory) => Err(Status::Memory),
        Ok(recovered) => Ok(recovered),
    }
}

/// What a run of lines begins with, on a region that was attached: what its words say, and the lines of the input for
/// its cores.
pub fn prepared<S: Source, R: SplitRegion + ReadRegion>(
    alloc: Global,
    source: &mut S,
    region: &R,
) -> Result<(Recovered, Input), Status>
    requires open { S.ended source.old ≡ false }
    requires whole { StandsWhole (R.state region.now) }
    ensures ready { IfOk result (λ x. IsReady (R.state region.now) (R.word region.now)
        (source_use S.coming S.fault_count source.old source.new) x.0 x.1) }
    ensures refused { IfErr result (IsRefused (R.state region.now)
        (source_use S.coming S.fault_count source.old source.new)) }
    // A region that breaks a rule goes before the source.
    ensures unread { IfErr result (λ status. is_of_region status ≡ true → source.new ≡ source.old) }
{
    let recovered = match recovered(alloc, region) {
        Ok(recovered) => recovered,
        Err(status) => return Err(status),
    };
    match read(alloc, source, recovered.layout.cores()) {
        Err(status) => Err(status),
        Ok(input) => Ok((recovered, input)),
    }
}

/// Leaves to the system what workers hold, behind a call that the program ends with: to give the values of a million keys
/// back one by one would take a twentieth of its time.
pub fn leave(workers: Vec<Worker>) {
    forget(workers);
}

/// Reads the input and runs its lines, on a region that was attached. Where it answers a status, the region is as it
/// was. The workers come with the outcome, as they stand.
pub fn replay<S: Source, R: SplitRegion + ReadRegion>(
    alloc: Global,
    source: &mut S,
    region: &mut R,
) -> Result<(Outcome, Vec<Worker>), Status>
    requires open { S.ended source.old ≡ false }
    requires whole { StandsWhole (R.state region.old) }
    ensures played { IfOk result (λ x. Played (R.state region.old) (R.word region.old)
        (R.state region.new)
        (source_use S.coming S.fault_count source.old source.new) x.0) }
    ensures refused { IfErr result (IsRefused (R.state region.old)
        (source_use S.coming S.fault_count source.old source.new)) }
    ensures untouched { OnErr result (region.new ≡ region.old) }
    // A region that breaks a rule goes before the source.
    ensures unread { IfErr result (λ status. is_of_region status ≡ true → source.new ≡ source.old) }
{
    match prepared(alloc, source, region) {
        Err(status) => Err(status),
        Ok((recovered, input)) => Ok(replaying::replay(alloc, region, recovered, input)),
    }
}

/// Whether a run came to its end.
pub fn is_ended(end: End) -> bool
    ensures { result ≡ is_ended end }
{
    match end {
        End::Complete | End::RegionFault => true,
        End::Memory => false,
    }
}

/// The status of a run by its end, once its text went out or a write failed.
pub fn status_of(end: End, sunk: bool) -> Status
    ensures { result ≡ ended_as end sunk }
{
    match end {
        End::Memory => Status::Memory,
        End::RegionFault => Status::RegionFault,
        End::Complete => {
            if sunk {
                Status::SinkFault
            } else {
                Status::Done
            }
        }
    }
}

// Writes the replies of a run that came to its end.
fn write_text<O: Sink>(alloc: Global, sink: &mut O, outcome: &Outcome) -> Status
    requires { is_ended outcome.now.end ≡ true }
    ensures { HasWrittenReplies outcome.now
        (sink_use O.taken O.flushed O.fault_count sink.old sink.new) result }
{
    match write_replies(alloc, sink, outcome.replies.as_slice()) {
        Err(OutError::Memory) => Status::Memory,
        Err(OutError::SinkFault) => status_of(outcome.end, true),
        Ok(()) => status_of(outcome.end, false),
    }
}

/// The report on a run that began, with these finishes and refusals.
pub fn report_on(
    finishes: Finishes,
    refusals: Vec<Refusal>,
    end: End,
    status: Status,
    in_place: bool,
) -> CommandReport
    ensures status { result.status ≡ status }
    ensures finishes { result.finishes ≡ finishes }
    ensures refusals { result.refusals.items ≡ refusals.items }
    ensures attached { result.attached ≡ true }
    ensures began { result.began ≡ true }
    ensures complete { result.complete ≡ is_ended end }
    ensures in_place { result.in_place ≡ in_place }
{
    CommandReport {
        status,
        complete: is_ended(end),
        finishes,
        refusals,
        attached: true,
        began: true,
        in_place,
    }
}

// The report on a replay that began.
fn replay_report(outcome: Outcome, status: Status, in_place: bool) -> CommandReport
    ensures status { result.status ≡ status }
    ensures finishes { finishes_of result.finishes ≡ outcome.finishes.items }
    ensures refusals { result.refusals.items ≡ outcome.refusals.items }
    ensures attached { result.attached ≡ true }
    ensures began { result.began ≡ true }
    ensures complete { result.complete ≡ is_ended outcome.end }
    ensures in_place { result.in_place ≡ in_place }
{
    let finishes = Finishes::Each(outcome.finishes);
    report_on(finishes, outcome.refusals, outcome.end, status, in_place)
}

/// Asks the region whether it is still in its place, where every request was answered, and writes the replies only if
/// it is: what stands in a region that has lost its place, nobody finds. Reports in any case.
pub fn write_outcome<O: Sink, R: SplitRegion>(
    alloc: Global,
    sink: &mut O,
    region: &mut R,
    outcome: Outcome,
) -> CommandReport
    ensures finishes { finishes_of result.finishes ≡ outcome.finishes.items }
    ensures refusals { result.refusals.items ≡ outcome.refusals.items }
    ensures attached { result.attached ≡ true }
    ensures began { result.began ≡ true }
    ensures complete { result.complete ≡ is_ended outcome.end }
    ensures asked { result.in_place ≡ true → result.complete ≡ true }
    ensures asks { Asks result.complete result.in_place (R.state region.old) (R.state region.new) }
    ensures answered { HasAnswered outcome
        (sink_use O.taken O.flushed O.fault_count sink.old sink.new) result.in_place result.status }
    ensures untouched { result.in_place ≡ false → sink.new ≡ sink.old }
{
    if !is_ended(outcome.end) {
        return replay_report(outcome, Status::Memory, false);
    }
    match region.revalidate() {
        Err(RegionFault) => replay_report(outcome, Status::RegionFault, false),
        Ok(()) => {
            let status = write_text(alloc, sink, &outcome);
            replay_report(outcome, status, true)
        }
    }
}
