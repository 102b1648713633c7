// What a call of the program reports.
ghost use Rattle.std.specs.Prelude.{◌≡◌, ℕ, ◌<◌, [], false, IfOk, string_bytes};
ghost use Rattle.flatstore_commands.specs.Finished.{finishes_of};
ghost use Rattle.flatstore_commands.specs.Statuses.{exit_code, damage_line, fault_line, fault_status};

use crate::finishes::Finishes;
use engine_core::run_report::Refusal;
use fs_model::Memory;
use std::alloc::Global;
use store_image::Fault;

/// How a call ended.
#[derive(Clone, Copy, Debug, PartialEq, Eq)]
pub enum Status {
    /// Every request was answered, and the text was written.
    Done,
    /// The words are no form of the program.
    Usage,
    /// This line of the input, counted from 1, is the first that breaks a rule, and this is the first rule that it
    /// breaks.
    BadInput { line: u64, rule: u32 },
    /// A read of the input failed.
    SourceFault,
    /// A write of the output failed.
    SinkFault,
    /// A call of the region failed.
    RegionFault,
    /// The region has a superblock, and this chunk of this part is the first that breaks one of rules 4 to 11. Parts
    /// and their chunks are counted from 0.
    Damaged { part: u32, chunk: u32, rule: u32 },
    /// The region has no superblock: the first that is broken of rules 1 to 3.
    NotARegion { rule: u32 },
    /// No memory was to be had.
    Memory,
}

/// How a call ended, and what it reports of the requests. Requests are numbered from 0 in the order of the input.
#[derive(Drop)]
pub struct CommandReport {
    /// From it the exit status is made.
    pub status: Status,
    /// The changes that were answered `Stored` or `Deleted`.
    pub finishes: Finishes,
    /// One for each request that was refused for a cause of its own.
    pub refusals: Vec<Refusal>,
    /// Whether the region was attached in this call, or created.
    pub attached: bool,
    /// Whether the run began: the input was read and keeps its rules, and the work on its requests began, which for
    /// `run` is the split of the region. Before that no word of the region changes.
    pub began: bool,
    /// Whether the whole text was ready to be written: for `replay`, whether every request was answered, and for `scan`,
    /// whether all queries were judged, since each answer is written before the next is computed. Where not, nothing
    /// was written. `format` has no text, and says no. For `run`, which writes as it goes, it says whether every
    /// request that was begun was answered; where not, the replies of the windows before are out.
    pub complete: bool,
    /// Whether the region was found in its place. `replay` asks so once every request is answered, before a reply is
    /// written, and `run` behind each window, before its replies are. Where it was not, its file has lost its name or
    /// its length: then none of these replies was written, no request behind them was begun, and the status is
    /// `RegionFault`.
    pub in_place: bool,
}

impl CommandReport {
    /// A report of a call that answered no request.
    pub fn of(alloc: Global, status: Status, attached: bool) -> CommandReport
        ensures status { result.status ≡ status }
        ensures finishes { finishes_of result.finishes ≡ [] }
        ensures refusals { result.refusals.items ≡ [] }
        ensures attached { result.attached ≡ attached }
        ensures began { result.began ≡ false }
        ensures complete { result.complete ≡ false }
        ensures in_place { result.in_place ≡ false }
    {
        CommandReport {
            status,
            finishes: Finishes::none(alloc),
            refusals: Vec::new(alloc),
            attached,
            began: false,
            complete: false,
            in_place: false,
        }
    }
}

fn damage_text(alloc: Global, part: u32, chunk: u32, rule: u32) -> Result<String, Memory>
    ensures { IfOk result (λ text. string_bytes text ≡ damage_line part chunk rule) }
{
    let text = format!(in alloc;
        "flatstore: damaged region: part {part} chunk {chunk} rule {rule}"
    )?;
    Ok(text)
}

impl Status {
    /// The status for a region that breaks a rule.
    pub fn of_fault(fault: Fault) -> Status
        ensures { result ≡ fault_status fault }
    {
        match fault {
            Fault::NotARegion { rule } => Status::NotARegion { rule },
            Fault::Damaged { part, chunk, rule } => Status::Damaged { part, chunk, rule },
        }
    }

    /// The status with which the program exits.
    pub fn code(&self) -> u8
        ensures { result ≡ exit_code self.now }
    {
        match self {
            Status::Done => 0,
            Status::Usage => 1,
            Status::BadInput { .. } => 2,
            Status::SourceFault => 3,
            Status::SinkFault => 4,
            Status::RegionFault => 5,
            Status::Damaged { .. } => 6,
            Status::NotARegion { .. } => 7,
            Status::Memory => 8,
        }
    }

    /// The line for standard error, without a newline at its end. There is none at `Done`, and the text is empty.
    pub fn text(&self, alloc: Global) -> Result<String, Memory>
        ensures { IfOk result (λ text. string_bytes text ≡ fault_line self.now) }
    {
        let text = match self {
            Status::Done => format!(in alloc; "")?,
            Status::Usage => format!(in alloc;
                "flatstore: usage: flatstore format REGION --cores N --group N --chunks N --chunk-bytes N, replay REGION, run REGION, dump REGION, log REGION, load REGION START COUNT, scan REGION, audit REGION WORKERS"
            )?,
            Status::BadInput { line, rule } => format!(in alloc;
                "flatstore: line {line} breaks input rule {rule}"
            )?,
            Status::SourceFault => format!(in alloc; "flatstore: reading the input failed")?,
            Status::SinkFault => format!(in alloc; "flatstore: writing the output failed")?,
            Status::RegionFault => format!(in alloc; "flatstore: the region failed")?,
            Status::Damaged { part, chunk, rule } => damage_text(alloc, *part, *chunk, *rule)?,
            Status::NotARegion { rule } => format!(in alloc;
                "flatstore: not a region: rule {rule}"
            )?,
            Status::Memory => format!(in alloc; "flatstore: out of memory")?,
        };
        Ok(text)
    }
}
