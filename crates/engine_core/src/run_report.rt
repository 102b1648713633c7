// The replies of a replay and the report on them, made of the answers by number.
ghost use Rattle.std.specs.Prelude.{◌≡◌, ℕ, ◌+◌, ◌<◌, ◌≤◌, [], ◌∷◌, ◌++◌, length, vec_len, vec_capacity, IfOk, OnOk};
ghost use Rattle.fs_model.specs.declared.model.Reply.TheVariants as replies;
ghost use Rattle.fs_model.specs.Lawful.{is_finish};
ghost use Rattle.engine_core.specs.Reports.{listed, IsReport, Adds, IsBlank, HasRoomFor, HasRoom, Fills, FillsAll, finish_of, refusal_of};

use crate::types::Stamped;
use core_room::Shortage;
use fs_model::{Memory, Reply};
use std::alloc::Global;

/// A change that was answered `Stored` or `Deleted`.
#[derive(Clone, Copy, Debug, PartialEq, Eq)]
pub struct Finish {
    /// The number of the request, from 0.
    pub request: u64,
    /// The region's stamp after the move that fixed the answer.
    pub stamp: u64,
}

/// A request that was refused for a cause of its own.
#[derive(Clone, Copy, Debug, PartialEq, Eq)]
pub struct Refusal {
    /// The number of the request, from 0.
    pub request: u64,
    /// The cause, with the numbers of its core at that moment.
    pub why: Shortage,
}

/// The replies in the order of the requests, and the finishes and refusals among them, by rising number. A request
/// without an answer is replied to as one that is stopped.
#[derive(Drop)]
pub struct Report {
    /// One for each request.
    pub replies: Vec<Reply>,
    /// The requests that were answered Stored or Deleted.
    pub finishes: Vec<Finish>,
    /// The requests that were answered Full, VersionsSpent or TooLong, with the cause.
    pub refusals: Vec<Refusal>,
}

/// Whether a change was made: the reply is Stored or Deleted.
pub fn is_finish(reply: &Reply) -> bool
    ensures { result ≡ is_finish reply.now }
{
    match reply {
        Reply::Stored => true,
        Reply::Deleted => true,
        _ => false,
    }
}

// Notes a finish, where the reply is one.
fn note_finish(finishes: &mut Vec<Finish>, request: u64, answer: &Stamped)
    requires room { vec_len finishes.old < vec_capacity finishes.old }
    ensures notes { finishes.new.items
        ≡ finishes.old.items ++ finish_of request answer.now.reply answer.now.stamp }
    ensures fills { Fills finishes.old finishes.new }
{
    if is_finish(&answer.reply) {
        finishes.push_reserved(Finish {
            request,
            stamp: answer.stamp,
        });
    }
}

/// Notes a refusal, where there is a cause, for which there is room.
pub fn note_refusal(refusals: &mut Vec<Refusal>, request: u64, cause: Option<Shortage>)
    requires room { vec_len refusals.old < vec_capacity refusals.old }
    ensures notes { refusals.new.items ≡ refusals.old.items ++ refusal_of request cause }
    ensures fills { Fills refusals.old refusals.new }
{
    if let Some(why) = cause {
        refusals.push_reserved(Refusal { request, why });
    }
}

impl Report {
    /// A report on nothing. It takes no memory.
    pub fn new(alloc: Global) -> Report
        ensures { IsBlank result }
    {
        Report {
            replies: Vec::new(alloc),
            finishes: Vec::new(alloc),
            refusals: Vec::new(alloc),
        }
    }

    /// Makes room for so many answers in a report on nothing. What room there is stays.
    pub fn reserve(&mut self, count: usize) -> Result<(), Memory>
        requires blank { IsBlank self.old }
        ensures blank { IsBlank self.new }
        ensures room { OnOk result (HasRoomFor count self.new) }
        ensures kept { (n : ℕ) → HasRoomFor n self.old → HasRoomFor n self.new }
    {
        self.replies.reserve(count)?;
        self.finishes.reserve(count)?;
        self.refusals.reserve(count)?;
        Ok(())
    }

    // The next request's answer.
    fn add(&mut self, answer: Option<Stamped>)
        requires room { HasRoom self.old }
        ensures adds { Adds self.old self.new answer }
        ensures fills { FillsAll self.old self.new }
    {
        match answer {
            None => self.replies.push_reserved(Reply::Stopped),
            Some(answer) => {
                let request = self.replies.len() as u64;
                note_finish(&mut self.finishes, request, &answer);
                note_refusal(&mut self.refusals, request, answer.refusal);
                self.replies.push_reserved(answer.reply);
            }
        }
    }
}

/// The report on answers that are kept by number, for which there is room. It takes no memory.
pub fn report_on(answers: Vec<Option<Stamped>>, mut report: Report) -> Report
    requires blank { IsBlank report }
    requires room { HasRoomFor (length answers.items) report }
    ensures { IsReport answers.items (listed result) }
{
    for answer in answers {
        report.add(answer);
    }
    report
}
