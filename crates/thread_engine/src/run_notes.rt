// What is kept of the answers of a run once their replies were handed on.
ghost use Rattle.std.specs.Prelude.{◌≡◌, ℕ, ◌+◌, ◌++◌, List, [], ◌∷◌, Option, length, IfOk};
ghost use Rattle.engine_core.specs.declared.types.Stamped as stamped;
ghost use Rattle.thread_engine.specs.Noted.{IsNoted, NotesOne, HasNoteRoom, cause_in, is_finished};
ghost use Rattle.thread_engine.specs.Collected.{blanks};

use core_room::Shortage;
use engine_core::run_report::{Refusal, is_finish, note_refusal};
use engine_core::types::Stamped;
use fs_model::Memory;
use std::alloc::Global;

/// What is kept of the answers to a run's first requests once their replies were handed on.
#[derive(Drop)]
pub struct RunNotes {
    /// One for each of these requests: whether it was answered Stored or Deleted.
    pub finished: Vec<bool>,
    /// The requests that were answered Full, VersionsSpent or TooLong, with the cause, by rising number.
    pub refusals: Vec<Refusal>,
}

fn is_finished(answer: &Option<Stamped>) -> bool
    ensures { result ≡ is_finished answer.now }
{
    match answer {
        None => false,
        Some(answer) => is_finish(&answer.reply),
    }
}

fn cause_of(answer: &Option<Stamped>) -> Option<Shortage>
    ensures { result ≡ cause_in answer.now }
{
    match answer {
        None => None,
        Some(answer) => answer.refusal,
    }
}

impl RunNotes {
    /// Of no request, with room for so many.
    pub fn with_room(alloc: Global, count: usize) -> Result<RunNotes, Memory>
        ensures blank { IfOk result (IsNoted []) }
        ensures room { IfOk result (HasNoteRoom count) }
    {
        let finished = Vec::with_capacity(alloc, count)?;
        let refusals = Vec::with_capacity(alloc, count)?;
        Ok(RunNotes { finished, refusals })
    }

    // The next request's answer.
    fn note(&mut self, answer: &Option<Stamped>)
        requires room { HasNoteRoom 1 self.old }
        ensures notes { NotesOne answer.now self.old self.new }
    {
        let request = self.finished.len() as u64;
        self.finished.push_reserved(is_finished(answer));
        note_refusal(&mut self.refusals, request, cause_of(answer));
    }

    /// Notes the answers to the next requests, for which there is room.
    pub fn note_all(&mut self, answers: &[Option<Stamped>])
        requires room { HasNoteRoom (length answers.now) self.old }
        ensures notes { (ks : List (Option stamped.Stamped)) → IsNoted ks self.old
            → IsNoted (ks ++ answers.now) self.new }
        ensures room { (n : ℕ) → HasNoteRoom (length answers.now + n) self.old
            → HasNoteRoom n self.new }
    {
        for answer in answers {
            self.note(answer);
        }
    }

    /// Notes that the next requests, so many, have no answer. There is room for them.
    pub fn note_none(&mut self, count: u64)
        requires room { HasNoteRoom count self.old }
        ensures notes { (ks : List (Option stamped.Stamped)) → IsNoted ks self.old
            → IsNoted (ks ++ blanks count) self.new }
    {
        for _ in 0..count {
            self.note(&None);
        }
    }
}
