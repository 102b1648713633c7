// The answers that a run keeps: those of the window at work, and the notes of all before it.
ghost use Rattle.std.specs.Prelude.{◌≡◌, [], None, length, IfOk};
ghost use Rattle.answer_queue.specs.declared.window_sizes.TheConstants.{WINDOW};
ghost use Rattle.thread_engine.specs.Collected.{AreBlank, IsWindow};
ghost use Rattle.thread_engine.specs.Desks.{IsCleared};
ghost use Rattle.thread_engine.specs.Noted.{IsNoted, HasNoteRoom};

use crate::desk::Desk;
use crate::run_notes::RunNotes;
use answer_queue::WINDOW;
use engine_core::types::Stamped;
use fs_model::Memory;
use std::alloc::Global;

/// What a run keeps of its answers.
#[derive(Drop)]
pub struct RunAnswers {
    /// Through which the cores hand over the answers of one window after another.
    pub desk: Desk,
    /// A place for the answer of each request of a window, by its number from the window's first on.
    pub window: Vec<Option<Stamped>>,
    /// Of the windows before.
    pub notes: RunNotes,
}

// A place for each answer of a window.
fn new_window(alloc: Global) -> Result<Vec<Option<Stamped>>, Memory>
    ensures { IfOk result (λ window. IsWindow window.items) }
{
    let mut window = Vec::with_capacity(alloc, WINDOW)?;
    for _ in 0..WINDOW {
        window.push_reserved(None);
    }
    Ok(window)
}

impl RunAnswers {
    /// No answer yet, with room for the notes of so many requests.
    pub fn with_room(alloc: Global, count: usize) -> Result<RunAnswers, Memory>
        ensures cleared { IfOk result (λ x. IsCleared x.desk) }
        ensures window { IfOk result (λ x. IsWindow x.window.items) }
        ensures blank { IfOk result (λ x. IsNoted [] x.notes) }
        ensures room { IfOk result (λ x. HasNoteRoom count x.notes) }
    {
        let desk = Desk::open(alloc)?;
        let window = new_window(alloc)?;
        let notes = RunNotes::with_room(alloc, count)?;
        Ok(RunAnswers {
            desk,
            window,
            notes,
        })
    }
}

// Takes away what is kept at a place.
fn clear_place(place: &mut Option<Stamped>)
    ensures { place.new ≡ None }
{
    *place = None;
}

/// Takes away the answers of a window.
pub fn clear_window(window: &mut Vec<Option<Stamped>>)
    ensures blank { AreBlank window.new.items }
    ensures count { length window.new.items ≡ length window.old.items }
{
    for at in 0..window.len() {
        clear_place(&mut window[at]);
    }
}
