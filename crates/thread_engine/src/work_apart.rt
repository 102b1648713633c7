// The jobs of all cores: they are made, done, and taken apart again.
ghost use Rattle.std.specs.Prelude.{◌≡◌, ◌≤◌, [], length, vec_capacity};
ghost use Rattle.thread_engine.specs.Collected.{IsWindow};
ghost use Rattle.thread_engine.specs.Desks.{IsCleared};
ghost use Rattle.thread_engine.specs.Noted.{IsNoted, HasNoteRoom};
ghost use Rattle.thread_engine.specs.Outlets.{IsAsked};
ghost use Rattle.thread_engine.specs.Windows.{InWindows};
ghost use Rattle.thread_engine.specs.Returns.{IsCrew, HasRoomOf, Gave, AreMade, AllAtRest, AllWent};

use crate::core_job::CoreJob;
use crate::crew::{Crew, Returned};
use crate::group_leads::AllLeads;
use crate::outlet::Outlet;
use crate::requests::Requests;
use crate::run_answers::RunAnswers;
use crate::windows::{Course, work_windows};
use atomic_board::{CoreSeat, GroupTable};
use core_worker::Gate;
use pm_region::{Region, SplitRegion};
use std::alloc::Global;
use std::collections::VecDeque;
use std::sync::Wait;
use std::thread::Threads;
use std::time::Clock;

// A job for each core, at its group's table, with no request.
fn make_jobs<'a, P: Region + Drop>(
    alloc: Global,
    tables: &'a Vec<GroupTable>,
    group: u32,
    pieces: Vec<P>,
    crew: Crew,
    mut jobs: Vec<CoreJob<CoreSeat<'a>, P>>,
) -> Vec<CoreJob<CoreSeat<'a>, P>>
    requires crew { IsCrew tables.now.items group (length pieces.items) crew }
    requires room { (jobs.items ≡ []) × (length pieces.items ≤ vec_capacity jobs) }
    ensures { AreMade pieces.items crew result.items }
{
    let Crew { tokens, workers } = crew;
    let mut tokens = VecDeque::from_vec(tokens);
    let mut workers = VecDeque::from_vec(workers);
    for piece in pieces {
        let core = jobs.len();
        let Some(token) = tokens.pop_front() else {
            unreachable!()
        };
        let Some(worker) = workers.pop_front() else {
            unreachable!()
        };
        let seat = tables[core / group as usize].attend(token);
        jobs.push_reserved(CoreJob {
            seat,
            piece,
            worker,
            queue: VecDeque::new(alloc),
            pass: None,
        });
    }
    jobs
}

// Takes the jobs apart. The seats leave their tables.
fn take_apart<P: Region + Drop>(
    jobs: Vec<CoreJob<CoreSeat<'_>, P>>,
    mut room: Returned<P>,
) -> Returned<P>
    requires { HasRoomOf (length jobs.items) room }
    ensures { Gave jobs.entry.items result }
{
    for job in jobs {
        let CoreJob {
            seat,
            piece,
            worker,
            queue: _,
            pass: _,
        } = job;
        room.pieces.push_reserved(piece);
        room.tokens.push_reserved(seat.leave());
        room.workers.push_reserved(worker);
    }
    room
}

/// Lets all cores work on their pieces, each in a thread of its own, until all requests are answered, window by window,
/// notes the answers, and hands those of each window to the outlet. Gives back what the cores have then, and how the
/// windows came to an end.
pub fn work_apart<
    'a,
    T: Threads + Wait + Clock + Sync,
    R: SplitRegion,
    O: Outlet,
    P: Region + Drop + Send,
    G: Gate + Sync,
    Q: Requests,
>(
    rt: &T,
    alloc: Global,
    region: &mut R,
    outlet: &mut O,
    tables: &'a Vec<GroupTable>,
    group: u32,
    pieces: Vec<P>,
    crew: Crew,
    jobs: Vec<CoreJob<CoreSeat<'a>, P>>,
    room: Returned<P>,
    requests: &mut Q,
    gate: &G,
    leads: &AllLeads,
    answers: &mut RunAnswers,
) -> (Returned<P>, Course)
    requires crew { IsCrew tables.now.items group (length pieces.items) crew }
    requires rest { AllAtRest P.state pieces.items crew }
    requires cleared { IsCleared answers.old.desk }
    requires window { IsWindow answers.old.window.items }
    requires blank { IsNoted [] answers.old.notes }
    requires notes { HasNoteRoom (length (Q.left requests.old)) answers.old.notes }
    requires room { (jobs.items ≡ []) × (length pieces.items ≤ vec_capacity jobs)
        × HasRoomOf (length pieces.items) room }
    ensures went { InWindows O.takes (Q.left requests.old) result.1
        (λ windows given places kept. AllWent P.state (G.may_refuse gate.now) pieces.items crew
        given windows result.1.all result.0 places kept)
        answers.new.notes (R.state region.old) outlet.old (R.state region.new) outlet.new }
    ensures asked { IsAsked (R.state region.old) (R.state region.new) }
{
    let mut jobs = make_jobs(alloc, tables, group, pieces, crew, jobs);
    let course = work_windows(
        rt, alloc, region, outlet, requests, &mut jobs, gate, leads, answers,
    );
    (take_apart(jobs, room), course)
}
