// One core's work, which a thread does.
ghost use Rattle.std.specs.Prelude.{◌≡◌, ◌<◌, Bool, true, []};
ghost use Rattle.std.specs.VecDeque.{deque_len, deque_capacity};
ghost use Rattle.fs_model.specs.Cells.{key_of};
ghost use Rattle.group_laws.specs.Places.{owner};
ghost use Rattle.thread_engine.specs.declared.core_job.CoreJob as data_of;
ghost use Rattle.answer_cores.specs.Handing.{HandsOver};
ghost use Rattle.thread_engine.specs.WindowJobs.{IsReady, MayHandOver, HandedOver, WorksWindow};
ghost use Rattle.batch_leader.specs.TurnSteps.{trail_with};
ghost use Rattle.engine_core.specs.Working.{IsMember};
ghost use Rattle.thread_engine.specs.WorkStates.{IsAtWork, LeavesTurn, OwnMove, WorksOn, GoesOn, HasEnded, sight_by, stands_at};

use crate::core_side::CoreSide;
use crate::group_leads::AllLeads;
use crate::work_rules;
use answer_cores::hand_over;
use answer_queue::{AnswerPass, AnswerQueue};
use core_worker::{Gate, Turn, Worker};
use engine_core::core_step::step_core;
use fs_model::{Memory, Request};
use group_board::Board;
use pm_region::Region;
use std::alloc::Global;
use std::collections::VecDeque;
use std::sync::Wait;
use std::sync::atomic::{AtomicBool, Ordering};
use std::thread;
use std::time::Clock;

/// A core with its seat at the group's board, its piece of the region, its worker, and the requests that the worker has
/// not accepted yet, with their numbers.
#[derive(Drop)]
pub struct CoreJob<B, P> {
    /// The core's own: no other job has it.
    pub seat: B,
    /// The words of the core's part, under their addresses in the region.
    pub piece: P,
    /// The one of this core.
    pub worker: Worker,
    /// The next one in front.
    pub queue: VecDeque<(u64, Request)>,
    /// Of the window's queue of answers, while the core works in a window.
    pub pass: Option<AnswerPass>,
}

impl<B: Board, P: Region> CoreJob<B, P> {
    // Hands the worker the next request, where it leads nothing and has room, and else gives it a turn.
    fn step<G: Gate>(&mut self, alloc: Global, gate: &G) -> Result<Turn, Memory>
        requires { IsAtWork (B.seat self.old.seat)
            (stands_at (sight_by B.view B.trail B.at) P.state self.old) }
        ensures seat { B.seat self.new.seat ≡ B.seat self.old.seat }
        ensures pass { self.new.pass ≡ self.old.pass }
        ensures work { IsAtWork (B.seat self.old.seat)
            (stands_at (sight_by B.view B.trail B.at) P.state self.new) }
        ensures moves { OwnMove (B.seat self.old.seat) (G.may_refuse gate.now)
            (stands_at (sight_by B.view B.trail B.at) P.state self.old)
            (stands_at (sight_by B.view B.trail B.at) P.state self.new) }
    {
        let turn = |worker: &mut Worker, seat: &mut B, piece: &mut P|
            requires { IsMember (B.seat seat.old).place (B.seat seat.old).number
                (P.state piece.old) (B.view seat.old) worker.old }
            ensures seat { B.seat seat.new ≡ B.seat seat.old }
            ensures leaves { LeavesTurn (B.seat seat.old)
                (G.may_pass gate.entry.now) (G.may_refuse gate.entry.now) result
                (P.state piece.old) (P.state piece.new) (B.whole seat.old) (B.whole seat.new)
                (B.view seat.old) (B.view seat.new)
                (trail_with (B.trail seat.old) (B.at seat.old))
                (trail_with (B.trail seat.new) (B.at seat.new)) worker.old worker.new }
        { worker.turn(alloc, piece, seat, gate) };
        step_core(
            &mut self.worker,
            &mut self.seat,
            &mut self.piece,
            &mut self.queue,
            alloc,
            turn,
        )
    }

    /// Lets the worker wind down.
    pub fn wind_down(&mut self)
        requires { IsAtWork (B.seat self.old.seat)
            (stands_at (sight_by B.view B.trail B.at) P.state self.old) }
        ensures winds { self.new
            ≡ record self.old { worker = record self.old.worker { winds_down = true } } }
        ensures seat { self.new.seat ≡ self.old.seat }
        ensures pass { self.new.pass ≡ self.old.pass }
        ensures work { IsAtWork (B.seat self.old.seat)
            (stands_at (sight_by B.view B.trail B.at) P.state self.new) }
        ensures works { (refused : Bool) → WorksOn (B.seat self.old.seat) refused [] []
            (stands_at (sight_by B.view B.trail B.at) P.state self.old)
            (stands_at (sight_by B.view B.trail B.at) P.state self.new) }
    {
        self.worker.wind_down();
    }

    // Lets the worker wind down where another core's found no memory.
    fn heed(&mut self, short: &AtomicBool)
        requires { IsAtWork (B.seat self.old.seat)
            (stands_at (sight_by B.view B.trail B.at) P.state self.old) }
        ensures seat { self.new.seat ≡ self.old.seat }
        ensures pass { self.new.pass ≡ self.old.pass }
        ensures work { IsAtWork (B.seat self.old.seat)
            (stands_at (sight_by B.view B.trail B.at) P.state self.new) }
        ensures works { (refused : Bool) → WorksOn (B.seat self.old.seat) refused [] []
            (stands_at (sight_by B.view B.trail B.at) P.state self.old)
            (stands_at (sight_by B.view B.trail B.at) P.state self.new) }
    {
        if !self.worker.winding_down() && short.load(Ordering::SeqCst) {
            self.wind_down();
        }
    }

    // Makes a move, and says whether there was nothing to do. Where the worker finds no memory, it winds down, and the
    // other cores are told to.
    fn go_on<G: Gate>(&mut self, alloc: Global, gate: &G, short: &AtomicBool) -> bool
        requires { IsAtWork (B.seat self.old.seat)
            (stands_at (sight_by B.view B.trail B.at) P.state self.old) }
        ensures seat { B.seat self.new.seat ≡ B.seat self.old.seat }
        ensures pass { self.new.pass ≡ self.old.pass }
        ensures work { IsAtWork (B.seat self.old.seat)
            (stands_at (sight_by B.view B.trail B.at) P.state self.new) }
        ensures works { WorksOn (B.seat self.old.seat) (G.may_refuse gate.now) [] []
            (stands_at (sight_by B.view B.trail B.at) P.state self.old)
            (stands_at (sight_by B.view B.trail B.at) P.state self.new) }
    {
        match self.step(alloc, gate) {
            Ok(Turn::Moved) => false,
            Ok(Turn::Idle) => {
                thread::yield_now();
                true
            }
            Err(Memory) => {
                short.store(true, Ordering::SeqCst);
                self.wind_down();
                false
            }
        }
    }

    // One round: what the other cores say is heeded, and a move is made. It says whether there was nothing to do.
    fn round<G: Gate>(&mut self, alloc: Global, gate: &G, short: &AtomicBool) -> bool
        requires { IsAtWork (B.seat self.old.seat)
            (stands_at (sight_by B.view B.trail B.at) P.state self.old) }
        ensures { (first : data_of.CoreJob B P)
            → GoesOn B.seat (sight_by B.view B.trail B.at) P.state (G.may_refuse gate.now) first self.old
            → GoesOn B.seat (sight_by B.view B.trail B.at) P.state (G.may_refuse gate.now) first self.new }
    {
        self.heed(short);
        self.go_on(alloc, gate, short)
    }

    // Whether nothing is left to do.
    fn has_ended(&self) -> bool
        ensures { result ≡ true → HasEnded
            (stands_at (sight_by B.view B.trail B.at) P.state self.now) }
    {
        !Worker::leading(&self.worker)
            && !self.worker.has_posted()
            && (self.worker.winding_down() || (!self.worker.pending() && self.queue.is_empty()))
    }

    // Whether it can only try to lead, or wait for what it posted.
    fn is_settled(&self) -> bool {
        !Worker::leading(&self.worker)
            && self.worker.has_posted()
            && !self.worker.has_staged()
            && (self.queue.is_empty() || !self.worker.has_room())
    }

    // Hands the worker's answers over.
    fn give_answers(&mut self, rt: &impl Wait, answers: &AnswerQueue)
        requires { MayHandOver answers.now self.old }
        ensures rest { self.new
            ≡ record self.old { worker = self.new.worker; pass = self.new.pass } }
        ensures worker { HandsOver self.old.worker self.new.worker }
        ensures put { HandedOver answers.now self.old self.new }
    {
        let Some(pass) = &mut self.pass else {
            unreachable!()
        };
        hand_over(rt, answers, pass, &mut self.worker);
    }

    /// Works the requests of a window off, and hands the answers over.
    pub fn work_window<G: Gate>(
        &mut self,
        rt: &(impl Wait + Clock),
        alloc: Global,
        gate: &G,
        short: &AtomicBool,
        answers: &AnswerQueue,
        leads: &AllLeads,
        core: usize,
    )
        requires { IsReady B.seat (sight_by B.view B.trail B.at) P.state answers.now self.old }
        ensures { WorksWindow B.seat (sight_by B.view B.trail B.at) P.state (G.may_refuse gate.now)
            answers.now self.old self.new }
    {
        work_rules::every_chain();
        self.work(rt, alloc, gate, short, leads, core);
        self.give_answers(rt, answers);
    }

    /// Works the requests off, until all are answered, the worker leads nothing and a turn of it found nothing to do: so a
    /// cleaning that the last requests allow is made before the end, and a log that filled up has room for the next ones.
    /// Where there is nothing to do it asks again; it is held back a while where it could only try to lead and its group
    /// is faster together. A worker that finds no memory says so to the others, and all of them finish what is posted or
    /// taken and begin nothing more.
    pub fn work<G: Gate>(
        &mut self,
        rt: &(impl Wait + Clock),
        alloc: Global,
        gate: &G,
        short: &AtomicBool,
        leads: &AllLeads,
        core: usize,
    )
        requires { IsAtWork (B.seat self.old.seat)
            (stands_at (sight_by B.view B.trail B.at) P.state self.old) }
        ensures worked { GoesOn B.seat (sight_by B.view B.trail B.at) P.state
            (G.may_refuse gate.now) self.old self.new }
        ensures ended { HasEnded (stands_at (sight_by B.view B.trail B.at) P.state self.new) }
    {
        let mut side = CoreSide::begin(leads, core);
        for _ in rt.forever() {
            if side.has_others() && self.is_settled() {
                side.hold(rt);
            } else {
                side.go_on();
            }
            let idle = self.round(alloc, gate, short);
            side.moved(rt, Worker::leading(&self.worker));
            if idle && self.has_ended() {
                side.end();
                return;
            }
        }
        unreachable!()
    }
}
