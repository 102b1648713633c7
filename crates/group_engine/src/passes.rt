// The passes of a drain, over whatever cores there are.
ghost use Rattle.std.specs.Prelude.{◌≡◌, ℕ, ◌<◌, ◌≤◌, IfOk, OnOk, OnErr};
ghost use Rattle.engine_laws.specs.Engine.{Engine};
ghost use Rattle.engine_laws.specs.Ran.{Goes, Ran};
ghost use Rattle.core_worker.specs.declared.types.Turn.TheVariants.{Moved, Idle};
ghost use Rattle.engine_core.specs.Calls.{has_moved};
ghost use Rattle.group_engine.specs.Runs.{RunState, with_request};
ghost use Rattle.group_engine.specs.Passes.{Settles, Passes, NameCores, Ends, EndsIn, DrainsOut, Leads, Ceases, CeasePasses, CeasesOut, CeasesIn};

use crate::cores::Cores;
use core_worker::Turn;
use fs_model::Memory;
use fs_text::Line;
use pm_region::Region;
use std::alloc::Global;
use std::collections::VecDeque;

/// Moves a core until it is idle, and answers whether anything moved.
pub fn settle<C: Cores, R: Region>(
    cores: &mut C,
    alloc: Global,
    region: &mut R,
    core: u32,
) -> Result<Turn, Memory>
    requires core { core < C.cores cores.old }
    requires shows { (e : RunState C.Worker) × C.shows (R.state region.old) cores.old e }
    ensures failed { OnErr result (Leads (C.shows (R.state region.old) cores.old)
        (C.stays (R.state region.new) cores.new) (λ e f. Ends (R.state region.new) e.engine f)) }
    ensures settles { IfOk result (λ turn. Leads (C.shows (R.state region.old) cores.old)
        (C.shows (R.state region.new) cores.new)
        (λ e f. Settles C.moves core (has_moved turn) e f)) }
    ensures cores { C.cores cores.new ≡ C.cores cores.old }
    ensures less { IfOk result (λ turn. turn ≡ Moved → C.left cores.new < C.left cores.old) }
    ensures idle { IfOk result (λ turn. turn ≡ Idle → C.left cores.new ≤ C.left cores.old) }
{
    let mut turn = Turn::Idle;
    loop {
        match cores.advance(alloc, region, core)? {
            Turn::Moved => turn = Turn::Moved,
            Turn::Idle => return Ok(turn),
        }
    }
}

/// Moves each core until it is idle, by rising number, and answers whether anything moved.
pub fn pass<C: Cores, R: Region>(
    cores: &mut C,
    alloc: Global,
    region: &mut R,
) -> Result<Turn, Memory>
    requires { (e : RunState C.Worker) × C.shows (R.state region.old) cores.old e }
    ensures failed { OnErr result (Leads (C.shows (R.state region.old) cores.old)
        (C.stays (R.state region.new) cores.new) (λ e f. Ends (R.state region.new) e.engine f)) }
    ensures passes { IfOk result (λ turn. Leads (C.shows (R.state region.old) cores.old)
        (C.shows (R.state region.new) cores.new)
        (λ e f. Passes C.moves (C.cores cores.old) (has_moved turn) e f)) }
    ensures cores { C.cores cores.new ≡ C.cores cores.old }
    ensures less { IfOk result (λ turn. turn ≡ Moved → C.left cores.new < C.left cores.old) }
    ensures idle { IfOk result (λ turn. turn ≡ Idle → C.left cores.new ≤ C.left cores.old) }
{
    let mut turn = Turn::Idle;
    let count = cores.count();
    for core in 0..count {
        match settle(cores, alloc, region, core)? {
            Turn::Moved => turn = Turn::Moved,
            Turn::Idle => {}
        }
    }
    Ok(turn)
}

/// Makes passes until nothing moves.
pub fn drain<C: Cores, R: Region>(
    cores: &mut C,
    alloc: Global,
    region: &mut R,
) -> Result<(), Memory>
    requires { (e : RunState C.Worker) × C.shows (R.state region.old) cores.old e }
    ensures failed { OnErr result (Leads (C.shows (R.state region.old) cores.old)
        (C.stays (R.state region.new) cores.new) (λ e f. Ends (R.state region.new) e.engine f)) }
    ensures drained { OnOk result (Leads (C.shows (R.state region.old) cores.old)
        (C.shows (R.state region.new) cores.new) (DrainsOut C.moves (C.cores cores.old))) }
    ensures cores { C.cores cores.new ≡ C.cores cores.old }
{
    loop {
        match pass(cores, alloc, region)? {
            Turn::Moved => {}
            Turn::Idle => return Ok(()),
        }
    }
}

/// Moves a core so many times.
pub fn go<C: Cores, R: Region>(
    cores: &mut C,
    alloc: Global,
    region: &mut R,
    core: u32,
    turns: u32,
) -> Result<(), Memory>
    requires core { core < C.cores cores.old }
    requires shows { (e : RunState C.Worker) × C.shows (R.state region.old) cores.old e }
    ensures failed { OnErr result (Leads (C.shows (R.state region.old) cores.old)
        (C.stays (R.state region.new) cores.new) (λ e f. Ends (R.state region.new) e.engine f)) }
    ensures went { OnOk result (Leads (C.shows (R.state region.old) cores.old)
        (C.shows (R.state region.new) cores.new) (λ e f. Goes C.moves core turns e f)) }
    ensures cores { C.cores cores.new ≡ C.cores cores.old }
{
    for turn in 0..turns {
        cores.advance(alloc, region, core)?;
    }
    Ok(())
}

// Handles the lines of an input in order, and then drains.
fn run<C: Cores, R: Region>(
    cores: &mut C,
    alloc: Global,
    region: &mut R,
    mut lines: VecDeque<Line>,
) -> Result<(), Memory>
    requires lines { NameCores (C.cores cores.old) lines.items }
    requires shows { (e : RunState C.Worker) × C.shows (R.state region.old) cores.old e }
    ensures failed { OnErr result (Leads (C.shows (R.state region.old) cores.old)
        (C.stays (R.state region.new) cores.new)
        (λ e f. EndsIn (R.state region.new) lines.items e.engine f)) }
    ensures cores { C.cores cores.new ≡ C.cores cores.old }
    ensures ran { OnOk result (Leads (C.shows (R.state region.old) cores.old)
        (C.shows (R.state region.new) cores.new)
        (λ e f. Ran C.moves with_request (C.cores cores.old) lines.items e f)) }
{
    loop {
        match lines.pop_front() {
            Some(Line::Ask(request)) => cores.give(request)?,
            Some(Line::Go { core, turns }) => go(cores, alloc, region, core, turns)?,
            None => return drain(cores, alloc, region),
        }
    }
}

/// Moves a core until nothing of it moves, while all wind down, and answers whether anything moved.
pub fn cease_core<C: Cores, R: Region>(
    cores: &mut C,
    alloc: Global,
    region: &mut R,
    core: u32,
) -> Turn
    requires core { core < C.cores cores.old }
    requires winds { C.winds cores.old }
    requires stays { (e : Engine) × C.stays (R.state region.old) cores.old e }
    ensures ceases { Leads (C.stays (R.state region.old) cores.old)
        (C.stays (R.state region.new) cores.new)
        (Ceases (R.state region.new) (has_moved result) core) }
    ensures winds { C.winds cores.new }
    ensures cores { C.cores cores.new ≡ C.cores cores.old }
    ensures less { result ≡ Moved → C.left cores.new < C.left cores.old }
    ensures idle { result ≡ Idle → C.left cores.new ≤ C.left cores.old }
{
    let mut turn = Turn::Idle;
    loop {
        match cores.cease(alloc, region, core) {
            Turn::Moved => turn = Turn::Moved,
            Turn::Idle => return turn,
        }
    }
}

/// Moves each core until nothing of it moves, by rising number, while all wind down, and answers whether anything
/// moved.
pub fn cease_pass<C: Cores, R: Region>(cores: &mut C, alloc: Global, region: &mut R) -> Turn
    requires winds { C.winds cores.old }
    requires stays { (e : Engine) × C.stays (R.state region.old) cores.old e }
    ensures passes { Leads (C.stays (R.state region.old) cores.old)
        (C.stays (R.state region.new) cores.new)
        (CeasePasses (R.state region.new) (C.cores cores.old) (has_moved result)) }
    ensures winds { C.winds cores.new }
    ensures cores { C.cores cores.new ≡ C.cores cores.old }
    ensures less { result ≡ Moved → C.left cores.new < C.left cores.old }
    ensures idle { result ≡ Idle → C.left cores.new ≤ C.left cores.old }
{
    let mut turn = Turn::Idle;
    let all = cores.count();
    for core in 0..all {
        match cease_core(cores, alloc, region, core) {
            Turn::Moved => turn = Turn::Moved,
            Turn::Idle => {}
        }
    }
    turn
}

/// Makes passes until nothing moves, while all wind down: what is posted or taken is finished, and then all rest.
pub fn cease<C: Cores, R: Region>(cores: &mut C, alloc: Global, region: &mut R)
    requires winds { C.winds cores.old }
    requires stays { (e : Engine) × C.stays (R.state region.old) cores.old e }
    ensures ceased { Leads (C.stays (R.state region.old) cores.old)
        (C.stays (R.state region.new) cores.new)
        (CeasesOut (R.state region.new) (C.cores cores.old)) }
{
    loop {
        match cease_pass(cores, alloc, region) {
            Turn::Moved => {}
            Turn::Idle => return,
        }
    }
}

/// Handles the lines of an input in order, and then drains. Where there is no memory, all wind down, and finish what is
/// posted or taken.
pub fn replay<C: Cores, R: Region>(
    cores: &mut C,
    alloc: Global,
    region: &mut R,
    lines: VecDeque<Line>,
) -> Result<(), Memory>
    requires lines { NameCores (C.cores cores.old) lines.items }
    requires shows { (e : RunState C.Worker) × C.shows (R.state region.old) cores.old e }
    ensures failed { OnErr result (Leads (C.shows (R.state region.old) cores.old)
        (C.stays (R.state region.new) cores.new)
        (λ e f. CeasesIn (R.state region.new) (C.cores cores.old) lines.items e.engine f)) }
    ensures ran { OnOk result (Leads (C.shows (R.state region.old) cores.old)
        (C.shows (R.state region.new) cores.new)
        (λ e f. Ran C.moves with_request (C.cores cores.old) lines.items e f)) }
{
    match run(cores, alloc, region, lines) {
        Ok(()) => {
            return Ok(());
        }
        Err(memory) => {
            cores.wind_down();
            cease(cores, alloc, region);
            return Err(memory);
        }
    }
}
