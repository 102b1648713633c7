// Where no core has work, all have ended, and no answer is taken.
use atomic_board::CoreSeat;
use core_worker::OpenGate;
use region_memory::SteadyPiece;
use std::test::Fail;
use thread_engine::core_job::CoreJob;
use thread_engine::desk::{Desk, work_at_desk};
use thread_engine::group_leads::AllLeads;

#[test]
fn no_core_has_work(rt: HostRuntime) -> Result<(), Fail> {
    let alloc = rt.alloc();
    let mut jobs: Vec<CoreJob<CoreSeat<'_>, SteadyPiece>> = Vec::new(alloc);
    let mut desk = Desk::open(alloc)?;
    let leads = AllLeads::open(alloc, 1, 1)?;
    let mut window = Vec::new(alloc);
    window.push(None)?;
    desk.begin(0, 0);
    work_at_desk(
        &rt,
        alloc,
        &mut jobs,
        &OpenGate,
        false,
        &mut desk,
        &leads,
        0,
        &mut window,
    );
    assert!(rt; jobs.is_empty());
    assert!(rt; matches!(window.pop(), Some(None)));
    Ok(())
}
