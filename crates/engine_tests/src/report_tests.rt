// The report on five requests.
use core_room::Shortage;
use engine_core::run_report::{Finish, Refusal, Report, report_on};
use engine_core::types::Stamped;
use fs_model::Reply;
use std::test::Fail;

fn answer(reply: Reply, stamp: u64) -> Option<Stamped> {
    Some(Stamped {
        reply,
        refusal: None,
        stamp,
    })
}

#[test]
fn a_report_names_finishes_and_refusals(rt: HostRuntime) -> Result<(), Fail> {
    let alloc = rt.alloc();
    let mut answers = Vec::new(alloc);
    answers.push(answer(Reply::Stored, 7))?;
    answers.push(Some(Stamped {
        reply: Reply::TooLong,
        refusal: Some(Shortage::Length { length: 1_048_569 }),
        stamp: 7,
    }))?;
    answers.push(None)?;
    answers.push(answer(Reply::Absent, 8))?;
    answers.push(answer(Reply::Deleted, 12))?;
    let mut blank = Report::new(alloc);
    blank.reserve(5)?;
    let report = report_on(answers, blank);
    assert_eq!(rt; report.replies.len(), 5);
    assert!(rt; matches!(report.replies.first(), Some(Reply::Stored)));
    assert!(rt; matches!(report.replies.last(), Some(Reply::Deleted)));
    assert!(rt; matches!(report.replies.get(2), Some(Reply::Stopped)));
    let stored = Finish {
        request: 0,
        stamp: 7,
    };
    let deleted = Finish {
        request: 4,
        stamp: 12,
    };
    assert_eq!(rt; report.finishes.as_slice(), [stored, deleted].as_slice());
    let too_long = Refusal {
        request: 1,
        why: Shortage::Length { length: 1_048_569 },
    };
    assert_eq!(rt; report.refusals.as_slice(), [too_long].as_slice());
    Ok(())
}
