ghost use Rattle.std.specs.Prelude.{◌≡◌, ◌<◌, IfOk};
ghost use Rattle.answer_queue.specs.Accounts.{numbers, numbers_from};

use super::*;
use core_room::Shortage;
use core_worker::Answer;
use fs_model::Reply;
use std::alloc::{AllocError, Global};
use std::sync::Wait;
use std::test::*;
use std::thread::Threads;

// Twenty answers, to the requests from this one on.
fn twenty(alloc: Global, from: u64) -> Result<Vec<Answer>, AllocError>
    requires { from < 1000 }
    ensures { IfOk result (λ v. numbers v.items ≡ numbers_from from 20) }
{
    let mut answers = Vec::with_capacity(alloc, 20)?;
    for i in 0..20 {
        answers.push_reserved(Answer {
            number: from + i,
            reply: Reply::TooLong,
            refusal: Some(Shortage::Length {
                length: from + i + 1000,
            }),
        });
    }
    Ok(answers)
}

// Whether the refusal is the one that was put for that number.
fn is_right(answer: &Answer) -> bool {
    match answer.refusal {
        Some(Shortage::Length { length }) => length == answer.number.wrapping_add(1000),
        _ => false,
    }
}

// Whether each number below 40 is there, with its refusal.
fn are_forty(answers: Vec<Answer>) -> bool {
    let mut seen = [false; 40];
    for answer in answers {
        if answer.number < 40 && is_right(&answer) {
            seen[answer.number as usize] = true;
        }
    }
    seen.iter().all(|is| *is)
}

fn handed_over<R: Threads + Wait + Sync>(rt: &R, alloc: Global) -> Result<Vec<Answer>, AllocError> {
    let first = twenty(alloc, 0)?;
    let second = twenty(alloc, 20)?;
    exchange(rt, alloc, first, second)
}

#[test]
fn two_threads_put_twenty_each_and_the_caller_takes_forty(rt: HostRuntime) -> Result<(), Fail> {
    let answers = handed_over(&rt, rt.alloc())?;
    assert_eq!(rt; answers.len(), 40);
    assert!(rt; are_forty(answers));
    Ok(())
}
