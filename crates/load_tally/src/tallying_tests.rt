ghost use Rattle.std.specs.Prelude.{◌≡◌, ◌+◌, ◌^◌, ◌<◌, List, [], ◌++◌, length};
ghost use Rattle.fs_model.specs.declared.model.Reply as replies_of;
ghost use Rattle.load_tally.specs.Tallied.{IsWithin, tally_of};

use super::*;
use fs_model::{Pair, Reply, Value};
use fs_text::LoadTally;
use std::test::*;

// Counts the next replies, behind those that were counted.
fn add_replies(tally: &mut LoadTally, replies: &[Reply])
    requires within { IsWithin tally.old }
    requires room { tally.old.requests + length replies.now < 2 ^ 64 }
    ensures counts { (rs : List replies_of.Reply) → tally.old ≡ tally_of rs []
        → tally.new ≡ tally_of (rs ++ replies.now) [] }
    ensures within { IsWithin tally.new }
    ensures requests { tally.new.requests ≡ tally.old.requests + length replies.now }
{
    for reply in replies {
        add_reply(tally, reply);
    }
}

// The tally of replies that come in two parts, and of the pairs behind them.
fn tallied(front: &[Reply], back: &[Reply], pairs: &[Pair]) -> LoadTally
    requires { length front.now + length back.now < 2 ^ 64 }
    ensures { result ≡ tally_of (front.now ++ back.now) pairs.now }
{
    let mut tally = nothing();
    add_replies(&mut tally, front);
    add_replies(&mut tally, back);
    add_pairs(&mut tally, pairs);
    tally
}

#[test]
fn each_reply_is_counted_once(rt: HostRuntime) -> Result<(), Fail> {
    let alloc = rt.alloc();
    let replies = vec![in alloc;
        Reply::Stored,
        Reply::Value(Value::of(Vec::new(alloc))),
        Reply::Absent,
        Reply::Absent,
        Reply::Deleted,
        Reply::Full,
        Reply::VersionsSpent,
        Reply::TooLong,
        Reply::Stopped,
    ]?;
    let bytes = vec![in alloc; 1, 2, 3]?;
    let pairs = vec![in alloc;
        Pair {
            key: 1,
            value: Value::of(bytes)
        },
        Pair {
            key: 2,
            value: Value::of(Vec::new(alloc))
        },
    ]?;
    let tally = tallied(&replies[..4], &replies[4..], &pairs);
    assert_eq!(rt; (tally.requests, tally.stored, tally.value), (9, 1, 1));
    assert_eq!(rt; (tally.absent, tally.deleted, tally.refused), (2, 1, 4));
    assert_eq!(rt; (tally.live, tally.bytes), (2, 3));
    Ok(())
}
