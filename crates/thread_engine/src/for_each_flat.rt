// Work at the places of a list, each in a thread of its own. The caller starts them all by itself: where the threads start
// each other, as in std's `for_each_mut`, one that starts late holds up those behind it.
ghost use Rattle.std.specs.Prelude.{◌≡◌, ◌<◌, length, slice_index_or};
ghost use denote.Param.Send.{IsSync, IsSend};
ghost use Rattle.std.specs.Fork.{AcceptsAt, ChangesAt, AcceptsEach, ChangesEach};
ghost use Rattle.thread_engine.specs.FlatWork.{Changes, EachChanges};

use std::thread::{Threads, join_mut};

/// Calls f(i, &mut s[i]) at each place: at the first one in this thread, and at each other in one of its own, or in this
/// one where none can be made.
#[cycle(flat)]
pub fn for_each_flat<R: Threads + Sync, T: Send, F: Fn(usize, &mut T) + Sync>(
    rt: &R,
    s: &mut [T],
    f: &F,
)
    requires { AcceptsEach F.Fn f.now s.old }
    ensures { ChangesEach F.Fn f.now s.old s.new }
{
    let count = s.len();
    if count == 0 {
        return;
    }
    if count == 1 {
        at_one(f, 0, &mut s[0]);
        return;
    }
    let (rest, last) = s.split_at_mut(count - 1);
    rest_and_last(rt, f, rest, count - 1, &mut last[0]);
}

fn at_one<T, F: Fn(usize, &mut T)>(f: &F, at: usize, it: &mut T)
    requires { AcceptsAt F.Fn f.now at it.old }
    ensures { ChangesAt F.Fn f.now at it.old it.new }
{
    f(at, it);
}

// Starts the last one's thread, and goes on with the others.
#[cycle(flat)]
fn rest_and_last<R: Threads + Sync, T: Send, F: Fn(usize, &mut T) + Sync>(
    rt: &R,
    f: &F,
    rest: &mut [T],
    at: usize,
    last: &mut T,
)
    requires at { at ≡ length rest.old }
    requires rest { AcceptsEach F.Fn f.now rest.old }
    requires last { AcceptsAt F.Fn f.now at last.old }
    ensures count { length rest.new ≡ length rest.old }
    ensures rest { EachChanges (ChangesAt F.Fn f.now) rest.old rest.new }
    ensures last { Changes (ChangesAt F.Fn f.now at) last.old last.new }
{
    let mut theirs = ||
        requires { IsSync F.row × IsSend T.row × AcceptsAt F.Fn f.now at last.now }
        ensures { Changes (ChangesAt F.Fn f.entry.now at) last.entry.now last.exit.now }
    { at_one(f, at, last) };
    let mut own = ||
        requires { IsSync R.row × IsSync F.row × IsSend T.row × AcceptsEach F.Fn f.now rest.now }
        ensures { EachChanges (ChangesAt F.Fn f.entry.now) rest.entry.now rest.exit.now }
    { for_each_flat(rt, rest, f) };
    join_mut(rt, &mut theirs, &mut own);
}
