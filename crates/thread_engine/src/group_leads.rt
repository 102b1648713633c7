// What the cores of one group tell one another of their leads, so that they lead together where that is faster.
//
// Where syncs take place side by side, eight cores that lead eight changes each are as fast as one that leads all 64. Where they
// queue up, the one is up to eight times as fast. Which it is shows in the time of a lead: how long it takes alone, and how long
// beside others. No clause speaks of when a core makes its next move, so all that is told here is free to be wrong.
use crate::usual_time::UsualTime;
use std::alloc::{AllocError, Global};
use std::sync::Wait;
use std::sync::atomic::{AtomicU64, Ordering};
use std::time::{Clock, Duration};

// Of so many leads the first few are made together and the next ones apart, whatever is usual, so that both times stay known;
// but none is made together where both are below the shortest.
const ROUND: u64 = 512;

const TOGETHER: u64 = 4;

const APART: u64 = 8;

// A lead that takes less, in nanoseconds, is not worth a sleep.
const SHORTEST: u64 = 80_000;

// How often at most a core that holds back looks again.
const LOOKS: u32 = 16;

// What stands for a core: it has something to do besides a lead, or it has not begun or has ended. Any other number is that of
// the leads that had begun when it had posted all it can, and one more.
const BUSY: u64 = 0;

const AWAY: u64 = u64::MAX;

/// A lead at work.
#[derive(Clone, Copy)]
pub struct Lead {
    // counted from 1 in its group
    number: u64,
    // by the clock that never goes back, where it can be read
    since: Option<Duration>,
    // whether no other one was at work when it began
    first: bool,
}

/// Shared by the cores of one group.
#[derive(Drop)]
pub struct GroupLeads {
    begun: AtomicU64,
    ended: AtomicU64,
    // the greatest number of one that ended
    newest_ended: AtomicU64,
    // rises where those that hold back are to look again
    bell: AtomicU64,
    // how many sleep
    asleep: AtomicU64,
    alone: UsualTime,
    beside: UsualTime,
    cores: Vec<AtomicU64>,
}

// The time from one moment to another, in nanoseconds.
fn nanos_between(from: Duration, to: Duration) -> u64 {
    match u64::try_from(to.saturating_sub(from).as_nanos()) {
        Ok(nanos) => nanos,
        Err(_) => u64::MAX,
    }
}

impl GroupLeads {
    fn open(alloc: Global, group: u32) -> Result<GroupLeads, AllocError> {
        let mut cores = Vec::with_capacity(alloc, group as usize)?;
        for _ in 0..group {
            cores.push(AtomicU64::new(AWAY))?;
        }
        Ok(GroupLeads {
            begun: AtomicU64::new(0),
            ended: AtomicU64::new(0),
            newest_ended: AtomicU64::new(0),
            bell: AtomicU64::new(0),
            asleep: AtomicU64::new(0),
            alone: UsualTime::new(),
            beside: UsualTime::new(),
            cores,
        })
    }

    fn begun(&self) -> u64 {
        self.begun.load(Ordering::SeqCst)
    }

    // How many are at work.
    fn at_work(&self) -> u64 {
        let ended = self.ended.load(Ordering::SeqCst);
        self.begun().saturating_sub(ended)
    }

    /// A core's worker began to lead.
    pub fn begin(&self, clock: &impl Clock) -> Lead {
        let first = self.at_work() == 0;
        let number = self.begun.fetch_add(1, Ordering::SeqCst).wrapping_add(1);
        let since = clock.monotonic().ok();
        Lead {
            number,
            since,
            first,
        }
    }

    // Notes how long a lead took, where it was alone all the time, or had others beside it from its beginning on.
    fn measure(&self, clock: &impl Clock, lead: Lead) {
        let Some(since) = lead.since else {
            return;
        };
        let Ok(now) = clock.monotonic() else {
            return;
        };
        let took = nanos_between(since, now);
        if !lead.first {
            self.beside.note(took);
        } else if self.begun() == lead.number {
            self.alone.note(took);
        }
    }

    /// It leads no more.
    pub fn end(&self, clock: &impl Clock, lead: Lead) {
        self.measure(clock, lead);
        if self.newest_ended.load(Ordering::SeqCst) < lead.number {
            self.newest_ended.store(lead.number, Ordering::SeqCst);
        }
        self.ended.fetch_add(1, Ordering::SeqCst);
        self.ring();
    }

    // Those that sleep look again.
    fn ring(&self) {
        self.bell.fetch_add(1, Ordering::SeqCst);
        if self.asleep.load(Ordering::SeqCst) > 0 {
            self.bell.wake_all();
        }
    }

    // Whether the next lead is to be one for all.
    fn leads_together(&self) -> bool {
        let alone = self.alone.get();
        let beside = self.beside.get();
        if alone > 0 && alone.max(beside) < SHORTEST {
            return false;
        }
        let turn = self.begun() % ROUND;
        if turn < TOGETHER {
            return true;
        }
        if turn < TOGETHER + APART {
            return false;
        }
        alone >= SHORTEST && beside >= alone.saturating_add(alone / 2)
    }

    // Whether a lead has ended that began behind so many others.
    fn has_ended_behind(&self, begun: u64) -> bool {
        self.newest_ended.load(Ordering::SeqCst) > begun
    }

    // Whether a core has posted all it can and waits for a lead, or is away.
    fn waits_or_is_away(&self, core: &AtomicU64) -> bool {
        let stands = core.load(Ordering::SeqCst);
        stands == AWAY || (stands != BUSY && !self.has_ended_behind(stands.wrapping_sub(1)))
    }

    // Whether all cores would be served by a lead that begins now.
    fn all_wait(&self) -> bool {
        self.cores.iter().all(|core| self.waits_or_is_away(core))
    }

    fn sleep(&self, rt: &impl Wait, bell: u64, nanos: u64) {
        self.asleep.fetch_add(1, Ordering::SeqCst);
        self.bell.park_timeout(
            rt,
            (bell % 4_294_967_296) as u32,
            Duration::from_nanos(nanos),
        );
        self.asleep.fetch_sub(1, Ordering::SeqCst);
    }

    // Holds a core back that has posted all it can since so many leads had begun: until a lead has ended that began since, or
    // no lead is at work and all cores wait for one, or some time has passed.
    fn hold(&self, rt: &impl Wait, begun: u64) {
        let usual = self.alone.get();
        let mut lingered = false;
        for _ in 0..LOOKS {
            let bell = self.bell.load(Ordering::SeqCst);
            let idle = self.at_work() == 0;
            if self.has_ended_behind(begun) || (idle && (lingered || self.all_wait())) {
                return;
            }
            let most = if idle { usual / 4 } else { usual };
            self.sleep(rt, bell, most.max(SHORTEST / 2));
            lingered = idle;
        }
    }

    // A core stands so from now on.
    fn stand(&self, core: usize, stands: u64) {
        if let Some(word) = self.cores.get(core) {
            word.store(stands, Ordering::SeqCst);
        }
    }

    /// A core works.
    pub fn work(&self, core: usize) {
        self.stand(core, BUSY);
    }

    /// A core has ended.
    pub fn leave(&self, core: usize) {
        self.stand(core, AWAY);
        self.ring();
    }

    /// A core has posted all it can. Gives how many leads had begun by then.
    pub fn settle(&self, core: usize) -> u64 {
        let begun = self.begun();
        self.stand(core, begun.wrapping_add(1));
        begun
    }

    /// Holds such a core back, where it is faster to lead together.
    pub fn wait(&self, rt: &impl Wait, begun: u64) {
        if self.leads_together() {
            self.hold(rt, begun);
        }
    }
}

/// One for each group, none where a group has one core.
#[derive(Drop)]
pub struct AllLeads {
    groups: Vec<GroupLeads>,
    group: u32,
}

impl AllLeads {
    /// For so many groups of so many cores.
    pub fn open(alloc: Global, groups: usize, group: u32) -> Result<AllLeads, AllocError> {
        let mut all = Vec::new(alloc);
        if group > 1 {
            for _ in 0..groups {
                all.push(GroupLeads::open(alloc, group)?)?;
            }
        }
        Ok(AllLeads { groups: all, group })
    }

    /// That of a core, with the core's number in it.
    pub fn of_core(&self, core: usize) -> Option<(&GroupLeads, usize)> {
        let group = self.group as usize;
        if group == 0 {
            return None;
        }
        match self.groups.get(core / group) {
            Some(leads) => Some((leads, core % group)),
            None => None,
        }
    }
}
