// How long something usually takes.
use std::sync::atomic::{AtomicU64, Ordering};

// A longer time than the usual one moves it by an eighth of the way, a shorter one by half of it.
const RISES: u64 = 8;

const FALLS: u64 = 2;

// One that is longer than this many usual ones counts as so long: its thread may have had no processor.
const MOST: u64 = 8;

/// How long something takes where nothing comes in between, in nanoseconds, as several threads measure it: it follows the
/// shorter ones of the last times. 0 before the first.
#[derive(Drop)]
pub struct UsualTime {
    nanos: AtomicU64,
}

// Between the usual time and a new one.
fn moved(usual: u64, took: u64) -> u64 {
    if took < usual {
        usual - (usual - took) / FALLS
    } else {
        usual.saturating_add((took - usual) / RISES)
    }
}

impl UsualTime {
    pub fn new() -> UsualTime {
        UsualTime {
            nanos: AtomicU64::new(0),
        }
    }

    pub fn get(&self) -> u64 {
        self.nanos.load(Ordering::SeqCst)
    }

    /// Takes a new time in. Of two at once one may be lost.
    pub fn note(&self, took: u64) {
        let usual = self.get();
        let next = if usual == 0 {
            took
        } else {
            moved(usual, took.min(usual.saturating_mul(MOST)))
        };
        self.nanos.store(next, Ordering::SeqCst);
    }
}
