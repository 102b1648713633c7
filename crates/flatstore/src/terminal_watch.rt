// How far a run is, on a terminal.
use std::io::IsTerminal;
use std::time::{Clock, Duration};
use thread_engine::watch::Watch;

/// How long a line stands before the next one takes its place, in milliseconds.
const PAUSE: u128 = 250;

/// Shows on standard error how many requests are answered, where that is a terminal, at most four times a second. Each
/// line takes the place of the one before, and where standard output is a terminal too it goes away before text is
/// written there.
#[derive(Drop)]
pub struct TerminalWatch<'a> {
    rt: &'a HostRuntime,
    terminal: bool,
    // whether the text that is written may stand on the same terminal
    both: bool,
    // when the last line was shown, by the clock that never goes back
    shown: Option<Duration>,
    // whether it still stands there
    stands: bool,
}

impl<'a> TerminalWatch<'a> {
    pub fn on(rt: &'a HostRuntime) -> TerminalWatch<'a> {
        TerminalWatch {
            rt,
            terminal: rt.stderr().is_terminal(),
            both: rt.stdout().is_terminal(),
            shown: None,
            stands: false,
        }
    }

    // Whether it is time for a line. A clock that can't be read shows none.
    fn is_due(&mut self) -> bool {
        let Ok(now) = self.rt.monotonic() else {
            return false;
        };
        if let Some(shown) = self.shown {
            if now.saturating_sub(shown).as_millis() < PAUSE {
                return false;
            }
        }
        self.shown = Some(now);
        true
    }

    /// Takes the last line away, if it still stands.
    pub fn clear(&mut self) {
        if self.stands {
            let _ = eprint!(self.rt; "\r\x1b[K");
            self.stands = false;
        }
    }
}

impl<'a> Watch for TerminalWatch<'a> {
    fn answered(&mut self, count: u64) {
        if self.terminal && self.is_due() {
            let _ = eprint!(self.rt; "\r{count} requests answered");
            self.stands = true;
        }
    }

    fn pauses(&mut self) {
        if self.both {
            self.clear();
        }
    }
}
