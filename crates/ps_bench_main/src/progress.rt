// How far a search has come, on a terminal.

use ps_search::{Observer, Progress};
use std::io::Eprint;
use std::rt::Clock;
use std::time::{Duration, Instant};

// From how many seconds to how many the line is told.
const SECONDS: u64 = 2;

// When a search was looked at, and how many steps it had tried then.
#[derive(Clone, Copy)]
struct Look {
    at: Instant,
    steps: u64,
}

/// Who reads standard error while a search goes on, where that is a terminal: each two seconds a line says how far it has
/// come, in place of the last one, and at its end the line is erased. A clock that cannot be read and a line that cannot
/// be written are nobody's concern.
#[derive(Drop)]
pub struct ProgressLine<'a, R: Clock + Eprint> {
    system: &'a R,
    is_read: bool,
    is_shown: bool,
    last: Option<Look>,
}

impl<'a, R: Clock + Eprint> ProgressLine<'a, R> {
    /// Who reads the standard error of this system, where somebody does.
    pub fn new(system: &'a R, is_read: bool) -> ProgressLine<'a, R> {
        ProgressLine {
            system,
            is_read,
            is_shown: false,
            last: None,
        }
    }

    // Writes the line, with so many steps a second.
    fn show(&mut self, so_far: Progress, rate: u64) {
        self.is_shown = true;
        let told = eprint!(self.system;
            "\r\x1b[Ksearching: {} states, {} scans a second, {} scans deep",
            so_far.states, rate, so_far.depth,
        );
        match told {
            Ok(()) | Err(_) => (),
        }
    }

    // Looks at a search, and writes the line where two seconds have passed since the last one.
    fn look(&mut self, so_far: Progress, now: Instant) {
        let look = Look {
            at: now,
            steps: so_far.steps,
        };
        match self.last {
            None => self.last = Some(look),
            Some(last) => {
                let passed = now.duration_since(last.at);
                if passed >= Duration::from_secs(SECONDS) {
                    self.show(
                        so_far,
                        rate(so_far.steps.saturating_sub(last.steps), passed),
                    );
                    self.last = Some(look);
                }
            }
        }
    }
}

// How many steps a second there were in this time.
fn rate(steps: u64, passed: Duration) -> u64 {
    steps.checked_div(passed.as_secs()).unwrap_or(steps)
}

impl<'a, R: Clock + Eprint> Observer for ProgressLine<'a, R> {
    fn looked(&mut self, so_far: Progress) {
        if self.is_read {
            if let Ok(now) = Instant::now(self.system) {
                self.look(so_far, now);
            }
        }
    }

    fn ended(&mut self) {
        if self.is_shown {
            match eprint!(self.system; "\r\x1b[K") {
                Ok(()) | Err(_) => (),
            }
        }
        self.is_shown = false;
        self.last = None;
    }
}
