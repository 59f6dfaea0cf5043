//! How far a search is, for people who wait: a line a second on standard error, where that is a terminal.

use dbtg_command::FileReader;
use dbtg_states::Watch;
use std::cell::Cell;
use std::io::IsTerminal;
use std::time::Instant;

/// What the system says of this process, and how much of it is read.
const ABOUT_PROCESS: &str = "/proc/self/status";

const MOST_ABOUT_PROCESS: u64 = 65_536;

/// The line of it that says how many KB of memory are in use.
const MEMORY: &[u8] = b"VmRSS:";

/// Back to the beginning of the line, which is cleared.
const CLEAR: &str = "\r\x1b[K";

/// When a search began, if its progress is shown, and in which second it was last shown.
#[derive(Drop)]
pub struct Progress<'a> {
    rt: &'a HostRuntime,
    begun: Option<Instant>,
    told: Cell<u64>,
}

// The number that the digits of a line say.
fn number_in(line: &[u8]) -> u64 {
    let mut number: u64 = 0;
    for byte in line {
        if byte.is_ascii_digit() {
            number = number
                .saturating_mul(10)
                .saturating_add((*byte - b'0') as u64);
        }
    }
    number
}

// The memory that is in use, in KB, as the system's text about the process says; 0 where it does not say.
fn memory_in(text: &[u8]) -> u64 {
    for line in text.split(|byte| *byte == b'\n') {
        if line.starts_with(MEMORY) {
            return number_in(line);
        }
    }
    0
}

impl<'a> Progress<'a> {
    /// From now on.
    pub fn begin(rt: &'a HostRuntime) -> Progress<'a> {
        let begun = if rt.stderr().is_terminal() {
            Instant::now(rt).ok()
        } else {
            None
        };
        Progress {
            rt,
            begun,
            told: Cell::new(0),
        }
    }

    /// Clears the line, if there is one.
    pub fn end(&self) {
        if self.told.get() > 0 {
            let _ = eprint!(self.rt; "{CLEAR}");
        }
    }

    fn tell(&self, states: usize, rate: u64) {
        let about = self.rt.read(ABOUT_PROCESS, MOST_ABOUT_PROCESS);
        let memory = match about {
            Ok(text) => memory_in(text.as_slice()) / 1024,
            Err(_) => 0,
        };
        let _ = eprint!(self.rt; "{CLEAR}states {states}, {rate} a second, {memory} MB");
    }
}

impl<'a> Watch for Progress<'a> {
    fn seen(&self, states: usize) {
        let Some(begun) = self.begun else {
            return;
        };
        let Ok(gone) = begun.elapsed(self.rt) else {
            return;
        };
        let seconds = gone.as_secs();
        if seconds > self.told.get() {
            self.told.set(seconds);
            self.tell(states, states as u64 / seconds);
        }
    }
}
