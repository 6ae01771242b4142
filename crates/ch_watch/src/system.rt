//! The system's clock, and its standard error, as the watcher uses them.

use crate::watcher::{Lines, Timer};
use std::io::{Stderr, Write};
use std::time::Clock;

impl<R: Clock + Sync> Timer for R {
    fn milliseconds(&self) -> Option<u64> {
        let time = self.monotonic().ok()?;
        u64::try_from(time.as_millis()).ok()
    }
}

impl Lines for Stderr {
    fn take(&self, line: &str) {
        let mut errors = *self;
        let _ = errors.write_all(line.as_bytes());
    }
}
