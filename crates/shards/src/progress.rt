//! Progress.

use ark_bytes::{Failed, Sink, Source};
use std::io::Eprint;
use std::rt::Clock;
use std::time::{Duration, Instant};

// How many milliseconds it is silent between two words of how far it is.
const PAUSE: u64 = 500;

/// How progress is told.
#[derive(Clone, Copy, Debug, PartialEq, Eq)]
pub enum Telling {
    /// Not at all.
    Silent,
    /// By lines.
    Lines,
    /// On one line of a terminal.
    Terminal,
}

/// Tells how much is done.
#[derive(Drop)]
pub struct Progress<'a, E> {
    rt: &'a E,
    telling: Telling,
    verb: &'a str,
    // How many bytes there are, where that is known.
    total: Option<u64>,
    done: u64,
    begun: Option<Instant>,
    told: Duration,
}

impl<'a, E: Eprint + Clock> Progress<'a, E> {
    /// Of which nothing is done yet.
    pub fn new(rt: &'a E, telling: Telling, verb: &'a str, total: Option<u64>) -> Self {
        let begun = match telling {
            Telling::Silent => None,
            _ => Instant::now(rt).ok(),
        };
        Progress {
            rt,
            telling,
            verb,
            total,
            done: 0,
            begun,
            told: Duration::ZERO,
        }
    }

    // So many bytes more are done.
    fn count(&mut self, bytes: usize) {
        self.done = self.done.saturating_add(bytes as u64);
        if self.telling != Telling::Silent {
            let now = self.elapsed();
            if now.saturating_sub(self.told) >= Duration::from_millis(PAUSE) {
                self.told = now;
                self.tell(now);
            }
        }
    }

    // How long it has gone on.
    fn elapsed(&self) -> Duration {
        match self.begun {
            Some(begun) => begun.elapsed(self.rt).unwrap_or(Duration::ZERO),
            None => Duration::ZERO,
        }
    }

    // Tells how far it is.
    fn tell(&self, elapsed: Duration) {
        let megabytes = self.done / 1_000_000;
        let speed = speed_of(self.done, elapsed);
        let verb = self.verb;
        let percent = percent_of(self.done, self.total);
        let start = if self.telling == Telling::Terminal {
            "\r"
        } else {
            ""
        };
        let end = if self.telling == Telling::Terminal {
            "  "
        } else {
            "\n"
        };
        let _ = match percent {
            Some(percent) => {
                eprint!(self.rt;
                    "{start}{verb}: {percent}% of the file, {megabytes} MB, {speed} MB/s{end}"
                )
            }
            None => eprint!(self.rt; "{start}{verb}: {megabytes} MB, {speed} MB/s{end}"),
        };
    }

    /// Tells that all is done.
    pub fn finish(&self) {
        if self.telling != Telling::Silent {
            self.tell(self.elapsed());
        }
        if self.telling == Telling::Terminal {
            let _ = eprint!(self.rt; "\n");
        }
    }
}

// How many megabytes a second these are.
fn speed_of(bytes: u64, elapsed: Duration) -> u64 {
    let seconds = elapsed.as_secs().saturating_mul(1000);
    let millis = seconds.saturating_add(u64::from(elapsed.subsec_millis()));
    bytes / millis.max(1) / 1000
}

// How many percent of the whole these are, where that is known.
fn percent_of(done: u64, total: Option<u64>) -> Option<u64> {
    match total {
        Some(0) | None => None,
        Some(total) if total < 1 << 32 => Some(done.min(total) * 100 / total),
        Some(total) => Some(done.min(total) / (total / 100)),
    }
}

/// A source or a sink, and how much went through it.
#[derive(Drop)]
pub struct Watched<'a, T, E> {
    inner: T,
    progress: Progress<'a, E>,
}

impl<'a, T, E: Eprint + Clock> Watched<'a, T, E> {
    /// Through which nothing went yet.
    pub fn new(inner: T, progress: Progress<'a, E>) -> Self {
        Watched { inner, progress }
    }

    /// What was watched. It is told that all is done.
    pub fn finish(self) -> T {
        self.progress.finish();
        self.inner
    }

    /// What was watched, where it was not all done.
    pub fn into_inner(self) -> T {
        self.inner
    }
}

impl<'a, S: Source, E: Eprint + Clock> Source for Watched<'a, S, E> {
    ghost remaining = { λ watched. S.remaining watched.inner };

    ghost failures = { λ watched. S.failures watched.inner };

    fn take(&mut self, buffer: &mut [u8]) -> Result<usize, Failed> {
        let count = self.inner.take(buffer)?;
        self.progress.count(count);
        Ok(count)
    }
}

impl<'a, W: Sink, E: Eprint + Clock> Sink for Watched<'a, W, E> {
    ghost contents = { λ watched. W.contents watched.inner };

    ghost failures = { λ watched. W.failures watched.inner };

    fn put(&mut self, bytes: &[u8]) -> Result<(), Failed> {
        self.inner.put(bytes)?;
        self.progress.count(bytes.len());
        Ok(())
    }
}
