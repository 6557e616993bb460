// How long the frames of a command take, by the clock if there is one.
use std::time::{Duration, Instant};

/// The frames so far, and the time that they took. The time in which a command waits for an order doesn't count.
#[derive(Clone, Copy)]
pub(crate) struct Meter {
    // Since when time is counted; none if the clock can't be read.
    mark: Option<Instant>,
    busy: Duration,
    // The frames within that time, and those since it was looked at last.
    timed: u64,
    fresh: u64,
}

impl Meter {
    /// Of no frames.
    pub(crate) fn new() -> Meter {
        Meter {
            mark: None,
            busy: Duration::from_secs(0),
            timed: 0,
            fresh: 0,
        }
    }

    /// Whether it never ran.
    pub(crate) fn is_new(&self) -> bool {
        self.mark.is_none()
    }

    /// It runs from now on.
    pub(crate) fn start(&mut self, rt: &HostRuntime) {
        self.mark = Instant::now(rt).ok();
    }

    /// One more frame.
    pub(crate) fn add(&mut self) {
        self.fresh = self.fresh.saturating_add(1);
    }

    /// The frames so far took until now.
    pub(crate) fn look(&mut self, rt: &HostRuntime) {
        let now = Instant::now(rt).ok();
        if let (Some(mark), Some(now)) = (self.mark, now) {
            self.busy = self.busy.saturating_add(now.duration_since(mark));
            self.timed = self.timed.saturating_add(self.fresh);
            self.fresh = 0;
        }
        self.mark = now;
    }

    /// The seconds that all took.
    pub(crate) fn seconds(&self) -> Option<u64> {
        match self.mark {
            Some(_) => Some(self.busy.as_secs()),
            None => None,
        }
    }

    /// The seconds that this many more frames should take, if there were enough to tell.
    pub(crate) fn seconds_for(&self, frames: u64) -> Option<u64> {
        if self.mark.is_none() || self.timed < ENOUGH {
            return None;
        }
        let millis = self
            .busy
            .as_secs()
            .saturating_mul(1000)
            .saturating_add(u64::from(self.busy.subsec_millis()));
        Some(millis.saturating_mul(frames) / self.timed / 1000)
    }
}

// So many frames tell how long one takes.
const ENOUGH: u64 = 8;
