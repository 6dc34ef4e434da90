//! `Deadline`: the time at which the wait for a server ends; for the modules that ask one.
ghost use Rattle.std.specs.Prelude.{◌≡◌, ◌+◌, ◌<◌, ◌≤◌, ◌↔◌, IsSome, IfSome};
ghost use Rattle.std.specs.Duration.{as_nanos};
ghost use Rattle.std.specs.Time.{instant_nanos};

use crate::link::Failure;
use std::thread;
use std::time::{Clock, Duration, Instant};

/// The seconds that a verb may take with all of its tries. A command, a look of a watch and a request
/// of a load, which are tried once, may take as many.
pub const MOST_SECONDS: u64 = 20;

/// The seconds that one try of a verb may take.
const TRY_SECONDS: u64 = 10;

/// The time at which the wait for a server ends.
#[derive(Clone, Copy, Debug)]
pub struct Deadline {
    end: Instant,
}

/// Returns the time from `now` to `end`; `None` if `end` is not later than `now`.
fn time_between(now: Instant, end: Instant) -> Option<Duration>
    ensures later { IsSome result ↔ (instant_nanos now < instant_nanos end) }
    ensures time { IfSome result (λ d. instant_nanos now + as_nanos d ≡ instant_nanos end) }
{
    let time = end.checked_duration_since(now)?;
    if time.is_zero() { None } else { Some(time) }
}

/// Returns the time this many seconds from now; `None` if the clock gives no time.
fn seconds_from_now<R: Clock>(rt: &R, seconds: u64) -> Option<Instant> {
    Instant::now(rt)
        .ok()?
        .checked_add(Duration::from_secs(seconds))
}

impl Deadline {
    /// Returns the deadline of what begins now: 20 seconds from now. `NoClock` if the clock gives no
    /// time.
    pub fn begin<R: Clock>(rt: &R) -> Result<Deadline, Failure> {
        match seconds_from_now(rt, MOST_SECONDS) {
            Some(end) => Ok(Deadline { end }),
            None => Err(Failure::NoClock),
        }
    }

    /// Returns the deadline of a try that begins now: 10 seconds from now, or this one if it is
    /// earlier.
    pub fn of_try<R: Clock>(self, rt: &R) -> Deadline
        ensures { instant_nanos result.end ≤ instant_nanos self.end }
    {
        self.within(rt, TRY_SECONDS)
    }

    /// Returns the time this many seconds from now, or this deadline if it is earlier.
    pub fn within<R: Clock>(self, rt: &R, seconds: u64) -> Deadline
        ensures { instant_nanos result.end ≤ instant_nanos self.end }
    {
        match seconds_from_now(rt, seconds) {
            Some(end) if time_between(end, self.end).is_some() => Deadline { end },
            _ => self,
        }
    }

    /// Returns the time that is left; `None` if none is left, or if the clock gives no time.
    pub fn left<R: Clock>(&self, rt: &R) -> Option<Duration>
        ensures { IfSome result (λ d. 0 < as_nanos d) }
    {
        time_between(Instant::now(rt).ok()?, self.end)
    }

    /// Waits this long, but not beyond the deadline. Returns true if time is left then.
    pub fn pause<R: Clock>(&self, rt: &R, pause: Duration) -> bool {
        let Some(left) = self.left(rt) else {
            return false;
        };
        thread::sleep(rt, pause.min(left));
        self.left(rt).is_some()
    }
}
