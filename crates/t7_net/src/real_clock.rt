//! The real clock. It tells nothing of the moments that it gave.
ghost use Rattle.std.specs.Prelude.{ℕ, None};

use crate::Clock;
use std::time::{SystemTime, UNIX_EPOCH};
use t7_base::Moment;

/// The system's clock, in nanoseconds since 1970. Where it can't be read, or shows a time before 1970 or after 2116, the last moment is
/// given again, and 0 where there is none.
#[derive(Drop)]
pub struct RealClock<'a, R> {
    rt: &'a R,
    last: Moment,
}

impl<'a, R: std::rt::Clock> RealClock<'a, R> {
    /// No moment was given yet.
    pub fn new(rt: &'a R) -> RealClock<'a, R> {
        let last = match Moment::new(0) {
            Some(moment) => moment,
            None => unreachable!(),
        };
        RealClock { rt, last }
    }

    // The moment that the system's clock shows, where it can be read and is one.
    fn read(&self) -> Option<Moment> {
        let time = SystemTime::now(self.rt).ok()?;
        let since = time.duration_since(UNIX_EPOCH).ok()?;
        Moment::new(u64::try_from(since.as_nanos()).ok()?)
    }
}

impl<R: std::rt::Clock> Clock for RealClock<'_, R> {
    ghost given = { λ _. None };

    fn now(&mut self) -> Moment {
        if let Some(moment) = self.read() {
            self.last = moment;
        }
        self.last
    }
}
