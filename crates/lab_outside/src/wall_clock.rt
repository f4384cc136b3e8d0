// The time of the system's clock. Its times aren't told.
ghost use Rattle.std.specs.Prelude.{◌≡◌, None};

use crate::ports::Clock;
use std::rt;

/// The time of a runtime's clock, in milliseconds since 1970: 0 before that and where it can't be read, and
/// the greatest number of 64 bits past that.
#[derive(Drop)]
pub struct WallClock<R> {
    runtime: R,
}

impl<R: rt::Clock> WallClock<R> {
    pub fn new(runtime: R) -> Self
        ensures times { ⟦<WallClock<R> as Clock>⟧.times result ≡ None }
    {
        WallClock { runtime }
    }
}

impl<R: rt::Clock> Clock for WallClock<R> {
    ghost times = { λ _. None };

    fn now(&mut self) -> u64 {
        match self.runtime.since_1970() {
            Ok(time) => u64::try_from(time.as_millis()).unwrap_or(u64::MAX),
            Err(_) => 0,
        }
    }
}
