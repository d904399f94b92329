//! The system's clock.
use bk_base::Moment;
use bk_disk::Clock;
use std::time;
use std::time::SystemTime;

/// The seconds since 1970. Where the system's clock fails, or its time doesn't fit a moment, it is
/// the last moment again; at first that is 0.
#[derive(Drop)]
pub struct OsClock<R: time::Clock + Drop> {
    rt: R,
    last: Moment,
}

impl<R: time::Clock + Drop> OsClock<R> {
    pub fn new(rt: R) -> OsClock<R> {
        OsClock {
            rt,
            last: Moment(0),
        }
    }

    fn seconds(&self) -> Option<u32> {
        let now = SystemTime::now(&self.rt).ok()?;
        let since = now.duration_since(SystemTime::UNIX_EPOCH).ok()?;
        u32::try_from(since.as_secs()).ok()
    }
}

impl<R: time::Clock + Drop> Clock for OsClock<R> {
    ghost use Rattle.std.specs.Prelude.{false, []};

    ghost tells = { false };

    ghost moments = { λ _. [] };

    fn now(&mut self) -> Moment {
        if let Some(seconds) = self.seconds() {
            self.last = Moment(seconds);
        }
        self.last
    }
}
