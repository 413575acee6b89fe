// Where work can begin and end: an activity with its own calendar and its minutes of work left, its recorded dates, and how far a time may lie.
#![tactic(auto)]

ghost use Rattle.std.specs.Prelude.{◌≡◌, ◌<◌};
ghost use Rattle.clock.specs.On.{worked_by};
ghost use Rattle.placing.specs.Placing.{status_of, bounded, latest_same};

use calendar::Calendar;
use worktime::ClockError;

pub mod dates;
mod work;

pub use work::Work;

// What is recorded of an activity's work: the minutes of its start and finish.
#[derive(Clone, Copy)]
pub enum Actual {
    Unstarted,
    Begun(u64),
    Completed(u64, u64),
}

impl Actual {
    // How far the work has come: 0 unstarted, 1 begun, 2 completed. A number, since only the lent cell and the row of results take it, which hold one.
    pub fn status(self) -> u64
        ensures { (result ≡ status_of self) × (result < 3) }
    {
        match self {
            Actual::Unstarted => 0,
            Actual::Begun(_) => 1,
            Actual::Completed(_, _) => 2,
        }
    }
}

// How far from the project's start a time may lie.
const SPAN: u64 = 288000000;

// `t`, if it lies within the span of `origin`, the project's start.
pub fn bounded(origin: u64, t: u64) -> Result<u64, ClockError>
    ensures { result ≡ bounded origin t }
{
    if SPAN < t.abs_diff(origin) {
        return Err(ClockError::TooLong);
    }
    Ok(t)
}

// The latest moment that is the same as `t`, with no work between.
pub fn latest_same(calendar: &Calendar, t: u64) -> Result<u64, ClockError>
    ensures { result ≡ latest_same (worked_by calendar.now) t }
{
    clock::next_start(calendar, t)
}
