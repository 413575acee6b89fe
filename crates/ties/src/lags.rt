// A link's lag: its calendar, its minutes, and whether it is too long.
ghost use Rattle.std.specs.Prelude.{◌≡◌, false, ℕ, ◌+◌, ◌^◌, ◌≤◌, ◌<◌, pos, ◌*ℤ◌};
ghost use Rattle.number.specs.Zed.{up, dn};
ghost use Rattle.order.specs.Lags.{beyond, working_calendar, lag_calendar, lag_minutes, lag_before, lag_too_long};

use project::{LagCalendar, LagKind};

// A lag with what its minutes are counted by: the day length of its calendar, and the minutes of its predecessor.
#[derive(Clone, Copy)]
pub struct Lag {
    pub lag: LagKind,
    pub day_length: u64,
    pub duration: i64,
    ghost day_within: { day_length ≤ 1440 },
    ghost duration_within: { up duration + dn duration ≤ 48000000 },
}

// Whether `z` lies more than `limit` from 0.
pub fn is_beyond(limit: u64, z: i64) -> bool
    ensures { result ≡ beyond limit z }
{
    z.unsigned_abs() > limit
}

// Whether a lag is too long before it is converted.
#[tactic(auto, unfolding(order::specs::Lags::lag_before))]
pub fn lag_before(lag: LagKind) -> bool
    ensures { result ≡ lag_before lag }
{
    match lag {
        // Four arms: an or-pattern that binds an i32 was tried, and the check stops at it with a fault of its own.
        LagKind::WorkingDays(n) => is_beyond(100_000, n as i64),
        LagKind::WorkingMinutes(n) => is_beyond(144_000_000, n as i64),
        LagKind::ElapsedDays(n) => is_beyond(100_000, n as i64),
        LagKind::ElapsedMinutes(n) => is_beyond(144_000_000, n as i64),
        LagKind::Percent(_) => false,
    }
}

// The calendar that a working lag counts on; `last` is the number of the round-the-clock one, which the lent cell holds like any other.
#[tactic(auto, unfolding(order::specs::Lags::working_calendar))]
pub fn working_calendar(by: LagCalendar, pred: u64, succ: u64, last: u64) -> u64
    ensures { result ≡ working_calendar by pred succ last }
{
    match by {
        LagCalendar::Predecessor => pred,
        LagCalendar::Successor => succ,
        LagCalendar::TwentyFourHour => last,
        LagCalendar::Project => 0,
    }
}

// The calendar that a lag counts on.
#[tactic(auto, unfolding(order::specs::Lags::lag_calendar, order::specs::Lags::working_calendar))]
pub fn lag_calendar(lag: LagKind, by: LagCalendar, pred: u64, succ: u64, last: u64) -> u64
    requires { (pred ≤ last) × (succ ≤ last) }
    ensures { (result ≡ lag_calendar lag by pred succ last) × (result ≤ last) }
{
    match lag {
        LagKind::WorkingDays(_) | LagKind::WorkingMinutes(_) => {
            working_calendar(by, pred, succ, last)
        }
        LagKind::ElapsedDays(_) | LagKind::ElapsedMinutes(_) => last,
        LagKind::Percent(_) => pred,
    }
}

impl Lag {
    // The lag in minutes, where it is not too long before it is converted.
    pub fn minutes(&self) -> i64
        requires { lag_before self.now.lag ≡ false }
        ensures { (result ≡ lag_minutes self.now.lag self.now.day_length self.now.duration) × (up result + dn result ≤ 4800000000) }
    {
        match self.lag {
            LagKind::WorkingDays(n) => calendars::days_in_minutes(n, self.day_length),
            LagKind::WorkingMinutes(n) => n as i64,
            LagKind::ElapsedDays(n) => calendars::days_in_minutes(n, 1440),
            LagKind::ElapsedMinutes(n) => n as i64,
            LagKind::Percent(n) => number::sign::percent(self.duration, n as i64),
        }
    }

    // Row 8 for the lag, before and after it is converted.
    pub fn is_too_long(&self) -> bool
        ensures { result ≡ lag_too_long self.now.lag self.now.day_length self.now.duration }
    {
        lag_before(self.lag) || is_beyond(144_000_000, self.minutes())
    }
}
