// Time on one calendar, in minutes from the first day that an i32 can name. An activity starts at a worked minute and finishes at a closing one.
#![tactic(auto)]

ghost use Rattle.std.specs.Prelude.{◌≡◌, ℕ, ◌+◌, ◌*◌, ◌^◌, ◌≤◌, ◌<◌};
ghost use Rattle.date.specs.Years.{first_day, end_day};
ghost use Rattle.calendar.specs.Exceptions.{FirstOf};
ghost use Rattle.clock.specs.On.{worked_by};
ghost use Rattle.worktime.specs.Worked.{count};
ghost use Rattle.worktime.specs.Walks.{end_minute, next_start, previous_finish, next_finish, working_at, previous_start, start_by, advance, retreat, shift, between, day_work, worked_before};

use calendar::Calendar;
use date::{FIRST_DAY, LAST_DAY};
use worktime::ClockError;

mod records;
mod weeks;

use weeks::WeekSums;
pub use worktime::TOO_LONG;

// More minutes than the years that may be read have.
const MANY: u64 = 6184752906240;

// The least worked minute at or after `t`.
pub fn next_start(calendar: &Calendar, t: u64) -> Result<u64, ClockError>
    ensures { result ≡ next_start (worked_by calendar.now) t }
{
    let first = t / 1440;
    let mut m = t % 1440;
    if first < FIRST_DAY {
        return Err(ClockError::TooLong);
    }
    let mut from = calendar.exceptions.first_from(first);
    for d in first..=LAST_DAY {
        let hours = calendar.hours_from(d, from);
        match hours.next_minute(m) {
            Some(x) => {
                return Ok(d * 1440 + x);
            }
            None => {}
        }
        from += hours.records.n;
        m = 0;
    }
    Err(ClockError::TooLong)
}

// The greatest closing minute at or before `t`.
// It mirrors `next_start`: the search, the sums and the end differ, so one function would take all three and be no plainer.
pub fn previous_finish(calendar: &Calendar, t: u64) -> Result<u64, ClockError>
    ensures { result ≡ previous_finish (worked_by calendar.now) t }
{
    let last = t / 1440;
    let mut m = t % 1440;
    if LAST_DAY < last {
        return Err(ClockError::TooLong);
    }
    let mut to = calendar.exceptions.first_from(last + 1);
    for d in (FIRST_DAY..=last).rev() {
        let hours = calendar.hours_to(d, to);
        let done = hours.rank(m);
        if 0 < done {
            return Ok(d * 1440 + hours.select(done));
        }
        to -= hours.records.n;
        m = 1440;
    }
    Err(ClockError::TooLong)
}

// Whether `t` is a worked minute.
pub fn working_at(calendar: &Calendar, t: u64) -> Result<bool, ClockError>
    ensures { result ≡ working_at (worked_by calendar.now) t }
{
    let d = worktime::read_day(t / 1440)?;
    let m = t % 1440;
    let hours = calendar.hours_on(d);
    Ok(hours.next_minute(m) == Some(m))
}

// `t` if it is closing, else the next start; `t`'s day is read, and the day of the minute before.
pub fn next_finish(calendar: &Calendar, t: u64) -> Result<u64, ClockError>
    ensures { result ≡ next_finish (worked_by calendar.now) t }
{
    worktime::read_day(t / 1440)?;
    let closing = working_at(calendar, t - 1)?;
    if closing {
        return Ok(t);
    }
    next_start(calendar, t)
}

// `t` if it is worked, else the next start: the same moment, since no work lies between.
pub fn previous_start(calendar: &Calendar, t: u64) -> Result<u64, ClockError>
    ensures { result ≡ previous_start (worked_by calendar.now) t }
{
    let worked = working_at(calendar, t)?;
    if worked {
        return Ok(t);
    }
    next_start(calendar, t)
}

// `t` if it is worked, else the minute before the previous finish: for a date that a start must not pass.
// It differs from `previous_start` in the walk that it ends with: a function of that walk would take its contract, too, and be no plainer.
pub fn start_by(calendar: &Calendar, t: u64) -> Result<u64, ClockError>
    ensures { result ≡ start_by (worked_by calendar.now) t }
{
    let worked = working_at(calendar, t)?;
    if worked {
        return Ok(t);
    }
    let f = previous_finish(calendar, t)?;
    Ok(f - 1)
}

// The closing minute with `work` worked minutes from the beginning of day `d` on; `from` is the first E record whose day is `d` or later.
// The bounds of `d` and of `work` are clauses, here and below: a type with the bound would put its number between each contract and its definition.
fn advance_from(calendar: &Calendar, d: u64, from: usize, work: u64) -> Result<u64, ClockError>
    requires { FirstOf calendar.now.exceptions d from × (first_day ≤ d) × (d < end_day) × (0 < work) × (work < 2 ^ 47) }
    ensures { result ≡ advance (worked_by calendar.now) (d * 1440) work }
{
    let sums = WeekSums::of(calendar.week);
    let stand = records::ahead(&sums, &calendar.exceptions, d, from, work);
    let j = stand.at;
    if j < calendar.exceptions.n {
        if stand.start < work {
            let day = calendar.exceptions.day(j);
            if LAST_DAY < day {
                return Err(ClockError::TooLong);
            }
            let period = calendar.exceptions.period(j);
            return Ok(day * 1440 + period.from as u64 + (work - stand.start));
        }
    }
    if sums.entries[7] == 0 {
        return Err(ClockError::TooLong);
    }
    let p = stand.over + (work - stand.passed) - 1;
    let next = sums.day_after(p);
    if LAST_DAY + 1 < next {
        return Err(ClockError::TooLong);
    }
    let day = next - 1;
    let k = p - sums.minutes_before(day) + 1;
    Ok(day * 1440 + calendar::row_select(calendar.row(day), k))
}

// The closing minute with `work` worked minutes from `t`, and `t` itself for none.
pub fn advance(calendar: &Calendar, t: u64, work: u64) -> Result<u64, ClockError>
    ensures { result ≡ advance (worked_by calendar.now) t work }
{
    if work == 0 {
        return Ok(t);
    }
    let d = worktime::read_day(t / 1440)?;
    if MANY < work {
        return Err(ClockError::TooLong);
    }
    let from = calendar.exceptions.first_from(d);
    let hours = calendar.hours_from(d, from);
    let done = hours.rank(t % 1440);
    advance_from(calendar, d, from, done + work)
}

// The worked minute with `work` worked minutes from it up to the beginning of day `d`; `from` is the first E record whose day is `d` or later.
// It mirrors `advance_from`: the walk among the records, both tests of the years and both ends differ, so one function would take them all and be no plainer.
fn retreat_from(calendar: &Calendar, d: u64, from: usize, work: u64) -> Result<u64, ClockError>
    requires { FirstOf calendar.now.exceptions d from × (first_day ≤ d) × (d < end_day) × (0 < work) × (work < 2 ^ 47) }
    ensures { result ≡ retreat (worked_by calendar.now) (d * 1440) work }
{
    let sums = WeekSums::of(calendar.week);
    let stand = records::back(&sums, &calendar.exceptions, d, from, work);
    let j = stand.at;
    if 0 < j {
        if stand.start < work {
            let day = calendar.exceptions.day(j - 1);
            if day < FIRST_DAY {
                return Err(ClockError::TooLong);
            }
            let period = calendar.exceptions.period(j - 1);
            let left = calendar.exceptions.work(j - 1) - (work - stand.start);
            return Ok(day * 1440 + period.from as u64 + left);
        }
    }
    let rest = work - stand.passed;
    if stand.over < rest {
        return Err(ClockError::TooLong);
    }
    let p = stand.over - rest;
    let next = sums.day_after(p);
    if next <= FIRST_DAY {
        return Err(ClockError::TooLong);
    }
    let day = next - 1;
    let k = p - sums.minutes_before(day) + 1;
    Ok(day * 1440 + calendar::row_select(calendar.row(day), k) - 1)
}

// The worked minute with `work` worked minutes from it up to `t`, and `t` itself for none.
// It begins as `advance` does: a function of the beginning would answer the day, its first E record, its hours and what is done of them, and be no shorter.
pub fn retreat(calendar: &Calendar, t: u64, work: u64) -> Result<u64, ClockError>
    ensures { result ≡ retreat (worked_by calendar.now) t work }
{
    if work == 0 {
        return Ok(t);
    }
    let d = worktime::read_day(t / 1440)?;
    if MANY < work {
        return Err(ClockError::TooLong);
    }
    let from = calendar.exceptions.first_from(d);
    let hours = calendar.hours_from(d, from);
    let done = hours.rank(t % 1440);
    if work <= done {
        return Ok(d * 1440 + hours.select(done - work + 1) - 1);
    }
    retreat_from(calendar, d, from, work - done)
}

// `t` moved by `lag` worked minutes: forward for a lag, back for a lead.
pub fn shift(calendar: &Calendar, t: u64, lag: i64) -> Result<u64, ClockError>
    ensures { result ≡ shift (worked_by calendar.now) t lag }
{
    let back = number::sign::downward(lag);
    if back == 0 {
        return advance(calendar, t, number::sign::upward(lag));
    }
    retreat(calendar, t, back)
}

// The minutes worked on day `d`.
pub fn day_work(calendar: &Calendar, d: u64) -> Result<i64, ClockError>
    ensures { result ≡ day_work (worked_by calendar.now) d }
{
    worktime::read_day(d)?;
    let hours = calendar.hours_on(d);
    Ok(hours.rank(1440) as i64)
}

// The minutes worked on `t`'s day before `t`. It and `day_work` are two lines each, of two definitions.
pub fn worked_before(calendar: &Calendar, t: u64) -> Result<i64, ClockError>
    ensures { result ≡ worked_before (worked_by calendar.now) t }
{
    let d = worktime::read_day(t / 1440)?;
    let m = t % 1440;
    let hours = calendar.hours_on(d);
    Ok(hours.rank(m) as i64)
}

// The minutes of days in a row, and the first E record whose day is after them.
#[derive(Clone, Copy)]
struct Days {
    minutes: u64,
    to: usize,
}

// The minutes worked on the days from `d` up to but not `e`; `from` is the first E record whose day is `d` or later.
fn days_work(calendar: &Calendar, d: u64, e: u64, from: usize) -> Days
    requires { (d ≤ e) × (e < 4294967296) × FirstOf calendar.now.exceptions d from }
    ensures { (count (worked_by calendar.now) (d * 1440) + result.minutes ≡ count (worked_by calendar.now) (e * 1440)) × (result.minutes ≤ 6184752906240) × FirstOf calendar.now.exceptions e result.to }
{
    let sums = WeekSums::of(calendar.week);
    let mut sum = sums.regular_work(d, e);
    let mut next = d;
    // By the index, here and in `records`: the record at which the sum ends is answered with it.
    for j in from..calendar.exceptions.n {
        let day = calendar.exceptions.day(j);
        if e <= day {
            return Days {
                minutes: sum,
                to: j,
            };
        }
        let regular = sums.minutes_on(day);
        // The first record of a day takes out what the sum has of it by its weekday; for a further one that stays out.
        let out = if next <= day { 0 } else { regular };
        sum = sum + calendar.exceptions.work(j) + out - regular;
        next = day + 1;
    }
    Days {
        minutes: sum,
        to: calendar.exceptions.n,
    }
}

// The minutes worked from `a` up to `b`, both in the years that may be read.
fn work_to(calendar: &Calendar, a: u64, b: u64) -> u64
    requires { (a ≤ b) × (b < end_minute) }
    ensures { (count (worked_by calendar.now) a + result ≡ count (worked_by calendar.now) b) × (result ≤ 6184752907680) }
{
    if a == b {
        return 0;
    }
    let d = a / 1440;
    let e = b / 1440;
    let from = calendar.exceptions.first_from(d);
    let first = calendar.hours_from(d, from);
    let before = first.rank(a % 1440);
    if d == e {
        return first.rank(b % 1440) - before;
    }
    let days = days_work(calendar, d, e, from);
    let last = calendar.hours_from(e, days.to);
    days.minutes + last.rank(b % 1440) - before
}

// The minutes worked from `a` to `b`: negative where `b` comes first.
pub fn between(calendar: &Calendar, a: u64, b: u64) -> Result<i64, ClockError>
    ensures { result ≡ between (worked_by calendar.now) a b }
{
    worktime::read_day(a / 1440)?;
    worktime::read_day(b / 1440)?;
    if a <= b {
        return Ok(work_to(calendar, a, b) as i64);
    }
    Ok(number::sign::difference(work_to(calendar, b, a), 0))
}
