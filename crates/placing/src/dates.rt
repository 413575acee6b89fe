// Days as times on the activity's own calendar: a constraint's, and those that are recorded of its work.
ghost use Rattle.std.specs.Prelude.{◌≡◌, ◌+◌, ◌/◌, Ok, Err, Some, None};
ghost use Rattle.clock.specs.On.{worked_by};
ghost use Rattle.worktime.specs.Walks.{reads, previous_finish};
ghost use Rattle.project.specs.Status.{on_start};
ghost use Rattle.placing.specs.Placing.{midnight_of, moment_of, day_start, constraint_time, actual};

use crate::Actual;
use calendar::Calendar;
use date::Date;
use project::{Activity, Constraint, End};
use worktime::ClockError;

// The start of a day's first work period, or its midnight where it has none.
fn start_of_day(calendar: &Calendar, day: Date) -> Result<u64, ClockError>
    ensures { result ≡ reads Err (midnight_of day / 1440) (Ok (day_start (worked_by calendar.now) (midnight_of day))) }
{
    let t = day.midnight();
    let d = worktime::read_day(t / 1440)?;
    let hours = calendar.hours_on(d);
    Ok(t + hours.next_minute(0).unwrap_or(0))
}

// The last finish by the end of a day.
pub fn finish_by_day(calendar: &Calendar, day: Date) -> Result<u64, ClockError>
    ensures { result ≡ previous_finish (worked_by calendar.now) (midnight_of day + 1440) }
{
    clock::previous_finish(calendar, day.midnight() + 1440)
}

// A walk's answer as a constraint's time.
fn moment_of(walk: Result<u64, ClockError>) -> Result<Option<u64>, ClockError>
    ensures { result ≡ moment_of walk }
{
    walk.map(Some)
}

// The time that a constraint holds its end to, if it bounds one.
pub fn constraint_time(
    calendar: &Calendar,
    constraint: Option<Constraint>,
) -> Result<Option<u64>, ClockError>
    ensures { result ≡ constraint_time (worked_by calendar.now) (on_start constraint) }
{
    let Some(end) = project::on_start(constraint) else {
        return Ok(None);
    };
    match end {
        End::Start(day) => moment_of(start_of_day(calendar, day)),
        End::Finish(day) => moment_of(finish_by_day(calendar, day)),
    }
}

// Work that began on a day and goes on.
fn begun(calendar: &Calendar, start: Date) -> Result<Actual, ClockError>
    ensures { result ≡ actual (worked_by calendar.now) (Some start) None }
{
    let s = clock::next_start(calendar, start.midnight())?;
    Ok(Actual::Begun(s))
}

// Work that began on a day and ended on another: its finish is not before its start.
fn completed(calendar: &Calendar, start: Date, finish: Date) -> Result<Actual, ClockError>
    ensures { result ≡ actual (worked_by calendar.now) (Some start) (Some finish) }
{
    let s = clock::next_start(calendar, start.midnight())?;
    let f = finish_by_day(calendar, finish)?;
    Ok(Actual::Completed(s, f.max(s)))
}

// What is recorded of the activity's work: with only a finish day, it began on that day.
pub fn actual(activity: &Activity, calendar: &Calendar) -> Result<Actual, ClockError>
    ensures { result ≡ actual (worked_by calendar.now) activity.now.actual_start activity.now.actual_finish }
{
    match (activity.actual_start, activity.actual_finish) {
        (Some(start), Some(finish)) => completed(calendar, start, finish),
        (None, Some(finish)) => completed(calendar, finish, finish),
        (Some(start), None) => begun(calendar, start),
        (None, None) => Ok(Actual::Unstarted),
    }
}
