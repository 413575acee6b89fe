// Before the forward pass: recorded dates are placed and the work left of each activity is found.
#![tactic(auto)]

ghost use Rattle.std.specs.Prelude.{◌≡◌, false, ◌^◌, ◌<◌, Ok};
ghost use Rattle.number.specs.Zed.{up};
ghost use Rattle.memory.specs.Seen.{state, SameSlice};
ghost use Rattle.topology.specs.Frame.{Frame};
ghost use Rattle.order.specs.Plan.{plan_in};
ghost use Rattle.order.specs.Ids.{summary};
ghost use Rattle.passes.specs.Plan.{full};
ghost use Rattle.passes.specs.Forward.{since_start, still_left, left_by};
ghost use Rattle.passes.specs.Run.{remaining};
ghost use Rattle.calendars.specs.Calendars.{Own};
ghost use Rattle.dates.specs.Columns.{left_in, ended};
ghost use Rattle.dates.specs.Standing.{Ready, Recorded};
ghost use Rattle.dates.specs.Bounds.{ActualBelow};
ghost use Rattle.remaining.specs.Rows.{start_of, finish_of, kept, Row};

use calendars::PlanSheet;
use memory::Tables;
use placing::{Actual, Work};
use project::{Activity, Status};
use sheet::Sheet;
use worktime::ClockError;

// The most minutes of work left that an activity may tell.
const MOST: u64 = 144000000;

// Minutes as a record has them: 0 for a negative number.
fn minutes_of(minutes: i32) -> u64
    ensures { (result ≡ up minutes) × (result < 2 ^ 63) }
{
    number::sign::upward(minutes as i64)
}

// The minutes less the work from the recorded start to the data day; all of them without a data day.
// `Own` and `full` are clauses, here and at its callers: a type of work that kept them would hold the sheet and `i`, too, and be made anew at each activity.
fn since_start(sheet: &Sheet, i: usize, work: &Work, start: u64) -> Result<u64, ClockError>
    requires { Own sheet.now i work.now.activity work.now.calendar × (work.now.left ≡ full (plan_in sheet.now) i) }
    ensures { result ≡ since_start (plan_in sheet.now) i start (plan_in sheet.now).project.data_date }
{
    match sheet.data_date() {
        None => Ok(work.left),
        Some(day) => {
            let by = day.midnight().max(start);
            let done = clock::between(&work.calendar, start, by)?;
            Ok(work.left.saturating_sub(number::sign::upward(done)))
        }
    }
}

// The work left of work under way: what the activity tells, else its minutes less the work done by the data day.
fn still_left(sheet: &Sheet, i: usize, work: &Work, start: u64) -> Result<u64, ClockError>
    requires { Own sheet.now i work.now.activity work.now.calendar × (work.now.left ≡ full (plan_in sheet.now) i) }
    ensures { result ≡ still_left (plan_in sheet.now) i start ((plan_in sheet.now).activity i).remaining }
{
    match work.activity.remaining {
        Some(minutes) => Ok(minutes_of(minutes).min(MOST)),
        None => since_start(sheet, i, work, start),
    }
}

// The work left by what is recorded, where `work` has all minutes of the activity: all of it where work has not begun, none once it is completed.
fn left_of(sheet: &Sheet, i: usize, work: &Work, actual: Actual) -> Result<u64, ClockError>
    requires { Own sheet.now i work.now.activity work.now.calendar × (work.now.left ≡ full (plan_in sheet.now) i) }
    ensures { result ≡ left_by (plan_in sheet.now) i (Ok actual) }
{
    match actual {
        Actual::Unstarted => Ok(work.left),
        Actual::Begun(start) => still_left(sheet, i, work, start),
        Actual::Completed(_, _) => Ok(0),
    }
}

// The recorded start, 0 where there is none. `dates::begun_at` with 0 says the same of a plan, and there is none here.
fn start_of(actual: Actual) -> u64
    ensures { result ≡ start_of actual }
{
    match actual {
        Actual::Unstarted => 0,
        Actual::Begun(start) | Actual::Completed(start, _) => start,
    }
}

// The recorded finish, 0 where there is none.
fn finish_of(actual: Actual) -> u64
    ensures { result ≡ finish_of actual }
{
    let Actual::Completed(_, finish) = actual else {
        return 0;
    };
    finish
}

// Keeps what is recorded of activity `i` and the work left of it.
fn keep(tables: &mut Tables, i: usize, actual: Actual, left: u64)
    requires { (i < tables.old.activities) × ActualBelow (Ok actual) × (left < 2 ^ 63) }
    ensures { (state tables.new ≡ kept (state tables.old) i actual left) × SameSlice tables.old tables.new }
{
    tables.put_act(i, memory::fields::RECORDED_AS, actual.status());
    tables.put_act(i, memory::fields::RECORDED_START, start_of(actual));
    tables.put_act(i, memory::fields::RECORDED_FINISH, finish_of(actual));
    tables.put_act(i, memory::fields::WORK_LEFT, left);
}

// Activity `i`, no summary, of which a date is recorded.
fn record_dated(
    plan: &PlanSheet,
    tables: &mut Tables,
    i: usize,
    activity: Activity,
    whole: u64,
) -> Result<(), ClockError>
    requires { (tables.old.activities ≡ plan.now.sheet.contents.activities) × (i < plan.now.sheet.contents.activities) × (activity ≡ (plan_in plan.now.sheet).activity i) × (summary (plan_in plan.now.sheet) i ≡ false) × (whole ≡ full (plan_in plan.now.sheet) i) × (whole < 2 ^ 63) }
    ensures { Row (plan_in plan.now.sheet) i (state tables.old) (state tables.new) result × SameSlice tables.old tables.new }
{
    // No `dates::work_of`: the work left is not in the memory yet.
    let work = Work {
        activity,
        calendar: plan.calendar(activity.calendar as usize),
        left: whole,
    };
    let actual = placing::dates::actual(&work.activity, &work.calendar)?;
    let left = left_of(&plan.sheet, i, &work, actual)?;
    keep(tables, i, actual, left);
    Ok(())
}

// Activity `i`: a summary's dates are unread, and work of which nothing is recorded asks no calendar.
fn record_one(plan: &PlanSheet, tables: &mut Tables, i: usize) -> Result<(), ClockError>
    requires { Ready plan.now tables.old × (i < plan.now.sheet.contents.activities) }
    ensures { Row (plan_in plan.now.sheet) i (state tables.old) (state tables.new) result × SameSlice tables.old tables.new }
{
    if tables.is_summary(i) {
        keep(tables, i, Actual::Unstarted, 0);
        return Ok(());
    }
    let activity = dates::activity_of(&plan.sheet, i);
    let whole = minutes_of(activity.minutes);
    let first = activity.actual_start;
    let last = activity.actual_finish;
    match project::status_of(first, last) {
        Status::NotStarted => {
            keep(tables, i, Actual::Unstarted, whole);
            Ok(())
        }
        Status::InProgress | Status::Completed => record_dated(plan, tables, i, activity, whole),
    }
}

// Places the recorded dates and finds the work left of all activities, in sheet order.
pub fn remaining(plan: &PlanSheet, tables: &mut Tables) -> Result<(), ClockError>
    requires { Ready plan.now tables.old }
    ensures { (ended (left_in (plan_in plan.now.sheet) (state tables.new)) result ≡ remaining (plan_in plan.now.sheet)) × (result ≡ (Ok tt) → Recorded (plan_in plan.now.sheet) (state tables.new)) × Frame 14 20 0 0 (state tables.old) (state tables.new) × SameSlice tables.old tables.new }
{
    for i in 0..plan.sheet.contents.activities {
        record_one(plan, tables, i)?;
    }
    Ok(())
}
