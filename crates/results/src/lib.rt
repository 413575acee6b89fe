// What is shown of each activity.
#![tactic(auto)]

ghost use Rattle.std.specs.Prelude.{◌≡◌, Bool, ℕ, ◌+◌, ◌^◌, ◌≤◌, ◌<◌, Ok};
ghost use Rattle.clock.specs.On.{worked_by};
ghost use Rattle.memory.specs.Seen.{state, SameSlice};
ghost use Rattle.order.specs.Plan.{Plan, plan_in};
ghost use Rattle.passes.specs.Floats.{float_by};
ghost use Rattle.results.specs.Results.{start_minute, finish_minute, total_by, shown_below};
ghost use Rattle.topology.specs.Frame.{Frame};
ghost use Rattle.dates.specs.Columns.{ended};
ghost use Rattle.results.specs.Row.{ToShow, row_shown};
ghost use Rattle.results.specs.RowLaws.{shown_next};
ghost use Rattle.results.specs.View.{ran_in, shown_to, shown_at, days_in, times_in, put_days, put_floats, put_bounds, put_shown};
ghost use Rattle.results.specs.Holds.{DaysHold};
ghost use Rattle.results.specs.Showing.{showing, all_in_years, critical_in, total_work, days_of, critical_of, shown_from};

use calendar::Calendar;
use calendars::PlanSheet;
use memory::Tables;
use memory::reads::Reads;
use placing::Actual;
use project::{ActivityKind, CriticalBy, FloatKind, Project};
use worktime::ClockError;

mod row;

pub use row::ShownRow;

// The days that are shown, counted from the first that an i32 can name.
#[derive(Clone, Copy)]
pub struct Days {
    pub es: u64,
    pub ef: u64,
    pub ls: u64,
    pub lf: u64,
}

// What is shown of an activity: its days, its floats in minutes, its flags, and for the roll-up its early and its late finish.
#[derive(Clone, Copy)]
pub struct Shown {
    pub days: Days,
    pub total: i64,
    pub free: u64,
    pub critical: bool,
    pub path: bool,
    pub finish: u64,
    pub late: u64,
}

// What the passes leave of an activity.
#[derive(Clone, Copy)]
pub struct Times {
    pub es: u64,
    pub ef: u64,
    pub left: u64,
    pub ls: u64,
    pub lf: u64,
    pub free: u64,
    pub path: bool,
}

// ---- total float
// The float of the project's kind.
fn float_by(kind: FloatKind, finish: i64, start: i64) -> i64
    ensures { (p : Plan) → result ≡ float_by p kind finish start }
{
    match kind {
        FloatKind::Finish => finish,
        FloatKind::Start => start,
        FloatKind::Smallest => number::sign::min(finish, start),
    }
}

// Completed work has no float.
fn total_by(actual: Actual, total: i64) -> i64
    ensures { result ≡ total_by (Ok actual) total }
{
    match actual {
        Actual::Completed(_, _) => 0,
        Actual::Unstarted | Actual::Begun(_) => total,
    }
}

// What is recorded and the times go one by one, here and below: the definitions take them so, and a row of results shows the one without the others.
fn total_of(
    kind: FloatKind,
    actual: Actual,
    t: Times,
    calendar: &Calendar,
) -> Result<i64, ClockError>
    ensures { (p : Plan) → result ≡ total_work p (worked_by calendar.now) kind (Ok actual) t }
{
    let finish = clock::between(calendar, t.ef, t.lf)?;
    let start = clock::between(calendar, t.es, t.ls)?;
    Ok(total_by(actual, float_by(kind, finish, start)))
}

// ---- days
// The minute whose day a start shows.
fn start_minute(kind: ActivityKind, t: u64) -> u64
    ensures { result ≡ start_minute kind t }
{
    match kind {
        ActivityKind::Task | ActivityKind::StartMilestone => t,
        ActivityKind::FinishMilestone => t.saturating_sub(1),
    }
}

// The minute whose day a finish shows.
fn finish_minute(kind: ActivityKind, left: u64, t: u64) -> u64
    ensures { result ≡ finish_minute kind left t }
{
    match kind {
        ActivityKind::Task if left == 0 => t,
        ActivityKind::StartMilestone => t,
        ActivityKind::Task | ActivityKind::FinishMilestone => t.saturating_sub(1),
    }
}

// The early and the late pair are two lines each: a function of a pair would take as many.
fn days_of(kind: ActivityKind, actual: Actual, t: Times) -> Days
    ensures { (p : Plan) → result ≡ days_of p kind (Ok actual) t }
{
    let es = start_minute(kind, dates::begun_at(Ok(actual), t.es)) / 1440;
    let ef = finish_minute(kind, t.left, t.ef) / 1440;
    let ls = start_minute(kind, dates::begun_at(Ok(actual), t.ls)) / 1440;
    let lf = finish_minute(kind, t.left, t.lf) / 1440;
    Days { es, ef, ls, lf }
}

// Whether the four days lie in the years that may be read.
fn all_in_years(days: Days) -> bool
    ensures { result ≡ all_in_years days }
{
    date::in_years(days.ef)
        && date::in_years(days.es)
        && date::in_years(days.ls)
        && date::in_years(days.lf)
}

// ---- critical, by total float or by the longest path
// `day_length ≤ 1440` is a clause, here and below: a type with the bound would put its number between each contract and its definition.
pub fn is_critical(by: CriticalBy, day_length: u64, total: i64, path: bool) -> bool
    requires { day_length ≤ 1440 }
    ensures { result ≡ critical_in by day_length total path }
{
    match by {
        CriticalBy::TotalFloat(days) => total <= calendars::days_in_minutes(days, day_length),
        CriticalBy::LongestPath => path,
    }
}

// Completed work is not critical.
fn critical_of(actual: Actual, by: CriticalBy, day_length: u64, total: i64, path: bool) -> bool
    requires { day_length ≤ 1440 }
    ensures { (p : Plan) → result ≡ critical_of p (Ok actual) by day_length total path }
{
    match actual {
        Actual::Completed(_, _) => false,
        Actual::Unstarted | Actual::Begun(_) => is_critical(by, day_length, total, path),
    }
}

// ---- what is shown of an activity, on its own calendar
fn shown_of(
    project: Project,
    kind: ActivityKind,
    day_length: u64,
    actual: Actual,
    t: Times,
    calendar: &Calendar,
) -> Result<ShownRow, ClockError>
    requires { (day_length ≤ 1440) × (t.ef < 2 ^ 63) × (t.lf < 2 ^ 63) × (t.free < 2 ^ 63) }
    ensures { (p : Plan) → showing result ≡ shown_from p project kind day_length (worked_by calendar.now) (Ok actual) t }
{
    let float = project.float_kind;
    let by = project.critical_by;
    let total = total_of(float, actual, t, calendar)?;
    let days = days_of(kind, actual, t);
    if !all_in_years(days) {
        return Err(ClockError::TooLong);
    }
    let critical = critical_of(actual, by, day_length, total, t.path);
    Ok(ShownRow::new(Shown {
        days,
        total,
        free: t.free,
        critical,
        path: t.path,
        finish: t.ef,
        late: t.lf,
    }))
}

// ---- an activity's row of the memory
pub fn times_at<R: Reads>(tables: &R, i: usize) -> Times
    requires { i < (R.tables tables.now).activities }
    ensures { (result ≡ times_in (state (R.tables tables.now)) i) × (result.ef < 2 ^ 63) × (result.lf < 2 ^ 63) × (result.free < 2 ^ 63) }
{
    let es = tables.act(i, memory::fields::EARLY_START);
    let ef = tables.act(i, memory::fields::EARLY_FINISH);
    let left = tables.act(i, memory::fields::WORK_LEFT);
    let ls = tables.act(i, memory::fields::LATE_START);
    let lf = tables.act(i, memory::fields::LATE_FINISH);
    let free = tables.act(i, memory::fields::FREE_FLOAT);
    let path = tables.act(i, memory::fields::LONGEST_PATH) > 0;
    Times {
        es,
        ef,
        left,
        ls,
        lf,
        free,
        path,
    }
}

fn days_at<R: Reads>(tables: &R, i: usize) -> Days
    requires { i < (R.tables tables.now).activities }
    ensures { (result ≡ days_in (state (R.tables tables.now)) i) × DaysHold result }
{
    let es = tables.act(i, memory::fields::SHOWN_START);
    let ef = tables.act(i, memory::fields::SHOWN_FINISH);
    let ls = tables.act(i, memory::fields::SHOWN_LATE_START);
    let lf = tables.act(i, memory::fields::SHOWN_LATE_FINISH);
    Days { es, ef, ls, lf }
}

// What is shown of activity `i`, from its row.
pub fn shown_at<R: Reads>(tables: &R, i: usize) -> ShownRow
    requires { i < (R.tables tables.now).activities }
    ensures { result.shown ≡ shown_at (state (R.tables tables.now)) i }
{
    let days = days_at(tables, i);
    let total = tables.act_signed(i, memory::fields::TOTAL_FLOAT);
    let free = tables.act(i, memory::fields::SHOWN_FREE);
    let critical = tables.act(i, memory::fields::IS_CRITICAL) > 0;
    let path = tables.act(i, memory::fields::IS_LONGEST) > 0;
    let finish = tables.act(i, memory::fields::GREATEST_FINISH);
    let late = tables.act(i, memory::fields::GREATEST_LATE);
    ShownRow::new(Shown {
        days,
        total,
        free,
        critical,
        path,
        finish,
        late,
    })
}

fn put_days(tables: &mut Tables, i: usize, x: &ShownRow)
    requires { i < tables.old.activities }
    ensures { (state tables.new ≡ put_days (state tables.old) i x.now.shown) × SameSlice tables.old tables.new }
{
    let days = x.shown.days;
    tables.put_act(i, memory::fields::SHOWN_START, days.es);
    tables.put_act(i, memory::fields::SHOWN_FINISH, days.ef);
    tables.put_act(i, memory::fields::SHOWN_LATE_START, days.ls);
    tables.put_act(i, memory::fields::SHOWN_LATE_FINISH, days.lf);
}

// A truth value goes into its cell by std's `From` and comes back by a test: two methods of `Tables` for it would be as long where they are called.
fn put_floats(tables: &mut Tables, i: usize, x: &ShownRow)
    requires { i < tables.old.activities }
    ensures { (state tables.new ≡ put_floats (state tables.old) i x.now.shown) × SameSlice tables.old tables.new }
{
    tables.put_act_signed(i, memory::fields::TOTAL_FLOAT, x.shown.total);
    tables.put_act(i, memory::fields::SHOWN_FREE, x.shown.free);
    tables.put_act(i, memory::fields::IS_CRITICAL, u64::from(x.shown.critical));
    tables.put_act(i, memory::fields::IS_LONGEST, u64::from(x.shown.path));
}

fn put_bounds(tables: &mut Tables, i: usize, x: &ShownRow)
    requires { i < tables.old.activities }
    ensures { (state tables.new ≡ put_bounds (state tables.old) i x.now.shown) × SameSlice tables.old tables.new }
{
    tables.put_act(i, memory::fields::GREATEST_FINISH, x.shown.finish);
    tables.put_act(i, memory::fields::GREATEST_LATE, x.shown.late);
}

// Puts what is shown into the row of activity `i`.
pub fn put_shown(tables: &mut Tables, i: usize, x: &ShownRow)
    requires { i < tables.old.activities }
    ensures { (state tables.new ≡ put_shown (state tables.old) i x.now.shown) × SameSlice tables.old tables.new }
{
    put_days(tables, i, x);
    put_floats(tables, i, x);
    put_bounds(tables, i, x);
}

// ---- all activities
// What is shown of activity `i`, on its own calendar. The project comes beside the plan here and in `rollup`: a struct of the two would say their one equation
// once, and put its own name before the plan's in every other clause.
fn row_of(
    plan: &PlanSheet,
    project: Project,
    tables: &Tables,
    i: usize,
) -> Result<ShownRow, ClockError>
    requires { ToShow plan.now tables.now × (i < plan.now.sheet.contents.activities) × (project ≡ (plan_in plan.now.sheet).project) }
    ensures { showing result ≡ row_shown (plan_in plan.now.sheet) (state tables.now) i }
{
    // No `dates::work_of`: the work left is read with the other times, and a day length beside the calendar.
    let activity = dates::activity_of(&plan.sheet, i);
    let kind = activity.kind;
    let k = activity.calendar as usize;
    let calendar = plan.calendar(k);
    let actual = dates::recorded_at(tables, i);
    let t = times_at(tables, i);
    shown_of(
        project,
        kind,
        plan.calendars[k].day_length,
        actual,
        t,
        &calendar,
    )
}

// Puts what is shown of activity `i` into its row.
fn show_one(
    plan: &PlanSheet,
    project: Project,
    tables: &mut Tables,
    i: usize,
) -> Result<(), ClockError>
    requires { ToShow plan.now tables.old × (i < plan.now.sheet.contents.activities) × (project ≡ (plan_in plan.now.sheet).project) }
    ensures { (ended (shown_to (i + 1) (state tables.new)) result ≡ shown_next (row_shown (plan_in plan.now.sheet) (state tables.old) i) (shown_to i (state tables.old)) i) × Frame 20 30 0 0 (state tables.old) (state tables.new) × SameSlice tables.old tables.new }
{
    let x = row_of(plan, project, tables, i)?;
    put_shown(tables, i, &x);
    Ok(())
}

// Puts what is shown of each activity into its row, in sheet order.
pub fn show_all(plan: &PlanSheet, tables: &mut Tables) -> Result<(), ClockError>
    requires { ToShow plan.now tables.old }
    ensures { ((e : ℕ) (other : ℕ → Bool) → ended (shown_to plan.now.sheet.contents.activities (state tables.new)) result ≡ shown_below (plan_in plan.now.sheet) (ran_in (plan_in plan.now.sheet) (state tables.old) e other) plan.now.sheet.contents.activities) × Frame 20 30 0 0 (state tables.old) (state tables.new) × SameSlice tables.old tables.new }
{
    let project = plan.sheet.project();
    for i in 0..plan.sheet.contents.activities {
        show_one(plan, project, tables, i)?;
    }
    Ok(())
}
