// The run's dates in the lent memory, and what the passes read of the plan: links, recorded work, the start and the floor.
#![tactic(auto)]

ghost use Rattle.std.specs.Prelude.{◌≡◌, ◌+◌, ◌^◌, ◌<◌};
ghost use Rattle.calendar.specs.Hours.{worked};
ghost use Rattle.worktime.specs.Walks.{shift};
ghost use Rattle.memory.specs.Seen.{state};
ghost use Rattle.order.specs.Plan.{Plan, plan_in};
ghost use Rattle.order.specs.Ties.{calendar_of};
ghost use Rattle.passes.specs.Plan.{origin, floor, begun};
ghost use Rattle.calendars.specs.Calendars.{InPlan, Own};
ghost use Rattle.dates.specs.Columns.{early_in};
ghost use Rattle.dates.specs.InHand.{InHand};
ghost use Rattle.dates.specs.Standing.{as_tie, tie_in, actual_in, counts_from_finish, leads_to_finish};

pub mod step;

use calendar::Calendar;
use calendars::PlanSheet;
use memory::reads::Reads;
use placing::{Actual, Work};
use project::{Activity, RelationshipType};
use sheet::Sheet;
use worktime::ClockError;

// A kept link: the activities at its ends, its type, and its lag in minutes of a calendar.
#[derive(Clone, Copy)]
pub struct Tie {
    pub from: usize,
    pub to: usize,
    pub kind: RelationshipType,
    pub lag: i64,
    pub calendar: usize,
}

// A start and a finish.
// That a cell can hold both is a clause of those that store them: `bounds::forward_bound` takes any two, and a type with that fact would ask more.
#[derive(Clone, Copy)]
pub struct Span {
    pub start: u64,
    pub finish: u64,
}

// Whether a link counts from its predecessor's finish; any other counts from its start.
pub fn counts_from_finish(kind: RelationshipType) -> bool
    ensures { result ≡ counts_from_finish kind }
{
    match kind {
        RelationshipType::FinishToStart | RelationshipType::FinishToFinish => true,
        RelationshipType::StartToStart | RelationshipType::StartToFinish => false,
    }
}

// Whether a link leads to its successor's finish; any other leads to its start.
pub fn leads_to_finish(kind: RelationshipType) -> bool
    ensures { result ≡ leads_to_finish kind }
{
    match kind {
        RelationshipType::FinishToFinish | RelationshipType::StartToFinish => true,
        RelationshipType::FinishToStart | RelationshipType::StartToStart => false,
    }
}

// The link in row `t`.
pub fn tie_at<R: Reads>(tables: &R, t: usize) -> Tie
    requires { t < (R.tables tables.now).links }
    ensures { as_tie result ≡ tie_in (state (R.tables tables.now)) t }
{
    Tie {
        from: tables.link(t, memory::fields::FROM) as usize,
        to: tables.link(t, memory::fields::TO) as usize,
        kind: RelationshipType::from(tables.link(t, memory::fields::KIND)),
        lag: tables.link_signed(t, memory::fields::LAG),
        calendar: tables.link(t, memory::fields::LAG_CALENDAR) as usize,
    }
}

// What is recorded of activity `i`, from the memory: the other way from `Actual::status`, with a field read for each variant, so no `From` of the number.
pub fn recorded_at<R: Reads>(tables: &R, i: usize) -> Actual
    requires { i < (R.tables tables.now).activities }
    ensures { result ≡ actual_in (state (R.tables tables.now)) i }
{
    let how = tables.act(i, memory::fields::RECORDED_AS);
    if how == 0 {
        return Actual::Unstarted;
    }
    let start = tables.act(i, memory::fields::RECORDED_START);
    if how == 1 {
        return Actual::Begun(start);
    }
    Actual::Completed(start, tables.act(i, memory::fields::RECORDED_FINISH))
}

// The start from which links count: the recorded one once work has begun.
pub fn begun_at(actual: Result<Actual, ClockError>, es: u64) -> u64
    ensures { (p : Plan) → result ≡ begun p actual es }
{
    match actual {
        Ok(Actual::Unstarted) => es,
        Ok(Actual::Begun(s)) => s,
        Ok(Actual::Completed(s, _)) => s,
        Err(_) => es,
    }
}

// Activity `i` of the sheet.
pub fn activity_of(sheet: &Sheet, i: usize) -> Activity
    requires { i < sheet.now.contents.activities }
    ensures { result ≡ (plan_in sheet.now).activity i }
{
    sheet.activity(i).read()
}

// The OWN calendar of activity `i`.
pub fn own_calendar<'a>(plan: &PlanSheet<'a>, i: usize) -> Calendar<'a>
    requires { i < plan.now.sheet.contents.activities }
    ensures { InPlan plan.now.sheet (calendar_of (plan_in plan.now.sheet) i) result }
{
    plan.calendar(plan.sheet.activity(i).calendar() as usize)
}

// Activity `i` with its OWN calendar and the work left of it, from the memory.
pub fn work_of<'a, R: Reads>(plan: &PlanSheet<'a>, tables: &R, i: usize) -> Work<'a>
    requires { ((R.tables tables.now).activities ≡ plan.now.sheet.contents.activities) × (i < plan.now.sheet.contents.activities) }
    ensures { Own plan.now.sheet i result.activity result.calendar × InHand (plan_in plan.now.sheet) (early_in (plan_in plan.now.sheet) (state (R.tables tables.now))) i result × (result.left < 2 ^ 63) }
{
    let activity = activity_of(&plan.sheet, i);
    Work {
        activity,
        calendar: plan.calendar(activity.calendar as usize),
        left: tables.act(i, memory::fields::WORK_LEFT),
    }
}

// The first minute of the project's start day.
pub fn origin_of(sheet: &Sheet) -> u64
    ensures { (result ≡ origin (plan_in sheet.now)) × (result < 2 ^ 43) }
{
    sheet.start().midnight()
}

// The later of the start and the data day.
pub fn floor_of(sheet: &Sheet) -> u64
    ensures { (result ≡ floor (plan_in sheet.now)) × (result < 2 ^ 43) }
{
    let start = origin_of(sheet);
    match sheet.data_date() {
        Some(d) => start.max(d.midnight()),
        None => start,
    }
}

// `t` moved by a lag that counts on calendar `k`.
pub fn shifted(plan: &PlanSheet, k: usize, t: u64, lag: i64) -> Result<u64, ClockError>
    ensures { result ≡ shift (worked ((plan_in plan.now.sheet).hours k)) t lag }
{
    if lag == 0 {
        return Ok(t);
    }
    let calendar = plan.calendar(k);
    clock::shift(&calendar, t, lag)
}
