// One activity's early dates: its constraints, work under way, an expected finish, and its placing. Nothing is stored.
#![tactic(auto)]

ghost use Rattle.std.specs.Prelude.{◌≡◌, ℕ, ◌^◌, ◌<◌, max, Ok, Err, Some};
ghost use Rattle.clock.specs.On.{worked_by};
ghost use Rattle.placing.specs.Placing.{via};
ghost use Rattle.order.specs.Plan.{Plan, plan_in};
ghost use Rattle.passes.specs.Dates.{Early};
ghost use Rattle.passes.specs.Forward.{counted, at_early, constrained, levelled, held, resumed, start_by, work_to, minutes_from, placed};
ghost use Rattle.early.specs.InHand.{IsTimes, IsUnplaced, placed_as, finished_as, after_start};

use calendar::Calendar;
use date::Date;
use placing::Actual;
use project::{ActivityKind, Constraint, ProgressMode};
use sheet::Sheet;
use worktime::ClockError;

mod values;

pub use values::{Placement, Times, Unplaced};

// A walk's answer, but not before `least`.
fn raised_to(walk: Result<u64, ClockError>, least: u64) -> Result<u64, ClockError>
    ensures { result ≡ via Err walk (λ s. Ok (max least s)) }
{
    walk.map(|s| least.max(s))
}

// ---- constraints of work that has not begun

// The start by a constraint whose time is `t`: no earlier, and for a mandatory one on it, but not before the floor.
fn at_early(
    unplaced: &Unplaced,
    constraint: Constraint,
    t: u64,
    start: u64,
) -> Result<u64, ClockError>
    ensures { (p : Plan) (d : Early) (i : ℕ) → IsUnplaced p d i unplaced.now → result ≡ at_early p d i (Some constraint) t start }
{
    match constraint {
        Constraint::StartOnOrBefore(_)
        | Constraint::FinishOnOrBefore(_)
        | Constraint::AsLateAsPossible => Ok(start),
        Constraint::StartOnOrAfter(_) | Constraint::StartOn(_) => Ok(start.max(t)),
        Constraint::FinishOnOrAfter(_) | Constraint::FinishOn(_) => {
            raised_to(unplaced.work.start_for_finish(t), start)
        }
        Constraint::MandatoryStart(_) => Ok(t.max(unplaced.times.floor)),
        Constraint::MandatoryFinish(_) => {
            raised_to(unplaced.work.start_for_finish(t), unplaced.times.floor)
        }
    }
}

// The start by a constraint, whose time is bounded.
// `late::limits::limit` bounds a constraint's time, too: one function for both would save each a line, and need a definition and laws of its own.
fn constrained(
    unplaced: &Unplaced,
    constraint: Option<Constraint>,
    start: u64,
) -> Result<u64, ClockError>
    ensures { (p : Plan) (d : Early) (i : ℕ) → IsUnplaced p d i unplaced.now → result ≡ constrained p d i constraint start }
{
    let Some(kind) = constraint else {
        return Ok(start);
    };
    match placing::dates::constraint_time(&unplaced.work.calendar, constraint)? {
        Some(x) => {
            let t = placing::bounded(unplaced.times.origin, x)?;
            at_early(unplaced, kind, t, start)
        }
        None => Ok(start),
    }
}

// The start by the levelled start, which binds as a start on or after it does.
fn levelled(unplaced: &Unplaced, start: u64) -> Result<u64, ClockError>
    ensures { (p : Plan) (d : Early) (i : ℕ) → IsUnplaced p d i unplaced.now → result ≡ levelled p d i unplaced.now.work.activity.levelled start }
{
    match unplaced.work.activity.levelled {
        Some(x) => {
            let constraint = Some(Constraint::StartOnOrAfter(x));
            constrained(unplaced, constraint, start)
        }
        None => Ok(start),
    }
}

// Both constraints in turn, then the levelled start; a summary has none.
fn held(unplaced: &Unplaced, start: u64) -> Result<u64, ClockError>
    ensures { (p : Plan) (d : Early) (i : ℕ) → IsUnplaced p d i unplaced.now → result ≡ held p d i start }
{
    if unplaced.is_summary {
        return Ok(start);
    }
    let s = constrained(unplaced, unplaced.work.activity.constraint, start)?;
    let u = constrained(unplaced, unplaced.work.activity.secondary_constraint, s)?;
    levelled(unplaced, u)
}

// ---- work under way

// Where it goes on: from the data day, after its predecessors or at once by the progress mode; without a data day from its recorded start.
fn resumed(times: Times, s: u64, start: u64) -> u64
    ensures { (p : Plan) (d : Early) → IsTimes p times → result ≡ resumed p d s p.project.data_date p.project.progress_mode start }
{
    match times.data_date {
        Some(_) => match times.progress_mode {
            ProgressMode::RetainedLogic => start,
            ProgressMode::ProgressOverride => times.floor,
        },
        None => s,
    }
}

// The start from `start` on, which the links leave, by what is recorded.
fn start_by(
    unplaced: &Unplaced,
    recorded: Result<Actual, ClockError>,
    start: u64,
) -> Result<u64, ClockError>
    ensures { (p : Plan) (d : Early) (i : ℕ) → IsUnplaced p d i unplaced.now → result ≡ start_by p d i recorded start }
{
    let actual = recorded?;
    match actual {
        Actual::Unstarted => held(unplaced, start),
        Actual::Begun(s) => Ok(resumed(unplaced.times, s, start)),
        Actual::Completed(_, _) => Ok(start),
    }
}

// ---- the minutes by an expected finish

// Minutes of work counted, none where the second time is the earlier.
fn counted(work: Result<i64, ClockError>) -> Result<u64, ClockError>
    ensures { (result ≡ counted Err work Ok) × ((m : ℕ) → result ≡ Ok m → m < 2 ^ 63) }
{
    work.map(number::sign::upward)
}

// The work from `s` to the evening of an expected finish.
fn work_to(unplaced: &Unplaced, s: u64, expected: Option<Date>) -> Result<u64, ClockError>
    ensures { ((p : Plan) (d : Early) (i : ℕ) → IsUnplaced p d i unplaced.now → result ≡ work_to p d i s expected) × ((m : ℕ) → result ≡ Ok m → m < 2 ^ 63) }
{
    match expected {
        Some(x) => {
            let e = placing::dates::finish_by_day(&unplaced.work.calendar, x)?;
            let b = placing::bounded(unplaced.times.origin, e)?;
            counted(clock::between(&unplaced.work.calendar, s, b.max(s)))
        }
        None => Ok(unplaced.work.left),
    }
}

// The minutes from `s` on: of tasks that are no summaries an expected finish resets them.
fn minutes_from(unplaced: &Unplaced, s: u64) -> Result<u64, ClockError>
    ensures { ((p : Plan) (d : Early) (i : ℕ) → IsUnplaced p d i unplaced.now → result ≡ minutes_from p d i s) × ((m : ℕ) → result ≡ Ok m → m < 2 ^ 63) }
{
    if unplaced.is_summary {
        return Ok(unplaced.work.left);
    }
    match unplaced.work.activity.kind {
        ActivityKind::Task => work_to(unplaced, s, unplaced.work.activity.expected_finish),
        ActivityKind::StartMilestone | ActivityKind::FinishMilestone => Ok(unplaced.work.left),
    }
}

// ---- the placing

// The activity from `s` on with `m` minutes of work.
fn finished(calendar: &Calendar, times: Times, s: u64, m: u64) -> Result<Placement, ClockError>
    requires { (s < 2 ^ 63) × (m < 2 ^ 63) }
    ensures { (p : Plan) (d : Early) (i : ℕ) → IsTimes p times → placed_as p d i result ≡ finished_as p d i (worked_by calendar.now) s m }
{
    let g = clock::advance(calendar, s, m)?;
    let f = placing::bounded(times.origin, g)?;
    Ok(Placement {
        start: s,
        finish: f,
        left: m,
    })
}

// The activity at the first place from `start` on.
fn placed(unplaced: &Unplaced, start: u64) -> Result<Placement, ClockError>
    ensures { (p : Plan) (d : Early) (i : ℕ) → IsUnplaced p d i unplaced.now → placed_as p d i result ≡ placed p d i start }
{
    let t = unplaced.work.place_start(start)?;
    let s = placing::bounded(unplaced.times.origin, t)?;
    let m = minutes_from(unplaced, s)?;
    finished(&unplaced.work.calendar, unplaced.times, s, m)
}

// The early dates of an activity whose links leave it `start`: completed work apart.
pub fn place(
    unplaced: &Unplaced,
    recorded: Result<Actual, ClockError>,
    start: u64,
) -> Result<Placement, ClockError>
    ensures { (p : Plan) (d : Early) (i : ℕ) → IsUnplaced p d i unplaced.now → placed_as p d i result ≡ after_start p d i recorded start }
{
    let u = start_by(unplaced, recorded, start)?;
    placed(unplaced, u)
}

// The times of the project.
pub fn times_of(sheet: &Sheet) -> Times
    ensures { IsTimes (plan_in sheet.now) result × (result.floor < 2 ^ 43) }
{
    let project = sheet.project();
    Times {
        origin: dates::origin_of(sheet),
        floor: dates::floor_of(sheet),
        data_date: project.data_date,
        progress_mode: project.progress_mode,
    }
}
