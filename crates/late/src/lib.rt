// The late dates of one activity: the finish that its links and constraints leave, and where its work then begins and ends.
#![tactic(auto)]

ghost use Rattle.std.specs.Prelude.{◌≡◌, ℕ, ◌^◌, ◌<◌, Ok};
ghost use Rattle.memory.specs.Seen.{state};
ghost use Rattle.order.specs.Plan.{Plan, plan_in};
ghost use Rattle.passes.specs.Plan.{recorded};
ghost use Rattle.passes.specs.Dates.{Early, Late};
ghost use Rattle.passes.specs.Backward.{lifted, placed_late};
ghost use Rattle.late.specs.Unfinished.{IsUnfinished};
ghost use Rattle.dates.specs.Columns.{early_in, late_in};
ghost use Rattle.dates.specs.InHand.{InHand};
ghost use Rattle.dates.specs.Standing.{Ready};
ghost use Rattle.late.specs.Times.{dated, unfinished_late, Fitting};

use calendars::PlanSheet;
use dates::Span;
use memory::reads::Reads;
use placing::{Actual, Work};
use worktime::ClockError;

pub mod limits;
pub mod links;
mod unfinished;

pub use unfinished::Unfinished;

// A late finish before the early one that is the same moment is lifted to it.
fn lift(work: &Work, early: u64, latest: u64, f: u64) -> Result<u64, ClockError>
    requires { (early < 2 ^ 63) × (f < 2 ^ 63) }
    ensures { ((p : Plan) (d : Early) (l : Late) (i : ℕ) → InHand p d i work.now → early ≡ d.ef i → result ≡ lifted p d l i latest f) × ((v : ℕ) → result ≡ Ok v → v < 2 ^ 63) }
{
    if early <= f {
        return Ok(f);
    }
    if latest < early {
        return Ok(f);
    }
    let s = placing::latest_same(&work.calendar, f)?;
    if early <= s {
        return Ok(early);
    }
    Ok(f)
}

// The late dates that `latest` leaves, with the early finish `early`.
fn place_late(unfinished: &Unfinished, early: u64, latest: u64) -> Result<Span, ClockError>
    requires { (unfinished.now.origin < 2 ^ 43) × (early < 2 ^ 63) }
    ensures { ((p : Plan) (d : Early) (l : Late) (i : ℕ) → IsUnfinished p d i unfinished.now → early ≡ d.ef i → dated p d l i result ≡ placed_late p d l i latest) × Fitting result }
{
    let work = &unfinished.work;
    let t = work.place_finish(latest)?;
    let b = placing::bounded(unfinished.origin, t)?;
    let f = lift(work, early, latest, b)?;
    let u = work.start_of(f)?;
    let s = placing::bounded(unfinished.origin, u)?;
    Ok(Span {
        start: s,
        finish: f,
    })
}

// The late dates of activity `i`, of which `actual` is recorded and which is not completed; `last` is the end.
pub fn late_of<R: Reads>(
    plan: &PlanSheet,
    tables: &R,
    i: usize,
    actual: Result<Actual, ClockError>,
    last: u64,
) -> Result<Span, ClockError>
    requires { Ready plan.now (R.tables tables.now) × (i < plan.now.sheet.contents.activities) × (actual ≡ recorded (plan_in plan.now.sheet) i) }
    ensures { (dated (plan_in plan.now.sheet) (early_in (plan_in plan.now.sheet) (state (R.tables tables.now))) (late_in (plan_in plan.now.sheet) (state (R.tables tables.now)) last) i result ≡ unfinished_late (plan_in plan.now.sheet) (early_in (plan_in plan.now.sheet) (state (R.tables tables.now))) (late_in (plan_in plan.now.sheet) (state (R.tables tables.now)) last) i last) × Fitting result }
{
    let unfinished = Unfinished {
        work: dates::work_of(plan, tables, i),
        origin: dates::origin_of(&plan.sheet),
    };
    let early = tables.act(i, memory::fields::EARLY_FINISH);
    let f = links::lower(plan, tables, &unfinished, i, last)?;
    let g = limits::hold_late(&unfinished, tables.is_summary(i), actual, f)?;
    place_late(&unfinished, early, g)
}
