// What constraints leave of an activity's latest finish.
ghost use Rattle.std.specs.Prelude.{◌≡◌, ℕ, min, Ok, Err, Some};
ghost use Rattle.clock.specs.On.{worked_by};
ghost use Rattle.placing.specs.Placing.{via, finish_for_start_by};
ghost use Rattle.order.specs.Plan.{Plan};
ghost use Rattle.order.specs.Ids.{summary};
ghost use Rattle.passes.specs.Plan.{recorded};
ghost use Rattle.passes.specs.Dates.{Early, Late};
ghost use Rattle.passes.specs.Backward.{at_late, limited, limited_by, held_late};
ghost use Rattle.dates.specs.InHand.{InHand};
ghost use Rattle.late.specs.Unfinished.{IsUnfinished};

use crate::Unfinished;
use placing::{Actual, Work};
use project::Constraint;
use worktime::ClockError;

// No later than the finish of work that starts by `t`.
fn start_limit(work: &Work, t: u64, latest: u64) -> Result<u64, ClockError>
    ensures { result ≡ via Err (finish_for_start_by (worked_by work.now.calendar) work.now.left t) (λ f. Ok (min latest f)) }
{
    work.finish_for_start_by(t).map(|f| latest.min(f))
}

// What a constraint whose time is `t` leaves of `latest`.
// It and `hold_late` mirror `early::at_early` and `held`: other constraints bind there, and by other walks.
fn limit_at(work: &Work, constraint: Constraint, t: u64, latest: u64) -> Result<u64, ClockError>
    ensures { (p : Plan) (d : Early) (l : Late) (i : ℕ) → InHand p d i work.now → result ≡ at_late p d l i (Some constraint) t latest }
{
    match constraint {
        Constraint::StartOnOrAfter(_)
        | Constraint::FinishOnOrAfter(_)
        | Constraint::AsLateAsPossible => Ok(latest),
        Constraint::StartOnOrBefore(_) | Constraint::StartOn(_) => { start_limit(work, t, latest) }
        Constraint::FinishOnOrBefore(_) | Constraint::FinishOn(_) => Ok(latest.min(t)),
        Constraint::MandatoryStart(_) => work.finish_for_start_by(t),
        Constraint::MandatoryFinish(_) => Ok(t),
    }
}

// What a constraint leaves of `latest`.
// `early` bounds a constraint's time, too: one function for both would save each a line, and need a definition and laws of its own.
fn limit(
    unfinished: &Unfinished,
    constraint: Option<Constraint>,
    latest: u64,
) -> Result<u64, ClockError>
    ensures { (p : Plan) (d : Early) (l : Late) (i : ℕ) → IsUnfinished p d i unfinished.now → result ≡ limited p d l i constraint latest }
{
    let Some(kind) = constraint else {
        return Ok(latest);
    };
    match placing::dates::constraint_time(&unfinished.work.calendar, constraint)? {
        Some(t) => {
            let b = placing::bounded(unfinished.origin, t)?;
            limit_at(&unfinished.work, kind, b, latest)
        }
        None => Ok(latest),
    }
}

// The same, by what is recorded: a start constraint bounds nothing once the work has begun.
fn limit_by(
    unfinished: &Unfinished,
    actual: Result<Actual, ClockError>,
    constraint: Option<Constraint>,
    latest: u64,
) -> Result<u64, ClockError>
    ensures { (p : Plan) (d : Early) (l : Late) (i : ℕ) → IsUnfinished p d i unfinished.now → result ≡ limited_by p d l i actual constraint latest }
{
    let recorded = actual?;
    match recorded {
        Actual::Unstarted => limit(unfinished, constraint, latest),
        Actual::Begun(_) => {
            if project::bounds_start(constraint) {
                return Ok(latest);
            }
            limit(unfinished, constraint, latest)
        }
        Actual::Completed(_, _) => Ok(latest),
    }
}

// What both constraints leave of `latest`; a summary has none.
pub fn hold_late(
    unfinished: &Unfinished,
    is_summary: bool,
    actual: Result<Actual, ClockError>,
    latest: u64,
) -> Result<u64, ClockError>
    ensures { (p : Plan) (d : Early) (l : Late) (i : ℕ) → IsUnfinished p d i unfinished.now → is_summary ≡ summary p i → actual ≡ recorded p i → result ≡ held_late p d l i latest }
{
    if is_summary {
        return Ok(latest);
    }
    let first = unfinished.work.activity.constraint;
    let f = limit_by(unfinished, actual, first, latest)?;
    let second = unfinished.work.activity.secondary_constraint;
    limit_by(unfinished, actual, second, f)
}
