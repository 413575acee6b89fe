// What the links out of an activity leave of its latest finish.
ghost use Rattle.std.specs.Prelude.{◌≡◌, ℕ, ◌+◌, ◌^◌, ◌<◌};
ghost use Rattle.number.specs.Zed.{up, dn};
ghost use Rattle.clock.specs.On.{worked_by};
ghost use Rattle.memory.specs.Seen.{state};
ghost use Rattle.memory.specs.Fields.{late_start, late_finish};
ghost use Rattle.order.specs.Plan.{plan_in};
ghost use Rattle.order.specs.Ties.{Tie};
ghost use Rattle.passes.specs.Plan.{own, ties_out};
ghost use Rattle.passes.specs.Dates.{Early, Late};
ghost use Rattle.passes.specs.Backward.{over_lag, link_finish, lowered};
ghost use Rattle.dates.specs.Columns.{early_in, late_in};
ghost use Rattle.dates.specs.Standing.{Ready};
ghost use Rattle.late.specs.Unfinished.{IsUnfinished};
ghost use Rattle.late.specs.Times.{times_of, target_of, finish_by};

use crate::Unfinished;
use calendars::PlanSheet;
use dates::Span;
use memory::reads::Reads;
use placing::Work;
use project::RelationshipType;
use worktime::ClockError;

// Back from `x` over a lag on calendar `k`, and, for a lag that is not 0, on to that calendar's next start.
fn over_lag(plan: &PlanSheet, k: usize, lag: i64, x: u64) -> Result<u64, ClockError>
    requires { up lag + dn lag < 2 ^ 63 }
    ensures { (d : Early) (l : Late) (t : Tie) → t.calendar ≡ k → t.lag ≡ lag → result ≡ over_lag (plan_in plan.now.sheet) d l t x }
{
    if lag == 0 {
        return Ok(x);
    }
    let calendar = plan.calendar(k);
    let v = clock::shift(&calendar, x, -lag)?;
    clock::next_start(&calendar, v)
}

// The late times of activity `j`, a link's successor, each moved to its own next start.
fn successor_times<R: Reads>(plan: &PlanSheet, tables: &R, j: usize) -> Result<Span, ClockError>
    requires { ((R.tables tables.now).activities ≡ plan.now.sheet.contents.activities) × (j < plan.now.sheet.contents.activities) }
    ensures { result ≡ times_of (own (plan_in plan.now.sheet) j) ((state (R.tables tables.now)).act late_start j) ((state (R.tables tables.now)).act late_finish j) }
{
    let calendar = dates::own_calendar(plan, j);
    let start = tables.act(j, memory::fields::LATE_START);
    let finish = tables.act(j, memory::fields::LATE_FINISH);
    let s = placing::latest_same(&calendar, start)?;
    let f = placing::latest_same(&calendar, finish)?;
    Ok(Span {
        start: s,
        finish: f,
    })
}

// The one of a successor's late times that a link counts back from.
fn target(kind: RelationshipType, times: Span) -> u64
    ensures { result ≡ target_of kind times.start times.finish }
{
    if dates::leads_to_finish(kind) {
        return times.finish;
    }
    times.start
}

// The finish that a link's bound `v` leaves: a bound on the start counts on.
// It mirrors `bounds::start_for` by another test and another walk.
fn finish_by(work: &Work, kind: RelationshipType, v: u64) -> Result<u64, ClockError>
    ensures { result ≡ finish_by (worked_by work.now.calendar) work.now.left kind v }
{
    if dates::counts_from_finish(kind) {
        return Ok(v);
    }
    work.finish_for_start(v)
}

// The latest finish that link `k` leaves an activity that it leads out of, on its own calendar.
fn link_finish<R: Reads>(
    plan: &PlanSheet,
    tables: &R,
    unfinished: &Unfinished,
    k: usize,
) -> Result<u64, ClockError>
    requires { Ready plan.now (R.tables tables.now) × (k < (R.tables tables.now).kept) }
    ensures { (i last : ℕ) → IsUnfinished (plan_in plan.now.sheet) (early_in (plan_in plan.now.sheet) (state (R.tables tables.now))) i unfinished.now → result ≡ link_finish (plan_in plan.now.sheet) (early_in (plan_in plan.now.sheet) (state (R.tables tables.now))) (late_in (plan_in plan.now.sheet) (state (R.tables tables.now)) last) i k }
{
    let tie = dates::tie_at(tables, k);
    let times = successor_times(plan, tables, tie.to)?;
    let x = target(tie.kind, times);
    let v = over_lag(plan, tie.calendar, tie.lag, x)?;
    let f = finish_by(&unfinished.work, tie.kind, v)?;
    placing::bounded(unfinished.origin, f)
}

// The latest finish that the links out of activity `i` leave it, from `last` down.
pub fn lower<R: Reads>(
    plan: &PlanSheet,
    tables: &R,
    unfinished: &Unfinished,
    i: usize,
    last: u64,
) -> Result<u64, ClockError>
    requires { Ready plan.now (R.tables tables.now) × (i < plan.now.sheet.contents.activities) × IsUnfinished (plan_in plan.now.sheet) (early_in (plan_in plan.now.sheet) (state (R.tables tables.now))) i unfinished.now }
    ensures { result ≡ lowered (plan_in plan.now.sheet) (early_in (plan_in plan.now.sheet) (state (R.tables tables.now))) (late_in (plan_in plan.now.sheet) (state (R.tables tables.now)) last) i (ties_out (plan_in plan.now.sheet) i) last }
{
    let mut latest = last;
    for k in tables.links_out(i) {
        let f = link_finish(plan, tables, unfinished, k)?;
        latest = latest.min(f);
    }
    Ok(latest)
}
