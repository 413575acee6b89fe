// The bound that a kept link puts on its successor, and the start that it leaves it.
#![tactic(auto)]

ghost use Rattle.std.specs.Prelude.{◌≡◌, ℕ, ◌^◌, ◌<◌};
ghost use Rattle.clock.specs.On.{worked_by};
ghost use Rattle.memory.specs.Seen.{state};
ghost use Rattle.order.specs.Plan.{Plan, plan_in};
ghost use Rattle.memory.specs.Fields.{early_start, early_finish};
ghost use Rattle.passes.specs.Plan.{own, recorded, begun};
ghost use Rattle.passes.specs.Forward.{source_of, forward_bound, link_bound, link_start, start_for};
ghost use Rattle.dates.specs.Columns.{early_in};
ghost use Rattle.dates.specs.InHand.{InHand};
ghost use Rattle.dates.specs.Standing.{as_tie, Lent, Recorded};

use calendars::PlanSheet;
use dates::{Span, Tie};
use memory::reads::Reads;
use placing::Work;
use project::RelationshipType;
use worktime::ClockError;

// The end of the predecessor, whose early dates are `early`, from which a link counts.
// `late::links::target` chooses by another test and definition, in as many lines.
pub fn source_of(kind: RelationshipType, early: Span) -> u64
    ensures { (p : Plan) → result ≡ source_of p kind early.start early.finish }
{
    if dates::counts_from_finish(kind) {
        return early.finish;
    }
    early.start
}

// The earliest start that a link's bound `b` leaves the activity: a bound on the finish counts back on its own calendar.
pub fn start_for(work: &Work, kind: RelationshipType, b: u64) -> Result<u64, ClockError>
    ensures { (p : Plan) (i : ℕ) → own p i ≡ worked_by work.now.calendar → result ≡ start_for p i work.now.left kind b }
{
    if dates::leads_to_finish(kind) {
        return work.start_for_finish(b);
    }
    Ok(b)
}

// The bound that a link puts on its successor: its predecessor's start or finish, moved by the lag on the lag's calendar.
pub fn forward_bound(plan: &PlanSheet, tie: Tie, early: Span) -> Result<u64, ClockError>
    ensures { result ≡ forward_bound (plan_in plan.now.sheet) (as_tie tie) early.start early.finish }
{
    let kind = tie.kind;
    let source = source_of(kind, early);
    let t = dates::shifted(plan, tie.calendar, source, tie.lag)?;
    let origin = dates::origin_of(&plan.sheet);
    placing::bounded(origin, t)
}

// The early start and the early finish of activity `i`, as they stand in the memory.
pub fn early_at<R: Reads>(tables: &R, i: usize) -> Span
    requires { i < (R.tables tables.now).activities }
    ensures { (result.start ≡ (state (R.tables tables.now)).act early_start i) × (result.finish ≡ (state (R.tables tables.now)).act early_finish i) × (result.start < 2 ^ 63) × (result.finish < 2 ^ 63) }
{
    Span {
        start: tables.act(i, memory::fields::EARLY_START),
        finish: tables.act(i, memory::fields::EARLY_FINISH),
    }
}

// The early dates of activity `i` from which its links count: its start as recorded once work has begun.
pub fn counted_from<R: Reads>(tables: &R, i: usize) -> Span
    requires { i < (R.tables tables.now).activities }
    ensures { ((p : Plan) → p.activities ≡ (R.tables tables.now).activities → Recorded p (state (R.tables tables.now)) → result.start ≡ begun p (recorded p i) ((early_in p (state (R.tables tables.now))).es i)) × (result.finish ≡ (state (R.tables tables.now)).act early_finish i) }
{
    let recorded = dates::recorded_at(tables, i);
    let early = early_at(tables, i);
    Span {
        start: dates::begun_at(Ok(recorded), early.start),
        finish: early.finish,
    }
}

// The bound of the kept link in row `k`: its predecessor's start as recorded once begun.
pub fn link_bound<R: Reads>(plan: &PlanSheet, tables: &R, k: usize) -> Result<u64, ClockError>
    requires { Lent plan.now (R.tables tables.now) × (k < (R.tables tables.now).kept) }
    ensures { result ≡ link_bound (plan_in plan.now.sheet) (early_in (plan_in plan.now.sheet) (state (R.tables tables.now))) k }
{
    let tie = dates::tie_at(tables, k);
    let from = counted_from(tables, tie.from);
    forward_bound(plan, tie, from)
}

// The start that the kept link in row `k` leaves its successor, whose work is in hand.
pub fn start_by_link<R: Reads>(
    plan: &PlanSheet,
    tables: &R,
    work: &Work,
    k: usize,
) -> Result<u64, ClockError>
    requires { Lent plan.now (R.tables tables.now) × (k < (R.tables tables.now).kept) }
    ensures { (i : ℕ) → InHand (plan_in plan.now.sheet) (early_in (plan_in plan.now.sheet) (state (R.tables tables.now))) i work.now → result ≡ link_start (plan_in plan.now.sheet) (early_in (plan_in plan.now.sheet) (state (R.tables tables.now))) i k }
{
    let b = link_bound(plan, tables, k)?;
    let kind = RelationshipType::from(tables.link(k, memory::fields::KIND));
    start_for(work, kind, b)
}
