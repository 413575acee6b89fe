// Free float and held late moves, from the last activity of the order to the first.
#![tactic(auto)]

ghost use Rattle.std.specs.Prelude.{◌≡◌, ◌&&◌, reverse, ℕ, ◌^◌, ◌<◌, ltb, Ok};
ghost use Rattle.clock.specs.On.{worked_by};
ghost use Rattle.memory.specs.Seen.{state, SameSlice};
ghost use Rattle.memory.specs.Fields.{late_finish, early_start, early_finish};
ghost use Rattle.topology.specs.Frame.{Frame};
ghost use Rattle.order.specs.Plan.{Plan, plan_in};
ghost use Rattle.order.specs.Ties.{calendar_of};
ghost use Rattle.order.specs.Checks.{order};
ghost use Rattle.passes.specs.Plan.{tie, ties_out};
ghost use Rattle.passes.specs.Dates.{Early, Freed, through};
ghost use Rattle.passes.specs.Floats.{is_late, target_of, free_by, holds_late, held_move, freed, free_float};
ghost use Rattle.calendars.specs.Calendars.{InPlan};
ghost use Rattle.dates.specs.Columns.{early_in, late_in, free_in, ended};
ghost use Rattle.dates.specs.InHand.{InHand};
ghost use Rattle.dates.specs.Standing.{Standing, Ready, Recorded, Lent};
ghost use Rattle.floats.specs.PassLaws.{turn_kept};
ghost use Rattle.floats.specs.Slack.{freed_in, marked_late, start_moved, dates_moved, stored, gap_by, least_slack, slack_of, From, free_of};

use calendar::Calendar;
use calendars::PlanSheet;
use dates::Span;
use dates::step::Step;
use memory::Tables;
use placing::{Actual, Work};
use project::{Activity, Constraint, RelationshipType};
use worktime::ClockError;

// Whether a constraint is the mark "as late as possible".
fn is_late(constraint: Option<Constraint>) -> bool
    ensures { result ≡ is_late constraint }
{
    matches!(constraint, Some(Constraint::AsLateAsPossible))
}

// Whether an activity is marked "as late as possible" in either constraint and has not begun.
fn is_marked_late(actual: Actual, first: Option<Constraint>, second: Option<Constraint>) -> bool
    ensures { (p : Plan) (d : Early) → result ≡ marked_late p d (Ok actual) first second }
{
    match actual {
        Actual::Unstarted => is_late(first) || is_late(second),
        Actual::Begun(_) | Actual::Completed(_, _) => false,
    }
}

// The free float in minutes, from the least slack before the successors and the float to the late finish: none for completed work.
fn free_by(actual: Actual, slack: i64, total: i64) -> u64
    ensures { ((p : Plan) (d : Early) → result ≡ free_by p d (Ok actual) slack total) × (result < 2 ^ 63) }
{
    match actual {
        Actual::Unstarted | Actual::Begun(_) => {
            number::sign::upward(number::sign::min(slack, total))
        }
        Actual::Completed(_, _) => 0,
    }
}

// The held activity's new start: moved by its float on its OWN calendar, or back by its work from its finish moved so.
fn held_start(work: &Work, early: Span, free: u64) -> Result<u64, ClockError>
    ensures { result ≡ start_moved (worked_by work.now.calendar) work.now.activity.kind early.start early.finish work.now.left free }
{
    let t = clock::advance(&work.calendar, early.start, free)?;
    let moved = work.place_start(t)?;
    if work.left == 0 {
        return Ok(moved);
    }
    let f = clock::advance(&work.calendar, early.finish, free)?;
    clock::retreat(&work.calendar, f, work.left)
}

// The held late move: the new start, and the new finish counted from it on the held activity's OWN calendar.
fn held_move(work: &Work, early: Span, free: u64) -> Result<Span, ClockError>
    ensures { result ≡ dates_moved (worked_by work.now.calendar) work.now.activity.kind early.start early.finish work.now.left free }
{
    let s = held_start(work, early, free)?;
    let f = work.finish_of(s)?;
    Ok(Span {
        start: s,
        finish: f,
    })
}

// The field with the end of a link's successor that the link leads to.
// `late::links::target` picks from two times that were walked to; here a field is picked, which is all that is read.
fn target_field(kind: RelationshipType) -> usize
    ensures { ((p : Plan) → result ≡ target_of p kind early_start early_finish) × (result < 64) }
{
    if dates::leads_to_finish(kind) {
        return memory::fields::EARLY_FINISH;
    }
    memory::fields::EARLY_START
}

// The minutes that the predecessor's OWN calendar works from the bound of the kept link in row `k`, which counts from a date of `from`, to where its successor is now.
fn gap_at(
    plan: &PlanSheet,
    tables: &Tables,
    k: usize,
    from: Span,
    calendar: &Calendar,
) -> Result<i64, ClockError>
    requires { Ready plan.now tables.now × (k < tables.now.kept) }
    ensures { result ≡ gap_by (plan_in plan.now.sheet) (worked_by calendar.now) (tie (plan_in plan.now.sheet) k) from.start from.finish ((early_in (plan_in plan.now.sheet) (state tables.now)).es (tie (plan_in plan.now.sheet) k).to) ((early_in (plan_in plan.now.sheet) (state tables.now)).ef (tie (plan_in plan.now.sheet) k).to) }
{
    let tie = dates::tie_at(tables, k);
    let b = bounds::forward_bound(plan, tie, from)?;
    let target = tables.act(tie.to, target_field(tie.kind));
    clock::between(calendar, b, target)
}

// The least of `slack` and of what stands before each successor of activity `i`.
// `InPlan` is a clause, here and at its callers: a type of calendar that kept it would hold the sheet and a number, too, and be made anew at each activity.
fn least_slack(
    plan: &PlanSheet,
    tables: &Tables,
    i: usize,
    from: Span,
    calendar: &Calendar,
    slack: i64,
) -> Result<i64, ClockError>
    requires { Ready plan.now tables.now × (i < plan.now.sheet.contents.activities) × InPlan plan.now.sheet (calendar_of (plan_in plan.now.sheet) i) calendar.now × From (plan_in plan.now.sheet) (early_in (plan_in plan.now.sheet) (state tables.now)) i from.start from.finish }
    ensures { result ≡ least_slack (plan_in plan.now.sheet) (early_in (plan_in plan.now.sheet) (state tables.now)) i (ties_out (plan_in plan.now.sheet) i) slack }
{
    let mut least = slack;
    for k in tables.links_out(i) {
        let gap = gap_at(plan, tables, k, from, calendar)?;
        least = number::sign::min(least, gap);
    }
    Ok(least)
}

// The least of what stands before the greatest finish and before each successor of activity `i`.
fn slack_of(
    plan: &PlanSheet,
    tables: &Tables,
    finish: u64,
    i: usize,
    calendar: &Calendar,
) -> Result<i64, ClockError>
    requires { Lent plan.now tables.now × (i < plan.now.sheet.contents.activities) × InPlan plan.now.sheet (calendar_of (plan_in plan.now.sheet) i) calendar.now }
    ensures { result ≡ slack_of (plan_in plan.now.sheet) (early_in (plan_in plan.now.sheet) (state tables.now)) finish i }
{
    let from = bounds::counted_from(tables, i);
    let slack = clock::between(calendar, from.finish, finish)?;
    least_slack(plan, tables, i, from, calendar, slack)
}

// The free float of activity `i`, in minutes of its OWN calendar.
fn free_of(
    plan: &PlanSheet,
    tables: &Tables,
    finish: u64,
    i: usize,
    calendar: &Calendar,
) -> Result<u64, ClockError>
    requires { Lent plan.now tables.now × (i < plan.now.sheet.contents.activities) × InPlan plan.now.sheet (calendar_of (plan_in plan.now.sheet) i) calendar.now }
    ensures { (result ≡ free_of (plan_in plan.now.sheet) (early_in (plan_in plan.now.sheet) (state tables.now)) finish ((state tables.now).act late_finish i) i) × ((m : ℕ) → result ≡ Ok m → m < 2 ^ 63) }
{
    let slack = slack_of(plan, tables, finish, i, calendar)?;
    let ef = tables.act(i, memory::fields::EARLY_FINISH);
    let lf = tables.act(i, memory::fields::LATE_FINISH);
    let total = clock::between(calendar, ef, lf)?;
    let recorded = dates::recorded_at(tables, i);
    Ok(free_by(recorded, slack, total))
}

// Whether activity `i` is moved by its free float: it is held late, and there is some.
fn is_moved(tables: &Tables, i: usize, activity: &Activity, free: u64) -> bool
    requires { i < tables.now.activities }
    ensures { (p : Plan) → p.activities ≡ tables.now.activities → Standing p tables.now.kept (state tables.now) → Recorded p (state tables.now) → activity.now ≡ p.activity i → result ≡ (holds_late p (early_in p (state tables.now)) i && ltb 0 free) }
{
    if free == 0 {
        return false;
    }
    if tables.is_summary(i) {
        return false;
    }
    let recorded = dates::recorded_at(tables, i);
    is_marked_late(recorded, activity.constraint, activity.secondary_constraint)
}

// Stores the dates of a held late move, whose free float is used up.
// It, `forward::store` and `backward::store_late` write fields of their own, each as one definition has it: one function would take the fields, and a third value or none.
fn store_move(tables: &mut Tables, i: usize, moved: Span)
    requires { (i < tables.old.activities) × (moved.start < 2 ^ 63) × (moved.finish < 2 ^ 63) }
    ensures { (state tables.new ≡ stored (state tables.old) i moved.start moved.finish) × SameSlice tables.old tables.new }
{
    tables.put_act(i, memory::fields::EARLY_START, moved.start);
    tables.put_act(i, memory::fields::EARLY_FINISH, moved.finish);
    tables.put_act(i, memory::fields::FREE_FLOAT, 0);
}

// Moves activity `i`, which is held late, by its free float; its predecessors see the new dates.
fn hold_late(tables: &mut Tables, i: usize, work: &Work, free: u64) -> Result<(), ClockError>
    requires { i < tables.old.activities }
    ensures { ((p : Plan) → p.activities ≡ tables.old.activities → InHand p (early_in p (state tables.old)) i work.now → ended (freed_in p (state tables.new)) result ≡ held_move p (early_in p (state tables.old)) i free (free_in p (state tables.old))) × Frame 12 16 0 0 (state tables.old) (state tables.new) × SameSlice tables.old tables.new }
{
    let early = bounds::early_at(tables, i);
    let moved = held_move(work, early, free)?;
    store_move(tables, i, moved);
    Ok(())
}

// Moves activity `i` by its free float where it is held late, or else stores it.
fn use_float(tables: &mut Tables, i: usize, work: &Work, free: u64) -> Result<(), ClockError>
    requires { (i < tables.old.activities) × (free < 2 ^ 63) }
    ensures { ((p : Plan) → p.activities ≡ tables.old.activities → Standing p tables.old.kept (state tables.old) → Recorded p (state tables.old) → InHand p (early_in p (state tables.old)) i work.now → ended (freed_in p (state tables.new)) result ≡ freed p (early_in p (state tables.old)) i free (free_in p (state tables.old))) × Frame 12 16 0 0 (state tables.old) (state tables.new) × SameSlice tables.old tables.new }
{
    if is_moved(tables, i, &work.activity, free) {
        return hold_late(tables, i, work, free);
    }
    tables.put_act(i, memory::fields::FREE_FLOAT, free);
    Ok(())
}

// The pass's step: an activity's free float, and its move where it is held late.
#[derive(Drop)]
struct FreeFloats {
    finish: u64,
}

impl Step for FreeFloats {
    ghost Dates = { Freed };

    ghost Past = { ℕ };

    ghost seen = { λ s p S _. freed_in p S };

    ghost turn = { λ s p S e. free_float p s.finish (late_in p S e) };

    ghost low = { 12 };

    ghost high = { 16 };

    ghost turn_kept = { λ s p S T F. turn_kept F p s.finish };

    fn take(&self, plan: &PlanSheet, tables: &mut Tables, i: usize) -> Result<(), ClockError> {
        let work = dates::work_of(plan, tables, i);
        let free = free_of(plan, tables, self.finish, i, &work.calendar)?;
        use_float(tables, i, &work, free)
    }
}

// The free floats and held late moves; `finish` is the greatest early finish before them.
pub fn free_pass(plan: &PlanSheet, tables: &mut Tables, finish: u64) -> Result<(), ClockError>
    requires { Lent plan.now tables.old }
    ensures { ((e : ℕ) → ended (freed_in (plan_in plan.now.sheet) (state tables.new)) result ≡ through (free_float (plan_in plan.now.sheet) finish (late_in (plan_in plan.now.sheet) (state tables.old) e)) (reverse (order (plan_in plan.now.sheet))) (record { early = early_in (plan_in plan.now.sheet) (state tables.old); free = λ i. 0 })) × Frame 12 16 0 0 (state tables.old) (state tables.new) × SameSlice tables.old tables.new }
{
    tables.fill_act(memory::fields::FREE_FLOAT, 0);
    dates::step::back(&FreeFloats { finish }, plan, tables)
}
