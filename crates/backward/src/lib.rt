// The greatest early finish, the end that the plan is held to, and the backward pass: late starts and finishes.
#![tactic(auto)]

ghost use Rattle.std.specs.Prelude.{◌≡◌, reverse, ℕ, ◌^◌, ◌<◌, Ok, IfSome};
ghost use Rattle.memory.specs.Seen.{state, SameSlice};
ghost use Rattle.memory.specs.Fields.{early_start, early_finish};
ghost use Rattle.topology.specs.Frame.{Frame};
ghost use Rattle.order.specs.Plan.{plan_in};
ghost use Rattle.order.specs.Ids.{summary};
ghost use Rattle.order.specs.Checks.{order};
ghost use Rattle.passes.specs.Plan.{recorded};
ghost use Rattle.passes.specs.Dates.{Early, Late, through};
ghost use Rattle.passes.specs.Backward.{finish, end, backward};
ghost use Rattle.dates.specs.Columns.{early_in, late_in, ended};
ghost use Rattle.dates.specs.Standing.{Ready, Lent};
ghost use Rattle.late.specs.Times.{unfinished_late};
ghost use Rattle.backward.specs.Finish.{Marked, past, onward};
ghost use Rattle.backward.specs.Stored.{stored};
ghost use Rattle.backward.specs.Turn.{turn_kept};

use calendars::PlanSheet;
use dates::Span;
use dates::step::Step;
use memory::Tables;
use memory::reads::Reads;
use placing::Actual;
use sheet::Sheet;
use worktime::ClockError;

// The greatest early finish so far, on with activity `i`; a summary has none.
fn finish_onward<R: Reads>(sheet: &Sheet, tables: &R, i: usize, top: Option<u64>) -> Option<u64>
    requires { ((R.tables tables.now).activities ≡ sheet.now.contents.activities) × (i < sheet.now.contents.activities) × Marked (plan_in sheet.now) (state (R.tables tables.now)) × IfSome top (λ t. t < 2 ^ 63) }
    ensures { (past result ≡ onward (summary (plan_in sheet.now) i) ((state (R.tables tables.now)).act early_finish i) (past top)) × IfSome result (λ t. t < 2 ^ 63) }
{
    if tables.is_summary(i) {
        return top;
    }
    let finish = tables.act(i, memory::fields::EARLY_FINISH);
    Some(top.unwrap_or(finish).max(finish))
}

// The greatest early finish of the activities that are no summaries, and the project's start where there is none.
pub fn greatest_finish<R: Reads>(sheet: &Sheet, tables: &R) -> u64
    requires { ((R.tables tables.now).activities ≡ sheet.now.contents.activities) × Marked (plan_in sheet.now) (state (R.tables tables.now)) }
    ensures { (result ≡ finish (plan_in sheet.now) (early_in (plan_in sheet.now) (state (R.tables tables.now)))) × (result < 2 ^ 63) }
{
    let mut top: Option<u64> = None;
    for i in 0..sheet.contents.activities {
        top = finish_onward(sheet, tables, i, top);
    }
    top.unwrap_or(dates::origin_of(sheet))
}

// The end: the evening of the day that the project must finish by, or `greatest`, the greatest early finish.
pub fn end_of(sheet: &Sheet, greatest: u64) -> Result<u64, ClockError>
    requires { greatest < 2 ^ 63 }
    ensures { ((d : Early) → greatest ≡ finish (plan_in sheet.now) d → result ≡ end (plan_in sheet.now) d) × ((t : ℕ) → result ≡ Ok t → t < 2 ^ 63) }
{
    match sheet.must_finish_by() {
        Some(day) => {
            let origin = dates::origin_of(sheet);
            placing::bounded(origin, day.midnight() + 1440)
        }
        None => Ok(greatest),
    }
}

// Puts the late dates of activity `i` into the memory.
fn store_late(tables: &mut Tables, i: usize, late: Span)
    requires { (i < tables.old.activities) × (late.start < 2 ^ 63) × (late.finish < 2 ^ 63) }
    ensures { (state tables.new ≡ stored (state tables.old) i late.start late.finish) × SameSlice tables.old tables.new }
{
    tables.put_act(i, memory::fields::LATE_START, late.start);
    tables.put_act(i, memory::fields::LATE_FINISH, late.finish);
}

// Completed work: its late dates are its early ones.
fn keep_early(tables: &mut Tables, i: usize)
    requires { i < tables.old.activities }
    ensures { (state tables.new ≡ stored (state tables.old) i ((state tables.old).act early_start i) ((state tables.old).act early_finish i)) × SameSlice tables.old tables.new }
{
    let early = bounds::early_at(tables, i);
    store_late(tables, i, early);
}

// The late dates of activity `i`, of which `actual` is recorded and which is not completed.
fn place_unfinished(
    plan: &PlanSheet,
    tables: &mut Tables,
    last: u64,
    i: usize,
    actual: Actual,
) -> Result<(), ClockError>
    requires { Ready plan.now tables.old × (i < plan.now.sheet.contents.activities) × (Ok actual ≡ recorded (plan_in plan.now.sheet) i) }
    ensures { (ended (late_in (plan_in plan.now.sheet) (state tables.new) last) result ≡ unfinished_late (plan_in plan.now.sheet) (early_in (plan_in plan.now.sheet) (state tables.old)) (late_in (plan_in plan.now.sheet) (state tables.old) last) i last) × Frame 10 12 0 0 (state tables.old) (state tables.new) × SameSlice tables.old tables.new }
{
    let dates = late::late_of(plan, tables, i, Ok(actual), last)?;
    store_late(tables, i, dates);
    Ok(())
}

// The pass's step, back from `last`.
#[derive(Drop)]
struct Backward {
    last: u64,
}

impl Step for Backward {
    ghost Dates = { Late };

    ghost seen = { λ s p S _. late_in p S s.last };

    ghost turn = { λ s p S _. backward p (early_in p S) s.last };

    ghost low = { 10 };

    ghost high = { 12 };

    ghost turn_kept = { λ s p S T F _. turn_kept F p s.last };

    fn take(&self, plan: &PlanSheet, tables: &mut Tables, i: usize) -> Result<(), ClockError> {
        let actual = dates::recorded_at(tables, i);
        match actual {
            Actual::Unstarted | Actual::Begun(_) => {
                place_unfinished(plan, tables, self.last, i, actual)
            }
            Actual::Completed(_, _) => {
                keep_early(tables, i);
                Ok(())
            }
        }
    }
}

// The backward pass from `last`, the end: the late dates of all activities.
pub fn backward_pass(plan: &PlanSheet, tables: &mut Tables, last: u64) -> Result<(), ClockError>
    requires { Lent plan.now tables.old × (last < 2 ^ 63) }
    ensures { (ended (late_in (plan_in plan.now.sheet) (state tables.new) last) result ≡ through (backward (plan_in plan.now.sheet) (early_in (plan_in plan.now.sheet) (state tables.old)) last) (reverse (order (plan_in plan.now.sheet))) (record { ls = λ i. last; lf = λ i. last })) × Frame 10 12 0 0 (state tables.old) (state tables.new) × SameSlice tables.old tables.new }
{
    tables.fill_act(memory::fields::LATE_START, last);
    tables.fill_act(memory::fields::LATE_FINISH, last);
    dates::step::back(&Backward { last }, plan, tables)
}
