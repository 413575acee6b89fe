// The forward pass: the early start, early finish and minutes of work left of each activity, in the order.
#![tactic(auto)]

ghost use Rattle.std.specs.Prelude.{◌≡◌, ℕ, ◌^◌, ◌<◌, max, Ok, Err};
ghost use Rattle.placing.specs.Placing.{via};
ghost use Rattle.memory.specs.State.{put_act};
ghost use Rattle.memory.specs.Seen.{state, SameSlice};
ghost use Rattle.memory.specs.Fields.{early_start, early_finish, work_left};
ghost use Rattle.topology.specs.Frame.{Frame};
ghost use Rattle.order.specs.Plan.{plan_in};
ghost use Rattle.passes.specs.Plan.{ties_into};
ghost use Rattle.passes.specs.Dates.{Early};
ghost use Rattle.passes.specs.Forward.{link_start, raised, forward};
ghost use Rattle.passes.specs.Run.{forward_pass};
ghost use Rattle.dates.specs.Columns.{early_in, left_in, ended};
ghost use Rattle.dates.specs.Standing.{Lent};
ghost use Rattle.dates.specs.InHand.{InHand};
ghost use Rattle.early.specs.InHand.{placed_as};
ghost use Rattle.forward.specs.Linked.{after_links};

use calendars::PlanSheet;
use dates::step::Step;
use early::{Placement, Unplaced};
use memory::Tables;
use placing::{Actual, Work};
use worktime::ClockError;

// `start`, raised by the start that the kept link in row `k` leaves its successor.
// `early::raised_to` raises a walk's answer in the same line; to call it would take as much.
fn raised_by(
    plan: &PlanSheet,
    tables: &Tables,
    k: usize,
    work: &Work,
    start: u64,
) -> Result<u64, ClockError>
    requires { Lent plan.now tables.now × (k < tables.now.kept) }
    ensures { (i : ℕ) → InHand (plan_in plan.now.sheet) (early_in (plan_in plan.now.sheet) (state tables.now)) i work.now → result ≡ via Err (link_start (plan_in plan.now.sheet) (early_in (plan_in plan.now.sheet) (state tables.now)) i k) (λ s. Ok (max start s)) }
{
    bounds::start_by_link(plan, tables, work, k).map(|s| start.max(s))
}

// `floor`, raised by each kept link into activity `i`, in rising order.
// `InHand` is a clause: a type of work that kept it would hold plan, tables and `i`, too, and be made anew at each activity.
// `late::links::lower` and `floats::least_slack` are such walks along a chain, a `for` and a `?` each: one function over the step would be as long.
fn raise(
    plan: &PlanSheet,
    tables: &Tables,
    i: usize,
    work: &Work,
    floor: u64,
) -> Result<u64, ClockError>
    requires { Lent plan.now tables.now × (i < plan.now.sheet.contents.activities) × InHand (plan_in plan.now.sheet) (early_in (plan_in plan.now.sheet) (state tables.now)) i work.now }
    ensures { result ≡ raised (plan_in plan.now.sheet) (early_in (plan_in plan.now.sheet) (state tables.now)) i (ties_into (plan_in plan.now.sheet) i) floor }
{
    let mut start = floor;
    for k in tables.links_into(i) {
        start = raised_by(plan, tables, k, work, start)?;
    }
    Ok(start)
}

// The early dates of activity `i`: completed work apart.
fn early_of(
    plan: &PlanSheet,
    tables: &Tables,
    i: usize,
    recorded: Actual,
) -> Result<Placement, ClockError>
    requires { Lent plan.now tables.now × (i < plan.now.sheet.contents.activities) }
    ensures { placed_as (plan_in plan.now.sheet) (early_in (plan_in plan.now.sheet) (state tables.now)) i result ≡ after_links (plan_in plan.now.sheet) (early_in (plan_in plan.now.sheet) (state tables.now)) i (Ok recorded) }
{
    let unplaced = Unplaced {
        work: dates::work_of(plan, tables, i),
        is_summary: tables.is_summary(i),
        times: early::times_of(&plan.sheet),
    };
    let start = raise(plan, tables, i, &unplaced.work, unplaced.times.floor)?;
    early::place(&unplaced, Ok(recorded), start)
}

// Stores an activity's early dates and its minutes of work left.
fn store(tables: &mut Tables, i: usize, placed: Placement)
    requires { i < tables.old.activities }
    ensures { (state tables.new ≡ put_act (put_act (put_act (state tables.old) early_start i placed.start) early_finish i placed.finish) work_left i placed.left) × SameSlice tables.old tables.new }
{
    tables.put_act(i, memory::fields::EARLY_START, placed.start);
    tables.put_act(i, memory::fields::EARLY_FINISH, placed.finish);
    tables.put_act(i, memory::fields::WORK_LEFT, placed.left);
}

// The pass's step: completed work stays where it happened.
#[derive(Drop)]
struct Forward;

impl Step for Forward {
    ghost use Rattle.std.specs.Prelude.{refl};

    ghost Dates = { Early };

    ghost seen = { λ s p S _. early_in p S };

    ghost turn = { λ s p _ _. forward p };

    ghost low = { 12 };

    ghost high = { 15 };

    ghost turn_kept = { λ _ _ _ _ _ _. refl };

    fn take(&self, plan: &PlanSheet, tables: &mut Tables, i: usize) -> Result<(), ClockError> {
        let recorded = dates::recorded_at(tables, i);
        match recorded {
            Actual::Unstarted | Actual::Begun(_) => {
                let placed = early_of(plan, tables, i, recorded)?;
                store(tables, i, placed);
                Ok(())
            }
            Actual::Completed(start, finish) => {
                let left = tables.act(i, memory::fields::WORK_LEFT);
                let placed = Placement {
                    start,
                    finish,
                    left,
                };
                store(tables, i, placed);
                Ok(())
            }
        }
    }
}

// The early dates of all activities, from the work left before the passes.
pub fn forward_pass(plan: &PlanSheet, tables: &mut Tables) -> Result<(), ClockError>
    requires { Lent plan.now tables.old }
    ensures { (ended (early_in (plan_in plan.now.sheet) (state tables.new)) result ≡ forward_pass (plan_in plan.now.sheet) (left_in (plan_in plan.now.sheet) (state tables.old))) × Frame 12 15 0 0 (state tables.old) (state tables.new) × SameSlice tables.old tables.new }
{
    let origin = dates::origin_of(&plan.sheet);
    tables.fill_act(memory::fields::EARLY_START, origin);
    tables.fill_act(memory::fields::EARLY_FINISH, origin);
    dates::step::onward(&Forward, plan, tables)
}
