// The scheduling run: the passes one after the other, on the lent memory.
#![tactic(auto)]

ghost use Rattle.std.specs.Prelude.{◌≡◌, ℕ, ◌^◌, ◌<◌, Ok};
ghost use Rattle.memory.specs.Seen.{state, SameSlice};
ghost use Rattle.topology.specs.Frame.{Frame};
ghost use Rattle.order.specs.Plan.{plan_in};
ghost use Rattle.passes.specs.Backward.{finish};
ghost use Rattle.dates.specs.Columns.{early_in, late_in, ended};
ghost use Rattle.dates.specs.Standing.{Ready, Recorded, Lent};
ghost use Rattle.run.specs.Stages.{early_dates, float_dates, floated_in, LateIn, RunIn};

use calendars::PlanSheet;
use memory::Tables;
use worktime::ClockError;

// The work left, and then the early dates.
fn early_dates(plan: &PlanSheet, tables: &mut Tables) -> Result<(), ClockError>
    requires { Ready plan.now tables.old }
    ensures { (ended (early_in (plan_in plan.now.sheet) (state tables.new)) result ≡ early_dates (plan_in plan.now.sheet)) × (result ≡ (Ok tt) → Recorded (plan_in plan.now.sheet) (state tables.new)) × Frame 12 20 0 0 (state tables.old) (state tables.new) × SameSlice tables.old tables.new }
{
    remaining::remaining(plan, tables)?;
    forward::forward_pass(plan, tables)
}

// The late dates, back from the end, where `greatest` is the greatest early finish.
fn late_dates(plan: &PlanSheet, tables: &mut Tables, greatest: u64) -> Result<u64, ClockError>
    requires { Lent plan.now tables.old × (greatest ≡ finish (plan_in plan.now.sheet) (early_in (plan_in plan.now.sheet) (state tables.old))) × (greatest < 2 ^ 63) }
    ensures { LateIn (plan_in plan.now.sheet) (early_in (plan_in plan.now.sheet) (state tables.old)) (state tables.new) result × Frame 10 12 0 0 (state tables.old) (state tables.new) × SameSlice tables.old tables.new }
{
    let last = backward::end_of(&plan.sheet, greatest)?;
    backward::backward_pass(plan, tables, last)?;
    Ok(last)
}

// The free floats with held late moves, and then the longest path.
fn float_dates(plan: &PlanSheet, tables: &mut Tables, finish: u64) -> Result<(), ClockError>
    requires { Lent plan.now tables.old }
    ensures { ((e : ℕ) → ended (floated_in (plan_in plan.now.sheet) finish (state tables.new)) result ≡ float_dates (plan_in plan.now.sheet) finish (early_in (plan_in plan.now.sheet) (state tables.old)) (late_in (plan_in plan.now.sheet) (state tables.old) e)) × Frame 12 17 0 0 (state tables.old) (state tables.new) × SameSlice tables.old tables.new }
{
    floats::free_pass(plan, tables, finish)?;
    longest::path_pass(plan, tables, finish)
}

// The late dates, the floats and the longest path, from the early dates.
fn late_and_floats(plan: &PlanSheet, tables: &mut Tables) -> Result<u64, ClockError>
    requires { Lent plan.now tables.old × (ended (early_in (plan_in plan.now.sheet) (state tables.old)) (Ok tt) ≡ early_dates (plan_in plan.now.sheet)) }
    ensures { RunIn (plan_in plan.now.sheet) (state tables.new) result × Frame 10 17 0 0 (state tables.old) (state tables.new) × SameSlice tables.old tables.new }
{
    let finish = backward::greatest_finish(&plan.sheet, tables);
    let last = late_dates(plan, tables, finish)?;
    float_dates(plan, tables, finish)?;
    Ok(last)
}

// The passes, one after the other: the end of the project, or the refusal of a walk.
pub fn run(plan: &PlanSheet, tables: &mut Tables) -> Result<u64, ClockError>
    requires { Ready plan.now tables.old }
    ensures { RunIn (plan_in plan.now.sheet) (state tables.new) result × ((e : ℕ) → result ≡ Ok e → Recorded (plan_in plan.now.sheet) (state tables.new)) × Frame 10 20 0 0 (state tables.old) (state tables.new) × SameSlice tables.old tables.new }
{
    early_dates(plan, tables)?;
    late_and_floats(plan, tables)
}
