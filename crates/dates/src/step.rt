// A pass over the activities of the plan, by a step for each of them.
ghost use Rattle.std.specs.Prelude.{◌≡◌, ℕ, ◌<◌, ◌≤◌, reverse};
ghost use Rattle.memory.specs.State.{State};
ghost use Rattle.memory.specs.Seen.{state, SameSlice};
ghost use Rattle.topology.specs.Frame.{Frame};
ghost use Rattle.order.specs.Plan.{Plan, plan_in};
ghost use Rattle.order.specs.Checks.{order};
ghost use Rattle.passes.specs.Dates.{Pass, through};
ghost use Rattle.dates.specs.Columns.{ended};
ghost use Rattle.dates.specs.Standing.{Lent};

use calendars::PlanSheet;
use memory::Tables;
use worktime::ClockError;

// What a pass does with an activity in its turn, as its definition has it.
pub trait Step {
    // The dates that it finds, as they stand in the memory; `Past` is what stands for them past the activities.
    ghost Dates: { Type 0 };

    ghost Past: { Type 0 } = { Unit {0} };

    ghost seen: { Self → Plan → State → Past → Dates };

    // What the definition makes of them at an activity, where the rest of the memory stands.
    ghost turn: { Self → Plan → State → Past → Dates → ℕ → Pass Dates };

    // It writes the fields of activities from `low` up to `high`.
    ghost low: { ℕ };

    ghost high: { ℕ };

    fn take(&self, plan: &PlanSheet, tables: &mut Tables, i: usize) -> Result<(), ClockError>
        requires { Lent plan.now tables.old × (i < plan.now.sheet.contents.activities) }
        ensures { ((past : Past) → ended (seen self.now (plan_in plan.now.sheet) (state tables.new) past) result ≡ turn self.now (plan_in plan.now.sheet) (state tables.old) past (seen self.now (plan_in plan.now.sheet) (state tables.old) past) i) × Frame low high 0 0 (state tables.old) (state tables.new) × SameSlice tables.old tables.new };

    // Of what it writes it reads nothing but those dates.
    ghost turn_kept: { (s : Self) (p : Plan) (S T : State) → Frame low high 0 0 S T → (past : Past) → turn s p T past ≡ turn s p S past };
}

// The step at each activity, in the order.
pub fn onward<S: Step>(step: &S, plan: &PlanSheet, tables: &mut Tables) -> Result<(), ClockError>
    requires fields { (10 ≤ S.low) × (S.high ≤ 17) }
    requires ready { Lent plan.now tables.old }
    ensures { ((past : S.Past) → ended (S.seen step.now (plan_in plan.now.sheet) (state tables.new) past) result ≡ through (S.turn step.now (plan_in plan.now.sheet) (state tables.old) past) (order (plan_in plan.now.sheet)) (S.seen step.now (plan_in plan.now.sheet) (state tables.old) past)) × Frame S.low S.high 0 0 (state tables.old) (state tables.new) × SameSlice tables.old tables.new }
{
    for q in 0..plan.sheet.contents.activities {
        let i = tables.act(q, memory::fields::ORDER_AT) as usize;
        step.take(plan, tables, i)?;
    }
    Ok(())
}

// The step at each activity, from the last of the order to the first.
// It is `onward` with the range turned about: a function over the range would take the order that the range lists as a parameter, and be no plainer.
pub fn back<S: Step>(step: &S, plan: &PlanSheet, tables: &mut Tables) -> Result<(), ClockError>
    requires fields { (10 ≤ S.low) × (S.high ≤ 17) }
    requires ready { Lent plan.now tables.old }
    ensures { ((past : S.Past) → ended (S.seen step.now (plan_in plan.now.sheet) (state tables.new) past) result ≡ through (S.turn step.now (plan_in plan.now.sheet) (state tables.old) past) (reverse (order (plan_in plan.now.sheet))) (S.seen step.now (plan_in plan.now.sheet) (state tables.old) past)) × Frame S.low S.high 0 0 (state tables.old) (state tables.new) × SameSlice tables.old tables.new }
{
    for q in (0..plan.sheet.contents.activities).rev() {
        let i = tables.act(q, memory::fields::ORDER_AT) as usize;
        step.take(plan, tables, i)?;
    }
    Ok(())
}
