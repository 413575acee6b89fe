// The longest path: from the activities that finish the project back along the links that set a start.
#![tactic(auto)]

ghost use Rattle.std.specs.Prelude.{◌≡◌, Bool, ℕ, ◌<◌, Ok};
ghost use Rattle.memory.specs.Seen.{state, SameSlice};
ghost use Rattle.topology.specs.Frame.{Frame};
ghost use Rattle.order.specs.Plan.{Plan, plan_in};
ghost use Rattle.passes.specs.Dates.{Pass, after};
ghost use Rattle.passes.specs.Floats.{is_completed, last_ones, drives, marked, on_path};
ghost use Rattle.passes.specs.Plan.{ties_into};
ghost use Rattle.passes.specs.Run.{path_pass};
ghost use Rattle.dates.specs.Columns.{early_in, path_in, ended};
ghost use Rattle.dates.specs.InHand.{InHand};
ghost use Rattle.dates.specs.Standing.{Standing, Lent, Recorded};
ghost use Rattle.longest.specs.KeptLaws.{turn_kept};
ghost use Rattle.longest.specs.Path.{driven, bound_start, marks};

use calendars::PlanSheet;
use dates::step::Step;
use memory::Tables;
use placing::{Actual, Work};
use worktime::ClockError;

// Whether work is completed.
fn is_completed(actual: Actual) -> bool
    ensures { (p : Plan) → result ≡ is_completed p (Ok actual) }
{
    matches!(actual, Actual::Completed(_, _))
}

// ---- what finishes the project

// Whether activity `i` finishes the project, whose greatest finish is `finish`.
fn is_last(tables: &Tables, i: usize, finish: u64) -> bool
    requires { i < tables.now.activities }
    ensures { (p : Plan) (t : ℕ) → p.activities ≡ tables.now.activities → Standing p t (state tables.now) → Recorded p (state tables.now) → result ≡ last_ones p (early_in p (state tables.now)) finish i }
{
    if tables.is_summary(i) {
        return false;
    }
    let recorded = dates::recorded_at(tables, i);
    if is_completed(recorded) {
        return false;
    }
    tables.act(i, memory::fields::EARLY_FINISH) == finish
}

// Marks what finishes the project.
fn mark_last(tables: &mut Tables, finish: u64)
    ensures { ((p : Plan) (t : ℕ) → p.activities ≡ tables.old.activities → Standing p t (state tables.old) → Recorded p (state tables.old) → path_in p (state tables.new) (last_ones p (early_in p (state tables.old)) finish) ≡ last_ones p (early_in p (state tables.old)) finish) × Frame 16 17 0 0 (state tables.old) (state tables.new) × SameSlice tables.old tables.new }
{
    for i in 0..tables.activities {
        let v = u64::from(is_last(tables, i, finish));
        tables.put_act(i, memory::fields::LONGEST_PATH, v);
    }
}

// ---- the links that set a start

// Where the bound of link `k` places activity `i`, on its own calendar.
// `InHand` is a clause, here and at its callers: a type of work that kept it would hold plan, tables and `i`, too, and be made anew at each activity.
fn bound_start(
    plan: &PlanSheet,
    tables: &Tables,
    work: &Work,
    i: usize,
    k: usize,
) -> Result<u64, ClockError>
    requires { Lent plan.now tables.now × InHand (plan_in plan.now.sheet) (early_in (plan_in plan.now.sheet) (state tables.now)) i work.now × (i < plan.now.sheet.contents.activities) × (k < tables.now.kept) }
    ensures { result ≡ bound_start (plan_in plan.now.sheet) (early_in (plan_in plan.now.sheet) (state tables.now)) i k }
{
    let s = bounds::start_by_link(plan, tables, work, k)?;
    work.place_start(s)
}

// Whether link `k` sets the start of activity `i`: its bound places it where it is, and its predecessor is not completed.
fn drives(
    plan: &PlanSheet,
    tables: &Tables,
    work: &Work,
    i: usize,
    k: usize,
) -> Result<bool, ClockError>
    requires { Lent plan.now tables.now × InHand (plan_in plan.now.sheet) (early_in (plan_in plan.now.sheet) (state tables.now)) i work.now × (i < plan.now.sheet.contents.activities) × (k < tables.now.kept) }
    ensures { (go : Bool → Pass (ℕ → Bool)) → driven result go ≡ drives (plan_in plan.now.sheet) (early_in (plan_in plan.now.sheet) (state tables.now)) i k go }
{
    let u = bound_start(plan, tables, work, i, k)?;
    if u != tables.act(i, memory::fields::EARLY_START) {
        return Ok(false);
    }
    let from = tables.link(k, memory::fields::FROM) as usize;
    let recorded = dates::recorded_at(tables, from);
    Ok(!is_completed(recorded))
}

// Link `k` in its turn: its predecessor is marked if it sets the start of activity `i`.
fn mark_link(
    plan: &PlanSheet,
    tables: &mut Tables,
    work: &Work,
    i: usize,
    k: usize,
) -> Result<(), ClockError>
    requires { Lent plan.now tables.old × InHand (plan_in plan.now.sheet) (early_in (plan_in plan.now.sheet) (state tables.old)) i work.now × (i < plan.now.sheet.contents.activities) × (k < tables.old.kept) }
    ensures { ((other : ℕ → Bool) (go : (ℕ → Bool) → Pass (ℕ → Bool)) → after (ended (path_in (plan_in plan.now.sheet) (state tables.new) other) result) go ≡ marks (plan_in plan.now.sheet) (early_in (plan_in plan.now.sheet) (state tables.old)) i (path_in (plan_in plan.now.sheet) (state tables.old) other) k go) × Frame 16 17 0 0 (state tables.old) (state tables.new) × SameSlice tables.old tables.new }
{
    let sets = drives(plan, tables, work, i, k)?;
    if sets {
        let from = tables.link(k, memory::fields::FROM) as usize;
        tables.put_act(from, memory::fields::LONGEST_PATH, 1);
    }
    Ok(())
}

// The links into activity `i` in turn, rising.
fn mark_links(
    plan: &PlanSheet,
    tables: &mut Tables,
    work: &Work,
    i: usize,
) -> Result<(), ClockError>
    requires { Lent plan.now tables.old × InHand (plan_in plan.now.sheet) (early_in (plan_in plan.now.sheet) (state tables.old)) i work.now × (i < plan.now.sheet.contents.activities) }
    ensures { ((other : ℕ → Bool) → ended (path_in (plan_in plan.now.sheet) (state tables.new) other) result ≡ marked (plan_in plan.now.sheet) (early_in (plan_in plan.now.sheet) (state tables.old)) i (ties_into (plan_in plan.now.sheet) i) (path_in (plan_in plan.now.sheet) (state tables.old) other)) × Frame 16 17 0 0 (state tables.old) (state tables.new) × SameSlice tables.old tables.new }
{
    let mut k = tables.act(i, memory::fields::FIRST_IN) as usize;
    // A `while`: the body writes the tables that the next link is read from, so no iterator may hold them.
    while k < tables.kept {
        mark_link(plan, tables, work, i, k)?;
        k = tables.link(k, memory::fields::NEXT_INTO) as usize;
    }
    Ok(())
}

// ---- the pass

// The pass's step: an activity on the path marks the predecessors that set its start.
#[derive(Drop)]
struct PathBack;

impl Step for PathBack {
    ghost Dates = { ℕ → Bool };

    ghost Past = { ℕ → Bool };

    ghost seen = { λ s p S other. path_in p S other };

    ghost turn = { λ s p S _. on_path p (early_in p S) };

    ghost low = { 16 };

    ghost high = { 17 };

    ghost turn_kept = { λ s p S T F _. turn_kept F p };

    fn take(&self, plan: &PlanSheet, tables: &mut Tables, i: usize) -> Result<(), ClockError> {
        if tables.act(i, memory::fields::LONGEST_PATH) == 0 {
            return Ok(());
        }
        let work = dates::work_of(plan, tables, i);
        mark_links(plan, tables, &work, i)
    }
}

// The longest path of a project whose greatest finish is `finish`.
pub fn path_pass(plan: &PlanSheet, tables: &mut Tables, finish: u64) -> Result<(), ClockError>
    requires { Lent plan.now tables.old }
    ensures { (ended (path_in (plan_in plan.now.sheet) (state tables.new) (last_ones (plan_in plan.now.sheet) (early_in (plan_in plan.now.sheet) (state tables.old)) finish)) result ≡ path_pass (plan_in plan.now.sheet) finish (early_in (plan_in plan.now.sheet) (state tables.old))) × Frame 16 17 0 0 (state tables.old) (state tables.new) × SameSlice tables.old tables.new }
{
    mark_last(tables, finish);
    dates::step::back(&PathBack, plan, tables)
}
