// Summaries rolled up from their children, deepest first.
#![tactic(auto)]

ghost use Rattle.std.specs.Prelude.{◌≡◌, Bool, ℕ, ◌+◌, ◌≤◌, ◌<◌};
ghost use Rattle.memory.specs.State.{put_act};
ghost use Rattle.memory.specs.Seen.{state, SameSlice};
ghost use Rattle.memory.specs.Fields.{parent, depth_of, first_child};
ghost use Rattle.topology.specs.Frame.{Frame};
ghost use Rattle.network.specs.ParentLinks.{depth};
ghost use Rattle.rollup.specs.Chained.{LinkedIn, KeysIn};
ghost use Rattle.order.specs.Plan.{plan_in};
ghost use Rattle.order.specs.Ties.{calendar_of};
ghost use Rattle.passes.specs.Dates.{through};
ghost use Rattle.passes.specs.Run.{Ran};
ghost use Rattle.calendars.specs.Calendars.{Lengths};
ghost use Rattle.dates.specs.Columns.{ended};
ghost use Rattle.dates.specs.Standing.{Ready, Recorded};
ghost use Rattle.results.specs.Results.{summaries_at, deepest_first, rolled, results};
ghost use Rattle.results.specs.View.{ran_in, shown_in};
ghost use Rattle.results.specs.Row.{ToShow};
ghost use Rattle.results.specs.Showing.{showing};
ghost use Rattle.rollup.specs.Prepared.{Prepared};
ghost use Rattle.rollup.specs.Rolling.{Deep, ToRoll, summed_pass};
ghost use Rattle.rollup.specs.Depths.{depth_key, DepthsTo};
ghost use Rattle.rollup.specs.Roll.{joined, child_sum};

mod children;

use calendars::PlanSheet;
use children::Children;
use memory::Tables;
use project::Project;
use results::{Days, Shown, ShownRow};
use worktime::ClockError;

// ---- chains through the activities
// They are not those of `memory`: those chain links by an activity, these activities by a key that may be none, and in another table; one function of both would take the table, and an `Option` for each link.
// `key < head` and `head + 2 ≤ 64` are clauses, here and below: a type of two such fields would be made for two calls.
// Puts activity `c` before those with its key.
fn chain_one(tables: &mut Tables, key: usize, head: usize, c: usize)
    requires { (c < tables.old.activities) × (key < head) × (head + 2 ≤ 64) × KeysIn key tables.old.activities (state tables.old) × LinkedIn key head tables.old.activities (c + 1) (state tables.old) }
    ensures { LinkedIn key head tables.old.activities c (state tables.new) × Frame head (head + 2) 0 0 (state tables.old) (state tables.new) × SameSlice tables.old tables.new }
{
    let Some(i) = tables.row(c, key) else {
        return;
    };
    let first = tables.act(i, head);
    tables.put_act(c, head + 1, first);
    tables.put_act(i, head, c as u64);
}

// Puts all activities before those with their keys, from the last to the first.
fn chain_down(tables: &mut Tables, key: usize, head: usize)
    requires { (key < head) × (head + 2 ≤ 64) × KeysIn key tables.old.activities (state tables.old) × LinkedIn key head tables.old.activities tables.old.activities (state tables.old) }
    ensures { LinkedIn key head tables.old.activities 0 (state tables.new) × Frame head (head + 2) 0 0 (state tables.old) (state tables.new) × SameSlice tables.old tables.new }
{
    for c in (0..tables.activities).rev() {
        chain_one(tables, key, head, c);
    }
}

// Chains the activities by the row that the field `key` names, if any: `head` of row i is the first that names it, and the field after it the next that names the same; a depth d names row d - 1.
fn chain(tables: &mut Tables, key: usize, head: usize)
    requires { (key < head) × (head + 2 ≤ 64) × KeysIn key tables.old.activities (state tables.old) }
    ensures { LinkedIn key head tables.old.activities 0 (state tables.new) × Frame head (head + 2) 0 0 (state tables.old) (state tables.new) × SameSlice tables.old tables.new }
{
    tables.fill_act(head, tables.activities as u64);
    chain_down(tables, key, head);
}

// ---- depths
// How deep activity `i` lies: 1 where it has no parent.
fn depth_of(tables: &Tables, i: usize) -> usize
    requires { (i < tables.now.activities) × KeysIn parent tables.now.activities (state tables.now) }
    ensures { (result ≡ depth ((state tables.now).act parent) tables.now.activities i) × (result ≤ tables.now.activities) }
{
    // No iterator over the activities above, as in `ids::parent_loop_steps`: a field of parents alone does not say that they end.
    let mut at = Some(i);
    for k in 0..tables.activities {
        let Some(j) = at else {
            return k;
        };
        at = tables.row(j, memory::fields::PARENT);
    }
    tables.activities
}

// Puts the depth of activity `i` into its row, where it is a summary, and else 0.
fn mark_one(tables: &mut Tables, i: usize)
    requires { (i < tables.old.activities) × KeysIn parent tables.old.activities (state tables.old) }
    ensures { (state tables.new ≡ put_act (state tables.old) depth_of i (depth_key (state tables.old) tables.old.activities i)) × SameSlice tables.old tables.new }
{
    if tables.is_summary(i) {
        let d = depth_of(tables, i) as u64;
        tables.put_act(i, memory::fields::DEPTH_OF, d);
        return;
    }
    tables.put_act(i, memory::fields::DEPTH_OF, 0);
}

// Puts the depth of each summary into its row, and 0 into the others'.
fn mark_depths(tables: &mut Tables)
    requires { KeysIn parent tables.old.activities (state tables.old) }
    ensures { DepthsTo (state tables.old) (state tables.new) tables.old.activities tables.old.activities × Frame 30 31 0 0 (state tables.old) (state tables.new) × SameSlice tables.old tables.new }
{
    for i in 0..tables.activities {
        mark_one(tables, i);
    }
}

// ---- a summary's children
// The dates of both, the total float of the first.
fn join(x: ShownRow, y: ShownRow) -> ShownRow
    ensures { result.shown ≡ joined x.shown y.shown }
{
    let x = x.shown;
    let y = y.shown;
    let days = Days {
        es: x.days.es.min(y.days.es),
        ef: x.days.ef.max(y.days.ef),
        ls: x.days.ls.min(y.days.ls),
        lf: x.days.lf.max(y.days.lf),
    };
    ShownRow::new(Shown {
        days,
        path: x.path || y.path,
        finish: x.finish.max(y.finish),
        late: x.late.max(y.late),
        ..x
    })
}

// The children of summary `s`, joined, from the first of them on.
fn sum_children(tables: &Tables, s: usize, first: usize) -> ShownRow
    requires { (s < tables.now.activities) × LinkedIn parent first_child tables.now.activities 0 (state tables.now) × (first ≡ (state tables.now).act first_child s) × (first < tables.now.activities) }
    ensures { result.shown ≡ child_sum (state tables.now) tables.now.activities s }
{
    let mut x = results::shown_at(tables, first);
    for c in Children::after(tables, s, first) {
        x = join(x, results::shown_at(tables, c));
    }
    x
}

// ---- one summary
// The sum of a summary's children with its own float. The project is read once a pass, as in `results`.
fn summed_of(
    plan: &PlanSheet,
    project: Project,
    s: usize,
    x: &ShownRow,
) -> Result<ShownRow, ClockError>
    requires { Lengths (plan_in plan.now.sheet) plan.now.calendars.now × (s < plan.now.sheet.contents.activities) × (calendar_of (plan_in plan.now.sheet) s < plan.now.sheet.contents.calendars) × (project ≡ (plan_in plan.now.sheet).project) }
    ensures { showing result ≡ summed_pass (plan_in plan.now.sheet) s x.now.shown }
{
    let by = project.critical_by;
    let activity = dates::activity_of(&plan.sheet, s);
    let k = activity.calendar as usize;
    let calendar = plan.calendar(k);
    let total = clock::between(&calendar, x.shown.finish, x.shown.late)?;
    let critical = results::is_critical(by, plan.calendars[k].day_length, total, x.shown.path);
    Ok(ShownRow::new(Shown {
        total,
        free: 0,
        critical,
        ..x.shown
    }))
}

// Rolls summary `s` up from its children.
fn roll_one(
    plan: &PlanSheet,
    project: Project,
    tables: &mut Tables,
    s: usize,
) -> Result<(), ClockError>
    requires { ToShow plan.now tables.old × Deep (plan_in plan.now.sheet) (state tables.old) × (s < plan.now.sheet.contents.activities) × (project ≡ (plan_in plan.now.sheet).project) }
    ensures { ((q : Ran) → ended (shown_in (plan_in plan.now.sheet) (state tables.new)) result ≡ rolled (plan_in plan.now.sheet) q (shown_in (plan_in plan.now.sheet) (state tables.old)) s) × Frame 20 30 0 0 (state tables.old) (state tables.new) × SameSlice tables.old tables.new }
{
    let first = tables.act(s, memory::fields::FIRST_CHILD) as usize;
    if first >= plan.sheet.contents.activities {
        return Ok(());
    }
    let x = sum_children(tables, s, first);
    let y = summed_of(plan, project, s, &x)?;
    results::put_shown(tables, s, &y);
    Ok(())
}

// ---- all summaries, deepest first
// Rolls up the summaries of depth `d`, in sheet order.
fn roll_depth(
    plan: &PlanSheet,
    project: Project,
    tables: &mut Tables,
    d: usize,
) -> Result<(), ClockError>
    requires { ToShow plan.now tables.old × Deep (plan_in plan.now.sheet) (state tables.old) × (0 < d) × (d ≤ plan.now.sheet.contents.activities) × (project ≡ (plan_in plan.now.sheet).project) }
    ensures { ((q : Ran) → ended (shown_in (plan_in plan.now.sheet) (state tables.new)) result ≡ through (rolled (plan_in plan.now.sheet) q) (summaries_at (plan_in plan.now.sheet) q d plan.now.sheet.contents.activities) (shown_in (plan_in plan.now.sheet) (state tables.old))) × Frame 20 30 0 0 (state tables.old) (state tables.new) × SameSlice tables.old tables.new }
{
    let mut k = tables.act(d - 1, memory::fields::FIRST_DEEP) as usize;
    // A `while`: `roll_one` writes the tables that the next summary is read from, so no iterator may hold them.
    while k < plan.sheet.contents.activities {
        roll_one(plan, project, tables, k)?;
        k = tables.act(k, memory::fields::NEXT_DEEP) as usize;
    }
    Ok(())
}

fn roll_all(plan: &PlanSheet, project: Project, tables: &mut Tables) -> Result<(), ClockError>
    requires { ToShow plan.now tables.old × Deep (plan_in plan.now.sheet) (state tables.old) × (project ≡ (plan_in plan.now.sheet).project) }
    ensures { ((q : Ran) → ended (shown_in (plan_in plan.now.sheet) (state tables.new)) result ≡ through (rolled (plan_in plan.now.sheet) q) (deepest_first (plan_in plan.now.sheet) q plan.now.sheet.contents.activities) (shown_in (plan_in plan.now.sheet) (state tables.old))) × Frame 20 30 0 0 (state tables.old) (state tables.new) × SameSlice tables.old tables.new }
{
    for d in (0..plan.sheet.contents.activities).rev() {
        roll_depth(plan, project, tables, d + 1)?;
    }
    Ok(())
}

// Finds depths and chains for the roll-up.
fn prepare(tables: &mut Tables)
    requires { KeysIn parent tables.old.activities (state tables.old) }
    ensures { Prepared tables.old.activities (state tables.old) (state tables.new) × SameSlice tables.old tables.new }
{
    mark_depths(tables);
    chain(tables, memory::fields::DEPTH_OF, memory::fields::FIRST_DEEP);
    chain(tables, memory::fields::PARENT, memory::fields::FIRST_CHILD);
}

// Rolls up all summaries, deepest first.
fn roll_up(plan: &PlanSheet, tables: &mut Tables) -> Result<(), ClockError>
    requires { ToShow plan.now tables.old × ToRoll (plan_in plan.now.sheet) (state tables.old) }
    ensures { ((q : Ran) → ended (shown_in (plan_in plan.now.sheet) (state tables.new)) result ≡ through (rolled (plan_in plan.now.sheet) q) (deepest_first (plan_in plan.now.sheet) q plan.now.sheet.contents.activities) (shown_in (plan_in plan.now.sheet) (state tables.old))) × Frame 20 35 0 0 (state tables.old) (state tables.new) × SameSlice tables.old tables.new }
{
    let project = plan.sheet.project();
    prepare(tables);
    roll_all(plan, project, tables)
}

// The results: what is shown of each activity, and summaries rolled up from their children.
pub fn results(plan: &PlanSheet, tables: &mut Tables) -> Result<(), ClockError>
    requires { Ready plan.now tables.old × Recorded (plan_in plan.now.sheet) (state tables.old) × Lengths (plan_in plan.now.sheet) plan.now.calendars.now }
    ensures { ((e : ℕ) (other : ℕ → Bool) → ended (shown_in (plan_in plan.now.sheet) (state tables.new)) result ≡ results (plan_in plan.now.sheet) (ran_in (plan_in plan.now.sheet) (state tables.old) e other)) × Frame 20 35 0 0 (state tables.old) (state tables.new) × SameSlice tables.old tables.new }
{
    results::show_all(plan, tables)?;
    roll_up(plan, tables)
}
