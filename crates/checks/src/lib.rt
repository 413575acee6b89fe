// Rows 5 to 15 of 01's table in one call: the plan is ready for the passes, or it is refused with the names of its loop.
#![tactic(auto)]

ghost use Rattle.std.specs.Prelude.{◌≡◌, ◌+◌, ◌≤◌, ◌<◌, max, length, set, replicate, pos, Err};
ghost use Rattle.memory.specs.Seen.{state, SameLent, SameSlice};
ghost use Rattle.network.specs.Parents.{upward};
ghost use Rattle.network.specs.Kahn.{named_loop};
ghost use Rattle.order.specs.Plan.{plan_in};
ghost use Rattle.order.specs.Ids.{id_of, parent_of};
ghost use Rattle.order.specs.Ties.{kept_links, ignored_links, is_open, open_ends};
ghost use Rattle.order.specs.Checks.{named, judge_order};
ghost use Rattle.order.specs.FineLaws.{ParentsKnown, LinksFine};
ghost use Rattle.ids.specs.Lent.{Lent};
ghost use Rattle.ids.specs.Parented.{Parented};
ghost use Rattle.ids.specs.Summaries.{LoopFrom};
ghost use Rattle.calendars.specs.Calendars.{Lengths};
ghost use Rattle.dates.specs.Standing.{Standing};
ghost use Rattle.checks.specs.Names.{then_zeros};
ghost use Rattle.checks.specs.Column.{LoopIn};
ghost use Rattle.checks.specs.StoredLinks.{StoredLinks};
ghost use Rattle.checks.specs.Stages.{links_verdict, summaries_verdict, Prepared, IdsChecked, Judged, PlanChecked};

use calendars::{PlanCalendar, PlanSheet};
use ids::SummaryError;
use memory::{Tables, fields};
use order::PlanError;
use sheet::Sheet;

mod refusal;

pub use refusal::refuse;

// Of a plan that is fine: how many links are ignored, and how many open ends there are. How many are kept its tables tell.
#[derive(Clone, Copy)]
pub struct PlanCounts {
    pub ignored: usize,
    pub open_ends: u64,
}

// Puts the id of activity `i` at place `k` of the names.
fn name_one(sheet: &Sheet, names: &mut [u32], k: usize, i: usize)
    requires { (i < sheet.now.contents.activities) × (k < length names.old) }
    ensures { names.new ≡ set names.old k (id_of (plan_in sheet.now) i) }
{
    names[k] = sheet.activity(i).id() as u32;
}

// That `names` is long enough is a clause, here and below: a type of such a slice would hold the sheet's sizes, too.
// Row 12's names: the ids from activity `first` so many steps upward, which lead back to it, then zeros.
fn name_parents(sheet: &Sheet, names: &mut [u32], tables: &Tables, first: usize, steps: usize)
    requires { Lent sheet.now tables.now × ParentsKnown (plan_in sheet.now) × Parented (plan_in sheet.now) (state tables.now) sheet.now.contents.activities × LoopFrom (plan_in sheet.now) first steps × (sheet.now.contents.activities < length names.old) }
    ensures { names.new ≡ then_zeros (named (id_of (plan_in sheet.now)) (upward (parent_of (plan_in sheet.now)) steps first)) names.old }
{
    names.fill(0);
    name_one(sheet, names, 0, first);
    // No iterator over the activities above: these are a loop, and an iterator is seen as a list, which ends.
    // On a loop each has a parent.
    let mut i = first;
    for k in 0..steps {
        i = tables.row(i, fields::PARENT).unwrap();
        name_one(sheet, names, k + 1, i);
    }
}

// Row 15's names: the ids of the `m` activities that stand in the memory, the first again, then zeros.
fn name_links(sheet: &Sheet, names: &mut [u32], tables: &Tables, m: usize)
    requires { Lent sheet.now tables.now × LoopIn sheet.now.contents.activities m (named_loop (kept_links (plan_in sheet.now)) sheet.now.contents.activities) (state tables.now) × (m ≤ sheet.now.contents.activities) × (sheet.now.contents.activities < length names.old) }
    ensures { names.new ≡ then_zeros (named (id_of (plan_in sheet.now)) (named_loop (kept_links (plan_in sheet.now)) sheet.now.contents.activities)) names.old }
{
    names.fill(0);
    for k in 0..m {
        let i = tables.act(k, fields::SEEN) as usize;
        name_one(sheet, names, k, i);
    }
    let i = tables.act(0, fields::SEEN) as usize;
    name_one(sheet, names, m, i);
}

// Whether activity `i` is an open end.
fn is_open(sheet: &Sheet, tables: &Tables, i: usize) -> bool
    requires { Lent sheet.now tables.now × Standing (plan_in sheet.now) tables.now.kept (state tables.now) × (i < sheet.now.contents.activities) }
    ensures { result ≡ is_open (plan_in sheet.now) i }
{
    !tables.is_summary(i)
        && (tables.act(i, fields::FIRST_IN) == tables.kept as u64
            || tables.act(i, fields::FIRST_OUT) == tables.kept as u64)
}

// How many open ends there are.
fn open_ends(sheet: &Sheet, tables: &Tables) -> u64
    requires { Lent sheet.now tables.now × Standing (plan_in sheet.now) tables.now.kept (state tables.now) }
    ensures { (result ≡ open_ends (plan_in sheet.now)) × (result ≤ sheet.now.contents.activities) }
{
    (0..sheet.contents.activities)
        .filter(|i| is_open(sheet, tables, *i))
        .count() as u64
}

// Row 15: the order by the kept links, which are stored; then the plan is ready and the rest of the memory cleared, or the loop is named. The names hold the
// ignored links.
fn check_order(
    sheet: &Sheet,
    names: &mut [u32],
    tables: &mut Tables,
    ignored: usize,
) -> Result<PlanCounts, PlanError>
    requires { Lent sheet.now tables.old × StoredLinks (plan_in sheet.now) tables.old.kept (state tables.old) × LinksFine (plan_in sheet.now) × (ignored ≡ length (ignored_links (plan_in sheet.now))) × (names.old ≡ then_zeros (ignored_links (plan_in sheet.now)) names.old) × (sheet.now.contents.activities < length names.old) }
    ensures { Judged (plan_in sheet.now) (judge_order (plan_in sheet.now)) (length names.old) (length tables.old.cells.now) names.new tables.new result × SameLent tables.old tables.new }
{
    if topology::order_activities(tables) == sheet.contents.activities {
        rest::clear_rest(tables);
        return Ok(PlanCounts {
            ignored,
            open_ends: open_ends(sheet, tables),
        });
    }
    let m = topology::name_loop(tables);
    name_links(sheet, names, tables, m);
    tables.clear();
    Err(PlanError::LinkLoop(names[0] as u64))
}

// Rows 5 to 10: calendars, ids and parents.
fn check_ids(plan: &PlanSheet, tables: &mut Tables) -> Result<(), PlanError>
    requires { Lent plan.now.sheet tables.old }
    ensures { IdsChecked (plan_in plan.now.sheet) result (state tables.new) × SameSlice tables.old tables.new }
{
    if !plan.have_hours() {
        return Err(PlanError::NoHours);
    }
    ids::index_all(&plan.sheet, tables)?;
    ids::parents(&plan.sheet, tables)
}

// Rows 13, 14 and 8 of the links, then 15.
fn check_links(
    sheet: &Sheet,
    calendars: &[PlanCalendar],
    names: &mut [u32],
    tables: &mut Tables,
) -> Result<PlanCounts, PlanError>
    requires { Lent sheet.now tables.old × Prepared (plan_in sheet.now) (state tables.old) × Lengths (plan_in sheet.now) calendars.now × (sheet.now.contents.activities < length names.old) × (sheet.now.contents.links ≤ length names.old) }
    ensures { Judged (plan_in sheet.now) (links_verdict (plan_in sheet.now)) (length names.old) (length tables.old.cells.now) names.new tables.new result × SameLent tables.old tables.new }
{
    names.fill(0);
    match links::link_all(sheet, calendars, names, tables) {
        Ok(ignored) => check_order(sheet, names, tables, ignored),
        Err(error) => refuse(names, tables, error),
    }
}

// Rows 11 and 12, then those of the links.
fn check_summaries(
    sheet: &Sheet,
    calendars: &[PlanCalendar],
    names: &mut [u32],
    tables: &mut Tables,
) -> Result<PlanCounts, PlanError>
    requires { Lent sheet.now tables.old × Prepared (plan_in sheet.now) (state tables.old) × Lengths (plan_in sheet.now) calendars.now × (sheet.now.contents.activities < length names.old) × (sheet.now.contents.links ≤ length names.old) }
    ensures { Judged (plan_in sheet.now) (summaries_verdict (plan_in sheet.now)) (length names.old) (length tables.old.cells.now) names.new tables.new result × SameLent tables.old tables.new }
{
    match ids::summaries(sheet, tables) {
        Ok(()) => check_links(sheet, calendars, names, tables),
        Err(SummaryError::Milestone(id)) => refuse(names, tables, PlanError::MilestoneParent(id)),
        Err(SummaryError::Loop { first, steps }) => {
            name_parents(sheet, names, tables, first, steps);
            tables.clear();
            Err(PlanError::ParentLoop(names[0] as u64))
        }
    }
}

// Rows 5 to 15: where none refuses, the memory is ready for the passes and 0 elsewhere, and the names hold the ignored links' positions; else
// the names hold the loop's ids, if there is one, and the memory is cleared.
pub fn check_plan(
    plan: &PlanSheet,
    names: &mut [u32],
    tables: &mut Tables,
) -> Result<PlanCounts, PlanError>
    requires { Lent plan.now.sheet tables.old × Lengths (plan_in plan.now.sheet) plan.now.calendars.now × (max (plan.now.sheet.contents.activities + 1) plan.now.sheet.contents.links ≤ length names.old) }
    ensures { PlanChecked plan.now names.old tables.old names.new tables.new result × SameLent tables.old tables.new }
{
    match check_ids(plan, tables) {
        Ok(()) => check_summaries(&plan.sheet, plan.calendars, names, tables),
        Err(error) => refuse(names, tables, error),
    }
}
