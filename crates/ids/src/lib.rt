// Activities by their ids, through an index in the lent memory, and rows 6 to 12 of 01's table.
#![tactic(auto)]

ghost use Rattle.std.specs.Prelude.{◌≡◌, ◌&&◌, ℕ, ◌+◌, ◌≤◌, ◌<◌, unwrap_or, IfSome, IfOk};
ghost use Rattle.order.specs.Plan.{plan_in};
ghost use Rattle.order.specs.IdLaws.{DistinctIds};
ghost use Rattle.order.specs.Checks.{first_of, judge_activity, judge_parent, judge_summary};
ghost use Rattle.order.specs.FineLaws.{ParentsKnown};
ghost use Rattle.order.specs.Ids.{id_of, summary};
ghost use Rattle.network.specs.Parents.{loop_steps};
ghost use Rattle.project.specs.Status.{is_milestone};
ghost use Rattle.memory.specs.Seen.{state, SameSlice};
ghost use Rattle.memory.specs.Fields.{parent};
ghost use Rattle.ids.specs.Index.{PlaceFor, Indexed, found_in};
ghost use Rattle.ids.specs.Searched.{Searched};
ghost use Rattle.ids.specs.Lent.{Lent};
ghost use Rattle.ids.specs.Answers.{Answered, IndexedBy, ParentedBy};
ghost use Rattle.ids.specs.Parented.{Parented};
ghost use Rattle.ids.specs.Summaries.{SummaryAnswered};

use memory::Tables;
use memory::reads::Reads;
use order::PlanError;
use sheet::Sheet;

// Why rows 11 and 12 refuse: the id of a milestone that is a parent, or the first activity of a loop of parents and its steps.
#[derive(Clone, Copy, Debug, PartialEq, Eq)]
pub enum SummaryError {
    Milestone(u64),
    Loop { first: usize, steps: usize },
}

// Where an activity comes in: as a child, at its parent's row, or as the root of a tree, at the tree's row; and the field of that row.
#[derive(Clone, Copy)]
struct Vacancy {
    parent: usize,
    side: usize,
}

// The one of the first `n` activities that has the id, or where one that has it comes in.
// The way down takes a bit of the id's quotient at each activity that it meets. Ids have 32 bits, and distinct ids of one tree have distinct quotients: no sheet makes it meet more than 33.
fn seek<R: Reads>(sheet: &Sheet, tables: &R, n: usize, id: u64) -> Result<usize, Vacancy>
    requires { Lent sheet.now (R.tables tables.now) × (n ≤ sheet.now.contents.activities) × (0 < sheet.now.contents.activities) × Indexed (plan_in sheet.now) (state (R.tables tables.now)) n }
    ensures { Searched (plan_in sheet.now) (state (R.tables tables.now)) n id result }
{
    let a = sheet.contents.activities;
    let tree = id as usize % a;
    let Some(first) = tables.row(tree, memory::fields::ROOT) else {
        return Err(Vacancy {
            parent: tree,
            side: memory::fields::ROOT,
        });
    };
    let mut j = first;
    let mut rest = id / a as u64;
    // No iterator: the way down ends with the place at which it stood, which an iterator does not give.
    loop {
        if sheet.activity(j).id() == id {
            return Ok(j);
        }
        // `LOW_CHILD` is field 0 and `HIGH_CHILD` field 1: the bit is the field.
        let side = rest as usize % 2;
        let Some(k) = tables.row(j, side) else {
            return Err(Vacancy { parent: j, side });
        };
        j = k;
        rest = rest / 2;
    }
}

// The last of the first `n` activities that has the id.
pub fn find<R: Reads>(sheet: &Sheet, tables: &R, n: usize, id: u64) -> Option<usize>
    requires { Lent sheet.now (R.tables tables.now) × (n ≤ sheet.now.contents.activities) × Indexed (plan_in sheet.now) (state (R.tables tables.now)) n }
    ensures { (unwrap_or result sheet.now.contents.activities ≡ found_in (plan_in sheet.now) n id) × IfSome result (λ j. j < sheet.now.contents.activities) }
{
    if n == 0 {
        return None;
    }
    seek(sheet, tables, n, id).ok()
}

// Rows 6 to 9 for activity `i`, where the index has those before it: where they are fine, where it comes in.
fn judge_activity(sheet: &Sheet, tables: &Tables, i: usize) -> Result<Vacancy, PlanError>
    requires { Lent sheet.now tables.now × (i < sheet.now.contents.activities) × Indexed (plan_in sheet.now) (state tables.now) i }
    ensures { Answered result (judge_activity (plan_in sheet.now) i) × IfOk result (λ v. PlaceFor (plan_in sheet.now) (state tables.now) i (id_of (plan_in sheet.now) i) v.parent v.side) }
{
    let activity = sheet.activity(i);
    let id = activity.id();
    let Err(vacancy) = seek(sheet, tables, i, id) else {
        return Err(PlanError::SameId(id));
    };
    let minutes = activity.minutes();
    if minutes < 0 {
        return Err(PlanError::NegativeMinutes(id));
    }
    if minutes > 48_000_000 {
        return Err(PlanError::TooLong);
    }
    if activity.calendar() >= sheet.contents.calendars as u64 {
        return Err(PlanError::UnknownCalendar(id));
    }
    Ok(vacancy)
}

// Rows 6 to 9 for activity `i`, which comes into the index where it is fine.
fn index_one(sheet: &Sheet, tables: &mut Tables, i: usize) -> Result<(), PlanError>
    requires { Lent sheet.now tables.old × (i < sheet.now.contents.activities) × Indexed (plan_in sheet.now) (state tables.old) i }
    ensures { Answered result (judge_activity (plan_in sheet.now) i) × IndexedBy (plan_in sheet.now) (i + 1) (state tables.old) (state tables.new) result × SameSlice tables.old tables.new }
{
    let vacancy = judge_activity(sheet, tables, i)?;
    tables.put_row(i, memory::fields::LOW_CHILD, None);
    tables.put_row(i, memory::fields::HIGH_CHILD, None);
    tables.put_row(vacancy.parent, vacancy.side, Some(i));
    Ok(())
}

// Rows 6 to 9 for all activities: where they are fine, the memory has the index of their ids.
// This pass, `parents` and `summaries` are a `for` and a `?` each: one function over the step would be as long, and say less.
pub fn index_all(sheet: &Sheet, tables: &mut Tables) -> Result<(), PlanError>
    requires { Lent sheet.now tables.old }
    ensures { Answered result (first_of (judge_activity (plan_in sheet.now)) sheet.now.contents.activities 0) × IndexedBy (plan_in sheet.now) sheet.now.contents.activities (state tables.old) (state tables.new) result × SameSlice tables.old tables.new }
{
    tables.fill_act(memory::fields::ROOT, 0);
    for i in 0..sheet.contents.activities {
        index_one(sheet, tables, i)?;
    }
    Ok(())
}

// Row 10 for activity `i`: its parent is looked for, kept, and marked as a summary.
fn parent_one(sheet: &Sheet, tables: &mut Tables, i: usize) -> Result<(), PlanError>
    requires { Lent sheet.now tables.old × (i < sheet.now.contents.activities) × DistinctIds (plan_in sheet.now) × Indexed (plan_in sheet.now) (state tables.old) sheet.now.contents.activities × Parented (plan_in sheet.now) (state tables.old) i }
    ensures { Answered result (judge_parent (plan_in sheet.now) i) × ParentedBy (plan_in sheet.now) (i + 1) (state tables.old) (state tables.new) result × SameSlice tables.old tables.new }
{
    let a = sheet.contents.activities;
    let id = sheet.activity(i).parent();
    if id == 0 {
        tables.put_row(i, memory::fields::PARENT, None);
        return Ok(());
    }
    let Some(j) = find(sheet, tables, a, id) else {
        return Err(PlanError::UnknownParent(sheet.activity(i).id()));
    };
    tables.put_row(i, memory::fields::PARENT, Some(j));
    tables.put_act(j, memory::fields::IS_SUMMARY, 1);
    Ok(())
}

// Row 10 for all activities: where they are fine, the memory has their parents and marks the summaries.
pub fn parents(sheet: &Sheet, tables: &mut Tables) -> Result<(), PlanError>
    requires { Lent sheet.now tables.old × DistinctIds (plan_in sheet.now) × Indexed (plan_in sheet.now) (state tables.old) sheet.now.contents.activities }
    ensures { Answered result (first_of (judge_parent (plan_in sheet.now)) sheet.now.contents.activities 0) × ParentedBy (plan_in sheet.now) sheet.now.contents.activities (state tables.old) (state tables.new) result × SameSlice tables.old tables.new }
{
    tables.fill_act(memory::fields::IS_SUMMARY, 0);
    for i in 0..sheet.contents.activities {
        parent_one(sheet, tables, i)?;
    }
    Ok(())
}

// How many steps lead upward from activity `i` to itself, where it lies on a loop of parents.
pub fn parent_loop_steps<R: Reads>(tables: &R, i: usize) -> Option<usize>
    requires { (i < (R.tables tables.now).activities) × ((j : ℕ) → j < (R.tables tables.now).activities → (state (R.tables tables.now)).act parent j ≤ (R.tables tables.now).activities) }
    ensures { (unwrap_or result 0 ≡ loop_steps ((state (R.tables tables.now)).act parent) (R.tables tables.now).activities i) × IfSome result (λ k. (0 < k) × (k ≤ (R.tables tables.now).activities)) }
{
    // No iterator over the activities above: they may lead around without end, and an iterator is seen as a list, which ends.
    let mut up = tables.row(i, memory::fields::PARENT);
    for k in 1..tables.activities() + 1 {
        let j = up?;
        if j == i {
            return Some(k);
        }
        up = tables.row(j, memory::fields::PARENT);
    }
    None
}

// Whether activity `i` is a milestone and a parent.
fn is_milestone_parent<R: Reads>(sheet: &Sheet, tables: &R, i: usize) -> bool
    requires { Lent sheet.now (R.tables tables.now) × (i < sheet.now.contents.activities) × Parented (plan_in sheet.now) (state (R.tables tables.now)) sheet.now.contents.activities }
    ensures { result ≡ (summary (plan_in sheet.now) i && is_milestone ((plan_in sheet.now).activity i).kind) }
{
    project::is_milestone(sheet.activity(i).kind()) && tables.is_summary(i)
}

// Rows 11 and 12 for activity `i`.
fn summary_one<R: Reads>(sheet: &Sheet, tables: &R, i: usize) -> Result<(), SummaryError>
    requires { Lent sheet.now (R.tables tables.now) × (i < sheet.now.contents.activities) × ParentsKnown (plan_in sheet.now) × Parented (plan_in sheet.now) (state (R.tables tables.now)) sheet.now.contents.activities }
    ensures { SummaryAnswered (plan_in sheet.now) result (judge_summary (plan_in sheet.now) i) }
{
    if is_milestone_parent(sheet, tables, i) {
        return Err(SummaryError::Milestone(sheet.activity(i).id()));
    }
    match parent_loop_steps(tables, i) {
        Some(steps) => Err(SummaryError::Loop { first: i, steps }),
        None => Ok(()),
    }
}

// Rows 11 and 12 for all activities.
pub fn summaries<R: Reads>(sheet: &Sheet, tables: &R) -> Result<(), SummaryError>
    requires { Lent sheet.now (R.tables tables.now) × ParentsKnown (plan_in sheet.now) × Parented (plan_in sheet.now) (state (R.tables tables.now)) sheet.now.contents.activities }
    ensures { SummaryAnswered (plan_in sheet.now) result (first_of (judge_summary (plan_in sheet.now)) sheet.now.contents.activities 0) }
{
    for i in 0..sheet.contents.activities {
        summary_one(sheet, tables, i)?;
    }
    Ok(())
}
