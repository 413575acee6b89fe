// The scheduling call: a plan sheet in; dates, floats and flags out; all memory lent; every byte string answered.
#![tactic(auto)]

ghost use Rattle.std.specs.Prelude.{◌≡◌, Bool, ◌&&◌, Result, Ok, List, ℕ, ◌+◌, ◌*◌, ◌^◌, ◌≤◌, ◌<◌, max, leb, length};
ghost use Rattle.memory.specs.State.{Room};
ghost use Rattle.memory.specs.Seen.{state, SameSlice};
ghost use Rattle.order.specs.Plan.{plan_in};
ghost use Rattle.calendars.specs.Calendars.{Lengths};
ghost use Rattle.dates.specs.Standing.{Ready, Recorded};
ghost use Rattle.run.specs.Stages.{RanTo};
ghost use Rattle.results.specs.View.{ran_in, shown_in};
ghost use Rattle.rows.specs.Writing.{ToWrite};
ghost use Rattle.checks.specs.Stages.{Counted};
ghost use Rattle.sched.specs.declared.Refusal.TheVariants.{Sheet, Plan, Clock};
ghost use Rattle.sched.specs.Answers.{refusal_number, refusal_id};
ghost use Rattle.sched.specs.Outcome.{Lent, planned, outcome};
ghost use Rattle.sched.specs.CallLaws.{ended_with, zeros, LentAs, AcceptedAs};

use calendars::{PlanCalendar, PlanSheet};
use checks::PlanCounts;
use judges::SheetError;
use memory::Tables;
use order::PlanError;
use sheet::{Contents, Sheet};
use worktime::ClockError;

pub mod c;

// What an accepted plan answers: its finish day, and how many activities, ignored links and open ends it has.
#[derive(Clone, Copy)]
pub struct Accepted {
    pub finish_day: i64,
    pub activities: u64,
    pub ignored: u64,
    pub open_ends: u64,
}

// Why a call is refused.
#[derive(Clone, Copy, Debug, PartialEq, Eq)]
pub enum Refusal {
    // A lent slice is too short.
    NoRoom,
    // The sheet cannot be read.
    Sheet(SheetError),
    // A check of the plan fails.
    Plan(PlanError),
    // A walk of the passes or of the results leads too far.
    Clock(ClockError),
}

impl Refusal {
    // Its row in 01's table.
    pub fn number(self) -> u64
        ensures { (result ≡ refusal_number self) × (result ≤ 15) }
    {
        match self {
            Refusal::NoRoom => 1,
            Refusal::Sheet(e) => e.number(),
            Refusal::Plan(e) => e.number(),
            Refusal::Clock(e) => e.number(),
        }
    }

    // The id that the row hands back: 0 where it has none, as 01's answer and C hold it.
    pub fn id(self) -> u64
        ensures { (result ≡ refusal_id self) × (result < 2 ^ 64) }
    {
        match self {
            Refusal::NoRoom | Refusal::Sheet(_) | Refusal::Clock(_) => 0,
            Refusal::Plan(e) => e.id(),
        }
    }
}

// `?` knows by `from_gives` which refusal an error becomes, here and below; a derive writes no such fact.
impl From<SheetError> for Refusal {
    ghost from_gives = { λ error r. r ≡ Sheet error };

    fn from(error: SheetError) -> Refusal {
        Refusal::Sheet(error)
    }
}

impl From<PlanError> for Refusal {
    ghost from_gives = { λ error r. r ≡ Plan error };

    fn from(error: PlanError) -> Refusal {
        Refusal::Plan(error)
    }
}

impl From<ClockError> for Refusal {
    ghost from_gives = { λ error r. r ≡ Clock error };

    fn from(error: ClockError) -> Refusal {
        Refusal::Clock(error)
    }
}

// Row 1: whether slices of these lengths are long enough.
fn has_room(contents: Contents, results: usize, names: usize, work: usize) -> bool
    requires { (contents.activities ≤ 4096) × (contents.links ≤ 16384) }
    ensures { result ≡ (leb (15 * contents.activities) results && leb (max (contents.activities + 1) contents.links) names && leb (64 * contents.activities + 16 * contents.links) work) }
{
    let a = contents.activities;
    let l = contents.links;
    results >= 15 * a && names >= (a + 1).max(l) && work >= 64 * a + 16 * l
}

// Nothing can refuse any more: the rows are written and the memory is cleared.
fn accept(
    sheet: &Sheet,
    calendars: &[PlanCalendar],
    results: &mut [i64],
    tables: &mut Tables,
    counts: PlanCounts,
) -> Accepted
    requires { ToWrite sheet.now calendars.now tables.old × (15 * sheet.now.contents.activities ≤ length results.old) }
    ensures { ((e : ℕ) (other : ℕ → Bool) → AcceptedAs (plan_in sheet.now) (ran_in (plan_in sheet.now) (state tables.old) e other) (shown_in (plan_in sheet.now) (state tables.old)) counts results.old results.new result) × (tables.new.cells.now ≡ zeros tables.old.cells.now) × SameSlice tables.old tables.new }
{
    let day = rows::finish_day(sheet, tables);
    rows::write_rows(sheet, calendars, tables, results);
    tables.clear();
    Accepted {
        finish_day: day,
        activities: sheet.contents.activities as u64,
        ignored: counts.ignored as u64,
        open_ends: counts.open_ends,
    }
}

// The results of a plan that ran; `last` is its end, of which the contract speaks and no code.
// `results`, `names` and the memory go one by one, here and below, and what the first two must hold is a clause: a struct of the three would be taken apart at each use, since a check takes the last two and a row of results the first and the memory.
fn show_plan(
    plan: &PlanSheet,
    last: u64,
    counts: PlanCounts,
    results: &mut [i64],
    names: &mut [u32],
    tables: &mut Tables,
) -> Result<Accepted, Refusal>
    requires { Ready plan.now tables.old × Recorded (plan_in plan.now.sheet) (state tables.old) × Lengths (plan_in plan.now.sheet) plan.now.calendars.now × (15 * plan.now.sheet.contents.activities ≤ length results.old) × Counted (plan_in plan.now.sheet) counts × RanTo (plan_in plan.now.sheet) (state tables.old) last }
    ensures { ((m : Lent) → LentAs m (plan_in plan.now.sheet) results.old names.old tables.old.cells.now → ended_with result results.new names.new tables.new.cells.now ≡ planned m (plan_in plan.now.sheet)) × SameSlice tables.old tables.new }
{
    // No `?`: names and memory are cleared before the refusal goes on.
    match rollup::results(plan, tables) {
        Ok(()) => Ok(accept(&plan.sheet, plan.calendars, results, tables, counts)),
        Err(e) => checks::refuse(names, tables, Refusal::from(e)),
    }
}

// The passes and the results of a plan that the checks accept; the names hold its ignored links.
fn run_plan(
    plan: &PlanSheet,
    counts: PlanCounts,
    results: &mut [i64],
    names: &mut [u32],
    tables: &mut Tables,
) -> Result<Accepted, Refusal>
    requires { Ready plan.now tables.old × Lengths (plan_in plan.now.sheet) plan.now.calendars.now × (15 * plan.now.sheet.contents.activities ≤ length results.old) × Counted (plan_in plan.now.sheet) counts }
    ensures { ((m : Lent) → LentAs m (plan_in plan.now.sheet) results.old names.old tables.old.cells.now → ended_with result results.new names.new tables.new.cells.now ≡ planned m (plan_in plan.now.sheet)) × SameSlice tables.old tables.new }
{
    // No `?`: names and memory are cleared before the refusal goes on.
    match run::run(plan, tables) {
        Ok(last) => show_plan(plan, last, counts, results, names, tables),
        Err(error) => checks::refuse(names, tables, Refusal::from(error)),
    }
}

// The checks, and then the rest, of a plan that was read and has room.
fn plan_at(
    plan: &PlanSheet,
    results: &mut [i64],
    names: &mut [u32],
    work: &mut [i64],
) -> Result<Accepted, Refusal>
    requires { Lengths (plan_in plan.now.sheet) plan.now.calendars.now × (15 * plan.now.sheet.contents.activities ≤ length results.old) × (max (plan.now.sheet.contents.activities + 1) plan.now.sheet.contents.links ≤ length names.old) × Room plan.now.sheet.contents.activities plan.now.sheet.contents.links work.old }
    ensures { ended_with result results.new names.new work.new ≡ planned (record { results = results.old; names = names.old; work = work.old }) (plan_in plan.now.sheet) }
{
    let mut tables = Tables::of(
        work,
        plan.sheet.contents.activities,
        plan.sheet.contents.links,
    );
    let counts = checks::check_plan(plan, names, &mut tables)?;
    run_plan(plan, counts, results, names, &mut tables)
}

// A plan that was read and has room: where its calendars stand is found first.
fn plan_sheet(
    sheet: &Sheet,
    results: &mut [i64],
    names: &mut [u32],
    work: &mut [i64],
) -> Result<Accepted, Refusal>
    requires { (15 * sheet.now.contents.activities ≤ length results.old) × (max (sheet.now.contents.activities + 1) sheet.now.contents.links ≤ length names.old) × Room sheet.now.contents.activities sheet.now.contents.links work.old }
    ensures { ended_with result results.new names.new work.new ≡ planned (record { results = results.old; names = names.old; work = work.old }) (plan_in sheet.now) }
{
    let calendars = calendars::locate(sheet);
    let plan = PlanSheet::new(*sheet, &calendars);
    plan_at(&plan, results, names, work)
}

// The scheduling call.
pub fn schedule(
    sheet: &[u8],
    results: &mut [i64],
    names: &mut [u32],
    work: &mut [i64],
) -> Result<Accepted, Refusal>
    ensures { ended_with result results.new names.new work.new ≡ outcome sheet.now (record { results = results.old; names = names.old; work = work.old }) }
{
    let contents = sheet::read(sheet)?;
    if !has_room(contents, results.len(), names.len(), work.len()) {
        return Err(Refusal::NoRoom);
    }
    plan_sheet(&Sheet::new(sheet, contents), results, names, work)
}
