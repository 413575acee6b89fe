// The rows of results: 01's fifteen fields of each activity, written into the lent slice, and the finish day.
#![tactic(auto)]

ghost use Rattle.std.specs.Prelude.{◌≡◌, Bool, ◌++◌, ℕ, ◌+◌, ◌*◌, ◌^◌, ◌≤◌, ◌<◌, length, drop, Ok};
ghost use Rattle.memory.specs.Seen.{state};
ghost use Rattle.order.specs.Plan.{plan_in};
ghost use Rattle.passes.specs.Run.{Ran};
ghost use Rattle.results.specs.Results.{finish_day};
ghost use Rattle.results.specs.Rows.{signed_day_of, rows_below};
ghost use Rattle.results.specs.View.{ran_in, shown_in};
ghost use Rattle.rows.specs.Writing.{ToWrite, stored_from, minute_if, row_fields, row_in};

use calendars::PlanCalendar;
use memory::reads::Reads;
use placing::Actual;
use results::ShownRow;
use sheet::Sheet;

// ---- fields
// A minute as 01 counts it, 0 for a summary.
fn minute_of(is_summary: bool, t: u64) -> i64
    requires { t < 2 ^ 63 }
    ensures { result ≡ minute_if is_summary t }
{
    if is_summary {
        return 0;
    }
    date::signed_minute(t)
}

// ---- rows
// A row by its values, `left`, `es` and `ef` among them as the passes leave them: of the seven values of `results::times_at` it shows these three.
// The bounds of numbers are clauses: types with them would put their numbers between the contract and its definition.
fn row_of(
    id: u64,
    day_length: u64,
    x: &ShownRow,
    is_summary: bool,
    actual: Actual,
    left: u64,
    es: u64,
    ef: u64,
) -> [i64; 15]
    requires { (id < 2 ^ 63) × (day_length ≤ 1440) × (left < 2 ^ 63) × (es < 2 ^ 63) × (ef < 2 ^ 63) }
    ensures { result ≡ row_fields id day_length x.now.shown is_summary (Ok actual) left es ef }
{
    let days = x.shown.days;
    let total = x.shown.total;
    let free = x.shown.free as i64;
    [
        id as i64,
        date::unbiased(days.es),
        date::unbiased(days.ef),
        date::unbiased(days.ls),
        date::unbiased(days.lf),
        number::sign::whole_days(total, day_length),
        number::sign::whole_days(free, day_length),
        total,
        free,
        i64::from(x.shown.critical),
        i64::from(x.shown.path),
        actual.status() as i64,
        left as i64,
        minute_of(is_summary, es),
        minute_of(is_summary, ef),
    ]
}

// Writes the row of activity `i`.
fn write_row<R: Reads>(
    sheet: &Sheet,
    calendars: &[PlanCalendar],
    tables: &R,
    results: &mut [i64],
    i: usize,
)
    requires { ToWrite sheet.now calendars.now (R.tables tables.now) × (i < sheet.now.contents.activities) × (15 * i + 15 ≤ length results.old) }
    ensures { results.new ≡ stored_from results.old (15 * i) 0 (row_in (plan_in sheet.now) (state (R.tables tables.now)) i) }
{
    let activity = dates::activity_of(sheet, i);
    let k = activity.calendar as usize;
    let id = activity.id as u64;
    let x = results::shown_at(tables, i);
    let actual = dates::recorded_at(tables, i);
    let is_summary = tables.is_summary(i);
    let left = tables.act(i, memory::fields::WORK_LEFT);
    let es = tables.act(i, memory::fields::EARLY_START);
    let ef = tables.act(i, memory::fields::EARLY_FINISH);
    let day_length = calendars[k].day_length;
    let row = row_of(id, day_length, &x, is_summary, actual, left, es, ef);
    results[15 * i..15 * i + 15].copy_from_slice(&row);
}

// Writes the rows of all activities at the front of the results, each at its own place.
// Not over std's chunks: the contracts of `chunks_exact_mut` and `as_chunks_mut` say nothing of what the slice holds after the loop, so the equation for `results.new` could not be had.
pub fn write_rows<R: Reads>(
    sheet: &Sheet,
    calendars: &[PlanCalendar],
    tables: &R,
    results: &mut [i64],
)
    requires { ToWrite sheet.now calendars.now (R.tables tables.now) × (15 * sheet.now.contents.activities ≤ length results.old) }
    ensures { (e : ℕ) (other : ℕ → Bool) → results.new ≡ rows_below (plan_in sheet.now) (ran_in (plan_in sheet.now) (state (R.tables tables.now)) e other) (shown_in (plan_in sheet.now) (state (R.tables tables.now))) sheet.now.contents.activities ++ drop (15 * sheet.now.contents.activities) results.old }
{
    for i in 0..sheet.contents.activities {
        write_row(sheet, calendars, tables, results, i);
    }
}

// The finish day: the greatest early finish day that is shown, and not before the start.
pub fn finish_day<R: Reads>(sheet: &Sheet, tables: &R) -> i64
    requires { (R.tables tables.now).activities ≡ sheet.now.contents.activities }
    ensures { (q : Ran) → result ≡ signed_day_of (finish_day (plan_in sheet.now) q (shown_in (plan_in sheet.now) (state (R.tables tables.now))) sheet.now.contents.activities) }
{
    let mut d = dates::origin_of(sheet) / 1440;
    for i in 0..sheet.contents.activities {
        d = d.max(tables.act(i, memory::fields::SHOWN_FINISH));
    }
    date::unbiased(d)
}
