// Links: rows 13, 14 and 8 of 01's table, kept and ignored links, and lags in minutes.
#![tactic(auto)]

ghost use Rattle.std.specs.Prelude.{◌≡◌, ◌||◌, ◌≤◌, ◌<◌, ltb};
ghost use Rattle.memory.specs.Seen.{state};
ghost use Rattle.memory.specs.Fields.{is_summary};
ghost use Rattle.order.specs.Plan.{plan_in};
ghost use Rattle.order.specs.IdLaws.{DistinctIds};
ghost use Rattle.order.specs.FineLaws.{ActivitiesFine};
ghost use Rattle.order.specs.Ties.{tie_calendar, tie_too_long};
ghost use Rattle.ids.specs.Index.{Indexed};
ghost use Rattle.ids.specs.Lent.{Lent};
ghost use Rattle.ties.specs.Ends.{Between, EndsOf};
ghost use Rattle.calendars.specs.Calendars.{Lengths};
ghost use Rattle.ties.specs.Checked.{LinkAnswered};
ghost use Rattle.ties.specs.Judging.{Judging};

use calendars::PlanCalendar;
use lags::Lag;
use memory::reads::Reads;
use network::Link;
use order::PlanError;
use sheet::Sheet;

pub mod lags;

// Rows 13 and 14 for link `k`: its ends by the activities' numbers.
pub fn link_ends<R: Reads>(sheet: &Sheet, tables: &R, k: usize) -> Result<Link, PlanError>
    requires { Lent sheet.now (R.tables tables.now) × (k < sheet.now.contents.links) × DistinctIds (plan_in sheet.now) × Indexed (plan_in sheet.now) (state (R.tables tables.now)) sheet.now.contents.activities }
    ensures { EndsOf (plan_in sheet.now) k result }
{
    let a = sheet.contents.activities;
    let link = sheet.link(k);
    let pred = link.predecessor();
    let Some(from) = ids::find(sheet, tables, a, pred) else {
        return Err(PlanError::UnknownActivity(pred));
    };
    let succ = link.successor();
    let Some(to) = ids::find(sheet, tables, a, succ) else {
        return Err(PlanError::UnknownActivity(succ));
    };
    if pred == succ {
        return Err(PlanError::SelfLink(pred));
    }
    Ok(Link { from, to })
}

// Whether one of two activities is marked as a summary.
pub fn is_either_marked<R: Reads>(tables: &R, ends: Link) -> bool
    requires { (ends.from < (R.tables tables.now).activities) × (ends.to < (R.tables tables.now).activities) }
    ensures { result ≡ (ltb 0 ((state (R.tables tables.now)).act is_summary ends.from) || ltb 0 ((state (R.tables tables.now)).act is_summary ends.to)) }
{
    tables.is_summary(ends.from) || tables.is_summary(ends.to)
}

// The calendar that the lag of link `k` counts on.
pub fn tie_calendar(sheet: &Sheet, k: usize, ends: Link) -> u64
    requires { (k < sheet.now.contents.links) × ActivitiesFine (plan_in sheet.now) × Between (plan_in sheet.now) k ends.from ends.to }
    ensures { (result ≡ tie_calendar (plan_in sheet.now) k) × (result ≤ sheet.now.contents.calendars) }
{
    let by = sheet.lag_calendar();
    let pred = sheet.activity(ends.from).calendar();
    let succ = sheet.activity(ends.to).calendar();
    let lag = sheet.link(k).lag();
    lags::lag_calendar(lag, by, pred, succ, sheet.contents.calendars as u64)
}

// The lag of link `k`; `calendar` is the lag's, and `calendars` has the day length of each calendar, and of the round-the-clock one.
// `sheet` and `calendars` go one by one, here and in `links`, `checks` and `rows`: a `PlanSheet` of both says more of the table (`Places`), and would ask it.
pub fn lag_of(sheet: &Sheet, calendars: &[PlanCalendar], k: usize, ends: Link, calendar: u64) -> Lag
    requires { (k < sheet.now.contents.links) × ActivitiesFine (plan_in sheet.now) × Between (plan_in sheet.now) k ends.from ends.to × Lengths (plan_in sheet.now) calendars.now × (calendar ≤ sheet.now.contents.calendars) }
    ensures { (result.lag ≡ ((plan_in sheet.now).link k).lag) × (result.day_length ≡ (plan_in sheet.now).day_length calendar) × (result.duration ≡ ((plan_in sheet.now).activity ends.from).minutes) }
{
    Lag {
        lag: sheet.link(k).lag(),
        day_length: calendars[calendar as usize].day_length,
        duration: sheet.activity(ends.from).minutes() as i64,
    }
}

// Row 8 for the lag of link `k`.
pub fn is_tie_too_long(sheet: &Sheet, calendars: &[PlanCalendar], k: usize, ends: Link) -> bool
    requires { (k < sheet.now.contents.links) × ActivitiesFine (plan_in sheet.now) × Between (plan_in sheet.now) k ends.from ends.to × Lengths (plan_in sheet.now) calendars.now }
    ensures { result ≡ tie_too_long (plan_in sheet.now) k }
{
    let calendar = tie_calendar(sheet, k, ends);
    lag_of(sheet, calendars, k, ends, calendar).is_too_long()
}

// Rows 13, 14 and 8 for link `k`: where it is fine, its ends if it is kept, and none if it is ignored.
pub fn link_check<R: Reads>(
    sheet: &Sheet,
    tables: &R,
    calendars: &[PlanCalendar],
    k: usize,
) -> Result<Option<Link>, PlanError>
    requires { Judging sheet.now calendars.now (R.tables tables.now) × (k < sheet.now.contents.links) }
    ensures { LinkAnswered (plan_in sheet.now) k result }
{
    let ends = link_ends(sheet, tables, k)?;
    if is_either_marked(tables, ends) {
        return Ok(None);
    }
    if is_tie_too_long(sheet, calendars, k, ends) {
        return Err(PlanError::TooLong);
    }
    Ok(Some(ends))
}
