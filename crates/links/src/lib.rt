// The links of a plan: each is judged, the kept ones stand in the lent memory, and the ignored ones are named.
#![tactic(auto)]

ghost use Rattle.std.specs.Prelude.{◌≡◌, false, ◌+◌, ◌≤◌, ◌<◌, length};
ghost use Rattle.memory.specs.Seen.{state, SameLent};
ghost use Rattle.order.specs.Plan.{plan_in};
ghost use Rattle.order.specs.FineLaws.{ActivitiesFine};
ghost use Rattle.order.specs.Ties.{tie_calendar, tie_too_long, tie_of};
ghost use Rattle.ids.specs.Lent.{Lent};
ghost use Rattle.ties.specs.Ends.{Between};
ghost use Rattle.calendars.specs.Calendars.{Lengths};
ghost use Rattle.links.specs.Stored.{Stored};
ghost use Rattle.ties.specs.Judging.{Judging};
ghost use Rattle.links.specs.Answers.{LinkedOne, LinkedAll, ActsKept};

use calendars::PlanCalendar;
use memory::{KeptLink, Tables};
use network::Link;
use order::PlanError;
use sheet::Sheet;

// The lag of link `k` in minutes, where it is not too long; `calendar` is the lag's.
fn tie_lag(sheet: &Sheet, calendars: &[PlanCalendar], k: usize, ends: Link, calendar: u64) -> i64
    requires { (k < sheet.now.contents.links) × ActivitiesFine (plan_in sheet.now) × Lengths (plan_in sheet.now) calendars.now × Between (plan_in sheet.now) k ends.from ends.to × (tie_too_long (plan_in sheet.now) k ≡ false) × (calendar ≡ tie_calendar (plan_in sheet.now) k) × (calendar ≤ sheet.now.contents.calendars) }
    ensures { result ≡ (tie_of (plan_in sheet.now) k).lag }
{
    ties::lag_of(sheet, calendars, k, ends, calendar).minutes()
}

// Puts link `k` into the table of the kept links.
fn store_tie(sheet: &Sheet, calendars: &[PlanCalendar], tables: &mut Tables, k: usize, ends: Link)
    requires { Lent sheet.now tables.old × (k < sheet.now.contents.links) × ActivitiesFine (plan_in sheet.now) × Lengths (plan_in sheet.now) calendars.now × Between (plan_in sheet.now) k ends.from ends.to × (tie_too_long (plan_in sheet.now) k ≡ false) × (tables.old.kept < tables.old.links) }
    ensures { Stored (plan_in sheet.now) k tables.old.kept (state tables.old) (state tables.new) × (tables.new.kept ≡ tables.old.kept + 1) × SameLent tables.old tables.new }
{
    let calendar = ties::tie_calendar(sheet, k, ends);
    let lag = tie_lag(sheet, calendars, k, ends, calendar);
    tables.add_link(KeptLink {
        from: ends.from,
        to: ends.to,
        kind: sheet.link(k).kind_code(),
        lag,
        calendar,
    });
}

// Judges link `k`, where so many are ignored before it: a kept link is stored, an ignored one is named. Answers how many are ignored then.
// `names` is the caller's slice, which C lends: how many it holds is what the call answers.
fn link_one(
    sheet: &Sheet,
    calendars: &[PlanCalendar],
    names: &mut [u32],
    tables: &mut Tables,
    k: usize,
    ignored: usize,
) -> Result<usize, PlanError>
    requires { Judging sheet.now calendars.now tables.old × (k < sheet.now.contents.links) × (tables.old.kept < tables.old.links) × (ignored < length names.old) }
    ensures { LinkedOne (plan_in sheet.now) k ignored tables.old tables.new names.old names.new result × SameLent tables.old tables.new × (length names.new ≡ length names.old) }
{
    let Some(ends) = ties::link_check(sheet, tables, calendars, k)? else {
        names[ignored] = k as u32;
        return Ok(ignored + 1);
    };
    store_tie(sheet, calendars, tables, k, ends);
    Ok(ignored)
}

// Judges all links: where none is refused, the kept ones are those of the tables, and names begins with the ignored ones' positions. Answers how many are ignored.
pub fn link_all(
    sheet: &Sheet,
    calendars: &[PlanCalendar],
    names: &mut [u32],
    tables: &mut Tables,
) -> Result<usize, PlanError>
    requires { Judging sheet.now calendars.now tables.old × (sheet.now.contents.links ≤ length names.old) }
    ensures { LinkedAll (plan_in sheet.now) tables.new names.old names.new result × ActsKept (state tables.old) (state tables.new) × SameLent tables.old tables.new × (length names.new ≡ length names.old) }
{
    tables.keep(0);
    let mut ignored = 0;
    for k in 0..sheet.contents.links {
        ignored = link_one(sheet, calendars, names, tables, k, ignored)?;
    }
    Ok(ignored)
}
