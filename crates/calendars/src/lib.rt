// The plan's calendars: a table of their weeks, where their E records stand and their day lengths, made once a call; and each as the clock takes it.
#![tactic(auto)]

ghost use Rattle.std.specs.Prelude.{◌≡◌, ◌+◌, ◌≤◌, pos, ◌*ℤ◌};
ghost use Rattle.calendar.specs.Records.{round_the_clock};
ghost use Rattle.order.specs.Plan.{plan_in};
ghost use Rattle.calendars.specs.Calendars.{Located, Places, Lengths};

use project::CalendarRecord;
use sheet::Sheet;

mod plan_calendar;
mod plan_sheet;

pub use plan_calendar::PlanCalendar;
pub use plan_sheet::PlanSheet;

// The table has a row for each calendar that a sheet may have, and one for the round-the-clock calendar.
const ROWS: usize = 16;

// The round-the-clock calendar: no E records, a day of 1440 minutes.
fn round_the_clock() -> PlanCalendar
    ensures { (result.week ≡ round_the_clock) × (result.at ≡ 0) × (result.n ≡ 0) × (result.day_length ≡ 1440) }
{
    PlanCalendar {
        week: calendar::round_the_clock(),
        at: 0,
        n: 0,
        day_length: 1440,
    }
}

// The table: the calendars of the sheet in their order, and then the round-the-clock one.
pub fn locate(sheet: &Sheet) -> [PlanCalendar; ROWS]
    ensures { Places sheet.now.bytes.now sheet.now.contents result × Lengths (plan_in sheet.now) result × Located sheet.now.bytes.now sheet.now.contents (sheet.now.contents.calendars + 1) result }
{
    let mut calendars = [round_the_clock(); ROWS];
    let mut at: usize = 21;
    // By number, and not over `&mut calendars[..n]`: no plainer, since the contract speaks of the whole table and of calendar `k` of the sheet.
    for k in 0..sheet.contents.calendars {
        let place = sheet::calendar(sheet.bytes, at);
        calendars[k] = PlanCalendar {
            week: calendar::read_week(sheet.bytes, at + 3, place.weeks),
            at: place.at,
            n: place.exceptions,
            day_length: CalendarRecord::new(sheet.bytes, at).day_length(),
        };
        at = place.next;
    }
    calendars
}

// So many days of `day_length` minutes.
// `day_length ≤ 1440` is a clause: a type with the bound would put its number between each contract and its definition.
pub fn days_in_minutes(days: i32, day_length: u64) -> i64
    requires { day_length ≤ 1440 }
    ensures { result ≡ days *ℤ pos day_length }
{
    i64::from(days) * day_length as i64
}
