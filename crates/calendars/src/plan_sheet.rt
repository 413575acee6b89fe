// A sheet that was read, with the table of its calendars.
#![tactic(auto)]

ghost use Rattle.calendars.specs.Calendars.{Places};
ghost use Rattle.calendars.specs.Props.{props};

use super::PlanCalendar;
use calendar::{Calendar, Period};
use sheet::Sheet;

// The week of the round-the-clock calendar, which is lent from here, since a table need not hold it. It is written out: a static calls no function.
static ROUND_THE_CLOCK: [[Period; 8]; 7] = [[
    Period { from: 0, to: 1440 },
    Period { from: 0, to: 0 },
    Period { from: 0, to: 0 },
    Period { from: 0, to: 0 },
    Period { from: 0, to: 0 },
    Period { from: 0, to: 0 },
    Period { from: 0, to: 0 },
    Period { from: 0, to: 0 },
]; 7];

// A sheet that was read, and its calendars in their order.
// That their day lengths are the plan's (`Lengths`) stays a clause: the passes read none, and a field would be asked of them; a second struct with it would be made beside this one for `links`, `ties` and `rows`, from the same two values.
#[derive(Clone, Copy)]
pub struct PlanSheet<'a> {
    pub sheet: Sheet<'a>,
    pub calendars: &'a [PlanCalendar],
    ghost located: { Places sheet.bytes.now sheet.contents calendars.now } by { Prim.hlevel props },
}

impl<'a> PlanSheet<'a> {
    ghost use Rattle.std.specs.Prelude.{◌≡◌};
    ghost use Rattle.order.specs.Plan.{plan_in};
    ghost use Rattle.order.specs.Checks.{first_of, judge_calendar};
    ghost use Rattle.calendars.specs.Calendars.{InPlan, hours_verdict};

    // A sheet with the table of its calendars.
    pub fn new(sheet: Sheet<'a>, calendars: &'a [PlanCalendar]) -> PlanSheet<'a>
        requires { Places sheet.bytes.now sheet.contents calendars.now }
        ensures { (result.sheet ≡ sheet.entry) × (result.calendars.now ≡ calendars.now) }
    {
        PlanSheet { sheet, calendars }
    }

    // Calendar `k` as the clock takes it; every number from the sheet's calendars on names the round-the-clock one.
    pub fn calendar(&self, k: usize) -> Calendar<'a>
        ensures { InPlan self.now.sheet k result }
    {
        if k >= self.sheet.contents.calendars {
            return Calendar::new(&ROUND_THE_CLOCK, self.sheet.bytes, 0, 0);
        }
        let row = &self.calendars[k];
        Calendar::new(&row.week, self.sheet.bytes, row.at, row.n)
    }

    // Row 5 for all calendars: whether each has weekly hours.
    pub fn have_hours(&self) -> bool
        ensures { hours_verdict result ≡ first_of (judge_calendar (plan_in self.now.sheet)) self.now.sheet.contents.calendars 0 }
    {
        self.calendars[..self.sheet.contents.calendars]
            .iter()
            .all(|row| calendar::has_hours(row.week))
    }
}
